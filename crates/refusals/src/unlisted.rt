// A number that no reason has.

ghost use Rattle.std.specs.Prelude.{◌≤◌, ◌<◌};

// A number of a refusal that is none of 1 to 19.
#[derive(Clone, Copy, PartialEq, Eq)]
pub struct Unlisted {
    pub number: u8,
    pub ghost none: { 1 ≤ number → 19 < number },
}
