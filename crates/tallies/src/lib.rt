// What the count of one value's copies tells of a row: whether they decide it, or leave too few for any other value.
#![tactic(auto)]

ghost use Rattle.std.specs.Prelude.{◌≡◌, ◌-◌, leb, ltb};

// Whether a value is decided by its copies.
pub fn enough(need: u32, copies: u32) -> bool
    ensures { result ≡ leb need copies }
{
    need <= copies
}

// Whether a value's copies leave too few of n for another to be decided.
pub fn spent(n: u32, need: u32, copies: u32) -> bool
    ensures { result ≡ ltb (n - need) copies }
{
    n.saturating_sub(need) < copies
}
