// How many rounds of a trace are played.
#![tactic(auto)]

ghost use Rattle.std.specs.Prelude.{◌≡◌, min, ltb};

// The rounds that are asked for, at most as many as the trace has.
pub fn rounds_to_play(rounds: u8, most: u8) -> u8
    ensures { result ≡ min most rounds }
{
    most.min(rounds)
}

// Whether a trace has fewer rounds than k.
pub fn is_past(rounds: u8, k: u8) -> bool
    ensures { result ≡ ltb rounds k }
{
    rounds < k
}
