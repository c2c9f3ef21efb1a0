// The tests of a trace's numbers that checks 1, 13 and 7 make.
#![tactic(auto)]

ghost use Rattle.std.specs.Prelude.{◌≡◌, not, ◌||◌, ◌*◌, eqb, ltb};
ghost use Rattle.model.specs.RoundSheet.{fca, header_size};
ghost use Rattle.model.specs.Planner.{max_rounds};

use model::{FCA, HEADER_SIZE, MAX_ROUNDS};

// Whether a trace is shorter than its sizes.
pub fn is_short(length: usize) -> bool
    ensures { result ≡ ltb length header_size }
{
    length < HEADER_SIZE
}

// Whether the rule, the rounds or the length, where this one is wanted, are not those of a trace.
pub fn is_bad(rule: u8, rounds: u8, length: usize, wanted: usize) -> bool
    ensures { result ≡ (not (eqb rule fca) || (ltb max_rounds rounds || not (eqb length wanted))) }
{
    (rule != FCA) | ((MAX_ROUNDS < rounds as u32) | (length != wanted))
}

// Whether a buffer of this length has no room for the values of n cabinets.
pub fn is_narrow(room: usize, n: u8) -> bool
    ensures { result ≡ ltb room (4 * n) }
{
    room < 4 * (n as usize)
}
