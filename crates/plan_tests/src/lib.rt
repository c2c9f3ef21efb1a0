// The tests of the count of rounds for a target.
#![tactic(auto)]

ghost use Rattle.std.specs.Prelude.{◌≡◌, leb, ltb};
ghost use Rattle.model.specs.Planner.{max_rounds};

use model::MAX_ROUNDS;

// Whether a window is not yet at or below the target.
pub fn is_above(window: u32, target: u32) -> bool
    ensures { result ≡ ltb target window }
{
    target < window
}

// Whether no further round may be planned.
pub fn is_last(rounds: u32) -> bool
    ensures { result ≡ leb max_rounds rounds }
{
    MAX_ROUNDS <= rounds
}
