// The tests of one cabinet in a round of a recorded run: whether it is faulty, how many must agree, and whether it
// meets too many faults.
#![tactic(auto)]

ghost use Rattle.std.specs.Prelude.{◌≡◌, not, ◌-◌, eqb};

use model::SOUND;

pub fn is_faulty(role: u8) -> bool
    ensures { result ≡ not (eqb role 1) }
{
    role != SOUND
}

// N-m, or 0 where m is above N.
pub fn quorum(n: u8, m: u8) -> u32
    ensures { result ≡ n - m }
{
    if n < m {
        return 0;
    }
    (n as u32) - (m as u32)
}

// Whether a cabinet that accepts so many readings meets too many faults.
pub fn meets_too_many(count: u32) -> bool
    ensures { result ≡ eqb count 0 }
{
    count == 0
}
