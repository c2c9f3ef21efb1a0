// Whether a round is known that reaches the exact limits for more than m bad cabinets (crates/sharpness has it), of any
// settings.
#![tactic(auto)]

ghost use Rattle.std.specs.Prelude.{◌≡◌};
ghost use Rattle.reached_limits.specs.Reached.{reachable};

use model::{FCA, MEDIAN, Settings};

pub fn is_reached(settings: Settings, accuracy: u32, t: u32) -> bool
    ensures { result ≡ reachable settings accuracy t }
{
    let n = settings.n as u64;
    let least = 2 * (settings.m as u64) + (t as u64);
    let window = settings.window as u64;
    let widest = 2 * (accuracy as u64);
    let is_method = (settings.rule == FCA) & (settings.estimator == MEDIAN);
    is_method & ((n <= least) & ((0 < accuracy) & (window <= widest)))
}
