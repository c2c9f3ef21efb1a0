// Document 02, "Paper 6. How long between rounds": the least and the greatest interval that meets both of the paper's
// inequalities. R times its factor in the second does not fit 64 bits, so the bounds are found by dividing.
#![tactic(auto)]

ghost use Rattle.std.specs.Prelude.{◌≡◌, ◌≤◌, ◌<◌};
ghost use Rattle.model.specs.Ensemble.{max_window};
ghost use Rattle.interval.specs.Interval.{max_precision, max_drift, out_of_range, interval};
ghost use Rattle.interval.specs.Formula.{coefficient, needed, least_by, greatest_by};
ghost use Rattle.interval_bounds.specs.Answers.{scheduled_of};

use model::{MAX_DRIFT, MAX_PRECISION, MAX_WINDOW};
use refusals::{Reason, Refusal};

// The least and the greatest interval, in ticks.
#[derive(Clone, Copy)]
pub struct Interval {
    pub least: u64,
    pub greatest: u64,
}

// Whether an input is outside its range.
#[tactic(auto, unfolding(interval::specs::Interval::out_of_range))]
fn is_outside(window: u32, precision: u32, drift: u32) -> bool
    ensures { result ≡ out_of_range window precision drift }
{
    (MAX_WINDOW < window) | ((MAX_PRECISION < precision) | ((drift < 1) | (MAX_DRIFT < drift)))
}

// What R is multiplied by in the second inequality.
#[tactic(auto, unfolding(interval::specs::Formula::coefficient))]
fn coefficient(drift: u64) -> u64
    requires { drift ≤ max_drift }
    ensures { result ≡ coefficient drift }
{
    4_000_000_000_000 - 4_000_000 * drift - drift * drift
}

// What that product must reach.
#[tactic(auto, using(crate::proofs::Sizes::rate_le), unfolding(interval::specs::Formula::needed))]
fn needed(precision: u64, drift: u64) -> u64
    requires { (precision ≤ max_precision) × (drift ≤ max_drift) }
    ensures { (result ≡ needed precision drift) × (result ≤ 4002000000000000000) }
{
    2 * precision * (2_000_000 + drift) * 1_000_000
}

// The least R of at least 1 that meets the second inequality.
fn least(precision: u64, drift: u64) -> u64
    requires { (precision ≤ max_precision) × (drift ≤ max_drift) }
    ensures { result ≡ least_by precision drift }
{
    if precision == 0 {
        return 1;
    }
    let divisor = coefficient(drift);
    (needed(precision, drift) + (divisor - 1)) / divisor
}

// The greatest R that meets the first inequality; 0 where none of at least 1 does.
#[tactic(auto, unfolding(interval::specs::Formula::greatest_by))]
fn greatest(window: u64, precision: u64, drift: u64) -> u64
    requires { (window ≤ max_window) × (0 < drift) × (drift ≤ max_drift) }
    ensures { result ≡ greatest_by window precision drift }
{
    if window <= precision {
        return 0;
    }
    (window - precision) * (2_000_000 - drift) / (2 * drift)
}

// The least and the greatest interval between rounds for a window, a precision and a drift in parts per million.
#[tactic(auto, using(crate::proofs::Outcomes::ways))]
pub fn interval_for(window: u32, precision: u32, drift: u32) -> Result<Interval, Refusal>
    ensures { scheduled_of result ≡ interval window precision drift }
{
    refusals::refuse_if(is_outside(window, precision, drift), Reason::BadInterval)?;
    let shortest = least(precision as u64, drift as u64);
    let longest = greatest(window as u64, precision as u64, drift as u64);
    refusals::refuse_if(longest < shortest, Reason::NoInterval)?;
    Ok(Interval {
        least: shortest,
        greatest: longest,
    })
}
