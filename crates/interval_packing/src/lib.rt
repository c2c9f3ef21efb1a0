// How the call for C and for Rust answers with an interval. Beside a refusal it is zeros.
#![tactic(auto)]

ghost use Rattle.std.specs.Prelude.{◌≡◌};
ghost use Rattle.interval_bounds.specs.Answers.{scheduled_of};
ghost use Rattle.interval_packing.specs.Answers.{scheduling_of};

use interval_bounds::Interval;
use refusals::Refusal;

// What the call hands over: 0 or a refusal, and the least and the greatest interval.
#[repr(C)]
#[derive(Clone, Copy)]
pub struct Scheduling {
    pub answer: u64,
    pub least: u64,
    pub greatest: u64,
}

// An interval.
pub fn pack_scheduled(scheduled: Result<Interval, Refusal>) -> Scheduling
    ensures { result ≡ scheduling_of (scheduled_of scheduled) }
{
    match scheduled {
        Ok(interval) => Scheduling {
            answer: 0,
            least: interval.least,
            greatest: interval.greatest,
        },
        Err(refusal) => Scheduling {
            answer: packed_refusals::pack_refusal(refusal),
            least: 0,
            greatest: 0,
        },
    }
}
