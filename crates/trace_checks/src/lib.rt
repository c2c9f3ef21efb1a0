// Document 02, "Paper 1. Replay of a station run": the checks of a trace, all but 15.
#![tactic(auto)]

ghost use Rattle.std.specs.Prelude.{◌≡◌};
ghost use Rattle.model.specs.RoundSheet.{settings_at};
ghost use Rattle.model.specs.Refusals.{first_of};
ghost use Rattle.model.specs.Calls.{verdict};
ghost use Rattle.refusals.specs.Answers.{check_of, verdict_of};
ghost use Rattle.trace.specs.Replay.{trace_checks};
ghost use Rattle.trace_checks.specs.Bodies.{Shaped, body_of};

use model::{HEADER_SIZE, Settings, TRACE_HEADER_SIZE};
use refusals::Refusal;

// Checks 8, 9 and 14 of a trace of so many cabinets and rounds.
#[tactic(auto, using(crate::proofs::Parts::entries_refused))]
fn check_entries(trace: &[u8], n: u8, rounds: u8) -> Result<(), Refusal>
    requires { Shaped trace.now n rounds }
    ensures { check_of result ≡ first_of (body_of trace.now n rounds) }
{
    let start = trace_sizes::marks_start(n);
    let body = trace_sizes::readings_start(n, rounds);
    let marks = &trace[start..body];
    let last = TRACE_HEADER_SIZE + (n as usize);
    entry_checks::check_parts(marks, &trace[body..])?;
    role_checks::check(&trace[TRACE_HEADER_SIZE..last], marks)
}

// A trace's settings, or the first refusal of checks 1 to 5, 13, 7, 8, 9 and 14, for a buffer of this length.
#[tactic(auto, using(crate::proofs::Traced::ways))]
pub fn screen(trace: &[u8], room: usize) -> Result<Settings, Refusal>
    ensures { verdict_of result
        ≡ verdict (first_of (trace_checks trace.now room)) (settings_at trace.now) }
{
    let settings = trace_heads::inspect(trace, room)?;
    let rounds = words::byte_at(trace, HEADER_SIZE);
    check_entries(trace, settings.n, rounds)?;
    Ok(settings)
}
