// Document 02, "Paper 1. Replay of a station run": the checks of a trace that come before those of its entries.
#![tactic(auto)]

ghost use Rattle.std.specs.Prelude.{◌≡◌, not, ◌||◌, eqb, ltb};
ghost use Rattle.model.specs.RoundSheet.{fca, settings_at};
ghost use Rattle.model.specs.Planner.{max_rounds};
ghost use Rattle.model.specs.Refusals.{first_of};
ghost use Rattle.model.specs.Calls.{verdict};
ghost use Rattle.trace.specs.Trace.{trace_length};
ghost use Rattle.refusals.specs.Answers.{verdict_of};
ghost use Rattle.trace_heads.specs.Heads.{head_checks};

use model::{HEADER_SIZE, Settings};
use refusals::{Reason, Refusal};

// Check 13 of a trace of this length.
fn bad_trace(settings: Settings, rounds: u8, length: usize) -> bool
    ensures { result
        ≡ (not (eqb settings.rule fca)
        || (ltb max_rounds rounds || not (eqb length (trace_length settings.n rounds)))) }
{
    let wanted = trace_sizes::trace_length(settings.n, rounds);
    trace_tests::is_bad(settings.rule, rounds, length, wanted)
}

// Checks 1 to 5, 13 and 7, for a buffer of this length. A trace without a byte of rounds reads 0 there.
#[tactic(auto, using(crate::proofs::Heads::in_turn))]
pub fn inspect(trace: &[u8], room: usize) -> Result<Settings, Refusal>
    ensures { verdict_of result
        ≡ verdict (first_of (head_checks trace.now room)) (settings_at trace.now) }
{
    let short = trace_tests::is_short(trace.len());
    refusals::refuse_if(short, Reason::TooShort)?;
    let settings = sheet_sizes::settings_at(trace);
    settings_checks::screen(settings)?;
    let rounds = words::byte_at(trace, HEADER_SIZE);
    let bad = bad_trace(settings, rounds, trace.len());
    refusals::refuse_if(bad, Reason::BadTrace)?;
    let narrow = trace_tests::is_narrow(room, settings.n);
    refusals::refuse_if(narrow, Reason::NoRoom)?;
    Ok(settings)
}
