// Settling: from a round sheet to its answer sheet, or one numbered refusal. Document 02, "Paper 2. Cable runs differ":
// with a spread, which a caller without one has as 0.
#![tactic(auto)]

ghost use Rattle.std.specs.Prelude.{◌≡◌, length, ℕ, ◌≤◌, ◌<◌};
ghost use Rattle.model.specs.Ensemble.{max_cabinets, max_window, max_spread};
ghost use Rattle.model.specs.RoundSheet.{cca};
ghost use Rattle.model.specs.AnswerSheet.{answer_length};
ghost use Rattle.model.specs.Calls.{settle_spread, settle};
ghost use Rattle.model.specs.Steps.{span_width};
ghost use Rattle.refusals.specs.Answers.{outcome_of};
ghost use Rattle.settling.specs.Rounds.{Ready, spread_of, settling_by, numbers_of, marks_of};
ghost use Rattle.reception.specs.Receiving.{values_received};

use answer_parts::Outcome;
use estimates::Estimated;
use model::{CCA, Settings, TRIMMED_MIDPOINT};
use refusals::{Reason, Refusal};

// The width of a span.
fn span_width(settings: Settings, spread: u32) -> u32
    requires { (settings.window ≤ max_window) × (spread ≤ max_spread) }
    ensures { result ≡ span_width settings spread }
{
    settings.window + spread
}

// Receives a sheet by rule 2 or 3 into lent lists, and drops the lowest and the highest of its readings; there are no
// spans. Trimming is called in two places, so that the compiler keeps it out of the way of FCA and CCA.
fn settle_trimmed(
    sheet: &[u8],
    settings: Settings,
    marks: &mut [u8],
    values: &mut [u32],
) -> Estimated
    requires { cca < settings.rule }
    ensures value { (w : ℕ) → result ≡ numbers_of sheet.now settings w marks.old values.old }
    ensures marks_after { (w : ℕ)
        → marks.new ≡ marks_of sheet.now settings w marks.old values.old }
    ensures values_after { values.new
        ≡ values_received sheet.now settings marks.old values.old }
    ensures count_le_max_cabinets { result.count ≤ max_cabinets }
{
    reception::receive_direct(sheet, settings, &mut *marks, &mut *values);
    if settings.rule == TRIMMED_MIDPOINT {
        trimming::trim(marks, &*values, settings.m, TRIMMED_MIDPOINT)
    } else {
        trimming::trim(marks, &*values, settings.m, settings.rule)
    }
}

// Receives a sheet by FCA or CCA into lent lists, and agrees by spans of a width.
fn settle_spans(
    sheet: &[u8],
    settings: Settings,
    span: u32,
    marks: &mut [u8],
    values: &mut [u32],
) -> Estimated
    requires { (settings.rule ≤ cca) × (settings.m ≤ settings.n) }
    ensures value { result ≡ numbers_of sheet.now settings span marks.old values.old }
    ensures marks_after { marks.new ≡ marks_of sheet.now settings span marks.old values.old }
    ensures values_after { values.new
        ≡ values_received sheet.now settings marks.old values.old }
    ensures count_le_max_cabinets { result.count ≤ max_cabinets }
{
    reception::receive(sheet, settings, &mut *marks, &mut *values);
    let need = settings.n - settings.m;
    agreement::agree(marks, &*values, span, need as u32, settings.estimator)
}

// Receives a sheet into lent lists and settles it by its rule: the marks say what the round makes of each reading.
fn settle_by(
    sheet: &[u8],
    settings: Settings,
    span: u32,
    marks: &mut [u8],
    values: &mut [u32],
) -> Estimated
    requires { settings.m ≤ settings.n }
    ensures value { result ≡ numbers_of sheet.now settings span marks.old values.old }
    ensures marks_after { marks.new ≡ marks_of sheet.now settings span marks.old values.old }
    ensures values_after { values.new
        ≡ values_received sheet.now settings marks.old values.old }
    ensures count_le_max_cabinets { result.count ≤ max_cabinets }
{
    if CCA < settings.rule {
        settle_trimmed(sheet, settings, marks, values)
    } else {
        settle_spans(sheet, settings, span, marks, values)
    }
}

// Settles a sheet that passes checks 1 to 9 and 16, with lent places for each cabinet's mark and value: what check 10
// says.
fn settle_in(
    sheet: &[u8],
    settings: Settings,
    span: u32,
    marks: &mut [u8],
    values: &mut [u32],
    answer: &mut [u8],
) -> Result<(), Refusal>
    requires ready { Ready sheet.now settings (spread_of settings span) answer.old × (settings.window ≤ span) }
    requires marks_len { (length marks.old ≡ settings.n) × (length values.old ≡ settings.n) }
    ensures { settling_by result (answer_length settings.n) answer.new
        ≡ settle_spread sheet.now (spread_of settings span) answer.old }
{
    let settled = settle_by(sheet, settings, span, &mut *marks, &mut *values);
    let outcome = Outcome {
        count: settled.count as u8,
        estimate: settled.estimate,
        value: settled.value,
    };
    outcomes::conclude(outcome, &*marks, &*values, answer)
}

// The same, with places of its own.
fn settle_valid(
    sheet: &[u8],
    settings: Settings,
    span: u32,
    answer: &mut [u8],
) -> Result<(), Refusal>
    requires { Ready sheet.now settings (spread_of settings span) answer.old × (settings.window ≤ span) }
    ensures { settling_by result (answer_length settings.n) answer.new
        ≡ settle_spread sheet.now (spread_of settings span) answer.old }
{
    let n = settings.n as usize;
    // Stays: a fixed array, lent as far as it is used, since the project has no heap (a).
    let mut marks = [0u8; 64];
    let mut values = [0u32; 64];
    settle_in(
        sheet,
        settings,
        span,
        &mut marks[..n],
        &mut values[..n],
        answer,
    )
}

// Settles a round sheet whose cabinets read a third alike up to a spread: the answer sheet in the lent buffer, or the
// first refusal of checks 1 to 5, 16, and 6 to 10, which changes nothing.
#[tactic(auto, using(crate::proofs::Checking::inspection_refuses, crate::proofs::Checking::entries_refuse))]
pub fn settle_spread(sheet: &[u8], spread: u32, answer: &mut [u8]) -> Result<usize, Refusal>
    ensures { outcome_of result answer.new ≡ settle_spread sheet.now spread answer.old }
{
    let settings = sheet_checks::inspect_spread(sheet, spread)?;
    let span = span_width(settings, spread);
    let size = sheet_sizes::answer_length(settings.n);
    if answer.len() < size {
        return Err(Reason::NoRoom.into());
    }
    entry_checks::check_entries(sheet, settings)?;
    settle_valid(sheet, settings, span, answer)?;
    Ok(size)
}

// The same without a spread.
pub fn settle(sheet: &[u8], answer: &mut [u8]) -> Result<usize, Refusal>
    ensures { outcome_of result answer.new ≡ settle sheet.now answer.old }
{
    settle_spread(sheet, 0, answer)
}
