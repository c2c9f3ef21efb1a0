// Document 01, "Numbers of refusal": checks 2 to 9 of the writer.
#![tactic(auto)]

ghost use Rattle.std.specs.Prelude.{◌≡◌, ◌≤◌, length};
ghost use Rattle.std.specs.Int.{w32};
ghost use Rattle.std.proofs.Common.{of_z};
ghost use Rattle.model.specs.RoundSheet.{byte, bits_in};
ghost use Rattle.model.specs.Refusals.{first_of, not_zero, bad_missing, write_checks};
ghost use Rattle.refusals.specs.Answers.{check_of};
ghost use Rattle.sheet_sizes.specs.Bounds.{most_entries};
ghost use Rattle.writer_checks.specs.Lengths.{length_checks};

use model::Settings;
use refusals::{Reason, Refusal};

// Whether an entry is missing with a reading that is not zero.
fn not_zero(mark: u8, reading: i32) -> bool
    ensures { result ≡ not_zero mark (of_z w32 reading) }
{
    (mark == 0) & (reading != 0)
}

// Check 9 of as many marks as readings.
fn check_missing(marks: &[u8], readings: &[i32]) -> Result<(), Refusal>
    requires { (length readings.now ≡ length marks.now) × (length marks.now ≤ most_entries) }
    ensures { check_of result
        ≡ bad_missing (byte marks.now) (bits_in readings.now) (length marks.now) }
{
    'entries: for (e, mark) in marks.iter().enumerate() {
        if not_zero(*mark, readings[e]) {
            return Err(Reason::BadMissing.at(e as u32));
        }
    }
    Ok(())
}

// Checks 2 to 7, of arrays and a buffer of these lengths.
#[tactic(auto, using(crate::proofs::Writing::lengths_in_turn))]
fn check_lengths(
    settings: Settings,
    marks: usize,
    readings: usize,
    room: usize,
) -> Result<(), Refusal>
    ensures { check_of result ≡ first_of (length_checks settings marks readings room) }
{
    let entries = sheet_sizes::entry_count(settings);
    let size = sheet_sizes::sheet_length(settings);
    settings_checks::screen(settings)?;
    refusals::refuse_if(marks != entries, Reason::BadLength)?;
    refusals::refuse_if(readings != entries, Reason::BadLength)?;
    refusals::refuse_if(room < size, Reason::NoRoom)
}

// Checks 2 to 9 of the writer, lent a buffer of that length.
#[tactic(auto, using(crate::proofs::Writing::lengths_refused, crate::proofs::Writing::marks_refused))]
pub fn check(settings: Settings, marks: &[u8], readings: &[i32], room: usize) -> Result<(), Refusal>
    ensures { check_of result ≡ first_of (write_checks settings marks.now readings.now room) }
{
    check_lengths(settings, marks.len(), readings.len(), room)?;
    mark_checks::check(marks)?;
    check_missing(marks, readings)
}
