// Document 01, "Numbers of refusal": checks 6, 8 and 9 of a sheet.
#![tactic(auto)]

ghost use Rattle.std.specs.Prelude.{◌≡◌, ◌∷◌, length};
ghost use Rattle.refusals.specs.Answers.{check_of};
ghost use Rattle.model.specs.RoundSheet.{entry_count, sheet_length, mark_at, bits_at};
ghost use Rattle.model.specs.Refusals.{first_of, or_next, bad_length, array_checks};
ghost use Rattle.mark_checks.specs.Marks.{marks_in};
ghost use Rattle.missing_search.specs.Missing.{missing_in};

use model::{HEADER_SIZE, Settings};
use refusals::{Reason, Refusal};

// Checks 8 and 9 of marks, and of readings of four bytes each. Lists that no sheet has pass. Where every mark is 1
// neither has anything to find.
pub fn check_parts(marks: &[u8], readings: &[u8]) -> Result<(), Refusal>
    ensures { check_of result
        ≡ or_next (marks_in marks.now) (missing_in marks.now readings.now) }
{
    let seen = mark_checks::survey(marks);
    if seen == 0 {
        return Ok(());
    }
    mark_checks::search(marks, seen)?;
    missing_search::search(marks, readings)
}

// Checks 6, 8 and 9 of a sheet with these settings.
pub fn check_entries(sheet: &[u8], settings: Settings) -> Result<(), Refusal>
    ensures { check_of result
        ≡ first_of (bad_length (length sheet.now) (sheet_length settings)
        ∷ array_checks (mark_at sheet.now)
        (bits_at sheet.now (entry_count settings)) (entry_count settings)) }
{
    if sheet.len() != sheet_sizes::sheet_length(settings) {
        return Err(Reason::BadLength.into());
    }
    let body = HEADER_SIZE + sheet_sizes::entry_count(settings);
    check_parts(&sheet[HEADER_SIZE..body], &sheet[body..])
}
