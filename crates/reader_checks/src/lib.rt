// Document 01, "Numbers of refusal": checks 1 to 9 of the reader.
#![tactic(auto)]

ghost use Rattle.std.specs.Prelude.{◌≡◌};
ghost use Rattle.model.specs.RoundSheet.{settings_at, entry_count};
ghost use Rattle.model.specs.Refusals.{or_next, first_of, no_room, read_checks};
ghost use Rattle.model.specs.Calls.{verdict};
ghost use Rattle.refusals.specs.Answers.{check_of, verdict_of};

use model::{HEADER_SIZE, Settings};
use refusals::{Reason, Refusal};

// Check 7 of lent arrays of these lengths.
#[tactic(auto, unfolding(model::specs::Refusals::no_room))]
fn check_room(settings: Settings, marks: usize, readings: usize) -> Result<(), Refusal>
    ensures { check_of result
        ≡ or_next
        (no_room marks (entry_count settings))
        (no_room readings (entry_count settings)) }
{
    let entries = sheet_sizes::entry_count(settings);
    refusals::refuse_if(marks < entries, Reason::NoRoom)?;
    refusals::refuse_if(readings < entries, Reason::NoRoom)
}

// Checks 1 to 9 of the reader, lent arrays of these lengths.
#[tactic(auto, using(crate::proofs::Opening::ways))]
pub fn check(sheet: &[u8], marks: usize, readings: usize) -> Result<Settings, Refusal>
    ensures { verdict_of result
        ≡ verdict (first_of (read_checks sheet.now marks readings)) (settings_at sheet.now) }
{
    let settings = sheet_checks::inspect(sheet)?;
    check_room(settings, marks, readings)?;
    let body = HEADER_SIZE + sheet_sizes::entry_count(settings);
    entry_checks::check_parts(&sheet[HEADER_SIZE..body], &sheet[body..])?;
    Ok(settings)
}
