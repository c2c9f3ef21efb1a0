// Check 9 of marks and, for each, a reading of four bytes: the lowest that is missing with bytes that are not zero.
#![tactic(auto)]

ghost use Rattle.std.specs.Prelude.{◌≡◌, cond, not, ◌||◌, ◌*◌, ◌≤◌, ◌<◌, min, ltb, eqb, length};
ghost use Rattle.arithmetic.specs.Counting.{lowest};
ghost use Rattle.model.specs.RoundSheet.{byte, word};
ghost use Rattle.model.specs.Refusals.{not_zero};
ghost use Rattle.refusals.specs.Answers.{check_of};
ghost use Rattle.sheet_sizes.specs.Bounds.{most_entries};
ghost use Rattle.missing_search.specs.Missing.{missing_in};
ghost use Rattle.missing_search.specs.Places.{place_of};

use refusals::{Reason, Refusal};
use sheet_sizes::MAX_ENTRIES;

// A place past every entry.
const NOWHERE: u32 = MAX_ENTRIES as u32;

// Whether an entry is missing with bytes that are not zero.
fn not_zero(marks: &[u8], readings: &[u8], e: usize) -> bool
    requires { (length readings.now ≡ 4 * length marks.now) × (e < length marks.now) }
    ensures { result ≡ not_zero (byte marks.now e) (word readings.now (4 * e)) }
{
    let i = 4 * e;
    let bits = words::join(
        readings[i],
        readings[i + 1],
        readings[i + 2],
        readings[i + 3],
    );
    blanks::is_missing(marks[e]) & blanks::is_filled(bits)
}

// An entry's place, or nowhere if it is not at fault.
fn place_if(bad: bool, e: u32) -> u32
    ensures { result ≡ cond bad e most_entries }
{
    if bad { e } else { NOWHERE }
}

// The lowest entry at fault, or nowhere: one pass that has no branch on what it reads.
fn lowest_place(marks: &[u8], readings: &[u8]) -> u32
    requires { (length readings.now ≡ 4 * length marks.now) × (length marks.now ≤ most_entries) }
    ensures { result
        ≡ place_of (lowest (λ e. not_zero (byte marks.now e) (word readings.now (4 * e)))
        (length marks.now)) }
{
    let mut place: u32 = NOWHERE;
    'entries: for entry in 0..marks.len() {
        place = place.min(place_if(not_zero(marks, readings, entry), entry as u32));
    }
    place
}

// Whether the readings are not four bytes for each mark, or the marks are more than a sheet can have.
fn misfit(marks: usize, readings: usize) -> bool
    ensures { result ≡ (ltb most_entries marks || not (eqb readings (4 * marks))) }
{
    (MAX_ENTRIES < marks) | ((readings / 4 != marks) | (readings % 4 != 0))
}

// Check 9. Lists that do not fit pass unseen.
pub fn search(marks: &[u8], readings: &[u8]) -> Result<(), Refusal>
    ensures { check_of result ≡ missing_in marks.now readings.now }
{
    if misfit(marks.len(), readings.len()) {
        return Ok(());
    }
    let place = lowest_place(marks, readings);
    if place == NOWHERE {
        return Ok(());
    }
    Err(Reason::BadMissing.at(place))
}
