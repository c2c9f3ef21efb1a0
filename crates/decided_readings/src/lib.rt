// The readings of a sheet as decided from each cabinet's row of copies, held as marks and as values of 32 bits beside
// them.
#![tactic(auto)]

ghost use Rattle.std.specs.Prelude.{◌≡◌, length};
ghost use Rattle.model.specs.Steps.{decided_reading};
ghost use Rattle.held.specs.Held.{held_mark, held_value};
ghost use Rattle.held_laws.specs.Stored.{Stored};
ghost use Rattle.decisions.specs.Rows.{decision_of};
ghost use Rattle.decided_readings.specs.Rows.{row_reading, rows_taken};

use held::{MISSING, PRESENT};
use model::MOST;

// The mark that what a row decides is held with.
fn decided_mark(decided: Option<u32>) -> u8
    ensures { result ≡ held_mark (decided_reading (decision_of decided)) }
{
    if decided.is_some() { PRESENT } else { MISSING }
}

// The number that what a row decides is held as; 0 where the row is known faulty.
fn decided_value(decided: Option<u32>) -> u32
    ensures { result ≡ held_value (decided_reading (decision_of decided)) }
{
    decided.map_or(0, held::bias)
}

// How many rows are taken: all of at most 64, or none where the copies or the lent lists are too few.
#[tactic(auto, unfolding(crate::specs::Rows::rows_taken))]
fn takes(n: usize, sent: usize, copies: usize, marks: usize, values: usize) -> usize
    ensures { result ≡ rows_taken n sent copies marks values }
{
    if MOST < n {
        return 0;
    }
    let pairs = n * n;
    if ((pairs <= sent) & (4 * pairs <= copies)) & ((n <= marks) & (n <= values)) {
        n
    } else {
        0
    }
}

// The readings of n cabinets as decided, from the marks of all copies and four bytes for each, a row after the other.
pub fn receive_decided(
    sent: &[u8],
    copies: &[u8],
    n: usize,
    need: u32,
    marks: &mut [u8],
    values: &mut [u32],
)
    ensures { Stored
        (row_reading sent.now copies.now n need)
        (rows_taken
        n
        (length sent.now)
        (length copies.now)
        (length marks.old)
        (length values.old))
        marks.old values.old marks.new values.new }
{
    let rows = takes(n, sent.len(), copies.len(), marks.len(), values.len());
    'rows: for r in 0..rows {
        let start = r * n;
        let end = start + n;
        let decided = decisions::decide(&sent[start..end], &copies[4 * start..4 * end], need);
        marks[r] = decided_mark(decided);
        values[r] = decided_value(decided);
    }
}
