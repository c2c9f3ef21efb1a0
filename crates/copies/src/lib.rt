// The copies of a row: a mark for each, and four bytes of each. Those that hold a value are counted without a branch.
#![tactic(auto)]

ghost use Rattle.std.specs.Prelude.{◌≡◌, not, ◌&&◌, ◌||◌, ◌+◌, ◌*◌, ◌≤◌, ◌<◌, eqb, ltb, length};
ghost use Rattle.arithmetic.specs.Counting.{count};
ghost use Rattle.model.specs.Ensemble.{max_cabinets};
ghost use Rattle.copies.specs.Copies.{holds_copy, copies_in};

use model::MOST;
use words::Entries;

// Whether a copy is present and holds a value.
pub fn holds(mark: u8, value: u32, bits: u32) -> bool
    ensures { result ≡ (eqb mark 1 && eqb value bits) }
{
    (mark == 1) & (value == bits)
}

// How many present copies hold a value.
#[tactic(auto, using(loop_laws::proofs::Loops::count_next), unfolding(arithmetic::specs::Counting::count))]
fn count_each(row: &Entries, value: u32) -> u32
    requires { length row.now.marks.now ≤ max_cabinets }
    ensures { result
        ≡ count (holds_copy row.now.marks.now row.now.bytes.now value)
        (length row.now.marks.now) }
{
    let mut copies: u32 = 0;
    'copies: for (t, mark) in row.marks.iter().enumerate() {
        copies += u32::from(holds(*mark, value, row.bits(t)));
    }
    copies
}

fn misfit(marks: usize, row: usize) -> bool
    ensures { result ≡ (ltb max_cabinets marks || not (eqb row (4 * marks))) }
{
    MOST < marks || row != 4 * marks
}

// How many present copies hold a value, where there are at most 64 copies and four bytes of each; any other row counts
// none.
// Stays: the marks and the bytes apart, since the clause with `copies_in` promises 0 for lists that don't fit too (a).
#[tactic(auto, unfolding(crate::specs::Copies::copies_in))]
pub fn count_copies(marks: &[u8], row: &[u8], value: u32) -> u32
    ensures { result ≡ copies_in marks.now row.now value }
{
    if misfit(marks.len(), row.len()) {
        return 0;
    }
    count_each(&Entries { marks, bytes: row }, value)
}
