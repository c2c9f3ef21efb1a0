// Drops the m lowest and the m highest readings by their ranks.
#![tactic(auto)]

ghost use Rattle.std.specs.Prelude.{◌≡◌, ◌*◌, ◌-◌, ◌≤◌, ◌<◌, length, get_or};
ghost use Rattle.arithmetic.specs.Writing.{table};
ghost use Rattle.model.specs.Ensemble.{max_cabinets};
ghost use Rattle.held.specs.Held.{value_at, kept_mark};
ghost use Rattle.dropping.specs.Dropping.{trimmed_sum, dropped_sum, dropped_mark, dropped_marks};
ghost use Rattle.rank_trimming.specs.Trimming.{between, Ranked};

use model::TRIMMED_MIDPOINT;

// Strikes out the readings that have one of the m lowest ranks, or one of the m highest, and gives the sum that the
// rule asks for: of the lowest and the highest number left, or of all.
fn sum_kept(marks: &mut [u8], numbers: &[u32], ranks: &[u8], m: u8, rule: u8) -> u64
    requires marks_len_bound { (length marks.old ≤ max_cabinets) × (2 * m < length marks.old) }
    requires numbers_len { (length numbers.now ≡ length marks.old) × (length ranks.now ≡ length marks.old) }
    requires ranked { Ranked numbers.now ranks.now }
    ensures value { result ≡ trimmed_sum rule (length marks.old) m (value_at numbers.now) }
    ensures marks_after { marks.new
        ≡ table
        (λ r.
        kept_mark (between ranks.now m (length marks.old - m) r) (get_or marks.old r 0))
        (length marks.old) }
{
    let end = marks.len() as u8 - m;
    let last = end - 1;
    let mut sum: u64 = 0;
    let mut ends: u64 = 0;
    'readings: for (r, mark) in marks.iter_mut().enumerate() {
        let rank = ranks[r];
        let number = numbers[r];
        let kept = (m <= rank) & (rank < end);
        *mark = held::kept_mark(kept, *mark);
        sum += dropping::part(number, kept);
        ends += dropping::part(number, rank == m) + dropping::part(number, rank == last);
    }
    if rule == TRIMMED_MIDPOINT { ends } else { sum }
}

// Drops the m lowest and the m highest of at most 64 readings: strikes them out, and gives the sum that the rule takes
// the mean of. Where the lists do not fit, or none is left, there is no sum and the marks are left as they are.
// Stays: the rule is its byte of document 01's sheet, and DECISIONS 95 names the function (a).
pub fn drop_ends(marks: &mut [u8], numbers: &[u32], m: u8, rule: u8) -> Option<u64>
    ensures value { result ≡ dropped_sum rule m marks.old numbers.now }
    ensures marks_after { marks.new ≡ dropped_marks m marks.old numbers.now }
{
    let n = marks.len();
    if dropping::unfit(n, numbers.len(), m) {
        return None;
    }
    // Stays: a fixed array, lent as far as it is used, since the project has no heap (a).
    let mut places = [0u8; 64];
    let ranks = &mut places[..n];
    ranks::rank(numbers, &mut *ranks);
    Some(sum_kept(marks, numbers, &*ranks, m, rule))
}
