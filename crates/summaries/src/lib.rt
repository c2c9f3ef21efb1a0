// What is gathered of readings: how many are present, the lowest, the highest, and the sum of their distances from the
// lowest. Readings are held by their marks and by their ticks moved up by 2^31.
#![tactic(auto)]

ghost use Rattle.std.specs.Prelude.{◌≡◌, ℕ, ◌+◌, ◌-◌, ◌*◌, ◌%◌, ◌<◌, ◌≤◌, ◌||◌, ◌==◌, nat_lt};
ghost use Rattle.arithmetic.specs.Words.{two_to32};
ghost use Rattle.model.specs.Ensemble.{max_cabinets};
ghost use Rattle.summaries.specs.Summaries.{Fitting, OnePass, most_apart, Gathers};

use held::PRESENT;
use model::{MAX_SPREAD, MAX_WINDOW};

// Twice the widest span.
const MOST_APART: u32 = 2 * (MAX_WINDOW + MAX_SPREAD);

// What one pass over the readings gathers of the present ones: how many they are, 32 bits of their sum, the lowest and
// the highest.
#[derive(Clone, Copy)]
struct Gathered {
    count: u32,
    total: u32,
    low: u32,
    high: u32,
}

// The same, with the sum of their distances from the lowest.
#[derive(Clone, Copy)]
pub struct Summary {
    pub count: u32,
    pub sum: u32,
    pub low: u32,
    pub high: u32,
}

// Where no reading is present, the lowest is the highest number and the highest is 0.
fn gather(marks: &[u8], values: &[u32]) -> Gathered
    requires { Fitting marks.now values.now }
    ensures { OnePass result marks.now values.now }
{
    let mut count: u32 = 0;
    let mut total: u32 = 0;
    let mut low = u32::MAX;
    let mut high: u32 = 0;
    'readings: for t in 0..marks.len() {
        let v = values[t];
        if marks[t] == PRESENT {
            count += 1;
            total = total.wrapping_add(v);
            low = v.min(low);
            high = high.max(v);
        }
    }
    Gathered {
        count,
        total,
        low,
        high,
    }
}

// The sum of so many numbers' distances from the lowest, by 32 bits of the numbers' sum: the lowest is taken off once
// for each. What wrapped comes back, since the distances add up to a number of 32 bits.
fn sum_distances(count: u32, total: u32, low: u32) -> u32
    requires { count ≤ max_cabinets }
    ensures { (d : ℕ) → d < two_to32 → total ≡ (d + count * low) % two_to32 → result ≡ d }
{
    total.wrapping_sub(count.wrapping_mul(low))
}

// Whether no reading is present, or two lie farther apart than twice the widest span.
fn unsummable(count: u32, low: u32, high: u32) -> bool
    requires { 0 < count → low ≤ high }
    ensures { result ≡ (count == 0 || nat_lt most_apart (high - low)) }
{
    if count == 0 {
        return true;
    }
    MOST_APART < high - low
}

// What is gathered of the readings of at most 64 cabinets; nothing where none is present or two lie farther apart than
// twice the widest span, and for lists that are not equally long or are longer.
pub fn summarize(marks: &[u8], values: &[u32]) -> Option<Summary>
    ensures { Gathers result marks.now values.now }
{
    if held::unfit(marks.len(), values.len()) {
        return None;
    }
    let all = gather(marks, values);
    if unsummable(all.count, all.low, all.high) {
        return None;
    }
    Some(Summary {
        count: all.count,
        sum: sum_distances(all.count, all.total, all.low),
        low: all.low,
        high: all.high,
    })
}
