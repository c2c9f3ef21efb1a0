// Drops the m lowest and the m highest of more readings than are ranked one by one: by the thresholds between which
// those that are left lie. A number at a threshold is dropped or left by its place.
#![tactic(auto)]

ghost use Rattle.std.specs.Prelude.{◌≡◌, cond, ◌+◌, ◌*◌, ◌-◌, ◌≤◌, ltb, eqb, length, get_or};
ghost use Rattle.arithmetic.specs.Words.{two_to32};
ghost use Rattle.arithmetic.specs.Writing.{table};
ghost use Rattle.model.specs.Ensemble.{max_cabinets};
ghost use Rattle.held.specs.Held.{value_at, kept_mark};
ghost use Rattle.dropping.specs.Dropping.{dropped_sum, dropped_marks};
ghost use Rattle.threshold_trimming.specs.Trimming.{EndOf, before, is_left, left_at, between, between_total};
ghost use Rattle.threshold_trimming.specs.Trimming.{least_from, greatest_to};

use model::TRIMMED_MIDPOINT;
use thresholds::{Threshold, Thresholds};

// Where numbers end: those below `at` come before it, and of those equal to it the ones whose place is before `place`.
#[derive(Clone, Copy)]
struct End {
    at: u32,
    place: u32,
}

// What lies behind the one end and before the other.
#[derive(Clone, Copy)]
struct Left {
    low: End,
    high: End,
}

// Where the numbers of a threshold end: behind the first `ties` that are equal to it, or behind all where there are
// fewer.
fn find_end(numbers: &[u32], threshold: Threshold) -> End
    requires { length numbers.now ≤ max_cabinets }
    ensures { EndOf (value_at numbers.now) (length numbers.now) threshold result }
{
    let mut left = threshold.ties;
    'numbers: for (r, number) in numbers.iter().enumerate() {
        if left == 0 {
            return End {
                at: threshold.at,
                place: r as u32,
            };
        }
        left -= (*number == threshold.at) as u32;
    }
    End {
        at: threshold.at,
        place: numbers.len() as u32,
    }
}

// Whether a number comes before an end.
fn before(number: u32, place: u32, end: End) -> bool
    ensures { result ≡ before number place end }
{
    (number < end.at) | ((number == end.at) & (place < end.place))
}

// Whether a number is left.
fn is_left(number: u32, place: u32, left: Left) -> bool
    ensures { result ≡ is_left number place left }
{
    !before(number, place, left.low) & before(number, place, left.high)
}

// Strikes out the readings that are not left.
// Stays: agreement::strike is this loop with another test; a closure for the test is longer than the line (d).
fn strike(marks: &mut [u8], numbers: &[u32], left: Left)
    requires { (length marks.old ≤ max_cabinets) × (length numbers.now ≡ length marks.old) }
    ensures { marks.new
        ≡ table
        (λ r. kept_mark (left_at (value_at numbers.now) left r) (get_or marks.old r 0))
        (length marks.old) }
{
    'readings: for (r, mark) in marks.iter_mut().enumerate() {
        *mark = held::kept_mark(is_left(numbers[r], r as u32, left), *mark);
    }
}

// Whether a number is at least low and below high.
fn between(number: u32, low: u32, high: u32) -> bool
    ensures { result ≡ between low high number }
{
    (low <= number) & (number < high)
}

// The sum of the numbers from low on and below high.
fn sum_between(numbers: &[u32], low: u32, high: u32) -> u64
    requires { length numbers.now ≤ max_cabinets }
    ensures { result ≡ between_total (value_at numbers.now) low high (length numbers.now) }
{
    let mut sum: u64 = 0;
    'numbers: for number in numbers {
        sum += dropping::part(*number, between(*number, low, high));
    }
    sum
}

// The sum of the numbers that are left: of those from the lower threshold on and below the upper one, without those
// dropped at the lower one, and with those kept at the upper one.
fn sum_left(numbers: &[u32], t: Thresholds) -> u64
    requires numbers_len_bound { (length numbers.now ≤ max_cabinets) × (t.high.ties ≤ max_cabinets) }
    requires low_bound { t.low.ties * t.low.at
        ≤ between_total (value_at numbers.now) t.low.at t.high.at (length numbers.now)
        + t.high.ties * t.high.at }
    ensures { result
        ≡ between_total (value_at numbers.now) t.low.at t.high.at (length numbers.now)
        + t.high.ties * t.high.at
        - t.low.ties * t.low.at }
{
    sum_between(numbers, t.low.at, t.high.at) + (t.high.ties as u64) * (t.high.at as u64)
        - (t.low.ties as u64) * (t.low.at as u64)
}

// A number that is at least low; the highest of 32 bits for any other.
fn from_low(low: u32, number: u32) -> u32
    ensures { result ≡ cond (ltb number low) (two_to32 - 1) number }
{
    if number < low { u32::MAX } else { number }
}

// A number that is at most high; 0 for any other.
fn to_high(high: u32, number: u32) -> u32
    ensures { result ≡ cond (ltb high number) 0 number }
{
    if high < number { 0 } else { number }
}

// The sum of the least number from low on and the greatest up to high.
fn sum_ends(numbers: &[u32], low: u32, high: u32) -> u64
    ensures { result
        ≡ least_from (value_at numbers.now) low (length numbers.now)
        + greatest_to (value_at numbers.now) high (length numbers.now) }
{
    let mut least = u32::MAX;
    let mut most: u32 = 0;
    'numbers: for number in numbers {
        least = least.min(from_low(low, *number));
        most = most.max(to_high(high, *number));
    }
    (least as u64) + (most as u64)
}

// The highest number that is left up to a threshold: one below it, where none equal to it is left.
fn last_kept(high: Threshold) -> u32
    ensures { result ≡ cond (eqb high.ties 0) (high.at - 1) high.at }
{
    if high.ties == 0 {
        high.at.saturating_sub(1)
    } else {
        high.at
    }
}

// Drops the m lowest and the m highest of at most 64 readings: strikes them out, and gives the sum that the rule takes
// the mean of. Where the lists do not fit, or none is left, there is no sum and the marks are left as they are.
// Stays: the rule is its byte of document 01's sheet, and DECISIONS 95 names the function (a).
pub fn drop_ends(marks: &mut [u8], numbers: &[u32], m: u8, rule: u8) -> Option<u64>
    ensures value { result ≡ dropped_sum rule m marks.old numbers.now }
    ensures marks_after { marks.new ≡ dropped_marks m marks.old numbers.now }
{
    if marks.len() != numbers.len() {
        return None;
    }
    let t = thresholds::find_both(numbers, m)?;
    let left = Left {
        low: find_end(numbers, t.low),
        high: find_end(numbers, t.high),
    };
    strike(marks, numbers, left);
    Some(if rule == TRIMMED_MIDPOINT {
        sum_ends(numbers, t.low.at, last_kept(t.high))
    } else {
        sum_left(numbers, t)
    })
}
