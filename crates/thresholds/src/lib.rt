// Where the numbers that are left start and end when the m lowest and the m highest of a list are dropped, equal ones
// by index. Nothing is sorted: a range of numbers is narrowed, and those below a number in it are counted, until as
// many are below its start as are dropped.
#![tactic(auto)]

ghost use Rattle.std.specs.Prelude.{◌≡◌, ◌+◌, ◌≤◌, ◌<◌, length};
ghost use Rattle.model.specs.Ensemble.{max_cabinets};
ghost use Rattle.thresholds.specs.Thresholds.{Bounds, Splits, misfit, Found, max_unit, guessed};

use model::MOST;

// Into so many parts numbers that lie evenly are taken to part their range.
const UNITS: u32 = 64;

// The lowest and the highest of a list's numbers.
#[derive(Clone, Copy)]
struct Range {
    low: u32,
    high: u32,
}

// The threshold of a list's k lowest numbers: these are the ones below `at`, and the first `ties` of those equal to it.
#[derive(Clone, Copy)]
pub struct Threshold {
    pub at: u32,
    pub ties: u32,
}

// The threshold of the m lowest numbers, which are dropped; and that of all but the m highest.
#[derive(Clone, Copy)]
pub struct Thresholds {
    pub low: Threshold,
    pub high: Threshold,
}

// The lowest and the highest number.
fn bound(values: &[u32]) -> Range
    requires { 0 < length values.now }
    ensures { Bounds values.now result }
{
    let mut low = u32::MAX;
    let mut high: u32 = 0;
    'values: for v in values {
        low = low.min(*v);
        high = high.max(*v);
    }
    Range { low, high }
}

// Where to look next in a range, of whose numbers `left` are to be below and `right` are not. Numbers that lie evenly
// are `unit` apart, so it looks as far from the nearer end; but no farther than the middle, so that a range of any
// numbers is soon narrowed.
#[tactic(auto, unfolding(crate::specs::Thresholds::guessed))]
fn guess(all: Range, unit: u32, left: u32, right: u32) -> u32
    requires { (all.low < all.high) × (unit ≤ max_unit) × (left + right ≤ max_cabinets) }
    ensures { result ≡ guessed all unit left right }
{
    let step = unit * left.min(right);
    let half = (all.high - all.low) / 2;
    if left <= right {
        all.low + (step + 1).min(all.high - all.low - half)
    } else {
        all.high - step.min(half)
    }
}

// The threshold of the k lowest numbers, of which `all` is the range. The range that is left holds one; `below` are
// below its start, and `within` are at most its end.
fn find(values: &[u32], k: u32, all: Range) -> Threshold
    requires values_len_bound { (length values.now ≤ max_cabinets) × (k ≤ length values.now) }
    requires bounds { Bounds values.now all }
    ensures { Splits values.now k result }
{
    let unit = (all.high - all.low) / UNITS + 1;
    let mut rest = all;
    let mut below: u32 = 0;
    let mut within = values.len() as u32;
    'narrowing: while (rest.low < rest.high) & (below != k) {
        let mid = guess(rest, unit, k - below, within - k);
        let count = ranks::count_below(values, mid).unwrap();
        if count <= k {
            rest.low = mid;
            below = count;
        } else {
            rest.high = mid - 1;
            within = count;
        }
    }
    Threshold {
        at: rest.low,
        ties: k - below,
    }
}

// Whether there are more than 64 numbers, or none is left.
fn misfit(n: usize, m: u8) -> bool
    ensures { result ≡ misfit n m }
{
    (MOST < n) | (n <= 2 * (m as usize))
}

// The thresholds of at most 64 numbers; none where there are more, or none is left.
pub fn find_both(values: &[u32], m: u8) -> Option<Thresholds>
    ensures { Found values.now m result }
{
    let n = values.len();
    if misfit(n, m) {
        return None;
    }
    let all = bound(values);
    let low = find(values, m as u32, all);
    let high = find(values, n as u32 - m as u32, all);
    Some(Thresholds { low, high })
}
