// The round of readings by the rules that drop the m lowest and the m highest (document 02, "Paper 5. Trimming rules").
// Readings are held by their marks and by their ticks moved up by 2^31; the marks that it leaves are those of the
// answer sheet.
#![tactic(auto)]

ghost use Rattle.std.specs.Prelude.{◌≡◌, cond, ◌*◌, ◌-◌, ◌≤◌, ◌<◌, eqb, length};
ghost use Rattle.arithmetic.specs.Naturals.{up};
ghost use Rattle.arithmetic.specs.Words.{two_to31, two_to32};
ghost use Rattle.arithmetic.specs.Writing.{table, overwrite};
ghost use Rattle.model.specs.Ensemble.{max_cabinets};
ghost use Rattle.round_laws.specs.Naturals.{mean_nat};
ghost use Rattle.dropping.specs.Dropping.{dropped_sum, dropped_marks};
ghost use Rattle.trimming.specs.Values.{trimmed_in, trimmed_of, mark_at, trimmed_marks};
ghost use Rattle.trimming.specs.Values.{number_in, summed_by};

use estimates::Estimated;
use held::PRESENT;
use model::TRIMMED_MIDPOINT;

// The most readings that are dropped by their ranks: for more, thresholds take less time.
const FEW: usize = 32;

// What stands for 0 ticks.
const ZERO: u32 = 2_147_483_648;

// The number by which a reading is ordered: a missing one counts as 0 ticks.
fn number(mark: u8, value: u32) -> u32
    ensures { result ≡ cond (eqb mark 1) value two_to31 }
{
    if mark == PRESENT { value } else { ZERO }
}

// The numbers of the readings, in a lent list.
fn fill(marks: &[u8], values: &[u32], numbers: &mut [u32])
    requires { (length values.now ≡ length marks.now) × (length marks.now ≤ length numbers.old) }
    ensures { numbers.new
        ≡ overwrite (table (number_in marks.now values.now) (length marks.now))
        numbers.old }
{
    'readings: for (r, mark) in marks.iter().enumerate() {
        numbers[r] = number(*mark, values[r]);
    }
}

// The mean of n numbers below 2^32 with this sum, to the nearest, a half going to the even neighbour: the whole part,
// and 1 more by the remainder.
// Stays: means::nearest_mean divides 32 bits, as FCA and CCA must (DECISIONS 71 and 87); this sum takes 38 (d).
fn nearest(n: u64, sum: u64) -> u32
    requires { (0 < n) × (n ≤ max_cabinets) × (sum ≤ n * (two_to32 - 1)) }
    ensures { result ≡ mean_nat n sum }
{
    let whole = sum / n;
    let up = n < 2 * (sum % n) + whole % 2;
    (whole + (up as u64)) as u32
}

// The new value by the sum that the rule asks for: by the one rule half that of the lowest and the highest left, by the
// other the mean of those left.
fn settle_value(rule: u8, sum: u64, left: u64) -> u32
    requires { (0 < left) × (left ≤ max_cabinets) × (sum ≤ summed_by rule left * (two_to32 - 1)) }
    ensures { result ≡ mean_nat (summed_by rule left) sum }
{
    if rule == TRIMMED_MIDPOINT {
        nearest(2, sum)
    } else {
        nearest(left, sum)
    }
}

// Drops the m lowest and the m highest readings: few by their ranks, more by the thresholds between which those that
// are left lie. Both ways leave the same.
fn drop_ends(marks: &mut [u8], numbers: &[u32], m: u8, rule: u8) -> Option<u64>
    ensures value { result ≡ dropped_sum rule m marks.old numbers.now }
    ensures marks_after { marks.new ≡ dropped_marks m marks.old numbers.now }
{
    if numbers.len() <= FEW {
        rank_trimming::drop_ends(marks, numbers, m, rule)
    } else {
        threshold_trimming::drop_ends(marks, numbers, m, rule)
    }
}

// Drops the m lowest and the m highest of at most N readings: the sum that the rule takes the mean of, and the marks of
// the answer sheet.
fn trim_fitting<const N: usize>(marks: &mut [u8], values: &[u32], m: u8, rule: u8) -> u64
    requires room { N ≤ max_cabinets }
    requires marks_len_bound { (length marks.old ≤ N) × (2 * m < length marks.old) }
    requires values_len { length values.now ≡ length marks.old }
    ensures mean { mean_nat (summed_by rule (length marks.old - 2 * m)) result
        ≡ up two_to31 (trimmed_in rule m marks.old values.now).value }
    ensures sum_bound { result ≤ summed_by rule (length marks.old - 2 * m) * (two_to32 - 1) }
    ensures marks_after { marks.new
        ≡ table (mark_at m marks.old values.now) (length marks.old) }
{
    let n = marks.len();
    // Stays: a fixed array, lent as far as it is used, since the project has no heap (a).
    let mut places = [0u32; N];
    let numbers = &mut places[..n];
    fill(&*marks, values, &mut *numbers);
    drop_ends(marks, &*numbers, m, rule).unwrap()
}

// The round of at most 64 readings by rule 2, or else by rule 3: the marks say which readings are kept. Where the lists
// do not fit, or none is left, nothing is counted and the marks are left as they are.
// Stays: the rule is its byte of document 01's sheet, and docs/changes/05 names the function (a).
// Stays: all 0 is what evaluate of estimates gives of no reading too; settling sees that the lists fit (d).
pub fn trim(marks: &mut [u8], values: &[u32], m: u8, rule: u8) -> Estimated
    ensures value { result ≡ trimmed_of rule m marks.old values.now }
    ensures marks_after { marks.new ≡ trimmed_marks m marks.old values.now }
    ensures count_le_max_cabinets { result.count ≤ max_cabinets }
{
    let n = marks.len();
    if dropping::unfit(n, values.len(), m) {
        return estimates::NOTHING;
    }
    let sum = if n <= FEW {
        trim_fitting::<FEW>(&mut *marks, values, m, rule)
    } else {
        trim_fitting::<64>(&mut *marks, values, m, rule)
    };
    let left = n - 2 * (m as usize);
    let value = settle_value(rule, sum, left as u64);
    Estimated {
        count: left as u32,
        estimate: value,
        value,
    }
}
