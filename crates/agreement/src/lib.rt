// The steps of a round. Readings are held by their marks and by their ticks moved up by 2^31; the marks that it leaves
// are those of the answer sheet.
#![tactic(auto)]

ghost use Rattle.std.specs.Prelude.{◌≡◌, false, ◌≤◌, length, get_or};
ghost use Rattle.arithmetic.specs.Writing.{table};
ghost use Rattle.model.specs.Ensemble.{max_cabinets};
ghost use Rattle.held.specs.Held.{kept_mark};
ghost use Rattle.agreement.specs.Values.{agreed_of, agreed_marks};

use estimates::Estimated;

// Strikes out the readings that are not accepted.
fn strike(marks: &mut [u8], accepted: &[bool])
    requires { length marks.old ≤ length accepted.now }
    ensures { marks.new
        ≡ table (λ r. kept_mark (get_or accepted.now r false) (get_or marks.old r 0))
        (length marks.old) }
{
    'readings: for r in 0..marks.len() {
        marks[r] = held::kept_mark(accepted[r], marks[r]);
    }
}

// The same, where so many are accepted: where all are, nothing is struck out.
fn strike_others(marks: &mut [u8], accepted: &[bool], count: u32)
    requires marks_in_bounds { length marks.old ≤ length accepted.now }
    requires all_kept { count ≡ length marks.old
        → table (λ r. kept_mark (get_or accepted.now r false) (get_or marks.old r 0)) (length marks.old)
        ≡ marks.old }
    ensures { marks.new
        ≡ table (λ r. kept_mark (get_or accepted.now r false) (get_or marks.old r 0))
        (length marks.old) }
{
    if (count as usize) != marks.len() {
        strike(marks, accepted);
    }
}

// The round of at most 64 readings: the marks say who is accepted. Where none is, or the lists do not fit, the marks
// are left as they are. Where two accepted readings lie farther apart than twice the widest span, nothing is counted.
pub fn agree(marks: &mut [u8], values: &[u32], span: u32, need: u32, kind: u8) -> Estimated
    ensures value { result ≡ agreed_of span need kind marks.old values.now }
    ensures marks_after { marks.new ≡ agreed_marks span need marks.old values.now }
    ensures count_le_max_cabinets { result.count ≤ max_cabinets }
{
    // Stays: a fixed array, lent as far as it is used, since the project has no heap (a).
    let mut accepted = [false; 64];
    let count = acceptance::accept(&*marks, values, span, need, &mut accepted);
    if count == 0 {
        return estimates::NOTHING;
    }
    strike_others(&mut *marks, &accepted, count);
    estimates::evaluate(kind, &*marks, values)
}
