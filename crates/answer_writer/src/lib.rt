// Writes the answer sheet of a settled round, of which the marks and the values are held beside each other.
#![tactic(auto)]

ghost use Rattle.std.specs.Prelude.{◌≡◌, ◌+◌, ◌*◌, ◌≤◌, length};
ghost use Rattle.arithmetic.specs.Writing.{table, overwrite};
ghost use Rattle.model.specs.RoundSheet.{reading_bytes};
ghost use Rattle.sheet_laws.specs.Storing.{put_word};
ghost use Rattle.model.specs.AnswerSheet.{answer_bytes, answer_length};
ghost use Rattle.model.specs.Ensemble.{max_cabinets};
ghost use Rattle.answer_parts.specs.Parts.{roomy};
ghost use Rattle.answer_writer.specs.Answers.{used_in, round_held, written_of};

use answer_parts::Outcome;
use model::ANSWER_HEADER_SIZE;

// Stores the four bytes of x as number r of a list of numbers.
// Stays: with word_writer::put_word, which tests for room, the loop over 64 cabinets takes 107 ns in place of 47.
#[tactic(auto, unfolding(sheet_laws::specs::Storing::put_word, model::specs::RoundSheet::bytes4))]
fn store(tail: &mut [u8], r: usize, x: u32)
    requires { 4 * r + 4 ≤ length tail.old }
    ensures { tail.new ≡ put_word tail.old (4 * r) x }
{
    tail[4 * r..4 * r + 4].copy_from_slice(&x.to_le_bytes());
}

// Fills the tail of the answer sheet with the used values.
fn put_used(marks: &[u8], values: &[u32], estimate: u32, tail: &mut [u8])
    requires few_marks { (length marks.now ≤ max_cabinets) × (length values.now ≡ length marks.now) }
    requires room { 4 * length marks.now ≤ length tail.old }
    ensures { tail.new
        ≡ overwrite
        (reading_bytes
        (table (used_in marks.now values.now estimate) (length marks.now)))
        tail.old }
{
    'values: for (r, mark) in marks.iter().enumerate() {
        store(tail, r, answer_parts::used(*mark, values[r], estimate));
    }
}

// The header, the marks behind it, and the used values in the tail from byte 10 + N on.
fn put_parts(outcome: Outcome, marks: &[u8], values: &[u32], answer: &mut [u8])
    requires few_marks { (length marks.now ≤ max_cabinets) × (length values.now ≡ length marks.now) }
    requires room { answer_length (length marks.now) ≤ length answer.old }
    ensures { answer.new
        ≡ overwrite
        (answer_bytes
        (length marks.now)
        (round_held outcome.count outcome.estimate outcome.value marks.now values.now))
        answer.old }
{
    let n = marks.len();
    answer_parts::put_header(n as u8, outcome, answer);
    part_writer::put_part(marks, &mut answer[ANSWER_HEADER_SIZE..]);
    let tail = ANSWER_HEADER_SIZE + n;
    put_used(marks, values, outcome.estimate, &mut answer[tail..]);
}

// The answer sheet of a settled round. Where there are not as many values as marks, or the buffer has no room, it
// writes nothing and answers false.
#[tactic(auto, unfolding(answer_parts::specs::Parts::roomy, crate::specs::Answers::written_of))]
pub fn put_answer(outcome: Outcome, marks: &[u8], values: &[u32], answer: &mut [u8]) -> bool
    ensures value { result
        ≡ roomy (length marks.now) (length values.now) (length answer.old) }
    ensures answer_after { answer.new
        ≡ written_of outcome.count outcome.estimate outcome.value marks.now values.now answer.old }
{
    if !answer_parts::has_room(marks.len(), values.len(), answer.len()) {
        return false;
    }
    put_parts(outcome, marks, values, answer);
    true
}
