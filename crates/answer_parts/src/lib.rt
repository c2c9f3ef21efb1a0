// Parts of an answer sheet: the room that it takes, its header, and the value used for a cabinet.
#![tactic(auto)]

ghost use Rattle.std.specs.Prelude.{◌≡◌, cond, eqb};
ghost use Rattle.std.specs.Int.{w32};
ghost use Rattle.std.proofs.Common.{of_z};
ghost use Rattle.arithmetic.specs.Naturals.{down};
ghost use Rattle.arithmetic.specs.Words.{two_to31};
ghost use Rattle.answer_parts.specs.Parts.{roomy, headed};

use held::PRESENT;
use model::{ANSWER_HEADER_SIZE, MOST};

// Whether there are at most 64 marks, as many values, and room for the answer sheet.
#[tactic(auto, unfolding(crate::specs::Parts::roomy))]
pub fn has_room(n: usize, values: usize, room: usize) -> bool
    ensures { result ≡ roomy n values room }
{
    n <= MOST && values == n && ANSWER_HEADER_SIZE + 5 * n <= room
}

// The count of a settled round, and its estimate and new value, both moved up by 2^31.
#[derive(Clone, Copy)]
pub struct Outcome {
    pub count: u8,
    pub estimate: u32,
    pub value: u32,
}

// Bytes 0 to 9, where the buffer has room for them.
#[tactic(auto, unfolding(crate::specs::Parts::headed))]
pub fn put_header(n: u8, outcome: Outcome, answer: &mut [u8])
    ensures { answer.new
        ≡ headed
        n
        outcome.count
        (of_z w32 (down two_to31 outcome.estimate))
        (of_z w32 (down two_to31 outcome.value))
        answer.old }
{
    if answer.len() < ANSWER_HEADER_SIZE {
        return;
    }
    answer[0] = n;
    answer[1] = outcome.count;
    word_writer::put_word(answer, 2, held::unbias(outcome.estimate));
    word_writer::put_word(answer, 6, held::unbias(outcome.value));
}

// The bits of the value used for a cabinet: its own reading where that is accepted, else the estimate.
pub fn used(mark: u8, value: u32, estimate: u32) -> u32
    ensures { result ≡ of_z w32 (down two_to31 (cond (eqb mark 1) value estimate)) }
{
    if mark == PRESENT {
        held::unbias(value)
    } else {
        held::unbias(estimate)
    }
}
