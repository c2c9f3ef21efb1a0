// The outcome of a round that is agreed on: its answer sheet in the lent buffer, or check 10's refusal.
#![tactic(auto)]

ghost use Rattle.std.specs.Prelude.{◌≡◌};
ghost use Rattle.model.specs.Refusals.{too_many_faults};
ghost use Rattle.refusals.specs.Answers.{check_of};
ghost use Rattle.outcomes.specs.Outcomes.{concluded};

use answer_parts::Outcome;
use refusals::{Reason, Refusal};

// The answer sheet is written where some reading is accepted. Where none is, nothing is, and check 10 refuses.
pub fn conclude(
    outcome: Outcome,
    marks: &[u8],
    values: &[u32],
    answer: &mut [u8],
) -> Result<(), Refusal>
    ensures check_10 { check_of result ≡ too_many_faults outcome.count }
    ensures answer_after { answer.new
        ≡ concluded outcome.count outcome.estimate outcome.value marks.now values.now answer.old }
{
    if outcome.count == 0 {
        return Err(Reason::TooManyFaults.into());
    }
    answer_writer::put_answer(outcome, marks, values, answer);
    Ok(())
}
