// The text of a refusal, by what a call answers.
#![tactic(auto)]

ghost use Rattle.std.specs.Prelude.{◌≡◌};
ghost use Rattle.refusals.specs.Answers.{refusal_of};
ghost use Rattle.text.specs.Text.{refusal_written};

use refusals::Refusal;

// The text of a refusal: `refused`, number, place. A buffer below the capacity is left as it was, and the answer is 0.
pub fn refused_text(refusal: Refusal, text: &mut [u8]) -> usize
    ensures value { result
        ≡ (refusal_written (refusal_of refusal).number (refusal_of refusal).place text.old).size }
    ensures text_after { text.new
        ≡ (refusal_written (refusal_of refusal).number (refusal_of refusal).place text.old).buffer }
{
    text::refusal_text(refusal.number(), refusal.place, text)
}
