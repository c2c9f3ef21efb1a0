// How the calls for C and for Rust answer. An answer below 2^32 is a grant, any other is number × 2^32 + place of a
// refusal.
#![tactic(auto)]

ghost use Rattle.std.specs.Prelude.{◌≡◌};
ghost use Rattle.refusals.specs.Answers.{verdict_of};
ghost use Rattle.packed_refusals.specs.Answers.{packed};

use refusals::Refusal;

// A length: of an answer sheet, a round sheet or the final values.
pub fn pack_length(answer: Result<usize, Refusal>) -> u64
    ensures { result ≡ packed (verdict_of answer) }
{
    packed_refusals::pack(answer.map(|length| length as u64))
}

// A number of 32 bits: a count of rounds, or a field of an answer sheet.
// Stays beside pack_length: usize has no From into u64, so that no bound of std serves both, and `pack` is one already.
pub fn pack_number(answer: Result<u32, Refusal>) -> u64
    ensures { result ≡ packed (verdict_of answer) }
{
    packed_refusals::pack(answer.map(|number| number as u64))
}
