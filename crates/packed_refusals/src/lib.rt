// How a refusal goes out to C and to Rust: number × 2^32 + place.
#![tactic(auto)]

ghost use Rattle.std.specs.Prelude.{◌≡◌};
ghost use Rattle.refusals.specs.Answers.{refusal_of, verdict_of};
ghost use Rattle.packed_refusals.specs.Answers.{packed_refusal, packed};

use refusals::Refusal;

// A refusal's number and place in one number.
pub fn pack_refusal(refusal: Refusal) -> u64
    ensures { result ≡ packed_refusal (refusal_of refusal) }
{
    (refusal.number() as u64) * 4_294_967_296 + (refusal.place as u64)
}

// What a call answers in one number: what it grants, or the refusal.
pub fn pack(answer: Result<u64, Refusal>) -> u64
    ensures { result ≡ packed (verdict_of answer) }
{
    match answer {
        Ok(number) => number,
        Err(refusal) => pack_refusal(refusal),
    }
}
