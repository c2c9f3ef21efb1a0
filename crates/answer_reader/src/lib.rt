// Document 01, "The answer sheet": its fields, read from any bytes. Estimate, new value and used value are the 32 bits
// of a signed number, which `tick::Tick::from_bits` reads.
#![tactic(auto)]

ghost use Rattle.std.specs.Prelude.{◌≡◌};
ghost use Rattle.refusals.specs.Answers.{verdict_of};
ghost use Rattle.answer_reader.specs.Fields.{cabinets_in, count_in, estimate_in, value_in, mark_in, used_in};

use refusals::Refusal;

// N.
#[tactic(auto, unfolding(crate::specs::Fields::cabinets_in))]
pub fn cabinets(answer: &[u8]) -> Result<u32, Refusal>
    ensures { verdict_of result ≡ cabinets_in answer.now }
{
    answer_checks::check(answer)?;
    Ok(answer_fields::cabinets(answer))
}

// How many readings were accepted.
#[tactic(auto, unfolding(crate::specs::Fields::count_in))]
pub fn count(answer: &[u8]) -> Result<u32, Refusal>
    ensures { verdict_of result ≡ count_in answer.now }
{
    answer_checks::check(answer)?;
    Ok(answer_fields::count(answer))
}

// The estimate.
#[tactic(auto, unfolding(crate::specs::Fields::estimate_in))]
pub fn estimate(answer: &[u8]) -> Result<u32, Refusal>
    ensures { verdict_of result ≡ estimate_in answer.now }
{
    answer_checks::check(answer)?;
    Ok(answer_fields::estimate(answer))
}

// The new value.
#[tactic(auto, unfolding(crate::specs::Fields::value_in))]
pub fn value(answer: &[u8]) -> Result<u32, Refusal>
    ensures { verdict_of result ≡ value_in answer.now }
{
    answer_checks::check(answer)?;
    Ok(answer_fields::value(answer))
}

// A cabinet's mark.
#[tactic(auto, unfolding(crate::specs::Fields::mark_in))]
pub fn mark(answer: &[u8], cabinet: u32) -> Result<u32, Refusal>
    ensures { verdict_of result ≡ mark_in answer.now cabinet }
{
    answer_checks::check_cabinet(answer, cabinet)?;
    Ok(answer_fields::mark(answer, cabinet))
}

// A cabinet's used value.
#[tactic(auto, unfolding(crate::specs::Fields::used_in))]
pub fn used(answer: &[u8], cabinet: u32) -> Result<u32, Refusal>
    ensures { verdict_of result ≡ used_in answer.now cabinet }
{
    answer_checks::check_cabinet(answer, cabinet)?;
    Ok(answer_fields::used(answer, cabinet))
}
