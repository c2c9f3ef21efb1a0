// Document 01, "The answer sheet": whether bytes are one, and one that has a cabinet.
#![tactic(auto)]

ghost use Rattle.std.specs.Prelude.{◌≡◌};
ghost use Rattle.refusals.specs.Answers.{check_of};
ghost use Rattle.model.specs.Refusals.{first_of};
ghost use Rattle.answer_checks.specs.Checks.{answer_checks, cabinet_checks};

use refusals::{Reason, Refusal};

// Whether the bytes are an answer sheet: 1 to 64 cabinets, 10 + 5N bytes.
#[tactic(auto, using(crate::proofs::Turns::in_turn))]
pub fn check(answer: &[u8]) -> Result<(), Refusal>
    ensures { check_of result ≡ first_of (answer_checks answer.now) }
{
    let n = words::byte_at(answer, 0);
    refusals::refuse_if(settings_checks::bad_cabinets(n), Reason::BadCabinets)?;
    let wanted = sheet_sizes::answer_length(n);
    refusals::refuse_if(answer.len() != wanted, Reason::BadLength)
}

// Whether they are one that has the cabinet.
#[tactic(auto, using(crate::proofs::Turns::turns))]
pub fn check_cabinet(answer: &[u8], cabinet: u32) -> Result<(), Refusal>
    ensures { check_of result ≡ first_of (cabinet_checks answer.now cabinet) }
{
    check(answer)?;
    let n = words::byte_at(answer, 0) as u32;
    refusals::refuse_if(n <= cabinet, Reason::NoRoom)
}
