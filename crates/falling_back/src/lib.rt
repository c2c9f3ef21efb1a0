// Document 02, "Paper 7. Fall back to the direct sheet": the crusaders sheet is settled, or after "too many faults" the
// direct sheet.
#![tactic(auto)]

ghost use Rattle.std.specs.Prelude.{◌≡◌};
ghost use Rattle.sheet_pairs.specs.Fallback.{fallback};
ghost use Rattle.refusals.specs.Answers.{refusal_of};
ghost use Rattle.falling_back.specs.Answers.{pair_settled_of};
ghost use Rattle.falling_back.specs.Trying.{tried_verdict, tried_buffer};

use refusals::{Reason, Refusal};

// Which of two sheets settled a round, by the number that the call for C gives it.
#[derive(Clone, Copy, PartialEq, Eq)]
pub enum Source {
    Crusaders = 1,
    Direct = 2,
}

// The sheet that settled the round, and the answer sheet's length.
#[derive(Clone, Copy, PartialEq, Eq)]
pub struct Settlement {
    pub source: Source,
    pub size: usize,
}

// After a refusal of the crusaders sheet: under 10 the direct sheet is settled, any other stands.
#[tactic(auto, using(crate::proofs::Outcomes::tried_ways))]
fn try_direct(refusal: Refusal, direct: &[u8], answer: &mut [u8]) -> Result<Settlement, Refusal>
    ensures result_value { pair_settled_of result ≡ tried_verdict (refusal_of refusal) direct.now answer.old }
    ensures answer_after { answer.new ≡ tried_buffer (refusal_of refusal) direct.now answer.old }
{
    if refusal.reason != Reason::TooManyFaults {
        return Err(refusal);
    }
    let size = packed_settling::settle_unpacked(direct, answer)?;
    Ok(Settlement {
        source: Source::Direct,
        size,
    })
}

// Settles the crusaders sheet, or where it has too many faults the direct sheet, into the lent buffer; or gives the
// first refusal, which changes nothing.
pub fn fall_back(crusaders: &[u8], direct: &[u8], answer: &mut [u8]) -> Result<Settlement, Refusal>
    ensures result_value { pair_settled_of result
        ≡ (fallback crusaders.now direct.now answer.old).verdict }
    ensures answer_after { answer.new
        ≡ (fallback crusaders.now direct.now answer.old).buffer }
{
    pair_checks::check_pair(crusaders, direct, answer.len())?;
    match packed_settling::settle_unpacked(crusaders, &mut *answer) {
        Ok(size) => Ok(Settlement {
            source: Source::Crusaders,
            size,
        }),
        Err(refusal) => try_direct(refusal, direct, answer),
    }
}
