// Document 02, "Paper 7. Fall back to the direct sheet": the checks of a CCA sheet and an FCA sheet together.
#![tactic(auto)]

ghost use Rattle.std.specs.Prelude.{not, ◌≡◌};
ghost use Rattle.refusals.specs.Answers.{check_of};
ghost use Rattle.model.specs.AnswerSheet.{answer_length};
ghost use Rattle.model.specs.Refusals.{or_next, first_of, no_room};
ghost use Rattle.sheet_pairs.specs.Fallback.{paired, bad_pair, pair_checks};

use model::{CCA, FCA, Settings};
use refusals::{Reason, Refusal};

// Whether two sheets are no pair: N, m or the window differ, or they are not by CCA and then by FCA.
fn unpaired(first: Settings, second: Settings) -> bool
    ensures { result ≡ not (paired first second) }
{
    let alike = (first.n == second.n)
        & ((first.m == second.m)
            & ((first.window == second.window) & ((first.rule == CCA) & (second.rule == FCA))));
    !alike
}

// Checks 19 and 7, of settings that are granted and an answer buffer of this length.
#[tactic(auto, unfolding(sheet_pairs::specs::Fallback::bad_pair, model::specs::Refusals::no_room))]
fn check_both(first: Settings, second: Settings, room: usize) -> Result<(), Refusal>
    ensures { check_of result ≡ or_next (bad_pair first second) (no_room room (answer_length first.n)) }
{
    refusals::refuse_if(unpaired(first, second), Reason::BadPair)?;
    let size = sheet_sizes::answer_length(first.n);
    refusals::refuse_if(room < size, Reason::NoRoom)
}

// Checks 1 to 6 of the CCA sheet and then of the FCA sheet, 19, and 7 of an answer buffer of this length.
#[tactic(auto, using(crate::proofs::Inspecting::ways))]
pub fn check_pair(crusaders: &[u8], direct: &[u8], room: usize) -> Result<(), Refusal>
    ensures { check_of result ≡ first_of (pair_checks crusaders.now direct.now room) }
{
    let first = sheet_checks::inspect(crusaders)?;
    let second = sheet_checks::inspect(direct)?;
    check_both(first, second, room)
}
