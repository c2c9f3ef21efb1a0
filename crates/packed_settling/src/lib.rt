// Settling with its answer in one number, as the calls for C and for Rust have it. Such an answer goes through a
// register and an enum's through memory; and the calls of the static library that settle share this one function.
#![tactic(auto)]

ghost use Rattle.std.specs.Prelude.{◌≡◌};
ghost use Rattle.model.specs.Calls.{settle_spread, settle};
ghost use Rattle.refusals.specs.Answers.{verdict_of, outcome_of};
ghost use Rattle.packed_refusals.specs.Answers.{packed};
ghost use Rattle.packed_settling.specs.Unpacking.{unpacked, Packs};

use refusals::{Reason, Refusal};

// Settles a round sheet with a spread: the answer sheet's length, or a refusal, packed.
pub fn settle_packed(sheet: &[u8], spread: u32, answer: &mut [u8]) -> u64
    ensures value { result ≡ packed (settle_spread sheet.now spread answer.old).verdict }
    ensures answer_after { answer.new ≡ (settle_spread sheet.now spread answer.old).buffer }
{
    packing::pack_length(settling::settle_spread(&*sheet, spread, answer))
}

// What is packed.
fn unpack(said: u64) -> Result<usize, Refusal>
    requires { Packs said }
    ensures { verdict_of result ≡ unpacked said }
{
    if said < 4_294_967_296 {
        return Ok(said as usize);
    }
    match Reason::try_from((said / 4_294_967_296) as u8) {
        Ok(reason) => Err(reason.at((said % 4_294_967_296) as u32)),
        Err(_) => unreachable!(),
    }
}

// Settles a round sheet without a spread, by way of the number.
pub fn settle_unpacked(sheet: &[u8], answer: &mut [u8]) -> Result<usize, Refusal>
    ensures { outcome_of result answer.new ≡ settle sheet.now answer.old }
{
    unpack(settle_packed(sheet, 0, answer))
}
