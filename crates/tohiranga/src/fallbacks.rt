// Falling back to the direct sheet, for C and for Rust.
ghost use Rattle.std.specs.Prelude.{◌≡◌};
ghost use Rattle.sheet_pairs.specs.Fallback.{fallback};
ghost use Rattle.fallback_packing.specs.Answers.{falling_of};

use fallback_packing::Falling;

// Settles the crusaders sheet, or where it has too many faults the direct sheet. The answer is the answer sheet's
// length; beside it stand the sheet that settled the round and where its readings are, zeros beside a refusal.
#[unsafe(no_mangle)]
pub extern "C" fn tohiranga_fallback(crusaders: &[u8], direct: &[u8], answer: &mut [u8]) -> Falling
    ensures value { result
        ≡ falling_of
        (fallback crusaders.now direct.now answer.old).verdict
        crusaders.now
        direct.now }
    ensures answer_after { answer.new
        ≡ (fallback crusaders.now direct.now answer.old).buffer }
{
    let fell = falling_back::fall_back(crusaders, direct, answer);
    fallback_packing::pack_fallen(crusaders, direct, fell)
}
