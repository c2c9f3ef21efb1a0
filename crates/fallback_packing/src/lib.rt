// How the call for C and for Rust answers with a round that was settled by one of two sheets. Beside a refusal it is
// zeros.
#![tactic(auto)]

ghost use Rattle.std.specs.Prelude.{◌≡◌};
ghost use Rattle.falling_back.specs.Answers.{source_of, pair_settled_of};
ghost use Rattle.fallback_packing.specs.Answers.{falling_of, falling_by, source_number};

use falling_back::{Settlement, Source};
use model::{HEADER_SIZE, Settings};
use refusals::Refusal;

// What the call hands over: the answer sheet's length or a refusal, the sheet that settled the round (1 crusaders, 2
// direct), and where its readings start in it and how many bytes they have.
#[repr(C)]
// Stays: `source` is a number (a): C's struct tohiranga_fallback has it.
#[derive(Clone, Copy)]
pub struct Falling {
    pub answer: u64,
    pub source: u32,
    pub start: u32,
    pub length: u32,
}

// A sheet with these settings settled the round.
#[tactic(auto, using(crate::proofs::Sizes::few_entries))]
fn pack_sheet(settings: Settings, settled: Settlement) -> Falling
    ensures { result
        ≡ falling_by settings settled.size (source_number (source_of settled.source)) }
{
    let entries = sheet_sizes::entry_count(settings) as u32;
    Falling {
        answer: settled.size as u64,
        source: settled.source as u32,
        start: (HEADER_SIZE as u32) + entries,
        length: 4 * entries,
    }
}

// Which of the two sheets settled the round, and where its readings are.
pub fn pack_fallen(crusaders: &[u8], direct: &[u8], fell: Result<Settlement, Refusal>) -> Falling
    ensures { result ≡ falling_of (pair_settled_of fell) crusaders.now direct.now }
{
    match fell {
        Ok(settled) => match settled.source {
            Source::Crusaders => pack_sheet(sheet_sizes::settings_at(crusaders), settled),
            Source::Direct => pack_sheet(sheet_sizes::settings_at(direct), settled),
        },
        Err(refusal) => Falling {
            answer: packed_refusals::pack_refusal(refusal),
            source: 0,
            start: 0,
            length: 0,
        },
    }
}
