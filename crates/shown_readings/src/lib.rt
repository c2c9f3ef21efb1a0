// Document 02, "Paper 7. Fall back to the direct sheet": "shows the readings of whichever sheet settled the round".
#![tactic(auto)]

ghost use Rattle.std.specs.Prelude.{◌≡◌, min, take, drop};
ghost use Rattle.sheet_pairs.specs.Fallback.{readings_start, readings_length, readings_part, shown_by, fallback};
ghost use Rattle.falling_back.specs.Answers.{pair_settled_of};

use falling_back::{Settlement, Source};
use model::{HEADER_SIZE, Settings};
use refusals::Refusal;

// The part of a sheet that holds the readings of so many entries, as far as the sheet goes.
#[tactic(auto, using(crate::proofs::Sizes::few_entries))]
fn part_of(sheet: &[u8], settings: Settings) -> &[u8]
    ensures { result.now ≡ take (readings_length settings) (drop (readings_start settings) sheet.now) }
{
    let entries = sheet_sizes::entry_count(settings);
    let start = (HEADER_SIZE + entries).min(sheet.len());
    let end = (HEADER_SIZE + entries + 4 * entries).min(sheet.len());
    &sheet[start..end]
}

// The part that holds a sheet's readings.
#[tactic(auto, unfolding(sheet_pairs::specs::Fallback::readings_part))]
fn readings_part(sheet: &[u8]) -> &[u8]
    ensures { result.now ≡ readings_part sheet.now }
{
    part_of(sheet, sheet_sizes::settings_at(sheet))
}

// The readings of the sheet that settled the round: a part of one of the two lent sheets, empty after a refusal.
pub fn shown<'a>(
    crusaders: &'a [u8],
    direct: &'a [u8],
    fell: Result<Settlement, Refusal>,
) -> &'a [u8]
    ensures { result.now ≡ shown_by (pair_settled_of fell) crusaders.now direct.now }
{
    match fell {
        Ok(settled) => match settled.source {
            Source::Crusaders => readings_part(crusaders),
            Source::Direct => readings_part(direct),
        },
        Err(_) => &crusaders[..0],
    }
}

// Settles the round by one of the two sheets into the lent buffer, and shows the readings of that sheet.
#[tactic(auto, using(sheet_pairs::proofs::Results::shown_is))]
pub fn settle_shown<'a>(crusaders: &'a [u8], direct: &'a [u8], answer: &mut [u8]) -> &'a [u8]
    ensures result_value { result.now
        ≡ (fallback crusaders.now direct.now answer.old).shown }
    ensures answer_after { answer.new
        ≡ (fallback crusaders.now direct.now answer.old).buffer }
{
    let fell = falling_back::fall_back(crusaders, direct, answer);
    shown(crusaders, direct, fell)
}
