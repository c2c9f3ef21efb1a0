// Document 01, "One cabinet's row of readings is shown as the part of the sheet that holds it": the part, of any sheet.
#![tactic(auto)]

ghost use Rattle.std.specs.Prelude.{◌≡◌};
ghost use Rattle.model.specs.RoundSheet.{row_entries, row_start};
ghost use Rattle.rows.specs.Parts.{part_at};

use model::{CCA, HEADER_SIZE, Settings};

// The readings in a row: one for FCA, N for CCA.
pub fn row_entries(settings: Settings) -> usize
    ensures { result ≡ row_entries settings }
{
    if settings.rule == CCA {
        settings.n as usize
    } else {
        1
    }
}

// The byte where cabinet r's readings start.
pub fn row_start(settings: Settings, r: u32) -> usize
    ensures { result ≡ row_start settings r }
{
    let width = row_entries(settings);
    HEADER_SIZE + sheet_sizes::entry_count(settings) + 4 * ((r as usize) * width)
}

// The part of the sheet that holds cabinet r's readings: a part of the caller's own slice.
pub fn row_part(sheet: &[u8], settings: Settings, r: usize) -> &[u8]
    ensures { result.now ≡ part_at sheet.now settings r }
{
    let n = settings.n as usize;
    if n <= r {
        return &sheet[..0];
    }
    let start = row_start(settings, r as u32);
    let end = start + 4 * row_entries(settings);
    if sheet.len() < end {
        return &sheet[..0];
    }
    &sheet[start..end]
}
