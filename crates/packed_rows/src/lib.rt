// Where a cabinet's row of readings stands in a sheet, as one number for C and for Rust.
#![tactic(auto)]

ghost use Rattle.std.specs.Prelude.{◌≡◌};
ghost use Rattle.packed_rows.specs.Answers.{packed_row};

// Where a cabinet's row of readings stands in the sheet: start × 2^32 + length of the part, 0 for an empty part.
pub fn pack_row(sheet: &[u8], cabinet: u32) -> u64
    ensures { result ≡ packed_row sheet.now cabinet }
{
    let Ok(settings) = sheet_checks::validate(sheet) else {
        return 0;
    };
    if (settings.n as u32) <= cabinet {
        return 0;
    }
    let start = rows::row_start(settings, cabinet);
    let width = rows::row_entries(settings);
    (start as u64) * 4_294_967_296 + 4 * (width as u64)
}
