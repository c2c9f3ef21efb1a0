// Document 01, "The round sheet": the row accessor.
#![tactic(auto)]

ghost use Rattle.std.specs.Prelude.{◌≡◌};
ghost use Rattle.model.specs.Calls.{row};

// The part of the sheet that holds cabinet r's readings. It is empty for a sheet that checks 1 to 6, 8 or 9 refuse,
// and from cabinet N on.
pub fn row(sheet: &[u8], r: usize) -> &[u8]
    ensures { result.now ≡ row sheet.now r }
{
    let Ok(settings) = sheet_checks::validate(sheet) else {
        return &sheet[..0];
    };
    rows::row_part(sheet, settings, r)
}
