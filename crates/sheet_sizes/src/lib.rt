// Document 01, "The round sheet" and "The answer sheet": the sizes that the first bytes say, and the lengths that
// follow.
#![tactic(auto)]

ghost use Rattle.std.specs.Prelude.{◌≡◌};
ghost use Rattle.model.specs.RoundSheet.{settings_at, entry_count, sheet_length};
ghost use Rattle.model.specs.AnswerSheet.{answer_length};

use model::{ANSWER_HEADER_SIZE, CCA, HEADER_SIZE, Settings};

// The most entries of a sheet or of a trace; sizes of a byte make no more.
pub const MAX_ENTRIES: usize = 131_072;

// The sizes, bytes 0 to 7. Bytes past the end are 0.
pub fn settings_at(sheet: &[u8]) -> Settings
    ensures { result ≡ settings_at sheet.now }
{
    Settings {
        n: words::byte_at(sheet, 0),
        m: words::byte_at(sheet, 1),
        rule: words::byte_at(sheet, 2),
        estimator: words::byte_at(sheet, 3),
        window: words::word_at(sheet, 4),
    }
}

// E, the number of entries.
pub fn entry_count(settings: Settings) -> usize
    ensures { result ≡ entry_count settings }
{
    let n = settings.n as usize;
    if settings.rule == CCA { n * n } else { n }
}

// The bytes of a sheet with these sizes.
pub fn sheet_length(settings: Settings) -> usize
    ensures { result ≡ sheet_length settings }
{
    HEADER_SIZE + 5 * entry_count(settings)
}

// The bytes of an answer sheet for so many cabinets.
pub fn answer_length(n: u8) -> usize
    ensures { result ≡ answer_length n }
{
    ANSWER_HEADER_SIZE + 5 * (n as usize)
}
