// Document 01, "The round sheet": the reader.
#![tactic(auto)]

ghost use Rattle.std.specs.Prelude.{◌≡◌, ◌+◌, ◌*◌, ◌≤◌, length};
ghost use Rattle.std.specs.Int.{w32};
ghost use Rattle.std.proofs.Common.{to_z};
ghost use Rattle.arithmetic.specs.Writing.{table, overwrite};
ghost use Rattle.model.specs.RoundSheet.{word, bits_at, header_size};
ghost use Rattle.model.specs.Calls.{read};
ghost use Rattle.sheet_reader.specs.Answers.{read_of};

use model::{HEADER_SIZE, Settings};
use refusals::Refusal;
use tick::Tick;

// The reading whose four bytes start at byte i.
fn reading_at(sheet: &[u8], i: usize) -> i32
    requires { i + 4 ≤ length sheet.now }
    ensures { result ≡ to_z w32 (word sheet.now i) }
{
    let tick = Tick::from_bits(words::join(sheet[i], sheet[i + 1], sheet[i + 2], sheet[i + 3]));
    tick.0
}

// Fills the first entries of readings with the sheet's.
fn decode(sheet: &[u8], entries: usize, readings: &mut [i32])
    requires { (header_size + entries + 4 * entries ≤ length sheet.now) × (entries ≤ length readings.old) }
    ensures { readings.new
        ≡ overwrite (table (λ e. to_z w32 (bits_at sheet.now entries e)) entries)
        readings.old }
{
    'entries: for e in 0..entries {
        readings[e] = reading_at(sheet, HEADER_SIZE + entries + 4 * e);
    }
}

// The reader: the settings, with the first entries of marks and readings filled from the sheet, or the first refusal
// of checks 1 to 9, which fills nothing.
#[tactic(auto, using(crate::proofs::Filling::reader_refuses))]
pub fn read(sheet: &[u8], marks: &mut [u8], readings: &mut [i32]) -> Result<Settings, Refusal>
    ensures { read_of result marks.new readings.new
        ≡ read sheet.now marks.old readings.old }
{
    let settings = reader_checks::check(sheet, marks.len(), readings.len())?;
    let entries = sheet_sizes::entry_count(settings);
    let body = HEADER_SIZE + entries;
    part_writer::put_part(&sheet[HEADER_SIZE..body], marks);
    decode(sheet, entries, readings);
    Ok(settings)
}
