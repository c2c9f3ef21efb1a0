// Document 01, "The round sheet": the writer.
#![tactic(auto)]

ghost use Rattle.std.specs.Prelude.{◌++◌, ◌≡◌, ◌+◌, ◌*◌, ◌≤◌, length};
ghost use Rattle.arithmetic.specs.Writing.{overwrite};
ghost use Rattle.model.specs.RoundSheet.{reading_bytes};
ghost use Rattle.model.specs.Calls.{write};
ghost use Rattle.refusals.specs.Answers.{outcome_of};

use model::{HEADER_SIZE, Settings};
use refusals::Refusal;

// Stores marks and, behind them, readings, from byte 0 on.
fn put_entries(marks: &[u8], readings: &[i32], buffer: &mut [u8])
    requires { length marks.now + 4 * length readings.now ≤ length buffer.old }
    ensures { buffer.new
        ≡ overwrite (marks.now ++ reading_bytes readings.now) buffer.old }
{
    let at = marks.len();
    part_writer::put_part(marks, buffer);
    reading_writer::put_readings(readings, &mut buffer[at..]);
}

// The writer: fills the buffer with the sheet that the settings, marks and readings make, and gives back the sheet's
// length, or the first refusal of checks 2 to 9, which fills nothing.
#[tactic(auto, using(crate::proofs::Filling::writer_refuses))]
pub fn write(
    settings: Settings,
    marks: &[u8],
    readings: &[i32],
    buffer: &mut [u8],
) -> Result<usize, Refusal>
    ensures { outcome_of result buffer.new
        ≡ write settings marks.now readings.now buffer.old }
{
    let size = sheet_sizes::sheet_length(settings);
    writer_checks::check(settings, marks, readings, buffer.len())?;
    size_writer::put_sizes(settings, buffer);
    put_entries(marks, readings, &mut buffer[HEADER_SIZE..]);
    Ok(size)
}
