// Document 01, "The round sheet": readings, stored.
#![tactic(auto)]

ghost use Rattle.std.specs.Prelude.{◌≡◌};
ghost use Rattle.reading_writer.specs.Readings.{readings_put};

use tick::Tick;

// Stores readings of four bytes each, from byte 0 on, where they all lie in the buffer.
#[tactic(auto, unfolding(crate::specs::Readings::readings_put))]
pub fn put_readings(readings: &[i32], buffer: &mut [u8])
    ensures { buffer.new ≡ readings_put readings.now buffer.old }
{
    if buffer.len() / 4 < readings.len() {
        return;
    }
    'entries: for (e, ticks) in readings.iter().enumerate() {
        word_writer::put_word(buffer, 4 * e, Tick(*ticks).to_bits());
    }
}
