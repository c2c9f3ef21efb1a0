// Document 01, "The round sheet": the sizes, stored.
#![tactic(auto)]

ghost use Rattle.std.specs.Prelude.{◌≡◌};
ghost use Rattle.size_writer.specs.Sizes.{sizes_put};

use model::{HEADER_SIZE, Settings};

// Stores the sizes, bytes 0 to 7, where they all lie in the buffer.
#[tactic(auto, unfolding(crate::specs::Sizes::sizes_put))]
pub fn put_sizes(settings: Settings, buffer: &mut [u8])
    ensures { buffer.new ≡ sizes_put settings buffer.old }
{
    if buffer.len() < HEADER_SIZE {
        return;
    }
    buffer[0] = settings.n;
    buffer[1] = settings.m;
    buffer[2] = settings.rule;
    buffer[3] = settings.estimator;
    word_writer::put_word(buffer, 4, settings.window);
}
