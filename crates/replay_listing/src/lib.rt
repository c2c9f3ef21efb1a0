// Document 02, program `replay`: from the bytes of a trace to the text that the program writes.
#![tactic(auto)]

ghost use Rattle.std.specs.Prelude.{◌≡◌, ◌≤◌, length};
ghost use Rattle.trace.specs.ReplayText.{listed_room};
ghost use Rattle.replay_text.specs.Final.{final_capacity};
ghost use Rattle.replay_listing.specs.Listed.{replay_listed};

use replay_text::FINAL_CAPACITY;

// Replays a trace into a buffer of values, and writes the text of these or of the refusal.
fn listing_in(trace: &[u8], values: &mut [u8], text: &mut [u8]) -> usize
    requires values_len { length values.old ≡ listed_room }
    requires final_capacity_in_bounds { final_capacity ≤ length text.old }
    ensures value { result ≡ (replay_listed trace.now text.old).size }
    ensures text_after { text.new ≡ (replay_listed trace.now text.old).buffer }
{
    match replaying::replay(trace, values) {
        Ok(_) => replay_text::final_text(trace, values, text),
        Err(refusal) => refused_text::refused_text(refusal, text),
    }
}

// The text that `replay` writes for a trace of any bytes. A buffer below the capacity of final values is left as it
// was, and the answer is 0.
pub fn listing(trace: &[u8], text: &mut [u8]) -> usize
    ensures value { result ≡ (replay_listed trace.now text.old).size }
    ensures text_after { text.new ≡ (replay_listed trace.now text.old).buffer }
{
    if text.len() < FINAL_CAPACITY {
        return 0;
    }
    // Stays: a fixed array, lent as far as it is used, since the project has no heap (a).
    let mut values = [0u8; 256];
    listing_in(trace, &mut values, text)
}
