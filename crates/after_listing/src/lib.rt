// Document 02, program `replay`: from the bytes of a trace to the line of the values after some rounds.
#![tactic(auto)]

ghost use Rattle.std.specs.Prelude.{◌≡◌, ◌≤◌, length};
ghost use Rattle.trace.specs.Trace.{rounds_at};
ghost use Rattle.trace.specs.ReplayText.{listed_room};
ghost use Rattle.after_text.specs.After.{after_capacity};
ghost use Rattle.after_listing.specs.Listed.{after_listed};

use after_text::AFTER_CAPACITY;
use model::HEADER_SIZE;

// Replays the first k rounds of a trace into a buffer of values, and writes the line of these; after a refusal nothing.
fn line_in(trace: &[u8], k: u8, values: &mut [u8], text: &mut [u8]) -> usize
    requires k_bound { k ≤ rounds_at trace.now }
    requires values_len { length values.old ≡ listed_room }
    requires after_capacity_in_bounds { after_capacity ≤ length text.old }
    ensures value { result ≡ (after_listed trace.now k text.old).size }
    ensures text_after { text.new ≡ (after_listed trace.now k text.old).buffer }
{
    match replaying::replay_to(trace, k, values) {
        Ok(_) => {
            let n = words::byte_at(trace, 0);
            after_text::after_text(n, k, values, text)
        }
        Err(_) => 0,
    }
}

// The line of the values after k rounds, for a trace of any bytes: none where the trace has fewer rounds or is refused
// by then. A buffer below the capacity is left as it was, and the answer is 0.
pub fn line(trace: &[u8], k: u8, text: &mut [u8]) -> usize
    ensures value { result ≡ (after_listed trace.now k text.old).size }
    ensures text_after { text.new ≡ (after_listed trace.now k text.old).buffer }
{
    if text.len() < AFTER_CAPACITY {
        return 0;
    }
    if trace_rounds::is_past(words::byte_at(trace, HEADER_SIZE), k) {
        return 0;
    }
    // Stays: a fixed array, lent as far as it is used, since the project has no heap (a).
    let mut values = [0u8; 256];
    line_in(trace, k, &mut values, text)
}
