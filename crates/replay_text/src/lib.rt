// Document 02, program `replay`: the text of final values, from a trace's bytes and theirs, written into a lent buffer.
#![tactic(auto)]

ghost use Rattle.std.specs.Prelude.{[], ◌∷◌, ◌≡◌};
ghost use Rattle.model.specs.Listing.{decimal, line};
ghost use Rattle.trace.specs.ReplayText.{replay_word};
ghost use Rattle.fields.specs.Writing.{Writes};
ghost use Rattle.replay_text.specs.Final.{final_written};

use fields::Writer;
use model::HEADER_SIZE;

// Bytes that hold the longest text.
pub const FINAL_CAPACITY: usize = 5115;

// Puts the first line: `replay`, N, rounds.
fn put_first(text: &mut Writer, n: u32, rounds: u32)
    ensures { Writes text.old (line replay_word (decimal n ∷ decimal rounds ∷ [])) text.new }
{
    text.put_bytes(b"replay");
    text.put_field(n);
    text.put_field(rounds);
    text.put_byte(b'\n');
}

// The text of a trace's final values: the line of the replay, then a line for each cabinet. A buffer below the capacity
// is left as it was, and the answer is 0.
pub fn final_text(trace: &[u8], values: &[u8], text: &mut [u8]) -> usize
    ensures value { result ≡ (final_written trace.now values.now text.old).size }
    ensures text_after { text.new ≡ (final_written trace.now values.now text.old).buffer }
{
    if text.len() < FINAL_CAPACITY {
        return 0;
    }
    let n = words::byte_at(trace, 0) as u32;
    let rounds = words::byte_at(trace, HEADER_SIZE) as u32;
    let mut writer = Writer::new(text);
    put_first(&mut writer, n, rounds);
    value_lines::put_lines(&mut writer, trace, values, n);
    writer.at
}
