// Document 02, program `replay`: the line of the values after some rounds, written into a lent buffer.
#![tactic(auto)]

ghost use Rattle.std.specs.Prelude.{◌≡◌};
ghost use Rattle.trace.specs.ReplayText.{after_text};
ghost use Rattle.fields.specs.Writing.{Writes};
ghost use Rattle.value_lines.specs.Values.{value_at};
ghost use Rattle.after_text.specs.After.{after_written};

use fields::Writer;

// Bytes that hold the longest line.
pub const AFTER_CAPACITY: usize = 3070;

// Puts the line: `after`, the number of rounds, N values.
fn put_after(text: &mut Writer, n: u32, k: u32, values: &[u8])
    ensures { Writes text.old (after_text n k (value_at values.now)) text.new }
{
    text.put_bytes(b"after");
    text.put_field(k);
    value_fields::put_fields(text, values, n);
    text.put_byte(b'\n');
}

// The line of the values of n cabinets after k rounds. A buffer below the capacity is left as it was, and the answer
// is 0.
pub fn after_text(n: u8, k: u8, values: &[u8], text: &mut [u8]) -> usize
    ensures value { result ≡ (after_written n k values.now text.old).size }
    ensures text_after { text.new ≡ (after_written n k values.now text.old).buffer }
{
    if text.len() < AFTER_CAPACITY {
        return 0;
    }
    let mut writer = Writer::new(text);
    put_after(&mut writer, n as u32, k as u32, values);
    writer.at
}
