// Document 02, program `replay`: the values of the cabinets in one line.
#![tactic(auto)]

ghost use Rattle.fields.specs.Writing.{Writes};
ghost use Rattle.value_lines.specs.Values.{value_at};
ghost use Rattle.value_fields.specs.Spaced.{spaced_values};

use fields::Writer;

// Puts the fields of cabinets 0 to n-1: their values.
pub fn put_fields(text: &mut Writer, values: &[u8], n: u32)
    ensures { Writes text.old (spaced_values (value_at values.now) n) text.new }
{
    'cabinets: for p in 0..n {
        let i = p as usize;
        let value = words::word_at(values, 4 * i);
        text.put_signed_field(value);
    }
}
