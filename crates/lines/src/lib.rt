// Document 01, "Program `settle`": the lines of its text.
#![tactic(auto)]

ghost use Rattle.model.specs.Refusals.{refusal};
ghost use Rattle.model.specs.Listing.{refusal_text};
ghost use Rattle.fields.specs.Writing.{Writes};
ghost use Rattle.lines.specs.Lines.{round_line, cabinet_line};

use fields::Writer;

// Puts a refusal's line: `refused`, number, place.
pub fn put_refusal(text: &mut Writer, number: u8, place: u32)
    ensures { Writes text.old (refusal_text (refusal number place)) text.new }
{
    text.put_bytes(b"refused");
    text.put_field(number as u32);
    text.put_field(place);
    text.put_byte(b'\n');
}

// Puts the first line: `round`, N, count, estimate, new value.
pub fn put_round(text: &mut Writer, n: u32, count: u32, estimate: u32, value: u32)
    ensures { Writes text.old (round_line n count estimate value) text.new }
{
    text.put_bytes(b"round");
    text.put_field(n);
    text.put_field(count);
    text.put_signed_field(estimate);
    text.put_signed_field(value);
    text.put_byte(b'\n');
}

// Puts a cabinet's line: number, mark, used value.
pub fn put_cabinet(text: &mut Writer, r: u32, mark: u32, used: u32)
    ensures { Writes text.old (cabinet_line r mark used) text.new }
{
    text.put_decimal(r);
    text.put_field(mark);
    text.put_signed_field(used);
    text.put_byte(b'\n');
}
