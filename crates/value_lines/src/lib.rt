// Document 02, program `replay`: the lines of the cabinets, from a trace's bytes and those of their values.
#![tactic(auto)]

ghost use Rattle.trace.specs.Trace.{role_at};
ghost use Rattle.trace.specs.ReplayText.{value_lines};
ghost use Rattle.fields.specs.Writing.{Writes};
ghost use Rattle.value_lines.specs.Values.{value_at};

use fields::Writer;
use model::TRACE_HEADER_SIZE;

// Puts a line for each of the cabinets 0 to n-1: number, role, value.
// Stays: beside its twin text::put_cabinets, since a loop for both would take a closure, and be no shorter.
pub fn put_lines(text: &mut Writer, trace: &[u8], values: &[u8], n: u32)
    ensures { Writes text.old (value_lines (role_at trace.now) (value_at values.now) n) text.new }
{
    'cabinets: for p in 0..n {
        let i = p as usize;
        let role = words::byte_at(trace, TRACE_HEADER_SIZE + i) as u32;
        let value = words::word_at(values, 4 * i);
        lines::put_cabinet(text, p, role, value);
    }
}
