// Prints what a replay answers to the vectors of the file stdin (see the crate vectors): the length of the final
// values, the values, and what stands behind them in the buffer, which holds 165 everywhere before the call.
#![tactic(auto)]

use std::io;
use std::io::Write;
use vectors::{Answers, Spaced, Ticks};

fn show(out: &mut impl Write, trace: &[u8], buffer: &mut [u8]) -> io::Result<()> {
    match replaying::replay(trace, &mut *buffer) {
        Ok(size) => {
            let (values, behind) = buffer.split_at(size.min(buffer.len()));
            write!(out, "  granted{}; values{}", Spaced(&[size]), Ticks(values))?;
            writeln!(out, "; behind{}", Spaced(behind))
        }
        Err(refusal) => {
            vectors::show_refused(out, refusal)?;
            writeln!(out, "; behind{}", Spaced(&*buffer))
        }
    }
}

struct Program;

impl Answers for Program {
    // A vector has the length of the buffer, and then the trace.
    fn answer<W: Write>(&self, out: &mut W, vector: &[u8]) -> io::Result<()> {
        let Some(trace) = vector.get(5..) else {
            return Ok(());
        };
        // Stays: a fixed array, lent as far as it is used, since the project has no heap (a).
        let mut buffer = [165u8; 270];
        let room = (words::word_at(vector, 1) % 271) as usize;
        show(out, trace, &mut buffer[..room])
    }
}

fn main(rt: HostRuntime) {
    vectors::answer_onward(
        &mut rt.stdin(),
        &mut rt.stdout(),
        &mut [0; 65_536],
        &Program,
    );
}
