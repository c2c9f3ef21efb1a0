// Prints what settling answers to the vectors of the file stdin (see the crate vectors), without a spread and with one:
// the length of the answer sheet, N, the accepted count, the estimate and the new value, the marks, the used values,
// and what stands behind the answer in the buffer, which holds 165 everywhere before the call.
#![tactic(auto)]

use refusals::Refusal;
use std::io;
use std::io::Write;
use vectors::{Answer, Answers, Spaced};

fn show(out: &mut impl Write, settled: Result<usize, Refusal>, buffer: &[u8]) -> io::Result<()> {
    match settled {
        Ok(size) => {
            let (sheet, behind) = buffer.split_at(size.min(buffer.len()));
            write!(out, "  granted{}{}", Spaced(&[size]), Answer(sheet))?;
            writeln!(out, "; behind{}", Spaced(behind))
        }
        Err(refusal) => {
            vectors::show_refused(out, refusal)?;
            writeln!(out, "; behind{}", Spaced(buffer))
        }
    }
}

// A vector of `settle` has the length of the buffer, and then the sheet.
fn settle(out: &mut impl Write, vector: &[u8], buffer: &mut [u8]) -> io::Result<()> {
    let Some(sheet) = vector.get(5..) else {
        return Ok(());
    };
    let settled = settling::settle(sheet, &mut *buffer);
    show(out, settled, buffer)
}

// One of `with` has the spread between them.
fn settle_spread(out: &mut impl Write, vector: &[u8], buffer: &mut [u8]) -> io::Result<()> {
    let Some(sheet) = vector.get(9..) else {
        return Ok(());
    };
    let settled = settling::settle_spread(sheet, words::word_at(vector, 5), &mut *buffer);
    show(out, settled, buffer)
}

struct Program;

impl Answers for Program {
    // The calls are `settle` and `with`.
    fn answer<W: Write>(&self, out: &mut W, vector: &[u8]) -> io::Result<()> {
        // Stays: a fixed array, lent as far as it is used, since the project has no heap (a).
        let mut buffer = [165u8; 340];
        let room = (words::word_at(vector, 1) % 341) as usize;
        match words::byte_at(vector, 0) {
            b's' => settle(out, vector, &mut buffer[..room]),
            b'w' => settle_spread(out, vector, &mut buffer[..room]),
            _ => Ok(()),
        }
    }
}

fn main(rt: HostRuntime) {
    vectors::answer_onward(
        &mut rt.stdin(),
        &mut rt.stdout(),
        &mut [0; 65_536],
        &Program,
    );
}
