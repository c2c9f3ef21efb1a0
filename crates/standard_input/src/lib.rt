// What the programs read: standard input or a file, until a lent buffer is full or the input ends.
#![tactic(auto)]

ghost use Rattle.std.specs.Prelude.{IfOk, length, ◌≤◌};

use console::{Failure, Program};
use std::io;
use std::io::{IsTerminal, Read, Write};

// Reads a file, or whatever else is read, until the buffer is full or the input ends.
pub fn read_from<R: Read>(reader: &mut R, buffer: &mut [u8]) -> io::Result<usize>
    ensures { IfOk result (λ size. size ≤ length buffer.new) }
{
    let mut size = 0;
    'reads: while size < buffer.len() {
        let more = reader.read(&mut buffer[size..])?;
        if more == 0 {
            break 'reads;
        }
        size += more;
    }
    Ok(size)
}

// Reads a program's input until the buffer is full or the input ends. Where a person types it, it is first said what is
// waited for.
pub fn read_input<R: Read + IsTerminal, W: Write>(
    input: &mut R,
    buffer: &mut [u8],
    program: &Program,
    awaited: &str,
    errors: &mut W,
) -> Result<usize, Failure>
    ensures { IfOk result (λ size. size ≤ length buffer.new) }
{
    if input.is_terminal() {
        let _ = program.say(errors, awaited);
    }
    read_from(input, buffer).map_err(|_| Failure::Input)
}
