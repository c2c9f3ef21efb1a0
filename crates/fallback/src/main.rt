// Document 02, "Paper 7. Fall back to the direct sheet", for a person: reads a crusaders sheet and a direct sheet from
// two files, and writes which of them settled the round, and its answer.
#![tactic(auto)]

ghost use Rattle.std.specs.Prelude.{IfOk, IfSome, length, ◌≤◌};

use console::{Failure, Onward, Program};
use falling_back::Source;
use input_sizes::MAX_INPUT;
use std::fs::File;
use std::io::{Cursor, Write};
use std::{io, str};
use text::ROUND_CAPACITY;

const FALLBACK: Program = Program {
    name: "fallback",
    usage: "usage: fallback CRUSADERS DIRECT\n       fallback --help, fallback --version\nReads two round sheets, in \
          bytes, from the files so named: a CCA sheet, and the FCA sheet of what was heard directly.\nIt settles the \
          first, or the second where the first has too many faults (10), and writes `settled by crusaders` or\n\
          `settled by direct`, and then the answer as `settle` writes it. Or `refused`, a number and a place.\nA round \
          that was settled by direct has more bad cabinets than planned for: no planned window follows it.\nIt \
          always ends with status 0; where a file or the output fails it says so on standard error.\n",
    wanted: "two files are wanted, a CCA sheet and an FCA sheet; fallback --help says more",
};

// What stands before the number of an error of the system.
const NUMBER: &[u8] = b" (os error ";

// What the system says of an error, without the number that stands behind it in brackets.
fn without_number(text: &[u8]) -> &[u8] {
    match text.windows(NUMBER.len()).position(|part| part == NUMBER) {
        Some(at) => &text[..at],
        None => text,
    }
}

// Says why a file can't be read.
fn fail(errors: &mut impl Write, name: &[u8], why: &[u8]) -> io::Result<()> {
    errors.write_all(name)?;
    errors.write_all(b": ")?;
    errors.write_all(why)?;
    errors.write_all(b"\n")
}

fn fail_with(errors: &mut impl Write, name: &[u8], error: io::Error) -> io::Result<()> {
    let mut text = Cursor::new([0u8; 400]);
    let _ = write!(text, "{error}");
    let size = text.position() as usize;
    let words = text.into_inner();
    fail(
        errors,
        name,
        without_number(words.get(..size).unwrap_or(&words)),
    )
}

// Reads a file until the buffer is full or the file ends.
fn read_file(rt: HostRuntime, name: &str, sheet: &mut [u8]) -> io::Result<usize>
    ensures { IfOk result (λ size. size ≤ length sheet.new) }
{
    let mut file = File::open(&rt, name)?;
    standard_input::read_from(&mut file, sheet)
}

// Reads the file that an argument names. Where it can't be read, it is said on standard error why.
fn read_sheet(rt: HostRuntime, argument: usize, sheet: &mut [u8]) -> Option<usize>
    ensures { IfSome result (λ size. size ≤ length sheet.new) }
{
    // Stays: a fixed array, lent as far as it is used, since the project has no heap (a).
    let mut buffer = [0u8; 4096];
    let given = console::argument(&rt, argument, &mut buffer).unwrap_or(b"");
    let Ok(name) = str::from_utf8(given) else {
        let _ = fail(
            &mut Onward::new(rt.stderr()),
            given,
            b"a name in UTF-8 is wanted",
        );
        return None;
    };
    match read_file(rt, name, sheet) {
        Ok(size) => Some(size),
        Err(error) => {
            let _ = fail_with(&mut Onward::new(rt.stderr()), given, error);
            None
        }
    }
}

// Settles the round by one of the two sheets; writes which, and the text of its answer.
fn answer(out: &mut impl Write, crusaders: &[u8], direct: &[u8]) -> io::Result<()> {
    // Stays: a fixed array, lent as far as it is used, since the project has no heap (a).
    let mut answer = [0u8; 330];
    let mut text = [0u8; ROUND_CAPACITY];
    let end = match falling_back::fall_back(crusaders, direct, &mut answer) {
        Ok(settled) => {
            out.write_all(match settled.source {
                Source::Crusaders => b"settled by crusaders\n",
                Source::Direct => b"settled by direct\n",
            })?;
            text::round_text(&answer, &mut text)
        }
        Err(refusal) => text::refusal_text(refusal.number(), refusal.place, &mut text),
    };
    out.write_all(&text[..end.min(ROUND_CAPACITY)])
}

// Reads both sheets and answers them.
fn settle_files(rt: HostRuntime, out: &mut impl Write) -> io::Result<()> {
    // Stays: a fixed array, lent as far as it is used, since the project has no heap (a).
    let mut crusaders = [0; MAX_INPUT];
    let mut direct = [0; MAX_INPUT];
    let Some(first) = read_sheet(rt, 1, &mut crusaders) else {
        return Ok(());
    };
    let Some(second) = read_sheet(rt, 2, &mut direct) else {
        return Ok(());
    };
    answer(out, &crusaders[..first], &direct[..second])
}

fn respond<W: Write>(rt: HostRuntime, out: &mut W) -> io::Result<()> {
    match console::argument_count(&rt) {
        2 => FALLBACK.explain(&rt, out, &mut rt.stderr()),
        3 => settle_files(rt, out),
        _ => {
            let _ = FALLBACK.say(&mut rt.stderr(), FALLBACK.wanted);
            Ok(())
        }
    }
}

fn main(rt: HostRuntime) {
    let mut out = Onward::new(rt.stdout());
    let ended = respond(rt, &mut out).map_err(Failure::from);
    let _ = FALLBACK.close(&mut rt.stderr(), ended.and(out.ended()));
}
