// What the programs share: the arguments that they are given, and what each says of itself.
#![tactic(auto)]

ghost use Rattle.std.specs.Prelude.{◌≡◌, ◌++◌, ◌≤◌, ◌↔◌, codes, IfErr, IfOk, IfSome, IsOk, IsTrue, Ok, OnOk, Some, length, take};
ghost use Rattle.std.specs.Io.KnownBytes.{Appends, Keeps};
ghost use Rattle.std.specs.Fmt.{decimal};
ghost use Rattle.console.specs.Answers.{failure_line, failure_text, IsAnswer, version_line};
ghost use Rattle.console.specs.Onward.{GoesOn};
ghost use Rattle.version.specs.Version.{version_text};

use std::env::{Env, FillError};
use std::io::Write;
use std::{fmt, io};

// What the system refused a program.
#[derive(Clone, Copy, Debug, PartialEq, Eq)]
pub enum Failure {
    Input,
    Output,
}

impl Failure {
    // What was refused, in words.
    fn text(self) -> &'static str
        ensures { result.now ≡ failure_text self }
    {
        match self {
            Failure::Input => "standard input can't be read",
            Failure::Output => "standard output can't be written",
        }
    }
}

impl fmt::Display for Failure {
    ghost output = { λ failure. Some (failure_text failure) };

    fn fmt<W: fmt::Write>(&self, f: &mut fmt::Formatter<W>) -> fmt::Result {
        f.write_str(self.text())
    }
}

// A program that fails where it writes.
impl From<io::Error> for Failure {
    fn from(_error: io::Error) -> Failure {
        Failure::Output
    }
}

// Writes a text, and answers whether all of it was written.
pub fn write_all<W: Write>(to: &mut W, text: &[u8]) -> bool
    ensures { IsTrue result → Appends (W.contents to.old) (W.contents to.new) text.now }
{
    to.write_all(text).is_ok()
}

// Writes a number in decimal digits, and answers whether all of them were written.
pub fn write_decimal<W: Write>(to: &mut W, value: u64) -> bool
    ensures { IsTrue result → Appends (W.contents to.old) (W.contents to.new) (decimal value) }
{
    write!(to, "{value}").is_ok()
}

// A writer that goes on: a write that fails is noted, and answered as if all were written, so that what comes behind it
// is written none the less.
#[derive(Drop)]
pub struct Onward<W> {
    pub out: W,
    pub failed: bool,
}

impl<W: Write> Onward<W> {
    pub fn new(out: W) -> Onward<W>
        ensures out { result.out ≡ out }
        ensures whole { ¬ IsTrue result.failed }
    {
        Onward { out, failed: false }
    }

    // Whether all was written.
    pub fn ended(&self) -> Result<(), Failure>
        ensures whole { IsOk result ↔ (¬ IsTrue self.now.failed) }
        ensures output { IfErr result (λ failure. failure ≡ Failure.Output) }
    {
        if self.failed {
            Err(Failure::Output)
        } else {
            Ok(())
        }
    }
}

impl<W: Write> Write for Onward<W> {
    fn write(&mut self, buf: &[u8]) -> io::Result<usize>
        ensures taken { result ≡ Ok (length buf.now) }
        ensures goes_on { GoesOn self.old.failed self.new.failed
            (Appends (W.contents self.old.out) (W.contents self.new.out) buf.now) }
    {
        self.write_all(buf)?;
        Ok(buf.len())
    }

    fn flush(&mut self) -> io::Result<()>
        ensures taken { IsOk result }
        ensures goes_on { GoesOn self.old.failed self.new.failed
            (Keeps (W.contents self.old.out) (W.contents self.new.out)) }
    {
        self.failed |= self.out.flush().is_err();
        Ok(())
    }

    fn write_all(&mut self, buf: &[u8]) -> io::Result<()>
        ensures taken { IsOk result }
        ensures goes_on { GoesOn self.old.failed self.new.failed
            (Appends (W.contents self.old.out) (W.contents self.new.out) buf.now) }
    {
        self.failed |= !write_all(&mut self.out, buf);
        Ok(())
    }
}

// Puts a text behind so many bytes of a buffer, and answers how many there are then; none where there is no room.
fn put(buffer: &mut [u8], size: usize, text: &str) -> Option<usize>
    ensures { IfSome result (λ end. (end ≤ length buffer.new)
        × (take end buffer.new ≡ take size buffer.old ++ text.now)) }
{
    let end = size.checked_add(text.len())?;
    if buffer.len() < end {
        return None;
    }
    buffer[size..end].copy_from_slice(text.as_bytes());
    Some(end)
}

// Puts four texts at the start of a buffer, and answers how many bytes they have; none where there is no room.
fn put_four(buffer: &mut [u8], name: &str, mark: &str, what: &str, end: &str) -> Option<usize>
    ensures { IfSome result (λ size. (size ≤ length buffer.new)
        × (take size buffer.new ≡ name.now ++ mark.now ++ what.now ++ end.now)) }
{
    let size = put(buffer, 0, name)?;
    let size = put(buffer, size, mark)?;
    let size = put(buffer, size, what)?;
    put(buffer, size, end)
}

// Writes four texts by one write, so that a line stands whole beside those of other programs; by four where they have
// more than 256 bytes.
fn write_four<W: Write>(
    out: &mut W,
    name: &str,
    mark: &str,
    what: &str,
    end: &str,
) -> io::Result<()>
    ensures { OnOk result (Appends (W.contents out.old) (W.contents out.new)
        (name.now ++ mark.now ++ what.now ++ end.now)) }
{
    // Stays: a fixed array, lent as far as it is used, since the project has no heap (a).
    let mut buffer = [0u8; 256];
    match put_four(&mut buffer, name, mark, what, end) {
        Some(size) => out.write_all(&buffer[..size]),
        None => write!(out, "{name}{mark}{what}{end}"),
    }
}

// How many arguments the program was started with, its own name among them.
pub fn argument_count(env: &impl Env) -> usize {
    'arguments: for at in 0..usize::MAX {
        if let Err(FillError::NotPresent) = env.arg(at, &mut []) {
            return at;
        }
    }
    usize::MAX
}

// An argument, put at the start of a buffer.
pub fn argument<'a>(env: &impl Env, at: usize, buffer: &'a mut [u8]) -> Result<&'a [u8], FillError>
    ensures { IfOk result (λ given. length given.now ≤ length buffer.old) }
{
    let size = env.arg(at, buffer)?;
    Ok(&buffer[..size])
}

// Whether an argument is a word, none of which has more than 4,096 bytes.
pub fn is_word(env: &impl Env, at: usize, word: &[u8]) -> bool
    ensures { IsTrue result → length word.now ≤ 4096 }
{
    // Stays: a fixed array, lent as far as it is used, since the project has no heap (a).
    let mut buffer = [0u8; 4096];
    argument(env, at, &mut buffer).is_ok_and(|given| given == word)
}

// A program's name, its usage, and what it says of arguments that it can't take.
#[derive(Clone, Copy)]
pub struct Program {
    pub name: &'static str,
    pub usage: &'static str,
    pub wanted: &'static str,
}

impl Program {
    // Writes how the program is used.
    pub fn show_usage<W: Write>(&self, out: &mut W) -> io::Result<()>
        ensures { OnOk result (Appends (W.contents out.old) (W.contents out.new) self.now.usage.now) }
    {
        out.write_all(self.usage.as_bytes())
    }

    // Writes the program's name and version.
    pub fn show_version<W: Write>(&self, out: &mut W) -> io::Result<()>
        ensures { OnOk result (Appends (W.contents out.old) (W.contents out.new)
            (version_line self.now)) }
    {
        write_four(out, self.name, " ", "", "")?;
        writeln!(out, "{}", version::text())
    }

    // Says something to a person, behind the program's name.
    pub fn say<W: Write>(&self, errors: &mut W, what: &str) -> io::Result<()>
        ensures { OnOk result (Appends (W.contents errors.old) (W.contents errors.new)
            (self.now.name.now ++ codes ": " ++ what.now ++ codes "\n")) }
    {
        write_four(errors, self.name, ": ", what, "\n")
    }

    // Answers the first argument, `--help` or `--version`; another is complained about.
    pub fn explain<W: Write, E: Write>(
        &self,
        env: &impl Env,
        out: &mut W,
        errors: &mut E,
    ) -> io::Result<()>
        ensures { OnOk result (IsAnswer (W.contents out.old) (W.contents out.new) self.now) }
    {
        if is_word(env, 1, b"--help") {
            return self.show_usage(out);
        }
        if is_word(env, 1, b"--version") {
            return self.show_version(out);
        }
        let _ = self.say(errors, self.wanted);
        Ok(())
    }

    // Says what the system refused, where it did.
    pub fn close<W: Write>(&self, errors: &mut W, ended: Result<(), Failure>) -> io::Result<()>
        ensures kept { OnOk ended (Keeps (W.contents errors.old) (W.contents errors.new)) }
        ensures said { IfErr ended (λ failure. OnOk result
            (Appends (W.contents errors.old) (W.contents errors.new) (failure_line self.now failure))) }
    {
        match ended {
            Ok(()) => Ok(()),
            Err(failure) => self.say(errors, failure.text()),
        }
    }
}
