// Vectors as text. A program reads lines from standard input and prints each; below a vector it prints what the
// engine answers.
//
// A vector is a call's name and numbers, parted by single spaces, among words of letters that say what the
// numbers are. A number with a sign takes four bytes, least significant byte first, and one without takes one;
// `64*+0` is +0 64 times. What stands behind a mark, `#`, is a comment; a line that starts with one is a
// heading.
//
// A program gets a vector as bytes: the first letter of the call's name, and then the numbers.
#![tactic(auto)]

ghost use Rattle.std.specs.Prelude.{◌≡◌, ◌++◌, ◌≤◌, codes, length, IfOk, OnOk, Some};
ghost use Rattle.std.specs.Io.KnownBytes.{Appends};
ghost use Rattle.std.specs.Fmt.{decimal};
ghost use Rattle.refusals.specs.Answers.{refusal_of};
ghost use Rattle.vectors.specs.Texts.{answer_text, readings_text, signed_text, spaced_text, ticks_text};

use console::Onward;
use model::{ANSWER_HEADER_SIZE, Settings};
use refusals::Refusal;
use std::fmt::Display;
use std::io::{Read, Write};
use std::{fmt, io};

#[cfg(test)]
mod tests;

const MODULUS: u64 = 4_294_967_296;

// What a word is so far.
#[derive(Clone, Copy, PartialEq, Eq)]
enum Kind {
    Nothing,
    Byte,
    Plus,
    Minus,
    Comment,
}

// The word that is being read, behind so many bytes of the vector: what it is so far, the number of its digits, and how
// many times it is put.
#[derive(Clone, Copy)]
struct Word {
    size: usize,
    kind: Kind,
    value: u64,
    times: u64,
}

impl Word {
    // A word of which nothing is read.
    fn fresh(size: usize) -> Word
        ensures { result.size ≡ size }
    {
        Word {
            size,
            kind: Kind::Nothing,
            value: 0,
            times: 1,
        }
    }

    // The word with one more digit.
    fn lengthen(self, digit: u8) -> Word
        ensures { result.size ≡ self.size }
    {
        let kind = match self.kind {
            Kind::Nothing => Kind::Byte,
            kind => kind,
        };
        Word {
            kind,
            value: 10 * (self.value % MODULUS) + u64::from(digit),
            ..self
        }
    }

    // The word with one more character.
    fn grow(self, character: u8) -> Word
        ensures { result.size ≡ self.size }
    {
        match character {
            b'#' => Word {
                kind: Kind::Comment,
                ..self
            },
            b'*' => Word {
                kind: Kind::Nothing,
                value: 0,
                times: self.value,
                ..self
            },
            b'+' => Word {
                kind: Kind::Plus,
                ..self
            },
            b'-' => Word {
                kind: Kind::Minus,
                ..self
            },
            b'0'..=b'9' => self.lengthen(character - b'0'),
            b':'..=255 if self.size == 0 && self.value == 0 => Word {
                kind: Kind::Byte,
                value: u64::from(character),
                ..self
            },
            _ => self,
        }
    }

    // The bytes of the word's number, that of one byte four times.
    fn bytes(self) -> [u8; 4] {
        let low = (self.value % MODULUS) as u32;
        match self.kind {
            Kind::Byte => [(low % 256) as u8; 4],
            Kind::Minus => low.wrapping_neg().to_le_bytes(),
            _ => low.to_le_bytes(),
        }
    }

    // How many bytes the word puts.
    fn count(self) -> u64 {
        match self.kind {
            Kind::Nothing | Kind::Comment => 0,
            Kind::Byte => self.times,
            Kind::Plus | Kind::Minus => self.times % MODULUS * 4,
        }
    }

    // Puts the word, as far as the vector has room, and answers the place behind it.
    fn put(self, vector: &mut [u8]) -> usize
        requires { self.size ≤ length vector.old }
        ensures { result ≤ length vector.new }
    {
        let bytes = self.bytes();
        let room = vector.len() - self.size;
        let end = self.size + self.count().min(room as u64) as usize;
        'places: for (k, place) in vector[self.size..end].iter_mut().enumerate() {
            *place = bytes[k % 4];
        }
        end
    }

    // Takes a character: a space puts the word, and begins another.
    fn take(self, vector: &mut [u8], character: u8) -> Word
        requires { self.size ≤ length vector.old }
        ensures { result.size ≤ length vector.new }
    {
        if self.kind == Kind::Comment {
            return self;
        }
        if character == b' ' {
            return Word::fresh(self.put(vector));
        }
        self.grow(character)
    }
}

// The next byte of the input, which is printed too; none at the end of the input.
fn read_byte(input: &mut impl Read, out: &mut impl Write) -> Option<u8> {
    let mut byte = [0u8; 1];
    let size = input.read(&mut byte).unwrap_or(0);
    let _ = out.write_all(&byte[..size]);
    byte[..size].first().copied()
}

// Reads and prints the next line, at most 65,536 characters of it, and answers how many bytes its vector has:
// none for a heading, and at the end of the input. What can't be printed is left out.
pub fn next(input: &mut impl Read, out: &mut impl Write, vector: &mut [u8]) -> usize
    ensures { result ≤ length vector.new }
{
    let mut word = Word::fresh(0);
    'characters: for _ in 0..65_536u32 {
        match read_byte(input, out) {
            Some(character) if b' ' <= character => word = word.take(vector, character),
            _ => break 'characters,
        }
    }
    word.take(vector, b' ').size
}

// A program of vectors, by what it answers to one.
pub trait Answers {
    fn answer<W: Write>(&self, out: &mut W, vector: &[u8]) -> io::Result<()>;
}

// Reads and prints each line, of which there are at most a thousand, and answers its vector. What can't be printed is
// left out.
pub fn answer_onward<R: Read, W: Write, A: Answers>(
    input: &mut R,
    out: &mut W,
    vector: &mut [u8],
    program: &A,
) {
    let mut onward = Onward::new(out);
    'lines: for _ in 0..1000u32 {
        let size = next(input, &mut onward, vector);
        let _ = program.answer(&mut onward, &vector[..size]);
    }
}

// As `read_byte`, but a byte that can't be printed is a failure.
fn print_byte(input: &mut impl Read, out: &mut impl Write) -> io::Result<Option<u8>> {
    let mut byte = [0u8; 1];
    let size = input.read(&mut byte).unwrap_or(0);
    out.write_all(&byte[..size])?;
    Ok(byte[..size].first().copied())
}

// As `next`, but a byte that can't be printed is a failure.
fn print_next(input: &mut impl Read, out: &mut impl Write, vector: &mut [u8]) -> io::Result<usize>
    ensures { IfOk result (λ size. size ≤ length vector.new) }
{
    let mut word = Word::fresh(0);
    'characters: for _ in 0..65_536u32 {
        match print_byte(input, out)? {
            Some(character) if b' ' <= character => word = word.take(vector, character),
            _ => break 'characters,
        }
    }
    Ok(word.take(vector, b' ').size)
}

// Reads and prints each line, of which there are at most a thousand, and answers its vector, until something can't be
// printed or an answer fails; that failure is what it answers then.
pub fn answer_lines<R: Read, W: Write, A: Answers>(
    input: &mut R,
    out: &mut W,
    vector: &mut [u8],
    program: &A,
) -> io::Result<()> {
    'lines: for _ in 0..1000u32 {
        let size = print_next(input, out, vector)?;
        program.answer(out, &vector[..size])?;
    }
    Ok(())
}

// The settings that a vector starts with.
pub fn settings(vector: &[u8]) -> Settings {
    Settings {
        n: words::byte_at(vector, 1),
        m: words::byte_at(vector, 2),
        rule: words::byte_at(vector, 3),
        estimator: words::byte_at(vector, 4),
        window: words::word_at(vector, 5),
    }
}

// Bytes or numbers, each behind a space.
#[derive(Clone, Copy)]
pub struct Spaced<'a, T>(pub &'a [T]);

impl<T: Display> Display for Spaced<'_, T> {
    ghost output = { λ s. spaced_text T.output s.0.now };

    fn fmt<W: fmt::Write>(&self, f: &mut fmt::Formatter<W>) -> fmt::Result {
        'items: for item in self.0 {
            write!(f, " {item}")?;
        }
        Ok(())
    }
}

// A signed number behind a space.
#[derive(Clone, Copy)]
struct Signed(i32);

impl Display for Signed {
    ghost output = { λ s. Some (signed_text s.0) };

    fn fmt<W: fmt::Write>(&self, f: &mut fmt::Formatter<W>) -> fmt::Result {
        let mark = if self.0 < 0 { " -" } else { " " };
        write!(f, "{mark}{}", self.0.unsigned_abs())
    }
}

// Signed numbers, each behind a space.
#[derive(Clone, Copy)]
pub struct Readings<'a>(pub &'a [i32]);

impl Display for Readings<'_> {
    ghost output = { λ s. Some (readings_text s.0.now) };

    fn fmt<W: fmt::Write>(&self, f: &mut fmt::Formatter<W>) -> fmt::Result {
        'readings: for reading in self.0 {
            write!(f, "{}", Signed(*reading))?;
        }
        Ok(())
    }
}

// Signed numbers of four bytes, each behind a space.
#[derive(Clone, Copy)]
pub struct Ticks<'a>(pub &'a [u8]);

impl Display for Ticks<'_> {
    ghost output = { λ t. Some (ticks_text t.0.now) };

    fn fmt<W: fmt::Write>(&self, f: &mut fmt::Formatter<W>) -> fmt::Result {
        'numbers: for bytes in self.0.chunks(4) {
            write!(f, "{}", Signed(words::word_at(bytes, 0).cast_signed()))?;
        }
        Ok(())
    }
}

// An answer sheet: the round, the marks and the used values.
#[derive(Clone, Copy)]
pub struct Answer<'a>(pub &'a [u8]);

impl Display for Answer<'_> {
    ghost output = { λ a. answer_text a.0.now };

    fn fmt<W: fmt::Write>(&self, f: &mut fmt::Formatter<W>) -> fmt::Result {
        let sheet = self.0;
        let (header, entries) = sheet.split_at(ANSWER_HEADER_SIZE.min(sheet.len()));
        let (counts, values) = header.split_at(2.min(header.len()));
        let cabinets = words::byte_at(sheet, 0) as usize;
        let (marks, used) = entries.split_at(cabinets.min(entries.len()));
        write!(f, "; round{}{}", Spaced(counts), Ticks(values))?;
        write!(f, "; marks{}; used{}", Spaced(marks), Ticks(used))
    }
}

// A refusal.
pub fn show_refused<W: Write>(out: &mut W, refusal: Refusal) -> io::Result<()>
    ensures { OnOk result (Appends (W.contents out.old) (W.contents out.new)
        (codes "  refused " ++ decimal (refusal_of refusal).number ++ codes " " ++ decimal refusal.place)) }
{
    write!(
        out,
        "  refused{}{}",
        Spaced(&[refusal.number()]),
        Spaced(&[refusal.place])
    )
}

// A refusal. What can't be written is left out.
pub fn refused(out: &mut impl Write, refusal: Refusal) {
    let _ = show_refused(&mut Onward::new(out), refusal);
}
