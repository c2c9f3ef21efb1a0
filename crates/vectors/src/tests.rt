// What no clause says: that `answer_lines` ends at the first failure and hands it up, and that `answer_onward` goes on. And
// what a clause does say, of all 256 numbers: that `Reason::try_from` grants 1 to 19 alone.

use crate::{Answers, answer_lines, answer_onward};
use refusals::Reason;
use std::io;
use std::io::{Read, Write};

const TEXT: &[u8] = b"a 1\nb 2 3\n";

// A text, read byte by byte.
#[derive(Drop)]
struct Source {
    text: &'static [u8],
}

impl Read for Source {
    fn read(&mut self, buf: &mut [u8]) -> io::Result<usize> {
        match (self.text.split_first(), buf.first_mut()) {
            (Some((byte, rest)), Some(place)) => {
                *place = *byte;
                self.text = rest;
                Ok(1)
            }
            _ => Ok(0),
        }
    }
}

// Counts the bytes that are written, and fails one write, counted from 1.
#[derive(Drop)]
struct Failing {
    size: usize,
    writes: u32,
    fails: u32,
}

impl Write for Failing {
    fn write(&mut self, buf: &[u8]) -> io::Result<usize> {
        self.write_all(buf)?;
        Ok(buf.len())
    }

    fn flush(&mut self) -> io::Result<()> {
        Ok(())
    }

    fn write_all(&mut self, buf: &[u8]) -> io::Result<()> {
        self.writes = self.writes.saturating_add(1);
        if self.writes == self.fails {
            return Err(io::Error::from_raw_os_error(28));
        }
        self.size = self.size.saturating_add(buf.len());
        Ok(())
    }
}

// Answers a vector by two writes of a byte, and refuses one of a length between them.
#[derive(Clone, Copy)]
struct Echo {
    refuses: usize,
}

impl Answers for Echo {
    fn answer<W: Write>(&self, out: &mut W, vector: &[u8]) -> io::Result<()> {
        if vector.is_empty() {
            return Ok(());
        }
        out.write_all(b"!")?;
        if vector.len() == self.refuses {
            return Err(io::Error::from_raw_os_error(71));
        }
        out.write_all(b"!")
    }
}

// The code of a failure, or 0.
fn code(ended: io::Result<()>) -> i32 {
    match ended {
        Ok(()) => 0,
        Err(error) => error.raw_os_error().unwrap_or(-1),
    }
}

// Which write fails, and vectors of which length are refused; the code that is answered, the bytes written, and those left
// unread.
const CASES: [(u32, usize, i32, usize, usize); 7] = [
    (0, 0, 0, 14, 0),
    (1, 0, 28, 0, 9),
    (5, 0, 28, 4, 6),
    (6, 0, 28, 5, 6),
    (8, 0, 28, 7, 4),
    (0, 2, 71, 5, 6),
    (0, 3, 71, 13, 0),
];

// Which write fails, and vectors of which length are refused; the bytes written.
const ONWARD: [(u32, usize, usize); 7] = [
    (0, 0, 14),
    (1, 0, 13),
    (5, 0, 13),
    (6, 0, 13),
    (8, 0, 13),
    (0, 2, 13),
    (5, 3, 12),
];

#[test]
fn ends_at_the_first_failure(rt: HostRuntime) {
    for (fails, refuses, ended, size, left) in CASES {
        let mut input = Source { text: TEXT };
        let mut out = Failing {
            size: 0,
            writes: 0,
            fails,
        };
        let answer = answer_lines(&mut input, &mut out, &mut [0; 16], &Echo { refuses });
        assert_eq!(rt; code(answer), ended, "answer at {fails}, {refuses}");
        assert_eq!(rt; out.size, size, "written at {fails}, {refuses}");
        assert_eq!(rt; input.text.len(), left, "left at {fails}, {refuses}");
    }
}

#[test]
fn goes_on_after_a_failure(rt: HostRuntime) {
    for (fails, refuses, size) in ONWARD {
        let mut input = Source { text: TEXT };
        let mut out = Failing {
            size: 0,
            writes: 0,
            fails,
        };
        answer_onward(&mut input, &mut out, &mut [0; 16], &Echo { refuses });
        assert_eq!(rt; out.size, size, "written at {fails}, {refuses}");
        assert_eq!(rt; input.text.len(), 0, "left at {fails}, {refuses}");
    }
}

#[test]
fn numbers_of_reasons_are_1_to_19(rt: HostRuntime) {
    for number in 0..=255u8 {
        let known = Reason::try_from(number).map(Reason::number).ok();
        let listed = if 1 <= number && number <= 19 {
            Some(number)
        } else {
            None
        };
        assert_eq!(rt; known, listed, "at {number}");
        assert_eq!(rt; Reason::numbered(number).number(), number, "at {number}");
    }
}
