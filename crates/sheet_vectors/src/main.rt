// Prints what the reader, the row accessor and the writer answer to the vectors of the file stdin (see the crate
// vectors), and what they leave in what they are lent, which holds 7 everywhere before each call.
#![tactic(auto)]

use model::Settings;
use refusals::Refusal;
use std::io;
use std::io::Write;
use tick::Tick;
use vectors::{Answers, Readings, Spaced};

fn show_opened(out: &mut impl Write, opened: Result<Settings, Refusal>) -> io::Result<()> {
    match opened {
        Ok(settings) => {
            let sizes = [settings.n, settings.m, settings.rule, settings.estimator];
            write!(out, "  granted{} {}", Spaced(&sizes), settings.window)
        }
        Err(refusal) => vectors::show_refused(out, refusal),
    }
}

// A vector of the reader has the lengths of the arrays for marks and readings, and then the sheet.
fn read(out: &mut impl Write, vector: &[u8]) -> io::Result<()> {
    let Some(sheet) = vector.get(9..) else {
        return Ok(());
    };
    // Stays: a fixed array, lent as far as it is used, since the project has no heap (a).
    let mut marks = [7u8; 64];
    let mut readings = [7i32; 64];
    let room = (words::word_at(vector, 1) % 65) as usize;
    let places = (words::word_at(vector, 5) % 65) as usize;
    let opened = sheet_reader::read(sheet, &mut marks[..room], &mut readings[..places]);
    show_opened(out, opened)?;
    write!(out, "; marks{}", Spaced(&marks[..room]))?;
    writeln!(out, "; readings{}", Readings(&readings[..places]))
}

// A vector of the row accessor has the cabinet's number in eight bytes, and then the sheet.
fn show_row(out: &mut impl Write, vector: &[u8]) -> io::Result<()> {
    let Some(sheet) = vector.get(9..) else {
        return Ok(());
    };
    let high = words::word_at(vector, 5) as usize;
    let r = 4_294_967_296 * high + (words::word_at(vector, 1) as usize);
    writeln!(out, "  row{}", Spaced(row_reader::row(sheet, r)))
}

fn decode(bytes: &[u8], readings: &mut [i32]) {
    'readings: for (bits, reading) in bytes.chunks(4).zip(readings) {
        *reading = Tick::from_bits(words::word_at(bits, 0)).0;
    }
}

fn show_filled(out: &mut impl Write, filled: Result<usize, Refusal>) -> io::Result<()> {
    match filled {
        Ok(size) => write!(out, "  granted{}", Spaced(&[size])),
        Err(refusal) => vectors::show_refused(out, refusal),
    }
}

// A vector of the writer has the settings, the lengths of the buffer and of the arrays, and then marks and
// readings.
fn write(out: &mut impl Write, vector: &[u8]) -> io::Result<()> {
    let count = (words::word_at(vector, 13) % 65) as usize;
    let Some((marks, bytes)) = vector
        .get(21..)
        .and_then(|entries| entries.split_at_checked(count))
    else {
        return Ok(());
    };
    // Stays: a fixed array, lent as far as it is used, since the project has no heap (a).
    let mut readings = [0i32; 64];
    let mut buffer = [7u8; 340];
    let places = (words::word_at(vector, 17) % 65) as usize;
    let room = (words::word_at(vector, 9) % 341) as usize;
    decode(bytes, &mut readings[..places]);
    let filled = sheet_writer::write(
        vectors::settings(vector),
        marks,
        &readings[..places],
        &mut buffer[..room],
    );
    show_filled(out, filled)?;
    writeln!(out, "; bytes{}", Spaced(&buffer[..room]))
}

struct Program;

impl Answers for Program {
    // The calls are `read`, `show` and `write`.
    fn answer<W: Write>(&self, out: &mut W, vector: &[u8]) -> io::Result<()> {
        match words::byte_at(vector, 0) {
            b'r' => read(out, vector),
            b's' => show_row(out, vector),
            b'w' => write(out, vector),
            _ => Ok(()),
        }
    }
}

fn main(rt: HostRuntime) {
    vectors::answer_onward(&mut rt.stdin(), &mut rt.stdout(), &mut [0; 4096], &Program);
}
