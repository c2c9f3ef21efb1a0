// Prints what falling back answers to the vectors of the file stdin (see the crate vectors): the length of the answer
// sheet and the number of the sheet that settled the round, 1 crusaders and 2 direct; where its readings start and how
// many bytes they have; and then what settle_vectors prints of an answer sheet. The buffer holds 165 everywhere before
// the call.
#![tactic(auto)]

use falling_back::Settlement;
use refusals::Refusal;
use std::io;
use std::io::Write;
use vectors::{Answer, Answers, Spaced};

// Whether the bytes of a sheet from a place on, so many of them, are these.
fn is_part(sheet: &[u8], start: u32, length: u32, part: &[u8]) -> bool {
    let from = start as usize;
    sheet.get(from..from + (length as usize)) == Some(part)
}

fn say_unless(out: &mut impl Write, is_so: bool, what: &str) -> io::Result<()> {
    if is_so { Ok(()) } else { write!(out, "{what}") }
}

// The sheet and the readings that the C call names; and where the part that is shown has other bytes, or is another by
// `settle_shown`, that it does.
fn show_part<'a>(
    out: &mut impl Write,
    crusaders: &'a [u8],
    direct: &'a [u8],
    settled: Result<Settlement, Refusal>,
) -> io::Result<()> {
    let named = fallback_packing::pack_fallen(crusaders, direct, settled);
    let part = shown_readings::shown(crusaders, direct, settled);
    // Stays: a fixed array, lent as far as it is used, since the project has no heap (a).
    let mut again = [0u8; 330];
    let once_more = shown_readings::settle_shown(crusaders, direct, &mut again);
    write!(
        out,
        "{}; shown{}",
        Spaced(&[named.source]),
        Spaced(&[named.start, named.length])
    )?;
    let by_crusaders = named.source == 1 && is_part(crusaders, named.start, named.length, part);
    let by_direct = named.source == 2 && is_part(direct, named.start, named.length, part);
    say_unless(
        out,
        by_crusaders || by_direct,
        ", and other bytes are shown",
    )?;
    say_unless(out, part == once_more, ", and settle_shown shows others")
}

fn show<'a>(
    out: &mut impl Write,
    crusaders: &'a [u8],
    direct: &'a [u8],
    settled: Result<Settlement, Refusal>,
    buffer: &[u8],
) -> io::Result<()> {
    match settled {
        Ok(Settlement { size, .. }) => {
            let (sheet, behind) = buffer.split_at(size.min(buffer.len()));
            write!(out, "  granted{}", Spaced(&[size]))?;
            show_part(out, crusaders, direct, settled)?;
            writeln!(out, "{}; behind{}", Answer(sheet), Spaced(behind))
        }
        Err(refusal) => {
            vectors::show_refused(out, refusal)?;
            let part = shown_readings::shown(crusaders, direct, settled);
            say_unless(out, part.is_empty(), ", and bytes are shown")?;
            writeln!(out, "; behind{}", Spaced(buffer))
        }
    }
}

// A vector of `fall` has the length of the buffer, the length of the crusaders sheet, and then both sheets.
fn fall_back(out: &mut impl Write, vector: &[u8]) -> io::Result<()> {
    // Stays: a fixed array, lent as far as it is used, since the project has no heap (a).
    let mut buffer = [165u8; 340];
    let room = (words::word_at(vector, 1) % 341) as usize;
    let size = words::word_at(vector, 5) as usize;
    let Some((crusaders, direct)) = vector
        .get(9..)
        .and_then(|sheets| sheets.split_at_checked(size))
    else {
        return Ok(());
    };
    let settled = falling_back::fall_back(crusaders, direct, &mut buffer[..room]);
    show(out, crusaders, direct, settled, &buffer[..room])
}

struct Program;

impl Answers for Program {
    fn answer<W: Write>(&self, out: &mut W, vector: &[u8]) -> io::Result<()> {
        match words::byte_at(vector, 0) {
            b'f' => fall_back(out, vector),
            _ => Ok(()),
        }
    }
}

fn main(rt: HostRuntime) {
    vectors::answer_onward(
        &mut rt.stdin(),
        &mut rt.stdout(),
        &mut [0; 65_536],
        &Program,
    );
}
