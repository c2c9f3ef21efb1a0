// Document 01, "Program `settle`": reads one round sheet from standard input, at most 20,489 bytes, and writes its
// listing.
#![tactic(auto)]

use console::{Failure, Onward, Program};
use input_sizes::MAX_INPUT;
use std::io::Write;
use text::ROUND_CAPACITY;

const SETTLE: Program = Program {
    name: "settle",
    usage: "usage: settle <SHEET\n       settle --help, settle --version\nReads one round sheet, in bytes, from \
          standard input and writes its answer: `round`, N, the accepted count, the\nestimate and the new \
          value; then each cabinet's number, mark and used value. Or `refused`, a number and a place.\nIt \
          always ends with status 0; where input or output fails it says so on standard error.\n",
    wanted: "no argument is wanted, the sheet comes from standard input; settle --help says more",
};

const AWAITED: &str =
    "waiting for a round sheet, in bytes, on standard input; settle --help says more";

// Reads a sheet and writes its listing.
fn settle_input(rt: HostRuntime) -> Result<(), Failure> {
    // Stays: a fixed array, lent as far as it is used, since the project has no heap (a).
    let mut input = [0; MAX_INPUT];
    let mut text = [0; ROUND_CAPACITY];
    let size = standard_input::read_input(
        &mut rt.stdin(),
        &mut input,
        &SETTLE,
        AWAITED,
        &mut rt.stderr(),
    )?;
    let end = listing::listing(&input[..size], &mut text);
    rt.stdout().write_all(&text[..end])?;
    Ok(())
}

fn respond(rt: HostRuntime) -> Result<(), Failure> {
    if console::argument_count(&rt) < 2 {
        return settle_input(rt);
    }
    let mut out = Onward::new(rt.stdout());
    SETTLE.explain(&rt, &mut out, &mut rt.stderr())?;
    out.ended()
}

fn main(rt: HostRuntime) {
    let _ = SETTLE.close(&mut rt.stderr(), respond(rt));
}
