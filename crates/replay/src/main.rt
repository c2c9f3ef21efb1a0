// Document 02, program `replay`: reads a trace from standard input, at most 655,690 bytes, and writes its listing; on
// request the values after each round first.
#![tactic(auto)]

ghost use Rattle.std.specs.Prelude.{◌≡◌, length};
ghost use Rattle.trace.specs.ReplayText.{max_trace_input};

use console::{Failure, Onward, Program};
use model::MAX_ROUNDS;
use replay_text::FINAL_CAPACITY;
use std::io;
use std::io::Write;

const REPLAY: Program = Program {
    name: "replay",
    usage: "usage: replay [--rounds] <TRACE\n       replay --help, replay --version\nReads the trace of a recorded run, \
          in bytes, from standard input, replays it and writes `replay`, N, rounds;\nthen each cabinet's number, role \
          (1 sound, 0 faulty) and final value (0 for faulty). Or `refused`, a number and a place.\nWith --rounds it \
          first writes `after`, K and N values for K from 0, the first readings, while the run goes on.\nIt always \
          ends with status 0; where input or output fails it says so on standard error.\n",
    wanted: "--rounds is the one argument, the trace comes from standard input; replay --help says more",
};

const AWAITED: &str = "waiting for a trace, in bytes, on standard input; replay --help says more";

// The longest trace and a byte.
const MAX_TRACE_INPUT: usize = 655_690;

// Bytes for what is read.
fn input_buffer() -> [u8; MAX_TRACE_INPUT]
    ensures { max_trace_input ≡ length result }
{
    [0; MAX_TRACE_INPUT]
}

// Writes the text of a trace.
fn write_listing(out: &mut impl Write, trace: &[u8], text: &mut [u8]) -> io::Result<()> {
    let end = replay_listing::listing(trace, text);
    out.write_all(&text[..end])
}

// Writes the line of the values after k rounds, where there is one.
fn write_line(out: &mut impl Write, trace: &[u8], k: u8, text: &mut [u8]) -> io::Result<()> {
    let end = after_listing::line(trace, k, text);
    out.write_all(&text[..end])
}

// Writes the lines of the values after each round, the first readings first.
fn write_lines(out: &mut impl Write, trace: &[u8], text: &mut [u8]) -> io::Result<()> {
    'rounds: for k in 0..=(MAX_ROUNDS as u8) {
        write_line(out, trace, k, text)?;
    }
    Ok(())
}

// Reads a trace, and writes its listing.
fn replay_input(rt: HostRuntime, each_round: bool) -> Result<(), Failure> {
    let mut input = input_buffer();
    // A line of the values after a round needs fewer bytes.
    // Stays: a fixed array, lent as far as it is used, since the project has no heap (a).
    let mut text = [0; FINAL_CAPACITY];
    let mut out = Onward::new(rt.stdout());
    let size = standard_input::read_input(
        &mut rt.stdin(),
        &mut input,
        &REPLAY,
        AWAITED,
        &mut rt.stderr(),
    )?;
    if each_round {
        write_lines(&mut out, &input[..size], &mut text)?;
    }
    write_listing(&mut out, &input[..size], &mut text)?;
    out.ended()
}

fn respond(rt: HostRuntime) -> Result<(), Failure> {
    let count = console::argument_count(&rt);
    if count < 2 {
        return replay_input(rt, false);
    }
    if count == 2 && console::is_word(&rt, 1, b"--rounds") {
        return replay_input(rt, true);
    }
    if count == 2 {
        let mut out = Onward::new(rt.stdout());
        REPLAY.explain(&rt, &mut out, &mut rt.stderr())?;
        return out.ended();
    }
    let _ = REPLAY.say(&mut rt.stderr(), REPLAY.wanted);
    Ok(())
}

fn main(rt: HostRuntime) {
    let _ = REPLAY.close(&mut rt.stderr(), respond(rt));
}
