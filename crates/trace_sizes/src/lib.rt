// Document 02, "Paper 1. Replay of a station run": how many entries a trace has, where its arrays begin, and its
// length.
#![tactic(auto)]

ghost use Rattle.std.specs.Prelude.{◌≡◌, ◌+◌, ◌*◌};
ghost use Rattle.model.specs.Ensemble.{max_cabinets};
ghost use Rattle.trace.specs.Trace.{trace_header_size, trace_entries, trace_length};

use model::{MAX_CABINETS, TRACE_HEADER_SIZE};

// The entries of so many rounds.
pub fn trace_entries(n: u8, rounds: u8) -> usize
    ensures { result ≡ trace_entries n rounds }
{
    let cabinets = n as usize;
    (rounds as usize) * (cabinets * cabinets)
}

// The bytes before the first mark.
pub fn marks_start(n: u8) -> usize
    ensures { result ≡ trace_header_size + 5 * n }
{
    TRACE_HEADER_SIZE + 5 * (n as usize)
}

// The bytes before the readings of the entries.
pub fn readings_start(n: u8, rounds: u8) -> usize
    ensures { result ≡ trace_header_size + 5 * n + trace_entries n rounds }
{
    marks_start(n) + trace_entries(n, rounds)
}

// The bytes of a trace.
pub fn trace_length(n: u8, rounds: u8) -> usize
    ensures { result ≡ trace_length n rounds }
{
    marks_start(n) + 5 * trace_entries(n, rounds)
}

// The place of check 15: 64 × the round, from 1, plus the cabinet. k is the round from 0.
pub fn stop_place(k: u8, cabinet: u8) -> u32
    ensures { result ≡ max_cabinets * (k + 1) + cabinet }
{
    (MAX_CABINETS as u32) * ((k as u32) + 1) + (cabinet as u32)
}
