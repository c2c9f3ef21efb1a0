// Document 02, "Paper 1. Replay of a station run": the parts of a trace that have the roles, and a round's marks and
// readings. Each is a part of the caller's own slice, and empty where the trace is too short for it.
#![tactic(auto)]

ghost use Rattle.std.specs.Prelude.{◌≡◌, ◌+◌, ◌*◌};
ghost use Rattle.trace.specs.Trace.{trace_header_size, trace_entries};
ghost use Rattle.trace_parts.specs.Parts.{part_from};

use model::TRACE_HEADER_SIZE;

// So many bytes from a place on.
#[tactic(auto, unfolding(crate::specs::Parts::part_from))]
fn part(trace: &[u8], start: usize, size: usize) -> &[u8]
    ensures { result.now ≡ part_from trace.now start size }
{
    if trace.len() < size || trace.len() - size < start {
        return &[];
    }
    &trace[start..start + size]
}

// The roles of the cabinets.
pub fn roles(trace: &[u8], n: u8) -> &[u8]
    ensures { result.now ≡ part_from trace.now trace_header_size n }
{
    part(trace, TRACE_HEADER_SIZE, n as usize)
}

// The marks of round k, from 0.
pub fn marks(trace: &[u8], n: u8, k: u8) -> &[u8]
    ensures { result.now
        ≡ part_from trace.now (trace_header_size + 5 * n + trace_entries n k) (trace_entries n 1) }
{
    let start = trace_sizes::readings_start(n, k);
    part(trace, start, trace_sizes::trace_entries(n, 1))
}

// The readings of round k, from 0, of a trace of so many rounds.
pub fn readings(trace: &[u8], n: u8, rounds: u8, k: u8) -> &[u8]
    ensures { result.now
        ≡ part_from trace.now (trace_header_size + 5 * n + trace_entries n rounds + 4 * trace_entries n k)
        (4 * trace_entries n 1) }
{
    let start = trace_sizes::readings_start(n, rounds) + 4 * trace_sizes::trace_entries(n, k);
    part(trace, start, 4 * trace_sizes::trace_entries(n, 1))
}
