// The replay of a recorded run, for C and for Rust.
ghost use Rattle.std.specs.Prelude.{◌≡◌};
ghost use Rattle.trace.specs.Replay.{replay};
ghost use Rattle.packed_refusals.specs.Answers.{packed};

// Replays a trace. The answer is the length of the final values.
#[unsafe(no_mangle)]
pub extern "C" fn tohiranga_replay(trace: &[u8], values: &mut [u8]) -> u64
    ensures value { result ≡ packed (replay trace.now values.old).verdict }
    ensures values_after { values.new ≡ (replay trace.now values.old).buffer }
{
    packing::pack_length(replaying::replay(trace, values))
}
