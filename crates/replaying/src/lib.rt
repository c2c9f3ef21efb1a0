// Document 02, "Paper 1. Replay of a station run": from a trace to the final values, or one numbered refusal.
#![tactic(auto)]

ghost use Rattle.std.specs.Prelude.{◌≡◌, min, length};
ghost use Rattle.model.specs.Ensemble.{max_cabinets};
ghost use Rattle.trace.specs.Trace.{rounds_at};
ghost use Rattle.trace.specs.Replay.{replay_to, replay};
ghost use Rattle.replaying.specs.Answers.{replaying_of};

use model::MOST;
use refusals::Refusal;

// As many rounds as any trace has: no byte says more.
const EVERY_ROUND: u8 = u8::MAX;

// Replays the first rounds with a lent list for what sound cabinets hold.
#[tactic(auto, using(crate::proofs::Replaying::replay_refused))]
fn replay_in(trace: &[u8], most: u8, held: &mut [u32], values: &mut [u8]) -> Result<usize, Refusal>
    requires { length held.old ≡ max_cabinets }
    ensures { replaying_of result values.new
        ≡ replay_to trace.now (min most (rounds_at trace.now)) values.old }
{
    let settings = playing::play(trace, values.len(), most, &mut *held)?;
    let roles = trace_parts::roles(trace, settings.n);
    Ok(value_writer::put_values(roles, &*held, values))
}

// Replays the first rounds of a trace, at most as many as it has: what sound cabinets hold after them, four bytes each,
// in the lent buffer, or the first refusal, which changes nothing.
pub fn replay_to(trace: &[u8], most: u8, values: &mut [u8]) -> Result<usize, Refusal>
    ensures { replaying_of result values.new
        ≡ replay_to trace.now (min most (rounds_at trace.now)) values.old }
{
    // Stays: a fixed array, lent as far as it is used, since the project has no heap (a).
    let mut held = [0u32; MOST];
    replay_in(trace, most, &mut held, values)
}

// Replays a trace: the final values in the lent buffer, or the first refusal, which changes nothing.
pub fn replay(trace: &[u8], values: &mut [u8]) -> Result<usize, Refusal>
    ensures { replaying_of result values.new ≡ replay trace.now values.old }
{
    replay_to(trace, EVERY_ROUND, values)
}
