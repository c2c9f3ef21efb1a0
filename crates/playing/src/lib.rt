// Plays a trace: its checks, and its rounds one after the other. What sound cabinets hold is held as ticks moved up by
// 2^31.
#![tactic(auto)]

ghost use Rattle.std.specs.Prelude.{◌≡◌, cond, ℕ, ◌+◌, ◌≤◌, ◌<◌, min, eqb, length, get_or};
ghost use Rattle.arithmetic.specs.Naturals.{up};
ghost use Rattle.arithmetic.specs.Words.{two_to31};
ghost use Rattle.arithmetic.specs.Writing.{table};
ghost use Rattle.model.specs.Ensemble.{max_cabinets};
ghost use Rattle.model.specs.RoundSheet.{byte, settings_at};
ghost use Rattle.model.specs.Calls.{granted};
ghost use Rattle.refusals.specs.Answers.{check_of, verdict_of};
ghost use Rattle.trace.specs.Trace.{rounds_at, first_at};
ghost use Rattle.trace.specs.Replay.{state_to};
ghost use Rattle.playing.specs.Playing.{HeldTo, Playable, stopped_of, RoundPlayed, Played};
ghost use Rattle.playing.specs.Playing.{played_given};

use model::{HEADER_SIZE, MOST, SOUND, Settings, TRACE_HEADER_SIZE};
use planner::Plan;
use refusals::{Reason, Refusal};

// A trace that passes its checks before 15, with its settings and its rounds.
#[derive(Clone, Copy)]
struct Recording<'a> {
    trace: &'a [u8],
    settings: Settings,
    rounds: u8,
    ghost bytes: { (j : ℕ) → byte trace.now j < 256 },
    ghost playable: { Playable trace.now },
    ghost sized: { settings ≡ settings_at trace.now },
    ghost counted: { rounds ≡ rounds_at trace.now },
}

// What each cabinet first reads.
fn first_readings(trace: &[u8], held: &mut [u32])
    requires { length held.old ≤ max_cabinets }
    ensures { held.new
        ≡ table (λ p. up two_to31 (first_at trace.now (length held.old) p))
        (length held.old) }
{
    let start = TRACE_HEADER_SIZE + held.len();
    'cabinets: for (p, value) in held.iter_mut().enumerate() {
        *value = held::bias(words::word_at(trace, start + 4 * p));
    }
}

// Sound cabinets take their next values over.
fn take_over(roles: &[u8], next: &[u32], held: &mut [u32])
    requires { (length next.now ≡ length roles.now) × (length held.old ≡ length roles.now) }
    ensures { held.new
        ≡ table (λ p. cond (eqb (get_or roles.now p 0) 1) (get_or next.now p 0)
        (get_or held.old p 0))
        (length roles.now) }
{
    'cabinets: for (p, role) in roles.iter().enumerate() {
        if *role == SOUND {
            held[p] = next[p];
        }
    }
}

// Plays round k, from 0, at these settings and with lent places for the next values: the first cabinet that meets too
// many faults, where one does.
fn play_in(
    run: Recording,
    settings: Settings,
    k: u8,
    next: &mut [u32],
    held: &mut [u32],
) -> Option<u8>
    requires planned { settings ≡ (state_to run.trace.now k).plan.settings }
    requires early { k < run.rounds }
    requires next_len { (length next.old ≡ settings.n) × (length held.old ≡ settings.n) }
    requires held_to { HeldTo run.trace.now k held.old }
    ensures { RoundPlayed run.entry.trace.now k (stopped_of result) held.new }
{
    let roles = trace_parts::roles(run.trace, settings.n);
    let sent = trace_parts::marks(run.trace, settings.n, k);
    let readings = trace_parts::readings(run.trace, settings.n, run.rounds, k);
    let refused = station_rounds::settle_round(settings, roles, &*held, sent, readings, &mut *next);
    if let Some(p) = refused {
        return Some(p as u8);
    }
    take_over(roles, &*next, held);
    None
}

// Plays round k, from 0: the first cabinet that meets too many faults; where none does, they hold their next values.
fn play_round(run: Recording, settings: Settings, k: u8, held: &mut [u32]) -> Option<u8>
    requires planned { settings ≡ (state_to run.trace.now k).plan.settings }
    requires early { (k < run.rounds) × (length held.old ≡ settings.n) }
    requires n_le_max_cabinets { (settings.n ≤ max_cabinets) × HeldTo run.trace.now k held.old }
    ensures { RoundPlayed run.entry.trace.now k (stopped_of result) held.new }
{
    let n = settings.n as usize;
    // Stays: a fixed array, lent as far as it is used, since the project has no heap (a).
    let mut next = [0u32; MOST];
    play_in(run, settings, k, &mut next[..n], held)
}

// Plays the first rounds, each at its planned window, up to check 15.
fn play_rounds(run: Recording, most: u8, held: &mut [u32]) -> Result<(), Refusal>
    requires most_rounds { (most ≤ run.rounds) × (length held.old ≡ run.settings.n) }
    requires held_to { HeldTo run.trace.now 0 held.old }
    ensures { Played run.entry.trace.now most (check_of result) held.new }
{
    let mut plan = Plan {
        settings: run.settings,
        accuracy: 0,
        rounds: 0,
    };
    'rounds: for k in 0..most {
        if let Some(p) = play_round(run, plan.settings, k, &mut *held) {
            return Err(Reason::RunStopped.at(trace_sizes::stop_place(k, p)));
        }
        plan = plan_steps::stepped(plan);
    }
    Ok(())
}

// Plays the first rounds from the first readings on.
fn play_from_start(run: Recording, most: u8, held: &mut [u32]) -> Result<(), Refusal>
    requires { length held.old ≡ run.settings.n }
    ensures { Played run.entry.trace.now (min most (rounds_at run.entry.trace.now)) (check_of result) held.new }
{
    first_readings(run.trace, &mut *held);
    play_rounds(run, trace_rounds::rounds_to_play(run.rounds, most), held)
}

// Plays the first rounds of a trace, at most as many as it has, for a buffer of this length: its settings, or the first
// refusal. Where it is granted, the lent list, which has room for 64 cabinets, has what sound cabinets hold after them.
// A shorter list is refused as a short buffer is.
#[tactic(auto, using(crate::proofs::Outcomes::ways))]
pub fn play(trace: &[u8], room: usize, most: u8, held: &mut [u32]) -> Result<Settings, Refusal>
    ensures result_value { verdict_of result ≡ played_given trace.now most room (length held.old) }
    ensures held_to { verdict_of result ≡ granted (settings_at trace.now)
        → HeldTo trace.now (min most (rounds_at trace.now)) held.new }
{
    refusals::refuse_if(held.len() < MOST, Reason::NoRoom)?;
    let settings = trace_checks::screen(trace, room)?;
    let run = Recording {
        trace,
        settings,
        rounds: words::byte_at(trace, HEADER_SIZE),
    };
    let n = settings.n as usize;
    play_from_start(run, most, &mut held[..n])?;
    Ok(settings)
}
