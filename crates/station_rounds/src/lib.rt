// One round of a recorded run: each sound cabinet settles what it hears. Values are ticks moved up by 2^31.
#![tactic(auto)]

ghost use Rattle.std.specs.Prelude.{◌≡◌, ◌<◌, length, IfSome, is_none, unwrap_or};
ghost use Rattle.station_rounds.specs.Rounds.{meets_too_many, next_value};
ghost use Rattle.station_rounds.specs.Rounds.{refused_given, next_given};
ghost use Rattle.station_rounds.specs.Settling.{Fits, Left};

use hearing::Recorded;
use model::{MAX_WINDOW, Settings};

// Settles what cabinet p hears, if it is sound, with lent places for each sender's mark and value: what it holds next, 0
// for a faulty one; none where it meets too many faults.
fn settle_one(
    settings: Settings,
    round: Recorded,
    p: usize,
    marks: &mut [u8],
    values: &mut [u32],
) -> Option<u32>
    requires fits { Fits settings round.roles.now round.held.now round.sent.now round.readings.now
        (length marks.old) (length values.old) }
    requires p_in_bounds { p < length round.roles.now }
    ensures refused { is_none result
        ≡ meets_too_many
        settings round.entry.roles.now round.entry.held.now round.entry.sent.now round.entry.readings.now p }
    ensures value { IfSome result (λ value. value
        ≡ next_value
        settings round.entry.roles.now round.entry.held.now round.entry.sent.now round.entry.readings.now p) }
{
    if station_tests::is_faulty(round.roles[p]) {
        return Some(0);
    }
    hearing::hear(
        round.roles,
        round.held,
        round.sent,
        round.readings,
        p,
        &mut *marks,
        &mut *values,
    );
    let need = station_tests::quorum(settings.n, settings.m);
    let settled = agreement::agree(
        &mut *marks,
        &*values,
        settings.window,
        need,
        settings.estimator,
    );
    if station_tests::meets_too_many(settled.count) {
        None
    } else {
        Some(settled.value)
    }
}

// Settles each cabinet's round up to the first that meets too many faults, with lent places for marks and values: that
// cabinet, if there is one.
fn settle_each(
    settings: Settings,
    round: Recorded,
    marks: &mut [u8],
    values: &mut [u32],
    next: &mut [u32],
) -> Option<usize>
    requires fits { Fits settings round.roles.now round.held.now round.sent.now round.readings.now
        (length marks.old) (length values.old) }
    requires next_len { length next.old ≡ length round.roles.now }
    ensures left { Left
        settings round.entry.roles.now round.entry.held.now round.entry.sent.now round.entry.readings.now
        next.old (unwrap_or result (length round.entry.roles.now)) next.new }
    ensures one { IfSome result (λ p. p < length round.entry.roles.now) }
{
    'receivers: for p in 0..round.roles.len() {
        match settle_one(settings, round, p, &mut *marks, &mut *values) {
            Some(value) => next[p] = value,
            None => return Some(p),
        }
    }
    None
}

// Settles a round of at most 64 cabinets: the values that sound cabinets hold next in a lent list, up to the first that
// meets too many faults, which is the answer. Where the sizes do not fit, half of the cabinets or more may be faulty, or
// the window is wider than the widest, it changes nothing, and answers none.
pub fn settle_round(
    settings: Settings,
    roles: &[u8],
    held: &[u32],
    sent: &[u8],
    readings: &[u8],
    next: &mut [u32],
) -> Option<usize>
    ensures value { unwrap_or result (length roles.now)
        ≡ refused_given
        settings roles.now held.now sent.now readings.now
        next.old }
    ensures one { IfSome result (λ p. p < length roles.now) }
    ensures next_after { next.new
        ≡ next_given
        settings roles.now held.now sent.now readings.now
        next.old }
{
    let round = hearing::round_of(roles, held, sent, readings)?;
    let n = roles.len();
    let cabinets = settings.n as usize;
    let faults = settings.m as usize;
    let planned = (2 * faults < n) & (settings.window <= MAX_WINDOW);
    if !((cabinets == n) & planned & (next.len() == n)) {
        return None;
    }
    // Stays: a fixed array, lent as far as it is used, since the project has no heap (a).
    let mut marks = [0u8; 64];
    let mut values = [0u32; 64];
    settle_each(settings, round, &mut marks[..n], &mut values[..n], next)
}
