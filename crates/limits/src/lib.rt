// The limits that the guarantee states for t bad cabinets: the planned ones up to m, the wider ones of the first round
// below N-m.
#![tactic(auto)]

ghost use Rattle.std.proofs.Math.Option.{none};
ghost use Rattle.std.specs.Prelude.{◌≡◌, ◌+◌, ◌*◌, ◌-◌, ◌/◌, ◌≤◌, ◌<◌};
ghost use Rattle.model.specs.Ensemble.{max_cabinets};
ghost use Rattle.model.specs.Refusals.{first_of, plan_checks};
ghost use Rattle.limits.specs.Sizes.{Sizes};
ghost use Rattle.limits.specs.Limits.{stated, bounds, limits_of, stated_of, wider_at, wider_of};

use model::Settings;
use refusals::Refusal;

// After the first round, of new values: how far two may be apart and how far one may be from true time, by documents 01
// and 02; both to the tick; and whether a round is known that reaches these.
#[derive(Clone, Copy)]
pub struct Wider {
    pub gap: u32,
    pub error: u32,
    pub widest: u32,
    pub farthest: u32,
    pub reached: bool,
}

// What holds for t bad cabinets.
#[derive(Clone, Copy)]
pub enum Limits {
    // At most m are bad: the planned windows and accuracies hold in every round.
    Planned,
    // More are bad, but fewer than N-m.
    Wider(Wider),
    // N-m or more are bad: nothing is promised.
    Nothing,
}

// (2 × excess + half) / 2N
fn nearest(n: u32, excess: u32, half: u32) -> u32
    requires some_cabinet { 0 < n }
    requires cabinets { n ≤ max_cabinets }
    requires half { half ≤ max_cabinets }
    requires excess { excess ≤ 256000000 }
    ensures value { result ≡ (2 * excess + half) / (2 * n) }
    ensures bound { result ≤ 512000064 }
{
    (2 * excess + half) / (2 * n)
}

// The wider limits, where m < t < N-m.
fn widened(settings: Settings, accuracy: u32, t: u32) -> Wider
    requires { Sizes settings accuracy t }
    ensures { wider_of result ≡ wider_at settings accuracy t }
{
    let n = settings.n as u32;
    let bad = t as u8;
    let window = settings.window;
    let gap = shares::past_share(
        settings,
        limit_terms::gap_parts(settings.n, settings.m, bad),
    ) as u32;
    let growth = shares::share(settings, limit_terms::error_parts(settings.m, bad)) as u32;
    let excess = limit_terms::excess(settings.m, bad, window) as u32;
    let above = nearest(n, excess, n);
    // at an even window this half goes outward too
    let below = nearest(n, excess, n - window % 2);
    Wider {
        gap,
        error: accuracy + growth,
        widest: window + (above + below),
        farthest: accuracy + above,
        reached: reached_limits::is_reached(settings, accuracy, t),
    }
}

// The limits of settings and an accuracy that the planner grants.
fn bound(settings: Settings, accuracy: u32, t: u32) -> Limits
    requires { first_of (plan_checks settings accuracy 0) ≡ none }
    ensures { limits_of result ≡ bounds settings accuracy t }
{
    let n = settings.n as u32;
    let m = settings.m as u32;
    if limit_terms::is_planned(m, t) {
        return Limits::Planned;
    }
    if limit_terms::is_quorum(n - m, t) {
        return Limits::Nothing;
    }
    Limits::Wider(widened(settings, accuracy, t))
}

// The limits for t bad cabinets, unless the planner refuses the settings or the accuracy.
#[tactic(auto, unfolding(crate::specs::Limits::stated))]
pub fn limits_for(settings: Settings, accuracy: u32, t: u32) -> Result<Limits, Refusal>
    ensures { stated_of result ≡ stated settings accuracy t }
{
    plan_checks::check_start(settings, accuracy, 0)?;
    Ok(bound(settings, accuracy, t))
}
