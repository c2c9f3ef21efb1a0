// The planner for a person: the windows and the accuracies round by round, the limits for t bad cabinets, and how long
// may be between rounds.
#![tactic(auto)]

use console::{Failure, Onward};
use limits::{Limits, Wider};
use model::Settings;
use plan_arguments::{Aim, Request, Spacing};
use plan_text::PLAN;
use refusals::Refusal;
use std::env::Env;
use std::io;
use std::io::Write;

// The line after some rounds.
fn show_round(
    out: &mut impl Write,
    settings: Settings,
    accuracy: u32,
    rounds: u32,
) -> io::Result<()> {
    match planner::plan_for(settings, accuracy, rounds) {
        Ok(plan) => { plan_text::show_line(out, plan.rounds, plan.settings.window, plan.accuracy) }
        Err(refusal) => plan_text::show_refusal(out, refusal),
    }
}

// The lines for 0 rounds to `last`.
fn show_rounds(
    out: &mut impl Write,
    settings: Settings,
    accuracy: u32,
    last: u32,
) -> io::Result<()> {
    writeln!(out, "round window accuracy, in ticks (microseconds)")?;
    'rounds: for rounds in 0..=last {
        show_round(out, settings, accuracy, rounds)?;
    }
    Ok(())
}

fn show_wider(out: &mut impl Write, wider: Wider) -> io::Result<()> {
    writeln!(out, "after the first round, of those that do not refuse:")?;
    plan_text::show_apart(out, b"  by documents 01 and 02", wider.gap, wider.error)?;
    plan_text::show_apart(out, b"\n  to the tick", wider.widest, wider.farthest)?;
    if wider.reached {
        write!(out, "; both can be reached")?;
    }
    writeln!(out, "\n  of later rounds nothing is promised")
}

fn show_limits(out: &mut impl Write, settings: Settings, accuracy: u32, t: u32) -> io::Result<()> {
    write!(out, "with {t} bad: ")?;
    match limits::limits_for(settings, accuracy, t) {
        Ok(Limits::Planned) => writeln!(
            out,
            "no sound cabinet refuses; after each round two are at most its window apart, each within its \
              accuracy of true time"
        ),
        Ok(Limits::Wider(wider)) => show_wider(out, wider),
        Ok(Limits::Nothing) => writeln!(out, "nothing is promised"),
        Err(refusal) => plan_text::show_refusal(out, refusal),
    }
}

// How many rounds are asked for, or reach the target.
fn rounds_for(request: Request) -> Result<u32, Refusal> {
    let Request {
        settings,
        accuracy,
        ..
    } = request;
    match request.aim {
        Aim::Rounds(rounds) => {
            planner::plan_for(settings, accuracy, rounds)?;
            Ok(rounds)
        }
        Aim::Target(target) => planner::rounds_for(settings, accuracy, target),
    }
}

// The plan, and then the limits where they are asked for.
fn answer(out: &mut impl Write, request: Request) -> io::Result<()> {
    match rounds_for(request) {
        Ok(rounds) => show_rounds(out, request.settings, request.accuracy, rounds)?,
        Err(refusal) => return plan_text::show_refusal(out, refusal),
    }
    if let Some(t) = request.bad {
        show_limits(out, request.settings, request.accuracy, t)?;
    }
    Ok(())
}

// How long may be between rounds.
fn show_interval(out: &mut impl Write, spacing: Spacing) -> io::Result<()> {
    let Spacing {
        window,
        precision,
        drift,
    } = spacing;
    match interval_bounds::interval_for(window, precision, drift) {
        Ok(interval) => { plan_text::show_interval(out, interval.least, interval.greatest) }
        Err(refusal) => plan_text::show_no_interval(out, refusal, window, precision),
    }
}

// Eight arguments, and a ninth where the limits are asked for.
fn by_request<E: Env, O: Write, W: Write>(
    env: &E,
    out: &mut O,
    errors: &mut W,
    is_limited: bool,
) -> io::Result<()> {
    match plan_arguments::read_request(env, errors, is_limited) {
        Some(request) => answer(out, request),
        None => Ok(()),
    }
}

// Four arguments, of which the first is `interval`.
fn by_interval<E: Env, O: Write, W: Write>(env: &E, out: &mut O, errors: &mut W) -> io::Result<()> {
    match plan_arguments::read_spacing(env, errors) {
        Some(spacing) => show_interval(out, spacing),
        None => Ok(()),
    }
}

fn respond<E: Env, O: Write, W: Write>(env: &E, out: &mut O, errors: &mut W) -> io::Result<()> {
    match console::argument_count(env) {
        0 | 1 => PLAN.show_usage(out),
        2 => PLAN.explain(env, out, errors),
        5 if console::is_word(env, 1, b"interval") => by_interval(env, out, errors),
        9 => by_request(env, out, errors, false),
        10 => by_request(env, out, errors, true),
        _ => {
            let _ = PLAN.say(errors, PLAN.wanted);
            Ok(())
        }
    }
}

fn main(rt: HostRuntime) {
    let mut out = Onward::new(rt.stdout());
    let mut errors = Onward::new(rt.stderr());
    let ended = respond(&rt, &mut out, &mut errors).map_err(Failure::from);
    let _ = PLAN.close(&mut errors, ended.and(out.ended()));
}
