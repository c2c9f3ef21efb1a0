// Prints what the planner answers to the vectors of the file stdin (see the crate vectors): the window, the
// accuracy and the rounds, or that a count of rounds reaches the target, which count is free; and the least and the
// greatest interval between rounds.
#![tactic(auto)]

use model::Settings;
use planner::Plan;
use refusals::Refusal;
use std::io;
use std::io::Write;
use vectors::{Answers, Spaced};

fn show(out: &mut impl Write, answer: Result<Plan, Refusal>) -> io::Result<()> {
    match answer {
        Ok(plan) => write!(
            out,
            "  granted{}",
            Spaced(&[plan.settings.window, plan.accuracy, plan.rounds])
        ),
        Err(refusal) => vectors::show_refused(out, refusal),
    }
}

// Whether a count is at most 32 and its window at or below the target.
fn fits(settings: Settings, accuracy: u32, rounds: u32, target: u32) -> bool {
    planner::plan_for(settings, accuracy, rounds).is_ok_and(|plan| plan.settings.window <= target)
}

fn show_target(
    out: &mut impl Write,
    settings: Settings,
    accuracy: u32,
    target: u32,
) -> io::Result<()> {
    match planner::rounds_for(settings, accuracy, target) {
        Ok(rounds) if fits(settings, accuracy, rounds, target) => { write!(out, "  granted") }
        Ok(_) => Ok(()),
        Err(refusal) => vectors::show_refused(out, refusal),
    }
}

// The window, the precision and the drift of a call for the interval.
fn show_interval(out: &mut impl Write, vector: &[u8]) -> io::Result<()> {
    let window = words::word_at(vector, 1);
    let precision = words::word_at(vector, 5);
    let drift = words::word_at(vector, 9);
    match interval_bounds::interval_for(window, precision, drift) {
        Ok(interval) => write!(
            out,
            "  granted{}",
            Spaced(&[interval.least, interval.greatest])
        ),
        Err(refusal) => vectors::show_refused(out, refusal),
    }
}

struct Program;

impl Answers for Program {
    // The calls are `plan`, `step`, `target` and `interval`.
    fn answer<W: Write>(&self, out: &mut W, vector: &[u8]) -> io::Result<()> {
        let settings = vectors::settings(vector);
        let accuracy = words::word_at(vector, 9);
        let last = words::word_at(vector, 13);
        let plan = Plan {
            settings,
            accuracy,
            rounds: last,
        };
        match words::byte_at(vector, 0) {
            b'i' => show_interval(out, vector)?,
            b'p' => show(out, planner::plan_for(settings, accuracy, last))?,
            b's' => show(out, plan.step())?,
            b't' => show_target(out, settings, accuracy, last)?,
            _ => return Ok(()),
        }
        writeln!(out)
    }
}

fn main(rt: HostRuntime) {
    vectors::answer_onward(&mut rt.stdin(), &mut rt.stdout(), &mut [0; 4096], &Program);
}
