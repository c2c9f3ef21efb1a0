// What the program `plan` says to a person: its usage, numbers of ticks, refusals.
#![tactic(auto)]

use console::Program;
use number_parser::microseconds;
use refusals::{Reason, Refusal};
use std::io;
use std::io::Write;

pub const PLAN: Program = Program {
    name: "plan",
    usage: "usage: plan N M RULE ESTIMATOR WINDOW ACCURACY rounds COUNT [T]\n       plan N M RULE \
          ESTIMATOR WINDOW ACCURACY target TICKS [T]\n       plan interval WINDOW PRECISION \
          DRIFT\n       plan --help, plan --version\n  N, M              cabinets, and faults planned \
          for: 3M+1 <= N <= 64\n  RULE, ESTIMATOR   fca or cca; average, median or \
          midpoint\n                    (trimmed-midpoint and trimmed-mean are refused: no plan has \
          them)\n  WINDOW, ACCURACY  in ticks of 1/16777216 second: how far apart good clocks are, \
          and how far from true time\n  COUNT, TICKS      how many rounds, or the window to reach, in \
          ticks\n  T                 bad cabinets, at most N: shows the limits that hold for them\n  \
          PRECISION         in ticks: how far apart the rounds leave good clocks\n  DRIFT             \
          parts per million, 1 to 1000: twice what a good clock's rate is off at most\nIt prints the \
          window and the accuracy after each round, in ticks and, rounded up, in microseconds; or, \
          with interval, how long may be between rounds, in ticks and in seconds; or `refused`, a \
          number and a place.\nIt always ends with status 0; a bad argument is named on standard \
          error, and then nothing is printed.\n",
    wanted: "8 or 9 arguments are wanted, or interval and 3 more; plan --help says which",
};

// What a refusal of the planner means.
fn explain(reason: Reason) -> &'static str {
    match reason {
        Reason::BadCabinets => "N is 0 or above 64",
        Reason::BadFaults => "N is below 3m+1",
        Reason::BadMethod =>
            "no plan has a trimming rule: what such a rule promises is of one round",
        Reason::BadWindow => "the window is above 1,000,000",
        Reason::BadPlan => {
            "starting accuracy above 1,000,000,000, more than 32 rounds, or a plan that can go no further"
        }
        _ => "no count of rounds up to 32 reaches the target",
    }
}

// Why there is no interval.
fn explain_interval(reason: Reason, window: u32, precision: u32) -> &'static str {
    if reason == Reason::BadInterval {
        "the window or the precision is above 1,000,000, or the drift is not 1 to 1,000"
    } else if window <= precision {
        "the window is not wider than the precision"
    } else {
        "the drift eats what the window leaves over the precision"
    }
}

// A refusal's number and place, and what it means.
fn show_why(out: &mut impl Write, refusal: Refusal, why: &str) -> io::Result<()> {
    writeln!(out, "refused {} {}: {why}", refusal.number(), refusal.place)
}

pub fn show_refusal(out: &mut impl Write, refusal: Refusal) -> io::Result<()> {
    show_why(out, refusal, explain(refusal.reason))
}

pub fn show_no_interval(
    out: &mut impl Write,
    refusal: Refusal,
    window: u32,
    precision: u32,
) -> io::Result<()> {
    show_why(
        out,
        refusal,
        explain_interval(refusal.reason, window, precision),
    )
}

// A number of ticks behind a name, and in brackets the seconds that they are, with these billionths.
fn show_seconds(out: &mut impl Write, name: &str, ticks: u64, billionths: u64) -> io::Result<()> {
    write!(out, "{name}{ticks} ticks ({}.", seconds::whole(ticks))?;
    out.write_all(&seconds::decimals(billionths))?;
    writeln!(out, " seconds)")
}

// The least and the greatest interval: seconds between those shown lie between both.
pub fn show_interval(out: &mut impl Write, least: u64, greatest: u64) -> io::Result<()> {
    show_seconds(out, "least ", least, seconds::billionths_up(least))?;
    show_seconds(out, "greatest ", greatest, seconds::billionths(greatest))
}

// The line of a plan: the rounds done, the window, the accuracy, and in brackets the microseconds that these are.
pub fn show_line(out: &mut impl Write, rounds: u32, window: u32, accuracy: u32) -> io::Result<()> {
    write!(out, "{rounds} {window} ({}) ", microseconds(window))?;
    writeln!(out, "{accuracy} ({})", microseconds(accuracy))
}

// How far two cabinets are apart, and each from true time, at most.
pub fn show_apart(out: &mut impl Write, name: &[u8], gap: u32, error: u32) -> io::Result<()> {
    out.write_all(name)?;
    write!(out, " two are at most {gap} ticks")?;
    write!(out, " ({}", microseconds(gap))?;
    write!(out, " microseconds) apart, each within {error} ticks")?;
    write!(out, " ({} microseconds) of true time", microseconds(error))
}
