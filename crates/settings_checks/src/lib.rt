// Document 01, "The ensemble", and document 02, "Paper 5. Trimming rules": the settings that pass checks 2 to 5 or are
// refused, those of a sheet and those of a plan.
#![tactic(auto)]

ghost use Rattle.std.specs.Prelude.{◌≡◌, cond, ◌||◌, ℕ, ◌+◌, ◌*◌, eqb, ltb};
ghost use Rattle.model.specs.RoundSheet.{trims, average, midpoint};
ghost use Rattle.model.specs.Refusals.{first_of, settings_checks, planner_checks, unknown_method, unplanned_method};
ghost use Rattle.model.specs.Refusals.{unfit_spread};
ghost use Rattle.model.specs.Ensemble.{max_cabinets, max_window};
ghost use Rattle.refusals.specs.Answers.{check_of};

use model::{
    AVERAGE, CCA, FCA, MAX_CABINETS, MAX_SPREAD, MAX_WINDOW, MIDPOINT, Settings, TRIMMED_MEAN,
};
use refusals::{Reason, Refusal};

// Whether a round cannot have that many cabinets.
pub fn bad_cabinets(n: u8) -> bool
    ensures { result ≡ (eqb n 0 || ltb max_cabinets n) }
{
    (n == 0) | (MAX_CABINETS < n)
}

fn bad_faults(n: u8, m: u8) -> bool
    ensures { result ≡ ltb n (3 * m + 1) }
{
    (n as u32) < 3 * (m as u32) + 1
}

// The highest estimator that a rule takes.
fn last_estimator(rule: u8) -> u8
    ensures { result ≡ cond (trims rule) average midpoint }
{
    if CCA < rule { AVERAGE } else { MIDPOINT }
}

fn bad_method(rule: u8, estimator: u8) -> bool
    ensures { result ≡ unknown_method rule estimator }
{
    (TRIMMED_MEAN < rule) | (last_estimator(rule) < estimator)
}

fn bad_window(window: u32) -> bool
    ensures { result ≡ ltb max_window window }
{
    MAX_WINDOW < window
}

// Whether no caller may give that spread.
pub fn bad_spread(rule: u8, spread: u32) -> bool
    ensures { result ≡ unfit_spread rule spread }
{
    (MAX_SPREAD < spread) | ((0 < spread) & (rule != FCA))
}

// Checks 2 to 5 of a sheet's settings.
#[tactic(auto, using(crate::proofs::Turns::in_turn))]
pub fn screen(settings: Settings) -> Result<(), Refusal>
    ensures { check_of result ≡ first_of (settings_checks settings) }
{
    refusals::refuse_if(bad_cabinets(settings.n), Reason::BadCabinets)?;
    refusals::refuse_if(bad_faults(settings.n, settings.m), Reason::BadFaults)?;
    refusals::refuse_if(
        bad_method(settings.rule, settings.estimator),
        Reason::BadMethod,
    )?;
    refusals::refuse_if(bad_window(settings.window), Reason::BadWindow)
}

// No rule of a sheet.
const NO_RULE: u8 = 255;

// A rule that sheets do not have in place of one that no plan may have.
fn planned_rule(rule: u8) -> u8
    ensures { (e : ℕ) → unknown_method result e ≡ unplanned_method rule e }
{
    if CCA < rule { NO_RULE } else { rule }
}

// Checks 2 to 5 of a plan's settings.
pub fn screen_plan(settings: Settings) -> Result<(), Refusal>
    ensures { check_of result ≡ first_of (planner_checks settings) }
{
    screen(Settings {
        rule: planned_rule(settings.rule),
        ..settings
    })
}
