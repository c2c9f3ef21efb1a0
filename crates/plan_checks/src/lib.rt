// Document 01, "Numbers of refusal": the checks of the planner and of its step, 2 to 5 and then 11.
#![tactic(auto)]

ghost use Rattle.std.specs.Prelude.{◌||◌, ◌≡◌, leb, ltb};
ghost use Rattle.model.specs.Planner.{max_accuracy, max_rounds, max_step_accuracy};
ghost use Rattle.model.specs.Refusals.{first_of, planning_checks, plan_checks, step_checks};
ghost use Rattle.refusals.specs.Answers.{check_of};

use model::{MAX_ACCURACY, MAX_ROUNDS, MAX_STEP_ACCURACY, Settings};
use refusals::{Reason, Refusal};

fn bad_start(accuracy: u32, rounds: u32) -> bool
    ensures { result ≡ (ltb max_accuracy accuracy || ltb max_rounds rounds) }
{
    (MAX_ACCURACY < accuracy) | (MAX_ROUNDS < rounds)
}

fn bad_step(accuracy: u32, rounds: u32) -> bool
    ensures { result ≡ (leb max_rounds rounds || ltb max_step_accuracy accuracy) }
{
    (MAX_ROUNDS <= rounds) | (MAX_STEP_ACCURACY < accuracy)
}

// Checks 2 to 5, and then 11.
#[tactic(auto, using(crate::proofs::Turns::in_turn))]
fn check_all(settings: Settings, fails: bool) -> Result<(), Refusal>
    ensures { check_of result ≡ first_of (planning_checks settings fails) }
{
    settings_checks::screen_plan(settings)?;
    refusals::refuse_if(fails, Reason::BadPlan)
}

// The checks of a start for some rounds.
#[tactic(auto, unfolding(model::specs::Refusals::plan_checks))]
pub fn check_start(settings: Settings, accuracy: u32, rounds: u32) -> Result<(), Refusal>
    ensures { check_of result ≡ first_of (plan_checks settings accuracy rounds) }
{
    check_all(settings, bad_start(accuracy, rounds))
}

// The checks of a step from a plan.
#[tactic(auto, unfolding(model::specs::Refusals::step_checks))]
pub fn check_step(settings: Settings, accuracy: u32, rounds: u32) -> Result<(), Refusal>
    ensures { check_of result
        ≡ first_of (step_checks (record { settings = settings; accuracy = accuracy; rounds = rounds })) }
{
    check_all(settings, bad_step(accuracy, rounds))
}
