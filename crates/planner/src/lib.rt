// Document 01, "The planner": the window and the accuracy after some rounds, and the rounds that reach a target.
#![tactic(auto)]

ghost use Rattle.std.specs.Prelude.{◌≡◌, ◌≤◌, ◌<◌};
ghost use Rattle.std.proofs.Math.Option.{none};
ghost use Rattle.model.specs.Planner.{plan_from, advance, after, max_rounds, max_step_accuracy};
ghost use Rattle.model.specs.Refusals.{first_of, planner_checks, plan_checks};
ghost use Rattle.model.specs.Calls.{plan, step, Target};
ghost use Rattle.refusals.specs.Answers.{verdict_of};
ghost use Rattle.planner.specs.Answers.{plan_of, planned_of};

use model::{MAX_ROUNDS, Settings};
use refusals::{Reason, Refusal};

// The settings with the next round's window, the accuracy planned by then, the rounds done. Any contents may stand
// here.
#[repr(C)]
#[derive(Clone, Copy)]
pub struct Plan {
    pub settings: Settings,
    pub accuracy: u32,
    pub rounds: u32,
}

// The plan one round on.
fn advance(current: Plan) -> Plan
    requires settings_pass { first_of (planner_checks current.settings) ≡ none }
    requires may_step { (current.rounds < max_rounds) × (current.accuracy ≤ max_step_accuracy) }
    ensures { plan_of result ≡ advance (plan_of current) }
{
    let settings = current.settings;
    let next = shares::next_window(settings) as u32;
    Plan {
        settings: Settings {
            window: next,
            ..settings
        },
        accuracy: current.accuracy + (shares::growth(settings) as u32),
        rounds: current.rounds + 1,
    }
}

impl Plan {
    // The plan one round on.
    #[tactic(auto, unfolding(model::specs::Calls::step))]
    pub fn step(self) -> Result<Plan, Refusal>
        ensures { planned_of result ≡ step (plan_of self) }
    {
        plan_checks::check_step(self.settings, self.accuracy, self.rounds)?;
        Ok(advance(self))
    }
}

// The plan some rounds on from a fresh plan.
#[tactic(auto, using(crate::proofs::Turns::turn))]
fn run(start: Plan, rounds: u32) -> Plan
    requires start_passes { first_of (plan_checks start.settings start.accuracy rounds) ≡ none }
    requires start_fresh { start.rounds ≡ 0 }
    ensures { plan_of result ≡ after rounds (plan_from start.settings start.accuracy) }
{
    let mut reached = start;
    'rounds: for _ in 0..rounds {
        reached = advance(reached);
    }
    reached
}

// The plan some rounds on. A fresh plan is the one for 0 rounds.
#[tactic(auto, unfolding(model::specs::Calls::plan))]
pub fn plan_for(settings: Settings, accuracy: u32, rounds: u32) -> Result<Plan, Refusal>
    ensures { planned_of result ≡ plan settings accuracy rounds }
{
    plan_checks::check_start(settings, accuracy, rounds)?;
    let start = Plan {
        settings,
        accuracy,
        rounds: 0,
    };
    Ok(run(start, rounds))
}

// Goes forward from a fresh plan until its window is at or below the target.
#[tactic(auto, using(crate::proofs::Turns::turn))]
fn reach(start: Plan, target: u32) -> Result<u32, Refusal>
    requires start_passes { first_of (plan_checks start.settings start.accuracy 0) ≡ none }
    requires start_fresh { start.rounds ≡ 0 }
    ensures { Target start.settings start.accuracy target (verdict_of result) }
{
    let mut reached = start;
    'rounds: for k in 0..=MAX_ROUNDS {
        if !plan_tests::is_above(reached.settings.window, target) {
            return Ok(k);
        }
        if plan_tests::is_last(k) {
            break;
        }
        reached = advance(reached);
    }
    Err(Reason::TargetMissed.into())
}

// A count of at most 32 rounds whose window is at or below the target. Which of those that fit is not promised.
#[tactic(auto, using(crate::proofs::Fresh::start_refused))]
pub fn rounds_for(settings: Settings, accuracy: u32, target: u32) -> Result<u32, Refusal>
    ensures { Target settings accuracy target (verdict_of result) }
{
    let start = plan_for(settings, accuracy, 0)?;
    reach(start, target)
}
