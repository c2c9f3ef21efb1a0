// What the calls for C and for Rust hand over beside an answer: the settings of a round sheet, and a plan. Beside a
// refusal they are zeros.
#![tactic(auto)]

ghost use Rattle.std.specs.Prelude.{◌≡◌};
ghost use Rattle.refusals.specs.Answers.{verdict_of};
ghost use Rattle.planner.specs.Answers.{planned_of};
ghost use Rattle.packed_records.specs.Answers.{no_settings, opening_of, planning_of};

use model::Settings;
use planner::Plan;
use refusals::Refusal;

// What the reader hands over: the number of entries, and the settings.
#[repr(C)]
#[derive(Clone, Copy)]
pub struct Opening {
    pub answer: u64,
    pub settings: Settings,
}

// What the planner and a step hand over: the rounds done, and the plan.
#[repr(C)]
#[derive(Clone, Copy)]
pub struct Planning {
    pub answer: u64,
    pub plan: Plan,
}

fn no_settings() -> Settings
    ensures { result ≡ no_settings }
{
    Settings {
        n: 0,
        m: 0,
        rule: 0,
        estimator: 0,
        window: 0,
    }
}

// A round sheet's settings.
pub fn pack_opened(opened: Result<Settings, Refusal>) -> Opening
    ensures { result ≡ opening_of (verdict_of opened) }
{
    match opened {
        Ok(settings) => Opening {
            answer: sheet_sizes::entry_count(settings) as u64,
            settings,
        },
        Err(refusal) => Opening {
            answer: packed_refusals::pack_refusal(refusal),
            settings: no_settings(),
        },
    }
}

// A plan.
pub fn pack_planned(planned: Result<Plan, Refusal>) -> Planning
    ensures { result ≡ planning_of (planned_of planned) }
{
    match planned {
        Ok(plan) => Planning {
            answer: plan.rounds as u64,
            plan,
        },
        Err(refusal) => Planning {
            answer: packed_refusals::pack_refusal(refusal),
            plan: Plan {
                settings: no_settings(),
                accuracy: 0,
                rounds: 0,
            },
        },
    }
}
