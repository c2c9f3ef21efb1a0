// The plan of a run from round to round.
#![tactic(auto)]

ghost use Rattle.std.specs.Prelude.{◌≡◌};
ghost use Rattle.model.specs.Calls.{step};
ghost use Rattle.planner.specs.Answers.{plan_of};
ghost use Rattle.run.specs.Run.{stepped};

use planner::Plan;

// The plan one round on; one that can go no further stays.
pub fn stepped(plan: Plan) -> Plan
    ensures { plan_of result ≡ stepped (step (plan_of plan)) (plan_of plan) }
{
    plan.step().unwrap_or(plan)
}
