// The normal plan: neighbours of equal function joined.
ghost use Rattle.std.specs.Prelude.{◌≡◌};
ghost use Rattle.normal.specs.NormalForm.{normal_plan, plan_refusal, refusal_number, refusal_said, NormalPlanSays};

use plan::{Plan, is_step, rising, sectors_ok, unused, whole_steps};
use units::Angle;

// Why there is no normal plan, each with its number (rule 6.1).
#[derive(Clone, Copy, Debug, PartialEq, Eq)]
pub enum PlanRefusal {
    // the step is none of the 23
    NoStep = 9,
    // no active sector, one out of its ranges, or stops that do not increase
    NotValid = 10,
    // a stop is no multiple of the step
    BetweenSteps = 11,
}

impl PlanRefusal {
    // Its number for no (rule 6.1).
    pub fn number(self) -> u16
        ensures { result ≡ refusal_number self }
    {
        self as u16
    }
}

// The active sectors, without each one whose next neighbour has the same function: the later stop is kept (rule 3.10).
fn join(plan: Plan) -> Plan
    ensures { result ≡ normal_plan plan }
{
    let sectors = plan::active_sectors(&plan);
    // counted beside the array: a list of at most eight would be copied into one at the end
    let mut out = [unused(); 8];
    let mut n = 0;
    for (i, s) in sectors.iter().enumerate() {
        if i + 1 == sectors.len() || s.function != sectors[i + 1].function {
            out[n] = *s;
            n += 1;
        }
    }
    Plan { sectors: out }
}

// The first reason for no that a plan and a step call for (rule 6.1).
#[tactic(auto, unfolding(crate::specs::NormalForm::plan_refusal))]
fn check(plan: Plan, step: Angle) -> Result<(), PlanRefusal>
    ensures { refusal_said result ≡ plan_refusal plan step.0 }
{
    if !is_step(step) {
        return Err(PlanRefusal::NoStep);
    }
    if !sectors_ok(plan) || !rising(plan) {
        return Err(PlanRefusal::NotValid);
    }
    if !whole_steps(plan, step) {
        return Err(PlanRefusal::BetweenSteps);
    }
    Ok(())
}

// The normal plan of a plan that is valid for the step; else why there is none (rule 3.11).
#[tactic(auto, unfolding(crate::specs::NormalForm::normalised_of))]
pub fn normal_plan(plan: Plan, step: Angle) -> Result<Plan, PlanRefusal>
    ensures { NormalPlanSays plan step.0 result }
{
    check(plan, step)?;
    Ok(join(plan))
}
