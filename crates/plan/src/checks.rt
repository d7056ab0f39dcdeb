// The four checks of TRANS_MEASURE (rule 4.18).
ghost use Rattle.std.specs.Prelude.{◌≡◌, if◌then◌else◌};
ghost use Rattle.plan.specs.Checks.{is_lit, lit_shots, measure_error, error_number, error_said};

use crate::active::{rising, whole_steps};
use crate::arcs::arcs_of;
use crate::{Arc, Plan};
use units::Angle;

// Why a plan is not measured: a check that fails, each with its number (rule 4.18).
#[derive(Clone, Copy, Debug, PartialEq, Eq)]
pub enum MeasureError {
    TooManyShots = 1,
    TooManyLit = 2,
    NotRising = 3,
    BetweenSteps = 4,
}

impl MeasureError {
    // The number of the check, as TRANS_MEASURE answers it (rule 4.18).
    pub fn number(self) -> u16
        ensures { result ≡ error_number self }
    {
        self as u16
    }
}

// The shots of an arc if its function is 3 or 4, else none (rule 3.2).
fn lit_in(arc: Arc) -> u16
    ensures { result ≡ (if is_lit arc.function then arc.shots else 0) }
{
    match arc.function {
        3 | 4 => arc.shots,
        _ => 0,
    }
}

// The shots of functions 3 and 4 in one revolution (rule 4.18).
fn lit_shots(plan: Plan, step: Angle) -> u16
    ensures { result ≡ lit_shots plan step.0 }
{
    arcs_of(&plan, step).map(lit_in).sum()
}

// The first check that fails, in the order 3, 4, 1, 2 (rule 4.18).
#[tactic(auto, unfolding(crate::specs::Checks::measure_error))]
pub fn check_measure(plan: Plan, step: Angle, speed: u16) -> Result<(), MeasureError>
    ensures { error_said result ≡ measure_error plan step.0 speed }
{
    if !rising(plan) {
        return Err(MeasureError::NotRising);
    }
    if !whole_steps(plan, step) {
        return Err(MeasureError::BetweenSteps);
    }
    if 14400 < words::product(speed, units::revolution_shots(step)) {
        return Err(MeasureError::TooManyShots);
    }
    if 10800 < words::product(speed, lit_shots(plan, step)) {
        return Err(MeasureError::TooManyLit);
    }
    Ok(())
}
