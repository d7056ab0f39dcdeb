// The 23 steps, and the ranges of a plan's entries.
ghost use Rattle.std.specs.Prelude.{◌≡◌};
ghost use Rattle.plan.specs.Sectors.{is_step, is_function, entry_in_range, plan_in_range};

use crate::{Plan, Sector};
use units::Angle;

// One of the 23 steps (rule 2.1).
#[tactic(auto, unfolding(crate::specs::Sectors::is_step))]
pub fn is_step(step: Angle) -> bool
    ensures { result ≡ is_step step.0 }
{
    matches!(step.0, 1..=64) && units::divides_circle(step)
}

// A function that an active sector may have (rule 3.3).
pub(crate) fn is_function(f: u16) -> bool
    ensures { result ≡ is_function f }
{
    matches!(f, 1 | 3 | 4)
}

// An entry's function is one of these or 0, and its stop lies on the circle (rule 2.2).
#[tactic(auto, unfolding(crate::specs::Sectors::entry_in_range))]
fn entry_in_range(entry: Sector) -> bool
    ensures { result ≡ entry_in_range entry }
{
    (entry.function == 0 || is_function(entry.function)) && units::on_circle(entry.stop)
}

// All eight entries are in their ranges (rule 2.2).
pub fn plan_in_range(plan: Plan) -> bool
    ensures { result ≡ plan_in_range plan }
{
    plan.sectors.iter().all(|s| entry_in_range(*s))
}
