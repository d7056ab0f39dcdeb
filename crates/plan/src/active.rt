// The active sectors, those before the first function 0, and the tests of their functions and stops (rule 3.1).
ghost use Rattle.std.specs.Prelude.{◌≡◌, ◌&&◌, length};
ghost use Rattle.words.specs.Lists.{some, every};
ghost use Rattle.plan.specs.Sectors.{active_of};
ghost use Rattle.plan.specs.Validity.{sector_ok, increases, multiples};
ghost use Rattle.plan.specs.Shots.{last_stop};

use crate::ranges::is_function;
use crate::{Plan, Sector};
use units::Angle;

// The active sectors, in front of the others (rule 3.1).
pub fn active_sectors(plan: &Plan) -> &[Sector]
    ensures lends { result.now ≡ active_of plan.now }
    ensures stands { result.ref_ptr ≡ plan.entry.ref_ptr }
{
    let count = plan.sectors.iter().take_while(|s| s.function != 0).count();
    &plan.sectors[..count]
}

// How many sectors are active.
pub fn active_count(plan: Plan) -> usize
    ensures { result ≡ length (active_of plan) }
{
    active_sectors(&plan).len()
}

// The stop of the last active sector, 0 where there is none (rule 3.5).
pub(crate) fn last_stop(plan: Plan) -> Angle
    ensures { result.0 ≡ last_stop 0 (active_of plan) }
{
    active_sectors(&plan).last().map_or(Angle(0), |s| s.stop)
}

// There is an active sector, and the stops of the active ones increase (rule 3.3).
pub fn rising(plan: Plan) -> bool
    ensures { result ≡ (some (active_of plan) && increases (active_of plan)) }
{
    let sectors = active_sectors(&plan);
    !sectors.is_empty() && sectors.is_sorted_by(|before, s| before.stop < s.stop)
}

// A function and a stop that an active sector may have (rule 3.3).
fn sector_ok(sector: Sector) -> bool
    ensures { result ≡ sector_ok sector }
{
    is_function(sector.function) && units::on_circle(sector.stop)
}

// Every active sector has a function and a stop that it may have (rule 3.3).
pub fn sectors_ok(plan: Plan) -> bool
    ensures { result ≡ every sector_ok (active_of plan) }
{
    active_sectors(&plan).iter().all(|s| sector_ok(*s))
}

// Every active stop is a multiple of the step (rule 3.3).
pub fn whole_steps(plan: Plan, step: Angle) -> bool
    ensures { result ≡ multiples step.0 (active_of plan) }
{
    active_sectors(&plan)
        .iter()
        .all(|s| units::is_multiple(s.stop, step))
}
