// What each active sector is in a revolution.
ghost use Rattle.std.specs.Prelude.{◌≡◌};
ghost use Rattle.std.specs.Iterator.{YieldsFirst, item_count};
ghost use Rattle.plan.specs.Sectors.{active_of};
ghost use Rattle.plan.specs.Shots.{arc_of, arcs, arc_at};
ghost use Rattle.plan.specs.ArcsLeft.{arcs_left, Begins};

use crate::active::{active_sectors, last_stop};
use crate::{Arc, ArcIter, Plan, Sector};
use units::Angle;

// The arc of a sector, from the stop before it and the number of its first shot (rules 3.5 and 3.6). Only function 3 gives points (rule 3.8).
fn arc_of(sector: Sector, before: Angle, step: Angle, shot: u16) -> Arc
    ensures { result ≡ arc_of step.0 before.0 shot sector }
{
    let shots = units::shots_after(before, sector.stop, step);
    Arc {
        function: sector.function,
        first: units::step_after(before, step),
        last: sector.stop,
        shot,
        shots,
        points: if sector.function == 3 { shots } else { 0 },
    }
}

impl<'a> Iterator for ArcIter<'a> {
    type Item = Arc;

    ghost next_gives = { YieldsFirst arcs_left };

    ghost remaining = { item_count arcs_left };

    fn next(&mut self) -> Option<Arc> {
        let (sector, others) = self.sectors.split_first()?;
        let arc = arc_of(*sector, self.before, self.step, self.shot);
        *self = ArcIter {
            sectors: others,
            before: sector.stop,
            shot: self.shot + arc.shots,
            step: self.step,
        };
        Some(arc)
    }
}

// The arcs of a revolution: the last active stop is the one before sector 0 (rules 3.5 and 3.6).
pub fn arcs_of(plan: &Plan, step: Angle) -> ArcIter<'_>
    ensures gives { arcs_left result ≡ arcs step.0 (active_of plan.now) }
    ensures begins { Begins plan.entry step result }
{
    ArcIter {
        sectors: active_sectors(plan),
        before: last_stop(*plan),
        shot: 0,
        step,
    }
}

// The arc of the sector at a place; zeros where no active sector stands there (rule 3.5), as `arc_at` of the specs has it.
#[tactic(auto, unfolding(crate::specs::Shots::arc_at))]
pub fn arc_at(plan: Plan, step: Angle, place: usize) -> Arc
    ensures { result ≡ arc_at plan step.0 place }
{
    arcs_of(&plan, step).nth(place).unwrap_or_default()
}
