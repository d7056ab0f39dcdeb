// Sector plans: their ranges, their active sectors, their arcs in a revolution, and the checks before measuring.
#![tactic(auto)]

ghost use Rattle.std.specs.Prelude.{◌+◌, ◌*◌, ◌≤◌, length};
ghost use Rattle.units.specs.Directions.{circle};

use units::Angle;

mod active;
mod arcs;
mod checks;
mod entries;
mod ranges;

pub use active::{active_count, active_sectors, rising, sectors_ok, whole_steps};
pub use arcs::{arc_at, arcs_of};
pub use checks::{MeasureError, check_measure};
pub use entries::{entry_at, unused, with_entry};
pub use ranges::{is_step, plan_in_range};

// One entry of a plan. Its function stays a number, and no enum: a plan may be handed in with any, and refusals 1 and 10 are the tests of it.
#[derive(Clone, Copy, Default)]
pub struct Sector {
    pub function: u16,
    pub stop: Angle,
}

#[derive(Clone, Copy)]
pub struct Plan {
    pub sectors: [Sector; 8],
}

// What one active sector is in a revolution: its function, first and last direction, the number of its first shot, how many
// shots it has and how many of them give points. Its function is the sector's, any number.
#[derive(Clone, Copy, Default)]
pub struct Arc {
    pub function: u16,
    pub first: Angle,
    pub last: Angle,
    pub shot: u16,
    pub shots: u16,
    pub points: u16,
}

// The arcs of a revolution that are still to come, in list order (rule 3.6).
#[derive(Drop)]
pub struct ArcIter<'a> {
    sectors: &'a [Sector],
    before: Angle,
    shot: u16,
    step: Angle,
    // no sector has more shots than there are directions, and eight are the most, so the numbers of the shots fit
    ghost fits: { shot + length sectors.now * circle ≤ 8 * circle },
}
