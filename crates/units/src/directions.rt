// Directions, and the steps and shots between them.
ghost use Rattle.std.specs.Prelude.{◌≡◌, ◌/◌, ◌%◌, ◌≤◌};
ghost use Rattle.units.specs.Directions.{circle, on_circle, step_after, steps_past, shots_to, revolution_shots, is_multiple, divides_circle};

use crate::{Angle, CIRCLE};

// The circle, for sums of more than 16 bits.
const AROUND: u32 = CIRCLE as u32;

// The direction is one of the circle's (rule 2.2).
pub fn on_circle(direction: Angle) -> bool
    ensures { result ≡ on_circle direction.0 }
{
    direction.0 < CIRCLE
}

// The direction that an angle ends at, however often it goes round (rule 4.8).
pub fn onto_circle(direction: Angle) -> Angle
    ensures { result.0 ≡ direction.0 % circle }
{
    Angle(direction.0 % CIRCLE)
}

// One step after a direction (rule 3.5).
pub fn step_after(direction: Angle, step: Angle) -> Angle
    ensures { result.0 ≡ step_after step.0 direction.0 }
{
    let sum = direction.0 as u32 + step.0 as u32;
    Angle((sum % AROUND) as u16)
}

// So many steps past a direction (rule 3.5).
pub fn steps_past(direction: Angle, step: Angle, steps: u16) -> Angle
    ensures { result.0 ≡ steps_past step.0 steps direction.0 }
{
    let way = steps as u32 * step.0 as u32;
    Angle(((direction.0 as u32 + way) % AROUND) as u16)
}

// The whole steps in an angle, none where the step is 0 (rule 1.4).
fn steps_in(angle: u16, step: Angle) -> u16
    ensures { (result ≡ angle / step.0) × (result ≤ angle) }
{
    if step.0 == 0 {
        return 0;
    }
    angle / step.0
}

// The shots of a sector that begins one step after the stop before it and ends at its own stop (rule 3.5).
pub fn shots_after(before: Angle, stop: Angle, step: Angle) -> u16
    ensures { result ≡ shots_to step.0 (step_after step.0 before.0) stop.0 }
{
    let first = step_after(before, step);
    let ahead = (stop.0 as u32 + AROUND - first.0 as u32) % AROUND;
    steps_in(ahead as u16, step) + 1
}

// The shots of one revolution (rule 3.4).
pub fn revolution_shots(step: Angle) -> u16
    ensures { result ≡ revolution_shots step.0 }
{
    steps_in(CIRCLE, step)
}

// The direction is a multiple of the step (rule 3.3).
pub fn is_multiple(direction: Angle, step: Angle) -> bool
    ensures { result ≡ is_multiple step.0 direction.0 }
{
    direction.0.is_multiple_of(step.0)
}

// Whole steps go round (rule 2.1).
pub fn divides_circle(step: Angle) -> bool
    ensures { result ≡ divides_circle step.0 }
{
    is_multiple(Angle(CIRCLE), step)
}
