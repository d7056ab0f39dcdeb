// The points of a sector.
ghost use Rattle.std.specs.Prelude.{◌+◌, ◌-◌, ◌*◌, ◌≤◌, ◌<◌, length};
ghost use Rattle.words.specs.Buffers.{Put, Wrote};
ghost use Rattle.units.specs.Directions.{circle};
ghost use Rattle.profile.specs.Points.{point_words};
ghost use Rattle.profile.specs.Profiles.{scan_of, points_of};
ghost use Rattle.profile.specs.Asked.{PointsAsked};

use crate::puts::put_selected;
use crate::scans::Scan;
use layout::bits;
use plan::Arc;
use units::{Angle, CIRCLE, Distance, Echo, onto_circle, steps_past};

// The selected words of one point at a place; the place behind them (rule 5.6). As `put_front` it names its own words; what both share is the put.
#[tactic(auto, unfolding(crate::specs::Points::point_words))]
fn put_point(
    out: &mut [u16],
    at: usize,
    mask: u32,
    distance: Distance,
    direction: Angle,
    echo: Echo,
) -> usize
    requires { at + length (point_words mask distance.0 direction.0 echo.0) ≤ length out.old }
    ensures { Put (point_words mask distance.0 direction.0 echo.0) out.old at out.new result }
{
    let p = put_selected(out, at, mask, bits::DISTANCE, distance.0);
    let q = put_selected(out, p, mask, bits::DIRECTION, direction.0);
    put_selected(out, q, mask, bits::ECHO, echo.0)
}

// How many of the points that are left, from a direction on and a step apart, come before 5760 is reached: the points of its lap.
fn left_in_lap(direction: Angle, step: Angle, left: u16) -> u16
    requires direction_lt_circle { direction.0 < circle }
    requires le_left { 1 ≤ left }
    ensures lower_bound { (1 ≤ result) × (result ≤ left) }
    ensures step_bound { direction.0 + (result - 1) * step.0 < circle }
    ensures circle_bound { result < left → circle ≤ direction.0 + result * step.0 }
{
    if words::product(left - 1, step.0) < (CIRCLE - direction.0) as u32 {
        return left;
    }
    (CIRCLE - 1 - direction.0) / step.0 + 1
}

// The points of a sector over the front of the buffer, the selected words of each together; how many words they are (rule 5.6).
//
// A point's direction is carried from the point before it: one step on, and 5760 off where that is reached or passed (rule 3.5). With a test
// for that at each point every direction would wait for the one before it, and no two points could be made at once. So there are two
// loops: the inner one goes through a lap, the points before 5760, by adding alone, and the compiler makes several of them at a time; the
// outer one takes 5760 off between two laps. Stays a `while`: it goes by laps, and a lap's length is known when it begins.
pub(crate) fn write_points(out: &mut [u16], scan: Scan, arc: Arc, step: Angle, mask: u32) -> usize
    requires { PointsAsked mask step.0 (scan_of scan) arc out.old }
    ensures { Wrote (points_of mask step.0 (scan_of scan.entry) arc)
        out.old out.new result }
{
    // the step and the direction of point 0, both below 5760: so one step on from a direction is a number of 16 bits
    let by = onto_circle(step);
    let mut direction = steps_past(arc.first, step, 0);
    let mut at: usize = 0;
    let mut i: u16 = 0;
    while i < arc.points {
        let end = i + left_in_lap(direction, by, arc.points - i);
        for j in i..end {
            let k = arc.shot as usize + j as usize;
            let distance = Distance(scan.distances[k]);
            let echo = Echo(scan.echoes[k]);
            at = put_point(out, at, mask, distance, direction, echo);
            direction = Angle(direction.0 + by.0);
        }
        i = end;
        if CIRCLE <= direction.0 {
            direction = Angle(direction.0 - CIRCLE);
        }
    }
    at
}
