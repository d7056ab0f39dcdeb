// Angles, distances, times, echoes, percent and millimetres, kept apart: a type each, and what is done with them (rule 1.3).
#![tactic(auto)]

mod directions;
mod times;

pub use directions::{
    divides_circle, is_multiple, on_circle, onto_circle, revolution_shots, shots_after, step_after,
    steps_past,
};
pub use times::shot_time;

// A direction or an angle step, in sixteenths of a degree.
#[repr(C)]
#[derive(Clone, Copy, Default, PartialEq, Eq, PartialOrd, Ord)]
pub struct Angle(pub u16);

// A distance, in 1/256 metre.
#[repr(C)]
#[derive(Clone, Copy, PartialEq, Eq, PartialOrd, Ord)]
pub struct Distance(pub u16);

// A time, in milliseconds.
#[repr(C)]
#[derive(Clone, Copy, PartialEq, Eq, PartialOrd, Ord)]
pub struct Time(pub u16);

// The strength of an echo.
#[repr(C)]
#[derive(Clone, Copy, PartialEq, Eq, PartialOrd, Ord)]
pub struct Echo(pub u16);

// A share of the way from one strength of echo to another, in percent: the threshold of reflectors, which is no echo.
#[derive(Clone, Copy, PartialEq, Eq, PartialOrd, Ord)]
pub struct Percent(pub u16);

// A length in millimetres: the radius of reflectors, which is no distance in 1/256 metre.
#[derive(Clone, Copy, PartialEq, Eq, PartialOrd, Ord)]
pub struct Millimetres(pub u16);

// The directions of a revolution; `circle` in the specs.
pub const CIRCLE: u16 = 5760;
