// A revolution of the sensor, and the profile, plain or mixed, that it may send.
#![tactic(auto)]

mod by_mask;
mod points;
mod profiles;
mod puts;
mod reflectors;
mod revolutions;
mod scans;
mod sectors;

pub use revolutions::revolution;
pub use scans::Scan;
