// The sensor's state: its fields and their ranges, how it is set, and what a call hands back of it.
#![tactic(auto)]

use layout::Mask;
use plan::Plan;
use units::{Angle, Millimetres, Percent};

mod jobs;
mod modes;
mod nav300;
mod ranges;
mod refusals;
mod setters;
mod start;

pub use jobs::{is_job, mask_of};
pub use modes::mode_number;
pub use nav300::{radius_ok, rotation_ok, threshold_ok};
pub use ranges::{config_ok, in_range, is_measure, speed_ok};
pub use setters::{with_config, with_counter, with_drive, with_plans, with_port, with_settings};
pub use start::fresh;

// The mode, each with its number (rule 2.3).
#[derive(Clone, Copy)]
pub enum Mode {
    Idle = 1,
    Rotate = 2,
    Measure = 3,
}

// A profile job: none; so many left, with its mask and the number sent; or endless, with its mask and the number sent (rule 2.7). The mask
// says of which kind the profiles are. Stays one enum of three, which the rules name, and no Option of two.
#[derive(Clone, Copy)]
pub enum Job {
    Absent,
    Counted { left: u16, mask: Mask, sent: u16 },
    Endless { mask: Mask, sent: u16 },
}

// By what reflectors are told, and how large they are: a threshold, and a radius, 0 for flat ones (rule 2.10).
#[derive(Clone, Copy)]
pub struct Reflector {
    pub threshold: Percent,
    pub radius: Millimetres,
}

// The settings of the NAV300: the direction of rotation, the working pair of threshold and radius, and the stored one (rule 2.10). The direction
// stays a number, and no enum: a state may be handed in with any, and refusal 1 is the test of it.
#[derive(Clone, Copy)]
pub struct Settings {
    pub rotation: u16,
    pub working: Reflector,
    pub stored: Reflector,
}

#[derive(Clone, Copy)]
pub struct State {
    pub id: u16,
    pub speed: u16,
    pub step: Angle,
    pub working: Plan,
    pub stored: Plan,
    pub mode: Mode,
    pub running: u16,
    pub port: u8,
    pub counter: u16,
    pub job: Job,
    pub settings: Settings,
}

// What a call that is not refused hands back beside the words in the buffer: the next state and how many words it wrote (rule 4.17).
#[derive(Clone, Copy)]
pub struct Reply {
    pub state: State,
    pub count: usize,
}

// Why a request or a revolution is refused, each with its number (rule 6.1).
#[derive(Clone, Copy, Debug, PartialEq, Eq)]
pub enum Refusal {
    // The state is not in its ranges.
    OutOfRange = 1,
    // There is no word.
    NoWord = 2,
    // No service has the code.
    UnknownCode = 3,
    // The service has another number of words, and refuses that.
    WrongCount = 4,
    // The service is not there in this mode.
    NotInMode = 5,
    // The buffer has fewer words than the answer or the profile.
    NoRoom = 6,
    // The mode is not MEASURE.
    NotMeasuring = 7,
    // Distances or echoes have not exactly a word for each shot.
    ListLength = 8,
    // There are more than 64 reflectors, or their words are no multiple of eleven.
    ReflectorList = 27,
}
