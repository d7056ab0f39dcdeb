// What a revolution is given (rule 5.1).
use units::Time;

// When it starts, the distance and the echo of each shot, and the reflectors, eleven words each.
#[derive(Clone, Copy)]
pub struct Scan<'a> {
    pub start: Time,
    pub distances: &'a [u16],
    pub echoes: &'a [u16],
    pub reflectors: &'a [u16],
}
