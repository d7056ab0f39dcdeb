// The host's reader of profiles: it knows the layout, and no sensor.
#![tactic(auto)]

mod body;
mod contour;
mod head;
mod mixed;
mod mixed_stretches;
mod places;
mod reflectors;
mod refusal;
mod sector;
mod stretches;

pub use body::read;
pub use mixed::read_mixed;
pub use mixed_stretches::{stretch_mixed, stretch_mixed_refusal};
pub use reflectors::{all_reflectors, reflector, reflector_refusal};
pub use stretches::{stretch, stretch_refusal};

// The words of a sector, absent where the mask has no bit for them, and the place of its points in the words given (rule 5.11).
#[derive(Clone, Copy, Default)]
pub struct SectorReading {
    pub number: Option<u16>,
    pub step: Option<u16>,
    pub points: Option<u16>,
    pub tstart: Option<u16>,
    pub startdir: Option<u16>,
    pub start: usize,
    pub len: usize,
    pub tend: Option<u16>,
    pub enddir: Option<u16>,
}

// The part of a profile to which a word belongs; a sector goes by its place, from 0 on (rule 5.16). Three cases, and no Option.
#[derive(Clone, Copy, Debug, PartialEq, Eq)]
pub enum Part {
    Head,
    Sector(usize),
    Senstat,
}

// The words that go by bits 0 to 13: those in front of the sectors, how many sectors there are, the sectors, SENSTAT (rules 5.11 and 5.23). Eight
// entries and a count stay side by side: no memory is taken, and `padded` of the specs has eight.
#[derive(Clone, Copy)]
pub struct ContourReading {
    pub sent: Option<u16>,
    pub counter: Option<u16>,
    pub layer: Option<u16>,
    pub count: usize,
    pub sectors: [SectorReading; 8],
    pub high: Option<u16>,
    pub low: Option<u16>,
}

// A profile's words: the mask, and what goes by it (rule 5.11).
#[derive(Clone, Copy)]
pub struct Reading {
    pub mask: u16,
    pub contour: ContourReading,
}

// The part of a mixed profile to which a word belongs: one that a plain profile has too, the count, or a reflector by its place, from 0
// on (rule 5.25). Three cases, and no Option.
#[derive(Clone, Copy, Debug, PartialEq, Eq)]
pub enum MixedPart {
    Contour(Part),
    Count,
    Reflector(usize),
}

// A mixed profile's words: the mask's high and low word, what goes by bits 0 to 13; how many reflectors there are, where their words
// begin, and how many each has (rule 5.23).
#[derive(Clone, Copy)]
pub struct MixedReading {
    pub upper: u16,
    pub lower: u16,
    pub contour: ContourReading,
    pub reflectors: Option<u16>,
    pub start: usize,
    pub width: usize,
}

// Why words are no profile, or have nothing at a place (rule 6.1). P is the kind of part that a profile has; where the words end early,
// the index is that of the first missing word (rules 5.16 and 5.25).
#[derive(Clone, Copy, Debug, PartialEq, Eq)]
pub enum ReadRefusal<P> {
    NoProfile,
    ShortHead,
    Mask,
    Layers,
    SectorCount,
    Uncounted,
    EndsEarly { at: usize, part: P },
    LeftOver,
    ManyReflectors,
    NoSuchPlace,
}
