// The bits of a mask by what they select: the same names as in the specs (rule 5.5). Stay numbers, and no enum: by a bit's place the functions of
// `words` are asked, which know no profile.

// Once, before the sectors.
pub const SENT: u32 = 0;

pub const COUNTER: u32 = 1;

pub const LAYER: u32 = 2;

// For every sector, before its points.
pub const NUMBER: u32 = 3;

pub const STEP: u32 = 4;

pub const POINTS: u32 = 5;

pub const TSTART: u32 = 6;

pub const STARTDIR: u32 = 7;

// For each point.
pub const DISTANCE: u32 = 8;

pub const DIRECTION: u32 = 9;

pub const ECHO: u32 = 10;

// For every sector, behind its points.
pub const TEND: u32 = 11;

pub const ENDDIR: u32 = 12;

// Once, at the end.
pub const SENSTAT: u32 = 13;

// Those that no mask of a job has.
pub const RESERVED_LOW: u32 = 14;

pub const RESERVED_HIGH: u32 = 15;

// Once, behind SENSTAT, in a mixed profile (rule 5.19).
pub const REFLECTORS: u32 = 16;

// For each reflector: four words each.
pub const CARTESIAN: u32 = 18;

pub const POLAR: u32 = 19;

// And one word each.
pub const TIME: u32 = 20;

pub const MEAN_ECHO: u32 = 21;

pub const SPOTS: u32 = 22;

// One that no mixed mask has (rule 2.11); the others are above `SPOTS`.
pub const RESERVED_MIXED: u32 = 17;
