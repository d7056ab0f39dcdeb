// The layout of a profile, plain or mixed: its bits, the rules of its mask, and its length.
#![tactic(auto)]

pub mod bits;
mod lengths;
mod masks;
mod mixed;

pub use lengths::profile_length;
pub use masks::{is_uncounted, mask_ok, point_width};
pub use mixed::{
    admitted, is_of, kind_ok, layer_of, length_of, mask_from, mask_number, mixed_length,
    mixed_number, mixed_ok, reflector_width,
};

// The first word of a profile; `profile_code` in the specs (rule 5.4).
pub const PROFILE_CODE: u16 = 0x8301;

// The third word, but for the number of sectors; `one_layer` in the specs (rule 5.4).
pub const ONE_LAYER: u16 = 0x0100;

// How many words of a profile depend on no bit; `head_length` in the specs (rule 5.4).
pub const HEAD: usize = 3;

// Past the highest bit that a mask may have; `mask_limit` in the specs (rule 4.10).
pub const MASK_LIMIT: u16 = 16384;

// The first word of a mixed profile, and how many of its words depend on no bit; `mixed_code` and `mixed_head_length` in the specs (rule 5.19).
pub const MIXED_CODE: u16 = 0x9301;

pub const MIXED_HEAD: usize = 4;

// The layer that a profile of each kind names; `kind_numbers` in the specs (rules 5.5 and 5.19).
pub const PLAIN_LAYER: u16 = 0;

pub const MIXED_LAYER: u16 = 1;

// How many words a reflector has when all are there, and how many reflectors there are at most; `reflector_length` and `most_reflectors` in
// the specs (rules 5.1 and 5.18).
pub const REFLECTOR: usize = 11;

pub const MOST_REFLECTORS: usize = 64;

// The two kinds of profile (rules 5.4 and 5.19).
#[derive(Clone, Copy, PartialEq, Eq)]
pub enum Kind {
    Plain,
    Mixed,
}

// The mask of a job: a plain one of one word, or a mixed one of two, the high word first (rules 2.7 and 2.11).
#[derive(Clone, Copy, PartialEq, Eq)]
pub enum Mask {
    Plain(u16),
    Mixed(u16, u16),
}
