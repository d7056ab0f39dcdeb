// 16-bit words, and lists of them.
#![tactic(auto)]

mod bits;
mod optional;
mod plain;

pub use bits::has_bit;
pub use optional::{skip, take_word};
pub use plain::{product, word_at};

// A word that was taken from a place, None where it is left out, and the place behind it. A place one past the end says that the words
// have ended early, and stays so.
// Stays a place, and no Result: so a row of words is taken to its end, and tested there once.
#[derive(Clone, Copy)]
pub struct Took {
    pub word: Option<u16>,
    pub at: usize,
}
