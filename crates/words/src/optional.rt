// Words that a mask selects, taken one after another by their places.
ghost use Rattle.std.specs.Prelude.{◌≡◌};
ghost use Rattle.words.specs.Bits.{bit};
ghost use Rattle.words.specs.Places.{take_at, skip_at};

use crate::Took;
use crate::bits::has_bit;

// The word at a place, where the mask has its bit.
#[tactic(auto, using(crate::proofs::Takes::take_there, crate::proofs::Takes::take_ended, crate::proofs::Takes::take_off))]
pub fn take_word(words: &[u16], at: usize, mask: u32, k: u32) -> Took
    ensures { result ≡ take_at (bit mask k) words.now at }
{
    if !has_bit(mask, k) {
        return Took { word: None, at };
    }
    match words.get(at) {
        Some(&word) => Took {
            word: Some(word),
            at: at + 1,
        },
        None => Took {
            word: None,
            at: words.len() + 1,
        },
    }
}

// The place behind n words.
#[tactic(auto, using(crate::proofs::Tests::picks), unfolding(crate::specs::Places::skip_at))]
pub fn skip(words: &[u16], at: usize, n: usize) -> usize
    ensures { result ≡ skip_at n words.now at }
{
    if words.len() < at {
        return words.len() + 1;
    }
    if words.len() - at < n {
        return words.len() + 1;
    }
    at + n
}
