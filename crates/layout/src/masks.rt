// What concerns a mask, by its number: of one word or of two.
ghost use Rattle.std.specs.Prelude.{◌≡◌, ◌≤◌, if◌then◌else◌};
ghost use Rattle.words.specs.Bits.{bit};
ghost use Rattle.layout.specs.Masks.{mask_ok, point_width, uncounted};

use crate::bits;
use words::has_bit;

// A mask that a profile may have (rule 2.7).
#[tactic(auto, unfolding(crate::specs::Masks::mask_ok))]
pub fn mask_ok(mask: u32) -> bool
    ensures { result ≡ mask_ok mask }
{
    mask != 0 && !has_bit(mask, bits::RESERVED_LOW) && !has_bit(mask, bits::RESERVED_HIGH)
}

// One where the bit is set, else none.
pub(crate) fn one_if(mask: u32, k: u32) -> u16
    ensures { (result ≡ (if bit mask k then 1 else 0)) × (result ≤ 1) }
{
    u16::from(has_bit(mask, k))
}

// The words of one point (rule 5.6).
pub fn point_width(mask: u32) -> u16
    ensures { result ≡ point_width mask }
{
    one_if(mask, bits::DISTANCE) + one_if(mask, bits::DIRECTION) + one_if(mask, bits::ECHO)
}

// Points have words, and their number has none (rule 5.12).
pub fn is_uncounted(mask: u32) -> bool
    ensures { result ≡ uncounted mask }
{
    point_width(mask) != 0 && !has_bit(mask, bits::POINTS)
}
