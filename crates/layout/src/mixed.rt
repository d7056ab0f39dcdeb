// What concerns the mask and the length of a mixed profile.
ghost use Rattle.std.specs.Prelude.{◌≡◌};
ghost use Rattle.layout.specs.MixedMasks.{mixed_number, mixed_ok, reflector_width, kind_of, mask_from, is_of, mask_number, kind_ok};
ghost use Rattle.layout.specs.MixedMasks.{admitted as MixedMasks·admitted};
ghost use Rattle.layout.specs.Mixed.{kind_numbers, mixed_length, length_of};

use crate::lengths::profile_length;
use crate::masks::{mask_ok, one_if};
use crate::{Kind, MIXED_LAYER, Mask, PLAIN_LAYER, bits};
use words::has_bit;

// The number of a mixed mask, its high word in front (rule 2.11).
pub fn mixed_number(high: u16, low: u16) -> u32
    ensures { result ≡ mixed_number high low }
{
    (high as u32) * 65536 + low as u32
}

// A mask that a mixed profile may have (rule 2.11). Past bit 22 all are reserved, and below bit 18 there is no field of a reflector.
pub fn mixed_ok(mask: u32) -> bool
    ensures { result ≡ mixed_ok mask }
{
    if !mask_ok(mask) {
        return false;
    }
    if has_bit(mask, bits::RESERVED_MIXED) {
        return false;
    }
    if has_bit(mask, bits::REFLECTORS) {
        return mask < 8388608;
    }
    mask < 262144
}

// A mask that a profile of the kind may have (rules 2.7 and 2.11).
pub fn kind_ok(kind: Kind, mask: u32) -> bool
    ensures { result ≡ kind_ok kind mask }
{
    match kind {
        Kind::Plain => mask_ok(mask),
        Kind::Mixed => mixed_ok(mask),
    }
}

// A mask that a job may have (rules 2.7 and 2.11).
pub fn admitted(mask: Mask) -> bool
    ensures { result ≡ MixedMasks·admitted mask }
{
    kind_ok(kind_of(mask), mask_number(mask))
}

// A mask's kind (rules 2.7 and 2.11).
fn kind_of(mask: Mask) -> Kind
    ensures { result ≡ kind_of mask }
{
    match mask {
        Mask::Plain(_) => Kind::Plain,
        Mask::Mixed(_, _) => Kind::Mixed,
    }
}

// The mask is of the kind (rules 4.11 and 4.24).
pub fn is_of(kind: Kind, mask: Mask) -> bool
    ensures { result ≡ is_of kind mask }
{
    kind == kind_of(mask)
}

// The mask of a kind, from two words; a plain one has the low word alone (rules 2.7 and 2.11).
pub fn mask_from(kind: Kind, high: u16, low: u16) -> Mask
    ensures { result ≡ mask_from kind high low }
{
    match kind {
        Kind::Plain => Mask::Plain(low),
        Kind::Mixed => Mask::Mixed(high, low),
    }
}

// A mask's number (rules 2.7 and 2.11).
pub fn mask_number(mask: Mask) -> u32
    ensures { result ≡ mask_number mask }
{
    match mask {
        Mask::Plain(word) => word as u32,
        Mask::Mixed(high, low) => mixed_number(high, low),
    }
}

// The layer that a profile of a mask's kind names (rules 5.5 and 5.19). A match: it is a number of the kind, and no conversion of it.
pub fn layer_of(mask: Mask) -> u16
    ensures { result ≡ (kind_numbers (kind_of mask)).layer }
{
    match kind_of(mask) {
        Kind::Plain => PLAIN_LAYER,
        Kind::Mixed => MIXED_LAYER,
    }
}

// The words of one reflector (rule 5.20).
pub fn reflector_width(mask: u32) -> u16
    ensures { result ≡ reflector_width mask }
{
    4 * (one_if(mask, bits::CARTESIAN) + one_if(mask, bits::POLAR))
        + (one_if(mask, bits::TIME) + one_if(mask, bits::MEAN_ECHO) + one_if(mask, bits::SPOTS))
}

// The words of a mixed profile of so many sectors, points and reflectors (rule 5.20).
pub fn mixed_length(mask: u32, sectors: u16, points: u16, reflectors: u16) -> usize
    ensures { result ≡ mixed_length mask sectors points reflectors }
{
    let contour = profile_length(mask, sectors, points);
    let fields = words::product(reflectors, reflector_width(mask)) as usize;
    contour + 1 + one_if(mask, bits::REFLECTORS) as usize + fields
}

// The words of a profile of a mask's kind (rules 5.8 and 5.20).
pub fn length_of(mask: Mask, sectors: u16, points: u16, reflectors: u16) -> usize
    ensures { result ≡ length_of mask sectors points reflectors }
{
    match mask {
        Mask::Plain(word) => profile_length(word as u32, sectors, points),
        Mask::Mixed(high, low) => mixed_length(
            mixed_number(high, low),
            sectors,
            points,
            reflectors,
        ),
    }
}
