// The length of a profile.
ghost use Rattle.std.specs.Prelude.{◌≡◌};
ghost use Rattle.layout.specs.Lengths.{profile_length};

use crate::masks::{one_if, point_width};
use crate::{HEAD, bits};

// The words of a profile of so many sectors and points (rule 5.8).
pub fn profile_length(mask: u32, sectors: u16, points: u16) -> usize
    ensures { result ≡ profile_length mask sectors points }
{
    let head = one_if(mask, bits::SENT) + one_if(mask, bits::COUNTER) + one_if(mask, bits::LAYER);
    let opening = one_if(mask, bits::NUMBER)
        + one_if(mask, bits::STEP)
        + one_if(mask, bits::POINTS)
        + one_if(mask, bits::TSTART)
        + one_if(mask, bits::STARTDIR);
    let closing = one_if(mask, bits::TEND) + one_if(mask, bits::ENDDIR);
    let tail = 2 * one_if(mask, bits::SENSTAT);
    let blocks = words::product(sectors, opening + closing) as usize;
    let body = words::product(points, point_width(mask)) as usize;
    HEAD + head as usize + blocks + body + tail as usize
}
