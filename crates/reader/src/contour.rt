// The contour, which a plain and a mixed profile have alike: one reader for both, told where it begins (rules 5.10 and 5.22).
ghost use Rattle.std.specs.Prelude.{◌≤◌, length};
ghost use Rattle.reader.specs.Places.{ContourRead};

use crate::sector::read_sectors;
use crate::{ContourReading, Part};
use layout::bits;
use words::take_word;

// All that goes by bits 0 to 13 of a mask, from the first word that depends on a bit, and the place behind it; where the words end early,
// the part in which they do (rule 5.16).
pub(crate) fn read_contour(
    words: &[u16],
    first: usize,
    mask: u32,
    count: usize,
) -> Result<(ContourReading, usize), Part>
    requires { (first ≤ length words.now) × (count ≤ 8) }
    ensures { ContourRead words.now first mask count result }
{
    let sent = take_word(words, first, mask, bits::SENT);
    let counter = take_word(words, sent.at, mask, bits::COUNTER);
    let layer = take_word(words, counter.at, mask, bits::LAYER);
    if words.len() < layer.at {
        return Err(Part::Head);
    }
    let (sectors, behind) = read_sectors(words, mask, count, layer.at).map_err(Part::Sector)?;
    let high = take_word(words, behind, mask, bits::SENSTAT);
    let low = take_word(words, high.at, mask, bits::SENSTAT);
    if words.len() < low.at {
        return Err(Part::Senstat);
    }
    let contour = ContourReading {
        sent: sent.word,
        counter: counter.word,
        layer: layer.word,
        count,
        sectors,
        high: high.word,
        low: low.word,
    };
    Ok((contour, low.at))
}
