// The points of a sector, as a stretch of the caller's own words.
ghost use Rattle.reader.specs.Stretches.{StretchRefusalSays, StretchSays};

use crate::body::read;
use crate::places::{check_place, points_at};
use crate::{Part, ReadRefusal};

// Why the call below hands nothing back, on the same words and place (rule 5.13).
#[tactic(auto, using(crate::proofs::PointPlaces::stretch_first, crate::proofs::PointPlaces::stretch_asked))]
pub fn stretch_refusal(words: &[u16], place: usize) -> Result<(), ReadRefusal<Part>>
    ensures { StretchRefusalSays words.now place result }
{
    let reading = read(words)?;
    check_place(place, reading.contour.count)
}

// The points of the sector at a place, a part of the words given; empty where the call above is refused (rule 5.13).
// Stays a part alone, and no Result: rule 5.13 has one call hand back the points, and another say why there are none.
pub fn stretch(words: &[u16], place: usize) -> &[u16]
    ensures { StretchSays words.entry place result }
{
    match read(words) {
        Ok(reading) => points_at(words, reading.contour, place),
        Err(_) => &words[0..0],
    }
}
