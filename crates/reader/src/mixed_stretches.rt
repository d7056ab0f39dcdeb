// The points of a sector of a mixed profile, as a stretch of the caller's own words.
ghost use Rattle.reader.specs.MixedStretches.{MixedStretchRefusalSays, MixedStretchSays};

use crate::mixed::read_mixed;
use crate::places::{check_place, points_at};
use crate::{MixedPart, ReadRefusal};

// Why the call below hands nothing back, on the same words and place (rule 5.23).
#[tactic(auto, using(crate::proofs::MixedPoints::mixed_stretch_first, crate::proofs::MixedPoints::mixed_stretch_asked))]
pub fn stretch_mixed_refusal(words: &[u16], place: usize) -> Result<(), ReadRefusal<MixedPart>>
    ensures { MixedStretchRefusalSays words.now place result }
{
    let reading = read_mixed(words)?;
    check_place(place, reading.contour.count)
}

// The points of the sector at a place, a part of the words given; empty where the call above is refused (rule 5.23). It and the call for a plain
// profile are two, by rules 5.13 and 5.23; what they share is `points_at`.
pub fn stretch_mixed(words: &[u16], place: usize) -> &[u16]
    ensures { MixedStretchSays words.entry place result }
{
    match read_mixed(words) {
        Ok(reading) => points_at(words, reading.contour, place),
        Err(_) => &words[0..0],
    }
}
