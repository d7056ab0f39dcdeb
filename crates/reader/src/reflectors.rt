// The reflectors of a mixed profile, as parts of the caller's own words (rule 5.24).
ghost use Rattle.reader.specs.MixedStretches.{ReflectorRefusalSays, ReflectorSays, ReflectorsSays};

use crate::mixed::read_mixed;
use crate::places::check_place;
use crate::{MixedPart, ReadRefusal};

// Why the call below hands nothing back, on the same words and place (rule 5.24).
#[tactic(auto, using(crate::proofs::ReflectorPlaces::reflector_first, crate::proofs::ReflectorPlaces::reflector_asked))]
pub fn reflector_refusal(words: &[u16], place: usize) -> Result<(), ReadRefusal<MixedPart>>
    ensures { ReflectorRefusalSays words.now place result }
{
    let reading = read_mixed(words)?;
    check_place(place, reading.reflectors.unwrap_or(0) as usize)
}

// The words of the reflector at a place, a part of the words given; empty where the call above is refused (rule 5.24). No Result, as `stretch`.
pub fn reflector(words: &[u16], place: usize) -> &[u16]
    ensures { ReflectorSays words.entry place result }
{
    let Ok(reading) = read_mixed(words) else {
        return &words[0..0];
    };
    if place < reading.reflectors.unwrap_or(0) as usize {
        let start = reading.start + place * reading.width;
        let end = start + reading.width;
        &words[start..end]
    } else {
        &words[0..0]
    }
}

// The words of all reflectors, a part of the words given; empty where the reading is refused (rule 5.24).
pub fn all_reflectors(words: &[u16]) -> &[u16]
    ensures { ReflectorsSays words.entry result }
{
    let Ok(reading) = read_mixed(words) else {
        return &words[0..0];
    };
    let start = reading.start;
    let end = start + reading.reflectors.unwrap_or(0) as usize * reading.width;
    &words[start..end]
}
