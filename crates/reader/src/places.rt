// What is asked by a place: refusal 17, and a part of the caller's own words.
ghost use Rattle.std.specs.Prelude.{◌≡◌};
ghost use Rattle.reader.specs.Lent.{found_below, StretchesWithin, PointsSay};

use crate::{ContourReading, ReadRefusal};

// Refused where the place is not below the number (rules 5.13 and 5.24).
pub(crate) fn check_place<P>(place: usize, many: usize) -> Result<(), ReadRefusal<P>>
    ensures { result ≡ found_below place many }
{
    if place < many {
        Ok(())
    } else {
        Err(ReadRefusal::NoSuchPlace)
    }
}

// The points of the sector at a place, a part of the words that the contour was read from; empty where there is no such sector (rules 5.13
// and 5.23).
pub(crate) fn points_at(words: &[u16], contour: ContourReading, place: usize) -> &[u16]
    requires { StretchesWithin words.now contour }
    ensures { PointsSay words.entry contour place result }
{
    if place < contour.count {
        let sector = contour.sectors[place];
        &words[sector.start..sector.start + sector.len]
    } else {
        &words[0..0]
    }
}
