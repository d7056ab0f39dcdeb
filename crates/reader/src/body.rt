// A whole plain profile.
ghost use Rattle.reader.specs.Readings.{ReadSays};

use crate::contour::read_contour;
use crate::head::check_head;
use crate::{Part, ReadRefusal, Reading};
use layout::{HEAD, Kind};

// Reads a profile.
pub fn read(words: &[u16]) -> Result<Reading, ReadRefusal<Part>>
    ensures { ReadSays words.now result }
{
    check_head(words, Kind::Plain)?;
    let mask = words[1];
    let count = (words[2] % 256) as usize;
    let (contour, next) = read_contour(words, HEAD, mask as u32, count).map_err(
        |part| ReadRefusal::EndsEarly {
            at: words.len(),
            part,
        },
    )?;
    if next < words.len() {
        return Err(ReadRefusal::LeftOver);
    }
    Ok(Reading { mask, contour })
}
