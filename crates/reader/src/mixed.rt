// A whole mixed profile.
ghost use Rattle.reader.specs.Mixed.{ReadMixedSays};

use crate::contour::read_contour;
use crate::head::{check_head, mask_in};
use crate::{MixedPart, MixedReading, ReadRefusal};
use layout::{Kind, MIXED_HEAD, MOST_REFLECTORS, bits};
use words::{product, take_word};

// Reads a mixed profile (rule 5.22).
pub fn read_mixed(words: &[u16]) -> Result<MixedReading, ReadRefusal<MixedPart>>
    ensures { ReadMixedSays words.now result }
{
    check_head(words, Kind::Mixed)?;
    let mask = mask_in(words, Kind::Mixed);
    let count = (words[3] % 256) as usize;
    let (contour, next) = read_contour(words, MIXED_HEAD, mask, count).map_err(
        |part| ReadRefusal::EndsEarly {
            at: words.len(),
            part: MixedPart::Contour(part),
        },
    )?;
    let number = take_word(words, next, mask, bits::REFLECTORS);
    let start = number.at;
    if words.len() < start {
        return Err(ReadRefusal::EndsEarly {
            at: words.len(),
            part: MixedPart::Count,
        });
    }
    let many = number.word.unwrap_or(0);
    if MOST_REFLECTORS < many as usize {
        return Err(ReadRefusal::ManyReflectors);
    }
    let wide = layout::reflector_width(mask);
    let width = wide as usize;
    let all = product(many, wide) as usize;
    let rest = words.len() - start;
    if rest < all {
        // not all of them are there, so that each has a word at least
        return Err(ReadRefusal::EndsEarly {
            at: words.len(),
            part: MixedPart::Reflector(rest / width),
        });
    }
    if all < rest {
        return Err(ReadRefusal::LeftOver);
    }
    Ok(MixedReading {
        upper: words[1],
        lower: words[2],
        contour,
        reflectors: number.word,
        start,
        width,
    })
}
