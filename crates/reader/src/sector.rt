// The sectors of a profile, each read from its own first word on.
ghost use Rattle.std.specs.Prelude.{◌≡◌, ◌+◌, ◌^◌, ◌≤◌, ◌<◌, length};
ghost use Rattle.reader.specs.Sectors.{sector, blank_sector, found_of};
ghost use Rattle.reader.specs.Places.{SectorsRead};

use crate::SectorReading;
use layout::bits;
use words::{product, skip, take_word};

// An entry with no sector.
pub(crate) fn blank() -> SectorReading
    ensures { result ≡ blank_sector }
{
    SectorReading::default()
}

// The sector whose first word is the first of rest; base is where that word stands in the words given (rule 5.10).
fn read_sector(rest: &[u16], mask: u32, base: usize) -> Option<(SectorReading, usize)>
    requires { base + length rest.now < 2 ^ 63 }
    ensures { result ≡ found_of ((sector mask).parse base rest.now) }
{
    let number = take_word(rest, 0, mask, bits::NUMBER);
    let step = take_word(rest, number.at, mask, bits::STEP);
    let points = take_word(rest, step.at, mask, bits::POINTS);
    let tstart = take_word(rest, points.at, mask, bits::TSTART);
    let startdir = take_word(rest, tstart.at, mask, bits::STARTDIR);
    let len = product(points.word.unwrap_or(0), layout::point_width(mask)) as usize;
    let behind = skip(rest, startdir.at, len);
    let tend = take_word(rest, behind, mask, bits::TEND);
    let enddir = take_word(rest, tend.at, mask, bits::ENDDIR);
    if rest.len() < enddir.at {
        return None;
    }
    let sector = SectorReading {
        number: number.word,
        step: step.word,
        points: points.word,
        tstart: tstart.word,
        startdir: startdir.word,
        start: base + startdir.at,
        len,
        tend: tend.word,
        enddir: enddir.word,
    };
    Some((sector, base + enddir.at))
}

// So many sectors from a place on, and the place behind them; where the words end early, the place of the sector in which they do.
pub(crate) fn read_sectors(
    words: &[u16],
    mask: u32,
    count: usize,
    from: usize,
) -> Result<([SectorReading; 8], usize), usize>
    requires { (from ≤ length words.now) × (count ≤ 8) }
    ensures { SectorsRead words.now mask count from result }
{
    let mut list = [blank(); 8];
    let mut at = from;
    for k in 0..count {
        let Some((sector, next)) = read_sector(&words[at..], mask, at) else {
            return Err(k);
        };
        list[k] = sector;
        at = next;
    }
    Ok((list, at))
}
