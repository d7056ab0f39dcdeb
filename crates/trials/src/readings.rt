// A reading as words.
use crate::answers::Answer;
use reader::{ContourReading, MixedPart, MixedReading, Part, ReadRefusal, Reading, SectorReading};

// How many words a contour has whose words are all absent: three, the count, nine for each of eight sectors, two.
const CONTOUR_WORDS: usize = 3 + 1 + 8 * 9 + 2;

// A word that can be absent: 0, or 1 and then the word.
fn put_word(out: &mut Answer, word: Option<u16>) {
    match word {
        None => out.put(0),
        Some(w) => out.put_all(&[1, w]),
    }
}

// Words that can be absent, one after another.
fn put_words(out: &mut Answer, words: &[Option<u16>]) {
    for word in words {
        put_word(out, *word);
    }
}

// One of the eight places for a sector.
fn put_sector(out: &mut Answer, sector: SectorReading) {
    put_words(
        out,
        &[
            sector.number,
            sector.step,
            sector.points,
            sector.tstart,
            sector.startdir,
        ],
    );
    out.put_number(sector.start);
    out.put_number(sector.len);
    put_words(out, &[sector.tend, sector.enddir]);
}

// A part of a profile as two words: its number, and the place of a sector or of a reflector, 0 in another part.
trait PutPart {
    fn put_part(self, out: &mut Answer);
}

impl PutPart for Part {
    fn put_part(self, out: &mut Answer) {
        match self {
            Part::Head => out.put_all(&[1, 0]),
            Part::Sector(k) => {
                out.put(2);
                out.put_number(k);
            }
            Part::Senstat => out.put_all(&[3, 0]),
        }
    }
}

impl PutPart for MixedPart {
    fn put_part(self, out: &mut Answer) {
        match self {
            MixedPart::Contour(part) => part.put_part(out),
            MixedPart::Count => out.put_all(&[4, 0]),
            MixedPart::Reflector(r) => {
                out.put(5);
                out.put_number(r);
            }
        }
    }
}

// Where the words end early: 0 for nowhere, or the part and the index.
fn put_place<P: PutPart + Copy>(out: &mut Answer, refusal: ReadRefusal<P>) {
    match refusal {
        ReadRefusal::EndsEarly { at, part } => {
            part.put_part(out);
            out.put_number(at);
        }
        _ => out.put(0),
    }
}

// The words of bits 0 to 13: those in front of the sectors, how many sectors there are, the sectors, and SENSTAT.
fn put_contour(out: &mut Answer, contour: ContourReading) {
    put_words(out, &[contour.sent, contour.counter, contour.layer]);
    out.put_number(contour.count);
    for sector in contour.sectors {
        put_sector(out, sector);
    }
    put_words(out, &[contour.high, contour.low]);
}

// The whole reading; of one that is refused every word is absent, and every number 0. Its number for no.
pub(crate) fn put_reading(out: &mut Answer, answer: Result<Reading, ReadRefusal<Part>>) -> u16 {
    match answer {
        Ok(reading) => {
            put_word(out, Some(reading.mask));
            put_contour(out, reading.contour);
            out.put(0);
            0
        }
        Err(refusal) => {
            out.put_all(&[0; 1 + CONTOUR_WORDS]);
            put_place(out, refusal);
            refusal.number()
        }
    }
}

// The whole reading of a mixed profile, and its number for no, in the same way.
pub(crate) fn put_mixed_reading(
    out: &mut Answer,
    answer: Result<MixedReading, ReadRefusal<MixedPart>>,
) -> u16 {
    match answer {
        Ok(reading) => {
            put_words(out, &[Some(reading.upper), Some(reading.lower)]);
            put_contour(out, reading.contour);
            put_word(out, reading.reflectors);
            out.put_number(reading.start);
            out.put_number(reading.width);
            out.put(0);
            0
        }
        Err(refusal) => {
            out.put_all(&[0; 5 + CONTOUR_WORDS]);
            put_place(out, refusal);
            refusal.number()
        }
    }
}
