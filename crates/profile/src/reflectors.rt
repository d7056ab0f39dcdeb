// The reflectors of a mixed profile, as the revolution's caller hands them in (rules 5.18 and 5.19).
ghost use Rattle.std.specs.Prelude.{◌≡◌, ◌+◌, ◌≤◌, length};
ghost use Rattle.words.specs.Buffers.{Put};
ghost use Rattle.layout.specs.MixedMasks.{reflector_length};
ghost use Rattle.profile.specs.Mixed.{reflector_words, reflectors_of};
ghost use Rattle.profile.specs.Asked.{reflector_part_of};

use crate::puts::{put_chosen, put_selected};
use layout::{REFLECTOR, bits};
use units::{Echo, Time};

// One reflector of eleven words (rule 5.18). Of a co-ordinate the two words are handed on as they are; the time in milliseconds and the
// mean echo have one each.
fn put_reflector(out: &mut [u16], at: usize, mask: u32, words: &[u16]) -> usize
    requires room { at + length (reflector_words mask words.now 0) ≤ length out.old }
    requires eleven { length words.now ≡ reflector_length }
    ensures { Put (reflector_words mask words.now 0) out.old at out.new result }
{
    let point = [words[0], words[1], words[2], words[3]];
    let polar = [words[4], words[5], words[6], words[7]];
    let time = Time(words[8]);
    let echo = Echo(words[9]);
    let a = put_chosen(out, at, mask, bits::CARTESIAN, &point);
    let b = put_chosen(out, a, mask, bits::POLAR, &polar);
    let c = put_selected(out, b, mask, bits::TIME, time.0);
    let d = put_selected(out, c, mask, bits::MEAN_ECHO, echo.0);
    put_selected(out, d, mask, bits::SPOTS, words[10])
}

// All of them, each whole before the next (rule 5.19).
fn put_reflectors(out: &mut [u16], from: usize, mask: u32, list: &[u16]) -> usize
    requires { from + length (reflectors_of mask list.now) ≤ length out.old }
    ensures { Put (reflectors_of mask list.now) out.old from out.new result }
{
    let mut at = from;
    for reflector in list.chunks_exact(REFLECTOR) {
        at = put_reflector(out, at, mask, reflector);
    }
    at
}

// What stands behind the contour: how many there are, and the reflectors (rule 5.19).
pub(crate) fn put_reflector_part(out: &mut [u16], at: usize, mask: u32, list: &[u16]) -> usize
    requires { (at + length (reflector_part_of mask list.now) ≤ length out.old) × (length list.now ≤ 704) }
    ensures { Put (reflector_part_of mask list.now) out.old at out.new result }
{
    let count = list.len() / REFLECTOR;
    let a = put_selected(out, at, mask, bits::REFLECTORS, count as u16);
    put_reflectors(out, a, mask, list)
}
