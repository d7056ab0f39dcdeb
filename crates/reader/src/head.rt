// The words that depend on no bit, of either kind of profile: refusals 12 to 14 and 22 to 24.
ghost use Rattle.std.specs.Prelude.{◌≡◌, ◌≤◌, length};
ghost use Rattle.layout.specs.Mixed.{kind_numbers};
ghost use Rattle.reader.specs.Readings.{layers_ok, sectors_ok};
ghost use Rattle.reader.specs.Places.{mask_for, info_for, HeadSays};

use crate::ReadRefusal;
use layout::{HEAD, Kind, MIXED_CODE, MIXED_HEAD, PROFILE_CODE};

// The last of these words: its high byte, the number of layers, is 1 (rule 5.4).
fn layers_ok(info: u16) -> bool
    ensures { result ≡ layers_ok info }
{
    info / 256 == 1
}

// Its low byte, the number of sectors, is 1 to 8 (rule 5.4).
#[tactic(auto, using(words::proofs::Tests::picks))]
fn sectors_ok(info: u16) -> bool
    ensures { result ≡ sectors_ok info }
{
    let sectors = info % 256;
    1 <= sectors && sectors <= 8
}

// The first word (rules 5.4 and 5.19). A match, as the next one: these are numbers of a kind (`kind_numbers`), and no conversion of it.
fn code_of(kind: Kind) -> u16
    ensures { result ≡ (kind_numbers kind).code }
{
    match kind {
        Kind::Plain => PROFILE_CODE,
        Kind::Mixed => MIXED_CODE,
    }
}

// How many words depend on no bit (rules 5.4 and 5.19).
fn head_of(kind: Kind) -> usize
    ensures { result ≡ (kind_numbers kind).first }
{
    match kind {
        Kind::Plain => HEAD,
        Kind::Mixed => MIXED_HEAD,
    }
}

// The mask's number (rules 5.4 and 5.19).
#[tactic(auto, using(crate::proofs::Heads::kind_has, crate::proofs::Heads::mask_there))]
pub(crate) fn mask_in(words: &[u16], kind: Kind) -> u32
    requires { (kind_numbers kind).first ≤ length words.now }
    ensures { result ≡ mask_for kind words.now }
{
    match kind {
        Kind::Plain => words[1] as u32,
        Kind::Mixed => layout::mixed_number(words[1], words[2]),
    }
}

// The last of the words that depend on no bit (rules 5.4 and 5.19).
#[tactic(auto, using(crate::proofs::Heads::kind_has, crate::proofs::Heads::info_there))]
pub(crate) fn info_in(words: &[u16], kind: Kind) -> u16
    requires { (kind_numbers kind).first ≤ length words.now }
    ensures { result ≡ info_for kind words.now }
{
    match kind {
        Kind::Plain => words[2],
        Kind::Mixed => words[3],
    }
}

// Refusals 12, 13, 22, 23, 24 and 14, tried in this order (rule 6.1).
#[tactic(auto, using(crate::proofs::Heads::ways))]
pub(crate) fn check_head<P>(words: &[u16], kind: Kind) -> Result<(), ReadRefusal<P>>
    ensures { HeadSays kind words.now result }
{
    if words.first() != Some(&code_of(kind)) {
        return Err(ReadRefusal::NoProfile);
    }
    let head = head_of(kind);
    if words.len() < head {
        return Err(ReadRefusal::ShortHead);
    }
    let mask = mask_in(words, kind);
    let info = info_in(words, kind);
    if !layout::kind_ok(kind, mask) {
        return Err(ReadRefusal::Mask);
    }
    if !layers_ok(info) {
        return Err(ReadRefusal::Layers);
    }
    if !sectors_ok(info) {
        return Err(ReadRefusal::SectorCount);
    }
    if layout::is_uncounted(mask) {
        return Err(ReadRefusal::Uncounted);
    }
    Ok(())
}
