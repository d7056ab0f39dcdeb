// A line of the program's output (rule 7.11).
ghost use Rattle.std.specs.Prelude.{◌≡◌, ◌+◌, ◌<◌, ◌≤◌, ◌∷◌, leb, length};
ghost use Rattle.words.specs.Buffers.{Put};
ghost use Rattle.dialogue.specs.Lines.{glyph as Lines·glyph, decimal, spaced_hex, hexes};
ghost use Rattle.dialogue.specs.Lines.{line_of, WriteLineSays};

use itoa::Buffer;

// The character of a hex digit.
fn glyph(d: u16) -> u8
    requires { d < 16 }
    ensures { result ≡ Lines·glyph d }
{
    let digit = d as u8;
    match digit {
        0..=9 => b'0' + digit,
        _ => b'A' + (digit - 10),
    }
}

// How many characters a number has.
#[tactic(auto, using(crate::proofs::Decimals::decimal_is))]
fn width(n: u64) -> usize
    ensures { (result ≡ length (decimal n)) × (result ≤ 40) }
{
    Buffer::new().format(n).len()
}

// Whether a line is no longer than the room.
#[tactic(auto, using(crate::proofs::Parts::too_short, crate::proofs::Parts::long_enough))]
fn fits(nr: u64, refusal: u16, words: &[u16], room: usize) -> bool
    ensures { result ≡ leb (length (line_of nr refusal words.now)) room }
{
    let fixed = width(nr) + width(u64::from(refusal)) + width(words.len() as u64) + 3;
    fixed <= room && words.len() <= (room - fixed) / 5
}

// Text at a place of the buffer. This and what follows answer with the place behind what they put.
// Buffer and place stay two: with a cursor each of them would promise, beside `Put`, that the cursor still lends the same buffer.
fn put(out: &mut [u8], at: usize, text: &[u8]) -> usize
    requires { at + length text.now ≤ length out.old }
    ensures { Put text.now out.old at out.new result }
{
    let end = at + text.len();
    out[at..end].copy_from_slice(text);
    end
}

// A number.
#[tactic(auto, using(crate::proofs::Decimals::decimal_is))]
fn put_decimal(out: &mut [u8], at: usize, n: u64) -> usize
    requires { at + length (decimal n) ≤ length out.old }
    ensures { Put (decimal n) out.old at out.new result }
{
    put(out, at, Buffer::new().format(n).as_bytes())
}

// A number behind a space.
fn put_spaced(out: &mut [u8], at: usize, n: u64) -> usize
    requires { at + length (32 ∷ decimal n) ≤ length out.old }
    ensures { Put (32 ∷ decimal n) out.old at out.new result }
{
    let to = put(out, at, b" ");
    put_decimal(out, to, n)
}

// A word's four hex digits behind a space.
#[tactic(auto, unfolding(crate::specs::Lines::spaced_hex, crate::specs::Lines::digits))]
fn hex(w: u16) -> [u8; 5]
    ensures { result ≡ spaced_hex w }
{
    // Stays written out: `write!` of `{:04X}` answers with a Result, and this cannot fail.
    [
        b' ',
        glyph(w / 16 / 16 / 16 % 16),
        glyph(w / 16 / 16 % 16),
        glyph(w / 16 % 16),
        glyph(w % 16),
    ]
}

// The words, each behind a space.
fn put_words(out: &mut [u8], at: usize, words: &[u16]) -> usize
    requires { at + length (hexes words.now (length words.now)) ≤ length out.old }
    ensures { Put (hexes words.now (length words.now)) out.old at out.new result }
{
    let mut to = at;
    for w in words {
        to = put(out, to, &hex(*w));
    }
    to
}

// The line of a record over the front of the buffer, and its length; nothing where it has no room.
pub fn write_line(nr: u64, refusal: u16, words: &[u16], out: &mut [u8]) -> Option<usize>
    ensures { WriteLineSays nr refusal words.now out.old out.new result }
{
    if !fits(nr, refusal, words, out.len()) {
        return None;
    }
    let mut at = put_decimal(out, 0, nr);
    at = put_spaced(out, at, u64::from(refusal));
    at = put_spaced(out, at, words.len() as u64);
    at = put_words(out, at, words);
    Some(put(out, at, b"\n"))
}
