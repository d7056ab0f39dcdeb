// Words put at a place of a lent buffer. Buffer, place and mask stay three parameters: a cursor that held them would have to promise at each call,
// beside `Put`, that it still lends the same buffer.
ghost use Rattle.std.specs.Prelude.{◌+◌, ◌≤◌, length};
ghost use Rattle.words.specs.Buffers.{Put};
ghost use Rattle.profile.specs.Points.{selected};
ghost use Rattle.profile.specs.Asked.{chosen};

use words::has_bit;

// Words at a place, one behind the other; the place behind them. Inlined, so that a few words of a known number are moved at once: one by one,
// since of a copy of slices the compiler does not know that they lie apart, and tests it at each.
#[inline(always)]
pub(crate) fn put_words(out: &mut [u16], at: usize, words: &[u16]) -> usize
    requires { at + length words.now ≤ length out.old }
    ensures { Put words.now out.old at out.new result }
{
    let mut to = at;
    for w in words {
        out[to] = *w;
        to += 1;
    }
    to
}

// Words at a place, where their bit of the mask is set; the place behind them.
#[inline(always)]
pub(crate) fn put_chosen(out: &mut [u16], at: usize, mask: u32, k: u32, words: &[u16]) -> usize
    requires { at + length (chosen mask k words.now) ≤ length out.old }
    ensures { Put (chosen mask k words.now) out.old at out.new result }
{
    if has_bit(mask, k) {
        return put_words(out, at, words);
    }
    at
}

// The word at a place, where its bit of the mask is set; the place behind it. Stays beside `put_chosen`: by that function, when it copied slices, a
// profile took two to three times as long with a list of one word.
pub(crate) fn put_selected(out: &mut [u16], at: usize, mask: u32, k: u32, w: u16) -> usize
    requires { at + length (selected mask k w) ≤ length out.old }
    ensures { Put (selected mask k w) out.old at out.new result }
{
    if has_bit(mask, k) {
        out[at] = w;
        return at + 1;
    }
    at
}
