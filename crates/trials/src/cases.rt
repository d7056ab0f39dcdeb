// A case: a length, then its words, high byte first; and the lists that some of its words stand for.
ghost use Rattle.std.specs.Prelude.{◌<◌, ◌≤◌, length};

use words::word_at;

// The length that a word says, of a case, a list or a buffer.
pub(crate) fn length_of(w: u16) -> usize
    ensures { result < 8192 }
{
    usize::from(w % 8192)
}

// The words of the bytes, over the front of the buffer. `dialogue` has the same for a record, and does not hand it out.
pub(crate) fn take_words(bytes: &[u8], words: &mut [u16]) {
    for (word, pair) in words.iter_mut().zip(bytes.as_chunks::<2>().0) {
        *word = u16::from_be_bytes(*pair);
    }
}

// The words from a place on, none where there are no more.
pub(crate) fn rest(words: &[u16], from: usize) -> &[u16] {
    words.get(from..).unwrap_or_default()
}

// Every word of a list: the first, and each next one by the rise more, modulo 65536.
fn fill(list: &mut [u16], first: u16, rise: u16) {
    let mut w = first;
    for word in list {
        *word = w;
        w = w.wrapping_add(rise);
    }
}

// The list or buffer that three words stand for, in the space lent.
pub(crate) fn list_of<'a>(words: &[u16], space: &'a mut [u16]) -> &'a mut [u16]
    requires { 8192 ≤ length space.old }
{
    let list = &mut space[..length_of(word_at(words, 0))];
    fill(list, word_at(words, 1), word_at(words, 2));
    list
}
