// A record: how many words it has, in one byte, and then these, the high byte of each in front (rule 7.10).
ghost use Rattle.std.specs.Prelude.{◌≡◌, ◌+◌, ◌*◌, ◌≤◌, length, drop};
ghost use Rattle.words.specs.Buffers.{over, in_turn};
ghost use Rattle.dialogue.specs.Records.{record_word, TakeRecordSays};

use crate::Record;

// The word of two bytes, high byte first.
fn word(high: u8, low: u8) -> u16
    ensures { result ≡ high * 256 + low }
{
    u16::from_be_bytes([high, low])
}

// The words of the bytes, over the front of the buffer.
fn take_words(bytes: &[u8], n: usize, words: &mut [u16])
    requires { (length bytes.now ≡ 2 * n) × (n ≤ length words.old) }
    ensures { words.new ≡ over (in_turn (record_word bytes.now) n) words.old }
{
    // Stays a count beside each pair: of words written through iter_mut and zip, the proof knows no value once the loop is over.
    for (k, pair) in bytes.chunks_exact(2).enumerate() {
        words[k] = word(pair[0], pair[1]);
    }
}

// The record at the front of the bytes, and its words over the front of the array, which has room for those of every record.
pub fn take_record(bytes: &[u8], words: &mut [u16; 255]) -> Record
    ensures { TakeRecordSays result bytes.now words.old words.new }
{
    let Some((first, rest)) = bytes.split_first() else {
        return Record::End;
    };
    let n = usize::from(*first);
    if rest.len() < 2 * n {
        return Record::Cut;
    }
    take_words(&rest[..2 * n], n, words);
    Record::Whole(*first)
}
