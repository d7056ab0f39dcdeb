// One record of a talk, answered with its line (rule 7.10).
ghost use Rattle.std.specs.Prelude.{◌≤◌, length};
ghost use Rattle.dialogue.specs.Talks.{AnswerSays};
ghost use Rattle.dialogue.specs.Asked.{Replied};

use crate::lines::write_line;
use crate::records::take_record;
use crate::{Record, Said};
use services::LONGEST;
use state::State;

// The request of a record's words answered, its line over the front of the text; where that has no room, nothing is done.
fn answer_words(state: State, number: u64, words: &[u16], text: &mut [u8]) -> Option<Said>
    requires { length words.now ≤ 255 }
    ensures { Replied state number words.now text.old text.new result }
{
    let mut out = [0u16; LONGEST];
    let taken = 1 + 2 * words.len();
    match sensor::request(state, words, &mut out) {
        Ok(reply) => {
            let length = write_line(number, 0, &out[..reply.count], text)?;
            Some(Said {
                state: reply.state,
                taken,
                length,
            })
        }
        Err(refusal) => {
            let length = write_line(number, refusal.number(), &[], text)?;
            Some(Said {
                state,
                taken,
                length,
            })
        }
    }
}

// The record at the front of the bytes answered, its line over the front of the text. Where there is no whole record, or the text
// has no room for its line, nothing is done.
pub fn answer(state: State, number: u64, bytes: &[u8], text: &mut [u8]) -> Option<Said>
    ensures { AnswerSays state number bytes.now text.old text.new result }
{
    let mut words = [0u16; 255];
    match take_record(bytes, &mut words) {
        Record::Whole(n) => answer_words(state, number, &words[..usize::from(n)], text),
        Record::End | Record::Cut => None,
    }
}
