// GET_STATUS, GET_SIGNAL, SET_SIGNAL.
ghost use Rattle.services.specs.Answers.{Gives};
ghost use Rattle.services.specs.Status.{get_status, get_signal, set_signal};

use crate::Served;
use crate::answers::{answer_status, say};
use state::State;

pub fn get_status(state: State, code: u16) -> Served
    ensures { Gives result (get_status state code) }
{
    answer_status(state, code)
}

pub fn get_signal(state: State, code: u16) -> Served
    ensures { Gives result (get_signal state code) }
{
    say(state, &[code, state.port as u16])
}

// Bits 2 and 3 of the port stay (rule 4.5).
pub fn set_signal(state: State, code: u16, word: u16) -> Served
    ensures { Gives result (set_signal state code word) }
{
    let low = (word % 256) as u8;
    let port = low / 16 * 16 + state.port / 4 % 4 * 4 + low % 4;
    say(state::with_port(state, port), &[code, port as u16])
}
