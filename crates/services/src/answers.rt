// Short answers, over zeros.
ghost use Rattle.std.specs.Prelude.{[], ◌∷◌, ◌++◌, ◌≤◌, length};
ghost use Rattle.services.specs.Answers.{answer, longest, senstat, answer_status, Gives};

use crate::{LONGEST, Served};
use state::State;

// The words of an answer.
pub(crate) fn say(state: State, words: &[u16]) -> Served
    requires { length words.now ≤ longest }
    ensures { Gives result (answer state words.now) }
{
    let mut filled = [0u16; LONGEST];
    filled[..words.len()].copy_from_slice(words);
    Served {
        state,
        words: filled,
        count: words.len(),
    }
}

pub fn no_word(state: State) -> Served
    ensures { Gives result (answer state []) }
{
    say(state, &[])
}

// A response code, then SENSTAT (rule 4.2).
pub(crate) fn answer_status(state: State, code: u16) -> Served
    ensures { Gives result (answer_status code state) }
{
    say(state, &[code, 0, state::mode_number(state.mode)])
}

// A response code, then SENSTAT, then one word more.
pub(crate) fn answer_status_and(state: State, code: u16, word: u16) -> Served
    ensures { Gives result (answer state ((code ∷ senstat state) ++ (word ∷ []))) }
{
    say(state, &[code, 0, state::mode_number(state.mode), word])
}
