// A wrong number of words (rule 4.25).
ghost use Rattle.std.specs.Prelude.{◌≡◌, ◌∷◌, ◌≤◌, ◌<◌, length, replicate};
ghost use Rattle.services.specs.Answers.{answer, longest, no_value, Gives};
ghost use Rattle.sensor.specs.Table.{is_refused, said_of};

use crate::Miscount;
use services::{LONGEST, NO_VALUE, Served};
use state::State;

// It is refused.
pub(crate) fn is_refused(miscount: Miscount) -> bool
    ensures { result ≡ is_refused miscount }
{
    matches!(miscount, Miscount::Refused)
}

// The response code, then no value so many times; the state stays.
fn no_values(state: State, code: u16, times: usize) -> Served
    requires { times < longest }
    ensures { Gives result (answer state (code ∷ replicate times no_value)) }
{
    let mut words = [0u16; LONGEST];
    words[0] = code;
    words[1..=times].fill(NO_VALUE);
    Served {
        state,
        words,
        count: times + 1,
    }
}

// What is answered to it; where it is refused, no word.
pub(crate) fn say_miscount(state: State, code: u16, miscount: Miscount) -> Served
    requires { length (said_of miscount code) ≤ longest }
    ensures { Gives result (answer state (said_of miscount code)) }
{
    match miscount {
        Miscount::Refused => services::no_word(state),
        Miscount::NoValues(times) => no_values(state, code, times),
    }
}
