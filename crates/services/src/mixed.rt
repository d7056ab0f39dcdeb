// GET_MIXED_PROFILE, CANCEL_MIXED_PROFILE (rules 4.23 and 4.24).
ghost use Rattle.services.specs.Answers.{Gives};
ghost use Rattle.services.specs.Mixed.{get_mixed_profile, cancel_mixed_profile};

use crate::Served;
use crate::answers::{no_word, say};
use crate::measurement::{cancelled, new_job};
use crate::nav300::BAD_VALUE;
use layout::{Kind, Mask};
use state::State;

// The words are tested as they came: no bit of them is dropped (rule 4.23).
pub fn get_mixed_profile(state: State, code: u16, number: u16, high: u16, low: u16) -> Served
    ensures { Gives result (get_mixed_profile state code number high low) }
{
    let mask = Mask::Mixed(high, low);
    if !layout::admitted(mask) {
        return say(state, &[code, high, low, BAD_VALUE]);
    }
    let job = new_job(number, mask);
    no_word(state::with_drive(state, state.mode, state.running, job))
}

pub fn cancel_mixed_profile(state: State, code: u16) -> Served
    ensures { Gives result (cancel_mixed_profile state code) }
{
    say(cancelled(Kind::Mixed, state), &[code, 0])
}
