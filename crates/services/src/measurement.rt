// GET_PROFILE, CANCEL_PROFILE (rules 4.10 and 4.11).
ghost use Rattle.std.specs.Prelude.{◌≡◌};
ghost use Rattle.services.specs.Answers.{Gives};
ghost use Rattle.state.specs.Jobs.{has_kind};
ghost use Rattle.services.specs.Measurement.{new_job, get_profile, cancelled as Measurement·cancelled, cancel_profile};

use crate::Served;
use crate::answers::{answer_status, no_word, say};
use layout::{Kind, MASK_LIMIT, Mask};
use state::{Job, State};

// A job of so many profiles, none sent yet; 0 is endless (rules 4.10 and 4.23).
pub(crate) fn new_job(number: u16, mask: Mask) -> Job
    ensures { result ≡ new_job number mask }
{
    if number == 0 {
        return Job::Endless { mask, sent: 0 };
    }
    Job::Counted {
        left: number,
        mask,
        sent: 0,
    }
}

pub fn get_profile(state: State, code: u16, number: u16, mask: u16) -> Served
    ensures { Gives result (get_profile state code number mask) }
{
    let cleared = mask % MASK_LIMIT;
    if cleared == 0 {
        return say(state, &[code]);
    }
    let job = new_job(number, Mask::Plain(cleared));
    no_word(state::with_drive(state, state.mode, state.running, job))
}

// There is a job with a mask of the kind (rules 4.11 and 4.24). A match over the three cases of a job, of which one has no mask.
fn has_kind(kind: Kind, job: Job) -> bool
    ensures { result ≡ has_kind kind job }
{
    match job {
        Job::Absent => false,
        Job::Counted { mask, .. } | Job::Endless { mask, .. } => layout::is_of(kind, mask),
    }
}

// The state without a job of the kind; another one stays (rules 4.11 and 4.24).
pub(crate) fn cancelled(kind: Kind, state: State) -> State
    ensures { result ≡ Measurement·cancelled kind state }
{
    if has_kind(kind, state.job) {
        return state::with_drive(state, state.mode, state.running, Job::Absent);
    }
    state
}

pub fn cancel_profile(state: State, code: u16) -> Served
    ensures { Gives result (cancel_profile state code) }
{
    answer_status(cancelled(Kind::Plain, state), code)
}
