// DO_RESET, TRANS_IDLE, TRANS_ROTATE, TRANS_MEASURE.
ghost use Rattle.std.specs.Prelude.{◌≡◌};
ghost use Rattle.plan.specs.Checks.{error_said};
ghost use Rattle.services.specs.Answers.{Gives};
ghost use Rattle.services.specs.Working.{idle_of, cold_of, stop_measure, reset_of, do_reset, trans_idle, rotate_of, trans_rotate, measure_of, trans_measure};

use crate::Served;
use crate::answers::{answer_status, answer_status_and, say};
use crate::nav300::restored;
use plan::MeasureError;
use state::{Job, Mode, State};

// IDLE at running speed 0, with no job (rule 4.14).
fn idle(state: State) -> State
    ensures { result ≡ idle_of state }
{
    state::with_drive(state, Mode::Idle, 0, Job::Absent)
}

// As after power on, but for the configuration, the direction of rotation, and what is stored, which becomes the working plan and the working
// pair of threshold and radius (rule 4.12).
fn cold(state: State) -> State
    ensures { result ≡ cold_of state }
{
    let planned = state::with_plans(idle(state), state.stored, state.stored);
    let cleared = state::with_counter(state::with_port(planned, 0), 0);
    state::with_settings(cleared, restored(state.settings))
}

// MEASURE becomes ROTATE with no job; other modes stay (rule 4.13).
fn stop_measure(state: State) -> State
    ensures { result ≡ stop_measure state state.mode }
{
    match state.mode {
        Mode::Idle | Mode::Rotate => state,
        Mode::Measure => state::with_drive(state, Mode::Rotate, state.running, Job::Absent),
    }
}

fn reset(state: State, level: u16) -> State
    ensures { result ≡ reset_of state level }
{
    match level {
        0 | 1 => cold(state),
        2 => stop_measure(state),
        _ => state,
    }
}

pub fn do_reset(state: State, code: u16, level: u16) -> Served
    ensures { Gives result (do_reset state code level) }
{
    say(reset(state, level), &[code, level])
}

pub fn trans_idle(state: State, code: u16) -> Served
    ensures { Gives result (trans_idle state code) }
{
    answer_status(idle(state), code)
}

// ROTATE at the configured speed for 0, at the speed given for 5 to 20; else IDLE (rule 4.15).
fn rotate(state: State, speed: u16) -> State
    ensures { result ≡ rotate_of state speed }
{
    if speed == 0 {
        return state::with_drive(state, Mode::Rotate, state.speed, Job::Absent);
    }
    if !state::speed_ok(speed) {
        return idle(state);
    }
    state::with_drive(state, Mode::Rotate, speed, Job::Absent)
}

pub fn trans_rotate(state: State, code: u16, speed: u16) -> Served
    ensures { Gives result (trans_rotate state code speed) }
{
    answer_status(rotate(state, speed), code)
}

// MEASURE where no check fails, and a running job goes on; else ROTATE with no job (rule 4.16).
fn measured(state: State, checked: Result<(), MeasureError>) -> State
    ensures { result ≡ measure_of state (error_said checked) }
{
    match checked {
        Ok(()) => state::with_drive(state, Mode::Measure, state.running, state.job),
        Err(_) => state::with_drive(state, Mode::Rotate, state.running, Job::Absent),
    }
}

pub fn trans_measure(state: State, code: u16) -> Served
    ensures { Gives result (trans_measure state code) }
{
    let checked = plan::check_measure(state.working, state.step, state.running);
    let error = checked.err().map_or(0, MeasureError::number);
    answer_status_and(measured(state, checked), code, error)
}
