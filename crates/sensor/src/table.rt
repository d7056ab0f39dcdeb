// The table: codes, words in, modes, and the function of each service (rule 4.3).
ghost use Rattle.std.specs.Prelude.{◌≡◌, not, ◌%◌, if◌then◌else◌};
ghost use Rattle.state.specs.Replies.{said};
ghost use Rattle.services.specs.Answers.{Gives};
ghost use Rattle.sensor.specs.Table.{row_of, response, listed, Lists};

use crate::Miscount::{NoValues, Refused};
use crate::{Miscount, Service};
use services::Served;
use state::{Mode, Refusal, State};
use units::{Angle, Millimetres, Percent};

// What a response code has more than its request's; `response` in the specs (rule 4.1).
const RESPONSE: u16 = 0x8000;

// A row: the service, how many words come in, the code's included, whether IDLE, ROTATE and MEASURE are listed, and what becomes of another
// number of words. Stays a tuple struct: with a name before each field a line of the table is eight.
#[derive(Clone, Copy)]
pub(crate) struct Row(
    pub Service,
    pub usize,
    pub bool,
    pub bool,
    pub bool,
    pub Miscount,
);

// The row of a code. Stays a match: it is the table.
#[tactic(auto, unfolding(crate::specs::Table::service_of))]
pub(crate) fn row_of(code: u16) -> Row
    ensures { Lists result.0 result.1 result.2 result.3 result.4 result.5 code }
{
    match code {
        0x0102 => Row(Service::GetStatus, 1, true, true, true, Refused),
        0x0104 => Row(Service::GetSignal, 1, true, true, true, Refused),
        0x0105 => Row(Service::SetSignal, 2, true, true, true, NoValues(1)),
        0x0201 => Row(Service::SetConfig, 5, true, false, false, Refused),
        0x0202 => Row(Service::GetConfig, 2, true, true, true, Refused),
        0x020A => Row(Service::SetFunction, 5, true, true, false, NoValues(3)),
        0x020B => Row(Service::GetFunction, 2, true, true, true, NoValues(3)),
        0x0301 => Row(Service::GetProfile, 3, false, false, true, NoValues(0)),
        0x0302 => Row(Service::CancelProfile, 1, false, false, true, Refused),
        0x0401 => Row(Service::DoReset, 2, true, true, true, Refused),
        0x0402 => Row(Service::TransIdle, 1, true, true, true, Refused),
        0x0403 => Row(Service::TransRotate, 2, true, true, true, Refused),
        0x0404 => Row(Service::TransMeasure, 1, false, true, true, Refused),
        0x1201 => Row(Service::SetRotateDirection, 2, true, true, false, Refused),
        0x1202 => Row(Service::SetReflectorConfig, 3, true, true, false, Refused),
        0x1211 => Row(Service::GetRotateDirection, 1, true, true, true, Refused),
        0x1212 => Row(Service::GetReflectorConfig, 1, true, true, true, Refused),
        0x1301 => Row(Service::GetMixedProfile, 4, false, false, true, Refused),
        0x1302 => Row(Service::CancelMixedProfile, 1, false, false, true, Refused),
        0x1701 => Row(Service::SavePermanent, 1, true, true, false, Refused),
        _ => Row(Service::Unknown, 0, false, false, false, Refused),
    }
}

// The mode is listed.
fn is_allowed(row: Row, mode: Mode) -> bool
    ensures { result ≡ listed row.2 row.3 row.4 mode }
{
    let Row(_, _, idle, rotate, measure, _) = row;
    match mode {
        Mode::Idle => idle,
        Mode::Rotate => rotate,
        Mode::Measure => measure,
    }
}

// Refusal 5 where the mode is not listed (rule 6.1).
pub(crate) fn admit_mode(row: Row, mode: Mode) -> Result<(), Refusal>
    ensures { said result ≡ (if not (listed row.2 row.3 row.4 mode) then 5 else 0) }
{
    if !is_allowed(row, mode) {
        return Err(Refusal::NotInMode);
    }
    Ok(())
}

// The response code of a request's (rule 4.1).
pub(crate) fn response_code(code: u16) -> u16
    ensures { result ≡ response code % 65536 }
{
    code.wrapping_add(RESPONSE)
}

// What the service does, given the response code and the words after the request's. Stays a match, and no table of functions: each service takes
// its own words, with their units.
pub(crate) fn serve(
    service: Service,
    state: State,
    code: u16,
    a: u16,
    b: u16,
    c: u16,
    d: u16,
) -> Served
    ensures { Gives result ((row_of service).does state code a b c d) }
{
    match service {
        Service::GetStatus => services::get_status(state, code),
        Service::GetSignal => services::get_signal(state, code),
        Service::SetSignal => services::set_signal(state, code, a),
        Service::SetConfig => services::set_config(state, code, a, b, c, Angle(d)),
        Service::GetConfig => services::get_config(state, code, a),
        Service::SetFunction => services::set_function(state, code, a, b, Angle(c), d),
        Service::GetFunction => services::get_function(state, code, a),
        Service::GetProfile => services::get_profile(state, code, a, b),
        Service::CancelProfile => services::cancel_profile(state, code),
        Service::DoReset => services::do_reset(state, code, a),
        Service::TransIdle => services::trans_idle(state, code),
        Service::TransRotate => services::trans_rotate(state, code, a),
        Service::TransMeasure => services::trans_measure(state, code),
        Service::SetRotateDirection => services::set_rotate_direction(state, code, a),
        Service::SetReflectorConfig => services::set_reflector_config(
            state,
            code,
            Percent(a),
            Millimetres(b),
        ),
        Service::GetRotateDirection => services::get_rotate_direction(state, code),
        Service::GetReflectorConfig => services::get_reflector_config(state, code),
        Service::GetMixedProfile => services::get_mixed_profile(state, code, a, b, c),
        Service::CancelMixedProfile => services::cancel_mixed_profile(state, code),
        Service::SavePermanent => services::save_permanent(state, code),
        Service::Unknown => services::no_word(state),
    }
}
