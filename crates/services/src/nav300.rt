// SET_ROTATE_DIRECTION, GET_ROTATE_DIRECTION, SET_REFLECTOR_CONFIG, GET_REFLECTOR_CONFIG, SAVE_PERMANENT: the settings of the NAV300.
ghost use Rattle.std.specs.Prelude.{◌≡◌};
ghost use Rattle.state.specs.Nav300.{restored as Nav300·restored};
ghost use Rattle.services.specs.Answers.{Gives};
ghost use Rattle.services.specs.Nav300.{set_rotate_direction, get_rotate_direction, value_said, set_reflector_config, get_reflector_config, save_permanent};

use crate::Served;
use crate::answers::say;
use state::{Reflector, Settings, State};
use units::{Millimetres, Percent};

// What is answered in the place of a value that is out of its range; `bad_value` in the specs (rules 4.19, 4.20 and 4.23).
pub(crate) const BAD_VALUE: u16 = 0xFF01;

pub fn set_rotate_direction(state: State, code: u16, rotation: u16) -> Served
    ensures { Gives result (set_rotate_direction state code rotation) }
{
    if !state::rotation_ok(rotation) {
        return say(state, &[code, BAD_VALUE]);
    }
    let settings = Settings {
        rotation,
        ..state.settings
    };
    say(state::with_settings(state, settings), &[code, rotation])
}

pub fn get_rotate_direction(state: State, code: u16) -> Served
    ensures { Gives result (get_rotate_direction state code) }
{
    say(state, &[code, state.settings.rotation])
}

// What the answer has in a value's own place (rule 4.20).
fn value_said(good: bool, value: u16) -> u16
    ensures { result ≡ value_said good value }
{
    if good { value } else { BAD_VALUE }
}

// Both values are tested first: where one is bad, the other is answered and not stored (rule 4.20).
pub fn set_reflector_config(
    state: State,
    code: u16,
    threshold: Percent,
    radius: Millimetres,
) -> Served
    ensures { Gives result (set_reflector_config state code threshold.0 radius.0) }
{
    let threshold_good = state::threshold_ok(threshold);
    let radius_good = state::radius_ok(radius);
    let first = value_said(threshold_good, threshold.0);
    let second = value_said(radius_good, radius.0);
    if !(threshold_good && radius_good) {
        return say(state, &[code, first, second]);
    }
    let settings = Settings {
        working: Reflector { threshold, radius },
        ..state.settings
    };
    say(
        state::with_settings(state, settings),
        &[code, first, second],
    )
}

pub fn get_reflector_config(state: State, code: u16) -> Served
    ensures { Gives result (get_reflector_config state code) }
{
    let pair = state.settings.working;
    say(state, &[code, pair.threshold.0, pair.radius.0])
}

pub fn save_permanent(state: State, code: u16) -> Served
    ensures { Gives result (save_permanent state code) }
{
    let settings = Settings {
        stored: state.settings.working,
        ..state.settings
    };
    say(state::with_settings(state, settings), &[code, 0])
}

// The stored pair taken back, as by DO_RESET (rule 4.12).
pub(crate) fn restored(settings: Settings) -> Settings
    ensures { result ≡ Nav300·restored settings }
{
    Settings {
        working: settings.stored,
        ..settings
    }
}
