// SET_CONFIG, GET_CONFIG, SET_FUNCTION, GET_FUNCTION.
ghost use Rattle.std.specs.Prelude.{◌≡◌};
ghost use Rattle.services.specs.Answers.{Gives};
ghost use Rattle.services.specs.Configuration.{config_taken, set_config, get_config, sector_set, function_set, set_function, get_function};

use crate::answers::say;
use crate::{NO_VALUE, Served};
use plan::Sector;
use state::State;
use units::Angle;

// The item of id, speed and step; `config_item` in the specs (rule 4.6).
const CONFIG_ITEM: u16 = 0x0010;

// The item is the configuration's, and id, speed and step are in their ranges (rule 4.6).
fn config_taken(item: u16, id: u16, speed: u16, step: Angle) -> bool
    ensures { result ≡ config_taken item id speed step.0 }
{
    item == CONFIG_ITEM && state::config_ok(id, speed, step)
}

// All four words are tested first: what is refused leaves the state as it came (rule 4.6).
pub fn set_config(state: State, code: u16, item: u16, id: u16, speed: u16, step: Angle) -> Served
    ensures { Gives result (set_config state code item id speed step.0) }
{
    if !config_taken(item, id, speed, step) {
        return say(state, &[code, NO_VALUE]);
    }
    say(state::with_config(state, id, speed, step), &[code, item])
}

pub fn get_config(state: State, code: u16, item: u16) -> Served
    ensures { Gives result (get_config state code item) }
{
    if item != CONFIG_ITEM {
        return say(state, &[code, NO_VALUE]);
    }
    say(state, &[code, item, state.id, state.speed, state.step.0])
}

// The sector that SET_FUNCTION takes (rule 4.8).
fn sector_set(number: u16) -> u16
    ensures { result ≡ sector_set number }
{
    number.min(7)
}

// The function that SET_FUNCTION takes (rule 4.8).
fn function_set(function: u16) -> u16
    ensures { result ≡ function_set function }
{
    if function == 2 || function > 4 {
        return 0;
    }
    function
}

// Whether the stop is a multiple of the step is not tested here: TRANS_MEASURE does (rule 4.8). The function is a word as it came, and any is taken.
pub fn set_function(
    state: State,
    code: u16,
    number: u16,
    function: u16,
    stop: Angle,
    flash: u16,
) -> Served
    ensures { Gives result (set_function state code number function stop.0 flash) }
{
    let at = sector_set(number);
    let entry = Sector {
        function: function_set(function),
        stop: units::onto_circle(stop),
    };
    let working = plan::with_entry(state.working, at as usize, entry);
    let stored = if flash == 1 { working } else { state.stored };
    say(
        state::with_plans(state, working, stored),
        &[code, at, entry.function, entry.stop.0],
    )
}

pub fn get_function(state: State, code: u16, number: u16) -> Served
    ensures { Gives result (get_function state code number) }
{
    if number > 7 {
        return say(state, &[code, NO_VALUE, NO_VALUE, NO_VALUE]);
    }
    let entry = plan::entry_at(state.working, number as usize);
    say(state, &[code, number, entry.function, entry.stop.0])
}
