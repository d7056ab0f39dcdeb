// The services as pure functions: from a state, the response code and the words after the request's code to the next state and a short
// answer. Nothing is stored before every test has passed, and nothing is written here: whether the answer fits a buffer is decided above. State,
// code and words stay parameters: a struct of them would be made in one place and taken apart in each service.
#![tactic(auto)]

use state::State;

mod answers;
mod configuration;
mod measurement;
mod mixed;
mod nav300;
mod status;
mod working;

pub use answers::no_word;
pub use configuration::{get_config, get_function, set_config, set_function};
pub use measurement::{cancel_profile, get_profile};
pub use mixed::{cancel_mixed_profile, get_mixed_profile};
pub use nav300::{
    get_reflector_config, get_rotate_direction, save_permanent, set_reflector_config,
    set_rotate_direction,
};
pub use status::{get_signal, get_status, set_signal};
pub use working::{do_reset, trans_idle, trans_measure, trans_rotate};

// How many words the longest answer has; `longest` in the specs (rule 7.10).
pub const LONGEST: usize = 5;

// What is answered in the place of a value that there is none of; `no_value` in the specs.
pub const NO_VALUE: u16 = 0xFFFF;

// The next state, and the answer: its first count words. Stays an array and a count:
// `packed` of the specs says what each entry of the array holds, those behind the count too.
#[derive(Clone, Copy)]
pub struct Served {
    pub state: State,
    pub words: [u16; LONGEST],
    pub count: usize,
}
