// The state with some of its fields set. Only `fresh` writes a state out, so a new field needs no line here.
ghost use Rattle.std.specs.Prelude.{◌≡◌};
ghost use Rattle.state.specs.Fields.{with_config, with_plans, with_drive, with_port, with_counter, with_settings};

use crate::{Job, Mode, Settings, State};
use plan::Plan;
use units::Angle;

pub fn with_config(state: State, id: u16, speed: u16, step: Angle) -> State
    ensures { result ≡ with_config state id speed step.0 }
{
    State {
        id,
        speed,
        step,
        ..state
    }
}

pub fn with_plans(state: State, working: Plan, stored: Plan) -> State
    ensures { result ≡ with_plans state working stored }
{
    State {
        working,
        stored,
        ..state
    }
}

pub fn with_drive(state: State, mode: Mode, running: u16, job: Job) -> State
    ensures { result ≡ with_drive state mode running job }
{
    State {
        mode,
        running,
        job,
        ..state
    }
}

pub fn with_port(state: State, port: u8) -> State
    ensures { result ≡ with_port state port }
{
    State { port, ..state }
}

pub fn with_counter(state: State, counter: u16) -> State
    ensures { result ≡ with_counter state counter }
{
    State { counter, ..state }
}

pub fn with_settings(state: State, settings: Settings) -> State
    ensures { result ≡ with_settings state settings }
{
    State { settings, ..state }
}
