// The test of the ranges: refusal 1 is its failing (rule 2.8).
ghost use Rattle.std.specs.Prelude.{◌≡◌};
ghost use Rattle.state.specs.Ranges.{speed_ok, config_ok, drive_ok, is_measure, job_ok, alone_ok, in_range};

use crate::nav300::settings_ok;
use crate::{Job, Mode, State};
use plan::Plan;
use units::Angle;

// 5 to 20 Hz (rule 2.1).
pub fn speed_ok(speed: u16) -> bool
    ensures { result ≡ speed_ok speed }
{
    (5..=20).contains(&speed)
}

// An id, a speed and a step that a configuration may have (rule 2.1).
#[tactic(auto, unfolding(crate::specs::Ranges::config_ok))]
pub fn config_ok(id: u16, speed: u16, step: Angle) -> bool
    ensures { result ≡ config_ok id speed step.0 }
{
    (1..=254).contains(&id) && speed_ok(speed) && plan::is_step(step)
}

// The running speed goes with the mode, and in MEASURE the working plan passes the four checks (rules 2.4 and 2.5).
fn drive_ok(mode: Mode, running: u16, working: Plan, step: Angle) -> bool
    ensures { result ≡ drive_ok mode running working step.0 }
{
    match mode {
        Mode::Idle => running == 0,
        Mode::Rotate => speed_ok(running),
        Mode::Measure => speed_ok(running) && plan::check_measure(working, step, running).is_ok(),
    }
}

pub fn is_measure(mode: Mode) -> bool
    ensures { result ≡ is_measure mode }
{
    matches!(mode, Mode::Measure)
}

// A job exists only in MEASURE, with a mask, a number left and a number sent that it may have (rules 2.7 and 2.11). A match over its three cases.
fn job_ok(mode: Mode, job: Job) -> bool
    ensures { result ≡ job_ok mode job }
{
    match job {
        Job::Absent => true,
        Job::Counted { left, mask, sent } => {
            is_measure(mode)
                && layout::admitted(mask)
                && left >= 1
                && left.checked_add(sent).is_some()
        }
        Job::Endless { mask, .. } => is_measure(mode) && layout::admitted(mask),
    }
}

// The fields that no other field goes with (rules 2.2 and 2.10).
fn alone_ok(state: State) -> bool
    ensures { result ≡ alone_ok state }
{
    plan::plan_in_range(state.stored) && settings_ok(state.settings)
}

// Every field is in its range. A state is so as a rule, so no test is left out (rule 2.8).
#[tactic(auto, unfolding(crate::specs::Ranges::in_range))]
pub fn in_range(state: State) -> bool
    ensures { result ≡ in_range state }
{
    config_ok(state.id, state.speed, state.step)
        & plan::plan_in_range(state.working)
        & drive_ok(state.mode, state.running, state.working, state.step)
        & job_ok(state.mode, state.job)
        & alone_ok(state)
}
