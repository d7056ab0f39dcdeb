// The state of a sensor that was just switched on (rule 2.9).
ghost use Rattle.state.specs.Fresh.{FreshSays};

use crate::{Job, Mode, Reflector, Settings, State};
use plan::{Plan, Sector};
use units::{Angle, Millimetres, Percent};

pub fn fresh() -> State
    ensures { FreshSays result }
{
    let mut sectors = [plan::unused(); 8];
    sectors[0] = Sector {
        function: 3,
        stop: Angle(5752),
    };
    let plan = Plan { sectors };
    let reflector = Reflector {
        threshold: Percent(50),
        radius: Millimetres(0),
    };
    let settings = Settings {
        rotation: 1,
        working: reflector,
        stored: reflector,
    };
    State {
        id: 1,
        speed: 10,
        step: Angle(8),
        working: plan,
        stored: plan,
        mode: Mode::Idle,
        running: 0,
        port: 0,
        counter: 0,
        job: Job::Absent,
        settings,
    }
}
