// The writer of profiles for programs in C or Rust, which have no state with enums to hand over.
#![tactic(auto)]

ghost use Rattle.std.specs.Prelude.{◌≡◌, ◌<◌};
ghost use Rattle.layout.specs.MixedMasks.{mask_from};
ghost use Rattle.state.specs.Fresh.{measuring as Fresh·measuring};
ghost use Rattle.profile.specs.Profiles.{scan_of, scan_with, scan};
ghost use Rattle.flat.specs.Plans.{entry_of, plan_of};
ghost use Rattle.flat.specs.Sent.{SentBy, ProfileSays, MixedSays};

use layout::{Kind, Mask};
use plan::{Plan, Sector};
use profile::Scan;
use state::{Job, Mode, State};
use units::{Angle, Time};

// Entry k of a plan: its function and its stop are words 2k and 2k + 1, 0 where there are none (rule 5.9).
fn entry_of(plan: &[u16], k: usize) -> Sector
    requires { k < 8 }
    ensures { result ≡ entry_of plan.now k }
{
    let at = 2 * k;
    let function = words::word_at(plan, at);
    let stop = words::word_at(plan, at + 1);
    Sector {
        function,
        stop: Angle(stop),
    }
}

// The plan of eight entries.
pub fn plan_of(plan: &[u16]) -> Plan
    ensures { result ≡ plan_of plan.now }
{
    // by a loop: of `array::from_fn` no clause says that each call has the words that were captured
    let mut sectors = [plan::unused(); 8];
    for k in 0..8 {
        sectors[k] = entry_of(plan, k);
    }
    Plan { sectors }
}

// A sensor that measures with that plan, with a job of one profile (rules 5.9 and 5.21). Plan, step and speed stay apart, as C hands them over.
fn measuring(plan: &[u16], step: Angle, running: u16, mask: Mask) -> State
    ensures { result ≡ Fresh·measuring (plan_of plan.now) step.0 running mask }
{
    let both = plan_of(plan);
    let switched_on = state::fresh();
    let configured = state::with_config(switched_on, switched_on.id, switched_on.speed, step);
    let planned = state::with_plans(configured, both, both);
    let job = Job::Counted {
        left: 1,
        mask,
        sent: 0,
    };
    state::with_drive(planned, Mode::Measure, running, job)
}

// The profile of that sensor's revolution by a mask of either kind, into the buffer that is lent; how many words it has, 0 where the call is
// refused, as C gets it. One call of `revolution` serves both kinds, so that the compiler puts it here and hands no state over in memory; and the mask comes
// as numbers, which go in registers.
fn one_profile(
    plan: &[u16],
    step: Angle,
    running: u16,
    kind: Kind,
    high: u16,
    low: u16,
    scan: Scan,
    out: &mut [u16],
) -> usize
    ensures { SentBy plan.now step.0 running (mask_from kind high low) (scan_of scan.entry) out.old out.new result }
{
    let mask = layout::mask_from(kind, high, low);
    let state = measuring(plan, step, running, mask);
    profile::revolution(state, scan, out).map_or(0, |reply| reply.count)
}

// The profile of one revolution into the buffer that is lent; how many words it has, 0 where the call is refused (rule 5.9).
pub fn slackjib_profile(
    plan: &[u16],
    step: Angle,
    running: u16,
    mask: u16,
    start: Time,
    distances: &[u16],
    echoes: &[u16],
    out: &mut [u16],
) -> usize
    ensures { ProfileSays plan.now step.0 running mask (scan start.0 distances.now echoes.now)
        out.old out.new result }
{
    let scan = Scan {
        start,
        distances,
        echoes,
        reflectors: &[],
    };
    one_profile(plan, step, running, Kind::Plain, 0, mask, scan, out)
}

// The mixed profile of one revolution with these reflectors, eleven words each, into the buffer that is lent; how many words it has, 0
// where the call is refused (rule 5.21). Its arguments stand as `flat_c` hands them on.
pub fn slackjib_mixed_profile(
    plan: &[u16],
    step: Angle,
    running: u16,
    start: Time,
    high: u16,
    low: u16,
    distances: &[u16],
    echoes: &[u16],
    reflectors: &[u16],
    out: &mut [u16],
) -> usize
    ensures { MixedSays plan.now step.0 running high low
        (scan_with start.0 distances.now echoes.now reflectors.now) out.old out.new result }
{
    let scan = Scan {
        start,
        distances,
        echoes,
        reflectors,
    };
    one_profile(plan, step, running, Kind::Mixed, high, low, scan, out)
}
