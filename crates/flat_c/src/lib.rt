// The writer of profiles as a static library for programs in C or Rust: what they call is what `flat` does, word for word (rules 5.9 and 5.21).
#![tactic(auto)]

ghost use Rattle.profile.specs.Profiles.{scan, scan_with};
ghost use Rattle.flat.specs.Sent.{ProfileSays, MixedSays};

use units::{Angle, Time};

// The profile of one revolution into the buffer that is lent; how many words it has, 0 where the call is refused (rule 5.9).
#[unsafe(no_mangle)]
pub extern "C" fn slackjib_profile(
    plan: &[u16],
    step: Angle,
    running: u16,
    mask: u16,
    start: Time,
    distances: &[u16],
    echoes: &[u16],
    out: &mut [u16],
) -> usize
    ensures { ProfileSays plan.now step.0 running mask (scan start.0 distances.now echoes.now)
        out.old out.new result }
{
    flat::slackjib_profile(plan, step, running, mask, start, distances, echoes, out)
}

// The mixed profile of one revolution with these reflectors, eleven words each, into the buffer that is lent; how many words it has, 0
// where the call is refused (rule 5.21). The start time stands in front of the mask: so both structs of one number are among the first six
// arguments, which go in registers on every processor.
#[unsafe(no_mangle)]
pub extern "C" fn slackjib_mixed_profile(
    plan: &[u16],
    step: Angle,
    running: u16,
    start: Time,
    high: u16,
    low: u16,
    distances: &[u16],
    echoes: &[u16],
    reflectors: &[u16],
    out: &mut [u16],
) -> usize
    ensures { MixedSays plan.now step.0 running high low
        (scan_with start.0 distances.now echoes.now reflectors.now) out.old out.new result }
{
    flat::slackjib_mixed_profile(
        plan, step, running, start, high, low, distances, echoes, reflectors, out,
    )
}
