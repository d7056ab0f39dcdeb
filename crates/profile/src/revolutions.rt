// One revolution: refusals 1, 7, 8, 27 and 6 in their order, the profile written last.
ghost use Rattle.std.specs.Prelude.{◌≡◌, length};
ghost use Rattle.state.specs.Replies.{Answered, said, delivered};
ghost use Rattle.profile.specs.Profiles.{scan_of};
ghost use Rattle.profile.specs.Asked.{JobAsked, SendAsked, send_outcome};
ghost use Rattle.profile.specs.Revolutions.{risen, sent_after, job_after, turned, revolution_refusal, RevolutionSays};

use crate::by_mask::{length_by, write_by};
use crate::scans::Scan;
use layout::{MOST_REFLECTORS, Mask, REFLECTOR};
use state::{Job, Refusal, Reply, State};

// A counter of 16 bits after its rise (rule 5.2).
fn risen_by_one(n: u16) -> u16
    ensures { result ≡ risen n }
{
    n.wrapping_add(1)
}

// The job after a revolution (rule 5.3). What is asked of it, here and below, stays a clause: no struct has a job alone.
fn job_after(job: Job) -> Job
    requires { JobAsked job }
    ensures { result ≡ job_after job }
{
    match job {
        Job::Absent | Job::Counted { left: 1, .. } => Job::Absent,
        Job::Counted { left, mask, sent } => Job::Counted {
            left: left - 1,
            mask,
            sent: sent + 1,
        },
        Job::Endless { mask, sent } => Job::Endless {
            mask,
            sent: risen_by_one(sent),
        },
    }
}

// The number sent with this revolution's profile counted; none is sent without a job (rule 5.3). A match over the three cases of a job.
fn sent_after(job: Job) -> u16
    requires { JobAsked job }
    ensures { result ≡ sent_after job }
{
    match job {
        Job::Absent => 0,
        Job::Counted { sent, .. } => sent + 1,
        Job::Endless { sent, .. } => risen_by_one(sent),
    }
}

// The state after a revolution.
fn turn(state: State) -> State
    requires { JobAsked state.job }
    ensures { result ≡ turned state }
{
    let driven = state::with_drive(state, state.mode, state.running, job_after(state.job));
    state::with_counter(driven, risen_by_one(state.counter))
}

// Refusals 1, 7, 8 and 27 (rule 6.1).
#[tactic(auto, unfolding(crate::specs::Revolutions::revolution_refusal))]
fn admit(state: State, scan: Scan) -> Result<(), Refusal>
    ensures { said result ≡ revolution_refusal state (scan_of scan.entry) }
{
    if !state::in_range(state) {
        return Err(Refusal::OutOfRange);
    }
    if !state::is_measure(state.mode) {
        return Err(Refusal::NotMeasuring);
    }
    let shots = units::revolution_shots(state.step) as usize;
    if scan.distances.len() != shots || scan.echoes.len() != shots {
        return Err(Refusal::ListLength);
    }
    let count = scan.reflectors.len();
    if count % REFLECTOR != 0 || MOST_REFLECTORS < count / REFLECTOR {
        return Err(Refusal::ReflectorList);
    }
    Ok(())
}

// The profile of a job, and the state after it, where the buffer has room; refusal 6 where it has none (rule 5.3).
fn send(state: State, scan: Scan, mask: Mask, sent: u16, out: &mut [u16]) -> Result<Reply, Refusal>
    requires { SendAsked state (scan_of scan) }
    ensures { Answered state result out.old out.new
        (delivered state (send_outcome state (scan_of scan.entry) mask sent) (length out.old)) }
{
    if out.len() < length_by(state, mask, scan.reflectors) {
        return Err(Refusal::NoRoom);
    }
    let counter = risen_by_one(state.counter);
    let count = write_by(out, state, scan, mask, sent, counter);
    Ok(Reply {
        state: turn(state),
        count,
    })
}

// One revolution of what it is given; its profile into the buffer that is lent (rule 5.1).
pub fn revolution(state: State, scan: Scan, out: &mut [u16]) -> Result<Reply, Refusal>
    ensures { RevolutionSays state (scan_of scan.entry) out.old out.new result }
{
    admit(state, scan)?;
    // not a match on the job, which was tried: its goal was one of raw rows
    let job = state.job;
    if !state::is_job(job) {
        return Ok(Reply {
            state: turn(state),
            count: 0,
        });
    }
    send(state, scan, state::mask_of(job), sent_after(job), out)
}
