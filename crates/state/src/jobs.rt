// What a job has (rule 2.7).
ghost use Rattle.std.specs.Prelude.{◌≡◌};
ghost use Rattle.state.specs.Jobs.{is_job, mask_of};

use crate::Job;
use layout::Mask;

// There is one.
pub fn is_job(job: Job) -> bool
    ensures { result ≡ is_job job }
{
    !matches!(job, Job::Absent)
}

// Its mask; where there is no job, a plain one of no bit, as `mask_of` of the specs has it.
pub fn mask_of(job: Job) -> Mask
    ensures { result ≡ mask_of job }
{
    match job {
        Job::Absent => Mask::Plain(0),
        Job::Counted { mask, .. } | Job::Endless { mask, .. } => mask,
    }
}
