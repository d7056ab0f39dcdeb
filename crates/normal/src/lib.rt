// The normal plan call: the normal plan of a plan and a step, or why there is none.
#![tactic(auto)]

mod normal;

pub use normal::{PlanRefusal, normal_plan};
