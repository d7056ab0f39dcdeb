// The sensor's side of a request: the table of the services, the refusals, and the answer into a lent buffer.
#![tactic(auto)]

mod counts;
mod requests;
mod table;

pub use requests::request;

// The services of the table, and what stands for a code that is not in it (rule 4.3). Stays a variant, and no Option around the others: what is
// promised of the table is said of each Service, this one too.
#[derive(Clone, Copy)]
pub enum Service {
    GetStatus,
    GetSignal,
    SetSignal,
    SetConfig,
    GetConfig,
    SetFunction,
    GetFunction,
    GetProfile,
    CancelProfile,
    DoReset,
    TransIdle,
    TransRotate,
    TransMeasure,
    SetRotateDirection,
    SetReflectorConfig,
    GetRotateDirection,
    GetReflectorConfig,
    GetMixedProfile,
    CancelMixedProfile,
    SavePermanent,
    Unknown,
}

// What becomes of a wrong number of words: it is refused, or answered, by the response code and then no value so many times (rule 4.25). Stays
// an enum of its own: NoValues(3) in a line of the table says what Some(3) would not.
#[derive(Clone, Copy)]
pub enum Miscount {
    Refused,
    NoValues(usize),
}
