//! The top call: one run of the program, over devices that the caller hands in.
#![tactic(auto)]

mod generation;
mod jobs;
mod load;
mod printing;
mod runs;
mod status;
mod summaries;
mod verification;

pub use jobs::{ConsultJob, Job, Options, job_of, log_path};
pub use runs::run;
pub use status::Status;
