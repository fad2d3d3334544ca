//! What a life has done, event by event: its state, what its batches sent to the versions above the base, the job of the commit in
//! flight, and what is durable. It has no bodies but laws.
#![tactic(auto)]

mod job;
mod laws;

pub use job::CommitJob;
pub use laws::course_goes_on;
