//! A queue of gated frames over the two files of a disk.
#![tactic(auto)]

mod frame;
mod mounting;
mod place;
mod queue;
mod reading;
mod state;
mod writing;

pub use frame::{Frame, Payload, QueueRefusal};
pub use place::Place;
pub use queue::{Queue, QueueMount};
pub use state::State;

#[cfg(test)]
mod failing_tests;
#[cfg(test)]
mod tests;
