//! The report of a run, and its text.
#![tactic(auto)]

mod faults;
mod laws;
mod lines;
mod report;
#[cfg(test)]
mod tests;
mod transcript;
mod writer;

pub use laws::forms_tell_the_same;
pub use report::{Form, Report};
pub use transcript::text;
