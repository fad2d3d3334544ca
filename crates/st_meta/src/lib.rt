//! The state that a server stores in its own map: its durable version, and what keys are assigned and available to it.
#![tactic(auto)]

mod laws;
mod reading;
mod state;
#[cfg(test)]
mod tests;
mod writing;

pub use laws::{stored_is_read, written_is_stored};
pub use reading::of_pairs;
pub use state::{Meta, MetaRefusal};
pub use writing::to_ops;
