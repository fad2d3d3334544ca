//! A durable map of byte strings: a queue of operations over a disk, and the map that they make.
#![tactic(auto)]

mod engine;
mod laws;
mod map;
mod recovery;
mod snapshot;
mod writing;

pub use engine::Engine;
pub use laws::{
    commits_make_four_to_ten_calls, mounted_maps_are_in_order, operations_change_each_key,
};
pub use st_queue::{QueueMount as EngineMount, QueueRefusal as EngineRefusal};

#[cfg(test)]
mod tests;
