//! The pieces of the keys that a storage server has, fetches or has lost, each in its phase.
#![tactic(auto)]

mod moves;
mod opening;
mod phases;
mod refusal;
mod served;
mod shard_map;
mod slots;
#[cfg(test)]
mod tests;

pub use refusal::ShardRefusal;
pub use shard_map::ShardMap;
pub use st_model::{Phase, Piece};
