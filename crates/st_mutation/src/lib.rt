//! The log's content: mutations of keys, moves of shards, and batches of them.
#![tactic(auto)]

mod batch;
mod clipping;
mod laws;
#[cfg(test)]
mod tests;

pub use batch::{Batch, Move, Mutation};
pub use clipping::clip;
pub use laws::clip_is_the_part_inside;
