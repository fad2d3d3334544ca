//! Sorted maps that share what they have, and change without a change to those that share it.
#![tactic(auto)]

mod cut;
mod insert;
mod iter;
mod join;
mod laws;
mod search;
#[cfg(test)]
mod tests;
mod tree;
mod way;

pub use iter::Iter;
pub use laws::{neighbours_are_nearest, pairs_are_a_map};
pub use st_node::Steps;
pub use tree::PTree;
