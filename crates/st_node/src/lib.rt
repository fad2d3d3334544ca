//! Nodes of trees that share what they have: each node is made by a counted step, and a key is seen by one alone.
#![tactic(auto)]

mod keys;
mod node;
mod steps;
#[cfg(test)]
mod tests;

pub use keys::{key_of, look};
pub use node::{Keyed, Node, Tree, leaf, make};
pub use steps::Steps;
