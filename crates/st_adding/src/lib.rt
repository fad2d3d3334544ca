//! What is kept of pieces of the keys while they are fetched: the updates that come meanwhile, and the fetched rows.
#![tactic(auto)]

mod blocks;
mod held;
mod laws;
#[cfg(test)]
mod tests;

pub use blocks::{Block, Blocks};
pub use held::Held;
pub use laws::{
    fetched_rows_are_those_of_a_map, held_updates_are_those_of_the_log, rows_are_a_map,
};
