//! A place in a log, from which its batches are taken in their order.
#![tactic(auto)]

mod cursor;
#[cfg(test)]
mod tests;

pub use cursor::{Cursor, Popped};
