//! A reader's request, polled until it is answered, with the answers read from the views of a board.
#![tactic(auto)]

mod logs;
mod poll;
mod rows;
mod search;
mod select;
mod session;
#[cfg(test)]
mod tests;
mod walk;

pub use logs::logs_are_short;
pub use poll::{Looked, Poll};
pub use session::Session;
