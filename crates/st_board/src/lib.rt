//! The board of a storage server: the versions that it can read, over its durable base, and the trace of what it did.
#![tactic(auto)]

mod board;
mod committing;
mod opening;
mod refusal;
mod storing;
mod story;
#[cfg(test)]
mod tests;
mod versions;
mod view;

pub use board::Board;
pub use opening::Opening;
pub use refusal::{ApplyRefusal, ViewRefusal};
pub use st_course::CommitJob;
pub use story::Story;
pub use view::View;
