//! Runs of scripts: lives one after the other on one disk, from the bytes of a script to those of a transcript.
#![tactic(auto)]

mod command;
mod counted;
mod life;
mod lives;
mod opening;
#[cfg(test)]
mod tests;
mod top;

pub use opening::{NotOpened, Opened, begin, open};
pub use top::{Ended, tool, without_words};
