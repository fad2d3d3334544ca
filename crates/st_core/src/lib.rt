//! A storage server: a board over an engine, driven by acts.
#![tactic(auto)]

mod refusal;
mod server;
#[cfg(test)]
mod tests;

pub use refusal::DriveRefusal;
pub use server::{Parts, Server};
pub use st_fold::Act;
