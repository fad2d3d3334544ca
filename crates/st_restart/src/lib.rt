//! Opening a server's store: what its files hold, and whether it is that of a log.
#![tactic(auto)]

mod agreement;
mod laws;
mod refusal;
mod reopening;
#[cfg(test)]
mod tests;

pub use agreement::agree;
pub use laws::{files_open_as_they_mount, stored_ranges_are_of_users, stores_open};
pub use refusal::AgreeRefusal;
pub use reopening::reopen;
