//! Watches of keys: each waits until its key has another value than it was given, or is taken away.
#![tactic(auto)]

mod entries;
mod entry;
mod laws;
mod places;
mod refusal;
#[cfg(test)]
mod tests;
mod watch_set;

pub use laws::{
    batches_move_watches_on, first_above_is_next, new_watches_stand, waiting_keeps_its_value,
};
pub use refusal::WatchRefusal;
pub use st_model::WatchState;
pub use watch_set::WatchSet;
