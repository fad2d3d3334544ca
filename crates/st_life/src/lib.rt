//! The lives of a script, played one after the other on two files, and the readers of a life.
#![tactic(auto)]

mod asked;
mod copying;
mod ended;
mod laws;
mod life;
mod readers;
mod running;
#[cfg(test)]
mod tests;

pub use ended::LifeEnded;
pub use laws::{
    commits_are_synced, files_change_by_their_calls, lives_are_demanded, lives_are_played,
    lives_are_the_only_ones, whole_lives_leave_their_commits,
};
pub use life::life_plain;
pub use readers::Readers;
