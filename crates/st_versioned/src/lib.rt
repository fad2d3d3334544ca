//! The versions of a map above a base: what each of them decides, and the map that it is over the base.
#![tactic(auto)]

mod bound;
mod change;
mod changing;
mod cut;
mod entry;
mod kept;
mod laws;
mod nearest;
mod overlay;
mod root;
#[cfg(test)]
mod tests;
mod window;

pub use change::Change;
pub use entry::{Dated, Entry};
pub use laws::{
    abandoning_undoes, above_a_base_is_the_same_map, decisions_above_stay, what_is_written_decides,
};
pub use overlay::Overlay;
pub use root::Root;
pub use window::Window;
