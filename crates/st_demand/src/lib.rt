//! Lives with commits and kills, of a server that owns all keys and whose log moves none: what their
//! schedules make of them is what their scripts demand. It has no bodies but laws.
#![tactic(auto)]

mod laws;

pub use laws::{
    lives_behind_served_ones_are_served, schedules_are_demanded, schedules_end_in_their_states,
    served_states_hold_all_keys,
};
