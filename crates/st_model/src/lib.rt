//! The machine of events that every layer is measured by: its state, its steps, the reply at a
//! place of a trace, polled requests, and the report that a script demands. It has no bodies but
//! laws.
#![tactic(auto)]

mod ending;
mod facts;
mod laws;
mod partition;
mod piece;
mod watch;

pub use ending::{polls_come_to_an_end, schedules_come_to_an_end, schedules_make_a_life};
pub use facts::{
    acts_make_steps, all_but_absent_keys_are_assigned, assigned_keys_are_below_ff,
    assignment_is_of_each_key, drops_are_of_each_key, moves_keep_in_step,
    next_batch_drops_by_its_moves, openings_are_sound, pieces_stay_in_order, reached_keys_are_idle,
    reached_keys_are_in_canonical_form, reached_keys_are_in_their_phases,
    reached_states_keep_the_facts, rest_is_nothing_due, traces_are_legal_to_each_place,
    versions_are_in_order, versions_never_fall, watches_stay_within_their_limit,
};
pub use laws::{
    broken_off_is_a_life, closed_life_is_demanded, life_before_refused_memory_is_demanded,
    next_is_first_left, no_life_is_demanded, plain_steps_are_steps, play_is_a_life,
    schedules_make_one_life,
};
pub use partition::{
    cuts_part_the_keys, first_unreadable_is_least, moves_part_the_keys, one_piece_changes,
    openings_part_the_keys, phases_change_in_place, pieces_are_found, pieces_change_at_a_place,
    pieces_have_all_keys,
};
pub use piece::{Phase, Piece};
pub use watch::WatchState;
