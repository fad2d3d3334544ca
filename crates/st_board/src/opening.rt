//! What a board opens with.
use bytes::Bytes;
use st_key::{Range, Ranges};
use st_ptree::PTree;

/// The durable state that a board opens with.
#[derive(Drop)]
pub struct Opening {
    /// Its version.
    pub version: u64,
    /// The keys that are assigned to the server at that version.
    pub assigned: Ranges,
    /// Those of them whose pairs the base has.
    pub available: Ranges,
    /// The pairs of the available keys.
    pub base: PTree<Bytes>,
    /// What the first commit clears: all other keys, where the store has frames, and nothing in a fresh one.
    pub clears: Vec<Range>,
}
