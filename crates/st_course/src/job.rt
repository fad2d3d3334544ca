//! What a commit is to make durable.
use st_list::Items;
use st_ops::Op;

/// The job of a commit that is in flight.
#[derive(Debug, Drop)]
pub struct CommitJob {
    /// The version that it makes durable.
    pub version: u64,
    /// What it changes of the durable pairs: sets and clears.
    pub ops: Items<Op>,
}
