//! The script that a run plays.
use crate::Request;
use st_key::Ranges;
use st_list::Items;
use st_mutation::Batch;

/// The numbers that a script sets.
#[derive(Clone, Copy, Debug, PartialEq, Eq)]
pub struct Settings {
    /// How many versions below the newest stay readable.
    pub window: u64,
    /// After how many polls a version that has not come is refused.
    pub patience: u32,
    /// The seed of the tree's priorities.
    pub seed: u64,
    /// From how many bytes on a queue file is left for the other.
    pub swap: u64,
    /// How many bytes a queue file may have.
    pub limit: u64,
    /// How many bytes of snapshot a commit writes beside its own.
    pub quota: u64,
    /// How many rows a fetched block may have.
    pub block: u32,
    /// How many watches may stand.
    pub watches: u32,
}

/// One step that a life may be told to take.
#[derive(Clone, Copy, Debug, PartialEq, Eq)]
pub enum Act {
    Apply,
    Start,
    Block,
    Began,
    Durable,
}

/// A step of a life's written schedule.
#[derive(Clone, Copy, Debug, PartialEq, Eq)]
pub enum Do {
    Act(Act),
    /// The beginning of a commit, and then its end.
    Flush,
    /// One poll of this reader.
    Poll(u32),
}

/// What one life is to do.
#[derive(Debug, Drop)]
pub struct LifePlan {
    /// The greatest version that it applies.
    pub upto: u64,
    /// The requests of its readers, in order of their numbers.
    pub asks: Items<Request>,
    /// The requests that are answered at its end.
    pub lasts: Items<Request>,
    pub dos: Items<(Do, u64)>,
    /// Before which blocks the source of fetches becomes too old.
    pub cuts: Items<u64>,
    /// Which blocks fail.
    pub peerfails: Items<u64>,
    /// How many device calls pass before the life is killed, and what the crash leaves.
    pub kill: Option<(u64, u64)>,
}

/// A whole script: settings, the ranges that the server owns at first, the log and the lives.
#[derive(Debug, Drop)]
pub struct Script {
    pub settings: Settings,
    pub own: Ranges,
    pub log: Items<Batch>,
    pub lives: Items<LifePlan>,
}

/// Why a line is no line of a script.
#[derive(Clone, Copy, Debug, PartialEq, Eq)]
pub enum Kind {
    /// The first line isn't `storage 1`.
    Head,
    /// An unknown word, or a wrong number of words.
    Word,
    /// No number, or one out of its bounds.
    Number,
    /// No bytes in hex.
    Hex,
    /// A key that is too long, or at or above ff.
    Key,
    /// A value that is too long.
    Value,
    /// No range, or one that ends above ff.
    Range,
    /// A version that doesn't rise.
    Version,
    /// A line that isn't allowed at its place.
    Order,
    /// More of something than a script may have.
    Limit,
    /// The script stops before its `end`.
    End,
    /// More bytes than a script may have.
    Long,
    /// A line of a form that this program doesn't play yet.
    Unbuilt,
}
