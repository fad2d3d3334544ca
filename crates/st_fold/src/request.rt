//! Requests of readers and their answers.
use st_key::{Key, Range, Value};
use st_list::Items;

/// What a reader asks.
#[derive(Debug, Drop)]
pub enum Ask {
    /// The value of a key at a version.
    Get(Key, u64),
    /// The pairs of a range at a version, in key order or the reverse. Pairs are taken while fewer
    /// than `rows` were taken, and while those have fewer than `bytes` bytes of keys and values.
    Rows {
        range: Range,
        rows: u32,
        bytes: u32,
        reverse: bool,
        version: u64,
    },
    /// A key of a range at a version, found from the number of the range's keys that lie below
    /// `key`, or that lie at or below it: the key whose place is that number and `offset`.
    Select {
        key: Key,
        or_equal: bool,
        offset: i32,
        range: Range,
        version: u64,
    },
    /// The first version at which the value of a key isn't this one.
    Watch(Key, Option<Value>),
}

/// A request. Requests are numbered from 1 over the whole script.
#[derive(Debug, Drop)]
pub struct Request {
    pub number: u64,
    /// The reader that asks, from 1 on, or 0 for a request that is answered at the end of its life.
    pub reader: u32,
    pub ask: Ask,
}

/// Where a selector leads inside its range.
#[derive(Debug, Drop)]
pub enum Found {
    /// To this key.
    Key(Key),
    /// Below the first key of the range.
    Before,
    /// Above the last key of the range.
    After,
}

/// What a request is answered. The refusals are FoundationDB's `transaction_too_old` (1007),
/// `future_version` (1009) and `wrong_shard_server` (1001), and this project's own
/// `too_many_watches`.
#[derive(Debug, Drop)]
pub enum Answer {
    /// The key's value at the version.
    Value(Value),
    /// The key has no value at the version.
    Absent,
    /// Pairs of the range, and whether it has any that weren't taken.
    Rows {
        rows: Items<(Key, Value)>,
        more: bool,
    },
    /// Where the selector leads.
    KeyIs(Found),
    /// The watch's key had another value at this version.
    Fired {
        version: u64,
    },
    /// The watch's key had the value at each version that came.
    Waiting,
    /// The version is below the oldest readable one.
    TooOld {
        oldest: u64,
    },
    /// The version had not come after this number of polls.
    FutureVersion {
        newest: u64,
        polls: u32,
    },
    /// The first of the asked keys that the server can't serve.
    WrongShard {
        at: Key,
    },
    /// As many watches stand as may.
    TooManyWatches {
        limit: u32,
    },
    /// The life ended before the request was answered.
    Stopped,
}
