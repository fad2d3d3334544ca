//! What a run reports of its lives.
use crate::{Answer, Kind};
use bytes::Bytes;
use st_key::{Key, MetaPart, Value};
use st_list::Items;

/// One entry of the trace of a life.
#[derive(Debug, Drop)]
pub enum Event {
    /// The life opened at this durable version.
    Opened(u64),
    /// The batch of this version was applied.
    Applied(u64),
    /// The piece that begins at the key is fetched at a version.
    FetchStart(Key, u64),
    /// A block of the piece that begins at the first key came, up to the second.
    Block(Key, Key),
    /// The piece that begins at the first key was cut at the second, to be fetched again from there.
    Split(Key, Key),
    /// A commit of this version began.
    Began(u64),
    /// The commit of this version is durable.
    Durable(u64),
    /// The watch of this number was registered, of a key and a value.
    Watched(u64, Key, Option<Value>),
    /// The watch of this number was released.
    Unwatched(u64),
    /// The life was closed.
    Closed,
    /// The life was killed.
    Killed,
}

/// The answer of one request. A place is the number of events that stood when the poll was made.
#[derive(Debug, Drop)]
pub struct Answered {
    /// The request's number.
    pub request: u64,
    /// The places of its polls, in order.
    pub places: Items<u64>,
    pub answer: Answer,
}

/// How a life ended.
#[derive(Clone, Copy, Debug, PartialEq, Eq)]
pub enum Ending {
    Closed,
    Killed,
    Faulted,
}

/// One life of the server, from its opening to its end.
#[derive(Debug, Drop)]
pub struct Life {
    /// The durable version that it opened at.
    pub opened: u64,
    /// Its events, the opening first.
    pub trace: Items<Event>,
    /// The answers of its requests, in order of their numbers.
    pub answers: Items<Answered>,
    pub ending: Ending,
}

/// What of a store's files can't be read.
#[derive(Clone, Copy, Debug, PartialEq, Eq)]
pub enum Damage {
    /// This file, at this place.
    File { file: u8, at: u64 },
    /// The stored pairs of the server's state.
    Meta { which: MetaPart },
}

/// What of a store isn't that of the script's log.
#[derive(Debug, Drop)]
pub enum ForeignPart {
    /// The durable version.
    Version,
    /// The assigned ranges.
    Assigned,
    /// The value of this key.
    Key(Bytes),
}

/// Why a run ended early.
#[derive(Debug, Drop)]
pub enum Fault {
    /// The words of the command line are no command.
    Words,
    /// A line of the script, counted from 1, breaks the grammar or a limit. Line 0 is the whole.
    Script { line: u64, kind: Kind },
    /// The source failed; the count of its faults.
    Read { faults: u64 },
    /// The disk failed; the count of its faults.
    Device { faults: u64 },
    /// The source of fetches failed; the count of its faults.
    Peer { faults: u64 },
    /// The store can't be read.
    Damaged(Damage),
    /// Memory was refused.
    Memory,
    /// A queue file would have more bytes than it may.
    Full { length: u64, limit: u64 },
    /// The store is that of another log.
    Foreign(ForeignPart),
}
