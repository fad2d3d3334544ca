//! Pieces of the keys, each with what the server does with it.
use st_key::Key;

/// What the server does with a piece of the keys.
#[derive(Clone, Debug, Drop, PartialEq, Eq)]
pub enum Phase {
    /// It isn't the server's, since the version that took it away.
    Absent {
        since: u64,
    },
    /// It is the server's again, and waits until what took it away is durable.
    WaitPrevious {
        since: u64,
    },
    /// It is fetched at a version: up to `upto`, of which the flight has taken the keys up to
    /// `taken`, and the base has those up to `in_base`.
    Fetching {
        at: u64,
        upto: Key,
        taken: Key,
        in_base: Key,
    },
    /// It was fetched and sent to the versioned map at a version that isn't durable yet.
    Waiting {
        transferred: u64,
    },
    /// It is served.
    Readable,
}

/// The keys from `begin` up to, and without, `end`, and their phase.
#[derive(Clone, Debug, Drop, PartialEq, Eq)]
pub struct Piece {
    pub begin: Key,
    pub end: Key,
    pub phase: Phase,
}
