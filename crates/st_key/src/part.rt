//! The stored pairs of a server's state.

/// Which part of a server's stored state a pair is.
#[derive(Clone, Copy, Debug, PartialEq, Eq)]
pub enum MetaPart {
    /// The durable version.
    Version,
    /// The assigned ranges.
    Assigned,
    /// The available ranges.
    Available,
    /// Anything else.
    Other,
}
