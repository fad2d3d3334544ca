//! What is written of keys.
use bytes::Bytes;

/// What is written at a key.
#[derive(Debug, Drop)]
pub enum Entry {
    /// The key has the value.
    Value(Bytes),
    /// The keys from it up to, and without, this one have no value.
    ClearTo(Bytes),
}

/// What is written at a key, and the version that wrote it.
#[derive(Debug, Drop)]
pub struct Dated {
    pub version: u64,
    pub entry: Entry,
}
