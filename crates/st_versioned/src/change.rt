//! What versions change.
use st_key::{Key, Range, Value};

/// A change of what is decided.
#[derive(Debug, Drop, PartialEq, Eq)]
pub enum Change {
    /// The key has the value.
    Set(Key, Value),
    /// The keys of the range have no value.
    Clear(Range),
    /// The keys of the range are the base's to tell.
    Erase(Range),
}
