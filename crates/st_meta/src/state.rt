//! The state, and why pairs are none.
ghost use Rattle.std.specs.Prelude.{◌≡◌};
ghost use Rattle.st_meta.specs.declared.state.MetaRefusal.TheVariants.{NoMemory};

use st_key::{MetaPart, Ranges};
use std::alloc::{AllocError, AllocFailed};

/// What a server stores beside its users' pairs.
#[derive(Debug, Drop)]
pub struct Meta {
    /// The durable version.
    pub version: u64,
    /// The keys that are assigned to the server at that version.
    pub assigned: Ranges,
    /// The keys among them whose pairs stand in the map.
    pub available: Ranges,
}

/// Why pairs are no state.
#[derive(Clone, Copy, Debug, PartialEq, Eq)]
pub enum MetaRefusal {
    /// This is the first part of it that they aren't.
    BadMeta { which: MetaPart },
    /// No memory was left.
    NoMemory,
}

impl From<AllocError> for MetaRefusal {
    ghost from_gives = { λ _ why. why ≡ NoMemory };

    fn from(_error: AllocError) -> MetaRefusal {
        MetaRefusal::NoMemory
    }
}

impl<T: Drop> From<AllocFailed<T>> for MetaRefusal {
    ghost from_gives = { λ _ why. why ≡ NoMemory };

    fn from(_error: AllocFailed<T>) -> MetaRefusal {
        MetaRefusal::NoMemory
    }
}
