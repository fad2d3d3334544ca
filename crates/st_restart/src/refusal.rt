//! Why a store isn't that of a log.
ghost use Rattle.std.specs.Prelude.{◌≡◌};
ghost use Rattle.st_restart.specs.declared.refusal.AgreeRefusal.TheVariants.{NoMemory};

use st_fold::ForeignPart;
use std::alloc::{AllocError, AllocFailed};

/// Why a store isn't that of a log.
#[derive(Debug, Drop)]
pub enum AgreeRefusal {
    /// This is the first part of it that isn't the log's.
    Foreign(ForeignPart),
    /// No memory was left.
    NoMemory,
}

impl From<AllocError> for AgreeRefusal {
    ghost from_gives = { λ _ why. why ≡ NoMemory };

    fn from(_error: AllocError) -> AgreeRefusal {
        AgreeRefusal::NoMemory
    }
}

impl<T: Drop> From<AllocFailed<T>> for AgreeRefusal {
    ghost from_gives = { λ _ why. why ≡ NoMemory };

    fn from(_error: AllocFailed<T>) -> AgreeRefusal {
        AgreeRefusal::NoMemory
    }
}
