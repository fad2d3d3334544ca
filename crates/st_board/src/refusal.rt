//! Why a board refuses a call.
ghost use Rattle.std.specs.Prelude.{◌≡◌};
ghost use Rattle.st_board.specs.declared.refusal.ApplyRefusal.TheVariants as apply;

use st_key::Key;
use std::alloc::{AllocError, AllocFailed};

/// Why a batch isn't applied.
#[derive(Clone, Copy, Debug, PartialEq, Eq)]
pub enum ApplyRefusal {
    /// Its version isn't above the newest, which is told.
    NotNext { newest: u64 },
    /// No memory was left.
    NoMemory,
}

/// Why a version isn't shown.
#[derive(Clone, Copy, Debug)]
pub enum ViewRefusal<'a> {
    /// It is below the oldest version that can be read, which is told.
    TooOld { oldest: u64 },
    /// It is above the newest version that has come, which is told.
    NotYet { newest: u64 },
    /// This key is the least of the range that isn't served.
    WrongShard { at: &'a Key },
    /// No memory was left.
    NoMemory,
}

impl From<AllocError> for ApplyRefusal {
    ghost from_gives = { λ _ why. why ≡ apply.NoMemory };

    fn from(_error: AllocError) -> ApplyRefusal {
        ApplyRefusal::NoMemory
    }
}

impl<T: Drop> From<AllocFailed<T>> for ApplyRefusal {
    ghost from_gives = { λ _ why. why ≡ apply.NoMemory };

    fn from(_error: AllocFailed<T>) -> ApplyRefusal {
        ApplyRefusal::NoMemory
    }
}
