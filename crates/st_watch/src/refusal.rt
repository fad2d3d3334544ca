//! Why a watch is refused.
use st_key::Key;
use std::alloc::AllocError;

/// Why a watch was refused.
#[derive(Debug, Drop, PartialEq, Eq)]
pub enum WatchRefusal {
    /// The key can't be served. A [`WatchSet`](crate::WatchSet) never answers so, since it knows of no shards.
    WrongShard { at: Key },
    /// As many watches stand as may.
    TooMany { limit: u32 },
    /// No memory was left.
    NoMemory,
}

impl From<AllocError> for WatchRefusal {
    ghost use Rattle.std.specs.Prelude.{◌≡◌};
    ghost use Rattle.st_watch.specs.declared.refusal.WatchRefusal.TheVariants.{NoMemory};

    ghost from_gives = { λ _ why. why ≡ NoMemory };

    fn from(_error: AllocError) -> WatchRefusal {
        WatchRefusal::NoMemory
    }
}
