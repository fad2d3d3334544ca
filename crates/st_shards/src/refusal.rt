//! Why a change of the map is refused.
ghost use Rattle.std.specs.Prelude.{◌≡◌, false, Some};
ghost use Rattle.st_shards.specs.Refusals.{Tells};

use st_model::{Phase, Piece};
use std::alloc::AllocError;

/// Why a change of the map was refused.
#[derive(Debug, Drop, PartialEq, Eq)]
pub enum ShardRefusal {
    /// No piece begins there that this is due for: `phase` is what the key is in.
    NotDue { phase: Phase },
    /// No memory was left.
    NoMemory,
}

impl From<AllocError> for ShardRefusal {
    ghost use Rattle.std.specs.Prelude.{◌≡◌};
    ghost use Rattle.st_shards.specs.declared.refusal.ShardRefusal.TheVariants.{NoMemory};

    ghost from_gives = { λ _ why. why ≡ NoMemory };

    fn from(_error: AllocError) -> ShardRefusal {
        ShardRefusal::NoMemory
    }
}

/// Nothing is due for the piece: its phase is told, unless there is no memory for it.
pub fn not_due(piece: &Piece) -> ShardRefusal
    ensures { Tells false (Some piece.now.phase) result }
{
    match piece.phase.clone() {
        Ok(phase) => ShardRefusal::NotDue { phase },
        Err(_) => ShardRefusal::NoMemory,
    }
}
