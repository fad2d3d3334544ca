//! Operations, and why bytes are no list of them.
ghost use Rattle.std.specs.Prelude.{◌≡◌};
ghost use Rattle.st_ops.specs.declared.op.OpsRefusal.TheVariants.{NoMemory};

use bytes::Bytes;
use std::alloc::{AllocError, AllocFailed};

/// One operation of a payload.
///
/// A clone shares the bytes of keys and values.
#[derive(Debug, Drop, PartialEq, Eq)]
pub enum Op {
    /// The key has the value from now on.
    Set(Bytes, Bytes),
    /// The keys from the first up to, and without, the second have no value from now on.
    Clear(Bytes, Bytes),
    /// A pair of a snapshot: the key has the value, and no key between the item before and this one has any.
    SnapItem(Bytes, Bytes),
    /// The snapshot's end: no key above its last item has a value.
    SnapEnd,
    /// The payload's end.
    Commit,
}

impl Clone for Op {
    ghost is_clone = { λ op copy. copy ≡ op };

    fn clone(&self) -> Result<Op, AllocError> {
        Ok(match self {
            Op::Set(key, value) => Op::Set(key.clone()?, value.clone()?),
            Op::Clear(begin, end) => Op::Clear(begin.clone()?, end.clone()?),
            Op::SnapItem(key, value) => Op::SnapItem(key.clone()?, value.clone()?),
            Op::SnapEnd => Op::SnapEnd,
            Op::Commit => Op::Commit,
        })
    }
}

/// Why bytes are no list of operations.
#[derive(Clone, Copy, Debug, PartialEq, Eq)]
pub enum OpsRefusal {
    /// The bytes break the grammar: `at` is the place of the first operation's tag that does, or
    /// the number of bytes where they end between two operations and more must come.
    BadOps { at: u64 },
    /// No memory was left.
    NoMemory,
}

impl From<AllocError> for OpsRefusal {
    ghost from_gives = { λ _ why. why ≡ NoMemory };

    fn from(_error: AllocError) -> OpsRefusal {
        OpsRefusal::NoMemory
    }
}

impl<T: Drop> From<AllocFailed<T>> for OpsRefusal {
    ghost from_gives = { λ _ why. why ≡ NoMemory };

    fn from(_error: AllocFailed<T>) -> OpsRefusal {
        OpsRefusal::NoMemory
    }
}
