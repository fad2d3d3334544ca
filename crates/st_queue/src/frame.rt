// Frames, and what a queue refuses.
use std::alloc::{AllocError, AllocFailed};
use std::marker::Model;

/// The bytes of a frame, seen as a list.
#[derive(Debug, Drop)]
pub struct Payload {
    bytes: Vec<u8>,
}

impl Model for Payload {
    ghost use Rattle.std.specs.Prelude.{List, ℕ};

    ghost Value = { List ℕ };

    ghost view = { λ payload. payload.bytes.items };
}

impl Payload {
    ghost use Rattle.std.specs.Prelude.{◌≡◌, ◌↔◌, [], length, IsTrue};

    /// A payload of these bytes.
    pub fn new(bytes: Vec<u8>) -> Self
        ensures { result ≡ bytes.items }
    {
        Payload { bytes }
    }

    /// The bytes.
    pub fn as_slice(&self) -> &[u8]
        ensures { result.now ≡ self.now }
    {
        &self.bytes
    }

    /// How many bytes there are.
    pub fn len(&self) -> u64
        ensures { result ≡ length self.now }
    {
        self.bytes.len() as u64
    }

    /// Whether there is none.
    pub fn is_empty(&self) -> bool
        ensures { IsTrue result ↔ (self.now ≡ []) }
    {
        self.bytes.is_empty()
    }

    /// The bytes, handed out.
    pub fn into_bytes(self) -> Vec<u8>
        ensures { result.items ≡ self }
    {
        self.bytes
    }
}

/// A frame of a queue.
#[derive(Debug, Drop)]
pub struct Frame {
    /// Its number: one more than that of the frame before it.
    pub seq: u64,
    /// The file that it stands in.
    pub file: u8,
    /// The place of its gate there.
    pub at: u64,
    pub payload: Payload,
}

/// Why a call of a queue was not carried out.
#[derive(Clone, Copy, Debug, PartialEq, Eq)]
pub enum QueueRefusal {
    /// The disk failed in this call, and has failed so often. The disk is to be mounted again.
    DiskFault { faults: u64 },
    /// A call before this one answered `DiskFault`, with this count.
    Broken { faults: u64 },
    /// The files have no reading, from this place of this file on.
    Damaged { file: u8, at: u64 },
    /// The next frame is past the limit, with its end, or its generation or number.
    Full { length: u64, limit: u64 },
    /// Want of memory.
    NoMemory,
}

impl From<AllocError> for QueueRefusal {
    ghost use Rattle.std.specs.Prelude.{◌≡◌};
    ghost use Rattle.st_queue.specs.declared.frame.QueueRefusal.TheVariants.{NoMemory};

    ghost from_gives = { λ _ refusal. refusal ≡ NoMemory };

    fn from(_: AllocError) -> Self {
        QueueRefusal::NoMemory
    }
}

impl<T: Drop> From<AllocFailed<T>> for QueueRefusal {
    ghost use Rattle.std.specs.Prelude.{◌≡◌};
    ghost use Rattle.st_queue.specs.declared.frame.QueueRefusal.TheVariants.{NoMemory};

    ghost from_gives = { λ _ refusal. refusal ≡ NoMemory };

    fn from(_: AllocFailed<T>) -> Self {
        QueueRefusal::NoMemory
    }
}
