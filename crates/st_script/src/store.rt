//! Keeps the keys and values of a script in a few buffers.
ghost use Rattle.st_script.specs.Fields.{bytes_field};
ghost use Rattle.st_script.specs.Outcome.{Says};

use crate::field::is_word;
use crate::refusal::LineRefusal;
use bytes::{Bytes, BytesMut};
use st_fold::Kind;
use std::alloc::{AllocError, Global};

/// How many bytes a buffer has, unless one word needs more. It is filled with zeros first, so that one for a whole script
/// would cost as much where little is decoded.
const BUFFER: usize = 1_048_576;

/// A buffer that hex is decoded into, and after it a new one. What it hands out are slices of them, which share them.
#[derive(Drop)]
pub(crate) struct Store {
    alloc: Global,
    buffer: BytesMut,
}

impl Store {
    /// A store for a script of this length: two digits make a byte.
    pub(crate) fn new(alloc: Global, length: usize) -> Result<Store, AllocError> {
        Ok(Store {
            alloc,
            buffer: BytesMut::with_capacity(alloc, BUFFER.min(length / 2))?,
        })
    }

    /// The bytes that a word stands for: none for `-`, else those of its hex.
    pub(crate) fn decode(&mut self, word: &[u8]) -> Result<Bytes, LineRefusal>
        ensures { Says result (bytes_field word.now) }
    {
        if is_word(word, b"-") {
            return Ok(Bytes::new());
        }
        let count = word.len() / 2;
        self.buffer.clear();
        if self.buffer.capacity() < count {
            self.buffer = BytesMut::with_capacity(self.alloc, BUFFER.max(count))?;
        }
        self.buffer.reserve(count)?;
        self.buffer.advance_mut(count);
        if hex::decode_to_slice(word, self.buffer.as_mut_slice()).is_err() {
            return Err(LineRefusal::Bad(Kind::Hex));
        }
        Ok(self.buffer.freeze_to(count)?)
    }
}
