//! Keys and values of a bounded length.
ghost use Rattle.std.specs.Prelude.{◌≡◌, ◌<◌, ◌≤◌, [], ◌∷◌, ◌++◌, length, nat_le, Ok, Err, if◌then◌else◌, IfOk};
ghost use Rattle.st_key.specs.Refused.{RefusesLongKey, RefusesLongValue};

use bytes::Bytes;
use std::alloc::{AllocError, Global};
use std::marker::Model;

/// How many bytes a key has at most, as in FoundationDB.
pub const MAX_KEY_LEN: usize = 10_000;

/// How many bytes the end of a range has at most: room for the first key after the longest one.
pub const MAX_END_KEY_LEN: usize = 10_001;

/// How many bytes a value has at most, as in FoundationDB.
pub const MAX_VALUE_LEN: usize = 100_000;

/// A key, or the end of a range of keys: at most [`MAX_END_KEY_LEN`] bytes, ordered byte by byte.
///
/// A clone shares the bytes, and copies none.
#[derive(Debug, Drop, PartialEq, Eq, PartialOrd, Ord)]
pub struct Key {
    bytes: Bytes,
}

impl Model for Key {
    ghost use Rattle.std.specs.Prelude.{◌≤◌, ℕ, List, length};

    ghost Value = { List ℕ };

    ghost view = { λ key. key.bytes };

    ghost use Rattle.st_key.specs.declared.stored.TheConstants.{MAX_END_KEY_LEN};

    ghost invariant = { λ key. length key.bytes ≤ MAX_END_KEY_LEN };

    ghost inverse = { λ bytes. record { bytes = bytes } };
}

/// Why bytes are no key.
#[derive(Clone, Copy, Debug, PartialEq, Eq)]
pub enum KeyRefusal {
    /// More bytes than a key may have: `len` is how many there were.
    KeyTooLong { len: u64 },
    /// No memory was left.
    NoMemory,
}

/// A value: at most [`MAX_VALUE_LEN`] bytes.
///
/// A clone shares the bytes, and copies none.
#[derive(Debug, Drop, PartialEq, Eq)]
pub struct Value {
    bytes: Bytes,
}

impl Model for Value {
    ghost use Rattle.std.specs.Prelude.{◌≤◌, ℕ, List, length};

    ghost Value = { List ℕ };

    ghost view = { λ value. value.bytes };

    ghost use Rattle.st_key.specs.declared.stored.TheConstants.{MAX_VALUE_LEN};

    ghost invariant = { λ value. length value.bytes ≤ MAX_VALUE_LEN };

    ghost inverse = { λ bytes. record { bytes = bytes } };
}

/// Why bytes are no value.
#[derive(Clone, Copy, Debug, PartialEq, Eq)]
pub enum ValueRefusal {
    /// More bytes than a value may have: `len` is how many there were.
    ValueTooLong { len: u64 },
    /// No memory was left.
    NoMemory,
}

impl Key {
    /// A key of these bytes, of which there may be [`MAX_KEY_LEN`].
    pub fn read(alloc: Global, bytes: &[u8]) -> Result<Key, KeyRefusal>
        ensures ok { IfOk result (λ key. key ≡ bytes.now) }
        ensures refused { RefusesLongKey MAX_KEY_LEN (length bytes.now) result }
    {
        Key::bounded(alloc, bytes, MAX_KEY_LEN)
    }

    /// A key of these bytes, of which there may be [`MAX_KEY_LEN`]. It shares them, and takes no
    /// memory.
    pub fn from_bytes(bytes: Bytes) -> Result<Key, KeyRefusal>
        ensures { result ≡ (if nat_le (length bytes) MAX_KEY_LEN then Ok bytes
            else Err (KeyRefusal.KeyTooLong (length bytes))) }
    {
        Key::shared(bytes, MAX_KEY_LEN)
    }

    /// The end of a range, of which [`MAX_END_KEY_LEN`] bytes may be.
    pub fn end(alloc: Global, bytes: &[u8]) -> Result<Key, KeyRefusal>
        ensures ok { IfOk result (λ key. key ≡ bytes.now) }
        ensures refused { RefusesLongKey MAX_END_KEY_LEN (length bytes.now) result }
    {
        Key::bounded(alloc, bytes, MAX_END_KEY_LEN)
    }

    /// The end of a range, of which [`MAX_END_KEY_LEN`] bytes may be. It shares them, and takes no
    /// memory.
    pub fn end_from_bytes(bytes: Bytes) -> Result<Key, KeyRefusal>
        ensures { result ≡ (if nat_le (length bytes) MAX_END_KEY_LEN then Ok bytes
            else Err (KeyRefusal.KeyTooLong (length bytes))) }
    {
        Key::shared(bytes, MAX_END_KEY_LEN)
    }

    fn bounded(alloc: Global, bytes: &[u8], max_len: usize) -> Result<Key, KeyRefusal>
        requires { max_len ≤ MAX_END_KEY_LEN }
        ensures ok { IfOk result (λ key. key ≡ bytes.now) }
        ensures refused { RefusesLongKey max_len (length bytes.now) result }
    {
        if bytes.len() > max_len {
            return Err(KeyRefusal::KeyTooLong {
                len: bytes.len() as u64,
            });
        }
        match Bytes::copy_from_slice(alloc, bytes) {
            Ok(bytes) => Ok(Key { bytes }),
            Err(AllocError) => Err(KeyRefusal::NoMemory),
        }
    }

    fn shared(bytes: Bytes, max_len: usize) -> Result<Key, KeyRefusal>
        requires { max_len ≤ MAX_END_KEY_LEN }
        ensures { result ≡ (if nat_le (length bytes) max_len then Ok bytes
            else Err (KeyRefusal.KeyTooLong (length bytes))) }
    {
        let len = bytes.len();
        if len <= max_len {
            Ok(Key { bytes })
        } else {
            Err(KeyRefusal::KeyTooLong { len: len as u64 })
        }
    }

    /// The bytes of the key.
    pub fn bytes(&self) -> &[u8]
        ensures value { result.now ≡ self.now }
        ensures bound { length self.now ≤ MAX_END_KEY_LEN }
    {
        self.bytes.as_slice()
    }
}

impl Clone for Key {
    ghost is_clone = { λ key copy. copy ≡ key };

    fn clone(&self) -> Result<Key, AllocError> {
        Ok(Key {
            bytes: self.bytes.clone()?,
        })
    }
}

impl Value {
    /// A value of these bytes, of which there may be [`MAX_VALUE_LEN`].
    pub fn read(alloc: Global, bytes: &[u8]) -> Result<Value, ValueRefusal>
        ensures ok { IfOk result (λ value. value ≡ bytes.now) }
        ensures refused { RefusesLongValue MAX_VALUE_LEN (length bytes.now) result }
    {
        if bytes.len() > MAX_VALUE_LEN {
            return Err(ValueRefusal::ValueTooLong {
                len: bytes.len() as u64,
            });
        }
        match Bytes::copy_from_slice(alloc, bytes) {
            Ok(bytes) => Ok(Value { bytes }),
            Err(AllocError) => Err(ValueRefusal::NoMemory),
        }
    }

    /// A value of these bytes, of which there may be [`MAX_VALUE_LEN`]. It copies none of them.
    pub fn from_vec(bytes: Vec<u8>) -> Result<Value, ValueRefusal>
        ensures ok { IfOk result (λ value. value ≡ bytes.items) }
        ensures refused { RefusesLongValue MAX_VALUE_LEN (length bytes.items) result }
    {
        let len = bytes.len();
        if len > MAX_VALUE_LEN {
            return Err(ValueRefusal::ValueTooLong { len: len as u64 });
        }
        match Bytes::from_vec(bytes) {
            Ok(bytes) => Ok(Value { bytes }),
            Err(_) => Err(ValueRefusal::NoMemory),
        }
    }

    /// A value of these bytes, of which there may be [`MAX_VALUE_LEN`]. It shares them, and takes no
    /// memory.
    pub fn from_bytes(bytes: Bytes) -> Result<Value, ValueRefusal>
        ensures { result ≡ (if nat_le (length bytes) MAX_VALUE_LEN then Ok bytes
            else Err (ValueRefusal.ValueTooLong (length bytes))) }
    {
        let len = bytes.len();
        if len <= MAX_VALUE_LEN {
            Ok(Value { bytes })
        } else {
            Err(ValueRefusal::ValueTooLong { len: len as u64 })
        }
    }

    /// The bytes of the value.
    pub fn bytes(&self) -> &[u8]
        ensures value { result.now ≡ self.now }
        ensures bound { length self.now ≤ MAX_VALUE_LEN }
    {
        self.bytes.as_slice()
    }
}

impl Clone for Value {
    ghost is_clone = { λ value copy. copy ≡ value };

    fn clone(&self) -> Result<Value, AllocError> {
        Ok(Value {
            bytes: self.bytes.clone()?,
        })
    }
}

/// The first key after `key`: its bytes, and then the byte 00.
pub fn key_after(alloc: Global, key: &Key) -> Result<Key, AllocError>
    requires { length key.now ≤ MAX_KEY_LEN }
    ensures { IfOk result (λ after. after ≡ key.now ++ 0 ∷ []) }
{
    let mut bytes = Vec::from_slice(alloc, key.bytes())?;
    bytes.push(0)?;
    Ok(Key {
        bytes: Bytes::from_vec(bytes)?,
    })
}
