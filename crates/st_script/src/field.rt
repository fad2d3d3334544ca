//! Reads single words.
ghost use Rattle.std.specs.Prelude.{◌≡◌, ◌≤◌, Ok, Err, IfOk, if◌then◌else◌, length, nat_le};
ghost use Rattle.st_key.specs.Spans.{key_less};
ghost use Rattle.st_script.specs.Fields.{is_word, begins_with, number_of, number_field, offset_field, version_field, key_field, value_field, range_of, range_about};
ghost use Rattle.st_script.specs.Outcome.{Says};

use crate::refusal::LineRefusal;
use crate::store::Store;
use bytes::Bytes;
use st_fold::Kind;
use st_key::{Key, KeyRefusal, Range, Value};

/// The greatest version.
pub(crate) const MAX_VERSION: u64 = 9_223_372_036_854_775_807;

/// How many calls of a life's disk may pass before a kill.
pub(crate) const MAX_CALLS: u64 = 9_223_372_036_854_775_807;

/// How many digits a number has at most.
const MAX_DIGITS: usize = 20;

/// How far an offset may lead, up or down.
const MAX_OFFSET: u32 = 1_000;

pub(crate) fn is_word(word: &[u8], text: &[u8]) -> bool
    ensures { result ≡ is_word word.now text.now }
{
    word == text
}

/// Whether the word begins with this byte.
pub(crate) fn begins_with(word: &[u8], byte: u8) -> bool
    ensures { result ≡ begins_with byte word.now }
{
    matches!(word, [first, ..] if *first == byte)
}

/// A number from `low` to `high`.
pub(crate) fn number(word: &[u8], low: u64, high: u64) -> Result<u64, Kind>
    ensures value { result ≡ number_field low high word.now }
    ensures bounds { IfOk result (λ number. (low ≤ number) × (number ≤ high)) }
{
    match decimal(word) {
        Some(number) if low <= number && number <= high => Ok(number),
        _ => Err(Kind::Number),
    }
}

/// A number from `low` to `high`.
pub(crate) fn small_number(word: &[u8], low: u32, high: u32) -> Result<u32, Kind>
    ensures value { result ≡ number_field low high word.now }
    ensures bounds { IfOk result (λ number. (low ≤ number) × (number ≤ high)) }
{
    Ok(number(word, u64::from(low), u64::from(high))? as u32)
}

/// A whole number from -1,000 to 1,000.
pub(crate) fn offset(word: &[u8]) -> Result<i32, Kind>
    ensures { result ≡ offset_field word.now }
{
    match word {
        [b'-', digits @ ..] => Ok(-(small_number(digits, 0, MAX_OFFSET)? as i32)),
        digits => Ok(small_number(digits, 0, MAX_OFFSET)? as i32),
    }
}

/// A version, which follows a first byte.
pub(crate) fn version(word: &[u8]) -> Result<u64, Kind>
    ensures { result ≡ version_field word.now }
{
    match word {
        [_, digits @ ..] => number(digits, 0, MAX_VERSION),
        [] => Err(Kind::Number),
    }
}

fn decimal(word: &[u8]) -> Option<u64>
    ensures { result ≡ number_of word.now }
{
    if word.is_empty() || word.len() > MAX_DIGITS {
        return None;
    }
    let mut number = 0u64;
    for byte in word {
        if !byte.is_ascii_digit() {
            return None;
        }
        number = number
            .checked_mul(10)?
            .checked_add(u64::from(*byte - b'0'))?;
    }
    Some(number)
}

fn is_less(a: &[u8], b: &[u8]) -> bool
    ensures { result ≡ key_less a.now b.now }
{
    a < b
}

/// A key that is stored: at most 10,000 bytes, and below ff.
pub(crate) fn key(store: &mut Store, word: &[u8]) -> Result<Key, LineRefusal>
    ensures { Says result (key_field word.now) }
{
    let bytes = store.decode(word)?;
    if !is_less(bytes.as_slice(), &[0xff]) {
        return Err(LineRefusal::Bad(Kind::Key));
    }
    Ok(Key::from_bytes(bytes)?)
}

/// A value of at most 100,000 bytes.
pub(crate) fn value(store: &mut Store, word: &[u8]) -> Result<Value, LineRefusal>
    ensures { Says result (value_field word.now) }
{
    let bytes = store.decode(word)?;
    Ok(Value::from_bytes(bytes)?)
}

/// The range between two ends, which aren't judged as keys.
pub(crate) fn range(begin: Bytes, end: Bytes) -> Result<Range, LineRefusal>
    ensures { Says result (range_of begin end) }
{
    if is_less(&[0xff], end.as_slice()) {
        return Err(LineRefusal::Bad(Kind::Range));
    }
    let begin = end_key(begin)?;
    let end = end_key(end)?;
    match Range::new(begin, end) {
        Ok(range) => Ok(range),
        Err(_) => Err(LineRefusal::Bad(Kind::Range)),
    }
}

// An end of a range.
fn end_key(bytes: Bytes) -> Result<Key, LineRefusal>
    ensures { Says result (if nat_le (length bytes) 10001 then Ok bytes else Err Kind.Range) }
{
    match Key::end_from_bytes(bytes) {
        Ok(key) => Ok(key),
        Err(KeyRefusal::KeyTooLong { .. }) => Err(LineRefusal::Bad(Kind::Range)),
        Err(KeyRefusal::NoMemory) => unreachable!(),
    }
}

/// The range between two ends, neither of which lies on the wrong side of `key`.
pub(crate) fn range_about(key: &Key, begin: Bytes, end: Bytes) -> Result<Range, LineRefusal>
    ensures { Says result (range_about key.now begin end) }
{
    if is_less(key.bytes(), begin.as_slice()) || is_less(end.as_slice(), key.bytes()) {
        return Err(LineRefusal::Bad(Kind::Range));
    }
    range(begin, end)
}
