//! What the atomic operations of FoundationDB make of a value.
#![tactic(auto)]

mod bitwise;
mod laws;
mod little_endian;
#[cfg(test)]
mod tests;

ghost use Rattle.std.specs.Option.{ForSome, option_copied, option_map};
ghost use Rattle.std.specs.Prelude.{◌≡◌, ◌≤◌, length, Some, None, IfOk};
ghost use Rattle.st_atomic.specs.Atomic.{appended, changed, first_text, fit, larger, last_text, smaller, text_less};

use bitwise::{and_to, or_to, xor_to};
pub use laws::{append_limit, bytes_are_numbers, values_stay_short};
use little_endian::{add_to, is_below};
use std::alloc::{AllocError, Global};

/// How many bytes a value has at most, as in FoundationDB.
pub const MAX_VALUE_LEN: usize = 100_000;

/// An operation that turns the value of a key into another one, by an operand of bytes.
#[derive(Clone, Copy, Debug, PartialEq, Eq)]
pub enum AtomicOp {
    /// The sum as unsigned little-endian numbers, which wraps at the operand's length.
    Add,
    /// Bitwise and.
    And,
    /// Bitwise or.
    Or,
    /// Bitwise exclusive or.
    Xor,
    /// The larger as unsigned little-endian numbers.
    Max,
    /// The smaller as unsigned little-endian numbers.
    Min,
    /// The first in the lexicographic order of bytes.
    ByteMin,
    /// The last in the lexicographic order of bytes.
    ByteMax,
    /// The operand behind the value, where that has at most [`MAX_VALUE_LEN`] bytes.
    AppendIfFits,
    /// No value, where it equals the operand.
    CompareAndClear,
}

/// The value after an operation, None for no value. It takes time linear in the bytes.
pub fn apply(
    alloc: Global,
    op: AtomicOp,
    old: Option<&[u8]>,
    operand: &[u8],
) -> Result<Option<Vec<u8>>, AllocError>
    requires old { ForSome old (λ bytes. length bytes.now ≤ 100000) }
    requires operand { length operand.now ≤ 100000 }
    ensures value { IfOk result (λ after.
        option_map (λ bytes. bytes.items) after ≡ changed op (option_copied old.entry) operand.now) }
    ensures short { IfOk result (λ after. ForSome after (λ bytes. length bytes.items ≤ 100000)) }
{
    match old {
        Some(old) => of_present(alloc, op, old, operand),
        None => of_absent(alloc, op, operand),
    }
}

// What an operation makes of no value.
fn of_absent(alloc: Global, op: AtomicOp, operand: &[u8]) -> Result<Option<Vec<u8>>, AllocError>
    requires { length operand.now ≤ 100000 }
    ensures { IfOk result (λ after. option_map (λ bytes. bytes.items) after ≡ changed op None operand.now) }
{
    match op {
        AtomicOp::CompareAndClear => Ok(None),
        AtomicOp::And | AtomicOp::Min | AtomicOp::ByteMin | AtomicOp::ByteMax => {
            Ok(Some(operand.to_vec(alloc)?))
        }
        AtomicOp::Add | AtomicOp::Or | AtomicOp::Xor | AtomicOp::Max | AtomicOp::AppendIfFits =>
            of_present(alloc, op, &[], operand),
    }
}

// What an operation makes of a value.
fn of_present(
    alloc: Global,
    op: AtomicOp,
    old: &[u8],
    operand: &[u8],
) -> Result<Option<Vec<u8>>, AllocError>
    requires old { length old.now ≤ 100000 }
    requires operand { length operand.now ≤ 100000 }
    ensures { IfOk result (λ after.
        option_map (λ bytes. bytes.items) after ≡ changed op (Some old.now) operand.now) }
{
    match op {
        AtomicOp::Add => {
            let mut sum = fitted(alloc, old, operand.len())?;
            add_to(&mut sum, operand);
            Ok(Some(sum))
        }
        AtomicOp::And => {
            let mut bytes = fitted(alloc, old, operand.len())?;
            and_to(&mut bytes, operand);
            Ok(Some(bytes))
        }
        AtomicOp::Or => {
            let mut bytes = fitted(alloc, old, operand.len())?;
            or_to(&mut bytes, operand);
            Ok(Some(bytes))
        }
        AtomicOp::Xor => {
            let mut bytes = fitted(alloc, old, operand.len())?;
            xor_to(&mut bytes, operand);
            Ok(Some(bytes))
        }
        AtomicOp::Max => Ok(Some(larger(fitted(alloc, old, operand.len())?, operand))),
        AtomicOp::Min => Ok(Some(smaller(fitted(alloc, old, operand.len())?, operand))),
        AtomicOp::ByteMin => Ok(Some(first_text(old, operand).to_vec(alloc)?)),
        AtomicOp::ByteMax => Ok(Some(last_text(old, operand).to_vec(alloc)?)),
        AtomicOp::AppendIfFits => Ok(Some(appended(alloc, old, operand)?)),
        AtomicOp::CompareAndClear => {
            if old == operand {
                return Ok(None);
            }
            Ok(Some(old.to_vec(alloc)?))
        }
    }
}

// So many bytes: cut to them, or extended with bytes 00.
fn fitted(alloc: Global, bytes: &[u8], len: usize) -> Result<Vec<u8>, AllocError>
    ensures { IfOk result (λ out. out.items ≡ fit bytes.now len) }
{
    let mut out = Vec::with_capacity(alloc, len)?;
    out.extend_from_slice(&bytes[..bytes.len().min(len)])?;
    out.resize(len, 0)?;
    Ok(out)
}

// The larger as numbers, of as many bytes.
fn larger(mut old: Vec<u8>, operand: &[u8]) -> Vec<u8>
    requires { length old.items ≡ length operand.now }
    ensures { result.items ≡ larger old.items operand.now }
{
    if is_below(&old, operand) {
        old.copy_from_slice(operand);
    }
    old
}

// The smaller as numbers, of as many bytes.
fn smaller(mut old: Vec<u8>, operand: &[u8]) -> Vec<u8>
    requires { length old.items ≡ length operand.now }
    ensures { result.items ≡ smaller old.items operand.now }
{
    if is_below(operand, &old) {
        old.copy_from_slice(operand);
    }
    old
}

// Whether one comes before the other in the lexicographic order.
fn precedes(a: &[u8], b: &[u8]) -> bool
    ensures { result ≡ text_less a.now b.now }
{
    a < b
}

// The first in the lexicographic order.
fn first_text<'a>(old: &'a [u8], operand: &'a [u8]) -> &'a [u8]
    ensures { result.now ≡ first_text old.now operand.now }
{
    if precedes(operand, old) { operand } else { old }
}

// The last in the lexicographic order.
fn last_text<'a>(old: &'a [u8], operand: &'a [u8]) -> &'a [u8]
    ensures { result.now ≡ last_text old.now operand.now }
{
    if precedes(old, operand) { operand } else { old }
}

// One behind the other, where that isn't too long.
fn appended(alloc: Global, old: &[u8], operand: &[u8]) -> Result<Vec<u8>, AllocError>
    requires old { length old.now ≤ 100000 }
    requires operand { length operand.now ≤ 100000 }
    ensures { IfOk result (λ whole. whole.items ≡ appended 100000 old.now operand.now) }
{
    let len = old.len() + operand.len();
    if len > MAX_VALUE_LEN {
        return old.to_vec(alloc);
    }
    let mut whole = Vec::with_capacity(alloc, len)?;
    whole.extend_from_slice(old)?;
    whole.extend_from_slice(operand)?;
    Ok(whole)
}
