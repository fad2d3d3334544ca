//! A state as operations.
ghost use Rattle.std.specs.Prelude.{◌≡◌, ◌<◌, ◌≤◌, ◌^◌, ◌++◌, ◌∷◌, [], length, IfOk, OnOk, IsTrue};
ghost use Rattle.std.specs.List.{AllByRecursion, list_all};
ghost use Rattle.st_meta.specs.Stored.{range_bytes, ranges_bytes, sets_of, sized, stored};
ghost use Rattle.st_num.specs.Number.{little_bytes};
ghost use Rattle.st_ops.specs.Grammar.{Fits, is_change};
ghost use Rattle.st_ops.specs.declared.op.Op.TheVariants.{Set};

use crate::Meta;
use bytes::Bytes;
use st_key::{Key, Range, Ranges};
use st_num::{put_u32, put_u64};
use st_ops::Op;
use std::alloc::{AllocError, Global};

pub(crate) const ASSIGNED: &[u8] = b"\xff\xff/assigned";

pub(crate) const AVAILABLE: &[u8] = b"\xff\xff/available";

pub(crate) const VERSION: &[u8] = b"\xff\xff/version";

// The most bytes that a value has, and ranges that it spells.
const MAX: usize = u32::MAX as usize;

fn put_key(out: &mut Vec<u8>, key: &Key) -> Result<(), AllocError>
    ensures { OnOk result (out.new.items ≡ out.old.items ++ sized key.now) }
{
    let bytes = key.bytes();
    put_u32(out, bytes.len() as u32)?;
    out.extend_from_slice(bytes)
}

fn put_range(out: &mut Vec<u8>, range: &Range) -> Result<(), AllocError>
    ensures { OnOk result (out.new.items ≡ out.old.items ++ range_bytes range.now) }
{
    put_key(out, range.begin())?;
    put_key(out, range.end())
}

// The value that spells ranges. One that would be too long counts as want of memory.
fn ranges_value(alloc: Global, ranges: &Ranges) -> Result<Vec<u8>, AllocError>
    ensures value { IfOk result (λ value. value.items ≡ ranges_bytes ranges.now) }
    ensures fits { IfOk result (λ value. length value.items < 2 ^ 32) }
    ensures count { OnOk result (length ranges.now < 2 ^ 32) }
{
    let pieces = ranges.pieces();
    if pieces.len() > MAX {
        return Err(AllocError);
    }
    let mut out = Vec::new(alloc);
    put_u32(&mut out, pieces.len() as u32)?;
    for piece in pieces {
        put_range(&mut out, piece)?;
    }
    if out.len() > MAX {
        return Err(AllocError);
    }
    Ok(out)
}

fn version_value(alloc: Global, version: u64) -> Result<Vec<u8>, AllocError>
    ensures { IfOk result (λ value. value.items ≡ little_bytes 8 version) }
{
    let mut out = Vec::new(alloc);
    put_u64(&mut out, version)?;
    Ok(out)
}

fn set(alloc: Global, key: &[u8], value: Vec<u8>) -> Result<Op, AllocError>
    requires key { length key.now < 2 ^ 32 }
    requires value { length value.items < 2 ^ 32 }
    ensures set { IfOk result (λ op. op ≡ Set key.now value.items) }
    ensures fits { IfOk result Fits }
{
    Ok(Op::Set(Bytes::copy_from_slice(alloc, key)?, Bytes::from_vec(value)?))
}

/// The operations that set the three pairs of a state, in the order of their keys. A value that would have 2^32 bytes or
/// more counts as want of memory.
pub fn to_ops(alloc: Global, meta: &Meta) -> Result<Vec<Op>, AllocError>
    ensures ops { IfOk result (λ ops. ops.items ≡ sets_of (stored meta.now)) }
    ensures changes { IfOk result (λ ops. IsTrue (list_all is_change ops.items)) }
    ensures fits { IfOk result (λ ops. AllByRecursion Fits ops.items) }
    ensures counts { OnOk result ((length meta.now.assigned < 2 ^ 32) × (length meta.now.available < 2 ^ 32)) }
{
    let assigned = set(alloc, ASSIGNED, ranges_value(alloc, &meta.assigned)?)?;
    let available = set(alloc, AVAILABLE, ranges_value(alloc, &meta.available)?)?;
    let version = set(alloc, VERSION, version_value(alloc, meta.version)?)?;
    Ok(vec![in alloc; assigned, available, version]?)
}
