//! A list of operations as bytes.
ghost use Rattle.std.specs.Prelude.{◌≡◌, ◌<◌, ◌^◌, ◌++◌, ◌∷◌, length, IfOk, OnOk};
ghost use Rattle.st_ops.specs.Grammar.{Fits, IsPayload};
ghost use Rattle.st_ops.specs.Spelling.{fields, spelled, spelt};

use crate::Op;
use bytes::Bytes;
use st_num::put_u32;
use std::alloc::{AllocError, Global};

pub(crate) const SET: u8 = 1;

pub(crate) const CLEAR: u8 = 2;

pub(crate) const SNAP_ITEM: u8 = 3;

pub(crate) const SNAP_END: u8 = 4;

pub(crate) const COMMIT: u8 = 5;

// A tag, and two fields behind their lengths.
fn put_fields(out: &mut Vec<u8>, tag: u8, first: &Bytes, second: &Bytes) -> Result<(), AllocError>
    requires first_fits { length first.now < 2 ^ 32 }
    requires second_fits { length second.now < 2 ^ 32 }
    ensures { OnOk result (out.new.items ≡ out.old.items ++ tag ∷ fields first.now second.now) }
{
    out.push(tag)?;
    put_u32(out, first.len() as u32)?;
    put_u32(out, second.len() as u32)?;
    out.extend_from_slice(first.as_slice())?;
    out.extend_from_slice(second.as_slice())
}

fn put_op(out: &mut Vec<u8>, op: &Op) -> Result<(), AllocError>
    requires { Fits op.now }
    ensures { OnOk result (out.new.items ≡ out.old.items ++ spelled op.now) }
{
    match op {
        Op::Set(key, value) => put_fields(out, SET, key, value),
        Op::Clear(begin, end) => put_fields(out, CLEAR, begin, end),
        Op::SnapItem(key, value) => put_fields(out, SNAP_ITEM, key, value),
        Op::SnapEnd => Ok(out.push(SNAP_END)?),
        Op::Commit => Ok(out.push(COMMIT)?),
    }
}

/// The one spelling of the operations.
pub fn encode(alloc: Global, ops: &[Op]) -> Result<Vec<u8>, AllocError>
    requires { IsPayload ops.now }
    ensures { IfOk result (λ bytes. bytes.items ≡ spelt ops.now) }
{
    let mut out = Vec::new(alloc);
    for op in ops {
        put_op(&mut out, op)?;
    }
    Ok(out)
}
