//! Bytes as a list of operations.
ghost use Rattle.std.specs.Prelude.{◌≡◌, ℕ, List, Ok, IfOk, IfErr};
ghost use Rattle.st_ops.specs.declared.op.Op.{Op as AnOp};
ghost use Rattle.st_ops.specs.Breaks.{Tells};
ghost use Rattle.st_ops.specs.Grammar.{IsPayload};
ghost use Rattle.st_ops.specs.Reading.{cut, fields_at, op_at, next_at, reading, Answers};
ghost use Rattle.st_ops.specs.Spelling.{spelt};

use crate::stage::Stage;
use crate::writing::{CLEAR, COMMIT, SET, SNAP_END, SNAP_ITEM};
use crate::{Op, OpsRefusal};
use bytes::Bytes;
use st_num::take_u32;
use std::alloc::{AllocError, Global};

// So many bytes from the front, and those behind them. None where there are fewer.
fn take_bytes(mut bytes: Bytes, len: u32) -> Result<Option<(Bytes, Bytes)>, AllocError>
    ensures { IfOk result (λ found. found ≡ cut len bytes) }
{
    let len = len as usize;
    if bytes.len() < len {
        return Ok(None);
    }
    let front = bytes.split_to(len)?;
    Ok(Some((front, bytes)))
}

// Two fields behind their lengths, and the bytes behind them. None where they aren't whole.
fn take_fields(mut bytes: Bytes) -> Result<Option<(Bytes, Bytes, Bytes)>, AllocError>
    ensures { IfOk result (λ found. found ≡ fields_at bytes) }
{
    let Some(first_len) = take_u32(bytes.as_slice(), 0) else {
        return Ok(None);
    };
    let Some(second_len) = take_u32(bytes.as_slice(), 4) else {
        return Ok(None);
    };
    bytes.advance(8);
    let Some((first, rest)) = take_bytes(bytes, first_len)? else {
        return Ok(None);
    };
    let Some((second, rest)) = take_bytes(rest, second_len)? else {
        return Ok(None);
    };
    Ok(Some((first, second, rest)))
}

// The operation at the front, and the bytes behind it. None where no whole one stands there.
fn take_op(mut bytes: Bytes) -> Result<Option<(Op, Bytes)>, AllocError>
    ensures { IfOk result (λ found. found ≡ op_at bytes) }
{
    let Some(tag) = bytes.as_slice().first().copied() else {
        return Ok(None);
    };
    bytes.advance(1);
    match tag {
        SET => Ok(take_fields(bytes)?.map(|(key, value, rest)| (Op::Set(key, value), rest))),
        CLEAR => Ok(take_fields(bytes)?.map(|(begin, end, rest)| (Op::Clear(begin, end), rest))),
        SNAP_ITEM => Ok(take_fields(bytes)?.map(|(key, value, rest)| (
            Op::SnapItem(key, value),
            rest,
        ))),
        SNAP_END => Ok(Some((Op::SnapEnd, bytes))),
        COMMIT => Ok(Some((Op::Commit, bytes))),
        _ => Ok(None),
    }
}

// The operation at the front, the stage behind it and the bytes behind it. None where it breaks the grammar.
fn take_next(stage: &Stage, bytes: Bytes) -> Result<Option<(Op, Stage, Bytes)>, AllocError>
    ensures { IfOk result (λ found. found ≡ next_at stage.now bytes) }
{
    let Some((op, rest)) = take_op(bytes)? else {
        return Ok(None);
    };
    let Some(next) = stage.after(&op)? else {
        return Ok(None);
    };
    Ok(Some((op, next, rest)))
}

fn read(alloc: Global, bytes: &[u8]) -> Result<Vec<Op>, OpsRefusal>
    ensures { Answers result (reading bytes.now) }
{
    let mut rest = Bytes::copy_from_slice(alloc, bytes)?;
    let mut stage = Stage::Changes;
    let mut ops = Vec::new(alloc);
    while !rest.is_empty() {
        let at = (bytes.len() - rest.len()) as u64;
        let Some((op, next, behind)) = take_next(&stage, rest)? else {
            return Err(OpsRefusal::BadOps { at });
        };
        ops.push(op)?;
        stage = next;
        rest = behind;
    }
    if !stage.is_done() {
        return Err(OpsRefusal::BadOps {
            at: bytes.len() as u64,
        });
    }
    Ok(ops)
}

/// The operations that the bytes spell. It copies the bytes once, and the operations share the copy.
pub fn decode(alloc: Global, bytes: &[u8]) -> Result<Vec<Op>, OpsRefusal>
    // What is read is the list that the bytes spell.
    ensures found { IfOk result (λ ops. IsPayload ops.items × (bytes.now ≡ spelt ops.items)) }
    // What spells a list is read as that list.
    ensures only { (ops : List AnOp) → IsPayload ops → bytes.now ≡ spelt ops → Answers result (Ok ops) }
    // What is told is the last place that some list reaches.
    ensures broken { IfErr result (Tells bytes.now) }
    ensures exact { Answers result (reading bytes.now) }
{
    st_num::put_is_taken();
    st_num::taken_is_put();
    read(alloc, bytes)
}
