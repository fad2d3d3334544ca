//! What a commit takes from the window, and from the pieces.
ghost use Rattle.std.specs.Prelude.{◌≡◌, ◌++◌, ◌∷◌, [], map, IfOk, OnOk, IsTrue};
ghost use Rattle.std.specs.List.{flat_map};
ghost use Rattle.std.specs.Option.{option_map_or};
ghost use Rattle.st_board.specs.Base.{AreChanges};
ghost use Rattle.st_course.specs.Jobs.{clear_of, op_of};
ghost use Rattle.st_ops.specs.Grammar.{Fits, is_change};
ghost use Rattle.st_meta.specs.Stored.{sets_of, stored};
ghost use Rattle.st_model.specs.Pieces.{has_rows};
ghost use Rattle.st_ops.specs.declared.op.Op.TheVariants.{Set as set_op};
ghost use Rattle.st_versioned.specs.Window.{mutations_to};

use bytes::Bytes;
use st_key::{Key, Range};
use st_meta::{Meta, to_ops};
use st_model::{Phase, Piece};
use st_mutation::Mutation;
use st_ops::Op;
use st_versioned::Window;
use std::alloc::{AllocError, Global};

/// Whether rows of the piece were fetched that aren't in the base.
pub(crate) fn has_rows(piece: &Piece) -> bool
    ensures { result ≡ has_rows piece.now }
{
    match &piece.phase {
        Phase::Fetching { upto, in_base, .. } => in_base < upto,
        _ => false,
    }
}

// The operation that clears a range.
fn clear_of(alloc: Global, range: &Range) -> Result<Op, AllocError>
    ensures op { IfOk result (λ op. op ≡ clear_of range.now) }
    ensures change { IfOk result (λ op. IsTrue (is_change op)) }
    ensures fits { IfOk result Fits }
{
    Ok(Op::Clear(
        Bytes::copy_from_slice(alloc, range.begin().bytes())?,
        Bytes::copy_from_slice(alloc, range.end().bytes())?,
    ))
}

// Adds what a mutation is as an operation.
fn push_op(alloc: Global, ops: &mut Vec<Op>, mutation: &Mutation) -> Result<(), AllocError>
    requires { AreChanges ops.old.items }
    ensures ops { OnOk result (ops.new.items ≡ ops.old.items ++ op_of mutation.now) }
    ensures changes { OnOk result (AreChanges ops.new.items) }
{
    match mutation {
        Mutation::Set(key, value) => {
            let key = Bytes::copy_from_slice(alloc, key.bytes())?;
            let value = Bytes::copy_from_slice(alloc, value.bytes())?;
            ops.push(Op::Set(key, value))?;
        }
        Mutation::Clear(range) => ops.push(clear_of(alloc, range)?)?,
        // the window keeps none
        Mutation::Atomic(_, _, _) => {}
    }
    Ok(())
}

// The operations that clear these ranges.
fn clears(alloc: Global, ranges: &[Range]) -> Result<Vec<Op>, AllocError>
    ensures ops { IfOk result (λ ops. ops.items ≡ map clear_of ranges.now) }
    ensures changes { IfOk result (λ ops. AreChanges ops.items) }
{
    let mut ops = Vec::new(alloc);
    for range in ranges {
        ops.push(clear_of(alloc, range)?)?;
    }
    Ok(ops)
}

// Adds what mutations are as operations.
fn push_ops(alloc: Global, ops: &mut Vec<Op>, sent: &[(u64, Mutation)]) -> Result<(), AllocError>
    requires { AreChanges ops.old.items }
    ensures ops { OnOk result (ops.new.items ≡ ops.old.items ++ flat_map (λ made. op_of made.1) sent.now) }
    ensures changes { OnOk result (AreChanges ops.new.items) }
{
    for made in sent {
        push_op(alloc, ops, &made.1)?;
    }
    Ok(())
}

/// The operations of the commit of this state: clears of the ranges, the mutations that the window keeps up to its version, and
/// what stores the state.
pub(crate) fn ops_of(
    alloc: Global,
    ranges: &[Range],
    window: &Window,
    meta: &Meta,
) -> Result<Vec<Op>, AllocError>
    ensures ops { IfOk result (λ ops. ops.items
        ≡ map clear_of ranges.now ++ flat_map (λ made. op_of made.1) (mutations_to meta.now.version window.now) ++ sets_of (stored meta.now)) }
    ensures changes { IfOk result (λ ops. AreChanges ops.items) }
{
    let mut ops = clears(alloc, ranges)?;
    let sent = window.mutations_to(meta.version)?;
    push_ops(alloc, &mut ops, sent.as_slice())?;
    let mut stored = to_ops(alloc, meta)?;
    ops.append(&mut stored)?;
    Ok(ops)
}
