//! Puts the mutations of a batch into the version in the making.
ghost use Rattle.std.specs.Prelude.{◌≡◌, ◌≤◌, ◌<◌, ◌∷◌, [], length, IfOk, IfSome, OnOk, OnErr, IsSome};
ghost use Rattle.std.specs.Option.{option_map, option_copied};
ghost use Rattle.st_atomic.specs.Atomic.{changed};
ghost use Rattle.st_board.specs.Logs.{HasShortKey};
ghost use Rattle.st_board.specs.Storing.{all_stored, making_root, stored_in, stored_part, stored_parts, with_stored};
ghost use Rattle.st_course.specs.Sent.{is_sent, result_as};
ghost use Rattle.st_fold.specs.Reading.{span_of_key};
ghost use Rattle.st_model.specs.Pieces.{span_of};
ghost use Rattle.st_mutation.specs.declared.batch.Mutation.TheVariants as mutation;
ghost use Rattle.st_ptree.specs.Entries.{pairs_of};
ghost use Rattle.st_versioned.specs.Root.{over};
ghost use Rattle.std.specs.List.{AllByRecursion};
ghost use Rattle.st_board.specs.Making.{GoesOn, IsGoing};
ghost use Rattle.st_versioned.specs.Window.{Stands};

use bytes::Bytes;
use st_atomic::AtomicOp;
use st_key::{Key, MAX_VALUE_LEN, Range, Value, key_after};
use st_model::{Phase, Piece};
use st_mutation::{Mutation, clip};
use st_ptree::{PTree, Steps};
use st_versioned::{Overlay, Window, abandoning_undoes};
use std::alloc::{AllocError, Global};
use std::sync::ledger::Ledger;

// The value of a key at this point of the stream. One that is longer than any value counts as want of memory.
fn value_now<L: Ledger>(
    alloc: Global,
    window: &Window,
    base: &PTree<Bytes>,
    key: &Key,
    steps: &mut Steps<L>,
) -> Result<Option<Value>, AllocError>
    requires { IsSome window.now.making }
    ensures { IfOk result (λ value. value ≡ over (making_root window.now) (pairs_of base.now) key.now) }
{
    let Some(root) = window.making() else {
        unreachable!()
    };
    match (Overlay { root, base }).get(key.bytes(), steps) {
        Some(bytes) => match Value::read(alloc, bytes) {
            Ok(value) => Ok(Some(value)),
            Err(_) => Err(AllocError),
        },
        None => Ok(None),
    }
}

// What an operation makes of a value.
fn value_after(
    alloc: Global,
    op: AtomicOp,
    before: &Option<Value>,
    operand: &Value,
) -> Result<Option<Value>, AllocError>
    ensures { IfOk result (λ after. after ≡ changed op before.now operand.now) }
{
    let old = match before {
        Some(value) => Some(value.bytes()),
        None => None,
    };
    match st_atomic::apply(alloc, op, old, operand.bytes())? {
        Some(bytes) => {
            // so memory is all that can be wanting
            prove!(bytes.len() <= MAX_VALUE_LEN);
            match Value::from_vec(bytes) {
                Ok(value) => Ok(Some(value)),
                Err(_) => Err(AllocError),
            }
        }
        None => Ok(None),
    }
}

// The range of one key.
fn range_of(alloc: Global, key: &Key) -> Result<Range, AllocError>
    requires { length key.now ≤ 10000 }
    ensures { IfOk result (λ range. range ≡ span_of_key key.now) }
{
    match Range::new(key.clone()?, key_after(alloc, key)?) {
        Ok(range) => Ok(range),
        Err(_) => Err(AllocError),
    }
}

fn store_result(
    alloc: Global,
    window: &mut Window,
    op: AtomicOp,
    key: &Key,
    before: &Option<Value>,
    after: &Option<Value>,
) -> Result<(), AllocError>
    requires going_on { IsGoing window.old }
    requires short { length key.now ≤ 10000 }
    ensures ok { OnOk result (window.new ≡ with_stored (result_as op key.now before.now after.now) window.old) }
    ensures stands { OnOk result (Stands window.new) }
    ensures err { OnErr result (window.new ≡ window.old) }
{
    match (after, before) {
        (Some(value), _) => {
            if op == AtomicOp::CompareAndClear {
                Ok(())
            } else {
                window.set(key, value)
            }
        }
        (None, Some(_)) => {
            let range = range_of(alloc, key)?;
            window.clear(&range)
        }
        (None, None) => Ok(()),
    }
}

fn store_operation<L: Ledger>(
    alloc: Global,
    window: &mut Window,
    base: &PTree<Bytes>,
    op: AtomicOp,
    key: &Key,
    operand: &Value,
    steps: &mut Steps<L>,
) -> Result<(), AllocError>
    requires going_on { IsGoing window.old }
    requires short { length key.now ≤ 10000 }
    ensures ok { OnOk result (window.new ≡ stored_in (pairs_of base.now) window.old (mutation.Atomic op key.now operand.now)) }
    ensures stands { OnOk result (Stands window.new) }
    ensures err { OnErr result (window.new ≡ window.old) }
{
    let before = value_now(alloc, window, base, key, steps)?;
    let after = value_after(alloc, op, &before, operand)?;
    store_result(alloc, window, op, key, &before, &after)
}

// Stores one mutation.
fn store<L: Ledger>(
    alloc: Global,
    window: &mut Window,
    base: &PTree<Bytes>,
    mutation: &Mutation,
    steps: &mut Steps<L>,
) -> Result<(), AllocError>
    requires going_on { IsGoing window.old }
    requires short { HasShortKey mutation.now }
    ensures ok { OnOk result (window.new ≡ stored_in (pairs_of base.now) window.old mutation.now) }
    ensures going_on { GoesOn window.old window.new }
{
    abandoning_undoes();
    store_as(alloc, window, base, mutation, steps)
}

fn store_as<L: Ledger>(
    alloc: Global,
    window: &mut Window,
    base: &PTree<Bytes>,
    mutation: &Mutation,
    steps: &mut Steps<L>,
) -> Result<(), AllocError>
    requires going_on { IsGoing window.old }
    requires short { HasShortKey mutation.now }
    ensures ok { OnOk result (window.new ≡ stored_in (pairs_of base.now) window.old mutation.now) }
    ensures stands { OnOk result (Stands window.new) }
    ensures err { OnErr result (window.new ≡ window.old) }
{
    match mutation {
        Mutation::Set(key, value) => window.set(key, value),
        Mutation::Clear(range) => window.clear(range),
        Mutation::Atomic(op, key, operand) => {
            store_operation(alloc, window, base, *op, key, operand, steps)
        }
    }
}

// Whether the mutations of a piece go to the window.
fn is_sent(phase: &Phase) -> bool
    ensures { result ≡ is_sent phase.now }
{
    matches!(phase, Phase::Waiting { .. } | Phase::Readable)
}

// Stores the part of a mutation in a piece.
fn store_part<L: Ledger>(
    alloc: Global,
    window: &mut Window,
    base: &PTree<Bytes>,
    mutation: &Mutation,
    piece: &Piece,
    steps: &mut Steps<L>,
) -> Result<(), AllocError>
    requires going_on { IsGoing window.old }
    requires short { HasShortKey mutation.now }
    ensures ok { OnOk result (window.new ≡ stored_part (pairs_of base.now) mutation.now window.old piece.now) }
    ensures going_on { GoesOn window.old window.new }
{
    if !is_sent(&piece.phase) {
        return Ok(());
    }
    let range = range_of_piece(piece)?;
    match clip(mutation, &range)? {
        Some(part) => store(alloc, window, base, &part, steps),
        None => Ok(()),
    }
}

fn range_of_piece(piece: &Piece) -> Result<Range, AllocError>
    ensures { IfOk result (λ range. range ≡ span_of piece.now) }
{
    match Range::new(piece.begin.clone()?, piece.end.clone()?) {
        Ok(range) => Ok(range),
        Err(_) => Err(AllocError),
    }
}

// Stores the parts of a mutation in these pieces.
fn store_parts<L: Ledger>(
    alloc: Global,
    window: &mut Window,
    base: &PTree<Bytes>,
    mutation: &Mutation,
    pieces: &[Piece],
    steps: &mut Steps<L>,
) -> Result<(), AllocError>
    requires going_on { IsGoing window.old }
    requires short { HasShortKey mutation.now }
    ensures ok { OnOk result (window.new ≡ stored_parts (pairs_of base.now) pieces.now window.old mutation.now) }
    ensures going_on { GoesOn window.old window.new }
{
    for piece in pieces {
        store_part(alloc, window, base, mutation, piece, steps)?;
    }
    Ok(())
}

/// Stores the parts of mutations in these pieces, one mutation after the other.
pub(crate) fn store_all<L: Ledger>(
    alloc: Global,
    window: &mut Window,
    base: &PTree<Bytes>,
    mutations: &[Mutation],
    pieces: &[Piece],
    steps: &mut Steps<L>,
) -> Result<(), AllocError>
    requires going_on { IsGoing window.old }
    requires short { AllByRecursion HasShortKey mutations.now }
    ensures ok { OnOk result (window.new ≡ all_stored (pairs_of base.now) pieces.now window.old mutations.now) }
    ensures going_on { GoesOn window.old window.new }
{
    for mutation in mutations {
        store_parts(alloc, window, base, mutation, pieces, steps)?;
    }
    Ok(())
}
