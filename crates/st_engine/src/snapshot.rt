// What a commit writes of the rolling snapshot.
ghost use Rattle.std.specs.Prelude.{◌≡◌, ◌<◌, ◌+◌, ◌++◌, ◌∷◌, ◌-◌, [], IsTrue, IfOk, IfSome, OnOk, length};
ghost use Rattle.std.specs.List.{AllByRecursion, list_any};
ghost use Rattle.std.specs.Cmp.Lexicographic.{slice_cmp};
ghost use Rattle.std.specs.FinMap.Entries.{is_sorted};
ghost use Rattle.std.specs.Ordering.{nat_cmp};
ghost use Rattle.st_engine.specs.Snapshot.{cursor_behind, is_end, room_of, size_of, snap, still_of};
ghost use Rattle.st_ops.specs.Grammar.{Fits};
ghost use Rattle.st_ops.specs.declared.op.Op.TheVariants.{Commit, SnapItem};
ghost use Rattle.st_ptree.specs.Entries.{pairs_of};

use crate::writing::copy;
use bytes::Bytes;
use st_ops::Op;
use st_ptree::{Iter, PTree, Steps, pairs_are_a_map};
use std::alloc::{AllocError, Global};
use std::marker::Brand;
use std::sync::ledger::{Blank, Ledger};

// An operation of two fields has a tag and two lengths of four bytes beside them.
const BESIDE_FIELDS: u64 = 9;

const MAX_FIELD: usize = u32::MAX as usize;

// Pushes the item of a pair, and answers what is left of the room then. A pair whose lengths don't have four bytes would
// count as want of memory: none came from an operation.
fn push_item(out: &mut Vec<Op>, key: &Bytes, value: &Bytes, room: u64) -> Result<u64, AllocError>
    ensures item { OnOk result (out.new.items ≡ out.old.items ++ SnapItem key.now value.now ∷ []) }
    ensures room { IfOk result (λ left. left ≡ room - size_of (SnapItem key.now value.now)) }
    ensures fits { OnOk result (Fits (SnapItem key.now value.now)) }
{
    if key.len() > MAX_FIELD || value.len() > MAX_FIELD {
        return Err(AllocError);
    }
    out.push(Op::SnapItem(key.clone()?, value.clone()?))?;
    Ok(
        room.saturating_sub(BESIDE_FIELDS)
            .saturating_sub(key.len() as u64)
            .saturating_sub(value.len() as u64),
    )
}

// The pairs that the snapshot has still to write.
fn still<'a, L: Ledger>(
    pairs: &'a PTree<Bytes>,
    cursor: &Option<Bytes>,
    steps: &mut Steps<L>,
) -> Iter<'a, Bytes>
    ensures still { result ≡ still_of cursor.now (pairs_of pairs.now) }
    ensures ordered { IsTrue (is_sorted (slice_cmp nat_cmp) (pairs_of pairs.now)) }
{
    pairs_are_a_map::<Bytes>();
    match cursor {
        Some(last) => pairs.iter_above(last.as_slice(), steps),
        None => pairs.iter(),
    }
}

// What a snapshot has come to: the key of its last item, and whether it has ended.
#[derive(Drop)]
struct Next {
    cursor: Option<Bytes>,
    ended: bool,
}

// Pushes what the snapshot writes next.
fn push_next<L: Ledger>(
    out: &mut Vec<Op>,
    pairs: &PTree<Bytes>,
    mut cursor: Option<Bytes>,
    mut room: u64,
    steps: &mut Steps<L>,
) -> Result<Next, AllocError>
    ensures ops { OnOk result (out.new.items ≡ out.old.items ++ snap cursor room (pairs_of pairs.now)) }
    ensures fits { OnOk result (AllByRecursion Fits out.old.items → AllByRecursion Fits out.new.items) }
    ensures cursor { IfOk result (λ next. next.cursor ≡ cursor_behind cursor room (pairs_of pairs.now)) }
    ensures ended { IfOk result (λ next. next.ended ≡ list_any is_end (snap cursor room (pairs_of pairs.now))) }
    ensures ordered { IsTrue (is_sorted (slice_cmp nat_cmp) (pairs_of pairs.now)) }
{
    for (key, value) in still(pairs, &cursor, steps) {
        if room == 0 {
            return Ok(Next {
                cursor,
                ended: false,
            });
        }
        room = push_item(out, key, value, room)?;
        cursor = Some(key.clone()?);
    }
    out.push(Op::SnapEnd)?;
    Ok(Next {
        cursor: None,
        ended: true,
    })
}

// How many bytes an operation takes.
fn size_of(op: &Op) -> u64
    requires { Fits op.now }
    ensures { result ≡ size_of op.now }
{
    match op {
        Op::Set(first, second) | Op::Clear(first, second) | Op::SnapItem(first, second) => {
            BESIDE_FIELDS + first.len() as u64 + second.len() as u64
        }
        Op::SnapEnd | Op::Commit => 1,
    }
}

/// The quota, and as many bytes as the operations take. None where that number has no eight bytes.
pub(crate) fn room_of(quota: u64, ops: &[Op]) -> Option<u64>
    requires { AllByRecursion Fits ops.now }
    ensures { IfSome result (λ room. room ≡ room_of quota ops.now) }
{
    let mut room = quota;
    for op in ops {
        room = room.checked_add(size_of(op))?;
    }
    Some(room)
}

/// What a commit writes.
#[derive(Drop)]
pub(crate) struct Written {
    /// The operations of its payload.
    pub ops: Vec<Op>,
    /// The key of the snapshot's last item behind them, where the snapshot goes on.
    pub cursor: Option<Bytes>,
    /// Whether the snapshot ends.
    pub ended: bool,
}

fn write_in<L: Ledger>(
    alloc: Global,
    ops: &[Op],
    pairs: &PTree<Bytes>,
    cursor: Option<Bytes>,
    room: u64,
    blank: Blank,
) -> Result<Written, AllocError>
    requires name { blank.name ≡ L.name }
    requires parts { blank.parts ≡ L.parts }
    requires some { 0 < blank.parts }
    ensures ops { IfOk result (λ written. written.ops.items ≡ ops.now ++ snap cursor room (pairs_of pairs.now) ++ Commit ∷ []) }
    ensures fits { IfOk result (λ written. AllByRecursion Fits ops.now → AllByRecursion Fits written.ops.items) }
    ensures cursor { IfOk result (λ written. written.cursor ≡ cursor_behind cursor room (pairs_of pairs.now)) }
    ensures ended { IfOk result (λ written. written.ended ≡ list_any is_end (snap cursor room (pairs_of pairs.now))) }
    ensures ordered { IfOk result (λ _. IsTrue (is_sorted (slice_cmp nat_cmp) (pairs_of pairs.now))) }
{
    let mut steps = Steps::<L>::new(blank);
    let mut whole = copy(alloc, ops)?;
    let next = push_next(&mut whole, pairs, cursor, room, &mut steps)?;
    whole.push(Op::Commit)?;
    Ok(Written {
        ops: whole,
        cursor: next.cursor,
        ended: next.ended,
    })
}

/// What a commit of these operations writes, where the map behind them and the cursor before them are these.
pub(crate) fn write(
    alloc: Global,
    ops: &[Op],
    pairs: &PTree<Bytes>,
    cursor: Option<Bytes>,
    quota: u64,
) -> Result<Written, AllocError>
    requires fits { AllByRecursion Fits ops.now }
    ensures ops { IfOk result (λ written. written.ops.items ≡ ops.now ++ snap cursor (room_of quota ops.now) (pairs_of pairs.now) ++ Commit ∷ []) }
    ensures fits { IfOk result (λ written. AllByRecursion Fits written.ops.items) }
    ensures cursor { IfOk result (λ written. written.cursor ≡ cursor_behind cursor (room_of quota ops.now) (pairs_of pairs.now)) }
    ensures ended { IfOk result (λ written. written.ended ≡ list_any is_end (snap cursor (room_of quota ops.now) (pairs_of pairs.now))) }
    ensures ordered { IfOk result (λ _. IsTrue (is_sorted (slice_cmp nat_cmp) (pairs_of pairs.now))) }
{
    match room_of(quota, ops) {
        Some(room) => write_in::<Brand>(alloc, ops, pairs, cursor, room, Blank::new(1)),
        None => Err(AllocError),
    }
}
