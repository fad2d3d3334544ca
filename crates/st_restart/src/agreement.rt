//! Whether a store is that of a log.
ghost use Rattle.std.specs.Prelude.{◌≡◌, ◌==◌, ◌↔◌, false, filter, fold, IfOk, IsTrue, OnOk};
ghost use Rattle.std.specs.List.{list_any};
ghost use Rattle.st_fold.specs.Map.{folded};
ghost use Rattle.st_key.specs.Spans.{holds};
ghost use Rattle.st_key.specs.Parts.{least};
ghost use Rattle.st_model.specs.State.{assigned, move_span};
ghost use Rattle.st_ptree.specs.Entries.{pairs_of};
ghost use Rattle.st_restart.specs.Agreement.{Answers, IsAsked, first_difference, is_version, same_pair};
ghost use Rattle.st_restart.specs.Opened.{as_opened};

use crate::AgreeRefusal;
use bytes::Bytes;
use st_board::Opening;
use st_disk::Disk;
use st_engine::Engine;
use st_fold::{ForeignPart, fold_to};
use st_key::{Key, Ranges, Value, one_canonical_form};
use st_mutation::{Batch, Move};
use st_ptree::PTree;
use std::alloc::{AllocError, Global};

fn has_batch(log: &[Batch], version: u64) -> bool
    ensures { result ≡ list_any (λ batch. batch.version == version) log.now }
{
    log.iter().any(|batch| batch.version == version)
}

// Whether the log has a batch of the version, or it is the one before them.
fn is_version(log: &[Batch], version: u64) -> bool
    ensures { result ≡ is_version log.now version }
{
    version == 0 || has_batch(log, version)
}

fn move_keys(assigned: &mut Ranges, moves: &[Move]) -> Result<(), AllocError>
    ensures { OnOk result (assigned.new ≡ fold move_span assigned.old moves.now) }
{
    for change in moves {
        match change {
            Move::Assign(range) => assigned.add(range)?,
            Move::Release(range) => assigned.remove(range)?,
        }
    }
    Ok(())
}

// The keys that are assigned at a version.
fn assigned_at(own: &Ranges, log: &[Batch], version: u64) -> Result<Ranges, AllocError>
    ensures { IfOk result (λ spans. spans ≡ assigned own.now log.now version) }
{
    let mut assigned = own.clone()?;
    for batch in log {
        if batch.version <= version {
            move_keys(&mut assigned, batch.moves.as_slice())?;
        }
    }
    Ok(assigned)
}

fn is_same(key: &Bytes, value: &Bytes, row: &(Key, Value)) -> bool
    ensures { result ≡ same_pair (key.now, value.now) row.now }
{
    key.as_slice() == row.0.bytes() && value.as_slice() == row.1.bytes()
}

fn lesser<'a>(one: &'a [u8], other: &'a [u8]) -> &'a [u8]
    ensures { result.now ≡ least one.now other.now }
{
    if other.cmp(one).is_lt() { other } else { one }
}

// The first key at which the pairs of a store aren't the rows of a log.
fn first_difference(
    alloc: Global,
    base: &PTree<Bytes>,
    rows: &[(Key, Value)],
) -> Result<Option<Bytes>, AllocError>
    ensures { IfOk result (λ key. key ≡ first_difference (pairs_of base.now) rows.now) }
{
    let mut left = base.iter();
    for row in rows {
        match left.next() {
            Some((key, value)) => {
                if !is_same(key, value, row) {
                    let least = lesser(key.as_slice(), row.0.bytes());
                    return Ok(Some(Bytes::copy_from_slice(alloc, least)?));
                }
            }
            None => return Ok(Some(Bytes::copy_from_slice(alloc, row.0.bytes())?)),
        }
    }
    match left.next() {
        Some((key, _)) => Ok(Some(key.clone()?)),
        None => Ok(None),
    }
}

fn have_same_keys(one: &Ranges, other: &Ranges) -> bool
    ensures { IsTrue result ↔ (one.now ≡ other.now) }
{
    one_canonical_form();
    let _ = one.pieces();
    let _ = other.pieces();
    if !one.is_subset(other) {
        return false;
    }
    other.is_subset(one)
}

// The pairs of a log at a version, of the available keys.
fn base_at(
    alloc: Global,
    log: &[Batch],
    version: u64,
    available: &Ranges,
) -> Result<Vec<(Key, Value)>, AllocError>
    ensures { IfOk result (λ rows. rows.items ≡ filter (λ pair. holds available.now pair.0) (folded log.now version)) }
{
    let pairs = fold_to(alloc, log, version)?;
    let mut rows = pairs.pairs()?;
    rows.retain(|row| available.contains(row.0.bytes()));
    Ok(rows)
}

fn agreed(alloc: Global, opening: &Opening, own: &Ranges, log: &[Batch]) -> Result<(), AgreeRefusal>
    ensures { Answers own.now log.now (as_opened false opening.now) result }
{
    if !is_version(log, opening.version) {
        return Err(AgreeRefusal::Foreign(ForeignPart::Version));
    }
    let assigned = assigned_at(own, log, opening.version)?;
    if !have_same_keys(&opening.assigned, &assigned) {
        return Err(AgreeRefusal::Foreign(ForeignPart::Assigned));
    }
    let rows = base_at(alloc, log, opening.version, &opening.available)?;
    match first_difference(alloc, &opening.base, &rows)? {
        Some(key) => Err(AgreeRefusal::Foreign(ForeignPart::Key(key))),
        None => Ok(()),
    }
}

/// Whether an opened store is that of a log: one without a frame is. Else the first part is told that isn't the log's: its
/// version, what is assigned, or the first key at which its pairs aren't those of the log at its version. It folds the log.
pub fn agree<D: Disk>(
    alloc: Global,
    engine: &Engine<D>,
    opening: &Opening,
    own: &Ranges,
    log: &[Batch],
) -> Result<(), AgreeRefusal>
    ensures { IsAsked engine.now.store.fresh result (Answers own.now log.now (as_opened engine.now.store.fresh opening.now) result) }
{
    if engine.is_fresh() {
        return Ok(());
    }
    agreed(alloc, opening, own, log)
}
