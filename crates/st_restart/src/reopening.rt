//! What a store opens as.
ghost use Rattle.std.specs.Prelude.{◌≡◌, ◌<◌, [], ℕ, Ok, None, not, false, IfOk, OnOk, IfSome, IsTrue, filter, fold, map};
ghost use Rattle.std.specs.List.{list_any};
ghost use Rattle.st_course.specs.Jobs.{clears_of};
ghost use Rattle.st_disk.specs.History.{Files, MayLeave};
ghost use Rattle.st_key.specs.Spans.{all_keys, holds, within};
ghost use Rattle.st_meta.specs.Stored.{Stores};
ghost use Rattle.st_meta.specs.declared.state.Meta.{Meta as State};
ghost use Rattle.st_ptree.specs.Entries.{pairs_of};
ghost use Rattle.st_restart.specs.Opened.{OpensAs, as_opened, opened, opened_as, opened_with, stored_keys};

use crate::laws::files_open_as_they_mount;
use bytes::Bytes;
use st_board::Opening;
use st_disk::Disk;
use st_engine::Engine;
use st_key::{Key, Range, Ranges, spans_are_put_in_and_taken_out};
use st_meta::{Meta, MetaRefusal, of_pairs};
use st_ptree::{PTree, Steps, pairs_are_a_map};
use std::alloc::{AllocError, Global};
use std::marker::Brand;
use std::sync::ledger::{Blank, Ledger};

// All keys of users.
pub(crate) fn all_keys(alloc: Global) -> Result<Range, AllocError>
    ensures { IfOk result (λ range. range ≡ all_keys) }
{
    let Ok(begin) = Key::end(alloc, b"") else {
        return Err(AllocError);
    };
    let Ok(end) = Key::end(alloc, b"\xff") else {
        return Err(AllocError);
    };
    match Range::new(begin, end) {
        Ok(range) => Ok(range),
        Err(_) => unreachable!(),
    }
}

// The keys of users that aren't available.
fn unavailable(alloc: Global, available: &Ranges) -> Result<Ranges, AllocError>
    ensures { IfOk result (λ others. others ≡ clears_of false available.now) }
{
    let mut others = Ranges::of(alloc, all_keys(alloc)?)?;
    for piece in available.pieces() {
        others.remove(piece)?;
    }
    Ok(others)
}

// Takes the pairs of these keys out of a map, and those that are no user's.
fn take_out<L: Ledger>(
    pairs: &mut PTree<Bytes>,
    others: &[Range],
    blank: Blank,
) -> Result<(), AllocError>
    requires name { blank.name ≡ L.name }
    requires parts { blank.parts ≡ L.parts }
    requires some { 0 < blank.parts }
    ensures { OnOk result (pairs_of pairs.new ≡ filter (λ pair. not (within stored_keys pair.0))
        (filter (λ pair. not (holds others.now pair.0)) (pairs_of pairs.old))) }
{
    pairs_are_a_map::<Bytes>();
    let mut steps = Steps::<L>::new(blank);
    for range in others {
        pairs.erase(range.begin().bytes(), range.end().bytes(), &mut steps)?;
    }
    pairs.erase(b"\xff", b"\xff\xff\xff", &mut steps)
}

fn copied(alloc: Global, ranges: &[Range]) -> Result<Vec<Range>, AllocError>
    ensures { IfOk result (λ copy. copy.items ≡ ranges.now) }
{
    let mut copy = Vec::new(alloc);
    for range in ranges {
        copy.push(range.clone()?)?;
    }
    Ok(copy)
}

fn opening_with(alloc: Global, mut pairs: PTree<Bytes>, meta: Meta) -> Result<Opening, AllocError>
    requires { Stores (pairs_of pairs) meta }
    ensures opened { IfOk result (λ o. as_opened false o ≡ opened_with (pairs_of pairs) meta) }
    ensures clears { IfOk result (λ o. o.clears.items ≡ clears_of false o.available) }
    ensures stored { IfOk result (λ o. record { version = o.version; assigned = o.assigned; available = o.available } ≡ meta) }
{
    spans_are_put_in_and_taken_out();
    let others = unavailable(alloc, &meta.available)?;
    take_out::<Brand>(&mut pairs, others.pieces(), Blank::new(1))?;
    let clears = copied(alloc, others.pieces())?;
    Ok(Opening {
        version: meta.version,
        assigned: meta.assigned,
        available: meta.available,
        base: pairs,
        clears,
    })
}

/// What a store opens as: one without a frame with all that the server owns, and empty; another one with what the pairs say that
/// it stores, and the pairs of the keys that are available. Pairs that store no state are refused, with the first part that they
/// aren't.
pub fn reopen<D: Disk>(
    alloc: Global,
    engine: &Engine<D>,
    own: &Ranges,
) -> Result<Opening, MetaRefusal>
    ensures opened { OpensAs engine.now.store.fresh result (opened_as own.now engine.now.store.fresh engine.now.store.pairs) }
    ensures clears { IfOk result (λ o. o.clears.items ≡ clears_of engine.now.store.fresh o.available) }
    ensures stored { IfOk result (λ o. engine.now.store.fresh ≡ false
        → Stores engine.now.store.pairs (record { version = o.version; assigned = o.assigned; available = o.available })) }
{
    if engine.is_fresh() {
        return Ok(Opening {
            version: 0,
            assigned: own.clone()?,
            available: own.clone()?,
            base: PTree::new(alloc),
            clears: Vec::new(alloc),
        });
    }
    let pairs = engine.pairs()?;
    let meta = of_pairs(alloc, &pairs)?;
    Ok(opening_with(alloc, pairs, meta)?)
}
