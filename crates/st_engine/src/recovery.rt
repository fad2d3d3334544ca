// Makes the map of a queue's frames.
ghost use Rattle.std.specs.Prelude.{◌≡◌, ◌<◌, ◌≤◌, ◌++◌, ◌∷◌, [], ℕ, false, length, not, IfOk, IsTrue, OnOk, filter};
ghost use Rattle.st_ops.specs.declared.op.Op.TheVariants.{SnapEnd, SnapItem};
ghost use Rattle.st_ptree.specs.Entries.{pairs_of};
ghost use Rattle.st_engine.specs.Replay.{frame_on, is_above, kept_to, ops_of, recovered_by};
ghost use Rattle.st_engine.specs.Snapshot.{has_close, is_end};
ghost use Rattle.st_engine.specs.Holding.{points_of};
ghost use Rattle.st_engine.specs.Kept.{Stand};
ghost use Rattle.st_ops.specs.Grammar.{has_form};
ghost use Rattle.st_queue.specs.Reading.{Rises};
ghost use Rattle.std.specs.List.{AllByRecursion, list_any};

use crate::map::change;
use bytes::Bytes;
use rand_core::SeedableRng;
use rand_core::utils::NextWord;
use rand_pcg::Pcg32;
use st_ops::{Op, OpsRefusal, decode};
use st_ptree::{PTree, Steps, pairs_are_a_map};
use st_queue::Frame;
use std::alloc::{AllocError, Global};
use std::marker::{Brand, Model};
use std::sync::ledger::{Blank, Ledger};

// The map of a recovery so far, and the key of the last item of a snapshot that hasn't ended.
#[derive(Drop)]
struct Recovery {
    alloc: Global,
    pairs: PTree<Bytes>,
    last: Option<Bytes>,
    // where the priorities of its entries come from
    random: Pcg32,
}

impl Model for Recovery {
    ghost use Rattle.st_ptree.specs.Entries.{pairs_of};
    ghost use Rattle.st_engine.specs.Replay.{Recovery};

    ghost Value = { Recovery };

    ghost view = { λ r. record { pairs = pairs_of r.pairs; last = r.last } };
}

impl Recovery {
    ghost use Rattle.std.specs.Prelude.{◌&&◌};
    ghost use Rattle.st_key.specs.Spans.{key_less};
    ghost use Rattle.st_engine.specs.Replay.{from_map};

    fn new(alloc: Global, seed: u64) -> Recovery
        ensures { result ≡ from_map [] }
    {
        Recovery {
            alloc,
            pairs: PTree::new(alloc),
            last: None,
            random: Pcg32::seed_from_u64(seed),
        }
    }

    // Clears the keys above the last item and below this one.
    fn clear_gap<L: Ledger>(&mut self, key: &[u8], steps: &mut Steps<L>) -> Result<(), AllocError>
        ensures pairs { OnOk result (self.new.pairs
            ≡ filter (λ pair. not (is_above self.old.last pair.0 && key_less pair.0 key.now)) self.old.pairs) }
        ensures last { self.new.last ≡ self.old.last }
    {
        pairs_are_a_map::<Bytes>();
        match &self.last {
            None => self.pairs.erase(&[], key, steps),
            Some(last) => {
                let begin = key_after(self.alloc, last.as_slice())?;
                self.pairs.erase(&begin, key, steps)
            }
        }
    }

    fn item<L: Ledger>(
        &mut self,
        key: &Bytes,
        value: &Bytes,
        steps: &mut Steps<L>,
    ) -> Result<(), AllocError>
        ensures { OnOk result (self.new ≡ recovered_by self.old (SnapItem key.now value.now)) }
    {
        pairs_are_a_map::<Bytes>();
        self.clear_gap(key.as_slice(), steps)?;
        let priority = self.random.next_word();
        self.pairs
            .insert(key.clone()?, priority, value.clone()?, steps)?;
        self.last = Some(key.clone()?);
        Ok(())
    }

    // Clears the keys above the last item.
    fn clear_rest<L: Ledger>(&mut self, steps: &mut Steps<L>) -> Result<(), AllocError>
        ensures pairs { OnOk result (self.new.pairs ≡ filter (λ pair. not (is_above self.old.last pair.0)) self.old.pairs) }
        ensures last { self.new.last ≡ self.old.last }
    {
        match &self.last {
            None => {
                self.pairs = PTree::new(self.alloc);
                Ok(())
            }
            Some(last) => clear_above(&mut self.pairs, last.as_slice(), steps),
        }
    }

    fn end<L: Ledger>(&mut self, steps: &mut Steps<L>) -> Result<(), AllocError>
        ensures { OnOk result (self.new ≡ recovered_by self.old SnapEnd) }
    {
        self.clear_rest(steps)?;
        self.last = None;
        Ok(())
    }

    fn step<L: Ledger>(&mut self, op: &Op, steps: &mut Steps<L>) -> Result<(), AllocError>
        ensures { OnOk result (self.new ≡ recovered_by self.old op.now) }
    {
        match op {
            Op::SnapItem(key, value) => self.item(key, value, steps),
            Op::SnapEnd => self.end(steps),
            _ => change(&mut self.pairs, op, &mut self.random, steps),
        }
    }

    // Whether a snapshot ends in the frame, too.
    fn frame<L: Ledger>(&mut self, frame: &Frame, steps: &mut Steps<L>) -> Result<bool, AllocError>
        ensures on { OnOk result (self.new ≡ frame_on self.old frame.now) }
        ensures closes { IfOk result (λ closes. closes ≡ has_close frame.now) }
    {
        let ops = ops_of(self.alloc, frame)?;
        for op in &ops {
            self.step(op, steps)?;
        }
        Ok(has_end(&ops))
    }
}

// The key with 00 appended, the least key above it.
fn key_after(alloc: Global, key: &[u8]) -> Result<Vec<u8>, AllocError>
    ensures { IfOk result (λ after. after.items ≡ key.now ++ 0 ∷ []) }
{
    let mut after = key.to_vec(alloc)?;
    after.push(0)?;
    Ok(after)
}

// Removes the least key above this one, and tells whether there was one.
fn remove_next<L: Ledger>(
    pairs: &mut PTree<Bytes>,
    last: &[u8],
    steps: &mut Steps<L>,
) -> Result<bool, AllocError>
    ensures kept { OnOk result (kept_to last.now (pairs_of pairs.new) ≡ kept_to last.now (pairs_of pairs.old)) }
    ensures fewer { IfOk result (λ was_there. IsTrue was_there → length pairs.new < length pairs.old) }
    ensures none { IfOk result (λ was_there. was_there ≡ false → kept_to last.now (pairs_of pairs.new) ≡ pairs_of pairs.new) }
{
    pairs_are_a_map::<Bytes>();
    let Some((key, _)) = pairs.next_after(last, steps) else {
        return Ok(false);
    };
    let key = key.clone()?;
    pairs.remove(key.as_slice(), steps)
}

// Clears the keys above this one.
fn clear_above<L: Ledger>(
    pairs: &mut PTree<Bytes>,
    last: &[u8],
    steps: &mut Steps<L>,
) -> Result<(), AllocError>
    ensures { OnOk result (pairs_of pairs.new ≡ kept_to last.now (pairs_of pairs.old)) }
{
    while remove_next(pairs, last, steps)? {}
    Ok(())
}

// The operations of a frame.
fn ops_of(alloc: Global, frame: &Frame) -> Result<Vec<Op>, AllocError>
    ensures ops { IfOk result (λ ops. ops.items ≡ ops_of frame.now) }
    ensures form { IfOk result (λ ops. IsTrue (list_any is_end ops.items) → IsTrue (has_form ops.items)) }
{
    match decode(alloc, frame.payload.as_slice()) {
        Ok(ops) => Ok(ops),
        // A mounted frame's payload was read as operations before.
        Err(OpsRefusal::BadOps { .. }) => Ok(Vec::new(alloc)),
        Err(OpsRefusal::NoMemory) => Err(AllocError),
    }
}

// Whether a snapshot ends among the operations.
fn has_end(ops: &[Op]) -> bool
    ensures { result ≡ list_any is_end ops.now }
{
    for op in ops {
        if matches!(op, Op::SnapEnd) {
            return true;
        }
    }
    false
}

/// What a mount makes of a queue's frames.
#[derive(Drop)]
pub(crate) struct Recovered {
    pub pairs: PTree<Bytes>,
    /// Where the priorities of further entries come from.
    pub random: Pcg32,
    /// The key of the last item of the snapshot in progress.
    pub cursor: Option<Bytes>,
    /// The number from which the frames of that snapshot rise.
    pub began: u64,
    /// The number below which frames aren't needed.
    pub discarded: u64,
}

fn recover_in<L: Ledger>(
    alloc: Global,
    frames: &[Frame],
    seed: u64,
    blank: Blank,
) -> Result<Recovered, AllocError>
    requires name { blank.name ≡ L.name }
    requires parts { blank.parts ≡ L.parts }
    requires some { 0 < blank.parts }
    requires numbers { Rises 0 frames.now }
    ensures stand { IfOk result (λ r. Stand r.discarded r.began (pairs_of r.pairs) r.cursor frames.now) }
    ensures points { IfOk result (λ r. record { discarded = r.discarded; began = r.began } ≡ points_of frames.now) }
    ensures order { IfOk result (λ r. r.discarded ≤ r.began) }
    ensures below { IfOk result (λ r. (next : ℕ) → AllByRecursion (λ frame. frame.seq < next) frames.now → r.began ≤ next) }
{
    let mut steps = Steps::<L>::new(blank);
    let mut recovery = Recovery::new(alloc, seed);
    let mut began = 0;
    let mut discarded = 0;
    for frame in frames {
        if recovery.frame(frame, &mut steps)? {
            discarded = began;
            began = frame.seq.saturating_add(1);
        }
    }
    Ok(Recovered {
        pairs: recovery.pairs,
        random: recovery.random,
        cursor: recovery.last,
        began,
        discarded,
    })
}

/// What frames, whose numbers rise, make of the empty map. Its entries' priorities come from the seed.
pub(crate) fn recover(alloc: Global, frames: &[Frame], seed: u64) -> Result<Recovered, AllocError>
    requires numbers { Rises 0 frames.now }
    ensures stand { IfOk result (λ r. Stand r.discarded r.began (pairs_of r.pairs) r.cursor frames.now) }
    ensures points { IfOk result (λ r. record { discarded = r.discarded; began = r.began } ≡ points_of frames.now) }
    ensures order { IfOk result (λ r. r.discarded ≤ r.began) }
    ensures below { IfOk result (λ r. (next : ℕ) → AllByRecursion (λ frame. frame.seq < next) frames.now → r.began ≤ next) }
{
    recover_in::<Brand>(alloc, frames, seed, Blank::new(1))
}
