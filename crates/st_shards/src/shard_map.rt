//! The map of all keys below ff: which the server has, which it fetches, and which aren't its own.
ghost use Rattle.std.specs.Prelude.{◌≡◌, ◌<◌, ◌∷◌, [], ℕ, Some, length, map, slice_set, slice_index_or, IfOk, IfErr, OnOk, OnErr, IsTrue, MatchResult, None, false};
ghost use Rattle.st_key.specs.Spans.{key_less, all_keys};
ghost use Rattle.st_mutation.specs.declared.batch.Move.TheVariants as moves;
ghost use Rattle.st_model.specs.Pieces.{by_phase, rows_taken, rows_in_base, inject, first_pieces, move_piece, begins, change_at, start_piece, block_piece, wants_fetch, takes_block, wants_block};
ghost use Rattle.st_model.specs.Partition.{IsPartition, phase_at, AreServed, IsFirstUnserved};
ghost use Rattle.st_model.specs.declared.piece.Piece.{Piece};
ghost use Rattle.st_shards.specs.Refusals.{RefusesNotDue, IsSplitOff};
ghost use Rattle.st_shards.specs.Unserved.{first_unserved};

use crate::moves::Change;
use crate::opening::first_slots;
use crate::phases::{advanced, greatest, is_whole, split_off, started, taken};
use crate::refusal::ShardRefusal;
use crate::slots::Slots;
use st_key::{Key, Range, Ranges};
use st_model::{Phase, Piece};
use std::alloc::{AllocError, Global};
use std::marker::Model;

/// All keys below ff in pieces, each in its phase. Pieces are cut by moves and splits, and never merged.
#[derive(Drop)]
pub struct ShardMap {
    slots: Slots,
}

impl Model for ShardMap {
    ghost use Rattle.std.specs.Prelude.{List};
    ghost use Rattle.st_model.specs.declared.piece.Piece.{Piece};
    ghost use Rattle.st_model.specs.Partition.{IsPartition};
    ghost use Rattle.st_shards.specs.Begun.{AreBegun};

    ghost Value = { List Piece };

    ghost view = { λ shards. shards.slots };

    ghost invariant = { λ shards. IsPartition shards.slots × AreBegun shards.slots };
}

impl Slots {
    // Settles each piece for a commit that is durable.
    fn settle_all(&mut self, durable: u64)
        ensures { self.new ≡ by_phase (rows_in_base durable) self.old }
    {
        for at in 0..self.as_slice().len() {
            self.settle(at, durable);
        }
    }

    // Sends the piece at a place to the versioned map, where it is whole.
    fn inject_one(&mut self, at: usize, version: u64)
        requires { at < length self.old }
        ensures { (other : Piece) → self.new ≡ slice_set self.old at (inject version (slice_index_or self.old at other)) }
    {
        if is_whole(&self.as_slice()[at]) {
            self.set_phase(
                at,
                Phase::Waiting {
                    transferred: version,
                },
            );
        }
    }

    // Sends each piece that is whole to the versioned map.
    fn inject_all(&mut self, version: u64)
        ensures { self.new ≡ map (inject version) self.old }
    {
        for at in 0..self.as_slice().len() {
            self.inject_one(at, version);
        }
    }
}

impl Slots {
    // The pieces once a commit has taken the rows that were fetched.
    fn with_rows_taken(&self) -> Result<Slots, AllocError>
        ensures { IfOk result (λ slots. slots ≡ by_phase rows_taken self.now) }
    {
        let mut slots = self.none_yet();
        for piece in self.as_slice() {
            slots.push(taken(piece)?)?;
        }
        Ok(slots)
    }
}

impl ShardMap {
    /// The pieces of an opening at version `since`, cut at the ends of the ranges: available keys are readable, those
    /// that are assigned alone wait to be fetched, and the others are absent. It looks through the ranges for each piece.
    pub fn new(
        alloc: Global,
        assigned: &Ranges,
        available: &Ranges,
        since: u64,
    ) -> Result<ShardMap, ShardRefusal>
        ensures ok { IfOk result (λ shards. shards ≡ first_pieces since available.now assigned.now) }
        ensures refused { IfErr result (λ why. why ≡ ShardRefusal.NoMemory) }
    {
        st_model::openings_part_the_keys();
        let slots = first_slots(alloc, since, available, assigned)?;
        Ok(ShardMap { slots })
    }

    /// The range is given to the server: what is absent of it waits until what took it away is durable.
    pub fn assign(&mut self, range: &Range) -> Result<(), ShardRefusal>
        ensures ok { OnOk result ((version : ℕ) → self.new ≡ move_piece version self.old (moves.Assign range.now)) }
        ensures err { OnErr result (self.new ≡ self.old) }
        ensures refused { IfErr result (λ why. why ≡ ShardRefusal.NoMemory) }
    {
        st_model::moves_part_the_keys();
        self.slots.change_within(range, Change::Assign)?;
        Ok(())
    }

    /// The range is taken from the server by the batch of a version: all of it is absent.
    pub fn release(&mut self, range: &Range, version: u64) -> Result<(), ShardRefusal>
        ensures ok { OnOk result (self.new ≡ move_piece version self.old (moves.Release range.now)) }
        ensures err { OnErr result (self.new ≡ self.old) }
        ensures refused { IfErr result (λ why. why ≡ ShardRefusal.NoMemory) }
    {
        st_model::moves_part_the_keys();
        self.slots
            .change_within(range, Change::Release { version })?;
        Ok(())
    }

    /// A fetch of the piece that begins at `begin` starts at version `at`. The piece waits, and what took it away is
    /// durable by `durable`. It is found by halving.
    pub fn start(&mut self, begin: &Key, at: u64, durable: u64) -> Result<(), ShardRefusal>
        requires { IsTrue (key_less begin.now all_keys.end) }
        ensures ok { OnOk result (self.new ≡ change_at begin.now (λ piece. start_piece at piece ∷ []) self.old) }
        ensures err { OnErr result (self.new ≡ self.old) }
        ensures refused { RefusesNotDue (begins (wants_fetch durable) begin.now self.old) (phase_at self.old begin.now) result }
    {
        st_model::pieces_change_at_a_place();
        let place = self.slots.place_at(begin);
        let parts = started(&self.slots.as_slice()[place], begin, at, durable)?;
        self.slots.put_parts(place, parts)?;
        Ok(())
    }

    /// The piece that begins at `begin` is fetched up to `upto`, which lies ahead of what was fetched, and at the piece's
    /// end at most. It is found by halving.
    pub fn advance(&mut self, begin: &Key, upto: &Key) -> Result<(), ShardRefusal>
        requires { IsTrue (key_less begin.now all_keys.end) }
        ensures ok { OnOk result (self.new ≡ change_at begin.now (λ piece. block_piece upto.now piece ∷ []) self.old) }
        ensures err { OnErr result (self.new ≡ self.old) }
        ensures refused { RefusesNotDue (begins (takes_block upto.now) begin.now self.old) (phase_at self.old begin.now) result }
    {
        st_model::pieces_change_at_a_place();
        let place = self.slots.place_at(begin);
        let parts = advanced(&self.slots.as_slice()[place], begin, upto)?;
        self.slots.put_parts(place, parts)?;
        Ok(())
    }

    /// The piece that begins at `begin`, and isn't fetched whole, is split: what was fetched keeps its phase, and what
    /// wasn't waits since `durable`. It is found by halving.
    pub fn split(&mut self, begin: &Key, durable: u64) -> Result<(), ShardRefusal>
        requires { IsTrue (key_less begin.now all_keys.end) }
        ensures ok { OnOk result (IsSplitOff durable begin.now self.old self.new) }
        ensures err { OnErr result (self.new ≡ self.old) }
        ensures refused { RefusesNotDue (begins wants_block begin.now self.old) (phase_at self.old begin.now) result }
    {
        st_model::pieces_change_at_a_place();
        let place = self.slots.place_at(begin);
        let parts = split_off(&self.slots.as_slice()[place], begin, durable)?;
        self.slots.put_parts(place, parts)?;
        Ok(())
    }

    /// A commit begins: it takes the rows that were fetched.
    pub fn take(&mut self) -> Result<(), ShardRefusal>
        ensures ok { OnOk result (self.new ≡ by_phase rows_taken self.old) }
        ensures err { OnErr result (self.new ≡ self.old) }
        ensures refused { IfErr result (λ why. why ≡ ShardRefusal.NoMemory) }
    {
        st_model::phases_change_in_place();
        self.slots = self.slots.with_rows_taken()?;
        Ok(())
    }

    /// A commit of this version is durable: the base has what the commit took, and what waited for this version or one
    /// below it is readable. It takes no memory.
    pub fn settle(&mut self, durable: u64)
        ensures { self.new ≡ by_phase (rows_in_base durable) self.old }
    {
        st_model::phases_change_in_place();
        self.slots.settle_all(durable);
    }

    /// Each piece that was fetched whole, and is in the base, is sent to the versioned map at this version. It takes no
    /// memory.
    pub fn inject(&mut self, version: u64)
        ensures { self.new ≡ map (inject version) self.old }
    {
        st_model::phases_change_in_place();
        self.slots.inject_all(version);
    }

    /// The phase at a key, found by halving.
    pub fn phase_at(&self, key: &[u8]) -> &Phase
        requires { IsTrue (key_less key.now all_keys.end) }
        ensures { phase_at self.now key.now ≡ Some result.now }
    {
        let at = self.slots.place_of(key);
        &self.slots.as_slice()[at].phase
    }

    /// Whether every key of the range is served: else the least one that isn't. Where it begins is found by halving.
    pub fn readable<'a>(&'a self, range: &'a Range) -> Result<(), &'a Key>
        ensures exact { MatchResult result (λ done. first_unserved self.now range.now ≡ None)
            (λ key. first_unserved self.now range.now ≡ Some key.now) }
        ensures least { key_less all_keys.end range.now.end ≡ false
            → MatchResult result (λ done. AreServed self.now range.now) (λ key. IsFirstUnserved self.now range.now key.now) }
    {
        st_model::first_unreadable_is_least();
        if let Some(piece) = self.slots.first_missing(range) {
            return Err(greatest(&piece.begin, range.begin()));
        }
        let end = self.slots.end();
        if end < range.end() {
            return Err(greatest(end, range.begin()));
        }
        Ok(())
    }

    /// The pieces in key order.
    pub fn pieces(&self) -> &[Piece]
        ensures value { result.now ≡ self.now }
        ensures partition { IsPartition self.now }
    {
        self.slots.as_slice()
    }
}
