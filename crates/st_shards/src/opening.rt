//! The pieces of an opening.
ghost use Rattle.std.specs.Prelude.{◌≡◌, ◌<◌, ◌∷◌, [], ℕ, List, None, length, map, slice_set, slice_index_or, IfOk, OnOk};
ghost use Rattle.st_key.specs.Spans.{Span, all_keys, holds};
ghost use Rattle.st_model.specs.Pieces.{cut_keys, ends_of, first_phase, first_pieces, in_phase};
ghost use Rattle.st_model.specs.Partition.{IsPartition};
ghost use Rattle.st_model.specs.declared.piece.Piece.{Piece};
ghost use Rattle.st_shards.specs.Blank.{blank, cut_all, opened_piece};
ghost use Rattle.st_shards.specs.Spares.{Settles};

use crate::moves::Change;
use crate::slots::{Slot, Slots};
use st_key::{Key, Range, Ranges};
use st_model::{Phase, Piece};
use std::alloc::{AllocError, Global};

// A key of these bytes, which are few.
fn key_of(alloc: Global, bytes: &[u8]) -> Result<Key, AllocError>
    ensures { IfOk result (λ key. key ≡ bytes.now) }
{
    match Key::end(alloc, bytes) {
        Ok(key) => Ok(key),
        Err(_) => Err(AllocError),
    }
}

// All keys in one piece, which isn't the server's.
fn one_piece(alloc: Global, since: u64) -> Result<Slots, AllocError>
    ensures { IfOk result (λ slots. slots ≡ blank since all_keys ∷ []) }
{
    let piece = Piece {
        begin: key_of(alloc, b"")?,
        end: key_of(alloc, b"\xff")?,
        phase: Phase::Absent { since },
    };
    let mut slots = Slots::new(alloc);
    slots.push(Slot::new(piece)?)?;
    Ok(slots)
}

// The phase that keys have at an opening: available, assigned alone, or neither.
fn first_phase(since: u64, available: bool, assigned: bool) -> Phase
    ensures value { result ≡ first_phase since available assigned }
    ensures plain { Settles result None }
{
    if available {
        Phase::Readable
    } else if assigned {
        Phase::WaitPrevious { since }
    } else {
        Phase::Absent { since }
    }
}

impl Slots {
    // Cuts pieces that aren't the server's at the ends of the ranges.
    fn cut_at_ends(&mut self, ranges: &[Range]) -> Result<(), AllocError>
        requires { IsPartition self.old }
        ensures parted { OnOk result (IsPartition self.new) }
        ensures cut { OnOk result ((since : ℕ) (parts : List Span) → self.old ≡ map (blank since) parts
            → self.new ≡ map (blank since) (cut_all parts (ends_of ranges.now))) }
    {
        st_model::cuts_part_the_keys();
        for range in ranges {
            let _ = self.cut(range.begin(), Change::Assign)?;
            let _ = self.cut(range.end(), Change::Assign)?;
        }
        Ok(())
    }

    // Puts the piece at a place into the phase of an opening.
    fn open_one(&mut self, at: usize, since: u64, available: &Ranges, assigned: &Ranges)
        requires { at < length self.old }
        ensures { (other : Piece) → self.new
            ≡ slice_set self.old at (opened_piece since available.now assigned.now (slice_index_or self.old at other)) }
    {
        let begin = self.as_slice()[at].begin.bytes();
        let phase = first_phase(since, available.contains(begin), assigned.contains(begin));
        self.set_phase(at, phase);
    }

    // Puts each piece into the phase of an opening.
    fn open_all(&mut self, since: u64, available: &Ranges, assigned: &Ranges)
        ensures { self.new ≡ map (opened_piece since available.now assigned.now) self.old }
    {
        for at in 0..self.as_slice().len() {
            self.open_one(at, since, available, assigned);
        }
    }
}

/// The pieces of an opening at version `since`: all keys, cut at the ends of the ranges. It looks through the ranges for
/// each piece.
pub fn first_slots(
    alloc: Global,
    since: u64,
    available: &Ranges,
    assigned: &Ranges,
) -> Result<Slots, AllocError>
    ensures { IfOk result (λ slots. slots ≡ first_pieces since available.now assigned.now) }
{
    let mut slots = one_piece(alloc, since)?;
    slots.cut_at_ends(available.pieces())?;
    slots.cut_at_ends(assigned.pieces())?;
    slots.open_all(since, available, assigned);
    Ok(slots)
}
