//! Cuts of pieces, and changes of all that lies within a range.
ghost use Rattle.std.specs.Prelude.{◌≡◌, ◌<◌, ◌≤◌, ◌+◌, ◌&&◌, Bool, None, false, length, map, slice_set, slice_index_or, IfOk, OnOk, OnErr, IsTrue, MatchOption};
ghost use Rattle.std.specs.List.{AllWithin};
ghost use Rattle.std.specs.Option.{IfSome};
ghost use Rattle.st_key.specs.Spans.{key_less, all_keys};
ghost use Rattle.st_model.specs.Pieces.{span_of, lies_in, cut_where, change_within};
ghost use Rattle.st_model.specs.Partition.{IsPartition, IsPlaceOf};
ghost use Rattle.st_model.specs.declared.piece.Phase.{Phase};
ghost use Rattle.st_model.specs.declared.piece.Piece.{Piece};
ghost use Rattle.st_shards.specs.Spares.{Settles};
ghost use Rattle.st_shards.specs.Changes.{moves, moved, change_piece, undone, IsUndone};

use crate::phases::part_of;
use crate::slots::{Slot, Slots};
use st_key::{Key, Range};
use st_model::{Phase, Piece};
use std::alloc::AllocError;

/// A move of keys, as far as it is about phases.
#[derive(Clone, Copy)]
pub enum Change {
    /// The keys are given to the server.
    Assign,
    /// They are taken from it by the batch of this version.
    Release { version: u64 },
}

/// What a cut replaced: the whole piece, and the places of its two parts.
#[derive(Drop)]
pub struct Cut {
    left: usize,
    right: usize,
    whole: Slot,
}

// Whether `a` comes before `b` in the order of bytes.
fn is_less(a: &[u8], b: &[u8]) -> bool
    ensures { result ≡ key_less a.now b.now }
{
    a < b
}

// What a change makes of a phase, where it is about it.
fn moved(change: Change, phase: &Phase) -> Option<Phase>
    ensures { MatchOption result (moves change phase.now ≡ false)
        (λ next. IsTrue (moves change phase.now) × (next ≡ moved change phase.now) × Settles next None) }
{
    match change {
        Change::Assign => match phase {
            Phase::Absent { since } => Some(Phase::WaitPrevious { since: *since }),
            _ => None,
        },
        Change::Release { version } => match phase {
            Phase::Absent { .. } => None,
            _ => Some(Phase::Absent { since: version }),
        },
    }
}

// Whether a change is about the piece, and the place above its begin.
fn is_cut(piece: &Piece, place: &Key, change: Change) -> bool
    ensures { result ≡ (key_less piece.now.begin place.now && moves change piece.now.phase) }
{
    piece.begin < *place && moved(change, &piece.phase).is_some()
}

// Whether every key of the piece is in the range.
fn lies_in(piece: &Piece, range: &Range) -> bool
    ensures { result ≡ lies_in (span_of piece.now) range.now }
{
    piece.begin >= *range.begin() && *range.end() >= piece.end
}

impl Slots {
    /// The place of the first piece that ends above the key, found by halving.
    pub fn place_of(&self, key: &[u8]) -> usize
        ensures bound { result ≤ length self.now }
        ensures held { IsPartition self.now → result < length self.now → IsPlaceOf self.now key.now result }
        ensures in_range { IsPartition self.now → IsTrue (key_less key.now all_keys.end) → result < length self.now }
        ensures ended { IsPartition self.now → AllWithin (λ piece. key_less key.now piece.end ≡ false) self.now 0 result }
        ensures ending { IsPartition self.now
            → AllWithin (λ piece. IsTrue (key_less key.now piece.end)) self.now result (length self.now) }
        ensures past { IsPartition self.now → result ≡ length self.now
            → (test : Phase → Bool) → cut_where test key.now self.now ≡ self.now }
    {
        st_model::pieces_are_found();
        st_model::pieces_change_at_a_place();
        let pieces = self.as_slice();
        pieces.partition_point(|piece| !is_less(key, piece.end.bytes()))
    }

    /// The place of the piece that has a key below ff, found by halving.
    pub fn place_at(&self, key: &Key) -> usize
        requires parted { IsPartition self.now }
        requires below { IsTrue (key_less key.now all_keys.end) }
        ensures in_range { result < length self.now }
        ensures held { IsPlaceOf self.now key.now result }
    {
        self.place_of(key.bytes())
    }

    /// Cuts the piece that has the place inside, where the change is about its phase. What the cut replaced is handed
    /// out.
    pub fn cut(&mut self, place: &Key, change: Change) -> Result<Option<Cut>, AllocError>
        requires { IsPartition self.old }
        ensures ok { OnOk result (self.new ≡ cut_where (moves change) place.now self.old) }
        ensures undo { IfOk result (IsUndone self.old self.new) }
        ensures err { OnErr result (self.new ≡ self.old) }
    {
        st_model::pieces_change_at_a_place();
        let at = self.place_of(place.bytes());
        if at == self.as_slice().len() {
            return Ok(None);
        }
        let piece = &self.as_slice()[at];
        if is_cut(piece, place, change) {
            let left = part_of(piece, &piece.begin, place)?;
            let right = part_of(piece, place, &piece.end)?;
            self.insert(at + 1, right)?;
            let whole = self.replace(at, left);
            return Ok(Some(Cut {
                left: at,
                right: at + 1,
                whole,
            }));
        }
        Ok(None)
    }

    // Puts back what a cut replaced.
    fn undo(&mut self, cut: Option<Cut>)
        requires { IfSome cut (λ cut. (cut.left + 1 ≡ cut.right) × (cut.right < length self.old)) }
        ensures { self.new ≡ undone self.old cut }
    {
        if let Some(Cut { left, right, whole }) = cut {
            self.remove(right);
            let _ = self.replace(left, whole);
        }
    }

    // Changes the piece at a place, where it lies in the range and the change is about its phase.
    fn change_one(&mut self, at: usize, range: &Range, change: Change)
        requires { at < length self.old }
        ensures { (other : Piece) → self.new ≡ slice_set self.old at (change_piece range.now change (slice_index_or self.old at other)) }
    {
        let piece = &self.as_slice()[at];
        if lies_in(piece, range) {
            if let Some(phase) = moved(change, &piece.phase) {
                self.set_phase(at, phase);
            }
        }
    }

    // Changes each piece that lies in the range, where the change is about its phase.
    fn change_inside(&mut self, range: &Range, change: Change)
        ensures { self.new ≡ map (change_piece range.now change) self.old }
    {
        for at in 0..self.as_slice().len() {
            self.change_one(at, range, change);
        }
    }

    /// Cuts the pieces at both ends of the range, and changes those that lie in it, where the change is about their
    /// phases.
    pub fn change_within(&mut self, range: &Range, change: Change) -> Result<(), AllocError>
        requires { IsPartition self.old }
        ensures ok { OnOk result (self.new ≡ change_within range.now (moves change) (moved change) self.old) }
        ensures err { OnErr result (self.new ≡ self.old) }
    {
        st_model::cuts_part_the_keys();
        let first = self.cut(range.begin(), change)?;
        match self.cut(range.end(), change) {
            Ok(_) => {
                self.change_inside(range, change);
                Ok(())
            }
            Err(error) => {
                self.undo(first);
                Err(error)
            }
        }
    }
}
