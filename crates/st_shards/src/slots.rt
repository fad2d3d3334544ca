//! A list of pieces, each with the copy of a key that settling it takes.
ghost use Rattle.std.specs.Prelude.{◌≡◌, ◌<◌, ◌≤◌, ◌++◌, [], ◌∷◌, None, suc, drop, length, slice_set, slice_index_or, take, IfOk, OnOk, OnErr};
ghost use Rattle.std.specs.List.{insert, remove};
ghost use Rattle.st_model.specs.Pieces.{in_phase, rows_in_base};
ghost use Rattle.st_model.specs.declared.piece.Piece.{Piece};
ghost use Rattle.st_shards.specs.Parts.{parts_list};
ghost use Rattle.st_shards.specs.Spares.{Settles};

use st_key::Key;
use st_model::{Phase, Piece};
use std::alloc::{AllocError, Global};
use std::marker::Model;
use std::mem;

/// A piece, and a spare key. Where the piece is fetched, its `in_base` becomes the spare key when a commit is durable,
/// or stays where there is none; either way it is then `taken`.
#[derive(Drop)]
pub struct Slot {
    piece: Piece,
    spare: Option<Key>,
}

impl Model for Slot {
    ghost use Rattle.st_model.specs.declared.piece.Piece.{Piece};
    ghost use Rattle.st_shards.specs.Spares.{Settles};

    ghost Value = { Piece };

    ghost view = { λ slot. slot.piece };

    ghost invariant = { λ slot. Settles slot.piece.phase slot.spare };
}

impl Slot {
    /// The piece, with the spare key that it needs.
    pub fn new(piece: Piece) -> Result<Slot, AllocError>
        ensures { IfOk result (λ slot. slot ≡ piece) }
    {
        let spare = spare_of(&piece.phase)?;
        Ok(Slot { piece, spare })
    }
}

// A copy of how far the flight has taken a fetched piece.
fn spare_of(phase: &Phase) -> Result<Option<Key>, AllocError>
    ensures { IfOk result (λ spare. Settles phase.now spare) }
{
    match phase {
        Phase::Fetching { taken, .. } => Ok(Some(taken.clone()?)),
        _ => Ok(None),
    }
}

// The phase after a durable commit, for which the spare key is used up.
fn settled(phase: Phase, spare: Option<Key>, durable: u64) -> Phase
    requires { Settles phase spare }
    ensures value { result ≡ rows_in_base durable phase }
    ensures settled { Settles result None }
{
    match phase {
        Phase::Fetching {
            at,
            upto,
            taken,
            in_base,
        } => Phase::Fetching {
            at,
            upto,
            taken,
            in_base: spare.unwrap_or(in_base),
        },
        Phase::Waiting { transferred } if transferred <= durable => Phase::Readable,
        other => other,
    }
}

/// What comes in place of one piece: one piece, or two.
#[derive(Drop)]
pub struct Parts {
    pub first: Slot,
    pub second: Option<Slot>,
}

/// Pieces in order, each with its spare key.
#[derive(Drop)]
pub struct Slots {
    pieces: Vec<Piece>,
    spares: Vec<Option<Key>>,
}

impl Model for Slots {
    ghost use Rattle.std.specs.Prelude.{List};
    ghost use Rattle.st_model.specs.declared.piece.Piece.{Piece};
    ghost use Rattle.st_shards.specs.Spares.{AreSettled};

    ghost Value = { List Piece };

    ghost view = { λ slots. slots.pieces.items };

    ghost invariant = { λ slots. AreSettled slots.pieces.items slots.spares.items };
}

impl Slots {
    /// No pieces.
    pub fn new(alloc: Global) -> Slots
        ensures { result ≡ [] }
    {
        Slots {
            pieces: Vec::new(alloc),
            spares: Vec::new(alloc),
        }
    }

    /// The pieces in order.
    pub fn as_slice(&self) -> &[Piece]
        ensures { result.now ≡ self.now }
    {
        &self.pieces
    }

    /// Puts a piece behind the others.
    pub fn push(&mut self, slot: Slot) -> Result<(), AllocError>
        ensures ok { OnOk result (self.new ≡ self.old ++ slot ∷ []) }
        ensures err { OnErr result (self.new ≡ self.old) }
    {
        self.pieces.reserve(1)?;
        self.spares.reserve(1)?;
        let Slot { piece, spare } = slot;
        self.pieces.push(piece)?;
        self.spares.push(spare)?;
        Ok(())
    }

    /// Puts a piece in before that at `at`.
    pub fn insert(&mut self, at: usize, slot: Slot) -> Result<(), AllocError>
        requires { at ≤ length self.old }
        ensures ok { OnOk result (self.new ≡ insert self.old at slot) }
        ensures err { OnErr result (self.new ≡ self.old) }
    {
        self.pieces.reserve(1)?;
        self.spares.reserve(1)?;
        let Slot { piece, spare } = slot;
        self.pieces.insert(at, piece)?;
        self.spares.insert(at, spare)?;
        Ok(())
    }

    /// Takes the piece at `at` out.
    pub fn remove(&mut self, at: usize)
        requires { at < length self.old }
        ensures { self.new ≡ remove self.old at }
    {
        let _ = self.pieces.remove(at);
        let _ = self.spares.remove(at);
    }

    /// Puts a piece in place of that at `at`, which is handed back.
    pub fn replace(&mut self, at: usize, slot: Slot) -> Slot
        requires { at < length self.old }
        ensures items { self.new ≡ slice_set self.old at slot }
        ensures handed { result ≡ slice_index_or self.old at result }
    {
        let Slot { piece, spare } = slot;
        let piece = mem::replace(&mut self.pieces[at], piece);
        let spare = mem::replace(&mut self.spares[at], spare);
        Slot { piece, spare }
    }

    /// Puts parts in place of the piece at `at`.
    pub fn put_parts(&mut self, at: usize, parts: Parts) -> Result<(), AllocError>
        requires { at < length self.old }
        ensures ok { OnOk result (self.new ≡ take at self.old ++ (parts_list parts ++ drop (suc at) self.old)) }
        ensures err { OnErr result (self.new ≡ self.old) }
    {
        let _ = &self.pieces;
        let Parts { first, second } = parts;
        match second {
            Some(second) => {
                self.insert(at + 1, second)?;
                let _ = self.replace(at, first);
                Ok(())
            }
            None => {
                let _ = self.replace(at, first);
                Ok(())
            }
        }
    }

    /// No pieces, in memory of the same kind.
    pub fn none_yet(&self) -> Slots
        ensures { result ≡ [] }
    {
        Slots::new(*self.pieces.allocator())
    }

    /// Puts the piece at `at` into another phase, in which it isn't fetched.
    pub fn set_phase(&mut self, at: usize, phase: Phase)
        requires in_range { at < length self.old }
        requires plain { Settles phase None }
        ensures { (other : Piece) → self.new ≡ slice_set self.old at (in_phase phase (slice_index_or self.old at other)) }
    {
        self.pieces[at].phase = phase;
        self.spares[at] = None;
    }

    /// Settles the piece at `at` for a commit that is durable.
    pub fn settle(&mut self, at: usize, durable: u64)
        requires { at < length self.old }
        ensures { (other : Piece) → self.new
            ≡ slice_set self.old at (in_phase (rows_in_base durable (slice_index_or self.old at other).phase) (slice_index_or self.old at other)) }
    {
        let spare = mem::replace(&mut self.spares[at], None);
        let piece = &mut self.pieces[at];
        let phase = mem::replace(&mut piece.phase, Phase::Readable);
        piece.phase = settled(phase, spare, durable);
    }
}
