//! The updates of a piece that is fetched.
ghost use Rattle.std.specs.Prelude.{◌≡◌, [], ◌∷◌, ◌++◌, IfOk, OnErr, OnOk, IsTrue};
ghost use Rattle.st_key.specs.Spans.{key_less};
ghost use Rattle.st_adding.specs.Updates.{below, dropped_to, from, part_of, updates_from, updates_in, with_batch};

use st_key::{Key, Range};
use st_mutation::{Batch, Mutation, clip};
use std::alloc::{AllocError, Global};
use std::marker::Model;

/// The updates that are held of a piece of the keys while it is fetched: the parts inside the piece of what came above the version
/// of the fetch, each with its version, in their order. Atomic operations are held as they are.
#[derive(Drop)]
pub struct Held {
    alloc: Global,
    piece: Range,
    at: u64,
    updates: Vec<(u64, Mutation)>,
}

impl Model for Held {
    ghost use Rattle.st_adding.specs.Updates.{Holding};

    ghost Value = { Holding };

    ghost view = { λ held. record { piece = held.piece; at = held.at; updates = held.updates.items } };
}

// Adds the part of a mutation inside a range, with its version.
fn push_part(
    parts: &mut Vec<(u64, Mutation)>,
    version: u64,
    mutation: &Mutation,
    to: &Range,
) -> Result<(), AllocError>
    ensures { OnOk result (parts.new.items ≡ parts.old.items ++ updates_in to.now ((version, mutation.now) ∷ [])) }
{
    match clip(mutation, to)? {
        Some(part) => parts.push((version, part))?,
        None => {}
    }
    Ok(())
}

// The parts of a batch's mutations inside a range.
fn parts_of_batch(
    alloc: Global,
    batch: &Batch,
    to: &Range,
) -> Result<Vec<(u64, Mutation)>, AllocError>
    ensures { IfOk result (λ parts. parts.items ≡ updates_in to.now (updates_from batch.now)) }
{
    let mut parts = Vec::new(alloc);
    for mutation in batch.mutations.as_slice() {
        push_part(&mut parts, batch.version, mutation, to)?;
    }
    Ok(parts)
}

// The parts of updates inside a range.
fn parts_of(
    alloc: Global,
    updates: &[(u64, Mutation)],
    to: &Range,
) -> Result<Vec<(u64, Mutation)>, AllocError>
    ensures { IfOk result (λ parts. parts.items ≡ updates_in to.now updates.now) }
{
    let mut parts = Vec::new(alloc);
    for update in updates {
        push_part(&mut parts, update.0, &update.1, to)?;
    }
    Ok(parts)
}

// The keys from one up to another.
fn range_between(begin: &Key, end: &Key) -> Result<Range, AllocError>
    requires { IsTrue (key_less begin.now end.now) }
    ensures { IfOk result (λ range. range ≡ record { begin = begin.now; end = end.now }) }
{
    match Range::new(begin.clone()?, end.clone()?) {
        Ok(range) => Ok(range),
        Err(_) => unreachable!(),
    }
}

impl Held {
    /// Nothing is held yet of a piece that is fetched at a version. It takes no memory.
    pub fn new(alloc: Global, piece: Range, at: u64) -> Held
        ensures { result ≡ record { piece = piece; at = at; updates = [] } }
    {
        Held {
            alloc,
            piece,
            at,
            updates: Vec::new(alloc),
        }
    }

    /// Holds the parts of a batch's mutations that are inside the piece.
    pub fn hold(&mut self, batch: &Batch) -> Result<(), AllocError>
        ensures ok { OnOk result (self.new ≡ with_batch batch.now self.old) }
        ensures err { OnErr result (self.new ≡ self.old) }
    {
        let mut parts = parts_of_batch(self.alloc, batch, &self.piece)?;
        self.updates.append(&mut parts)
    }

    /// Gives up the updates above a version, which undoes a `hold` of it. It takes no memory.
    pub fn drop_to(&mut self, version: u64)
        ensures { self.new ≡ dropped_to version self.old }
    {
        self.updates.retain(|update| update.0 <= version);
    }

    // What is held of a part of the keys.
    fn part(&self, piece: Range) -> Result<Held, AllocError>
        ensures { IfOk result (λ held. held ≡ part_of piece self.now) }
    {
        Ok(Held {
            alloc: self.alloc,
            updates: parts_of(self.alloc, &self.updates, &piece)?,
            piece,
            at: self.at,
        })
    }

    /// Cuts the piece at a key: what is held of its keys below the key stays, and what is held of those from the key on is handed
    /// out. A clear across the key is held on both sides.
    pub fn split(&mut self, key: &Key) -> Result<Held, AllocError>
        requires above { IsTrue (key_less self.old.piece.begin key.now) }
        requires below { IsTrue (key_less key.now self.old.piece.end) }
        ensures ok { IfOk result (λ right. (self.new ≡ below key.now self.old) × (right ≡ from key.now self.old)) }
        ensures err { OnErr result (self.new ≡ self.old) }
    {
        let left = self.part(range_between(self.piece.begin(), key)?)?;
        let right = self.part(range_between(key, self.piece.end())?)?;
        *self = left;
        Ok(right)
    }

    /// The updates, which are held no more. It takes no memory.
    pub fn release(self) -> Vec<(u64, Mutation)>
        ensures { result.items ≡ self.updates }
    {
        let Held {
            alloc: _,
            piece: _,
            at: _,
            updates,
        } = self;
        updates
    }
}
