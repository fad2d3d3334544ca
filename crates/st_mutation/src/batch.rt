//! The log: batches of shard moves and mutations, one a version.
ghost use Rattle.std.specs.Prelude.{◌≡◌, IfOk};

use st_atomic::AtomicOp;
use st_key::{Key, Range, Value};
use st_list::Items;
use std::alloc::{AllocError, Global};

/// One change of the map.
///
/// A clone shares the bytes of keys and values.
#[derive(Debug, Drop, PartialEq, Eq)]
pub enum Mutation {
    /// The key has the value from now on.
    Set(Key, Value),
    /// The keys of the range have no value from now on.
    Clear(Range),
    /// The operation makes the key's value anew, of the value that it has and this operand.
    Atomic(AtomicOp, Key, Value),
}

/// A change of the keys that the server is to serve.
///
/// A clone shares the bytes of the range's ends.
#[derive(Debug, Drop, PartialEq, Eq)]
pub enum Move {
    /// The range is given to the server.
    Assign(Range),
    /// The range is taken from the server.
    Release(Range),
}

/// What one version changes: its moves, then its mutations, each in order.
#[derive(Debug, Drop)]
pub struct Batch {
    pub version: u64,
    pub moves: Items<Move>,
    pub mutations: Items<Mutation>,
}

impl Clone for Mutation {
    ghost is_clone = { λ mutation copy. copy ≡ mutation };

    fn clone(&self) -> Result<Mutation, AllocError> {
        Ok(match self {
            Mutation::Set(key, value) => Mutation::Set(key.clone()?, value.clone()?),
            Mutation::Clear(range) => Mutation::Clear(range.clone()?),
            Mutation::Atomic(op, key, operand) => {
                Mutation::Atomic(*op, key.clone()?, operand.clone()?)
            }
        })
    }
}

impl Clone for Move {
    ghost is_clone = { λ step copy. copy ≡ step };

    fn clone(&self) -> Result<Move, AllocError> {
        Ok(match self {
            Move::Assign(range) => Move::Assign(range.clone()?),
            Move::Release(range) => Move::Release(range.clone()?),
        })
    }
}

impl Batch {
    /// An equal batch, which shares the bytes of keys and values.
    pub fn copy(&self, alloc: Global) -> Result<Batch, AllocError>
        ensures { IfOk result (λ copy. copy ≡ self.now) }
    {
        Ok(Batch {
            version: self.version,
            moves: copy_of_moves(alloc, self.moves.as_slice())?,
            mutations: copy_of_mutations(alloc, self.mutations.as_slice())?,
        })
    }
}

fn copy_of_moves(alloc: Global, moves: &[Move]) -> Result<Items<Move>, AllocError>
    ensures { IfOk result (λ copy. copy ≡ moves.now) }
{
    let mut copy = Items::new(alloc);
    for step in moves {
        copy.push(step.clone()?)?;
    }
    Ok(copy)
}

fn copy_of_mutations(alloc: Global, mutations: &[Mutation]) -> Result<Items<Mutation>, AllocError>
    ensures { IfOk result (λ copy. copy ≡ mutations.now) }
{
    let mut copy = Items::new(alloc);
    for mutation in mutations {
        copy.push(mutation.clone()?)?;
    }
    Ok(copy)
}
