//! The value of one key in the fold of a log, without the map.
ghost use Rattle.std.specs.Prelude.{◌≡◌, fold, IfOk};
ghost use Rattle.st_fold.specs.Map.{folded, value_at};
ghost use Rattle.st_mutation.specs.Effect.{value_by};

use crate::atomic::value_after;
use st_key::Value;
use st_mutation::{Batch, Mutation};
use std::alloc::{AllocError, Global};

/// The value that a key has in the fold of a log up to a version. It takes time linear in the log.
pub fn value_to(
    alloc: Global,
    log: &[Batch],
    key: &[u8],
    version: u64,
) -> Result<Option<Value>, AllocError>
    ensures { IfOk result (λ value. value ≡ value_at (folded log.now version) key.now) }
{
    let mut found = None;
    for batch in log {
        if batch.version <= version {
            found = value_after_all(alloc, batch.mutations.as_slice(), key, found)?;
        }
    }
    Ok(found)
}

// The value of a key after these mutations, where it had this one before them.
fn value_after_all(
    alloc: Global,
    mutations: &[Mutation],
    key: &[u8],
    before: Option<Value>,
) -> Result<Option<Value>, AllocError>
    ensures { IfOk result (λ value. value ≡ fold (value_by key.now) before mutations.now) }
{
    let mut found = before;
    for mutation in mutations {
        match mutation {
            Mutation::Set(other, value) => {
                if key == other.bytes() {
                    found = Some(value.clone()?);
                }
            }
            Mutation::Clear(range) => {
                if range.contains(key) {
                    found = None;
                }
            }
            Mutation::Atomic(op, other, operand) => {
                if key == other.bytes() {
                    found = value_after(alloc, *op, found.as_ref(), operand)?;
                }
            }
        }
    }
    Ok(found)
}
