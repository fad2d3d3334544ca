//! The keys that a log's moves leave to the server.
ghost use Rattle.std.specs.Prelude.{◌≡◌, ℕ, List, IsTrue, fold, OnOk, IfOk};
ghost use Rattle.st_fold.specs.Assigned.{assigned_by, is_assigned};
ghost use Rattle.st_key.specs.Spans.{holds, is_canonical};

use st_key::Ranges;
use st_mutation::{Batch, Move};
use std::alloc::AllocError;

/// The keys that are assigned at a version, where the server owns some before the log begins.
pub fn assigned_to(own: &Ranges, log: &[Batch], version: u64) -> Result<Ranges, AllocError>
    ensures keys { IfOk result (λ assigned. (key : List ℕ)
        → holds assigned key ≡ is_assigned own.now log.now version key) }
    ensures canonical { IfOk result (λ assigned. IsTrue (is_canonical assigned)) }
{
    let mut assigned = own.clone()?;
    for batch in log {
        if batch.version <= version {
            move_keys(&mut assigned, batch.moves.as_slice())?;
        }
    }
    let _ = assigned.pieces();
    Ok(assigned)
}

fn move_keys(assigned: &mut Ranges, moves: &[Move]) -> Result<(), AllocError>
    ensures { OnOk result ((key : List ℕ)
        → holds assigned.new key ≡ fold (assigned_by key) (holds assigned.old key) moves.now) }
{
    for change in moves {
        match change {
            Move::Assign(range) => assigned.add(range)?,
            Move::Release(range) => assigned.remove(range)?,
        }
    }
    Ok(())
}
