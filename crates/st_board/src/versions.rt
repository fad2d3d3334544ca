//! The versions above a base.
ghost use Rattle.std.specs.Prelude.{◌≡◌, ◌≤◌, ◌<◌, ◌∷◌, [], None, OnOk, OnErr};
ghost use Rattle.std.specs.List.{AllByRecursion};
ghost use Rattle.st_board.specs.Logs.{HasShortKey};
ghost use Rattle.st_board.specs.Storing.{all_stored};
ghost use Rattle.st_ptree.specs.Entries.{pairs_of};
ghost use Rattle.st_versioned.specs.Window.{Stands, begun, sealed};

use crate::storing::store_all;
use bytes::Bytes;
use st_model::Piece;
use st_mutation::Batch;
use st_ptree::{PTree, Steps};
use st_versioned::{Window, abandoning_undoes};
use std::alloc::{AllocError, Global};
use std::sync::ledger::{Blank, Ledger};

/// Makes a batch the next version: its mutations, as far as they are in pieces that take them.
pub(crate) fn put<L: Ledger>(
    alloc: Global,
    window: &mut Window,
    base: &PTree<Bytes>,
    batch: &Batch,
    pieces: &[Piece],
    steps: &mut Steps<L>,
) -> Result<(), AllocError>
    requires sealed { window.old.making ≡ None }
    requires above { window.old.newest < batch.now.version }
    requires short { AllByRecursion HasShortKey batch.now.mutations }
    ensures ok { OnOk result (window.new ≡ sealed (all_stored (pairs_of base.now) pieces.now (begun batch.now.version window.old) batch.now.mutations)) }
    ensures err { OnErr result (window.new ≡ window.old) }
    ensures stands { Stands window.new }
{
    abandoning_undoes();
    let _ = window.making();
    window.begin(batch.version)?;
    match store_all(
        alloc,
        window,
        base,
        batch.mutations.as_slice(),
        pieces,
        steps,
    ) {
        Ok(()) => {
            window.seal();
            Ok(())
        }
        Err(error) => {
            window.abandon();
            Err(error)
        }
    }
}

/// The same, with steps that are counted for no one.
pub(crate) fn put_next<L: Ledger>(
    alloc: Global,
    window: &mut Window,
    base: &PTree<Bytes>,
    batch: &Batch,
    pieces: &[Piece],
    blank: Blank,
) -> Result<(), AllocError>
    requires sealed { window.old.making ≡ None }
    requires above { window.old.newest < batch.now.version }
    requires short { AllByRecursion HasShortKey batch.now.mutations }
    requires name { blank.name ≡ L.name }
    requires parts { blank.parts ≡ L.parts }
    requires some { 0 < blank.parts }
    ensures ok { OnOk result (window.new ≡ sealed (all_stored (pairs_of base.now) pieces.now (begun batch.now.version window.old) batch.now.mutations)) }
    ensures err { OnErr result (window.new ≡ window.old) }
    ensures stands { Stands window.new }
{
    let mut steps = Steps::<L>::new(blank);
    put(alloc, window, base, batch, pieces, &mut steps)
}
