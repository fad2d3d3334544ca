//! Rows that are cut at a key.
ghost use Rattle.std.specs.Prelude.{◌≡◌, IfOk, OnOk};
ghost use Rattle.st_ptree.specs.Entries.{pairs_of};
ghost use Rattle.st_versioned.specs.Writing.{cut_at, last_below, parted, reach_of};

use crate::bound::is_less;
use crate::{Dated, Entry};
use bytes::Bytes;
use rand_core::utils::NextWord;
use rand_pcg::Pcg32;
use st_ptree::{PTree, Steps, pairs_are_a_map};
use std::alloc::AllocError;
use std::sync::ledger::Ledger;

/// A clear that reaches over a key: where it begins, its version, and its end.
#[derive(Drop)]
pub(crate) struct Reach {
    pub begin: Bytes,
    pub version: u64,
    pub end: Bytes,
}

// The clear that reaches over a key from below it.
fn reach_over<L: Ledger>(
    rows: &PTree<Dated>,
    key: &[u8],
    steps: &mut Steps<L>,
) -> Result<Option<Reach>, AllocError>
    ensures { IfOk result (λ reach. reach ≡ reach_of key.now (last_below key.now (pairs_of rows.now))) }
{
    let Some((begin, dated)) = rows.prev_before(key, steps) else {
        return Ok(None);
    };
    match &dated.entry {
        Entry::Value(_) => Ok(None),
        Entry::ClearTo(end) => {
            steps.tick();
            if !is_less(key, end.as_slice()) {
                return Ok(None);
            }
            Ok(Some(Reach {
                begin: begin.clone()?,
                version: dated.version,
                end: end.clone()?,
            }))
        }
    }
}

// Ends a clear at a key that it reaches over, and begins it anew there.
fn part<L: Ledger>(
    rows: &mut PTree<Dated>,
    reach: Reach,
    key: &Bytes,
    random: &mut Pcg32,
    steps: &mut Steps<L>,
) -> Result<(), AllocError>
    ensures { OnOk result (pairs_of rows.new ≡ parted key.now (pairs_of rows.old) reach) }
{
    pairs_are_a_map::<Dated>();
    let before = Dated {
        version: reach.version,
        entry: Entry::ClearTo(key.clone()?),
    };
    let behind = Dated {
        version: reach.version,
        entry: Entry::ClearTo(reach.end),
    };
    rows.insert(reach.begin, random.next_word(), before, steps)?;
    rows.insert(key.clone()?, random.next_word(), behind, steps)
}

/// Parts the clear that reaches over a key from below it, so that none does.
pub(crate) fn cut<L: Ledger>(
    rows: &mut PTree<Dated>,
    key: &Bytes,
    random: &mut Pcg32,
    steps: &mut Steps<L>,
) -> Result<(), AllocError>
    ensures { OnOk result (pairs_of rows.new ≡ cut_at key.now (pairs_of rows.old)) }
{
    match reach_over(rows, key.as_slice(), steps)? {
        Some(reach) => part(rows, reach, key, random, steps),
        None => Ok(()),
    }
}
