// Changes a map by operations.
ghost use Rattle.std.specs.Prelude.{◌≡◌, ◌<◌, IfOk, IsTrue, OnOk};
ghost use Rattle.std.specs.Cmp.Lexicographic.{slice_cmp};
ghost use Rattle.std.specs.FinMap.Entries.{is_sorted};
ghost use Rattle.std.specs.Ordering.{nat_cmp};
ghost use Rattle.st_ptree.specs.Entries.{pairs_of};
ghost use Rattle.st_engine.specs.Replay.{op_on, ops_on};

use bytes::Bytes;
use rand_core::utils::NextWord;
use rand_pcg::Pcg32;
use st_ops::Op;
use st_ptree::{PTree, Steps, pairs_are_a_map};
use std::alloc::AllocError;
use std::marker::Brand;
use std::sync::ledger::{Blank, Ledger};

/// Changes the map by an operation: only a set or a clear does. The priority of a new entry is the next random word.
pub(crate) fn change<L: Ledger>(
    pairs: &mut PTree<Bytes>,
    op: &Op,
    random: &mut Pcg32,
    steps: &mut Steps<L>,
) -> Result<(), AllocError>
    ensures { OnOk result (pairs_of pairs.new ≡ op_on (pairs_of pairs.old) op.now) }
{
    pairs_are_a_map::<Bytes>();
    match op {
        Op::Set(key, value) => pairs.insert(
            key.clone()?,
            random.next_word(),
            value.clone()?,
            steps,
        ),
        Op::Clear(begin, end) => pairs.erase(begin.as_slice(), end.as_slice(), steps),
        _ => Ok(()),
    }
}

fn changed_in<L: Ledger>(
    pairs: &PTree<Bytes>,
    ops: &[Op],
    random: &mut Pcg32,
    blank: Blank,
) -> Result<PTree<Bytes>, AllocError>
    requires name { blank.name ≡ L.name }
    requires parts { blank.parts ≡ L.parts }
    requires some { 0 < blank.parts }
    ensures pairs { IfOk result (λ changed. pairs_of changed ≡ ops_on (pairs_of pairs.now) ops.now) }
    ensures ordered { IsTrue (is_sorted (slice_cmp nat_cmp) (pairs_of pairs.now)) }
{
    pairs_are_a_map::<Bytes>();
    let mut steps = Steps::<L>::new(blank);
    let mut changed = pairs.share()?;
    for op in ops {
        change(&mut changed, op, random, &mut steps)?;
    }
    Ok(changed)
}

/// The map behind operations. The one that is given stays.
pub(crate) fn changed(
    pairs: &PTree<Bytes>,
    ops: &[Op],
    random: &mut Pcg32,
) -> Result<PTree<Bytes>, AllocError>
    ensures pairs { IfOk result (λ changed. pairs_of changed ≡ ops_on (pairs_of pairs.now) ops.now) }
    ensures ordered { IsTrue (is_sorted (slice_cmp nat_cmp) (pairs_of pairs.now)) }
{
    changed_in::<Brand>(pairs, ops, random, Blank::new(1))
}
