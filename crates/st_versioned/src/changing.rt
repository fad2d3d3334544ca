//! Rows that change.
ghost use Rattle.std.specs.Prelude.{◌≡◌, ◌++◌, ◌∷◌, [], IfOk, OnOk};
ghost use Rattle.st_ptree.specs.Entries.{pairs_of};
ghost use Rattle.st_versioned.specs.Writing.{without_span, written};
ghost use Rattle.st_versioned.specs.declared.change.Change.TheVariants.{Set as set_change, Clear as clear_change};

use crate::cut::cut;
use crate::{Change, Dated, Entry};
use bytes::Bytes;
use rand_core::utils::NextWord;
use rand_pcg::Pcg32;
use st_key::{Key, Range, Value};
use st_ptree::{PTree, Steps, pairs_are_a_map};
use std::alloc::{AllocError, Global};
use std::sync::ledger::Ledger;

// The first key behind a key.
fn next_key(alloc: Global, key: &[u8]) -> Result<Bytes, AllocError>
    ensures { IfOk result (λ next. next ≡ key.now ++ 0 ∷ []) }
{
    let mut bytes = Vec::from_slice(alloc, key)?;
    bytes.push(0)?;
    Ok(Bytes::from_vec(bytes)?)
}

fn set<L: Ledger>(
    alloc: Global,
    rows: &mut PTree<Dated>,
    version: u64,
    key: &Key,
    value: &Value,
    random: &mut Pcg32,
    steps: &mut Steps<L>,
) -> Result<(), AllocError>
    ensures { OnOk result (pairs_of rows.new ≡ written version (set_change key.now value.now) (pairs_of rows.old)) }
{
    pairs_are_a_map::<Dated>();
    let next = next_key(alloc, key.bytes())?;
    let key = Bytes::copy_from_slice(alloc, key.bytes())?;
    let value = Bytes::copy_from_slice(alloc, value.bytes())?;
    cut(rows, &key, random, steps)?;
    cut(rows, &next, random, steps)?;
    let dated = Dated {
        version,
        entry: Entry::Value(value),
    };
    rows.insert(key, random.next_word(), dated, steps)
}

// Takes out what is written from `begin` up to `end`.
fn erase<L: Ledger>(
    rows: &mut PTree<Dated>,
    begin: &Bytes,
    end: &Bytes,
    random: &mut Pcg32,
    steps: &mut Steps<L>,
) -> Result<(), AllocError>
    ensures { OnOk result (pairs_of rows.new ≡ without_span (record { begin = begin.now; end = end.now }) (pairs_of rows.old)) }
{
    pairs_are_a_map::<Dated>();
    cut(rows, begin, random, steps)?;
    cut(rows, end, random, steps)?;
    rows.erase(begin.as_slice(), end.as_slice(), steps)
}

fn erase_range<L: Ledger>(
    alloc: Global,
    rows: &mut PTree<Dated>,
    range: &Range,
    random: &mut Pcg32,
    steps: &mut Steps<L>,
) -> Result<(), AllocError>
    ensures { OnOk result (pairs_of rows.new ≡ without_span range.now (pairs_of rows.old)) }
{
    let begin = Bytes::copy_from_slice(alloc, range.begin().bytes())?;
    let end = Bytes::copy_from_slice(alloc, range.end().bytes())?;
    erase(rows, &begin, &end, random, steps)
}

fn clear<L: Ledger>(
    alloc: Global,
    rows: &mut PTree<Dated>,
    version: u64,
    range: &Range,
    random: &mut Pcg32,
    steps: &mut Steps<L>,
) -> Result<(), AllocError>
    ensures { OnOk result (pairs_of rows.new ≡ written version (clear_change range.now) (pairs_of rows.old)) }
{
    pairs_are_a_map::<Dated>();
    let begin = Bytes::copy_from_slice(alloc, range.begin().bytes())?;
    let end = Bytes::copy_from_slice(alloc, range.end().bytes())?;
    erase(rows, &begin, &end, random, steps)?;
    let dated = Dated {
        version,
        entry: Entry::ClearTo(end),
    };
    rows.insert(begin, random.next_word(), dated, steps)
}

/// Makes a change in a version.
pub(crate) fn change<L: Ledger>(
    alloc: Global,
    rows: &mut PTree<Dated>,
    version: u64,
    change: &Change,
    random: &mut Pcg32,
    steps: &mut Steps<L>,
) -> Result<(), AllocError>
    ensures { OnOk result (pairs_of rows.new ≡ written version change.now (pairs_of rows.old)) }
{
    match change {
        Change::Set(key, value) => set(alloc, rows, version, key, value, random, steps),
        Change::Clear(range) => clear(alloc, rows, version, range, random, steps),
        Change::Erase(range) => erase_range(alloc, rows, range, random, steps),
    }
}
