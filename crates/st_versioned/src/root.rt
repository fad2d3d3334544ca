//! What one version decides.
ghost use Rattle.std.specs.Prelude.{◌≡◌, ◌+◌, ◌≤◌, ◌<◌, [], Some, IfOk};
ghost use Rattle.std.specs.Option.{option_map};
ghost use Rattle.st_ptree.specs.Depth.{depth_behind};
ghost use Rattle.st_ptree.specs.Entries.{pairs_of};
ghost use Rattle.st_versioned.specs.Apart.{AreApart};
ghost use Rattle.st_versioned.specs.Writing.{made_above, written};
ghost use Rattle.st_versioned.specs.Root.{decided, decided_by, told};

use crate::bound::{is_less, is_same};
use crate::changing::change;
use crate::{Change, Dated, Entry};
use bytes::Bytes;
use rand_pcg::Pcg32;
use st_ptree::{PTree, Steps, pairs_are_a_map};
use std::alloc::{AllocError, Global};
use std::marker::Brand;
use std::sync::ledger::{Blank, Ledger};

/// What a version and those before it decide: values of keys, and cleared ranges. What none of them reaches is the base's to
/// tell.
#[derive(Drop)]
pub struct Root {
    pub entries: PTree<Dated>,
}

// What this tells, written at one key, of a key at it or above it. It is one step.
fn told_by<'a, L: Ledger>(
    at: &'a Bytes,
    dated: &'a Dated,
    key: &[u8],
    steps: &mut Steps<L>,
) -> Option<Option<&'a Bytes>>
    ensures value { option_map (option_map (λ v. v.now)) result ≡ told (decided_by key.now (Some (at.now, dated.now))) }
    ensures steps { steps.new ≡ steps.old + 1 }
{
    steps.tick();
    match &dated.entry {
        Entry::Value(value) => {
            if is_same(key, at.as_slice()) {
                Some(Some(value))
            } else {
                None
            }
        }
        Entry::ClearTo(end) => {
            if is_less(key, end.as_slice()) {
                Some(None)
            } else {
                None
            }
        }
    }
}

// The entries behind a change, by steps that are counted for no one.
fn changed_in<L: Ledger>(
    alloc: Global,
    entries: &PTree<Dated>,
    version: u64,
    made: &Change,
    random: &mut Pcg32,
    blank: Blank,
) -> Result<PTree<Dated>, AllocError>
    requires name { blank.name ≡ L.name }
    requires parts { blank.parts ≡ L.parts }
    requires some { 0 < blank.parts }
    ensures { IfOk result (λ changed. pairs_of changed ≡ written version made.now (pairs_of entries.now)) }
{
    let mut steps = Steps::<L>::new(blank);
    let mut changed = entries.share()?;
    change(alloc, &mut changed, version, made, random, &mut steps)?;
    Ok(changed)
}

// The entries that were written above a version, by steps that are counted for no one.
fn above_in<L: Ledger>(
    entries: &PTree<Dated>,
    version: u64,
    blank: Blank,
) -> Result<PTree<Dated>, AllocError>
    requires name { blank.name ≡ L.name }
    requires parts { blank.parts ≡ L.parts }
    requires some { 0 < blank.parts }
    requires apart { AreApart (pairs_of entries.now) }
    ensures { IfOk result (λ above. pairs_of above ≡ made_above version (pairs_of entries.now)) }
{
    pairs_are_a_map::<Dated>();
    let mut steps = Steps::<L>::new(blank);
    let mut above = entries.share()?;
    for (key, dated) in entries.iter() {
        if dated.version <= version {
            above.remove(key.as_slice(), &mut steps)?;
        }
    }
    Ok(above)
}

impl Root {
    /// Nothing is decided.
    pub(crate) fn new(alloc: Global) -> Root
        ensures { result.entries ≡ [] }
    {
        Root {
            entries: PTree::new(alloc),
        }
    }

    /// The same root for another owner. It copies nothing.
    pub fn share(&self) -> Result<Root, AllocError>
        ensures { IfOk result (λ root. root ≡ self.now) }
    {
        Ok(Root {
            entries: self.entries.share()?,
        })
    }

    /// What was written above a version.
    pub(crate) fn above(&self, version: u64) -> Result<Root, AllocError>
        requires { AreApart (pairs_of self.now.entries) }
        ensures { IfOk result (λ root. pairs_of root.entries ≡ made_above version (pairs_of self.now.entries)) }
    {
        Ok(Root {
            entries: above_in::<Brand>(&self.entries, version, Blank::new(1))?,
        })
    }

    /// The root behind a change of a version.
    pub(crate) fn changed(
        &self,
        alloc: Global,
        version: u64,
        change: &Change,
        random: &mut Pcg32,
    ) -> Result<Root, AllocError>
        ensures { IfOk result (λ root. pairs_of root.entries ≡ written version change.now (pairs_of self.now.entries)) }
    {
        Ok(Root {
            entries: changed_in::<Brand>(
                alloc,
                &self.entries,
                version,
                change,
                random,
                Blank::new(1),
            )?,
        })
    }

    /// The value that is decided of a key, which may be that there is none. None where the base is to tell.
    pub(crate) fn told<L: Ledger>(&self, key: &[u8], steps: &mut Steps<L>) -> Option<Option<&Bytes>>
        ensures value { option_map (option_map (λ v. v.now)) result ≡ told (decided (pairs_of self.now.entries) key.now) }
        ensures steps { steps.new ≤ steps.old + depth_behind key.now self.now.entries + 2 }
    {
        let Some((at, dated)) = self.entries.last_at_or_below(key, steps) else {
            return None;
        };
        told_by(at, dated, key, steps)
    }
}
