//! The versions that are kept.
ghost use Rattle.std.specs.Prelude.{◌≡◌, ◌<◌, ◌≤◌, ◌⊎◌, ◌↔◌, [], ◌∷◌, None, Some, IfOk, OnErr, OnOk, IsNone, IsSome};
ghost use Rattle.std.specs.Option.{option_map};
ghost use Rattle.st_ptree.specs.Entries.{pairs_of};
ghost use Rattle.st_versioned.specs.Apart.{HasKey};
ghost use Rattle.st_versioned.specs.Window.{Stands, abandoned, begun, forgot, last_to, mutations_to, newest_root, root_of, sealed, with_change, with_mutation};
ghost use Rattle.st_versioned.specs.Writing.{made_above};
ghost use Rattle.st_versioned.specs.declared.change.Change.TheVariants.{Set as set_change, Clear as clear_change, Erase as erase_change};
ghost use Rattle.st_mutation.specs.declared.batch.Mutation.TheVariants.{Set as set_mutation, Clear as clear_mutation};

use crate::kept::Kept;
use crate::{Change, Root};
use rand_core::SeedableRng;
use rand_pcg::Pcg32;
use st_key::{Key, Range, Value};
use st_mutation::Mutation;
use std::alloc::{AllocError, Global};
use std::marker::Model;

/// The versions of a map above a base, from the oldest that can be read to the newest, and the one in the making.
///
/// Versions share what they have in common: a change makes the entries on its way anew.
#[derive(Drop)]
pub struct Window {
    alloc: Global,
    forgotten: u64,
    newest: u64,
    // there is room for the one in the making
    roots: Vec<Kept>,
    making: Option<Kept>,
    mutations: Vec<(u64, Mutation)>,
    // the priorities of entries that are to come
    random: Pcg32,
}

impl Model for Window {
    ghost use Rattle.std.specs.Prelude.{◌<◌, vec_len, vec_capacity};
    ghost use Rattle.std.specs.Option.{ForSome};
    ghost use Rattle.st_ptree.specs.Entries.{pairs_of};
    ghost use Rattle.st_versioned.specs.Apart.{HasKey};
    ghost use Rattle.st_versioned.specs.Window.{Stands, Versions};

    ghost Value = { Versions };

    ghost view = { λ w. record { forgotten = w.forgotten; newest = w.newest; roots = w.roots.items; making = w.making; mutations = w.mutations.items } };

    ghost invariant = { λ w. (ForSome w.making (λ kept. vec_len w.roots < vec_capacity w.roots))
        × Stands (record { forgotten = w.forgotten; newest = w.newest; roots = w.roots.items; making = w.making; mutations = w.mutations.items }) };
}

impl Window {
    /// The window of one version, which decides nothing. The priorities of its entries are the words of the seed.
    pub fn new(alloc: Global, at: u64, seed: u64) -> Result<Window, AllocError>
        ensures new { IfOk result (λ window. window
            ≡ record { forgotten = at; newest = at; roots = record { version = at; root = [] } ∷ []; making = None; mutations = [] }) }
        ensures stands { IfOk result Stands }
    {
        let mut roots = Vec::new(alloc);
        roots.push(Kept::new(alloc, at))?;
        Ok(Window {
            alloc,
            forgotten: at,
            newest: at,
            roots,
            making: None,
            mutations: Vec::new(alloc),
            random: Pcg32::seed_from_u64(seed),
        })
    }

    // The version that begins above the newest.
    fn next(&self, version: u64) -> Result<Kept, AllocError>
        requires { self.now.newest < version }
        ensures kept { IfOk result (λ kept. kept ≡ record { version = version; root = made_above self.now.forgotten (newest_root self.now) }) }
        ensures stands { Stands self.now }
    {
        match self.roots.last() {
            Some(newest) => newest.begun(version, self.forgotten),
            None => unreachable!(),
        }
    }

    /// Begins a version above the newest, with what the newest one decides but for what was decided at or below the forgotten
    /// version.
    pub fn begin(&mut self, version: u64) -> Result<(), AllocError>
        requires sealed { self.old.making ≡ None }
        requires above { self.old.newest < version }
        ensures ok { OnOk result (self.new ≡ begun version self.old) }
        ensures err { OnErr result (self.new ≡ self.old) }
        ensures stands { Stands self.new }
    {
        let kept = self.next(version)?;
        self.roots.reserve(1)?;
        self.making = Some(kept);
        Ok(())
    }

    // One change of the version in the making.
    fn change(&mut self, change: &Change) -> Result<(), AllocError>
        requires making { IsSome self.old.making }
        requires has_key { HasKey change.now }
        ensures ok { OnOk result (self.new ≡ with_change change.now self.old) }
        ensures err { OnErr result (self.new ≡ self.old) }
        ensures stands { Stands self.new }
    {
        let Some(kept) = &self.making else {
            unreachable!()
        };
        self.making = Some(kept.changed(self.alloc, change, &mut self.random)?);
        Ok(())
    }

    // One change of the version in the making, which is a mutation of it.
    fn mutate(&mut self, change: &Change, mutation: Mutation) -> Result<(), AllocError>
        requires making { IsSome self.old.making }
        requires has_key { HasKey change.now }
        ensures ok { OnOk result (self.new ≡ with_change change.now (with_mutation mutation self.old)) }
        ensures err { OnErr result (self.new ≡ self.old) }
        ensures stands { Stands self.new }
    {
        let Some(kept) = &self.making else {
            unreachable!()
        };
        let version = kept.version();
        self.mutations.push((version, mutation))?;
        match self.change(change) {
            Ok(()) => Ok(()),
            Err(error) => {
                let _ = self.mutations.pop();
                Err(error)
            }
        }
    }

    /// The key has the value, in the version in the making.
    pub fn set(&mut self, key: &Key, value: &Value) -> Result<(), AllocError>
        requires { IsSome self.old.making }
        ensures ok { OnOk result (self.new ≡ with_change (set_change key.now value.now) (with_mutation (set_mutation key.now value.now) self.old)) }
        ensures err { OnErr result (self.new ≡ self.old) }
        ensures stands { OnOk result (Stands self.new) }
    {
        let change = Change::Set(key.clone()?, value.clone()?);
        let mutation = Mutation::Set(key.clone()?, value.clone()?);
        self.mutate(&change, mutation)
    }

    /// The keys of the range have no value, in the version in the making.
    pub fn clear(&mut self, range: &Range) -> Result<(), AllocError>
        requires { IsSome self.old.making }
        ensures ok { OnOk result (self.new ≡ with_change (clear_change range.now) (with_mutation (clear_mutation range.now) self.old)) }
        ensures err { OnErr result (self.new ≡ self.old) }
        ensures stands { OnOk result (Stands self.new) }
    {
        let _ordered = range.begin();
        let change = Change::Clear(range.clone()?);
        let mutation = Mutation::Clear(range.clone()?);
        self.mutate(&change, mutation)
    }

    /// The keys of the range are the base's to tell, in the version in the making. It is no mutation.
    pub fn erase(&mut self, range: &Range) -> Result<(), AllocError>
        requires { IsSome self.old.making }
        ensures ok { OnOk result (self.new ≡ with_change (erase_change range.now) self.old) }
        ensures err { OnErr result (self.new ≡ self.old) }
        ensures stands { OnOk result (Stands self.new) }
    {
        let _ordered = range.begin();
        let change = Change::Erase(range.clone()?);
        self.change(&change)
    }

    /// The root of the version in the making.
    pub fn making(&self) -> Option<&Root>
        ensures root { option_map (λ root. pairs_of root.now.entries) result ≡ option_map (λ kept. kept.root) self.now.making }
        ensures stands { Stands self.now }
    {
        match &self.making {
            Some(kept) => Some(kept.root()),
            None => None,
        }
    }

    /// Makes the version readable that is in the making. It takes no memory.
    pub fn seal(&mut self)
        requires { IsSome self.old.making }
        ensures sealed { self.new ≡ sealed self.old }
        ensures stands { Stands self.new }
    {
        if let Some(kept) = self.making.take() {
            self.newest = kept.version();
            self.roots.push_reserved(kept);
        }
    }

    /// Gives the version up that is in the making, with its mutations. It takes no memory.
    pub fn abandon(&mut self)
        ensures abandoned { self.new ≡ abandoned self.old }
        ensures stands { Stands self.new }
    {
        let newest = self.newest;
        self.making = None;
        self.mutations.retain(|made| made.0 <= newest);
    }

    // The newest root that is kept at a version or below it.
    fn last_to(&self, version: u64) -> Option<&Kept>
        ensures { option_map (λ kept. kept.now) result ≡ last_to version self.now.roots }
    {
        let mut last = None;
        for kept in &self.roots {
            if kept.version() <= version {
                last = Some(kept);
            }
        }
        last
    }

    /// The version of the root that a version is read by: the newest that is kept at it or below it.
    pub fn kept_at(&self, version: u64) -> Option<u64>
        ensures { result ≡ option_map (λ kept. kept.version) (last_to version self.now.roots) }
    {
        let kept = self.last_to(version)?;
        Some(kept.version())
    }

    /// The root of a version: of the newest one that is kept at it or below it. None exactly below the forgotten version or
    /// above the newest.
    pub fn root_at(&self, version: u64) -> Result<Option<Root>, AllocError>
        ensures root { IfOk result (λ root. option_map (λ root. pairs_of root.entries) root ≡ root_of self.now version) }
        ensures none { IfOk result (λ root. IsNone root ↔ (version < self.now.forgotten ⊎ self.now.newest < version)) }
    {
        if version < self.forgotten || self.newest < version {
            return Ok(None);
        }
        match self.last_to(version) {
            Some(kept) => Ok(Some(kept.root().share()?)),
            None => Ok(None),
        }
    }

    /// Forgets what is below a version of at most the newest: the roots that no version from it on is read by, and the
    /// mutations up to it. It takes no memory.
    pub fn forget_before(&mut self, version: u64)
        requires { version ≤ self.old.newest }
        ensures forgot { self.new ≡ forgot version self.old }
        ensures stands { Stands self.new }
    {
        let forgotten = self.forgotten.max(version);
        let from = match self.last_to(forgotten) {
            Some(kept) => kept.version(),
            None => 0,
        };
        self.forgotten = forgotten;
        self.roots.retain(|kept| from <= kept.version());
        self.mutations.retain(|made| forgotten < made.0);
    }

    /// The mutations of the kept versions up to one, in their order, each with its version.
    pub fn mutations_to(&self, version: u64) -> Result<Vec<(u64, Mutation)>, AllocError>
        ensures { IfOk result (λ mutations. mutations.items ≡ mutations_to version self.now) }
    {
        let mut mutations = Vec::new(self.alloc);
        for made in &self.mutations {
            if made.0 <= version {
                mutations.push(made.clone()?)?;
            }
        }
        Ok(mutations)
    }
}
