//! A version and its root.
ghost use Rattle.std.specs.Prelude.{◌≡◌, ◌<◌, [], IfOk};
ghost use Rattle.st_ptree.specs.Entries.{pairs_of};
ghost use Rattle.st_versioned.specs.Apart.{AreApart, HasKey};
ghost use Rattle.st_versioned.specs.Window.{changed};
ghost use Rattle.st_versioned.specs.Writing.{made_above};

use crate::{Change, Root};
use rand_pcg::Pcg32;
use std::alloc::{AllocError, Global};
use std::marker::Model;

/// A version and its root.
#[derive(Drop)]
pub(crate) struct Kept {
    version: u64,
    // each entry was written at this version or above it
    from: u64,
    root: Root,
}

impl Model for Kept {
    ghost use Rattle.std.specs.Prelude.{◌≤◌};
    ghost use Rattle.st_ptree.specs.Entries.{pairs_of};
    ghost use Rattle.st_versioned.specs.Apart.{AreFrom};
    ghost use Rattle.st_versioned.specs.Window.{Kept as KeptRoot};

    ghost Value = { KeptRoot };

    ghost view = { λ kept. record { version = kept.version; root = pairs_of kept.root.entries } };

    ghost invariant = { λ kept. AreFrom kept.from (pairs_of kept.root.entries) × (kept.from ≤ kept.version) };
}

impl Kept {
    /// A version that decides nothing.
    pub(crate) fn new(alloc: Global, version: u64) -> Kept
        ensures { result ≡ record { version = version; root = [] } }
    {
        Kept {
            version,
            from: version,
            root: Root::new(alloc),
        }
    }

    pub(crate) fn version(&self) -> u64
        ensures { result ≡ self.now.version }
    {
        self.version
    }

    pub(crate) fn root(&self) -> &Root
        ensures { pairs_of result.now.entries ≡ self.now.root }
    {
        &self.root
    }

    /// A later version, with what this one decides but for what was written up to the forgotten version. Nothing is looked at
    /// where none of it was.
    pub(crate) fn begun(&self, version: u64, forgotten: u64) -> Result<Kept, AllocError>
        requires apart { AreApart self.now.root }
        requires later { forgotten < version }
        requires above { self.now.version < version }
        ensures { IfOk result (λ kept. kept ≡ record { version = version; root = made_above forgotten self.now.root }) }
    {
        if forgotten < self.from {
            return Ok(Kept {
                version,
                from: self.from,
                root: self.root.share()?,
            });
        }
        Ok(Kept {
            version,
            from: forgotten + 1,
            root: self.root.above(forgotten)?,
        })
    }

    /// The version with one change more.
    pub(crate) fn changed(
        &self,
        alloc: Global,
        change: &Change,
        random: &mut Pcg32,
    ) -> Result<Kept, AllocError>
        requires apart { AreApart self.now.root }
        requires has_key { HasKey change.now }
        ensures { IfOk result (λ kept. kept ≡ changed change.now self.now) }
    {
        Ok(Kept {
            version: self.version,
            from: self.from,
            root: self.root.changed(alloc, self.version, change, random)?,
        })
    }
}
