//! A root over a base.
ghost use Rattle.std.specs.Prelude.{◌≡◌, ◌+◌, ◌≤◌};
ghost use Rattle.std.specs.Option.{option_map};
ghost use Rattle.st_key.specs.Spans.{key_less};
ghost use Rattle.st_ptree.specs.Depth.{depth_at, depth_behind};
ghost use Rattle.st_ptree.specs.Entries.{pairs_of};
ghost use Rattle.st_versioned.specs.Neighbours.{IsFirstOrNone, comes_behind, first_by, is_beyond, key_above};
ghost use Rattle.st_versioned.specs.Root.{over};

use crate::Root;
use crate::bound::Bound;
use crate::nearest::first_in;
use bytes::Bytes;
use st_ptree::{PTree, Steps, pairs_are_a_map};
use std::sync::ledger::Ledger;

/// The map that a root is over a base: where the root decides a key, it tells its value, and else the base does.
#[derive(Clone, Copy)]
pub struct Overlay<'a> {
    pub root: &'a Root,
    pub base: &'a PTree<Bytes>,
}

impl<'a> Overlay<'a> {
    /// The value of a key. It takes at most the depth of the gap behind the key in the root, the key's depth in the base, and
    /// two steps more.
    pub fn get<L: Ledger>(&self, key: &[u8], steps: &mut Steps<L>) -> Option<&[u8]>
        ensures value { option_map (λ value. value.now) result ≡ over (pairs_of self.now.root.now.entries) (pairs_of self.now.base.now) key.now }
        ensures steps { steps.new ≤ steps.old + depth_behind key.now self.now.root.now.entries + depth_at key.now self.now.base.now + 2 }
    {
        pairs_are_a_map::<Bytes>();
        match self.root.told(key, steps) {
            Some(Some(value)) => Some(value.as_slice()),
            Some(None) => None,
            None => match self.base.get(key, steps) {
                Some(value) => Some(value.as_slice()),
                None => None,
            },
        }
    }

    /// The pair of the least key above `key`, or at it where `or_equal` says so.
    pub fn next<L: Ledger>(
        &self,
        key: &[u8],
        or_equal: bool,
        steps: &mut Steps<L>,
    ) -> Option<(&[u8], &[u8])>
        ensures { IsFirstOrNone key_less (comes_behind key.now or_equal) (over (pairs_of self.now.root.now.entries) (pairs_of self.now.base.now))
            (option_map (λ found. (found.0.now, found.1.now)) result) }
    {
        if or_equal {
            self.first(Bound::From(key), steps)
        } else {
            self.first(Bound::Above(key), steps)
        }
    }

    /// The pair of the greatest key below `below`.
    pub fn prev<L: Ledger>(&self, below: &[u8], steps: &mut Steps<L>) -> Option<(&[u8], &[u8])>
        ensures { IsFirstOrNone key_above (λ other. key_less other below.now) (over (pairs_of self.now.root.now.entries) (pairs_of self.now.base.now))
            (option_map (λ found. (found.0.now, found.1.now)) result) }
    {
        self.first(Bound::Below(below), steps)
    }

    // The pair of the first key beyond a bound that has a value.
    fn first<L: Ledger>(&self, bound: Bound<'_>, steps: &mut Steps<L>) -> Option<(&[u8], &[u8])>
        ensures { IsFirstOrNone (first_by bound.entry) (is_beyond bound.entry) (over (pairs_of self.now.root.now.entries) (pairs_of self.now.base.now))
            (option_map (λ found. (found.0.now, found.1.now)) result) }
    {
        let mut side = bound;
        while let Some(key) = side.first(
            first_in(&self.root.entries, side, steps),
            first_in(self.base, side, steps),
        ) {
            if let Some(value) = self.get(key, steps) {
                return Some((key, value));
            }
            side = side.behind(key);
        }
        None
    }
}
