//! The map as a tree of nodes.
ghost use Rattle.std.specs.Prelude.{◌≡◌, ◌+◌, ◌*◌, ◌≤◌, [], ◌==◌, length, IfOk, OnOk, OnErr, IsTrue, is_some};
ghost use Rattle.std.specs.Option.{option_copied, option_map};
ghost use Rattle.st_node.specs.Shapes.{entry_of};
ghost use Rattle.st_ptree.specs.Depth.{depth_at, depth_before, depth_behind};
ghost use Rattle.st_ptree.specs.Entries.{first_of, last_of, found, item_at, pair_of, pairs_of, with_entry, without_key, without_range, below, at_or_below, above, is_ordered};

use crate::{Iter, cut, insert, search};
use bytes::Bytes;
use st_node::{Node, Steps, Tree, key_of};
use std::alloc::{AllocError, Global};
use std::marker::Model;
use std::sync::ledger::Ledger;

/// A sorted map from byte strings to items, each with a priority, seen as the list of its entries
/// in the order of their keys.
///
/// It is a treap: of the entries between two keys the one of the highest priority is on top, and of equal priorities the
/// one of the smallest key. How deep an entry stands is thus told by the list alone. `share` copies nothing, and a change of
/// one sharer is none of the others: it makes the nodes on its way anew and shares the rest.
#[derive(Drop)]
pub struct PTree<T> {
    alloc: Global,
    tree: Tree<T>,
}

impl<T> Model for PTree<T> {
    ghost use Rattle.std.specs.Prelude.{ℕ, List};
    ghost use Rattle.st_node.specs.Shapes.{shape, entries};
    ghost use Rattle.st_ptree.specs.Treap.{IsTreap};

    ghost Value = { List (List ℕ × (ℕ × T)) };

    ghost view = { λ tree. entries (shape tree.tree) };

    ghost invariant = { λ tree. IsTreap (shape tree.tree) };
}

// The pair of a node. Its key is one step.
fn pair<'a, T, L: Ledger>(
    node: Option<&'a Node<T>>,
    steps: &mut Steps<L>,
) -> Option<(&'a Bytes, &'a T)>
    ensures value { option_map (λ found. (found.0.now, found.1.now)) result
        ≡ option_map pair_of (option_map (λ node. entry_of node.now) node.entry) }
    ensures steps { steps.new ≤ steps.old + 1 }
{
    match node {
        Some(node) => Some((key_of(node, steps), node.item())),
        None => None,
    }
}

impl<T> PTree<T> {
    /// The empty map. It takes no memory.
    pub fn new(alloc: Global) -> PTree<T>
        ensures { result ≡ [] }
    {
        PTree {
            alloc,
            tree: Tree::Empty,
        }
    }

    /// The same map for another owner.
    #[tactic(auto, using(crate::proofs::Ordered::ordered))]
    pub fn share(&self) -> Result<PTree<T>, AllocError>
        ensures same { IfOk result (λ tree. tree ≡ self.now) }
        ensures ordered { IsTrue (is_ordered self.now) }
    {
        Ok(PTree {
            alloc: self.alloc,
            tree: self.tree.share()?,
        })
    }

    /// Whether there is no entry.
    #[tactic(auto, using(crate::proofs::Ordered::ordered))]
    pub fn is_empty(&self) -> bool
        ensures value { result ≡ (length self.now == 0) }
        ensures ordered { IsTrue (is_ordered self.now) }
    {
        match &self.tree {
            Tree::Empty => true,
            Tree::Full(_) => false,
        }
    }

    /// The item of a key.
    #[tactic(auto, using(crate::proofs::Ordered::ordered))]
    pub fn get<L: Ledger>(&self, key: &[u8], steps: &mut Steps<L>) -> Option<&T>
        ensures value { option_copied result ≡ item_at self.now key.now }
        ensures steps { steps.new ≤ steps.old + depth_at key.now self.now }
        ensures ordered { IsTrue (is_ordered self.now) }
    {
        match search::find(&self.tree, key, steps) {
            Some(node) => Some(node.item()),
            None => None,
        }
    }

    /// The entry with the greatest key at or below `key`.
    #[tactic(auto, using(crate::proofs::Ordered::ordered))]
    pub fn last_at_or_below<L: Ledger>(
        &self,
        key: &[u8],
        steps: &mut Steps<L>,
    ) -> Option<(&Bytes, &T)>
        ensures value { option_map (λ found. (found.0.now, found.1.now)) result
            ≡ option_map pair_of (last_of (at_or_below self.now key.now)) }
        ensures steps { steps.new ≤ steps.old + depth_behind key.now self.now + 1 }
        ensures ordered { IsTrue (is_ordered self.now) }
    {
        pair(search::last_before(&self.tree, key, true, steps), steps)
    }

    /// The entry with the least key above `key`.
    #[tactic(auto, using(crate::proofs::Ordered::ordered))]
    pub fn next_after<L: Ledger>(&self, key: &[u8], steps: &mut Steps<L>) -> Option<(&Bytes, &T)>
        ensures value { option_map (λ found. (found.0.now, found.1.now)) result
            ≡ option_map pair_of (first_of (above self.now key.now)) }
        ensures steps { steps.new ≤ steps.old + depth_behind key.now self.now + 1 }
        ensures ordered { IsTrue (is_ordered self.now) }
    {
        pair(search::next_after(&self.tree, key, steps), steps)
    }

    /// The entry with the greatest key below `key`.
    #[tactic(auto, using(crate::proofs::Ordered::ordered))]
    pub fn prev_before<L: Ledger>(&self, key: &[u8], steps: &mut Steps<L>) -> Option<(&Bytes, &T)>
        ensures value { option_map (λ found. (found.0.now, found.1.now)) result
            ≡ option_map pair_of (last_of (below self.now key.now)) }
        ensures steps { steps.new ≤ steps.old + depth_before key.now self.now + 1 }
        ensures ordered { IsTrue (is_ordered self.now) }
    {
        pair(search::last_before(&self.tree, key, false, steps), steps)
    }

    /// The entry with the least key. It compares nothing.
    #[tactic(auto, using(crate::proofs::Ordered::ordered))]
    pub fn first<L: Ledger>(&self, steps: &mut Steps<L>) -> Option<(&Bytes, &T)>
        ensures value { option_map (λ found. (found.0.now, found.1.now)) result
            ≡ option_map pair_of (first_of self.now) }
        ensures steps { steps.new ≤ steps.old + 1 }
        ensures ordered { IsTrue (is_ordered self.now) }
    {
        pair(search::first(&self.tree), steps)
    }

    /// The entries above a key, in the order of their keys.
    pub fn iter_above<L: Ledger>(&self, key: &[u8], steps: &mut Steps<L>) -> Iter<'_, T>
        ensures value { result ≡ pairs_of (above self.now key.now) }
        ensures steps { steps.new ≤ steps.old + depth_behind key.now self.now + 1 }
        ensures ordered { IsTrue (is_ordered self.now) }
    {
        Iter::above(self, key, steps)
    }

    /// All entries, in the order of their keys.
    pub fn iter(&self) -> Iter<'_, T>
        ensures value { result ≡ pairs_of self.now }
        ensures ordered { IsTrue (is_ordered self.now) }
    {
        Iter::all(self)
    }
}

impl<T: Drop> PTree<T> {
    /// Puts an entry in. One of that key is replaced, and its priority stays.
    #[tactic(auto, using(crate::proofs::Ordered::ordered))]
    pub fn insert<L: Ledger>(
        &mut self,
        key: Bytes,
        prio: u32,
        item: T,
        steps: &mut Steps<L>,
    ) -> Result<(), AllocError>
        ensures ok { OnOk result (self.new ≡ with_entry self.old key prio item) }
        ensures steps { steps.new ≤ steps.old + 2 * depth_at key self.old + 1 }
        ensures ordered { IsTrue (is_ordered self.new) }
        ensures err { OnErr result (self.new ≡ self.old) }
    {
        self.tree = insert::insert(self.alloc, &self.tree, key, prio, item, steps)?;
        Ok(())
    }

    /// Takes the entry of a key out, and tells whether there was one.
    #[tactic(auto, using(crate::proofs::Ordered::ordered))]
    pub fn remove<L: Ledger>(
        &mut self,
        key: &[u8],
        steps: &mut Steps<L>,
    ) -> Result<bool, AllocError>
        ensures told { IfOk result (λ was_there. was_there ≡ is_some (found key.now self.old)) }
        ensures ok { OnOk result (self.new ≡ without_key self.old key.now) }
        ensures ordered { IsTrue (is_ordered self.new) }
        ensures err { OnErr result (self.new ≡ self.old) }
    {
        let was_there = search::find(&self.tree, key, steps).is_some();
        self.tree = cut::without(self.alloc, &self.tree, key, key, true, steps)?;
        Ok(was_there)
    }

    /// Takes out the entries from `begin` up to, and without, `end`.
    #[tactic(auto, using(crate::proofs::Ordered::ordered))]
    pub fn erase<L: Ledger>(
        &mut self,
        begin: &[u8],
        end: &[u8],
        steps: &mut Steps<L>,
    ) -> Result<(), AllocError>
        ensures ok { OnOk result (self.new ≡ without_range self.old begin.now end.now) }
        ensures ordered { IsTrue (is_ordered self.new) }
        ensures err { OnErr result (self.new ≡ self.old) }
    {
        self.tree = cut::without(self.alloc, &self.tree, begin, end, false, steps)?;
        Ok(())
    }
}
