//! Searches.
ghost use Rattle.std.specs.Prelude.{◌≡◌, ◌+◌, ◌≤◌};
ghost use Rattle.std.specs.FinMap.Entries.{where_key};
ghost use Rattle.std.specs.Option.{option_map};
ghost use Rattle.st_ptree.specs.Entries.{above, before, first_of, found, key_cmp, last_of};
ghost use Rattle.st_node.specs.Shapes.{shape, entries, entry_of};
ghost use Rattle.st_ptree.specs.Depth.{depth_at, depth_behind, depth_beside};
ghost use Rattle.st_ptree.specs.Treap.{IsTreap};

use st_node::{Node, Steps, Tree, look};
use std::cmp::Ordering;
use std::sync::ledger::Ledger;

/// The node of a key.
pub(crate) fn find<'a, T, L: Ledger>(
    tree: &'a Tree<T>,
    key: &[u8],
    steps: &mut Steps<L>,
) -> Option<&'a Node<T>>
    requires { IsTreap (shape tree.now) }
    ensures value { option_map (λ node. (entry_of node.now).1) result ≡ found key.now (entries (shape tree.now)) }
    ensures steps { steps.new ≤ steps.old + depth_at key.now (entries (shape tree.now)) }
{
    let mut rest = tree;
    while let Tree::Full(node) = rest {
        match look(node, key, steps) {
            Ordering::Less => rest = node.left(),
            Ordering::Equal => return Some(node),
            Ordering::Greater => rest = node.right(),
        }
    }
    None
}

/// The node with the least key above a key.
pub(crate) fn next_after<'a, T, L: Ledger>(
    tree: &'a Tree<T>,
    key: &[u8],
    steps: &mut Steps<L>,
) -> Option<&'a Node<T>>
    requires { IsTreap (shape tree.now) }
    ensures value { option_map (λ node. entry_of node.now) result ≡ first_of (above (entries (shape tree.now)) key.now) }
    ensures steps { steps.new ≤ steps.old + depth_behind key.now (entries (shape tree.now)) }
{
    let mut nearest = None;
    let mut rest = tree;
    while let Tree::Full(node) = rest {
        if look(node, key, steps).is_lt() {
            nearest = Some(&**node);
            rest = node.left();
        } else {
            rest = node.right();
        }
    }
    nearest
}

/// Whether a node comes before a key: below it, or also at it. It is one step.
pub(crate) fn is_before<T, L: Ledger>(
    node: &Node<T>,
    key: &[u8],
    or_equal: bool,
    steps: &mut Steps<L>,
) -> bool
    ensures value { result ≡ before key.now or_equal (entry_of node.now).0 }
    ensures steps { steps.new ≡ steps.old + 1 }
{
    match look(node, key, steps) {
        Ordering::Less => false,
        Ordering::Equal => or_equal,
        Ordering::Greater => true,
    }
}

/// The last node before a key: below it, or also at it.
pub(crate) fn last_before<'a, T, L: Ledger>(
    tree: &'a Tree<T>,
    key: &[u8],
    or_equal: bool,
    steps: &mut Steps<L>,
) -> Option<&'a Node<T>>
    requires { IsTreap (shape tree.now) }
    ensures value { option_map (λ node. entry_of node.now) result ≡ last_of (where_key key_cmp (before key.now or_equal) (entries (shape tree.now))) }
    ensures steps { steps.new ≤ steps.old + depth_beside key.now or_equal (entries (shape tree.now)) }
{
    let mut nearest = None;
    let mut rest = tree;
    while let Tree::Full(node) = rest {
        if is_before(node, key, or_equal, steps) {
            nearest = Some(&**node);
            rest = node.right();
        } else {
            rest = node.left();
        }
    }
    nearest
}

/// The first node. It compares no keys.
pub(crate) fn first<'a, T>(tree: &'a Tree<T>) -> Option<&'a Node<T>>
    ensures { option_map (λ node. entry_of node.now) result ≡ first_of (entries (shape tree.now)) }
{
    let mut first = None;
    let mut rest = tree;
    while let Tree::Full(node) = rest {
        first = Some(&**node);
        rest = node.left();
    }
    first
}
