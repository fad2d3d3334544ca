//! Inserts: the path to a key is copied, and the rest is shared.
ghost use Rattle.std.specs.Prelude.{◌≡◌, ◌+◌, ◌*◌, ◌≤◌, length, IfOk};
ghost use Rattle.st_ptree.specs.Entries.{with_entry};
ghost use Rattle.st_node.specs.Shapes.{Fork, shape, entries, key_in, item_in};
ghost use Rattle.st_ptree.specs.Depth.{depth_at};
ghost use Rattle.st_ptree.specs.Treap.{IsTreap};
ghost use Rattle.st_ptree.specs.Insert.{Raises, Climbs, Starts, Finishes, Leads, still_open};

use crate::way::{Side, Step, remake};
use bytes::Bytes;
use st_node::{Keyed, Node, Steps, Tree, leaf, look, make};
use std::alloc::{AllocError, Global};
use std::cmp::Ordering;
use std::sync::Arc;
use std::sync::ledger::Ledger;

// What comes of a tree: it has the new entry, or the new entry ranks above all of it, and its key parts it.
#[derive(Drop)]
enum Below<T> {
    Whole(Tree<T>),
    Parts(Tree<T>, Tree<T>),
}

// What comes of a node's tree, from what comes of the side that the key is on.
fn raise<T: Drop, L: Ledger>(
    alloc: Global,
    step: Step<'_, T>,
    below: Below<T>,
    entry: &Arc<Keyed<T>>,
    prio: u32,
    steps: &mut Steps<L>,
) -> Result<Below<T>, AllocError>
    ensures raises { IfOk result (λ out. Raises step.entry (key_in entry.now, (prio, item_in entry.now)) below out) }
    ensures steps { IfOk result (λ out. steps.new + still_open out ≤ steps.old + still_open below + 1) }
    ensures at_most { steps.new ≤ steps.old + still_open below + 1 }
{
    let Step { node, side } = step;
    match (below, side) {
        (Below::Whole(tree), Side::Left) => Ok(Below::Whole(remake(
            alloc,
            tree,
            node,
            node.right().share()?,
            steps,
        )?)),
        (Below::Whole(tree), Side::Right) => Ok(Below::Whole(remake(
            alloc,
            node.left().share()?,
            node,
            tree,
            steps,
        )?)),
        (Below::Parts(before, behind), Side::Left) => {
            if node.prio() <= prio {
                let behind = remake(alloc, behind, node, node.right().share()?, steps)?;
                Ok(Below::Parts(before, behind))
            } else {
                let tree = make(alloc, before, Arc::try_clone(entry)?, prio, behind, steps)?;
                Ok(Below::Whole(remake(alloc, tree, node, node.right().share()?, steps)?))
            }
        }
        (Below::Parts(before, behind), Side::Right) => {
            if node.prio() < prio {
                let before = remake(alloc, node.left().share()?, node, before, steps)?;
                Ok(Below::Parts(before, behind))
            } else {
                let tree = make(alloc, before, Arc::try_clone(entry)?, prio, behind, steps)?;
                Ok(Below::Whole(remake(alloc, node.left().share()?, node, tree, steps)?))
            }
        }
    }
}

// The way down to a key: the nodes that are passed, and the node of the key.
struct Way<'a, T> {
    path: Vec<Step<'a, T>>,
    node: Option<&'a Node<T>>,
}

fn descend<'a, T, L: Ledger>(
    alloc: Global,
    tree: &'a Tree<T>,
    key: &[u8],
    steps: &mut Steps<L>,
) -> Result<Way<'a, T>, AllocError>
    requires { IsTreap (shape tree.now) }
    ensures leads { IfOk result (λ way. Leads key.now (shape tree.now) way) }
    ensures steps { steps.new ≤ steps.old + depth_at key.now (entries (shape tree.now)) }
{
    let mut path = Vec::with_capacity(alloc, 64)?;
    let mut rest = tree;
    while let Tree::Full(node) = rest {
        match look(node, key, steps) {
            Ordering::Less => {
                path.push(Step {
                    node,
                    side: Side::Left,
                })?;
                rest = node.left();
            }
            Ordering::Equal => {
                return Ok(Way {
                    path,
                    node: Some(node),
                });
            }
            Ordering::Greater => {
                path.push(Step {
                    node,
                    side: Side::Right,
                })?;
                rest = node.right();
            }
        }
    }
    Ok(Way { path, node: None })
}

// What comes of the end of the way.
fn start<T: Drop, L: Ledger>(
    alloc: Global,
    node: Option<&Node<T>>,
    entry: &Arc<Keyed<T>>,
    prio: u32,
    steps: &mut Steps<L>,
) -> Result<Below<T>, AllocError>
    ensures starts { IfOk result (λ out. Starts node.entry (key_in entry.now, (prio, item_in entry.now)) out) }
    ensures steps { IfOk result (λ out. steps.new + still_open out ≤ steps.old + 1) }
    ensures at_most { steps.new ≤ steps.old + 1 }
{
    let Some(node) = node else {
        return Ok(Below::Parts(Tree::Empty, Tree::Empty));
    };
    Ok(Below::Whole(make(
        alloc,
        node.left().share()?,
        Arc::try_clone(entry)?,
        prio,
        node.right().share()?,
        steps,
    )?))
}

// What comes of the whole tree.
fn climb<T: Drop, L: Ledger>(
    alloc: Global,
    mut path: Vec<Step<'_, T>>,
    mut below: Below<T>,
    entry: &Arc<Keyed<T>>,
    prio: u32,
    steps: &mut Steps<L>,
) -> Result<Below<T>, AllocError>
    ensures climbs { IfOk result (λ out. Climbs path.entry.items (key_in entry.now, (prio, item_in entry.now)) below out) }
    ensures steps { IfOk result (λ out. steps.new + still_open out ≤ steps.old + still_open below + length path.entry.items) }
    ensures at_most { steps.new ≤ steps.old + still_open below + length path.entry.items }
{
    while let Some(step) = path.pop() {
        below = raise(alloc, step, below, entry, prio, steps)?;
    }
    Ok(below)
}

// The tree, where the new entry may still have no place.
fn finish<T: Drop, L: Ledger>(
    alloc: Global,
    below: Below<T>,
    entry: &Arc<Keyed<T>>,
    prio: u32,
    steps: &mut Steps<L>,
) -> Result<Tree<T>, AllocError>
    ensures finishes { IfOk result (λ tree. Finishes (key_in entry.now, (prio, item_in entry.now)) below (shape tree)) }
    ensures steps { steps.new ≤ steps.old + still_open below }
{
    match below {
        Below::Whole(tree) => Ok(tree),
        Below::Parts(left, right) => Ok(make(
            alloc,
            left,
            Arc::try_clone(entry)?,
            prio,
            right,
            steps,
        )?),
    }
}

/// The tree with an entry. One of its key is replaced, and its priority stays.
///
/// The path to the key is made anew, at most one node for each node of it and one for the entry; all else is shared.
pub fn insert<T: Drop, L: Ledger>(
    alloc: Global,
    tree: &Tree<T>,
    key: Bytes,
    prio: u32,
    item: T,
    steps: &mut Steps<L>,
) -> Result<Tree<T>, AllocError>
    requires { IsTreap (shape tree.now) }
    ensures treap { IfOk result (λ out. IsTreap (shape out)) }
    ensures value { IfOk result (λ out. entries (shape out) ≡ with_entry (entries (shape tree.now)) key prio item) }
    ensures steps { steps.new ≤ steps.old + 2 * depth_at key (entries (shape tree.now)) + 1 }
{
    let Way { path, node } = descend(alloc, tree, &key, steps)?;
    let prio = node.map_or(prio, |node| node.prio());
    let entry = leaf(alloc, key, item)?;
    let below = start(alloc, node, &entry, prio, steps)?;
    let below = climb(alloc, path, below, &entry, prio, steps)?;
    finish(alloc, below, &entry, prio, steps)
}
