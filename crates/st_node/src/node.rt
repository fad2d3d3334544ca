//! Nodes, and trees of them that share what they have.
ghost use Rattle.std.specs.Prelude.{◌≡◌, ◌+◌, ◌≤◌, ◌<◌, IfOk};
ghost use Rattle.st_node.specs.Drops.{shape_of_top, weight, lean};
ghost use Rattle.st_node.specs.Shapes.{Fork, shape, node_shape, key_in, item_in, left_of, right_of, shared_of, entry_of};

use crate::Steps;
use bytes::Bytes;
use std::alloc::{AllocError, Global};
use std::mem;
use std::sync::Arc;
use std::sync::ledger::Ledger;

/// A key and its item, which nodes share. The key is shown by a node alone.
#[derive(Drop)]
pub struct Keyed<T> {
    pub(crate) key: Bytes,
    item: T,
}

/// No entry, or a node that may have other owners.
///
/// A tree of any depth is dropped with one node at a time on the stack and without memory: a left side is turned up, in
/// place, until there is none, and then the top is freed. Each node is turned up at most once, so it takes at most two
/// turns a node. Where two threads let go of one node at the same moment, the drop calls itself for that node.
#[cycle(tree)]
pub enum Tree<T> {
    Empty,
    Full(Arc<Node<T>>),
}

/// A node: a tree before its entry, the entry with its priority, and a tree behind it.
#[cycle(tree)]
#[derive(Drop)]
pub struct Node<T> {
    left: Tree<T>,
    pub(crate) entry: Arc<Keyed<T>>,
    prio: u32,
    right: Tree<T>,
}

impl<T: Drop> Drop for Tree<T> {
    #[cycle(drop)]
    fn drop(mut self) {
        loop {
            match self {
                Tree::Empty => return,
                Tree::Full(top) => self = unwound(top),
            }
        }
    }
}

// What is left to drop of a tree, without a call for each level: of a node without a left side its right side, and one
// with a left side is hung to the right of it. What has other owners is given up.
#[cycle(drop)]
fn unwound<T: Drop>(mut top: Arc<Node<T>>) -> Tree<T>
    ensures weight { weight (shape result) ≤ weight (node_shape top.value) }
    ensures left { lean (shape result) < lean (node_shape top.value) }
{
    let Some(node) = Arc::get_mut(&mut top) else {
        return behind(top);
    };
    let Some(mut below) = mem::replace(&mut node.left, Tree::Empty).into_top() else {
        return behind(top);
    };
    let Some(left) = Arc::get_mut(&mut below) else {
        drop(behind(below));
        return Tree::Full(top);
    };
    node.left = mem::replace(&mut left.right, Tree::Empty);
    left.right = Tree::Full(top);
    Tree::Full(below)
}

// The right side of a node, where this was its last owner. The rest of it is dropped.
#[cycle(drop)]
fn behind<T: Drop>(top: Arc<Node<T>>) -> Tree<T>
    ensures weight { weight (shape result) ≤ weight (shape top.value.right) }
    ensures left { lean (shape result) ≤ lean (shape top.value.right) }
{
    match Arc::into_inner(top) {
        None => Tree::Empty,
        Some(node) => node.into_right(),
    }
}

impl<T> Tree<T> {
    fn into_top(self) -> Option<Arc<Node<T>>>
        ensures { shape_of_top result ≡ shape self }
    {
        match self {
            Tree::Empty => None,
            Tree::Full(top) => Some(top),
        }
    }

    /// The same tree for another owner.
    pub fn share(&self) -> Result<Tree<T>, AllocError>
        ensures { IfOk result (λ tree. shape tree ≡ shape self.now) }
    {
        match self {
            Tree::Empty => Ok(Tree::Empty),
            Tree::Full(node) => Ok(Tree::Full(Arc::try_clone(node)?)),
        }
    }
}

/// A key and its item, for nodes to share.
pub fn leaf<T: Drop>(alloc: Global, key: Bytes, item: T) -> Result<Arc<Keyed<T>>, AllocError>
    ensures { IfOk result (λ entry. (key_in entry ≡ key) × (item_in entry ≡ item)) }
{
    Ok(Arc::new(alloc, Keyed { key, item })?)
}

/// A node over two trees, the only way to make one. It is one step, also where memory is refused.
pub fn make<T: Drop, L: Ledger>(
    alloc: Global,
    left: Tree<T>,
    entry: Arc<Keyed<T>>,
    prio: u32,
    right: Tree<T>,
    steps: &mut Steps<L>,
) -> Result<Tree<T>, AllocError>
    ensures parts { IfOk result (λ tree. shape tree ≡ Fork (shape left) (key_in entry, (prio, item_in entry)) (shape right)) }
    ensures steps { steps.new ≡ steps.old + 1 }
{
    steps.tick();
    let node = Node {
        left,
        entry,
        prio,
        right,
    };
    Ok(Tree::Full(Arc::new(alloc, node)?))
}

impl<T: Drop> Node<T> {
    #[cycle(drop)]
    fn into_right(self) -> Tree<T>
        ensures { result ≡ self.right }
    {
        let Node {
            left: _,
            entry: _,
            prio: _,
            right,
        } = self;
        right
    }
}

impl<T> Node<T> {
    /// The tree before its entry.
    pub fn left(&self) -> &Tree<T>
        ensures { result.now ≡ left_of self.now }
    {
        &self.left
    }

    /// The tree behind its entry.
    pub fn right(&self) -> &Tree<T>
        ensures { result.now ≡ right_of self.now }
    {
        &self.right
    }

    /// Its key and item, for another node to share.
    pub fn entry(&self) -> &Arc<Keyed<T>>
        ensures { result.now ≡ shared_of self.now }
    {
        &self.entry
    }

    /// Its priority.
    pub fn prio(&self) -> u32
        ensures { result ≡ (entry_of self.now).1.0 }
    {
        self.prio
    }

    /// Its item.
    pub fn item(&self) -> &T
        ensures { result.now ≡ (entry_of self.now).1.1 }
    {
        &self.entry.item
    }
}
