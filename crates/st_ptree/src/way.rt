//! Ways down a tree, and nodes made anew on the way up.
ghost use Rattle.std.specs.Prelude.{◌≡◌, ◌+◌, ◌≤◌, length, IfOk};
ghost use Rattle.st_node.specs.Shapes.{Fork, shape, entry_of};
ghost use Rattle.st_ptree.specs.Ways.{along};

use st_node::{Node, Steps, Tree, make};
use std::alloc::{AllocError, Global};
use std::sync::Arc;
use std::sync::ledger::Ledger;

/// On which side of a node a way goes on.
#[derive(Drop)]
pub(crate) enum Side {
    Left,
    Right,
}

/// A node on a way.
#[derive(Drop)]
pub(crate) struct Step<'a, T> {
    pub(crate) node: &'a Node<T>,
    pub(crate) side: Side,
}

/// A node's entry between other sides.
pub(crate) fn remake<T: Drop, L: Ledger>(
    alloc: Global,
    left: Tree<T>,
    node: &Node<T>,
    right: Tree<T>,
    steps: &mut Steps<L>,
) -> Result<Tree<T>, AllocError>
    ensures parts { IfOk result (λ tree. shape tree ≡ Fork (shape left) (entry_of node.now) (shape right)) }
    ensures steps { steps.new ≤ steps.old + 1 }
{
    make(
        alloc,
        left,
        Arc::try_clone(node.entry())?,
        node.prio(),
        right,
        steps,
    )
}

/// The tree with another end of a way, which is made anew.
pub(crate) fn rebuild<T: Drop, L: Ledger>(
    alloc: Global,
    mut path: Vec<Step<'_, T>>,
    end: Tree<T>,
    steps: &mut Steps<L>,
) -> Result<Tree<T>, AllocError>
    ensures value { IfOk result (λ tree. shape tree ≡ along path.entry.items (shape end)) }
    ensures steps { steps.new ≤ steps.old + length path.entry.items }
{
    let mut tree = end;
    while let Some(step) = path.pop() {
        let node = step.node;
        tree = match step.side {
            Side::Left => remake(alloc, tree, node, node.right().share()?, steps)?,
            Side::Right => remake(alloc, node.left().share()?, node, tree, steps)?,
        };
    }
    Ok(tree)
}
