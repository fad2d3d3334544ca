//! Joins of two trees.
ghost use Rattle.std.specs.Prelude.{IfOk};
ghost use Rattle.st_node.specs.Shapes.{shape};
ghost use Rattle.st_ptree.specs.Ways.{along};
ghost use Rattle.st_ptree.specs.Join.{Apart, IsJoin};
ghost use Rattle.st_ptree.specs.Treap.{IsTreap};

use crate::way::{Side, Step, rebuild};
use st_node::{Steps, Tree};
use std::alloc::{AllocError, Global};
use std::sync::ledger::Ledger;

// The nodes that stay on top, and what is left where one tree has ended.
struct Seam<'a, T> {
    path: Vec<Step<'a, T>>,
    end: &'a Tree<T>,
}

// Where two trees meet: of the two tops the one that ranks higher stays on top. It compares no keys.
fn sew<'a, T>(
    alloc: Global,
    before: &'a Tree<T>,
    behind: &'a Tree<T>,
) -> Result<Seam<'a, T>, AllocError>
    requires before { IsTreap (shape before.now) }
    requires behind { IsTreap (shape behind.now) }
    requires apart { Apart (shape before.now) (shape behind.now) }
    ensures { IfOk result (λ seam. IsJoin (shape before.now) (shape behind.now) (along seam.path.items (shape seam.end.now))) }
{
    let mut path = Vec::with_capacity(alloc, 64)?;
    let mut before = before;
    let mut behind = behind;
    loop {
        let Tree::Full(left) = before else {
            return Ok(Seam { path, end: behind });
        };
        let Tree::Full(right) = behind else {
            return Ok(Seam { path, end: before });
        };
        if right.prio() <= left.prio() {
            path.push(Step {
                node: left,
                side: Side::Right,
            })?;
            before = left.right();
        } else {
            path.push(Step {
                node: right,
                side: Side::Left,
            })?;
            behind = right.left();
        }
    }
}

/// The two trees as one, where each key of the first is below each of the second.
pub(crate) fn join<T: Drop, L: Ledger>(
    alloc: Global,
    before: &Tree<T>,
    behind: &Tree<T>,
    steps: &mut Steps<L>,
) -> Result<Tree<T>, AllocError>
    requires before { IsTreap (shape before.now) }
    requires behind { IsTreap (shape behind.now) }
    requires apart { Apart (shape before.now) (shape behind.now) }
    ensures { IfOk result (λ tree. IsJoin (shape before.now) (shape behind.now) (shape tree)) }
{
    let Seam { path, end } = sew(alloc, before, behind)?;
    rebuild(alloc, path, end.share()?, steps)
}
