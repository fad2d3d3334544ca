//! Cuts: a tree in two, at a place beside a key, and a tree without what is between two places.
ghost use Rattle.std.specs.Prelude.{◌≡◌, ◌||◌, not, IfOk};
ghost use Rattle.std.specs.FinMap.Entries.{where_key};
ghost use Rattle.std.specs.List.{AllByRecursion};
ghost use Rattle.st_node.specs.Shapes.{Tip, shape, entries};
ghost use Rattle.st_ptree.specs.Cut.{AreHalves, Grows, IsPassed, LeadsBeside};
ghost use Rattle.st_ptree.specs.Entries.{before, key_cmp, less};
ghost use Rattle.st_ptree.specs.Treap.{IsTreap};
ghost use Rattle.st_ptree.specs.Ways.{along};

use crate::join::join;
use crate::search::is_before;
use crate::way::{Side, Step, remake};
use st_node::{Steps, Tree};
use std::alloc::{AllocError, Global};
use std::sync::ledger::Ledger;

// What is before the place, and what is behind it.
#[derive(Drop)]
struct Halves<T> {
    front: Tree<T>,
    back: Tree<T>,
}

// The way to the place behind the entries before a key: those below it, or also the one at it.
fn descend<'a, T, L: Ledger>(
    alloc: Global,
    tree: &'a Tree<T>,
    key: &[u8],
    or_equal: bool,
    steps: &mut Steps<L>,
) -> Result<Vec<Step<'a, T>>, AllocError>
    ensures { IfOk result (λ path. LeadsBeside key.now or_equal (shape tree.now) path.items) }
{
    let mut path = Vec::with_capacity(alloc, 64)?;
    let mut rest = tree;
    while let Tree::Full(node) = rest {
        if is_before(node, key, or_equal, steps) {
            path.push(Step {
                node,
                side: Side::Right,
            })?;
            rest = node.right();
        } else {
            path.push(Step {
                node,
                side: Side::Left,
            })?;
            rest = node.left();
        }
    }
    Ok(path)
}

// The halves of a node's tree, from those of the side that the place is on.
fn grow<T: Drop, L: Ledger>(
    alloc: Global,
    step: Step<'_, T>,
    halves: Halves<T>,
    steps: &mut Steps<L>,
) -> Result<Halves<T>, AllocError>
    ensures { IfOk result (λ out. Grows step.entry halves out) }
{
    let Step { node, side } = step;
    let Halves { front, back } = halves;
    match side {
        Side::Left => {
            let back = remake(alloc, back, node, node.right().share()?, steps)?;
            Ok(Halves { front, back })
        }
        Side::Right => {
            let front = remake(alloc, node.left().share()?, node, front, steps)?;
            Ok(Halves { front, back })
        }
    }
}

// The halves of a tree, from the way to the place.
fn climb<T: Drop, L: Ledger>(
    alloc: Global,
    mut path: Vec<Step<'_, T>>,
    key: &[u8],
    or_equal: bool,
    steps: &mut Steps<L>,
) -> Result<Halves<T>, AllocError>
    requires treap { IsTreap (along path.items Tip) }
    requires passed { AllByRecursion (IsPassed key.now or_equal) path.items }
    ensures { IfOk result (λ halves. AreHalves key.now or_equal (along path.entry.items Tip) (shape halves.front) (shape halves.back)) }
{
    let mut halves = Halves {
        front: Tree::Empty,
        back: Tree::Empty,
    };
    while let Some(step) = path.pop() {
        halves = grow(alloc, step, halves, steps)?;
    }
    Ok(halves)
}

// The entries before a key, below it or also at it, and those behind them.
fn cut<T: Drop, L: Ledger>(
    alloc: Global,
    tree: &Tree<T>,
    key: &[u8],
    or_equal: bool,
    steps: &mut Steps<L>,
) -> Result<Halves<T>, AllocError>
    requires { IsTreap (shape tree.now) }
    ensures { IfOk result (λ halves. AreHalves key.now or_equal (shape tree.now) (shape halves.front) (shape halves.back)) }
{
    let path = descend(alloc, tree, key, or_equal, steps)?;
    climb(alloc, path, key, or_equal, steps)
}

/// The tree without the entries from `begin` up to `end`. The one at `end` goes too where `or_equal` says so.
pub(crate) fn without<T: Drop, L: Ledger>(
    alloc: Global,
    tree: &Tree<T>,
    begin: &[u8],
    end: &[u8],
    or_equal: bool,
    steps: &mut Steps<L>,
) -> Result<Tree<T>, AllocError>
    requires { IsTreap (shape tree.now) }
    ensures treap { IfOk result (λ out. IsTreap (shape out)) }
    ensures value { IfOk result (λ out. entries (shape out)
        ≡ where_key key_cmp (λ k. less k begin.now || not (before end.now or_equal k)) (entries (shape tree.now))) }
{
    let first = cut(alloc, tree, begin, false, steps)?;
    let second = cut(alloc, &first.back, end, or_equal, steps)?;
    Ok(join(alloc, &first.front, &second.back, steps)?)
}
