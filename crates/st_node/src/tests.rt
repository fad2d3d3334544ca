ghost use Rattle.std.specs.Prelude.{◌≡◌, ◌<◌};

use super::*;
use bytes::Bytes;
use std::alloc::Global;
use std::cmp::Ordering;
use std::marker::Brand;
use std::process::Abort;
use std::sync::Arc;
use std::sync::ledger::{Blank, Ledger};
use std::test::Fail;

const LONG: u32 = 100_000;

#[test]
fn long_chains_are_dropped(rt: HostRuntime) -> Result<(), Fail> {
    chain::<Brand>(rt.alloc(), Blank::new(1), true)?;
    chain::<Brand>(rt.alloc(), Blank::new(1), false)
}

fn chain<L: Ledger>(alloc: Global, blank: Blank, to_the_right: bool) -> Result<(), Fail>
    requires name { blank.name ≡ L.name }
    requires parts { blank.parts ≡ L.parts }
    requires some { 0 < blank.parts }
{
    let mut steps = Steps::<L>::new(blank);
    let mut tree = Tree::<u8>::Empty;
    for prio in 0..LONG {
        let entry = leaf(alloc, Bytes::from_static(b"key"), 1u8)?;
        tree = if to_the_right {
            make(alloc, Tree::Empty, entry, prio, tree, &mut steps)?
        } else {
            make(alloc, tree, entry, prio, Tree::Empty, &mut steps)?
        };
    }
    Ok(())
}

#[test]
fn a_node_tells_its_parts(rt: HostRuntime) -> Result<(), Fail> {
    tell_parts::<Brand>(&rt, rt.alloc(), Blank::new(1))
}

fn tell_parts<L: Ledger>(rt: &impl Abort, alloc: Global, blank: Blank) -> Result<(), Fail>
    requires name { blank.name ≡ L.name }
    requires parts { blank.parts ≡ L.parts }
    requires some { 0 < blank.parts }
{
    let mut steps = Steps::<L>::new(blank);
    let low = leaf(alloc, Bytes::from_static(b"a"), 1u8)?;
    let low = make(alloc, Tree::Empty, low, 5, Tree::Empty, &mut steps)?;
    let high = leaf(alloc, Bytes::from_static(b"b"), 2)?;
    let tree = make(alloc, low.share()?, high, 7, Tree::Empty, &mut steps)?;
    let Tree::Full(node) = &tree else {
        unreachable!();
    };
    assert_eq!(rt; (node.prio(), *node.item()), (7, 2));
    assert_eq!(rt; key_of(node, &mut steps).as_slice(), b"b".as_slice());
    for (key, order) in [
        (b"a", Ordering::Less),
        (b"b", Ordering::Equal),
        (b"c", Ordering::Greater),
    ] {
        assert_eq!(rt; look(node, key, &mut steps), order);
    }
    let other = make(
        alloc,
        Tree::Empty,
        Arc::try_clone(node.entry())?,
        8,
        low,
        &mut steps,
    )?;
    let Tree::Full(other) = &other else {
        unreachable!();
    };
    for (side, item) in [
        (node.left(), Some(1)),
        (node.right(), None),
        (other.left(), None),
        (other.right(), Some(1)),
    ] {
        let found = match side {
            Tree::Full(below) => Some(*below.item()),
            Tree::Empty => None,
        };
        assert_eq!(rt; found, item);
    }
    Ok(())
}
