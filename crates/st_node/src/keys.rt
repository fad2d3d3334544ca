//! What nodes tell of their keys.
ghost use Rattle.std.specs.Prelude.{◌≡◌, ◌+◌};
ghost use Rattle.st_node.specs.Keys.{key_cmp};
ghost use Rattle.st_node.specs.Shapes.{entry_of};

use crate::{Node, Steps};
use bytes::Bytes;
use std::cmp::Ordering;
use std::sync::ledger::Ledger;

/// How a key stands to that of a node. It is one step.
pub fn look<T, L: Ledger>(node: &Node<T>, key: &[u8], steps: &mut Steps<L>) -> Ordering
    ensures order { result ≡ key_cmp key.now (entry_of node.now).0 }
    ensures steps { steps.new ≡ steps.old + 1 }
{
    steps.compare(key, node.entry.key.as_slice())
}

/// The key of a node, handed out. It is one step.
pub fn key_of<'a, T, L: Ledger>(node: &'a Node<T>, steps: &mut Steps<L>) -> &'a Bytes
    ensures key { result.now ≡ (entry_of node.now).0 }
    ensures steps { steps.new ≡ steps.old + 1 }
{
    steps.tick();
    &node.entry.key
}
