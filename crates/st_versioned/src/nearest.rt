//! The keys of a map that are nearest to a key.
ghost use Rattle.std.specs.Prelude.{◌≡◌, false, not, true};
ghost use Rattle.std.specs.Option.{option_map};
ghost use Rattle.st_key.specs.Spans.{key_less};
ghost use Rattle.st_ptree.specs.Entries.{pairs_of};
ghost use Rattle.st_versioned.specs.Neighbours.{IsFirstKey, IsKeyOf, comes_behind, first_by, is_beyond, key_above, keys_of};

use crate::bound::{Bound, is_same};
use bytes::Bytes;
use st_ptree::{PTree, Steps, neighbours_are_nearest};
use std::sync::ledger::Ledger;

// The key of a pair.
fn key_of<'a, T>(pair: Option<(&'a Bytes, &'a T)>) -> Option<&'a [u8]>
    ensures { option_map (λ k. k.now) result ≡ option_map (λ p. p.0.now) pair.entry }
{
    match pair {
        Some((key, _)) => Some(key.as_slice()),
        None => None,
    }
}

fn above_in<'a, T, L: Ledger>(
    map: &'a PTree<T>,
    key: &[u8],
    steps: &mut Steps<L>,
) -> Option<&'a [u8]>
    ensures { IsFirstKey key_less (comes_behind key.now false) (keys_of (pairs_of map.now)) (option_map (λ k. k.now) result) }
{
    neighbours_are_nearest::<T>();
    key_of(map.next_after(key, steps))
}

fn below_in<'a, T, L: Ledger>(
    map: &'a PTree<T>,
    key: &[u8],
    steps: &mut Steps<L>,
) -> Option<&'a [u8]>
    ensures { IsFirstKey key_above (λ other. key_less other key.now) (keys_of (pairs_of map.now)) (option_map (λ k. k.now) result) }
{
    neighbours_are_nearest::<T>();
    key_of(map.prev_before(key, steps))
}

// The greatest key of a map at a key or below it.
fn last_in<'a, T, L: Ledger>(
    map: &'a PTree<T>,
    key: &[u8],
    steps: &mut Steps<L>,
) -> Option<&'a [u8]>
    ensures { IsFirstKey key_above (λ other. not (key_less key.now other)) (keys_of (pairs_of map.now)) (option_map (λ k. k.now) result) }
{
    neighbours_are_nearest::<T>();
    key_of(map.last_at_or_below(key, steps))
}

// The key, where the map has it.
fn at_in<'a, T, L: Ledger>(map: &'a PTree<T>, key: &[u8], steps: &mut Steps<L>) -> Option<&'a [u8]>
    ensures { IsKeyOf (keys_of (pairs_of map.now)) key.now (option_map (λ k. k.now) result) }
{
    match last_in(map, key, steps) {
        Some(at) => { if is_same(at, key) { Some(at) } else { None } }
        None => None,
    }
}

// The first key of a map at a key or above it.
fn from_in<'a, T, L: Ledger>(
    map: &'a PTree<T>,
    key: &[u8],
    steps: &mut Steps<L>,
) -> Option<&'a [u8]>
    ensures { IsFirstKey key_less (comes_behind key.now true) (keys_of (pairs_of map.now)) (option_map (λ k. k.now) result) }
{
    match at_in(map, key, steps) {
        Some(at) => Some(at),
        None => above_in(map, key, steps),
    }
}

/// The first key beyond a bound that a map has.
pub(crate) fn first_in<'a, T, L: Ledger>(
    map: &'a PTree<T>,
    bound: Bound<'_>,
    steps: &mut Steps<L>,
) -> Option<&'a [u8]>
    ensures { IsFirstKey (first_by bound.entry) (is_beyond bound.entry) (keys_of (pairs_of map.now)) (option_map (λ k. k.now) result) }
{
    match bound {
        Bound::From(key) => from_in(map, key, steps),
        Bound::Above(key) => above_in(map, key, steps),
        Bound::Below(key) => below_in(map, key, steps),
    }
}
