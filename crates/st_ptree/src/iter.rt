//! Going through a map.
ghost use Rattle.std.specs.Prelude.{◌≡◌, ◌+◌, ◌≤◌, ◌<◌, IsTrue};
ghost use Rattle.std.specs.Option.{option_map};
ghost use Rattle.st_ptree.specs.Depth.{depth_behind};
ghost use Rattle.st_ptree.specs.Entries.{above, first_of, is_ordered, pair_of, pairs_of};

use crate::{PTree, Steps};
use bytes::Bytes;
use std::marker::{Brand, Model};
use std::sync::ledger::{Blank, Ledger};

/// The entries of a map that are left to go through, in the order of their keys, each as its key and its item.
///
/// It takes no memory: each step searches the map for the key behind the last one. Its steps are counted by themselves.
#[derive(Drop)]
pub struct Iter<'a, T> {
    map: &'a PTree<T>,
    next: Option<(&'a Bytes, &'a T)>,
}

impl<'a, T> Model for Iter<'a, T> {
    ghost use Rattle.std.specs.Prelude.{ℕ, List};
    ghost use Rattle.std.specs.Option.{option_map};
    ghost use Rattle.st_ptree.specs.Going.{pairs_from};

    ghost Value = { List (List ℕ × T) };

    ghost view = { λ iter. pairs_from (option_map (λ found. (found.0.now, found.1.now)) iter.next) iter.map.now };
}

// The entry with the least key above one, or with the least of all, by steps that are counted by themselves.
fn next_in<'a, T, L: Ledger>(
    map: &'a PTree<T>,
    last: &Bytes,
    blank: Blank,
) -> Option<(&'a Bytes, &'a T)>
    requires name { blank.name ≡ L.name }
    requires parts { blank.parts ≡ L.parts }
    requires some { 0 < blank.parts }
    ensures value { option_map (λ found. (found.0.now, found.1.now)) result
        ≡ option_map pair_of (first_of (above map.now last.now)) }
    ensures ordered { IsTrue (is_ordered map.now) }
{
    let mut steps = Steps::<L>::new(blank);
    map.next_after(last.as_slice(), &mut steps)
}

fn first_in<T, L: Ledger>(map: &PTree<T>, blank: Blank) -> Option<(&Bytes, &T)>
    requires name { blank.name ≡ L.name }
    requires parts { blank.parts ≡ L.parts }
    requires some { 0 < blank.parts }
    ensures value { option_map (λ found. (found.0.now, found.1.now)) result ≡ option_map pair_of (first_of map.now) }
    ensures ordered { IsTrue (is_ordered map.now) }
{
    let mut steps = Steps::<L>::new(blank);
    map.first(&mut steps)
}

impl<'a, T> Iter<'a, T> {
    pub(crate) fn all(map: &'a PTree<T>) -> Iter<'a, T>
        ensures value { result ≡ pairs_of map.now }
        ensures ordered { IsTrue (is_ordered map.now) }
    {
        let next = first_in::<T, Brand>(map, Blank::new(1));
        Iter { map, next }
    }

    pub(crate) fn above<L: Ledger>(
        map: &'a PTree<T>,
        key: &[u8],
        steps: &mut Steps<L>,
    ) -> Iter<'a, T>
        ensures value { result ≡ pairs_of (above map.now key.now) }
        ensures steps { steps.new ≤ steps.old + depth_behind key.now map.now + 1 }
        ensures ordered { IsTrue (is_ordered map.now) }
    {
        let next = map.next_after(key, steps);
        Iter { map, next }
    }
}

impl<'a, T> Iterator for Iter<'a, T> {
    type Item = (&'a Bytes, &'a T);

    ghost use Rattle.std.specs.Iterator.{YieldsFirstBy, item_count};

    ghost next_gives = { YieldsFirstBy (λ found. (found.0.now, found.1.now)) (λ iter. iter) };

    ghost remaining = { item_count (λ iter. iter) };

    fn next(&mut self) -> Option<(&'a Bytes, &'a T)> {
        let found = self.next?;
        self.next = next_in::<T, Brand>(self.map, found.0, Blank::new(1));
        Some(found)
    }
}
