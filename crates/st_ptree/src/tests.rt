ghost use Rattle.std.specs.Prelude.{◌≡◌, ◌<◌};

use super::*;
use bytes::Bytes;
use std::alloc::Global;
use std::marker::Brand;
use std::process::Abort;
use std::sync::ledger::{Blank, Ledger};
use std::test::Fail;

#[test]
fn a_change_is_none_of_a_sharer(rt: HostRuntime) -> Result<(), Fail> {
    share_and_change::<Brand>(&rt, rt.alloc(), Blank::new(1))
}

fn share_and_change<L: Ledger>(rt: &impl Abort, alloc: Global, blank: Blank) -> Result<(), Fail>
    requires name { blank.name ≡ L.name }
    requires parts { blank.parts ≡ L.parts }
    requires some { 0 < blank.parts }
{
    let mut steps = Steps::<L>::new(blank);
    let mut tree = PTree::new(alloc);
    assert!(rt; tree.is_empty());
    let keys: [&'static [u8]; 3] = [b"b", b"c", b"a"];
    for key in keys {
        tree.insert(Bytes::from_static(key), 7, 1u8, &mut steps)?;
    }
    tree.insert(Bytes::from_static(b"c"), 8, 2, &mut steps)?;
    let shared = tree.share()?;
    tree.erase(b"a", b"c", &mut steps)?;
    for (key, kept, left) in [(b"a", 1, None), (b"b", 1, None), (b"c", 2, Some(2))] {
        assert_eq!(rt; shared.get(key, &mut steps).copied(), Some(kept));
        assert_eq!(rt; tree.get(key, &mut steps).copied(), left);
    }
    assert!(rt; tree.remove(b"c", &mut steps)?);
    assert!(rt; !tree.remove(b"c", &mut steps)?);
    assert!(rt; tree.is_empty() && !shared.is_empty());
    Ok(())
}

#[test]
fn neighbours_are_found_from_each_side(rt: HostRuntime) -> Result<(), Fail> {
    find_neighbours::<Brand>(&rt, rt.alloc(), Blank::new(1))
}

fn find_neighbours<L: Ledger>(rt: &impl Abort, alloc: Global, blank: Blank) -> Result<(), Fail>
    requires name { blank.name ≡ L.name }
    requires parts { blank.parts ≡ L.parts }
    requires some { 0 < blank.parts }
{
    let mut steps = Steps::<L>::new(blank);
    let mut tree = PTree::new(alloc);
    tree.insert(Bytes::from_static(b"d"), 1, 4u8, &mut steps)?;
    tree.insert(Bytes::from_static(b"b"), 2, 2, &mut steps)?;
    // the item at or below each key, above it, and below it
    let rows: [(&[u8], Option<u8>, Option<u8>, Option<u8>); 5] = [
        (b"a", None, Some(2), None),
        (b"b", Some(2), Some(4), None),
        (b"c", Some(2), Some(4), Some(2)),
        (b"d", Some(4), None, Some(2)),
        (b"d\0", Some(4), None, Some(4)),
    ];
    for (key, at_or_below, above, below) in rows {
        assert_eq!(rt;
            tree.last_at_or_below(key, &mut steps)
                .map(|(_, item)| *item),
            at_or_below
        );
        assert_eq!(rt;
            tree.next_after(key, &mut steps).map(|(_, item)| *item),
            above
        );
        assert_eq!(rt;
            tree.iter_above(key, &mut steps)
                .next()
                .map(|(_, item)| *item),
            above
        );
        assert_eq!(rt;
            tree.prev_before(key, &mut steps).map(|(_, item)| *item),
            below
        );
    }
    let items: Vec<u8> = tree.iter().map(|(_, item)| *item).collect(alloc)?;
    assert_eq!(rt; items.as_slice(), [2, 4].as_slice());
    Ok(())
}
