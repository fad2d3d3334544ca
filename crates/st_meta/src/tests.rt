ghost use Rattle.std.specs.Prelude.{◌≡◌, ◌<◌};

use super::*;
use bytes::Bytes;
use st_key::{Key, MetaPart, Range, Ranges};
use st_ops::Op;
use st_ptree::{PTree, Steps};
use std::alloc::{AllocError, Global};
use std::marker::Brand;
use std::sync::ledger::{Blank, Ledger};
use std::test::Fail;

type Pair<'a> = (&'a [u8], &'a [u8]);

const ASSIGNED: &[u8] = b"\xff\xff/assigned";

const AVAILABLE: &[u8] = b"\xff\xff/available";

const VERSION: &[u8] = b"\xff\xff/version";

// One range, from the empty key to ff.
const ALL: &[u8] = &[1, 0, 0, 0, 0, 0, 0, 0, 1, 0, 0, 0, 0xff];

// From a to c.
const PART: &[u8] = &[1, 0, 0, 0, 1, 0, 0, 0, b'a', 1, 0, 0, 0, b'c'];

const ONE: &[u8] = &[1, 0, 0, 0, 0, 0, 0, 0];

fn map_in<L: Ledger>(
    alloc: Global,
    pairs: &[Pair<'_>],
    blank: Blank,
) -> Result<PTree<Bytes>, AllocError>
    requires name { blank.name ≡ L.name }
    requires parts { blank.parts ≡ L.parts }
    requires some { 0 < blank.parts }
{
    let mut steps = Steps::<L>::new(blank);
    let mut map = PTree::new(alloc);
    for (key, value) in pairs {
        let key = Bytes::copy_from_slice(alloc, key)?;
        let value = Bytes::copy_from_slice(alloc, value)?;
        map.insert(key, 0, value, &mut steps)?;
    }
    Ok(map)
}

// The map of these pairs, and of a user's.
fn map(alloc: Global, pairs: &[Pair<'_>]) -> Result<PTree<Bytes>, AllocError> {
    let mut all = vec![in alloc; (b"a".as_slice(), b"1".as_slice())]?;
    all.extend_from_slice(pairs)?;
    map_in::<Brand>(alloc, &all, Blank::new(1))
}

fn range(alloc: Global, begin: &[u8], end: &[u8]) -> Result<Ranges, Fail> {
    let range = Range::new(Key::end(alloc, begin)?, Key::end(alloc, end)?)?;
    Ok(Ranges::of(alloc, range)?)
}

#[test]
fn a_state_is_three_sets(rt: HostRuntime) -> Result<(), Fail> {
    let alloc = rt.alloc();
    let meta = Meta {
        version: 1,
        assigned: range(alloc, b"", b"\xff")?,
        available: range(alloc, b"a", b"c")?,
    };
    let ops = to_ops(alloc, &meta)?;
    let want = [(ASSIGNED, ALL), (AVAILABLE, PART), (VERSION, ONE)];
    assert_eq!(rt; ops.len(), 3);
    for (op, (key, value)) in ops.iter().zip(want.iter()) {
        let set = Op::Set(
            Bytes::copy_from_slice(alloc, key)?,
            Bytes::copy_from_slice(alloc, value)?,
        );
        assert!(rt; *op == set);
    }
    let read = of_pairs(alloc, &map(alloc, &want)?)?;
    assert_eq!(rt; read.version, 1);
    assert!(rt; read.assigned.is_subset(&meta.assigned) && meta.assigned.is_subset(&read.assigned));
    assert!(rt;
        read.available.is_subset(&meta.available) && meta.available.is_subset(&read.available)
    );
    Ok(())
}

#[test]
fn the_first_wrong_part_is_told(rt: HostRuntime) -> Result<(), Fail> {
    let alloc = rt.alloc();
    let rows: [(&[Pair<'_>], MetaPart); 9] = [
        (&[], MetaPart::Version),
        (&[(ASSIGNED, ALL), (AVAILABLE, ALL)], MetaPart::Version),
        (
            &[(ASSIGNED, ALL), (AVAILABLE, ALL), (VERSION, &[0; 7])],
            MetaPart::Version,
        ),
        (&[(ASSIGNED, b"x"), (VERSION, &[0; 9])], MetaPart::Version),
        (&[(AVAILABLE, ALL), (VERSION, ONE)], MetaPart::Assigned),
        (
            &[(ASSIGNED, &[2, 0, 0, 0]), (AVAILABLE, ALL), (VERSION, ONE)],
            MetaPart::Assigned,
        ),
        (&[(ASSIGNED, ALL), (VERSION, ONE)], MetaPart::Available),
        (
            &[(ASSIGNED, PART), (AVAILABLE, ALL), (VERSION, ONE)],
            MetaPart::Available,
        ),
        (
            &[
                (b"\xff", b""),
                (ASSIGNED, ALL),
                (AVAILABLE, PART),
                (VERSION, ONE),
            ],
            MetaPart::Other,
        ),
    ];
    for (pairs, which) in rows {
        let refused = of_pairs(alloc, &map(alloc, pairs)?).err();
        assert_eq!(rt; refused, Some(MetaRefusal::BadMeta { which }));
    }
    Ok(())
}

#[test]
fn ends_are_bounded(rt: HostRuntime) -> Result<(), Fail> {
    let alloc = rt.alloc();
    for (len, is_read) in [(10_001usize, true), (10_002, false)] {
        // From the empty key to so many bytes 61.
        let mut value = vec![in alloc; 1u8, 0, 0, 0, 0, 0, 0, 0]?;
        value.extend_from_slice(&[(len % 256) as u8, (len / 256 % 256) as u8, 0, 0])?;
        value.extend_from_slice(&vec![in alloc; b'a'; len]?)?;
        let none: &[u8] = &[0; 4];
        let pairs = [
            (ASSIGNED, value.as_slice()),
            (AVAILABLE, none),
            (VERSION, ONE),
        ];
        let read = of_pairs(alloc, &map(alloc, &pairs)?);
        assert_eq!(rt; read.is_ok(), is_read, "{len}");
    }
    Ok(())
}
