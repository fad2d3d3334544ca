use super::*;
use bytes::Bytes;
use std::alloc::Global;
use std::test::Fail;

fn range(alloc: Global, begin: &[u8], end: &[u8]) -> Result<Range, Fail> {
    let begin = Key::read(alloc, begin)?;
    let end = Key::read(alloc, end)?;
    Ok(Range::new(begin, end)?)
}

// The set of the given ranges.
fn set_of(alloc: Global, ranges: &[(&[u8], &[u8])]) -> Result<Ranges, Fail> {
    let mut set = Ranges::new(alloc);
    for (begin, end) in ranges {
        set.add(&range(alloc, begin, end)?)?;
    }
    Ok(set)
}

// The ends of each piece of the set, one after another.
fn ends(alloc: Global, set: &Ranges) -> Result<Vec<u8>, Fail> {
    let mut out = Vec::new(alloc);
    for piece in set.pieces() {
        out.extend_from_slice(piece.begin().bytes())?;
        out.extend_from_slice(piece.end().bytes())?;
    }
    Ok(out)
}

#[test]
fn reads_keys_up_to_the_limit(rt: HostRuntime) -> Result<(), Fail> {
    let bytes = vec![in rt.alloc(); 7u8; 10_002]?;
    let key = Key::read(rt.alloc(), &bytes[..10_000])?;
    let after = key_after(rt.alloc(), &key)?;
    assert!(rt; key < after);
    let end = Key::end(rt.alloc(), &bytes[..10_001])?;
    assert!(rt; after < end);
    let refused = Key::end(rt.alloc(), &bytes).err();
    assert_eq!(rt; refused, Some(KeyRefusal::KeyTooLong { len: 10_002 }));
    Ok(())
}

#[test]
fn reads_values_up_to_the_limit(rt: HostRuntime) -> Result<(), Fail> {
    let bytes = vec![in rt.alloc(); 7u8; 100_001]?;
    let value = Value::read(rt.alloc(), &bytes[..100_000])?;
    let copy = value.clone()?;
    assert_eq!(rt; copy.bytes().len(), 100_000);
    assert!(rt; copy == value);
    let refused = Value::read(rt.alloc(), &bytes).err();
    assert_eq!(rt; refused, Some(ValueRefusal::ValueTooLong { len: 100_001 }));
    Ok(())
}

fn front(bytes: &Bytes, len: usize) -> Result<Bytes, Fail> {
    if bytes.len() < len {
        return Err("the bytes are too few")?;
    }
    Ok(bytes.slice(0..len)?)
}

#[test]
fn shares_bytes_up_to_the_limits(rt: HostRuntime) -> Result<(), Fail> {
    let bytes = Bytes::from_vec(vec![in rt.alloc(); 7u8; 100_001]?)?;
    let key = Key::from_bytes(front(&bytes, 10_000)?)?;
    assert_eq!(rt; key.bytes().len(), 10_000);
    let end = Key::end_from_bytes(front(&bytes, 10_001)?)?;
    assert!(rt; key < end);
    let value = Value::from_bytes(front(&bytes, 100_000)?)?;
    assert_eq!(rt; value.bytes().len(), 100_000);
    let refused = Key::from_bytes(front(&bytes, 10_001)?).err();
    assert_eq!(rt; refused, Some(KeyRefusal::KeyTooLong { len: 10_001 }));
    let refused = Key::end_from_bytes(front(&bytes, 10_002)?).err();
    assert_eq!(rt; refused, Some(KeyRefusal::KeyTooLong { len: 10_002 }));
    let refused = Value::from_bytes(bytes).err();
    assert_eq!(rt; refused, Some(ValueRefusal::ValueTooLong { len: 100_001 }));
    Ok(())
}

#[test]
fn a_range_has_its_begin_and_not_its_end(rt: HostRuntime) -> Result<(), Fail> {
    let r = range(rt.alloc(), b"b", b"d")?;
    for (key, want) in [(b"a", false), (b"b", true), (b"c", true), (b"d", false)] {
        assert_eq!(rt; r.contains(key), want);
    }
    let (begin, end) = (Key::read(rt.alloc(), b"b")?, Key::read(rt.alloc(), b"b")?);
    assert!(rt; Range::new(begin, end).is_err());
    Ok(())
}

#[test]
fn touching_ranges_make_one(rt: HostRuntime) -> Result<(), Fail> {
    let set = set_of(rt.alloc(), &[(b"m", b"p"), (b"b", b"d"), (b"d", b"e")])?;
    assert_eq!(rt; ends(rt.alloc(), &set)?.as_slice(), b"bemp".as_slice());
    assert!(rt; set.covers(&range(rt.alloc(), b"b", b"e")?));
    assert!(rt; !set.covers(&range(rt.alloc(), b"d", b"m")?));
    Ok(())
}

#[test]
fn a_removed_middle_leaves_two(rt: HostRuntime) -> Result<(), Fail> {
    let mut set = set_of(rt.alloc(), &[(b"b", b"p")])?.clone()?;
    set.remove(&range(rt.alloc(), b"c", b"f")?)?;
    assert_eq!(rt; ends(rt.alloc(), &set)?.as_slice(), b"bcfp".as_slice());
    assert!(rt; !set.contains(b"c"));
    assert!(rt; set.contains(b"f"));
    Ok(())
}

// The ranges that the pairs of ends are, one after another.
fn ranges(alloc: Global, ends: &[(&[u8], &[u8])]) -> Result<Vec<Range>, Fail> {
    let mut out = Vec::new(alloc);
    for (begin, end) in ends {
        out.push(range(alloc, begin, end)?)?;
    }
    Ok(out)
}

#[test]
fn ranges_that_rise_and_are_apart_make_a_set(rt: HostRuntime) -> Result<(), Fail> {
    let rows: [(&[(&[u8], &[u8])], bool); 5] = [
        (&[], true),
        (&[(b"b", b"d"), (b"e", b"f"), (b"m", b"p")], true),
        (&[(b"b", b"d"), (b"d", b"f")], false),
        (&[(b"b", b"d"), (b"e", b"p"), (b"f", b"m")], false),
        (&[(b"m", b"p"), (b"b", b"d")], false),
    ];
    for (ends, want) in rows {
        let pieces = ranges(rt.alloc(), ends)?;
        match Ranges::from_vec(pieces) {
            Ok(set) => assert_eq!(rt; (want, set.pieces().len()), (true, ends.len())),
            Err(pieces) => assert_eq!(rt; (want, pieces.len()), (false, ends.len())),
        }
    }
    Ok(())
}

#[test]
fn a_set_is_a_subset_where_each_piece_lies_in_one(rt: HostRuntime) -> Result<(), Fail> {
    let alloc = rt.alloc();
    let set = set_of(alloc, &[(b"b", b"d"), (b"f", b"m"), (b"p", b"q")])?;
    let rows: [(&[(&[u8], &[u8])], bool); 6] = [
        (&[], true),
        (&[(b"f", b"g"), (b"h", b"m"), (b"p", b"q")], true),
        (&[(b"b", b"c"), (b"e", b"g")], false),
        (&[(b"c", b"e")], false),
        (&[(b"b", b"m")], false),
        (&[(b"q", b"r")], false),
    ];
    for (ends, want) in rows {
        let part = set_of(alloc, ends)?;
        assert_eq!(rt; part.is_subset(&set), want);
    }
    assert!(rt; !set.is_subset(&Ranges::new(alloc)));
    Ok(())
}
