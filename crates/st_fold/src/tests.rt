use super::*;
use st_atomic::AtomicOp;
use st_key::{Key, Range, Ranges, Value};
use st_list::Items;
use st_mutation::{Batch, Move, Mutation};
use std::alloc::Global;
use std::test::Fail;

fn range(alloc: Global, begin: &[u8], end: &[u8]) -> Result<Range, Fail> {
    let begin = Key::end(alloc, begin)?;
    let end = Key::end(alloc, end)?;
    Ok(Range::new(begin, end)?)
}

fn set(alloc: Global, key: &[u8], value: &[u8]) -> Result<Mutation, Fail> {
    Ok(Mutation::Set(Key::read(alloc, key)?, Value::read(alloc, value)?))
}

fn atomic(alloc: Global, op: AtomicOp, key: &[u8], operand: &[u8]) -> Result<Mutation, Fail> {
    Ok(Mutation::Atomic(op, Key::read(alloc, key)?, Value::read(alloc, operand)?))
}

fn push(alloc: Global, log: &mut Vec<Batch>, mutation: Mutation) -> Result<(), Fail> {
    let mut mutations = Items::new(alloc);
    mutations.push(mutation)?;
    log.push(Batch {
        version: log.len() as u64 + 1,
        moves: Items::new(alloc),
        mutations,
    })?;
    Ok(())
}

// Versions 1 to 3 set c, a and b, 4 clears a and b, 5 sets b again, 6 adds to b, 7 and 8 clear b and c where they have
// this value, which b hasn't.
fn log(alloc: Global) -> Result<Vec<Batch>, Fail> {
    let mut log = Vec::new(alloc);
    for (key, value) in [(b"c", b"3"), (b"a", b"1"), (b"b", b"2")] {
        push(alloc, &mut log, set(alloc, key, value)?)?;
    }
    push(alloc, &mut log, Mutation::Clear(range(alloc, b"a", b"c")?))?;
    push(alloc, &mut log, set(alloc, b"b", b"9")?)?;
    push(
        alloc,
        &mut log,
        atomic(alloc, AtomicOp::Add, b"b", b"\x01\x01")?,
    )?;
    push(
        alloc,
        &mut log,
        atomic(alloc, AtomicOp::CompareAndClear, b"b", b"9")?,
    )?;
    push(
        alloc,
        &mut log,
        atomic(alloc, AtomicOp::CompareAndClear, b"c", b"3")?,
    )?;
    Ok(log)
}

#[test]
fn a_log_is_folded_up_to_a_version(rt: HostRuntime) -> Result<(), Fail> {
    let alloc = rt.alloc();
    let log = log(alloc)?;
    // the values of a, of b and of c
    let rows: [(u64, Option<&[u8]>, Option<&[u8]>, Option<&[u8]>); 7] = [
        (0, None, None, None),
        (3, Some(b"1"), Some(b"2"), Some(b"3")),
        (4, None, None, Some(b"3")),
        (5, None, Some(b"9"), Some(b"3")),
        (6, None, Some(b":\x01"), Some(b"3")),
        (7, None, Some(b":\x01"), Some(b"3")),
        (u64::MAX, None, Some(b":\x01"), None),
    ];
    for (version, a, b, c) in rows {
        let pairs = fold_to(alloc, &log, version)?;
        for (key, value) in [(b"a", a), (b"b", b), (b"c", c)] {
            assert_eq!(rt; pairs.get(key), value, "in the map of version {version}");
        }
    }
    // its pairs come in the order of their keys, in which they were not set
    let pairs = fold_to(alloc, &log, 3)?.pairs()?;
    assert_eq!(rt; pairs.len(), 3);
    let mut shown = Vec::new(alloc);
    for (key, value) in &pairs {
        shown.extend_from_slice(key.bytes())?;
        shown.extend_from_slice(value.bytes())?;
    }
    assert_eq!(rt; shown.as_slice(), b"a1b2c3".as_slice());
    Ok(())
}

// The bytes of an answer: of a value, of the key that is found, or of all rows, and `+` where there are more.
fn shown(alloc: Global, answer: &Answer) -> Result<Vec<u8>, Fail> {
    let mut bytes = Vec::new(alloc);
    match answer {
        Answer::Value(value) => bytes.extend_from_slice(value.bytes())?,
        Answer::Rows { rows, more } => {
            for (key, value) in rows.as_slice() {
                bytes.extend_from_slice(key.bytes())?;
                bytes.extend_from_slice(value.bytes())?;
            }
            bytes.extend_from_slice(if *more { b"+" } else { b"" })?;
        }
        Answer::KeyIs(Found::Key(key)) => bytes.extend_from_slice(key.bytes())?,
        Answer::KeyIs(Found::Before) => bytes.extend_from_slice(b"before")?,
        Answer::KeyIs(Found::After) => bytes.extend_from_slice(b"after")?,
        _ => bytes.extend_from_slice(b"none")?,
    }
    Ok(bytes)
}

#[test]
fn a_get_finds_its_value(rt: HostRuntime) -> Result<(), Fail> {
    let alloc = rt.alloc();
    let log = log(alloc)?;
    let cases: [(&[u8], u64, &[u8]); 4] = [
        (b"a", 3, b"1"),
        (b"a", 4, b"none"),
        (b"b", 6, b":\x01"),
        (b"ab", 8, b"none"),
    ];
    for (key, version, expected) in cases {
        let answer = answer_to(alloc, &log, &Ask::Get(Key::read(alloc, key)?, version))?;
        assert_eq!(rt; shown(alloc, &answer)?.as_slice(), expected, "at {version}");
    }
    Ok(())
}

#[test]
fn a_range_finds_its_rows(rt: HostRuntime) -> Result<(), Fail> {
    let alloc = rt.alloc();
    let log = log(alloc)?;
    let cases: [(u32, u32, bool, u64, &[u8]); 6] = [
        (3, 1000, false, 3, b"a1b2c3"),
        (2, 1000, false, 3, b"a1b2+"),
        (10, 2, false, 3, b"a1+"),
        (10, 3, false, 3, b"a1b2+"),
        (10, 6, true, 3, b"c3b2a1"),
        (1, 1000, true, 5, b"c3+"),
    ];
    for (rows, bytes, reverse, version, expected) in cases {
        let ask = Ask::Rows {
            range: range(alloc, b"a", b"d")?,
            rows,
            bytes,
            reverse,
            version,
        };
        let answer = answer_to(alloc, &log, &ask)?;
        assert_eq!(rt;
            shown(alloc, &answer)?.as_slice(),
            expected,
            "{rows} rows at {version}"
        );
    }
    Ok(())
}

#[test]
fn a_selector_finds_its_key(rt: HostRuntime) -> Result<(), Fail> {
    let alloc = rt.alloc();
    let log = log(alloc)?;
    let cases: [(&[u8], bool, i32, u64, &[u8]); 7] = [
        (b"a", true, 1, 5, b"b"),
        (b"b", false, 0, 5, b"before"),
        (b"c", true, 1, 5, b"after"),
        (b"c", false, 0, 3, b"b"),
        (b"c", true, -2, 3, b"a"),
        (b"c", true, -1000, 3, b"before"),
        (b"", false, 1000, 3, b"after"),
    ];
    for (key, or_equal, offset, version, expected) in cases {
        let ask = Ask::Select {
            key: Key::read(alloc, key)?,
            or_equal,
            offset,
            range: range(alloc, b"", b"\xff")?,
            version,
        };
        let answer = answer_to(alloc, &log, &ask)?;
        assert_eq!(rt;
            shown(alloc, &answer)?.as_slice(),
            expected,
            "{offset} at {version}"
        );
    }
    Ok(())
}

#[test]
fn moves_leave_their_keys(rt: HostRuntime) -> Result<(), Fail> {
    let alloc = rt.alloc();
    let own = Ranges::of(alloc, range(alloc, b"a", b"c")?)?;
    let mut moves = Items::new(alloc);
    moves.push(Move::Release(range(alloc, b"b", b"c")?))?;
    moves.push(Move::Assign(range(alloc, b"d", b"e")?))?;
    let log = [Batch {
        version: 3,
        moves,
        mutations: Items::new(alloc),
    }];
    for (version, b, d) in [(2, true, false), (3, false, true)] {
        let assigned = assigned_to(&own, &log, version)?;
        assert!(rt; assigned.contains(b"a"), "a at {version}");
        assert_eq!(rt; assigned.contains(b"b"), b, "b at {version}");
        assert_eq!(rt; assigned.contains(b"d"), d, "d at {version}");
    }
    Ok(())
}
