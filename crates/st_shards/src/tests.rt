use super::*;
use st_key::{Key, Range, Ranges};
use std::alloc::Global;
use std::test::Fail;

fn range(alloc: Global, begin: &[u8], end: &[u8]) -> Result<Range, Fail> {
    Ok(Range::new(Key::end(alloc, begin)?, Key::end(alloc, end)?)?)
}

fn set_of(alloc: Global, begin: &[u8], end: &[u8]) -> Result<Ranges, Fail> {
    Ok(Ranges::of(alloc, range(alloc, begin, end)?)?)
}

// How far a fetched piece is fetched, taken and in the base; of another piece the letter of its phase.
fn show_phase(out: &mut Vec<u8>, phase: &Phase) -> Result<(), Fail> {
    match phase {
        Phase::Absent { .. } => out.push(b'A')?,
        Phase::WaitPrevious { .. } => out.push(b'W')?,
        Phase::Waiting { .. } => out.push(b'T')?,
        Phase::Readable => out.push(b'R')?,
        Phase::Fetching {
            upto,
            taken,
            in_base,
            ..
        } => {
            out.push(b'F')?;
            out.extend_from_slice(upto.bytes())?;
            out.extend_from_slice(taken.bytes())?;
            out.extend_from_slice(in_base.bytes())?;
        }
    }
    Ok(())
}

// The begin and the phase of each piece, one after another.
fn shown(alloc: Global, shards: &ShardMap) -> Result<Vec<u8>, Fail> {
    let mut out = Vec::new(alloc);
    for piece in shards.pieces() {
        out.extend_from_slice(piece.begin.bytes())?;
        show_phase(&mut out, &piece.phase)?;
    }
    Ok(out)
}

fn advance(alloc: Global, shards: &mut ShardMap, upto: &[u8]) -> Result<(), Fail> {
    Ok(shards.advance(&Key::end(alloc, b"b")?, &Key::end(alloc, upto)?)?)
}

// The keys from b up to h, fetched as far as the keys tell.
fn fetched(alloc: Global, in_base: &[u8], taken: &[u8], upto: &[u8]) -> Result<ShardMap, Fail> {
    let mut shards = ShardMap::new(alloc, &set_of(alloc, b"b", b"h")?, &Ranges::new(alloc), 0)?;
    shards.start(&Key::end(alloc, b"b")?, 1, 0)?;
    advance(alloc, &mut shards, in_base)?;
    shards.take()?;
    shards.settle(1);
    advance(alloc, &mut shards, taken)?;
    shards.take()?;
    advance(alloc, &mut shards, upto)?;
    Ok(shards)
}

#[test]
fn a_release_cuts_what_is_fetched(rt: HostRuntime) -> Result<(), Fail> {
    for (in_base, taken, upto, want) in [
        (b"c", b"d", b"e", b"AbFddcdAfFfffhA"),
        (b"d", b"e", b"f", b"AbFddddAfFfffhA"),
        (b"e", b"f", b"g", b"AbFddddAfFgffhA"),
        (b"f", b"g", b"h", b"AbFddddAfFhgfhA"),
        (b"c", b"e", b"g", b"AbFddcdAfFgffhA"),
    ] {
        let mut shards = fetched(rt.alloc(), in_base, taken, upto)?;
        shards.release(&range(rt.alloc(), b"d", b"f")?, 2)?;
        assert_eq!(rt; shown(rt.alloc(), &shards)?.as_slice(), want.as_slice());
    }
    Ok(())
}

// Readable from b, waiting from d, and absent from f on.
fn opened(alloc: Global) -> Result<ShardMap, Fail> {
    let (assigned, available) = (set_of(alloc, b"b", b"f")?, set_of(alloc, b"b", b"d")?);
    Ok(ShardMap::new(alloc, &assigned, &available, 3)?)
}

#[test]
fn an_assign_is_about_absent_keys(rt: HostRuntime) -> Result<(), Fail> {
    let cases: [(&[u8], &[u8], &[u8]); 5] = [
        (b"a", b"g", b"AaWbRdWfWgA"),
        (b"c", b"e", b"AbRdWfA"),
        (b"f", b"\xff", b"AbRdWfW"),
        (b"", b"b", b"WbRdWfA"),
        (b"", b"\xff", b"WbRdWfW"),
    ];
    for (begin, end, want) in cases {
        let mut shards = opened(rt.alloc())?;
        shards.assign(&range(rt.alloc(), begin, end)?)?;
        assert_eq!(rt; shown(rt.alloc(), &shards)?.as_slice(), want);
    }
    Ok(())
}

#[test]
fn a_release_is_about_keys_that_are_assigned(rt: HostRuntime) -> Result<(), Fail> {
    let cases: [(&[u8], &[u8], &[u8]); 4] = [
        (b"c", b"e", b"AbRcAdAeWfA"),
        (b"d", b"f", b"AbRdAfA"),
        (b"", b"b", b"AbRdWfA"),
        (b"", b"\xff", b"AbAdAfA"),
    ];
    for (begin, end, want) in cases {
        let mut shards = opened(rt.alloc())?;
        shards.release(&range(rt.alloc(), begin, end)?, 4)?;
        assert_eq!(rt; shown(rt.alloc(), &shards)?.as_slice(), want);
    }
    Ok(())
}

// One step: `i` sends whole pieces to the versioned map, `t` takes the rows that came, `s` makes a commit durable.
fn step(shards: &mut ShardMap, letter: u8, version: u64) -> Result<(), Fail> {
    match letter {
        b'i' => shards.inject(version),
        b't' => shards.take()?,
        _ => shards.settle(version),
    }
    Ok(())
}

#[test]
fn a_piece_becomes_readable(rt: HostRuntime) -> Result<(), Fail> {
    let steps: [(u8, u64, &[u8]); 6] = [
        (b'i', 5, b"AbFhdchA"),
        (b't', 0, b"AbFhhchA"),
        (b's', 4, b"AbFhhhhA"),
        (b'i', 6, b"AbThA"),
        (b's', 5, b"AbThA"),
        (b's', 6, b"AbRhA"),
    ];
    let mut shards = fetched(rt.alloc(), b"c", b"d", b"h")?;
    for (letter, version, want) in steps {
        step(&mut shards, letter, version)?;
        assert_eq!(rt; shown(rt.alloc(), &shards)?.as_slice(), want);
    }
    Ok(())
}

// `.` where the call was due, or else the letter of the phase that is told.
fn told(alloc: Global, answer: Result<(), ShardRefusal>) -> Result<u8, Fail> {
    match answer {
        Ok(()) => Ok(b'.'),
        Err(ShardRefusal::NoMemory) => Ok(b'm'),
        Err(ShardRefusal::NotDue { phase }) => {
            let mut shown = Vec::new(alloc);
            show_phase(&mut shown, &phase)?;
            Ok(shown.first().map_or(b'?', |letter| *letter))
        }
    }
}

#[test]
fn a_fetch_waits_for_the_drop(rt: HostRuntime) -> Result<(), Fail> {
    let cases: [(&[u8], u64, u8); 5] = [
        (b"d", 2, b'W'),
        (b"d", 3, b'.'),
        (b"e", 3, b'W'),
        (b"c", 3, b'R'),
        (b"", 3, b'A'),
    ];
    for (begin, durable, want) in cases {
        let mut shards = opened(rt.alloc())?;
        let begin = Key::end(rt.alloc(), begin)?;
        let answer = shards.start(&begin, 5, durable);
        assert_eq!(rt; told(rt.alloc(), answer)?, want);
    }
    Ok(())
}

#[test]
fn a_block_is_progress(rt: HostRuntime) -> Result<(), Fail> {
    let cases: [(&[u8], u8); 5] = [
        (b"d", b'F'),
        (b"e", b'F'),
        (b"f", b'.'),
        (b"h", b'.'),
        (b"ha", b'F'),
    ];
    for (upto, want) in cases {
        let mut shards = fetched(rt.alloc(), b"c", b"d", b"e")?;
        let begin = Key::end(rt.alloc(), b"b")?;
        let upto = Key::end(rt.alloc(), upto)?;
        let answer = shards.advance(&begin, &upto);
        assert_eq!(rt; told(rt.alloc(), answer)?, want);
    }
    Ok(())
}

#[test]
fn what_is_not_fetched_waits_anew(rt: HostRuntime) -> Result<(), Fail> {
    let cases: [(&[u8], u8, &[u8]); 2] = [(b"e", b'.', b"AbFedceWhA"), (b"h", b'F', b"AbFhdchA")];
    for (upto, want, left) in cases {
        let mut shards = fetched(rt.alloc(), b"c", b"d", upto)?;
        let begin = Key::end(rt.alloc(), b"b")?;
        let answer = shards.split(&begin, 3);
        assert_eq!(rt; told(rt.alloc(), answer)?, want);
        assert_eq!(rt; shown(rt.alloc(), &shards)?.as_slice(), left);
    }
    Ok(())
}

#[test]
fn the_least_key_that_is_not_served_is_told(rt: HostRuntime) -> Result<(), Fail> {
    let cases: [(&[u8], &[u8], &[u8]); 5] = [
        (b"a", b"c", b"a"),
        (b"b", b"e", b"d"),
        (b"e", b"g", b"e"),
        (b"\xff", b"\xff\xff", b"\xff"),
        (b"b", b"d", b"none"),
    ];
    let shards = opened(rt.alloc())?;
    for (begin, end, want) in cases {
        let asked = range(rt.alloc(), begin, end)?;
        let least = match shards.readable(&asked) {
            Ok(()) => b"none",
            Err(key) => key.bytes(),
        };
        assert_eq!(rt; least, want);
    }
    Ok(())
}
