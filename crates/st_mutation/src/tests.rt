use super::*;
use st_atomic::AtomicOp;
use st_key::{Key, Range, Value};
use st_list::Items;
use std::alloc::Global;
use std::test::Fail;

fn set(alloc: Global, key: &[u8]) -> Result<Mutation, Fail> {
    Ok(Mutation::Set(Key::read(alloc, key)?, Value::read(alloc, b"1")?))
}

fn add(alloc: Global, key: &[u8]) -> Result<Mutation, Fail> {
    Ok(Mutation::Atomic(
        AtomicOp::Add,
        Key::read(alloc, key)?,
        Value::read(alloc, b"\x01")?,
    ))
}

fn range(alloc: Global, begin: &[u8], end: &[u8]) -> Result<Range, Fail> {
    let begin = Key::end(alloc, begin)?;
    let end = Key::end(alloc, end)?;
    Ok(Range::new(begin, end)?)
}

fn clear(alloc: Global, begin: &[u8], end: &[u8]) -> Result<Mutation, Fail> {
    Ok(Mutation::Clear(range(alloc, begin, end)?))
}

// Whether the part of a mutation is all of it, nothing, or else None.
fn is_inside(whole: &Mutation, to: &Range) -> Result<Option<bool>, Fail> {
    match clip(whole, to)? {
        Some(part) if part == *whole => Ok(Some(true)),
        Some(_) => Ok(None),
        None => Ok(Some(false)),
    }
}

fn is_set_inside(alloc: Global, key: &[u8], to: &Range) -> Result<Option<bool>, Fail> {
    let whole = set(alloc, key)?;
    is_inside(&whole, to)
}

fn is_add_inside(alloc: Global, key: &[u8], to: &Range) -> Result<Option<bool>, Fail> {
    let whole = add(alloc, key)?;
    is_inside(&whole, to)
}

#[test]
fn a_set_is_inside_from_the_begin_on(rt: HostRuntime) -> Result<(), Fail> {
    let to = range(rt.alloc(), b"b", b"d")?;
    assert_eq!(rt; is_set_inside(rt.alloc(), b"az", &to)?, Some(false));
    assert_eq!(rt; is_set_inside(rt.alloc(), b"b", &to)?, Some(true));
    Ok(())
}

#[test]
fn an_addition_is_inside_up_to_the_end(rt: HostRuntime) -> Result<(), Fail> {
    let to = range(rt.alloc(), b"b", b"d")?;
    assert_eq!(rt; is_add_inside(rt.alloc(), b"cz", &to)?, Some(true));
    assert_eq!(rt; is_add_inside(rt.alloc(), b"d", &to)?, Some(false));
    Ok(())
}

// The keys that the part of a clear inside a range clears, from one up to another.
fn is_cut_to(whole: &Mutation, to: &Range, begin: &[u8], end: &[u8]) -> Result<bool, Fail> {
    match clip(whole, to)? {
        Some(Mutation::Clear(part)) => {
            Ok(part.begin().bytes() == begin && part.end().bytes() == end)
        }
        _ => Ok(false),
    }
}

#[test]
fn a_clear_is_cut(rt: HostRuntime) -> Result<(), Fail> {
    let to = range(rt.alloc(), b"b", b"d")?;
    let whole = clear(rt.alloc(), b"", b"c")?;
    assert!(rt; is_cut_to(&whole, &to, b"b", b"c")?);
    Ok(())
}

#[test]
fn a_clear_up_to_the_begin_is_outside(rt: HostRuntime) -> Result<(), Fail> {
    let to = range(rt.alloc(), b"b", b"d")?;
    let whole = clear(rt.alloc(), b"", b"b")?;
    assert_eq!(rt; is_inside(&whole, &to)?, Some(false));
    Ok(())
}

fn batch(alloc: Global) -> Result<Batch, Fail> {
    let mut moves = Items::new(alloc);
    moves.push(Move::Release(range(alloc, b"", b"a")?))?;
    moves.push(Move::Assign(range(alloc, b"a", b"b")?))?;
    let mut mutations = Items::new(alloc);
    mutations.push(set(alloc, b"a")?)?;
    mutations.push(clear(alloc, b"a", b"aa")?)?;
    mutations.push(add(alloc, b"ab")?)?;
    Ok(Batch {
        version: 7,
        moves,
        mutations,
    })
}

#[test]
fn a_copy_has_every_part(rt: HostRuntime) -> Result<(), Fail> {
    let batch = batch(rt.alloc())?;
    let copy = batch.copy(rt.alloc())?;
    assert_eq!(rt; copy.version, 7);
    assert_eq!(rt; copy.moves.as_slice(), batch.moves.as_slice());
    assert_eq!(rt; copy.mutations.as_slice(), batch.mutations.as_slice());
    assert_eq!(rt; copy.mutations.len(), 3);
    Ok(())
}
