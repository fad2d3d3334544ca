ghost use Rattle.std.specs.Prelude.{◌≡◌, IfOk};

use super::*;
use st_atomic::AtomicOp;
use st_key::{Key, Range, Value};
use st_list::Items;
use st_mutation::{Batch, Mutation};
use std::alloc::Global;
use std::test::Fail;

fn key(alloc: Global, byte: u8) -> Result<Key, Fail> {
    Ok(Key::end(alloc, &[byte])?)
}

fn value(alloc: Global, byte: u8) -> Result<Value, Fail> {
    Ok(Value::read(alloc, &[byte])?)
}

fn range(alloc: Global, begin: u8, end: u8) -> Result<Range, Fail> {
    Ok(Range::new(key(alloc, begin)?, key(alloc, end)?)?)
}

fn hold(held: &mut Held, alloc: Global, version: u64, mutation: Mutation) -> Result<(), Fail>
    ensures { held.new.piece ≡ held.old.piece }
{
    let mut mutations = Items::new(alloc);
    mutations.push(mutation)?;
    let moves = Items::new(alloc);
    held.hold(&Batch {
        version,
        moves,
        mutations,
    })?;
    Ok(())
}

fn hold_set(held: &mut Held, alloc: Global, version: u64, row: (u8, u8)) -> Result<(), Fail>
    ensures { held.new.piece ≡ held.old.piece }
{
    let key = key(alloc, row.0)?;
    hold(
        held,
        alloc,
        version,
        Mutation::Set(key, value(alloc, row.1)?),
    )
}

fn hold_add(held: &mut Held, alloc: Global, version: u64, row: (u8, u8)) -> Result<(), Fail>
    ensures { held.new.piece ≡ held.old.piece }
{
    let key = key(alloc, row.0)?;
    let operand = value(alloc, row.1)?;
    hold(
        held,
        alloc,
        version,
        Mutation::Atomic(AtomicOp::Add, key, operand),
    )
}

fn hold_clear(held: &mut Held, alloc: Global, version: u64, ends: (u8, u8)) -> Result<(), Fail>
    ensures { held.new.piece ≡ held.old.piece }
{
    hold(
        held,
        alloc,
        version,
        Mutation::Clear(range(alloc, ends.0, ends.1)?),
    )
}

// What batches 3 to 6 leave of a piece.
fn held(alloc: Global, piece: Range) -> Result<Held, Fail>
    ensures { IfOk result (λ held. held.piece ≡ piece) }
{
    let mut held = Held::new(alloc, piece, 2);
    hold_set(&mut held, alloc, 3, (0x62, 0x39))?;
    hold_add(&mut held, alloc, 4, (0x61, 1))?;
    hold_set(&mut held, alloc, 5, (0x60, 0x38))?;
    hold_clear(&mut held, alloc, 6, (0x60, 0x63))?;
    Ok(held)
}

// The updates, each by its version and its bytes.
fn told(alloc: Global, held: Held) -> Result<Vec<u8>, Fail> {
    let mut bytes = Vec::new(alloc);
    for (version, mutation) in &held.release() {
        bytes.push(version.to_be_bytes()[7])?;
        tell(&mut bytes, mutation)?;
    }
    Ok(bytes)
}

fn tell(bytes: &mut Vec<u8>, mutation: &Mutation) -> Result<(), Fail> {
    match mutation {
        Mutation::Set(key, value) | Mutation::Atomic(_, key, value) => {
            bytes.extend_from_slice(key.bytes())?;
            bytes.extend_from_slice(value.bytes())?;
        }
        Mutation::Clear(range) => {
            bytes.extend_from_slice(range.begin().bytes())?;
            bytes.extend_from_slice(range.end().bytes())?;
        }
    }
    Ok(())
}

#[test]
fn what_is_inside_the_piece_is_held_in_order(rt: HostRuntime) -> Result<(), Fail> {
    let held = held(rt.alloc(), range(rt.alloc(), 0x61, 0xff)?)?;
    let told = told(rt.alloc(), held)?;
    assert_eq!(rt;
        told.as_slice(),
        b"\x03\x62\x39\x04\x61\x01\x06\x61\x63".as_slice()
    );
    Ok(())
}

#[test]
fn dropping_to_the_version_before_undoes(rt: HostRuntime) -> Result<(), Fail> {
    let mut held = held(rt.alloc(), range(rt.alloc(), 0x61, 0xff)?)?;
    held.drop_to(4);
    let told = told(rt.alloc(), held)?;
    assert_eq!(rt; told.as_slice(), b"\x03\x62\x39\x04\x61\x01".as_slice());
    Ok(())
}

#[test]
fn a_cut_parts_what_is_held(rt: HostRuntime) -> Result<(), Fail> {
    let (begin, end) = (key(rt.alloc(), 0x61)?, key(rt.alloc(), 0xff)?);
    let middle = key(rt.alloc(), 0x62)?;
    assert!(rt; begin < middle);
    assert!(rt; middle < end);
    let mut left = held(rt.alloc(), Range::new(begin, end)?)?;
    let right = left.split(&middle)?;
    let (left, right) = (told(rt.alloc(), left)?, told(rt.alloc(), right)?);
    assert_eq!(rt; left.as_slice(), b"\x04\x61\x01\x06\x61\x62".as_slice());
    assert_eq!(rt; right.as_slice(), b"\x03\x62\x39\x06\x62\x63".as_slice());
    Ok(())
}

fn hand(blocks: &mut Blocks, alloc: Global, rows: &[(u8, u8)]) -> Result<(), Fail> {
    let upto = key(alloc, 0xff)?;
    let mut block = Block {
        rows: Items::new(alloc),
        upto,
    };
    for row in rows {
        block.rows.push((key(alloc, row.0)?, value(alloc, row.1)?))?;
    }
    blocks.hand(block)?;
    Ok(())
}

// The rows in a range, each by its bytes.
fn rows(alloc: Global, blocks: &Blocks, range: &Range) -> Result<Vec<u8>, Fail> {
    let mut bytes = Vec::new(alloc);
    for (key, value) in &blocks.rows_in(range)? {
        bytes.extend_from_slice(key.bytes())?;
        bytes.extend_from_slice(value.bytes())?;
    }
    Ok(bytes)
}

#[test]
fn rows_stand_in_the_order_of_their_keys(rt: HostRuntime) -> Result<(), Fail> {
    let mut blocks = Blocks::new(rt.alloc());
    hand(&mut blocks, rt.alloc(), &[(0x63, 0x33), (0x64, 0x34)])?;
    hand(
        &mut blocks,
        rt.alloc(),
        &[(0x61, 0x31), (0x62, 0x38), (0x62, 0x32)],
    )?;
    let rows = rows(rt.alloc(), &blocks, &range(rt.alloc(), 0x61, 0x64)?)?;
    assert_eq!(rt; rows.as_slice(), b"\x61\x31\x62\x32\x63\x33".as_slice());
    Ok(())
}

#[test]
fn rows_of_a_range_are_forgotten(rt: HostRuntime) -> Result<(), Fail> {
    let mut blocks = Blocks::new(rt.alloc());
    hand(
        &mut blocks,
        rt.alloc(),
        &[(0x61, 0x31), (0x62, 0x32), (0x63, 0x33)],
    )?;
    blocks.forget_in(&range(rt.alloc(), 0x62, 0x63)?);
    let rows = rows(rt.alloc(), &blocks, &range(rt.alloc(), 0x61, 0xff)?)?;
    assert_eq!(rt; rows.as_slice(), b"\x61\x31\x63\x33".as_slice());
    Ok(())
}
