ghost use Rattle.std.specs.Prelude.{◌≡◌, ◌<◌};

use super::*;
use st_board::Opening;
use st_disk::{Disk, Memory};
use st_engine::{Engine, EngineMount};
use st_fold::{ForeignPart, Settings};
use st_key::{Key, MetaPart, Range, Ranges, Value};
use st_list::Items;
use st_meta::MetaRefusal;
use st_mutation::{Batch, Move, Mutation};
use st_ptree::Steps;
use std::alloc::Global;
use std::marker::Brand;
use std::process::Abort;
use std::sync::ledger::{Blank, Ledger};
use std::test::Fail;

// The one file of a store in which a commit at version 1 set a to 1, of a server that owns all keys: a header, and a frame of four
// sets and the snapshot with the same pairs.
const COMMITTED: &[u8] = b"\
    \x01STORQUE\x01\0\0\0\x01\0\0\0\0\0\0\0\0\0\0\0\0\0\0\0\
    \x01\xd4\0\0\0\0\0\0\0\0\0\0\0\
    \x01\x01\0\0\0\x01\0\0\0a1\
    \x01\x0b\0\0\0\x0d\0\0\0\xff\xff/assigned\x01\0\0\0\0\0\0\0\x01\0\0\0\xff\
    \x01\x0c\0\0\0\x0d\0\0\0\xff\xff/available\x01\0\0\0\0\0\0\0\x01\0\0\0\xff\
    \x01\x0a\0\0\0\x08\0\0\0\xff\xff/version\x01\0\0\0\0\0\0\0\
    \x03\x01\0\0\0\x01\0\0\0a1\
    \x03\x0b\0\0\0\x0d\0\0\0\xff\xff/assigned\x01\0\0\0\0\0\0\0\x01\0\0\0\xff\
    \x03\x0c\0\0\0\x0d\0\0\0\xff\xff/available\x01\0\0\0\0\0\0\0\x01\0\0\0\xff\
    \x03\x0a\0\0\0\x08\0\0\0\xff\xff/version\x01\0\0\0\0\0\0\0\
    \x04\x05\0";

// A file with a frame that stores nothing.
const EMPTY_COMMIT: &[u8] =
    b"\x01STORQUE\x01\0\0\0\x01\0\0\0\0\0\0\0\0\0\0\0\0\0\0\0\x01\x01\0\0\0\0\0\0\0\0\0\0\0\x05\0";

const SETTINGS: Settings = Settings {
    window: 1,
    patience: 3,
    seed: 1,
    swap: 64,
    limit: 1024,
    quota: 1,
    block: 1,
    watches: 1,
};

fn mount(alloc: Global, file: &[u8]) -> Result<Engine<Memory>, Fail> {
    let disk = Memory::with(alloc, Vec::from_slice(alloc, file)?, Vec::new(alloc));
    match Engine::mount(alloc, disk, &SETTINGS) {
        Ok(engine) => Ok(engine),
        Err(EngineMount { disk: _, why: _ }) => Err("the files don't mount")?,
    }
}

fn all_keys(alloc: Global) -> Result<Ranges, Fail> {
    let range = Range::new(Key::end(alloc, b"")?, Key::end(alloc, b"\xff")?)?;
    Ok(Ranges::of(alloc, range)?)
}

// A batch that sets a.
fn batch(alloc: Global, version: u64, value: &[u8]) -> Result<Batch, Fail> {
    let mut mutations = Items::new(alloc);
    mutations.push(Mutation::Set(Key::read(alloc, b"a")?, Value::read(alloc, value)?))?;
    Ok(Batch {
        version,
        moves: Items::new(alloc),
        mutations,
    })
}

// The store of the commit.
fn committed(alloc: Global) -> Result<Engine<Memory>, Fail> {
    mount(alloc, COMMITTED)
}

fn opened(alloc: Global, engine: &Engine<Memory>, own: &Ranges) -> Result<Opening, Fail> {
    match reopen(alloc, engine, own) {
        Ok(opening) => Ok(opening),
        Err(_) => Err("a store is refused")?,
    }
}

fn value_in<L: Ledger>(opening: &Opening, key: &[u8], blank: Blank) -> Option<u8>
    requires name { blank.name ≡ L.name }
    requires parts { blank.parts ≡ L.parts }
    requires some { 0 < blank.parts }
{
    let mut steps = Steps::<L>::new(blank);
    opening
        .base
        .get(key, &mut steps)?
        .as_slice()
        .first()
        .copied()
}

fn value(opening: &Opening, key: &[u8]) -> Option<u8> {
    value_in::<Brand>(opening, key, Blank::new(1))
}

#[test]
fn a_fresh_store_opens_with_what_is_owned(rt: HostRuntime) -> Result<(), Fail> {
    let alloc = rt.alloc();
    let fresh = opened(alloc, &mount(alloc, b"")?, &all_keys(alloc)?)?;
    assert_eq!(rt; fresh.version, 0);
    assert!(rt; fresh.base.is_empty());
    assert!(rt; fresh.available.contains(b"a"));
    Ok(())
}

#[test]
fn a_store_opens_as_its_files_say(rt: HostRuntime) -> Result<(), Fail> {
    let alloc = rt.alloc();
    let opening = opened(alloc, &committed(alloc)?, &Ranges::new(alloc))?;
    assert_eq!(rt; opening.version, 1);
    assert!(rt; opening.available.contains(b"a"));
    assert!(rt; opening.clears.is_empty());
    assert_eq!(rt; value(&opening, b"a"), Some(b'1'));
    assert_eq!(rt; value(&opening, b"\xff\xff/version"), None);
    Ok(())
}

#[test]
fn a_store_without_a_state_is_refused(rt: HostRuntime) -> Result<(), Fail> {
    let alloc = rt.alloc();
    match reopen(alloc, &mount(alloc, EMPTY_COMMIT)?, &all_keys(alloc)?) {
        Err(MetaRefusal::BadMeta { which }) => assert!(rt; which == MetaPart::Version),
        _ => Err("a store without a state opens")?,
    }
    Ok(())
}

// What of a store isn't that of a log.
fn foreign_part(
    alloc: Global,
    engine: &Engine<Memory>,
    own: &Ranges,
    log: &[Batch],
) -> Result<Option<ForeignPart>, Fail> {
    let opening = opened(alloc, engine, own)?;
    match agree(alloc, engine, &opening, own, log) {
        Ok(()) => Ok(None),
        Err(AgreeRefusal::Foreign(part)) => Ok(Some(part)),
        Err(AgreeRefusal::NoMemory) => Err("no memory")?,
    }
}

#[test]
fn a_store_is_that_of_its_log(rt: HostRuntime) -> Result<(), Fail> {
    let alloc = rt.alloc();
    let own = all_keys(alloc)?;
    let log = [batch(alloc, 1, b"1")?, batch(alloc, 2, b"2")?];
    assert!(rt; foreign_part(alloc, &committed(alloc)?, &own, &log)?.is_none());
    // a fresh store is that of each log
    assert!(rt; foreign_part(alloc, &mount(alloc, b"")?, &own, &log)?.is_none());
    Ok(())
}

#[test]
fn a_store_of_another_log_is_refused(rt: HostRuntime) -> Result<(), Fail> {
    let alloc = rt.alloc();
    let engine = committed(alloc)?;
    let own = all_keys(alloc)?;
    match foreign_part(alloc, &engine, &own, &[batch(alloc, 1, b"2")?])? {
        Some(ForeignPart::Key(key)) => assert!(rt; key.as_slice() == b"a".as_slice()),
        _ => Err("another value is taken for the log's")?,
    }
    assert!(rt;
        matches!(
            foreign_part(alloc, &engine, &own, &[batch(alloc, 2, b"1")?])?,
            Some(ForeignPart::Version)
        )
    );
    assert!(rt;
        matches!(
            foreign_part(
                alloc,
                &engine,
                &Ranges::new(alloc),
                &[batch(alloc, 1, b"1")?]
            )?,
            Some(ForeignPart::Assigned)
        )
    );
    Ok(())
}

#[test]
fn what_a_move_gave_is_assigned(rt: HostRuntime) -> Result<(), Fail> {
    let alloc = rt.alloc();
    let mut moves = Items::new(alloc);
    moves.push(Move::Assign(Range::new(Key::end(alloc, b"")?, Key::end(alloc, b"\xff")?)?))?;
    let mut given = batch(alloc, 1, b"1")?;
    given.moves = moves;
    assert!(rt; foreign_part(alloc, &committed(alloc)?, &Ranges::new(alloc), &[given])?.is_none());
    Ok(())
}
