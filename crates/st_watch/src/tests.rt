use super::*;
use st_key::{Key, Range, Value};
use std::alloc::Global;
use std::process::Abort;
use std::test::Fail;

type Bytes = &'static [u8];

// What is done to a set, or what it is to tell then.
#[derive(Clone, Copy)]
enum Act {
    // a number, a key, a value and the value that the key has at the version
    Watch(u64, Bytes, Option<Bytes>, Option<Bytes>, u64),
    Touch(Bytes, Option<Bytes>, u64),
    Lose(Bytes, Bytes, u64),
    State(u64, Option<WatchState>),
    Next(Bytes, Option<Bytes>),
    Release(u64, bool),
}

fn range(alloc: Global, begin: &[u8], end: &[u8]) -> Result<Range, Fail> {
    Ok(Range::new(Key::read(alloc, begin)?, Key::read(alloc, end)?)?)
}

// Registers a watch, unless one has the number.
fn watch(
    set: &mut WatchSet,
    id: u64,
    key: &Key,
    value: Option<&Value>,
    now: Option<&[u8]>,
    version: u64,
) -> Result<(), WatchRefusal> {
    match set.state(id) {
        Some(_) => Ok(()),
        None => set.register(id, key, value, now, version),
    }
}

fn value(alloc: Global, bytes: Option<&[u8]>) -> Result<Option<Value>, Fail> {
    match bytes {
        Some(bytes) => Ok(Some(Value::read(alloc, bytes)?)),
        None => Ok(None),
    }
}

fn next_bytes<'a>(set: &'a WatchSet, key: &[u8]) -> Option<&'a [u8]> {
    match set.next_key(key) {
        Some(key) => Some(key.bytes()),
        None => None,
    }
}

fn play_one(rt: &impl Abort, alloc: Global, set: &mut WatchSet, act: Act) -> Result<(), Fail> {
    match act {
        Act::Watch(id, key, given, now, version) => {
            let given = value(alloc, given)?;
            watch(
                set,
                id,
                &Key::read(alloc, key)?,
                given.as_ref(),
                now,
                version,
            )?;
        }
        Act::Touch(key, now, version) => set.touched(key, now, version),
        Act::Lose(begin, end, version) => set.lost(&range(alloc, begin, end)?, version),
        Act::State(id, want) => assert_eq!(rt; set.state(id), want, "{id}"),
        Act::Next(key, want) => assert_eq!(rt; next_bytes(set, key), want),
        Act::Release(id, want) => assert_eq!(rt; set.release(id), want, "{id}"),
    }
    Ok(())
}

fn play(rt: &impl Abort, alloc: Global, acts: &[Act]) -> Result<(), Fail> {
    let mut set = WatchSet::new(alloc, 10);
    for act in acts {
        play_one(rt, alloc, &mut set, *act)?;
    }
    Ok(())
}

const WAITING: Option<WatchState> = Some(WatchState::Waiting);

#[test]
fn a_watch_fires_at_the_first_other_value(rt: HostRuntime) -> Result<(), Fail> {
    let fired = Some(WatchState::Fired { version: 2 });
    let acts = [
        Act::Watch(1, b"a", Some(b"A"), Some(b"A"), 1),
        Act::State(1, WAITING),
        Act::Touch(b"a", Some(b"B"), 2),
        Act::State(1, fired),
        Act::Touch(b"a", Some(b"A"), 3),
        Act::Lose(b"a", b"b", 4),
        Act::State(1, fired),
        Act::Release(1, true),
        Act::State(1, None),
        Act::Release(1, false),
    ];
    play(&rt, rt.alloc(), &acts)
}

#[test]
fn a_watch_is_lost_with_its_key(rt: HostRuntime) -> Result<(), Fail> {
    let lost = Some(WatchState::Lost { version: 2 });
    let acts = [
        Act::Watch(1, b"a", None, None, 1),
        Act::Watch(2, b"c", None, None, 1),
        Act::Watch(3, b"b", None, None, 1),
        Act::Watch(4, b"d", None, None, 1),
        Act::Lose(b"b", b"d", 2),
        Act::Touch(b"c", Some(b"C"), 3),
        Act::Touch(b"d", Some(b"D"), 3),
        Act::State(1, WAITING),
        Act::State(2, lost),
        Act::State(3, lost),
        Act::State(4, Some(WatchState::Fired { version: 3 })),
    ];
    play(&rt, rt.alloc(), &acts)
}

#[test]
fn watches_of_one_key_have_values_of_their_own(rt: HostRuntime) -> Result<(), Fail> {
    let acts = [
        Act::Watch(1, b"k", None, None, 5),
        Act::Watch(2, b"k", Some(b"v"), Some(b"v"), 5),
        Act::Watch(3, b"k", Some(b"v"), None, 5),
        Act::Watch(4, b"l", Some(b"v"), Some(b"v"), 5),
        Act::Next(b"k", Some(b"k")),
        Act::Touch(b"k", None, 6),
        Act::State(1, WAITING),
        Act::State(2, Some(WatchState::Fired { version: 6 })),
        Act::State(3, Some(WatchState::Fired { version: 5 })),
        Act::State(4, WAITING),
        Act::Release(1, true),
        Act::Next(b"k", Some(b"l")),
        Act::Next(b"m", None),
    ];
    play(&rt, rt.alloc(), &acts)
}

#[test]
fn as_many_watches_stand_as_may(rt: HostRuntime) -> Result<(), Fail> {
    let mut set = WatchSet::new(rt.alloc(), 10_000);
    let key = Key::read(rt.alloc(), b"k")?;
    for id in 0..10_000 {
        watch(&mut set, id, &key, None, None, 1)?;
    }
    let refused = watch(&mut set, 10_000, &key, None, None, 1);
    assert_eq!(rt; refused, Err(WatchRefusal::TooMany { limit: 10_000 }));
    Ok(())
}
