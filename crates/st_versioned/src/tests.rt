ghost use Rattle.std.specs.Prelude.{◌≡◌, ◌<◌, None, Some, IfOk, IsSome};
ghost use Rattle.std.specs.Option.{option_map};

use super::*;
use bytes::Bytes;
use st_key::{Key, Range, Value};
use st_mutation::Mutation;
use st_ptree::{PTree, Steps};
use std::alloc::{AllocError, Global};
use std::marker::Brand;
use std::process::Abort;
use std::sync::ledger::{Blank, Ledger};
use std::test::Fail;

// A write of a version: of a key's value, or of a range's ends.
#[derive(Clone, Copy)]
enum Write {
    Set(&'static [u8], &'static [u8]),
    Clear(&'static [u8], &'static [u8]),
    Erase(&'static [u8], &'static [u8]),
}

type Pair = (&'static [u8], &'static [u8]);

fn range(alloc: Global, begin: &[u8], end: &[u8]) -> Result<Range, Fail> {
    Ok(Range::new(Key::read(alloc, begin)?, Key::read(alloc, end)?)?)
}

// One write of the version in the making.
#[tactic(auto, using(crate::proofs::Windows::version_stays))]
fn make(window: &mut Window, alloc: Global, write: &Write) -> Result<(), Fail>
    requires { IsSome window.old.making }
    ensures { IfOk result (λ done. (window.new.newest ≡ window.old.newest)
        × (option_map (λ kept. kept.version) window.new.making ≡ option_map (λ kept. kept.version) window.old.making)) }
{
    match write {
        Write::Set(key, value) => {
            window.set(&Key::read(alloc, key)?, &Value::read(alloc, value)?)?;
        }
        Write::Clear(begin, end) => window.clear(&range(alloc, begin, end)?)?,
        Write::Erase(begin, end) => window.erase(&range(alloc, begin, end)?)?,
    }
    Ok(())
}

// Begins a version and makes its writes.
fn begin(window: &mut Window, alloc: Global, version: u64, writes: &[Write]) -> Result<(), Fail>
    requires sealed { window.old.making ≡ None }
    requires above { window.old.newest < version }
    ensures { IfOk result (λ done. (window.new.newest ≡ window.old.newest) × (option_map (λ kept. kept.version) window.new.making ≡ Some version)) }
{
    window.begin(version)?;
    for write in writes {
        make(window, alloc, write)?;
    }
    Ok(())
}

// One more version of these writes.
fn add_version(
    window: &mut Window,
    alloc: Global,
    version: u64,
    writes: &[Write],
) -> Result<(), Fail>
    requires sealed { window.old.making ≡ None }
    requires above { window.old.newest < version }
    ensures { IfOk result (λ done. (window.new.newest ≡ version) × (window.new.making ≡ None)) }
{
    begin(window, alloc, version, writes)?;
    window.seal();
    Ok(())
}

// The window from version 0 on in which version 1 sets three keys, version 2 clears two of them, and version 3 sets one anew.
fn three_versions(alloc: Global) -> Result<Window, Fail>
    ensures { IfOk result (λ window. (window.newest ≡ 3) × (window.making ≡ None)) }
{
    let mut window = Window::new(alloc, 0, 7)?;
    let sets = [
        Write::Set(b"a", b"1"),
        Write::Set(b"b", b"2"),
        Write::Set(b"c", b"3"),
    ];
    add_version(&mut window, alloc, 1, &sets)?;
    add_version(&mut window, alloc, 2, &[Write::Clear(b"a", b"c")])?;
    add_version(&mut window, alloc, 3, &[Write::Set(b"b", b"9")])?;
    Ok(window)
}

fn base_of<L: Ledger>(
    alloc: Global,
    pairs: &[Pair],
    steps: &mut Steps<L>,
) -> Result<PTree<Bytes>, AllocError> {
    let mut base = PTree::new(alloc);
    for (key, value) in pairs {
        base.insert(Bytes::from_static(key), 0, Bytes::from_static(value), steps)?;
    }
    Ok(base)
}

fn is_value(found: Option<&[u8]>, value: &[u8]) -> bool {
    match found {
        Some(found) => found == value,
        None => false,
    }
}

fn is_pair(found: Option<(&[u8], &[u8])>, pair: &Pair) -> bool {
    match found {
        Some((key, value)) => key == pair.0 && value == pair.1,
        None => false,
    }
}

fn has(pairs: &[Pair], key: &[u8]) -> bool {
    pairs.iter().any(|pair| pair.0 == key)
}

// Whether a root is these pairs over a base: by the gets of a to d, and along its keys in both orders.
fn is_map<L: Ledger>(
    rt: &impl Abort,
    map: &Overlay<'_>,
    pairs: &[Pair],
    steps: &mut Steps<L>,
) -> Result<(), Fail> {
    for key in [b"a", b"b", b"c", b"d"] {
        assert_eq!(rt; map.get(key, steps).is_some(), has(pairs, key));
    }
    let mut next = map.next(b"", true, steps);
    for pair in pairs {
        assert!(rt; is_value(map.get(pair.0, steps), pair.1));
        assert!(rt; is_pair(next, pair) && is_pair(map.next(pair.0, true, steps), pair));
        next = map.next(pair.0, false, steps);
    }
    assert!(rt; next.is_none());
    let mut before = map.prev(b"\xff", steps);
    for pair in pairs.iter().rev() {
        assert!(rt; is_pair(before, pair));
        before = map.prev(pair.0, steps);
    }
    assert!(rt; before.is_none());
    Ok(())
}

#[test]
fn a_root_is_the_map_of_its_version(rt: HostRuntime) -> Result<(), Fail> {
    read_versions::<Brand>(&rt, rt.alloc(), Blank::new(1))
}

fn read_versions<L: Ledger>(rt: &impl Abort, alloc: Global, blank: Blank) -> Result<(), Fail>
    requires name { blank.name ≡ L.name }
    requires parts { blank.parts ≡ L.parts }
    requires some { 0 < blank.parts }
{
    let mut steps = Steps::<L>::new(blank);
    let base = PTree::new(alloc);
    let window = three_versions(alloc)?;
    let rows: [(u64, &'static [Pair]); 4] = [
        (0, &[]),
        (1, &[(b"a", b"1"), (b"b", b"2"), (b"c", b"3")]),
        (2, &[(b"c", b"3")]),
        (3, &[(b"b", b"9"), (b"c", b"3")]),
    ];
    for (version, pairs) in rows {
        match window.root_at(version)? {
            Some(root) => is_map(
                rt,
                &Overlay {
                    root: &root,
                    base: &base,
                },
                pairs,
                &mut steps,
            )?,
            None => assert!(rt; false),
        }
    }
    assert!(rt; window.root_at(4)?.is_none());
    Ok(())
}

#[test]
fn a_base_tells_what_a_root_does_not(rt: HostRuntime) -> Result<(), Fail> {
    read_over_base::<Brand>(&rt, rt.alloc(), Blank::new(1))
}

fn read_over_base<L: Ledger>(rt: &impl Abort, alloc: Global, blank: Blank) -> Result<(), Fail>
    requires name { blank.name ≡ L.name }
    requires parts { blank.parts ≡ L.parts }
    requires some { 0 < blank.parts }
{
    let mut steps = Steps::<L>::new(blank);
    let pairs: [Pair; 3] = [(b"a", b"1"), (b"b", b"2"), (b"d", b"4")];
    let base = base_of(alloc, &pairs, &mut steps)?;
    let rows: [(&'static [Write], &'static [Pair]); 6] = [
        (&[], &[(b"a", b"1"), (b"b", b"2"), (b"d", b"4")]),
        (&[Write::Clear(b"a", b"c")], &[(b"d", b"4")]),
        (
            &[Write::Clear(b"a", b"c"), Write::Set(b"b", b"9")],
            &[(b"b", b"9"), (b"d", b"4")],
        ),
        (
            &[Write::Set(b"b", b"9"), Write::Erase(b"b", b"c")],
            &[(b"a", b"1"), (b"b", b"2"), (b"d", b"4")],
        ),
        (
            &[Write::Clear(b"a", b"e"), Write::Erase(b"b", b"d")],
            &[(b"b", b"2")],
        ),
        (
            &[
                Write::Set(b"c", b""),
                Write::Set(b"d", b"5"),
                Write::Set(b"a", b"1"),
            ],
            &[(b"a", b"1"), (b"b", b"2"), (b"c", b""), (b"d", b"5")],
        ),
    ];
    for (writes, pairs) in rows {
        let mut window = Window::new(alloc, 1, 7)?;
        add_version(&mut window, alloc, 2, writes)?;
        match window.root_at(2)? {
            Some(root) => is_map(
                rt,
                &Overlay {
                    root: &root,
                    base: &base,
                },
                pairs,
                &mut steps,
            )?,
            None => assert!(rt; false),
        }
    }
    Ok(())
}

#[test]
fn a_forgotten_version_has_no_root(rt: HostRuntime) -> Result<(), Fail> {
    forget::<Brand>(&rt, rt.alloc(), Blank::new(1))
}

fn forget<L: Ledger>(rt: &impl Abort, alloc: Global, blank: Blank) -> Result<(), Fail>
    requires name { blank.name ≡ L.name }
    requires parts { blank.parts ≡ L.parts }
    requires some { 0 < blank.parts }
{
    let mut steps = Steps::<L>::new(blank);
    let mut window = three_versions(alloc)?;
    window.forget_before(2);
    assert!(rt; window.root_at(1)?.is_none());
    assert!(rt; window.root_at(2)?.is_some());
    // version 2 is in the base from here on
    let base = base_of(alloc, &[(b"c", b"3")], &mut steps)?;
    add_version(&mut window, alloc, 5, &[Write::Erase(b"a", b"d")])?;
    let rows: [(u64, &'static [Pair]); 4] = [
        (2, &[(b"c", b"3")]),
        (3, &[(b"b", b"9"), (b"c", b"3")]),
        (4, &[(b"b", b"9"), (b"c", b"3")]),
        (5, &[(b"c", b"3")]),
    ];
    for (version, pairs) in rows {
        match window.root_at(version)? {
            Some(root) => is_map(
                rt,
                &Overlay {
                    root: &root,
                    base: &base,
                },
                pairs,
                &mut steps,
            )?,
            None => assert!(rt; false),
        }
    }
    // the older one is none to forget again
    window.forget_before(1);
    assert!(rt; window.root_at(1)?.is_none());
    assert!(rt; window.root_at(6)?.is_none());
    Ok(())
}

#[test]
fn a_version_is_read_by_the_newest_root_below_it(rt: HostRuntime) -> Result<(), Fail> {
    let alloc = rt.alloc();
    let mut window = three_versions(alloc)?;
    add_version(&mut window, alloc, 7, &[])?;
    window.forget_before(2);
    let rows = [
        (1, None),
        (2, Some(2)),
        (3, Some(3)),
        (6, Some(3)),
        (7, Some(7)),
        (9, Some(7)),
    ];
    for (version, kept) in rows {
        assert_eq!(rt; window.kept_at(version), kept);
    }
    Ok(())
}

// Whether the mutations up to a version are of these versions.
fn are_made(
    rt: &impl Abort,
    alloc: Global,
    window: &Window,
    version: u64,
    versions: &[u64],
) -> Result<(), Fail> {
    let mutations = window.mutations_to(version)?;
    let made: Vec<u64> = mutations.iter().map(|made| made.0).collect(alloc)?;
    assert_eq!(rt; made.as_slice(), versions);
    Ok(())
}

#[test]
fn mutations_are_kept_above_the_forgotten_version(rt: HostRuntime) -> Result<(), Fail> {
    let alloc = rt.alloc();
    let mut window = three_versions(alloc)?;
    are_made(&rt, alloc, &window, 0, &[])?;
    are_made(&rt, alloc, &window, 1, &[1, 1, 1])?;
    are_made(&rt, alloc, &window, 2, &[1, 1, 1, 2])?;
    let mutations = window.mutations_to(9)?;
    let clear = (2, Mutation::Clear(range(alloc, b"a", b"c")?));
    let set = Mutation::Set(Key::read(alloc, b"b")?, Value::read(alloc, b"9")?);
    assert!(rt; mutations.get(3) == Some(&clear));
    assert!(rt; mutations.get(4) == Some(&(3, set)));
    // what is erased is no mutation
    add_version(&mut window, alloc, 4, &[Write::Erase(b"a", b"c")])?;
    window.forget_before(1);
    are_made(&rt, alloc, &window, 9, &[2, 3])?;
    window.forget_before(4);
    are_made(&rt, alloc, &window, 9, &[])
}

#[test]
fn a_version_that_is_given_up_leaves_nothing(rt: HostRuntime) -> Result<(), Fail> {
    let alloc = rt.alloc();
    let mut window = three_versions(alloc)?;
    begin(
        &mut window,
        alloc,
        4,
        &[Write::Set(b"b", b"8"), Write::Clear(b"a", b"d")],
    )?;
    are_made(&rt, alloc, &window, 9, &[1, 1, 1, 2, 3, 4, 4])?;
    window.abandon();
    assert!(rt; window.root_at(4)?.is_none());
    are_made(&rt, alloc, &window, 9, &[1, 1, 1, 2, 3])?;
    add_version(&mut window, alloc, 4, &[Write::Set(b"b", b"7")])?;
    let written = (
        4,
        Mutation::Set(Key::read(alloc, b"b")?, Value::read(alloc, b"7")?),
    );
    assert!(rt; window.mutations_to(4)?.last() == Some(&written));
    Ok(())
}
