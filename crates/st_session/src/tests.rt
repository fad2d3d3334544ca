ghost use Rattle.std.specs.Prelude.{◌≡◌, ◌<◌, ◌∷◌, [], IfOk, OnOk};
ghost use Rattle.st_key.specs.Spans.{all_keys};
ghost use Rattle.st_model.specs.State.{first_state};
ghost use Rattle.st_ptree.specs.Entries.{pairs_of};
ghost use Rattle.st_session.specs.Logs.{AreShort};
ghost use Rattle.st_session.specs.Rows.{IsRow, row_given, row_opening, row_pairs, row_store};

use super::*;
use bytes::Bytes;
use st_board::{Board, Opening, Story};
use st_fold::{Answer, Ask, Found, Request, Settings};
use st_key::{Key, Range, Ranges, Value, key_after};
use st_list::Items;
use st_mutation::{Batch, Mutation};
use st_ptree::{PTree, Steps};
use std::alloc::Global;
use std::marker::Brand;
use std::process::Abort;
use std::sync::ledger::{Blank, Ledger};
use std::test::Fail;

const SETTINGS: Settings = Settings {
    window: 1,
    patience: 2,
    seed: 1,
    swap: 64,
    limit: 1024,
    quota: 1,
    block: 1,
    watches: 1,
};

fn range(alloc: Global, begin: &[u8], end: &[u8]) -> Result<Range, Fail> {
    Ok(Range::new(Key::end(alloc, begin)?, Key::end(alloc, end)?)?)
}

// All keys of users.
fn users(alloc: Global) -> Result<Ranges, Fail>
    ensures { IfOk result (λ ranges. ranges ≡ all_keys ∷ []) }
{
    let range = Range::new(Key::end(alloc, b"")?, Key::end(alloc, b"\xff")?)?;
    Ok(Ranges::of(alloc, range)?)
}

// A batch of version 1 that sets a, b and c, and one of version 2 that clears b and sets d.
fn batches(alloc: Global) -> Result<(Batch, Batch), Fail>
    ensures { IfOk result (λ batches. IsRow batches.0 batches.1) }
{
    let mut mutations = Items::new(alloc);
    mutations.push(Mutation::Set(Key::read(alloc, b"a")?, Value::read(alloc, b"1")?))?;
    mutations.push(Mutation::Set(Key::read(alloc, b"b")?, Value::read(alloc, b"2")?))?;
    mutations.push(Mutation::Set(Key::read(alloc, b"c")?, Value::read(alloc, b"3")?))?;
    let first = Batch {
        version: 1,
        moves: Items::new(alloc),
        mutations,
    };
    let cleared = Range::new(Key::end(alloc, b"b")?, Key::end(alloc, b"c")?)?;
    let mut mutations = Items::new(alloc);
    mutations.push(Mutation::Clear(cleared))?;
    mutations.push(Mutation::Set(Key::read(alloc, b"d")?, Value::read(alloc, b"4")?))?;
    let second = Batch {
        version: 2,
        moves: Items::new(alloc),
        mutations,
    };
    Ok((first, second))
}

// The pairs behind the first batch.
fn base_of<L: Ledger>(alloc: Global, blank: Blank) -> Result<PTree<Bytes>, Fail>
    requires name { blank.name ≡ L.name }
    requires parts { blank.parts ≡ L.parts }
    requires some { 0 < blank.parts }
    ensures { IfOk result (λ base. pairs_of base ≡ row_pairs) }
{
    let mut steps = Steps::<L>::new(blank);
    let mut base = PTree::new(alloc);
    base.insert(
        Bytes::from_static(b"a"),
        2,
        Bytes::from_static(b"1"),
        &mut steps,
    )?;
    base.insert(
        Bytes::from_static(b"b"),
        1,
        Bytes::from_static(b"2"),
        &mut steps,
    )?;
    base.insert(
        Bytes::from_static(b"c"),
        3,
        Bytes::from_static(b"3"),
        &mut steps,
    )?;
    Ok(base)
}

fn begin<N: Story>(
    alloc: Global,
    first: &Batch,
    second: &Batch,
    base: PTree<Bytes>,
) -> Result<Board<N>, Fail>
    requires row { IsRow first.now second.now }
    requires given { N.given ≡ row_given first.now second.now }
    requires opening { N.opening ≡ row_opening }
    requires store { N.store ≡ row_store }
    requires base { pairs_of base ≡ row_pairs }
    ensures state { IfOk result (λ board. board.state ≡ first_state N.given N.opening) }
{
    let opening = Opening {
        version: 1,
        assigned: users(alloc)?,
        available: users(alloc)?,
        base,
        clears: Vec::new(alloc),
    };
    Ok(Board::begin(alloc, opening, &SETTINGS)?)
}

// A session of a request for users' keys.
fn session(alloc: Global, ask: Ask) -> Result<Session, Fail> {
    let ff = Key::end(alloc, b"\xff")?;
    match &ask {
        Ask::Get(key, _) => {
            if key.bytes().len() > 10_000 || key_after(alloc, key)? > ff {
                return Err("no key of users")?;
            }
        }
        Ask::Rows { range, .. } | Ask::Select { range, .. } => {
            if *range.end() > ff {
                return Err("no keys of users")?;
            }
        }
        Ask::Watch(_, _) => return Err("no version")?,
    }
    let request = Request {
        number: 7,
        reader: 1,
        ask,
    };
    Ok(Session::new(alloc, request, 2)?)
}

// The bytes of an answer: of a value, of the key that is found, or of all rows, and `+` where there are more.
fn shown(alloc: Global, answer: &Answer) -> Result<Vec<u8>, Fail> {
    let mut bytes = Vec::new(alloc);
    match answer {
        Answer::Value(value) => bytes.extend_from_slice(value.bytes())?,
        Answer::Rows { rows, more } => {
            for (key, value) in rows.as_slice() {
                bytes.extend_from_slice(key.bytes())?;
                bytes.extend_from_slice(value.bytes())?;
            }
            bytes.extend_from_slice(if *more { b"+" } else { b"" })?;
        }
        Answer::KeyIs(Found::Key(key)) => bytes.extend_from_slice(key.bytes())?,
        Answer::KeyIs(Found::Before) => bytes.extend_from_slice(b"before")?,
        Answer::KeyIs(Found::After) => bytes.extend_from_slice(b"after")?,
        Answer::Absent => bytes.extend_from_slice(b"none")?,
        Answer::TooOld { oldest: 1 } => bytes.extend_from_slice(b"too old")?,
        Answer::FutureVersion {
            newest: 2,
            polls: 2,
        } => bytes.extend_from_slice(b"future")?,
        _ => bytes.extend_from_slice(b"other")?,
    }
    Ok(bytes)
}

// What one poll of a request gives.
fn polled<N: Story>(
    rt: &impl Abort,
    alloc: Global,
    board: &mut Board<N>,
    ask: Ask,
    want: &[u8],
) -> Result<(), Fail>
    requires { AreShort N.given.log }
{
    let mut session = session(alloc, ask)?;
    match session.poll_board(board)? {
        Poll::Done(answer) => assert_eq!(rt; shown(alloc, &answer)?.as_slice(), want),
        Poll::Pending { newest: _ } => assert_eq!(rt; b"pending".as_slice(), want),
    }
    assert_eq!(rt; session.places(), [2].as_slice());
    Ok(())
}

fn check_gets<N: Story>(rt: &impl Abort, alloc: Global, board: &mut Board<N>) -> Result<(), Fail>
    requires { AreShort N.given.log }
{
    let cases: [(&[u8], u64, &[u8]); 7] = [
        (b"a", 2, b"1"),
        (b"b", 2, b"none"),
        (b"b", 1, b"2"),
        (b"d", 2, b"4"),
        (b"d", 1, b"none"),
        (b"a", 0, b"too old"),
        (b"a", 3, b"pending"),
    ];
    for (key, version, want) in cases {
        polled(
            rt,
            alloc,
            board,
            Ask::Get(Key::read(alloc, key)?, version),
            want,
        )?;
    }
    Ok(())
}

fn check_rows<N: Story>(rt: &impl Abort, alloc: Global, board: &mut Board<N>) -> Result<(), Fail>
    requires { AreShort N.given.log }
{
    let cases: [(&[u8], &[u8], u32, u32, bool, &[u8]); 8] = [
        (b"", b"\xff", 3, 1000, false, b"a1c3d4"),
        (b"", b"\xff", 2, 1000, false, b"a1c3+"),
        (b"", b"\xff", 0, 1000, false, b"+"),
        (b"", b"\xff", 9, 2, false, b"a1+"),
        (b"", b"\xff", 9, 3, false, b"a1c3+"),
        (b"", b"\xff", 2, 1000, true, b"d4c3+"),
        (b"b", b"d", 9, 1000, true, b"c3"),
        (b"b", b"c", 0, 0, false, b""),
    ];
    for (begin, end, rows, bytes, reverse, want) in cases {
        let ask = Ask::Rows {
            range: range(alloc, begin, end)?,
            rows,
            bytes,
            reverse,
            version: 2,
        };
        polled(rt, alloc, board, ask, want)?;
    }
    Ok(())
}

fn check_selectors<N: Story>(
    rt: &impl Abort,
    alloc: Global,
    board: &mut Board<N>,
) -> Result<(), Fail>
    requires { AreShort N.given.log }
{
    let cases: [(&[u8], bool, i32, &[u8], &[u8]); 9] = [
        (b"b", false, 1, b"\xff", b"c"),
        (b"c", false, 1, b"\xff", b"c"),
        (b"c", true, 1, b"\xff", b"d"),
        (b"a", true, 2, b"\xff", b"d"),
        (b"a", true, 2, b"d", b"after"),
        (b"a", false, 0, b"\xff", b"before"),
        (b"c", true, 0, b"\xff", b"c"),
        (b"d", false, -1, b"\xff", b"a"),
        (b"d", false, i32::MIN, b"\xff", b"before"),
    ];
    for (key, or_equal, offset, end, want) in cases {
        let ask = Ask::Select {
            key: Key::read(alloc, key)?,
            or_equal,
            offset,
            range: range(alloc, b"", end)?,
            version: 2,
        };
        polled(rt, alloc, board, ask, want)?;
    }
    Ok(())
}

// A version that doesn't come is waited for until the second poll.
fn check_patience<N: Story>(
    rt: &impl Abort,
    alloc: Global,
    board: &mut Board<N>,
) -> Result<(), Fail>
    requires { AreShort N.given.log }
{
    let mut session = session(alloc, Ask::Get(Key::read(alloc, b"a")?, 3))?;
    assert!(rt; matches!(session.poll_board(board)?, Poll::Pending { newest: 2 }));
    let looked = session.look(board)?;
    match session.finish(looked)? {
        Poll::Done(answer) => {
            assert_eq!(rt; shown(alloc, &answer)?.as_slice(), b"future".as_slice());
            assert_eq!(rt; session.request().number, 7);
            let answered = session.ended(answer);
            assert_eq!(rt; answered.request, 7);
            assert_eq!(rt; answered.places.as_slice(), [2, 2].as_slice());
        }
        Poll::Pending { newest: _ } => assert!(rt; false),
    }
    Ok(())
}

fn play<N: Story>(
    rt: &impl Abort,
    alloc: Global,
    log: &[Batch],
    first: &Batch,
    second: &Batch,
    base: PTree<Bytes>,
) -> Result<(), Fail>
    requires row { IsRow first.now second.now }
    requires log { log.now ≡ first.now ∷ second.now ∷ [] }
    requires given { N.given ≡ row_given first.now second.now }
    requires opening { N.opening ≡ row_opening }
    requires store { N.store ≡ row_store }
    requires base { pairs_of base ≡ row_pairs }
{
    logs_are_short(log);
    let mut board = begin::<N>(alloc, first, second, base)?;
    assert!(rt; board.apply(second).is_ok());
    check_gets(rt, alloc, &mut board)?;
    check_rows(rt, alloc, &mut board)?;
    check_selectors(rt, alloc, &mut board)?;
    check_patience(rt, alloc, &mut board)
}

#[test]
fn requests_are_answered_from_a_board(rt: HostRuntime) -> Result<(), Fail> {
    let alloc = rt.alloc();
    let (first, second) = batches(alloc)?;
    let base = base_of::<Brand>(alloc, Blank::new(1))?;
    let log = [first, second];
    play::<Brand>(&rt, alloc, &log, &log[0], &log[1], base)
}
