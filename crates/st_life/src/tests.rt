ghost use Rattle.std.specs.Prelude.{◌≡◌, ◌∷◌, [], IfOk};
ghost use Rattle.std.specs.List.{AllByRecursion};
ghost use Rattle.st_board.specs.Rows.{IsRow, row_given, row_opening, row_store};
ghost use Rattle.st_key.specs.Spans.{all_keys};
ghost use Rattle.st_model.specs.State.{first_state};
ghost use Rattle.st_session.specs.Logs.{AreShort};
ghost use Rattle.st_life.specs.Readers.{AreAskable, IsAskable};

use super::*;
use st_board::{Board, Opening, Story};
use st_fold::{Answer, Answered, Ask, LifePlan, Request, Settings};
use st_key::{Key, Range, Ranges, Value};
use st_list::Items;
use st_mutation::{Batch, Mutation};
use st_ptree::PTree;
use std::alloc::Global;
use std::marker::Brand;
use std::process::Abort;
use std::test::Fail;

const SETTINGS: Settings = Settings {
    window: 1,
    patience: 3,
    seed: 1,
    swap: 64,
    limit: 1024,
    quota: 1,
    block: 1,
    watches: 1,
};

// All keys of users.
fn users(alloc: Global) -> Result<Ranges, Fail>
    ensures { IfOk result (λ ranges. ranges ≡ all_keys ∷ []) }
{
    let range = Range::new(Key::end(alloc, b"")?, Key::end(alloc, b"\xff")?)?;
    Ok(Ranges::of(alloc, range)?)
}

// A batch of version 1 that sets a to 1, and one of version 2 that changes nothing.
fn batches(alloc: Global) -> Result<(Batch, Batch), Fail>
    ensures { IfOk result (λ batches. IsRow batches.0 batches.1) }
{
    let mut mutations = Items::new(alloc);
    let set = Mutation::Set(Key::read(alloc, b"a")?, Value::read(alloc, b"1")?);
    mutations.push(set)?;
    let first = Batch {
        version: 1,
        moves: Items::new(alloc),
        mutations,
    };
    let second = Batch {
        version: 2,
        moves: Items::new(alloc),
        mutations: Items::new(alloc),
    };
    Ok((first, second))
}

fn begin<N: Story>(alloc: Global, first: &Batch, second: &Batch) -> Result<Board<N>, Fail>
    requires row { IsRow first.now second.now }
    requires given { N.given ≡ row_given first.now second.now }
    requires opening { N.opening ≡ row_opening }
    requires store { N.store ≡ row_store }
    ensures state { IfOk result (λ board. board.state ≡ first_state N.given N.opening) }
{
    let opening = Opening {
        version: 0,
        assigned: users(alloc)?,
        available: users(alloc)?,
        base: PTree::new(alloc),
        clears: Vec::new(alloc),
    };
    Ok(Board::begin(alloc, opening, &SETTINGS)?)
}

// A request of a reader for the value of a at a version.
fn request(alloc: Global, number: u64, reader: u32, version: u64) -> Result<Request, Fail>
    ensures { IfOk result (λ request. IsAskable request) }
{
    let ask = Ask::Get(Key::read(alloc, b"a")?, version);
    Ok(Request {
        number,
        reader,
        ask,
    })
}

// Requests by number, reader and version.
fn requests(alloc: Global, rows: &[(u64, u32, u64)]) -> Result<Items<Request>, Fail>
    ensures { IfOk result (λ requests. AllByRecursion IsAskable requests) }
{
    let mut requests = Items::new(alloc);
    for (number, reader, version) in rows {
        requests.push(request(alloc, *number, *reader, *version)?)?;
    }
    Ok(requests)
}

// Three requests of reader 1, one of reader 2, and one that is answered at the end.
fn plan(alloc: Global) -> Result<LifePlan, Fail>
    ensures { IfOk result (λ plan. AreAskable plan) }
{
    Ok(LifePlan {
        upto: 2,
        asks: requests(alloc, &[(1, 1, 1), (2, 2, 0), (4, 1, 9), (5, 1, 0)])?,
        lasts: requests(alloc, &[(3, 0, 1)])?,
        dos: Items::new(alloc),
        cuts: Items::new(alloc),
        peerfails: Items::new(alloc),
        kill: None,
    })
}

// Polls, by reader and whether it has a request that is open.
fn polls<N: Story>(
    rt: &impl Abort,
    readers: &mut Readers,
    board: &mut Board<N>,
    rows: &[(u32, bool)],
) -> Result<(), Fail>
    requires patience { readers.old.patience ≡ N.given.settings.patience }
    requires short { AreShort N.given.log }
    ensures patience { readers.new.patience ≡ readers.old.patience }
    ensures board { board.new ≡ board.old }
{
    for (reader, done) in rows {
        assert_eq!(rt; readers.poll(*reader, board)?, *done, "{reader}");
    }
    Ok(())
}

// A word for an answer, and the numbers that it tells.
fn told(answer: &Answer) -> (&'static str, u64, u32) {
    match answer {
        Answer::Value(_) => ("value", 0, 0),
        Answer::Absent => ("absent", 0, 0),
        Answer::FutureVersion { newest, polls } => ("future", *newest, *polls),
        Answer::Stopped => ("stopped", 0, 0),
        _ => ("another", 0, 0),
    }
}

fn check(rt: &impl Abort, answers: &[Answered]) {
    let wanted: [(u64, &str, u64, u32, &[u64]); 5] = [
        (1, "value", 0, 0, &[1, 2]),
        (2, "absent", 0, 0, &[1]),
        (3, "value", 0, 0, &[2]),
        (4, "future", 1, 3, &[2, 2, 2]),
        (5, "stopped", 0, 0, &[]),
    ];
    assert_eq!(rt; answers.len(), 5);
    for (answered, (number, word, newest, polls, places)) in answers.iter().zip(wanted) {
        assert_eq!(rt; answered.request, number);
        assert_eq!(rt; told(&answered.answer), (word, newest, polls), "{number}");
        assert_eq!(rt; answered.places.as_slice(), places, "{number}");
        if let Answer::Value(value) = &answered.answer {
            assert_eq!(rt; value.bytes(), b"1".as_slice());
        }
    }
}

fn play<N: Story>(
    rt: &impl Abort,
    alloc: Global,
    first: &Batch,
    second: &Batch,
    plan: &LifePlan,
) -> Result<(), Fail>
    requires row { IsRow first.now second.now }
    requires given { N.given ≡ row_given first.now second.now }
    requires opening { N.opening ≡ row_opening }
    requires store { N.store ≡ row_store }
    requires askable { AreAskable plan.now }
{
    let mut board = begin::<N>(alloc, first, second)?;
    let mut readers = Readers::new(alloc, plan, &SETTINGS)?;
    // the first request of reader 1 waits for its version
    let rows = [(1, true), (2, true), (2, false), (7, false)];
    polls(rt, &mut readers, &mut board, &rows)?;
    assert_eq!(rt; board.apply(first), Ok(()));
    let rows = [
        (1, true),
        (0, true),
        (0, false),
        (1, true),
        (1, true),
        (1, true),
    ];
    polls(rt, &mut readers, &mut board, &rows)?;
    // the last request of reader 1 isn't polled
    check(rt, &readers.into_answers());
    Ok(())
}

#[test]
fn readers_are_polled_in_turn(rt: HostRuntime) -> Result<(), Fail> {
    let alloc = rt.alloc();
    let (first, second) = batches(alloc)?;
    let plan = plan(alloc)?;
    play::<Brand>(&rt, alloc, &first, &second, &plan)
}
