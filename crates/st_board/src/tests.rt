ghost use Rattle.std.specs.Prelude.{◌≡◌, ◌<◌, ◌∷◌, [], IfOk};
ghost use Rattle.st_board.specs.Rows.{IsRow, row_given, row_opening, row_pairs, row_store};
ghost use Rattle.st_key.specs.Spans.{all_keys};
ghost use Rattle.st_model.specs.State.{first_state};
ghost use Rattle.st_ptree.specs.Entries.{pairs_of};

use super::*;
use bytes::Bytes;
use st_fold::{Ending, Event, Settings};
use st_key::{Key, Range, Ranges, Value};
use st_list::Items;
use st_mutation::{Batch, Mutation};
use st_ops::Op;
use st_ptree::{PTree, Steps};
use st_versioned::Overlay;
use std::alloc::{AllocError, Global};
use std::marker::Brand;
use std::process::Abort;
use std::sync::ledger::{Blank, Ledger};
use std::test::Fail;

const SETTINGS: Settings = Settings {
    window: 1,
    patience: 3,
    seed: 1,
    swap: 64,
    limit: 1024,
    quota: 1,
    block: 1,
    watches: 1,
};

// A range that isn't empty.
fn range(alloc: Global, begin: &[u8], end: &[u8]) -> Result<Range, Fail> {
    Ok(Range::new(Key::end(alloc, begin)?, Key::end(alloc, end)?)?)
}

fn value_in<L: Ledger>(view: &View, key: &[u8], blank: Blank) -> Option<u8>
    requires name { blank.name ≡ L.name }
    requires parts { blank.parts ≡ L.parts }
    requires some { 0 < blank.parts }
{
    let mut steps = Steps::<L>::new(blank);
    let overlay = Overlay {
        root: &view.root,
        base: &view.base,
    };
    overlay.get(key, &mut steps)?.first().copied()
}

fn value(view: &View, key: &[u8]) -> Option<u8> {
    value_in::<Brand>(view, key, Blank::new(1))
}

// All keys of users.
fn users(alloc: Global) -> Result<Ranges, Fail>
    ensures { IfOk result (λ ranges. ranges ≡ all_keys ∷ []) }
{
    let range = Range::new(Key::end(alloc, b"")?, Key::end(alloc, b"\xff")?)?;
    Ok(Ranges::of(alloc, range)?)
}

// A batch of version 1 that sets a to 1, and one of version 2 that changes nothing.
fn batches(alloc: Global) -> Result<(Batch, Batch), Fail>
    ensures { IfOk result (λ batches. IsRow batches.0 batches.1) }
{
    let mut mutations = Items::new(alloc);
    let set = Mutation::Set(Key::read(alloc, b"a")?, Value::read(alloc, b"1")?);
    mutations.push(set)?;
    let first = Batch {
        version: 1,
        moves: Items::new(alloc),
        mutations,
    };
    let second = Batch {
        version: 2,
        moves: Items::new(alloc),
        mutations: Items::new(alloc),
    };
    Ok((first, second))
}

fn begin<N: Story>(alloc: Global, first: &Batch, second: &Batch) -> Result<Board<N>, Fail>
    requires row { IsRow first.now second.now }
    requires given { N.given ≡ row_given first.now second.now }
    requires opening { N.opening ≡ row_opening }
    requires store { N.store ≡ row_store }
    ensures state { IfOk result (λ board. board.state ≡ first_state N.given N.opening) }
{
    let opening = Opening {
        version: 0,
        assigned: users(alloc)?,
        available: users(alloc)?,
        base: PTree::new(alloc),
        clears: Vec::new(alloc),
    };
    Ok(Board::begin(alloc, opening, &SETTINGS)?)
}

// What the board shows of a at a version.
fn shown<N: Story>(board: &Board<N>, alloc: Global, version: u64) -> Result<Option<u8>, Fail> {
    let one = range(alloc, b"a", b"b")?;
    match board.view(&one, version) {
        Ok(view) => Ok(value(&view, b"a")),
        Err(_) => Err("refused")?,
    }
}

// The version that is told where one is refused: the oldest where it is too old, the newest where it hasn't come.
fn refused<N: Story>(board: &Board<N>, alloc: Global, version: u64) -> Result<Option<u64>, Fail> {
    let one = range(alloc, b"a", b"b")?;
    match board.view(&one, version) {
        Err(ViewRefusal::NotYet { newest }) => Ok(Some(newest)),
        Err(ViewRefusal::TooOld { oldest }) => Ok(Some(oldest)),
        _ => Ok(None),
    }
}

// The first key from a up to ff 01 that isn't served.
fn unserved<N: Story>(
    rt: &impl Abort,
    board: &Board<N>,
    alloc: Global,
    version: u64,
) -> Result<(), Fail> {
    let past = range(alloc, b"a", b"\xff\x01")?;
    match board.view(&past, version) {
        Err(ViewRefusal::WrongShard { at }) => assert_eq!(rt; at.bytes(), b"\xff".as_slice()),
        _ => assert!(rt; false),
    }
    Ok(())
}

fn numbers<N: Story>(board: &Board<N>) -> [u64; 4] {
    [
        board.oldest(),
        board.newest(),
        board.durable(),
        board.place(),
    ]
}

fn check_opened<N: Story>(rt: &impl Abort, board: &Board<N>, alloc: Global) -> Result<(), Fail> {
    assert_eq!(rt; numbers(board), [0, 0, 0, 1]);
    assert_eq!(rt; refused(board, alloc, 1)?, Some(0));
    assert_eq!(rt; board.settings().window, 1);
    assert!(rt; !board.commit_due());
    Ok(())
}

fn check_applied<N: Story>(rt: &impl Abort, board: &Board<N>, alloc: Global) -> Result<(), Fail> {
    assert_eq!(rt; numbers(board), [0, 1, 0, 2]);
    for (version, want) in [(0, None), (1, Some(b'1'))] {
        assert_eq!(rt; shown(board, alloc, version)?, want, "{version}");
    }
    unserved(rt, board, alloc, 1)?;
    assert!(rt; matches!(board.trace(), [Event::Opened(0), Event::Applied(1)]));
    assert!(rt; !board.commit_due());
    Ok(())
}

// The job sets a to 1, and stores the state in three pairs.
fn check_job(rt: &impl Abort, job: &CommitJob) {
    assert_eq!(rt; job.ops.len(), 4);
    match job.ops.as_slice().first() {
        Some(Op::Set(key, value)) => {
            assert!(rt; key.as_slice() == b"a".as_slice() && value.as_slice() == b"1".as_slice());
        }
        _ => assert!(rt; false),
    }
}

// The version 0 can be read until the commit of version 1 is durable.
fn check_committed<N: Story>(rt: &impl Abort, board: &Board<N>, alloc: Global) -> Result<(), Fail> {
    assert_eq!(rt; numbers(board), [1, 2, 1, 5]);
    assert_eq!(rt; refused(board, alloc, 0)?, Some(1));
    for version in [1, 2] {
        assert_eq!(rt; shown(board, alloc, version)?, Some(b'1'), "{version}");
    }
    assert!(rt; !board.commit_due());
    Ok(())
}

fn check_finished<N: Story>(rt: &impl Abort, board: Board<N>) -> Result<(), Fail> {
    let trace = board.finish(Ending::Closed);
    assert!(rt;
        matches!(
            trace.as_slice(),
            [
                Event::Opened(0),
                Event::Applied(1),
                Event::Applied(2),
                Event::Began(1),
                Event::Durable(1),
                Event::Closed
            ]
        )
    );
    Ok(())
}

fn apply_first<N: Story>(
    rt: &impl Abort,
    alloc: Global,
    board: &mut Board<N>,
    first: &Batch,
    second: &Batch,
) -> Result<(), Fail>
    requires row { IsRow first.now second.now }
    requires given { N.given ≡ row_given first.now second.now }
    requires opening { N.opening ≡ row_opening }
    requires newest { board.old.state.newest ≡ 0 }
    requires durable { board.old.state.durable ≡ 0 }
    ensures newest { IfOk result (λ done. board.new.state.newest ≡ 1) }
    ensures durable { IfOk result (λ done. board.new.state.durable ≡ 0) }
{
    assert_eq!(rt; board.apply(first), Ok(()));
    check_applied(rt, board, alloc)?;
    assert_eq!(rt;
        board.apply(first),
        Err(ApplyRefusal::NotNext { newest: 1 })
    );
    Ok(())
}

// The base behind the commit of the first batch.
fn base_of<L: Ledger>(alloc: Global, blank: Blank) -> Result<PTree<Bytes>, Fail>
    requires name { blank.name ≡ L.name }
    requires parts { blank.parts ≡ L.parts }
    requires some { 0 < blank.parts }
    ensures { IfOk result (λ base. pairs_of base ≡ row_pairs) }
{
    let mut steps = Steps::<L>::new(blank);
    let mut base = PTree::new(alloc);
    base.insert(
        Bytes::from_static(b"a"),
        0,
        Bytes::from_static(b"1"),
        &mut steps,
    )?;
    Ok(base)
}

fn commit<N: Story>(
    rt: &impl Abort,
    board: &mut Board<N>,
    base: PTree<Bytes>,
    first: &Batch,
    second: &Batch,
) -> Result<(), Fail>
    requires row { IsRow first.now second.now }
    requires given { N.given ≡ row_given first.now second.now }
    requires base { pairs_of base ≡ row_pairs }
{
    assert!(rt; board.commit_due());
    let Some(job) = board.take_commit()? else {
        return Err("no commit is due")?;
    };
    assert_eq!(rt; job.version, 1);
    check_job(rt, &job);
    // none begins while it is in flight
    assert!(rt; !board.commit_due());
    let _ = board.trace();
    board.committed(job, base);
    Ok(())
}

fn play<N: Story>(
    rt: &impl Abort,
    alloc: Global,
    first: &Batch,
    second: &Batch,
    base: PTree<Bytes>,
) -> Result<(), Fail>
    requires row { IsRow first.now second.now }
    requires given { N.given ≡ row_given first.now second.now }
    requires opening { N.opening ≡ row_opening }
    requires store { N.store ≡ row_store }
    requires base { pairs_of base ≡ row_pairs }
{
    let mut board = begin::<N>(alloc, first, second)?;
    check_opened(rt, &board, alloc)?;
    apply_first(rt, alloc, &mut board, first, second)?;
    assert_eq!(rt; board.apply(second), Ok(()));
    commit(rt, &mut board, base, first, second)?;
    check_committed(rt, &board, alloc)?;
    check_finished(rt, board)
}

#[test]
fn batches_are_applied_shown_and_committed(rt: HostRuntime) -> Result<(), Fail> {
    let alloc = rt.alloc();
    let (first, second) = batches(alloc)?;
    let base = base_of::<Brand>(alloc, Blank::new(1))?;
    play::<Brand>(&rt, alloc, &first, &second, base)
}
