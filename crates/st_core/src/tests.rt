ghost use Rattle.std.specs.Prelude.{◌≡◌, ◌∷◌, [], None, true, IfOk};
ghost use Rattle.st_board.specs.Rows.{IsRow, row_given, row_opening, row_store};
ghost use Rattle.st_fold.specs.declared.report.Event.TheVariants.{Opened};
ghost use Rattle.st_key.specs.Spans.{all_keys};
ghost use Rattle.st_model.specs.State.{first_state};

use super::*;
use st_board::{Board, Opening, Story};
use st_cursor::Cursor;
use st_disk::Memory;
use st_engine::{Engine, EngineMount};
use st_fold::Settings;
use st_key::{Key, Range, Ranges, Value};
use st_list::Items;
use st_mutation::{Batch, Mutation};
use st_ptree::PTree;
use std::alloc::Global;
use std::marker::Brand;
use std::process::Abort;
use std::test::Fail;

const SETTINGS: Settings = Settings {
    window: 1,
    patience: 3,
    seed: 1,
    swap: 64,
    limit: 1024,
    quota: 1,
    block: 1,
    watches: 1,
};

// All keys of users.
fn users(alloc: Global) -> Result<Ranges, Fail>
    ensures { IfOk result (λ ranges. ranges ≡ all_keys ∷ []) }
{
    let range = Range::new(Key::end(alloc, b"")?, Key::end(alloc, b"\xff")?)?;
    Ok(Ranges::of(alloc, range)?)
}

// A batch of version 1 that sets a to 1, and one of version 2 that changes nothing.
fn batches(alloc: Global) -> Result<(Batch, Batch), Fail>
    ensures { IfOk result (λ batches. IsRow batches.0 batches.1) }
{
    let mut mutations = Items::new(alloc);
    let set = Mutation::Set(Key::read(alloc, b"a")?, Value::read(alloc, b"1")?);
    mutations.push(set)?;
    let first = Batch {
        version: 1,
        moves: Items::new(alloc),
        mutations,
    };
    let second = Batch {
        version: 2,
        moves: Items::new(alloc),
        mutations: Items::new(alloc),
    };
    Ok((first, second))
}

// An engine over two empty files.
fn mounted(alloc: Global) -> Result<Engine<Memory>, Fail>
    ensures pairs { IfOk result (λ engine. engine.store.pairs ≡ []) }
    ensures fresh { IfOk result (λ engine. engine.store.fresh ≡ true) }
    ensures unbroken { IfOk result (λ engine. engine.broken ≡ None) }
{
    match Engine::mount(alloc, Memory::new(alloc), &SETTINGS) {
        Ok(engine) => Ok(engine),
        Err(EngineMount { disk: _, why: _ }) => Err("empty files don't mount")?,
    }
}

fn begin<N: Story>(alloc: Global, first: &Batch, second: &Batch) -> Result<Board<N>, Fail>
    requires row { IsRow first.now second.now }
    requires given { N.given ≡ row_given first.now second.now }
    requires opening { N.opening ≡ row_opening }
    requires store { N.store ≡ row_store }
    ensures trace { IfOk result (λ board. board.trace ≡ Opened 0 ∷ []) }
    ensures state { IfOk result (λ board. board.state ≡ first_state N.given N.opening) }
{
    let opening = Opening {
        version: 0,
        assigned: users(alloc)?,
        available: users(alloc)?,
        base: PTree::new(alloc),
        clears: Vec::new(alloc),
    };
    Ok(Board::begin(alloc, opening, &SETTINGS)?)
}

fn cursor(alloc: Global, first: &Batch, second: &Batch) -> Result<Cursor, Fail>
    ensures log { IfOk result (λ cursor. cursor.log ≡ first.now ∷ second.now ∷ []) }
    ensures popped { IfOk result (λ cursor. cursor.popped ≡ 0) }
{
    let mut log = Vec::new(alloc);
    log.push(first.copy(alloc)?)?;
    log.push(second.copy(alloc)?)?;
    Ok(Cursor::new(log))
}

// Looks at a board that is lent out.
fn newest_of<N: Story>(board: &mut Board<N>) -> u64
    ensures { board.new ≡ board.old }
{
    board.newest()
}

fn play<N: Story>(
    rt: &impl Abort,
    alloc: Global,
    first: &Batch,
    second: &Batch,
    engine: Engine<Memory>,
) -> Result<(), Fail>
    requires row { IsRow first.now second.now }
    requires given { N.given ≡ row_given first.now second.now }
    requires opening { N.opening ≡ row_opening }
    requires store { N.store ≡ row_store }
    requires pairs { engine.store.pairs ≡ [] }
    requires fresh { engine.store.fresh ≡ true }
    requires unbroken { engine.broken ≡ None }
{
    let board = begin::<N>(alloc, first, second)?;
    let log = cursor(alloc, first, second)?;
    let mut server = Server::new(board, engine, (), log);
    assert_eq!(rt; server.log().len(), 2);
    assert_eq!(rt; server.due(2), Some(Act::Apply));
    // nothing is to be committed before the second batch, and no fetch is due
    let acts = [
        Act::Began,
        Act::Start,
        Act::Apply,
        Act::Apply,
        Act::Began,
        Act::Began,
    ];
    assert_eq!(rt; server.drive(&acts, 2), Ok(3));
    assert_eq!(rt; newest_of(server.board_mut()), 2);
    assert_eq!(rt; server.due(2), Some(Act::Durable));
    assert_eq!(rt;
        server.drive(&[Act::Apply, Act::Durable, Act::Durable], 2),
        Ok(1)
    );
    assert_eq!(rt; server.due(2), None);
    assert_eq!(rt; server.board().durable(), 1);
    // a header, and a frame of four sets and the snapshot with the same pairs
    let disk = server.into_disk();
    assert_eq!(rt; disk.bytes(0).len(), 254);
    assert_eq!(rt; disk.bytes(1).len(), 0);
    Ok(())
}

#[test]
fn a_server_is_driven_to_rest(rt: HostRuntime) -> Result<(), Fail> {
    let alloc = rt.alloc();
    let (first, second) = batches(alloc)?;
    let engine = mounted(alloc)?;
    play::<Brand>(&rt, alloc, &first, &second, engine)
}
