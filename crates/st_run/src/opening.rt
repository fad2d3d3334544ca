//! Opening a store, and a server over it.
ghost use Rattle.std.specs.Prelude.{◌≡◌, ◌∷◌, [], ◌≤◌, ◌^◌, true, None, IfOk, IfErr};
ghost use Rattle.st_board.specs.Stands.{IsStill};
ghost use Rattle.st_core.specs.Server.{Serves};
ghost use Rattle.st_engine.specs.Engine.{ToldAgrees};
ghost use Rattle.st_fold.specs.declared.report.Event.TheVariants.{Opened as opened_at};
ghost use Rattle.st_fold.specs.declared.report.Fault.TheVariants.{Memory};
ghost use Rattle.st_model.specs.State.{first_state};
ghost use Rattle.st_ptree.specs.Entries.{pairs_of};
ghost use Rattle.st_queue.specs.Mounting.{IsOfMount};
ghost use Rattle.st_run.specs.Opening.{FailsToOpen, IsOpenOn, OpensNothing, OpensTo, fault_of};

use st_board::{Board, Opening, Story};
use st_core::Server;
use st_cursor::Cursor;
use st_disk::Disk;
use st_engine::{Engine, EngineMount, EngineRefusal};
use st_fold::{Damage, Fault, Settings};
use st_key::Ranges;
use st_meta::MetaRefusal;
use st_mutation::Batch;
use st_restart::{AgreeRefusal, agree, files_open_as_they_mount, reopen, stores_open};
use std::alloc::{AllocError, Global};

/// A store that is open, and what it opens as.
#[derive(Drop)]
pub struct Opened<D: Disk> {
    pub engine: Engine<D>,
    pub opening: Opening,
}

/// Why a store isn't open, with its disk.
#[derive(Debug, Drop)]
pub struct NotOpened<D> {
    pub disk: D,
    pub why: Fault,
}

// Why a store isn't mounted.
fn fault_of(why: EngineRefusal) -> Fault
    requires { IsOfMount why }
    ensures { result ≡ fault_of why }
{
    match why {
        EngineRefusal::DiskFault { faults } => Fault::Device { faults },
        EngineRefusal::Damaged { file, at } => Fault::Damaged(Damage::File { file, at }),
        EngineRefusal::NoMemory => Fault::Memory,
        EngineRefusal::Broken { .. } | EngineRefusal::Full { .. } => unreachable!(),
    }
}

// What the store of an engine opens as, where it is the log's.
fn read<D: Disk>(
    alloc: Global,
    engine: &Engine<D>,
    own: &Ranges,
    log: &[Batch],
) -> Result<Opening, Fault>
    ensures ok { IfOk result (OpensTo own.now log.now engine.now.store) }
    ensures err { IfErr result (OpensNothing own.now log.now engine.now.store) }
    ensures told { ToldAgrees D.history engine.now }
    ensures untouched { engine.now.store.fresh ≡ true → engine.now.store.pairs ≡ [] }
{
    engine.is_fresh();
    let opening = match reopen(alloc, engine, own) {
        Ok(opening) => opening,
        Err(MetaRefusal::BadMeta { which }) => {
            return Err(Fault::Damaged(Damage::Meta { which }));
        }
        Err(MetaRefusal::NoMemory) => return Err(Fault::Memory),
    };
    match agree(alloc, engine, &opening, own, log) {
        Ok(()) => Ok(opening),
        Err(AgreeRefusal::Foreign(part)) => Err(Fault::Foreign(part)),
        Err(AgreeRefusal::NoMemory) => Err(Fault::Memory),
    }
}

/// Opens the store on a disk: syncs and mounts its files, and asks whether their state and pairs are those of the log. Damaged files,
/// and a store of another log, are refused with what they are. Nothing is written.
pub fn open<D: Disk>(
    alloc: Global,
    disk: D,
    settings: &Settings,
    own: &Ranges,
    log: &[Batch],
) -> Result<Opened<D>, NotOpened<D>>
    requires swap { settings.now.swap ≤ 2 ^ 30 }
    requires limit { settings.now.limit ≤ 2 ^ 30 }
    ensures ok { IfOk result (IsOpenOn D.history disk own.now log.now settings.now) }
    ensures err { IfErr result (FailsToOpen D.history D.fault_count disk own.now log.now) }
    ensures no_fault { IfOk result (λ opened. D.fault_count opened.engine.disk ≡ D.fault_count disk) }
{
    files_open_as_they_mount();
    let engine = match Engine::mount(alloc, disk, settings) {
        Ok(engine) => engine,
        Err(EngineMount { disk, why }) => {
            return Err(NotOpened {
                disk,
                why: fault_of(why),
            });
        }
    };
    match read(alloc, &engine, own, log) {
        Ok(opening) => Ok(Opened { engine, opening }),
        Err(why) => Err(NotOpened {
            disk: engine.dismount(),
            why,
        }),
    }
}

/// The server of a life that begins on an open store, and did nothing yet. The log owns all keys and moves none. Where memory is
/// wanting the disk is handed back as it is.
pub fn begin<N: Story, D: Disk, P: Drop>(
    alloc: Global,
    opened: Opened<D>,
    settings: &Settings,
    log: Vec<Batch>,
    peer: P,
) -> Result<Server<N, D, P>, NotOpened<D>>
    requires named { N.opening ≡ record { version = opened.opening.version; available = opened.opening.available } }
    requires settings { settings.now ≡ N.given.settings }
    requires log { log.items ≡ N.given.log }
    requires store { N.store ≡ record { fresh = opened.engine.store.fresh; pairs = pairs_of opened.opening.base } }
    requires still { IsStill N.given N.opening }
    requires opens { OpensTo N.given.own N.given.log opened.engine.store opened.opening }
    requires sound { opened.engine.broken ≡ None }
    ensures trace { IfOk result (λ server. server.board.trace ≡ opened_at opened.opening.version ∷ []) }
    ensures state { IfOk result (λ server. server.board.state ≡ first_state N.given N.opening) }
    ensures engine { IfOk result (λ server. server.engine ≡ opened.engine) }
    ensures peer { IfOk result (λ server. server.peer ≡ peer) }
    ensures serves { IfOk result (Serves N.given N.opening N.store D.history) }
    ensures err { IfErr result (λ refused. (refused.disk ≡ opened.engine.disk) × (refused.why ≡ Memory)) }
{
    stores_open();
    let Opened { engine, opening } = opened;
    let _ = engine.is_fresh();
    match Board::begin(alloc, opening, settings) {
        Ok(board) => Ok(Server::new(board, engine, peer, Cursor::new(log))),
        Err(AllocError) => Err(NotOpened {
            disk: engine.dismount(),
            why: Fault::Memory,
        }),
    }
}
