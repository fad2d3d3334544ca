//! One life, in one thread, by its written schedule.
ghost use Rattle.std.specs.Prelude.{◌≡◌, ◌∷◌, ◌≤◌, [], map, None, IfSome};
ghost use Rattle.std.specs.Option.{IsSome};
ghost use Rattle.st_core.specs.Server.{Serves};
ghost use Rattle.st_disk.specs.Fuse.{fused_faults, fused_history, inner_of};
ghost use Rattle.st_disk.specs.History.{fresh, seen};
ghost use Rattle.st_fold.specs.declared.report.Event.TheVariants.{Opened};
ghost use Rattle.st_model.specs.Report.{requests_of};
ghost use Rattle.st_model.specs.Schedule.{unpolled};
ghost use Rattle.st_model.specs.State.{first_state};
ghost use Rattle.st_life.specs.Ended.{start_at, IsFaultOf, IsLifeOf};
ghost use Rattle.st_life.specs.Play.{bounds_of};
ghost use Rattle.st_life.specs.Readers.{AreAskable};
ghost use Rattle.st_life.specs.Running.{IsBegun, LetsThrough};

use crate::ended::{LifeEnded, Stopped, stop};
use crate::readers::Readers;
use crate::running::{Beginning, Running, disks_let_through};
use st_board::Story;
use st_core::{Parts, Server};
use st_disk::{
    CrashDisk, Fused, a_synced_file_has_one_image, calls_are_counted, calls_are_whole, calls_join,
};
use st_fold::{Fault, Life, LifePlan, Settings};
use st_list::Items;
use std::alloc::{AllocError, Global};
use std::marker::Brand;

/// One life of a server, by the schedule of its plan and the closing. Where the disk lets no more calls through than the plan
/// has before it is killed, the life ends in the commit that makes one more. A life that is killed leaves its disk as a restart
/// with the plan's choice does. Nothing was written where none was begun.
pub fn life_plain<N: Story, D: CrashDisk, P: Drop>(
    alloc: Global,
    plan: &LifePlan,
    settings: &Settings,
    server: Server<N, Fused<D>, P>,
) -> LifeEnded<D>
    requires serves { Serves N.given N.opening N.store (fused_history D.history) server }
    requires trace { server.board.trace ≡ Opened N.opening.version ∷ [] }
    requires state { server.board.state ≡ first_state N.given N.opening }
    requires settings { settings.now ≡ N.given.settings }
    requires upto { plan.now.upto ≡ N.given.upto }
    requires patience { 1 ≤ settings.now.patience }
    requires askable { AreAskable plan.now }
    requires bounds { server.engine.bounds ≡ bounds_of N.given.settings }
    requires synced { IfSome (fused_history D.history server.engine.disk) (λ h. h.now ≡ (fresh (seen h)).now) }
    requires fuse { IfSome (fused_history D.history server.engine.disk) (LetsThrough plan.now) }
    ensures ended { IsLifeOf D.history (fused_history D.history server.engine.disk)
        (start_at N.given plan.now N.opening N.store.fresh server) result result.life }
    ensures unbegun { result.life ≡ None → result.disk ≡ inner_of server.engine.disk }
    ensures fault { IsFaultOf (fused_faults D.fault_count server.engine.disk) D.fault_count result.disk result.fault }
    ensures log { result.log ≡ N.given.log }
{
    match Readers::new(alloc, plan, settings) {
        Ok(readers) => live::<N, Brand, D, P>(plan, server, readers),
        Err(AllocError) => {
            let Parts {
                board: _,
                engine,
                peer: _,
                cursor,
                flight: _,
            } = server.into_parts();
            LifeEnded {
                life: None,
                disk: engine.dismount().into_inner(),
                fault: Some(Fault::Memory),
                log: Items::from_vec(cursor.into_log()),
            }
        }
    }
}

// A life whose readers are there.
fn live<N: Story, B: Beginning, D: CrashDisk, P: Drop>(
    plan: &LifePlan,
    server: Server<N, Fused<D>, P>,
    readers: Readers,
) -> LifeEnded<D>
    requires serves { Serves N.given N.opening N.store (fused_history D.history) server }
    requires trace { server.board.trace ≡ Opened N.opening.version ∷ [] }
    requires state { server.board.state ≡ first_state N.given N.opening }
    requires upto { plan.now.upto ≡ N.given.upto }
    requires readers { readers ≡ record { patience = N.given.settings.patience; sessions = map unpolled (requests_of plan.now) } }
    requires bounds { server.engine.bounds ≡ bounds_of N.given.settings }
    requires synced { IfSome (fused_history D.history server.engine.disk) (λ h. h.now ≡ (fresh (seen h)).now) }
    requires told { B.told ≡ fused_history D.history server.engine.disk }
    requires start { IfSome B.told (λ h. B.start ≡ start_at N.given plan.now N.opening N.store.fresh server h) }
    requires begun { IsBegun N.given N.opening N.store.fresh B.start B.told }
    ensures ended { IsLifeOf D.history (fused_history D.history server.engine.disk)
        (start_at N.given plan.now N.opening N.store.fresh server) result result.life }
    ensures begun { IsSome result.life }
    ensures fault { IsFaultOf (fused_faults D.fault_count server.engine.disk) D.fault_count result.disk result.fault }
    ensures log { result.log ≡ N.given.log }
{
    calls_join();
    calls_are_whole();
    calls_are_counted();
    a_synced_file_has_one_image();
    disks_let_through::<Fused<D>>();
    let _ = server.board().trace();
    let opened = server.board().durable();
    let mut running = Running::<N, B, D, P>::new(server, readers, plan.upto);
    let outcome = running.play(plan.dos.as_slice());
    let (server, readers) = running.into_parts();
    let Parts {
        board,
        engine,
        peer: _,
        cursor,
        flight: _,
    } = server.into_parts();
    let Stopped {
        ending,
        disk,
        fault,
    } = stop(plan, engine.dismount(), outcome);
    let life = Life {
        opened,
        trace: Items::from_vec(board.finish(ending)),
        answers: Items::from_vec(readers.into_answers()),
        ending,
    };
    LifeEnded {
        life: Some(life),
        disk,
        fault,
        log: Items::from_vec(cursor.into_log()),
    }
}
