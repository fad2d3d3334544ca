//! One life on a disk, from the opening of its store on.
ghost use Rattle.std.specs.Prelude.{◌≡◌, ◌+◌, ◌∷◌, List, [], ℕ, Option, Some, None, IfSome, IsTrue};
ghost use Rattle.std.specs.Option.{option_map};
ghost use Rattle.st_disk.specs.Fuse.{fused_faults, fused_history, inner_of};
ghost use Rattle.st_disk.specs.History.{History, fresh, seen};
ghost use Rattle.st_fold.specs.declared.report.Fault.TheVariants.{Memory as memory};
ghost use Rattle.st_key.specs.Spans.{Span, all_keys};
ghost use Rattle.st_life.specs.Ended.{IsFaultOf, IsLifeOf};
ghost use Rattle.st_life.specs.Play.{bounds_of};
ghost use Rattle.st_life.specs.Running.{LetsThrough};
ghost use Rattle.st_mutation.specs.declared.batch.Batch.{Batch as BatchOf};
ghost use Rattle.st_ptree.specs.Entries.{pairs_of};
ghost use Rattle.st_run.specs.Lived.{IsLivable, OwnsAll, LivesOn, given_of, start_found};
ghost use Rattle.st_run.specs.Opening.{IsFault, OpensTo};

use crate::opening::{NotOpened, Opened, begin, open};
use st_board::Story;
use st_disk::{CrashDisk, Disk, Fused};
use st_fold::{Fault, LifePlan, Settings};
use st_key::Ranges;
use st_life::{LifeEnded, life_plain};
use st_list::Items;
use st_mutation::Batch;
use st_restart::stores_open;
use std::alloc::Global;
use std::marker::Brand;

// How many calls are let through until a life is killed: the two of its mount, and those of its plan.
fn passes(plan: &LifePlan) -> Option<u64>
    requires { IsLivable plan.now }
    ensures { result ≡ option_map (λ kill. 2 + kill.0) plan.now.kill }
{
    match plan.kill {
        Some((calls, _)) => Some(2 + calls),
        None => None,
    }
}

// Whether these are all keys of users.
fn are_all_keys(ranges: &Ranges) -> bool
    ensures { IsTrue result → ranges.now ≡ all_keys ∷ [] }
{
    match ranges.pieces() {
        [range] => range.begin().bytes().is_empty() && range.end().bytes() == b"\xff".as_slice(),
        _ => false,
    }
}

// Why a store below a fuse isn't open, as it is told above it. A disk that tells its calls is known to fail by itself, since its
// fuse lets the two calls of a mount through. Of another one a fault that may be the fuse's is told as want of memory.
fn blame<D: Disk>(fused: &Fused<D>, why: Fault) -> Fault
    ensures { (own : List Span) (log : List Batch) (told : Option History) (before : ℕ)
        → IsFault own log told before (fused_faults D.fault_count fused.now) why
        → IsFault own log told before (D.fault_count (inner_of fused.now)) result }
{
    let is_blown = fused.blown();
    let faults = fused.faults();
    match why {
        Fault::Device { .. } => {
            if is_blown {
                Fault::Memory
            } else {
                Fault::Device { faults }
            }
        }
        why => why,
    }
}

// No life was begun.
fn unbegun<D>(alloc: Global, disk: D, why: Fault) -> LifeEnded<D>
    ensures { result ≡ record { life = None; disk = disk; fault = Some why; log = [] } }
{
    LifeEnded {
        life: None,
        disk,
        fault: Some(why),
        log: Items::new(alloc),
    }
}

// The life of a plan on an open store that holds all keys.
fn live<N: Story, D: CrashDisk>(
    alloc: Global,
    settings: &Settings,
    log: Items<Batch>,
    plan: &LifePlan,
    opened: Opened<Fused<D>>,
) -> LifeEnded<D>
    requires named { N.opening ≡ record { version = opened.opening.version; available = opened.opening.available } }
    requires settings { settings.now ≡ N.given.settings }
    requires log { log ≡ N.given.log }
    requires upto { plan.now.upto ≡ N.given.upto }
    requires store { N.store ≡ record { fresh = opened.engine.store.fresh; pairs = pairs_of opened.opening.base } }
    requires served { OwnsAll N.given.settings N.given.own N.given.log }
    requires livable { IsLivable plan.now }
    requires all { opened.opening.available ≡ all_keys ∷ [] }
    requires opens { OpensTo N.given.own N.given.log opened.engine.store opened.opening }
    requires sound { opened.engine.broken ≡ None }
    requires bounds { opened.engine.bounds ≡ bounds_of N.given.settings }
    requires synced { IfSome (fused_history D.history opened.engine.disk) (λ h. h.now ≡ (fresh (seen h)).now) }
    requires fuse { IfSome (fused_history D.history opened.engine.disk) (LetsThrough plan.now) }
    ensures unbegun { result.life ≡ None → (result.fault ≡ Some memory) × (result.disk ≡ inner_of opened.engine.disk) }
    ensures ended { IsLifeOf D.history (fused_history D.history opened.engine.disk) (start_found N.given plan.now opened) result result.life }
    ensures fault { IsFaultOf (fused_faults D.fault_count opened.engine.disk) D.fault_count result.disk result.fault }
    ensures log { IfSome result.life (λ life. result.log ≡ N.given.log) }
{
    match begin::<N, Fused<D>, ()>(alloc, opened, settings, log.into_vec(), ()) {
        Ok(server) => life_plain(alloc, plan, settings, server),
        Err(NotOpened { disk, why }) => unbegun(alloc, disk.into_inner(), why),
    }
}

/// One life of a script on a disk: its store is opened, a server begins on it, and the plan is played. Where the store doesn't open,
/// no life is begun, and nothing is written.
pub(crate) fn live_on<D: CrashDisk>(
    alloc: Global,
    settings: &Settings,
    own: &Ranges,
    log: Items<Batch>,
    plan: &LifePlan,
    disk: D,
) -> LifeEnded<D>
    requires served { OwnsAll settings.now own.now log }
    requires livable { IsLivable plan.now }
    ensures { LivesOn D.history D.fault_count (given_of settings.now own.now log plan.now) plan.now disk result result.life }
{
    stores_open();
    let fused = Fused::new(disk, passes(plan));
    match open(alloc, fused, settings, own, log.as_slice()) {
        Ok(opened) => {
            // A store with fetches half done is of a server that moves, which isn't served yet.
            if are_all_keys(&opened.opening.available) {
                live::<Brand, D>(alloc, settings, log, plan, opened)
            } else {
                unbegun(alloc, opened.engine.dismount().into_inner(), Fault::Memory)
            }
        }
        Err(NotOpened { disk: fused, why }) => {
            let why = blame(&fused, why);
            unbegun(alloc, fused.into_inner(), why)
        }
    }
}
