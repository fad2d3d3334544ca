//! Laws of the definitions, each the contract of a function that does nothing.
ghost use Rattle.std.specs.Prelude.{◌≡◌, ◌≤◌, List, IfOk, None, Ok, Some, length};
ghost use Rattle.st_disk.specs.Calls.{made};
ghost use Rattle.st_disk.specs.History.{Files, History, fresh};
ghost use Rattle.st_disk.specs.Recorded.{Call};
ghost use Rattle.st_engine.specs.Commit.{commit_of};
ghost use Rattle.st_engine.specs.Store.{Bounds, Kept};
ghost use Rattle.st_fold.specs.declared.plan.LifePlan.{LifePlan};
ghost use Rattle.st_fold.specs.declared.plan.Script.{Script};
ghost use Rattle.st_fold.specs.declared.report.Life.{Life};
ghost use Rattle.st_demand.specs.Serving.{IsServablePlan};
ghost use Rattle.st_model.specs.Report.{IsLife, MayOpen, given_by, requests_of};
ghost use Rattle.st_model.specs.Schedule.{AreNumbered, BreaksOff, Plays, Progress, no_block};
ghost use Rattle.st_model.specs.Trace.{state_after};
ghost use Rattle.st_restart.specs.After.{OpenBehind};
ghost use Rattle.st_ops.specs.declared.op.Op.{Op};
ghost use Rattle.st_queue.specs.Writing.{IsSynced};
ghost use Rattle.st_engine.specs.Commit.{calls_of};
ghost use Rattle.st_life.specs.Leaving.{leaves};
ghost use Rattle.st_life.specs.Lives.{ArePlayed, IsPlayed, IsServed};
ghost use Rattle.st_life.specs.Play.{Start, stage_of, start_on};

use std::marker::Model;

// What an engine keeps, as a type: laws of lives over any engine are taken at it.
#[derive(Drop)]
struct Keeping {}

impl Model for Keeping {
    ghost use Rattle.std.specs.Prelude.{[]};
    ghost use Rattle.st_engine.specs.Store.{Kept, store_of};

    ghost Value = { Kept };

    ghost view = { λ keeping. record { files = ([], []); store = store_of [] } };
}

/// A script's lives and what they leave are determined by the files before them.
pub fn lives_are_the_only_ones()
    ensures one { (script : Script) (plan : LifePlan) (before behind other_behind : Files) (life other : Life)
        → IsPlayed script plan before life behind → IsPlayed script plan before other other_behind
        → (life ≡ other) × (behind ≡ other_behind) }
    ensures all { (script : Script) (plans : List LifePlan) (before behind other_behind : Files) (lives others : List Life)
        → length lives ≡ length others → ArePlayed script plans before lives behind
        → ArePlayed script plans before others other_behind → (lives ≡ others) × (behind ≡ other_behind) }
{}

/// A life is played to an end on files that open, where requests are polled at least once, blocks have rows, and requests have
/// numbers of their own.
pub fn lives_are_played()
    ensures { (script : Script) (plan : LifePlan) (before : Files) (start : Start) → 1 ≤ script.settings.patience
        → 1 ≤ script.settings.block → AreNumbered (requests_of plan) → start_on script plan before ≡ Ok start
        → (life : Life) × (behind : Files) × IsPlayed script plan before life behind }
{
    st_model::schedules_come_to_an_end::<Keeping>();
}

/// What calls leave of two files doesn't depend on the calls before that led to them.
pub fn files_change_by_their_calls()
    ensures { (calls : List Call) (disk other : History) → disk.now ≡ other.now
        → (made calls disk).now ≡ (made calls other).now }
{}

/// Behind a commit nothing is unsynced, whether it is made or refused, and one that is made leads to the files that it is told
/// to leave.
pub fn commits_are_synced()
    ensures synced { (bounds : Bounds) (kept : Kept) (ops : List Op)
        → IsSynced (made (calls_of (commit_of bounds kept ops)) (fresh kept.files)) }
    ensures files { (bounds : Bounds) (kept : Kept) (ops : List Op)
        → IfOk (commit_of bounds kept ops) (λ done. (made done.calls (fresh kept.files)).now ≡ (fresh done.behind.files).now) }
{}

/// A life that didn't halt in a commit leaves the files as its last commit did, whatever the choice of its crash.
pub fn whole_lives_leave_their_commits()
    ensures at_rest { (start : Start) (last : Progress Kept) → last.halt ≡ None → leaves start last ≡ last.engine.files }
    ensures unserved { (start : Start) (last : Progress Kept) → last.halt ≡ Some no_block
        → leaves start last ≡ last.engine.files }
{}

/// Lives on two files, of a server that owns all keys, holds them all at its opening and moves none, where nothing is watched:
/// each that is played, whether it is closed, killed or can't go on, is one that its script demands, and so is each that is
/// broken off by a fault. Files that open behind its last state open as its script lets the next life open, and that is again
/// such a life.
pub fn lives_are_demanded()
    ensures played { (script : Script) (plan : LifePlan) (start : Start) (life : Life) → IsServed script plan start
        → Plays (stage_of start) life → IsLife (given_by script plan) start.opening plan life }
    ensures broken { (script : Script) (plan : LifePlan) (start : Start) (life : Life) → IsServed script plan start
        → BreaksOff (stage_of start) life → IsLife (given_by script plan) start.opening plan life }
    ensures state_played { (script : Script) (plan : LifePlan) (start : Start) (life : Life) → IsServed script plan start
        → (plays : Plays (stage_of start) life)
        → state_after (given_by script plan) start.opening life.trace ≡ Some plays.0.state }
    ensures state_broken { (script : Script) (plan : LifePlan) (start : Start) (life : Life) → IsServed script plan start
        → (breaks : BreaksOff (stage_of start) life)
        → state_after (given_by script plan) start.opening life.trace ≡ Some breaks.0.state }
    ensures follows_played { (script : Script) (plan next : LifePlan) (start later : Start) (life : Life) (files : Files)
        → IsServed script plan start → (plays : Plays (stage_of start) life) → OpenBehind start.given plays.0.state files
        → start_on script next files ≡ Ok later
        → MayOpen (state_after (given_by script plan) start.opening life.trace) later.opening }
    ensures follows_broken { (script : Script) (plan next : LifePlan) (start later : Start) (life : Life) (files : Files)
        → IsServed script plan start → (breaks : BreaksOff (stage_of start) life) → OpenBehind start.given breaks.0.state files
        → start_on script next files ≡ Ok later
        → MayOpen (state_after (given_by script plan) start.opening life.trace) later.opening }
    ensures served { (script : Script) (plan next : LifePlan) (start later : Start) (life : Life) (files : Files)
        → IsServed script plan start → IsServablePlan next → start_on script next files ≡ Ok later
        → MayOpen (state_after (given_by script plan) start.opening life.trace) later.opening → IsServed script next later }
{
    st_demand::lives_behind_served_ones_are_served();
    st_demand::schedules_are_demanded::<Keeping>();
    st_demand::schedules_end_in_their_states::<Keeping>();
    st_engine::commits_make_four_to_ten_calls();
}
