//! Laws of served lives: those of a server that owns all keys, holds them all at its opening and moves none.
ghost use Rattle.std.specs.Prelude.{◌≡◌, List, Some};
ghost use Rattle.st_fold.specs.declared.plan.LifePlan.{LifePlan};
ghost use Rattle.st_fold.specs.declared.plan.Script.{Script};
ghost use Rattle.st_fold.specs.declared.report.Event.{Event};
ghost use Rattle.st_fold.specs.declared.report.Life.{Life};
ghost use Rattle.st_model.specs.Report.{IsLife, MayOpen, given_by};
ghost use Rattle.st_model.specs.Schedule.{BreaksOff, Plays, Stage};
ghost use Rattle.st_model.specs.State.{Given, Opening, State};
ghost use Rattle.st_model.specs.Trace.{state_after};
ghost use Rattle.st_demand.specs.Serving.{CommitsWithin, HoldsAllKeys, IsServable, IsServablePlan};

/// Each state that a legal trace of a served life reaches holds all keys.
pub fn served_states_hold_all_keys()
    ensures { (given : Given) (opening : Opening) (trace : List Event) (state : State) → IsServable given opening
        → state_after given opening trace ≡ Some state → HoldsAllKeys state }
{}

/// A life that opens behind a served one, with what was durable at its end or was in flight, is served again.
pub fn lives_behind_served_ones_are_served()
    ensures { (script : Script) (plan later : LifePlan) (opening next : Opening) (trace : List Event)
        → IsServable (given_by script plan) opening → MayOpen (state_after (given_by script plan) opening trace) next
        → IsServable (given_by script later) next }
{}

/// The life that a written schedule makes, where nothing is watched, is one that its script demands, whether it is closed, killed
/// at rest or in the middle of a commit, or can't write one. So is a life that followed the schedule up to a fault.
pub fn schedules_are_demanded<E>()
    ensures played { (stage : Stage E) (life : Life) → IsServable stage.given stage.opening → IsServablePlan stage.plan
        → CommitsWithin stage → Plays stage life → IsLife stage.given stage.opening stage.plan life }
    ensures broken { (stage : Stage E) (life : Life) → IsServable stage.given stage.opening → IsServablePlan stage.plan
        → CommitsWithin stage → BreaksOff stage life → IsLife stage.given stage.opening stage.plan life }
{}

/// The trace of such a life leads to the state in which its schedule ended.
pub fn schedules_end_in_their_states<E>()
    ensures played { (stage : Stage E) (life : Life) → IsServable stage.given stage.opening → IsServablePlan stage.plan
        → CommitsWithin stage → (plays : Plays stage life) → state_after stage.given stage.opening life.trace ≡ Some plays.0.state }
    ensures broken { (stage : Stage E) (life : Life) → IsServable stage.given stage.opening → IsServablePlan stage.plan
        → CommitsWithin stage → (breaks : BreaksOff stage life)
        → state_after stage.given stage.opening life.trace ≡ Some breaks.0.state }
{}
