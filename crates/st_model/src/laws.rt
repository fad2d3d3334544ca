//! Laws of the definitions.
ghost use Rattle.std.specs.Prelude.{◌≡◌, ℕ, ◌∷◌, [], List, None, Some};
ghost use Rattle.std.specs.Option.{option_map};
ghost use Rattle.st_mutation.specs.declared.batch.Batch.{Batch};
ghost use Rattle.st_fold.specs.declared.plan.LifePlan.{LifePlan};
ghost use Rattle.st_fold.specs.declared.plan.Script.{Script};
ghost use Rattle.st_fold.specs.declared.report.Ending.TheVariants as ending;
ghost use Rattle.st_fold.specs.declared.report.Fault.{Fault};
ghost use Rattle.st_fold.specs.declared.report.Fault.TheVariants as fault;
ghost use Rattle.st_fold.specs.declared.report.Life.{Life};
ghost use Rattle.st_fold.specs.Endings.{status_of};
ghost use Rattle.st_fold.specs.Plain.{IsPlainLife};
ghost use Rattle.st_model.specs.Plain.{IsPlain, IsSplit, begin_plainly, first_to, fresh_opening, next_plainly, plain_stage, plain_state, progress_of, walk_plainly};
ghost use Rattle.st_model.specs.Report.{HasCause, IsDemanded, IsLife, given_by};
ghost use Rattle.st_model.specs.Schedule.{BreaksOff, Plays, Stage, begin, next, walk};
ghost use Rattle.st_model.specs.State.{Given, Opening, next_batch};

/// In a plain life the batch that comes next is the first that is left.
pub fn next_is_first_left()
    ensures { (given : Given) (newest : ℕ) (left : List Batch) → IsSplit given.log newest left
        → next_batch given (plain_state newest) ≡ first_to given.upto left }
{}

/// A plain life that is played by its schedule is, after any number of steps, where the same number of plain steps leads,
/// and its next step is the next plain one.
pub fn plain_steps_are_steps()
    ensures leads { (given : Given) (plan : LifePlan) (steps : ℕ) → IsPlain given → IsPlainLife plan
        → walk (plain_stage given plan) steps (begin (plain_stage given plan))
        ≡ progress_of (walk_plainly given steps (begin_plainly given plan)) }
    ensures goes_on { (given : Given) (plan : LifePlan) (steps : ℕ) → IsPlain given → IsPlainLife plan
        → next (plain_stage given plan) (progress_of (walk_plainly given steps (begin_plainly given plan)))
        ≡ option_map progress_of (next_plainly given (walk_plainly given steps (begin_plainly given plan))) }
{}

/// The life that a written schedule makes, where nothing fails, is one that the script demands.
pub fn play_is_a_life()
    ensures { (given : Given) (plan : LifePlan) (life : Life) → IsPlain given → IsPlainLife plan
        → Plays (plain_stage given plan) life → IsLife given fresh_opening plan life }
{}

/// A life that followed its schedule up to a fault is one that the script demands.
pub fn broken_off_is_a_life()
    ensures { (given : Given) (plan : LifePlan) (life : Life) → IsPlain given → IsPlainLife plan
        → BreaksOff (plain_stage given plan) life → IsLife given fresh_opening plan life }
{}

/// A written schedule makes one life at most, where nothing fails.
pub fn schedules_make_one_life<E>()
    ensures { (stage : Stage E) (life other : Life) → Plays stage life → Plays stage other → life ≡ other }
{}

/// A report of a script's only life, closed, is demanded with status 0.
pub fn closed_life_is_demanded()
    ensures { (script : Script) (opening : Opening) (plan : LifePlan) (life : Life) → script.lives ≡ plan ∷ []
        → IsLife (given_by script plan) opening plan life → life.ending ≡ ending.Closed
        → IsDemanded script opening 0 None (record { plan = plan; opening = opening; life = life } ∷ []) }
{}

/// A report of a script's only life is demanded with the status of refused memory, however the life ended.
pub fn life_before_refused_memory_is_demanded()
    ensures { (script : Script) (opening : Opening) (plan : LifePlan) (life : Life) → script.lives ≡ plan ∷ []
        → IsLife (given_by script plan) opening plan life
        → IsDemanded script opening 9 (Some fault.Memory) (record { plan = plan; opening = opening; life = life } ∷ []) }
{}

/// A report without lives is demanded with any fault but that of the source of fetches, and with the fault's status.
pub fn no_life_is_demanded()
    ensures { (script : Script) (opening : Opening) (why : Fault) → HasCause script [] (Some why)
        → IsDemanded script opening (status_of (Some why)) (Some why) [] }
{}
