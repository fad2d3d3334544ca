//! Laws that what a schedule makes comes to an end.
ghost use Rattle.std.specs.Prelude.{◌≡◌, ◌<◌, ◌≤◌, ℕ, List, None, IsTrue};
ghost use Rattle.st_fold.specs.declared.report.Life.{Life};
ghost use Rattle.st_model.specs.Report.{requests_of};
ghost use Rattle.st_model.specs.Schedule.{AreNumbered, ArePatient, Plays, Progress, Session, Stage, begin, do_poll, has_open, next, poll_first, polls_left, walk};
ghost use Rattle.st_model.specs.State.{Given, State};

/// A poll of a reader that has an open request leaves fewer polls to make, and no session that is polled too often.
pub fn polls_come_to_an_end<E>()
    ensures fewer { (given : Given) (reader place : ℕ) (state : State) (sessions : List Session)
        → ArePatient given.settings.patience state.watches sessions → IsTrue (has_open reader sessions)
        → polls_left given.settings.patience (poll_first given reader place state sessions)
        < polls_left given.settings.patience sessions }
    ensures kept { (stage : Stage E) (progress : Progress E) (reader : ℕ)
        → ArePatient stage.given.settings.patience progress.state.watches progress.sessions
        → IsTrue (has_open reader progress.sessions)
        → ArePatient stage.given.settings.patience (do_poll stage progress reader).state.watches
        (do_poll stage progress reader).sessions }
{}

/// A life that follows its schedule, whatever its log and its opening, is over after some number of steps, where requests
/// are polled at least once, blocks have rows, and requests have numbers of their own.
pub fn schedules_come_to_an_end<E>()
    ensures { (stage : Stage E) → 1 ≤ stage.given.settings.patience → 1 ≤ stage.given.settings.block
        → AreNumbered (requests_of stage.plan) → (steps : ℕ) × (next stage (walk stage steps (begin stage)) ≡ None) }
{}

/// So such a schedule makes a life.
pub fn schedules_make_a_life<E>()
    ensures { (stage : Stage E) → 1 ≤ stage.given.settings.patience → 1 ≤ stage.given.settings.block
        → AreNumbered (requests_of stage.plan) → (life : Life) × Plays stage life }
{}
