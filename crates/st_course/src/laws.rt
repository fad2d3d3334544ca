//! A law of the definitions, the contract of a function that does nothing.
ghost use Rattle.std.specs.Prelude.{◌≡◌, ◌∷◌, ◌++◌, [], Bool, List, Some};
ghost use Rattle.std.specs.Option.{option_map};
ghost use Rattle.st_fold.specs.declared.report.Event.{Event};
ghost use Rattle.st_model.specs.State.{Given, Opening, State, step};
ghost use Rattle.st_model.specs.Trace.{state_after};
ghost use Rattle.st_course.specs.Course.{Course, behind, course_of};

/// Each legal trace has a course, which leads to the trace's state, and goes on event by event. It has a job in flight exactly where
/// its state has a commit, and of the same version.
pub fn course_goes_on()
    ensures state { (given : Given) (opening : Opening) (fresh : Bool) (trace : List Event) (state : State)
        → state_after given opening trace ≡ Some state
        → option_map (λ course. course.state) (course_of given opening fresh trace) ≡ Some state }
    ensures behind { (given : Given) (opening : Opening) (fresh : Bool) (trace : List Event) (state next : State) (event : Event) (course : Course)
        → state_after given opening trace ≡ Some state → course_of given opening fresh trace ≡ Some course
        → step given state event ≡ Some next
        → course_of given opening fresh (trace ++ event ∷ []) ≡ Some (behind given course event next) }
    ensures flown { (given : Given) (opening : Opening) (fresh : Bool) (trace : List Event) (course : Course)
        → course_of given opening fresh trace ≡ Some course
        → option_map (λ job. job.version) course.job ≡ option_map (λ flight. flight.version) course.state.flight }
{}
