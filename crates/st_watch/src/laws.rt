//! Laws of the definitions, each the contract of a function that does nothing.
ghost use Rattle.std.specs.Prelude.{◌≡◌, ◌≤◌, ◌<◌, ℕ, nat_lt, true, List, Some, IsTrue};
ghost use Rattle.std.specs.List.{find};
ghost use Rattle.st_key.specs.Spans.{holds};
ghost use Rattle.st_mutation.specs.declared.batch.Batch.{Batch};
ghost use Rattle.st_fold.specs.Map.{batches_to, folded, value_at};
ghost use Rattle.st_fold.specs.Plain.{Rises};
ghost use Rattle.st_model.specs.declared.watch.WatchState.TheVariants.{Waiting as waiting};
ghost use Rattle.st_model.specs.State.{Watch, released_in};
ghost use Rattle.st_model.specs.Watching.{same_value, watch_state};
ghost use Rattle.st_watch.specs.Course.{IsNext, after_version, next_state, standing_at};
ghost use Rattle.st_watch.specs.Watches.{new_watch};

/// A watch stands at the version of its registration as a new watch does.
pub fn new_watches_stand()
    ensures { (log : List Batch) (watch : Watch)
        → standing_at log watch watch.since
        ≡ new_watch watch.key watch.value (value_at (folded log watch.since) watch.key) watch.since }
{}

/// The next batch moves a watch on: first each span that it takes away, and then the value that it leaves the key.
pub fn batches_move_watches_on()
    ensures steps { (log : List Batch) (watch : Watch) (newest : ℕ) (batch : Batch) → watch.since ≤ newest → IsNext log newest batch
        → standing_at log watch batch.version
        ≡ after_version (released_in batch) (value_at (folded log batch.version) watch.key) batch.version
        (standing_at log watch newest) }
    ensures states { (log : List Batch) (watch : Watch) (newest : ℕ) (batch : Batch) → watch.since ≤ newest → IsNext log newest batch
        → watch_state log watch batch.version
        ≡ next_state (watch_state log watch newest) (holds (released_in batch) watch.key)
        (same_value (value_at (folded log batch.version) watch.key) watch.value) batch.version }
{}

/// In a log whose versions rise the first batch above a version is the next one behind it, also of the batches up to a
/// bound.
pub fn first_above_is_next()
    ensures first { (low : ℕ) (log : List Batch) (newest : ℕ) (batch : Batch) → Rises low log
        → find (λ next. nat_lt newest next.version) log ≡ Some batch → IsNext log newest batch }
    ensures bounded { (low : ℕ) (log : List Batch) (upto newest : ℕ) (batch : Batch) → Rises low log
        → find (λ next. nat_lt newest next.version) (batches_to upto log) ≡ Some batch → IsNext log newest batch }
{}

/// Where a watch waits, its key has its value. So it need not be told of a version that leaves the key its value.
pub fn waiting_keeps_its_value()
    ensures { (low : ℕ) (log : List Batch) (watch : Watch) (newest : ℕ) → Rises low log → watch.since ≤ newest
        → watch_state log watch newest ≡ waiting
        → IsTrue (same_value (value_at (folded log newest) watch.key) watch.value) }
{}
