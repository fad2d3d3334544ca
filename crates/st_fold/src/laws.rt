//! Laws of the definitions, each the contract of a function that does nothing.
ghost use Rattle.std.specs.Prelude.{◌≡◌, ℕ, List, None, IsTrue, fold};
ghost use Rattle.std.specs.Cmp.Lexicographic.{slice_cmp};
ghost use Rattle.std.specs.FinMap.Entries.{is_sorted};
ghost use Rattle.std.specs.Ordering.{nat_cmp};
ghost use Rattle.st_mutation.specs.declared.batch.Batch.{Batch};
ghost use Rattle.st_mutation.specs.declared.batch.Mutation.{Mutation};
ghost use Rattle.st_mutation.specs.Effect.{value_by, value_by_batch};
ghost use Rattle.st_fold.specs.Map.{Map, apply, apply_batch, batches_to, folded, value_at};

/// A mutation, the mutations of a batch, and the batches of a log up to a version make of the value of each key what they
/// make of it by itself.
pub fn keys_change_by_themselves()
    ensures mutation { (pairs : Map) (mutation : Mutation) (key : List ℕ)
        → value_at (apply pairs mutation) key ≡ value_by key (value_at pairs key) mutation }
    ensures batch { (pairs : Map) (batch : Batch) (key : List ℕ)
        → value_at (apply_batch pairs batch) key ≡ value_by_batch key (value_at pairs key) batch }
    ensures log { (log : List Batch) (version : ℕ) (key : List ℕ)
        → value_at (folded log version) key ≡ fold (value_by_batch key) None (batches_to version log) }
{}

/// What folding a log gives is in the order of its keys.
pub fn folds_are_in_order()
    ensures { (log : List Batch) (version : ℕ) → IsTrue (is_sorted (slice_cmp nat_cmp) (folded log version)) }
{}
