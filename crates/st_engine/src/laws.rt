//! Laws of the definitions, each the contract of a function that does nothing.
ghost use Rattle.std.specs.Prelude.{◌≡◌, ◌≤◌, ℕ, Bool, List, Option, IfOk, IfErr, IsTrue, length};
ghost use Rattle.std.specs.Cmp.Lexicographic.{slice_cmp};
ghost use Rattle.std.specs.FinMap.Entries.{is_sorted};
ghost use Rattle.std.specs.Ordering.{nat_cmp};
ghost use Rattle.st_disk.specs.History.{Files, of_file};
ghost use Rattle.st_fold.specs.Map.{Map, value_at};
ghost use Rattle.st_ops.specs.declared.op.Op.{Op};
ghost use Rattle.st_engine.specs.Behind.{value_behind};
ghost use Rattle.st_engine.specs.Commit.{commit_calls, commit_of, count_of};
ghost use Rattle.st_engine.specs.Holding.{MountsTo};
ghost use Rattle.st_engine.specs.Replay.{ops_on};
ghost use Rattle.st_engine.specs.Store.{Bounds, Kept};
ghost use Rattle.st_queue.specs.Place.{is_unshut, next_file};
ghost use Rattle.st_queue.specs.declared.place.Place.{Place};

/// In the map behind operations each key has what they make of the value that it had before.
pub fn operations_change_each_key()
    ensures { (pairs : Map) (ops : List Op) (key : List ℕ)
        → value_at (ops_on pairs ops) key ≡ value_behind key (value_at pairs key) ops }
{}

/// A commit makes four to ten calls, exactly by whether a next file is due, and whether that is to be shut first. One that is
/// refused for what is past its bound makes at most six.
pub fn commits_make_four_to_ten_calls()
    ensures exact { (due : Bool) (place : Option Place) (payload : List ℕ) (files : Files)
        → length (commit_calls due place payload files) ≡ count_of due (is_unshut (of_file (next_file place) files)) }
    ensures done { (bounds : Bounds) (kept : Kept) (ops : List Op)
        → IfOk (commit_of bounds kept ops) (λ done. (4 ≤ length done.calls) × (length done.calls ≤ 10)) }
    ensures refused { (bounds : Bounds) (kept : Kept) (ops : List Op)
        → IfErr (commit_of bounds kept ops) (λ refused. length refused.calls ≤ 6) }
{}

/// What files mount to is in the order of its keys.
pub fn mounted_maps_are_in_order()
    ensures { (pairs : Map) (files : Files) → MountsTo pairs files → IsTrue (is_sorted (slice_cmp nat_cmp) pairs) }
{}
