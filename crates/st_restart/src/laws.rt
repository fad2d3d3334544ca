//! Laws of the definitions, each the contract of a function that does nothing.
ghost use Rattle.std.specs.Prelude.{◌≡◌, ℕ, true, false, List, IsTrue};
ghost use Rattle.std.specs.List.{list_all};
ghost use Rattle.std.specs.Result.{result_map_both};
ghost use Rattle.st_disk.specs.History.{Files};
ghost use Rattle.st_engine.specs.Holding.{MountsTo, is_none_read};
ghost use Rattle.st_fold.specs.Plain.{Rises};
ghost use Rattle.st_fold.specs.Map.{Map};
ghost use Rattle.st_fold.specs.declared.report.Damage.TheVariants.{Meta};
ghost use Rattle.st_key.specs.Spans.{Span, all_keys, holds, within};
ghost use Rattle.st_meta.specs.Stored.{is_range};
ghost use Rattle.st_model.specs.State.{Given, Opening};
ghost use Rattle.st_mutation.specs.declared.batch.Batch.{Batch};
ghost use Rattle.st_queue.specs.Writing.{frames_of};
ghost use Rattle.st_restart.specs.After.{IsStoreOf, OpenTo};
ghost use Rattle.st_restart.specs.Agreement.{Agrees};
ghost use Rattle.st_restart.specs.Opened.{opened, opened_as, opened_fresh};

use st_engine::mounted_maps_are_in_order;
use st_fold::folds_are_in_order;
use st_meta::stored_is_read;

/// Files that mount to a map open as a store with that map.
pub fn files_open_as_they_mount()
    ensures { (own : List Span) (pairs : Map) (files : Files) → MountsTo pairs files
        → opened own files ≡ result_map_both (λ opened. opened) Meta (opened_as own (is_none_read (frames_of files)) pairs) }
{}

/// A store without a frame is that of a log before it begins. Files without one open to what the server owns then. Files that
/// mount to the map of an opening open to that opening.
pub fn stores_open()
    ensures fresh { (own : List Span) (log : List Batch) → Rises 0 log → Agrees own log (opened_fresh own) }
    ensures untouched { (given : Given) (opening : Opening) (pairs : Map) (files : Files) → Rises 0 given.log → MountsTo pairs files
        → is_none_read (frames_of files) ≡ true → opening ≡ record { version = 0; available = given.own }
        → OpenTo given (λ one. one ≡ opening) files }
    ensures written { (given : Given) (opening : Opening) (pairs : Map) (files : Files) → MountsTo pairs files
        → is_none_read (frames_of files) ≡ false → IsStoreOf given opening pairs
        → OpenTo given (λ one. one ≡ opening) files }
{
    stored_is_read();
    mounted_maps_are_in_order();
    folds_are_in_order();
}

/// The keys of ranges that a stored state may have are keys of users.
pub fn stored_ranges_are_of_users()
    ensures { (spans : List Span) (key : List ℕ) → IsTrue (list_all is_range spans) → holds spans key ≡ true
        → within all_keys key ≡ true }
{}
