// Laws of the disk model. Each function does nothing: its contract is the law.
ghost use Rattle.std.specs.Prelude.{◌≡◌, ◌<◌, ◌≤◌, ◌+◌, ◌^◌, ◌++◌, ℕ, List, length, false, slice_index, slice_index_or};
ghost use Rattle.st_disk.specs.FileState.{IsImage, settled, with_bytes};
ghost use Rattle.st_disk.specs.History.{History, Files, fresh, of_file, seen, after_write, after_sync, MayLeave};
ghost use Rattle.st_disk.specs.Images.{IsTorn};
ghost use Rattle.st_disk.specs.Moments.{GoesOn};
ghost use Rattle.st_disk.specs.Left.{left};
ghost use Rattle.st_disk.specs.Recorded.{Call, Recorded, after_calls, history_of};
ghost use Rattle.st_disk.specs.Calls.{made, StoppedIn};

/// What a disk reads as is one of its images, after any calls.
pub fn reads_as_an_image()
    ensures { (start : Files) (calls : List Call) → let h = after_calls calls (fresh start) in MayLeave h (seen h) }
{}

/// What a restart leaves is one of the disk's images, after any calls and for every choice.
pub fn restarts_as_an_image()
    ensures { (start : Files) (calls : List Call) (choice : ℕ) →
        let h = after_calls calls (fresh start) in MayLeave h (left choice h.now) }
{}

/// After a sync of a file, its one image is what it reads as.
pub fn a_synced_file_has_one_image()
    ensures { (file : ℕ) (h : History) (images : Files) → MayLeave (after_sync file h) images
        → of_file file images ≡ of_file file (seen h) }
{}

/// A crash leaves the bytes that weren't written since the last sync of their file.
pub fn unwritten_bytes_stay()
    ensures { (file place : ℕ) (h : History) (images : Files) → MayLeave h images → place < length (of_file file images)
        → slice_index_or (of_file file h.now).written place false ≡ false
        → slice_index (of_file file images) place ≡ slice_index (of_file file h.now).synced place }
{}

/// A crash after one write to a synced file leaves what stood before and behind its range.
pub fn a_write_tears_in_its_range()
    ensures { (at : ℕ) (bytes old image : List ℕ) → at ≤ length old → IsImage (with_bytes at bytes (settled old)) image
        → IsTorn at (length bytes) old image }
{}

/// A crash since an earlier moment leaves what it might have left before a write, or what it may leave now.
pub fn a_write_goes_on()
    ensures { (file at : ℕ) (bytes : List ℕ) (h : History) → GoesOn h (after_write file at bytes h) }
{}

/// A crash since an earlier moment leaves what it might have left before a sync, or what it may leave now.
pub fn a_sync_goes_on()
    ensures { (file : ℕ) (h : History) → GoesOn h (after_sync file h) }
{}

/// The history behind some calls and then others is that behind all of them.
pub fn calls_join()
    ensures { (first second : List Call) (h : History) → made (first ++ second) h ≡ made second (made first h) }
{}

/// A list of calls that was cut short in one of its two parts was cut short.
pub fn calls_stop()
    ensures first { (first second : List Call) (old new : History) → StoppedIn first old new → StoppedIn (first ++ second) old new }
    ensures second { (first second : List Call) (old new : History) → StoppedIn second (made first old) new
        → StoppedIn (first ++ second) old new }
{}

/// The calls that were carried out are counted, and leave how many the disk lets through.
pub fn calls_are_counted()
    ensures made { (calls : List Call) (h : History) → h.made + length calls < 2 ^ 64
        → (made calls h).made ≡ h.made + length calls }
    ensures passes { (calls : List Call) (h : History) → (made calls h).passes ≡ h.passes }
    ensures stopped { (calls : List Call) (old new : History) (stopped : StoppedIn calls old new)
        → old.made + length calls < 2 ^ 64
        → (length stopped.carried < length calls) × (new.made ≡ old.made + length stopped.carried) }
    ensures stopped_passes { (calls : List Call) (old new : History) → StoppedIn calls old new → new.passes ≡ old.passes }
{}

/// Where no write was done in part, calls that were cut short leave what those leave that were carried out. A disk in memory
/// does none in part.
pub fn calls_are_whole()
    ensures made { (calls : List Call) (h : History) → (made calls h).in_part ≡ h.in_part }
    ensures stopped { (calls : List Call) (old new : History) (stopped : StoppedIn calls old new) → new.in_part ≡ old.in_part
        → new ≡ made stopped.carried old }
    ensures memory { (m : Recorded) → (history_of m).in_part ≡ 0 }
{}
