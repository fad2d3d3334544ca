// The disk as code above sees it.
ghost use Rattle.std.specs.Prelude.{◌≡◌, ◌<◌, ◌≤◌, ◌+◌, ℕ, Option, List, length, slice_range, IfOk, OnOk, OnErr, IsErr, IsErrOf, IfSome, Some};
ghost use Rattle.std.specs.Option.{ForSome, option_map};
ghost use Rattle.st_disk.specs.History.{History, Files, MayLeave, of_file, seen, after_write, after_sync, counted, fresh, IsPartlyWritten};
ghost use Rattle.st_disk.specs.Left.{left};
ghost use Rattle.st_disk.specs.Cause.{HasCause};
ghost use Rattle.st_disk.specs.declared.disk.DiskRefusal.TheVariants.{NoMemory};

use std::alloc::{AllocError, AllocFailed};

/// A call failed in the disk, which counts its faults.
#[derive(Clone, Copy, Debug, PartialEq, Eq)]
pub struct Failed;

/// Why a write or a restart was not carried out.
#[derive(Clone, Copy, Debug, PartialEq, Eq)]
pub enum DiskRefusal {
    /// The disk failed. A write may be done in part.
    Failed,
    /// Want of memory, with nothing done.
    NoMemory,
}

impl From<AllocError> for DiskRefusal {
    ghost from_gives = { λ _ refusal. refusal ≡ NoMemory };

    fn from(_: AllocError) -> Self {
        DiskRefusal::NoMemory
    }
}

/// A disk of the files 0 and 1.
pub trait Disk {
    /// What was written and synced so far. A real disk can't tell, and then nothing is said of content.
    ghost history: { Self → Option History };

    /// How often the disk has failed. A call that succeeds leaves it.
    ghost fault_count: { Self → ℕ };

    /// The length of a file, in bytes.
    fn len(&mut self, file: u8) -> Result<u64, Failed>
        requires { file < 2 }
        ensures length { IfOk result (λ len. IfSome (history self.old) (λ h. len ≡ length (of_file file (seen h)))) }
        ensures same { history self.new ≡ history self.old }
        ensures cause { HasCause (fault_count self.old) (fault_count self.new) (IsErr result) }
        ensures no_fault { OnOk result (fault_count self.new ≡ fault_count self.old) };

    /// Fills `into` with the bytes from `at`. Where the disk tells its length, they lie inside the file.
    fn read(&mut self, file: u8, at: u64, into: &mut [u8]) -> Result<(), Failed>
        requires file { file < 2 }
        requires inside { ForSome (history self.old) (λ h. at + length into.old ≤ length (of_file file (seen h))) }
        ensures bytes { OnOk result (IfSome (history self.old) (λ h.
            into.new ≡ slice_range (of_file file (seen h)) at (at + length into.old))) }
        ensures same { history self.new ≡ history self.old }
        ensures cause { HasCause (fault_count self.old) (fault_count self.new) (IsErr result) }
        ensures no_fault { OnOk result (fault_count self.new ≡ fault_count self.old) };

    /// Writes over what is there, and past the end. Where the disk tells its length, the write begins at or before it.
    /// Until a sync of the file, a crash may leave any bytes in the range.
    fn write_at(&mut self, file: u8, at: u64, bytes: &[u8]) -> Result<(), DiskRefusal>
        requires file { file < 2 }
        requires begins { ForSome (history self.old) (λ h. at ≤ length (of_file file (seen h))) }
        ensures ok { OnOk result (history self.new
            ≡ option_map (λ h. counted (after_write file at bytes.now h)) (history self.old)) }
        ensures failed { IsErrOf result DiskRefusal.Failed
            → IsPartlyWritten file at bytes.now (history self.old) (history self.new) }
        ensures no_memory { IsErrOf result DiskRefusal.NoMemory → history self.new ≡ history self.old }
        ensures cause { HasCause (fault_count self.old) (fault_count self.new) (IsErrOf result DiskRefusal.Failed) }
        ensures no_fault { OnOk result (fault_count self.new ≡ fault_count self.old) };

    /// After it, a crash leaves the file as it reads.
    fn sync(&mut self, file: u8) -> Result<(), Failed>
        requires { file < 2 }
        ensures ok { OnOk result (history self.new ≡ option_map (λ h. counted (after_sync file h)) (history self.old)) }
        ensures err { OnErr result (history self.new ≡ history self.old) }
        ensures cause { HasCause (fault_count self.old) (fault_count self.new) (IsErr result) }
        ensures no_fault { OnOk result (fault_count self.new ≡ fault_count self.old) };

    /// How often the disk has failed so far.
    fn faults(&self) -> u64
        ensures { result ≡ fault_count self.now };

    /// No more calls of `write_at` and `sync` were carried out than the disk lets through.
    ghost passes_within: { (disk : Self) (h : History) → history disk ≡ Some h → ForSome h.passes (λ n. h.made ≤ n) };

    /// What the disk reads as is one of its images.
    ghost reads_as_image: { (disk : Self) (h : History) → history disk ≡ Some h → MayLeave h (seen h) };
}

/// A disk that can be brought to what a crash left.
pub trait CrashDisk: Disk {
    /// The files then read as one of the images that a crash now may leave, by `choice`, with nothing unsynced: 0 is what
    /// was synced, 1 what they read as, and any other tears the bytes that weren't synced.
    fn restart(&mut self, choice: u64) -> Result<(), DiskRefusal>
        ensures ok { OnOk result (Self.history self.new
            ≡ option_map (λ h. fresh (left choice h.now)) (Self.history self.old)) }
        ensures err { OnErr result (Self.history self.new ≡ Self.history self.old) }
        ensures cause { HasCause (Self.fault_count self.old) (Self.fault_count self.new)
            (IsErrOf result DiskRefusal.Failed) }
        ensures no_fault { OnOk result (Self.fault_count self.new ≡ Self.fault_count self.old) };

    /// What a restart leaves is one of the disk's images.
    ghost leaves_an_image: { (disk : Self) (h : History) (choice : ℕ) → Self.history disk ≡ Some h
        → MayLeave h (left choice h.now) };
}
