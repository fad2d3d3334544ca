//! A disk of which it stays known how it was handed in.
ghost use Rattle.std.specs.Prelude.{◌≡◌, ◌≤◌, is_some};

use st_disk::{CrashDisk, Disk, DiskRefusal, Failed};
use std::marker::{Brand, PhantomData};

/// How a disk was handed in: how many faults it had counted, and whether it told its history. It is known to contracts alone.
pub(crate) trait HandedIn {
    ghost use Rattle.std.specs.Prelude.{Bool, ℕ};

    ghost least: { ℕ };

    ghost told: { Bool };
}

impl HandedIn for Brand {
    ghost use Rattle.std.specs.Prelude.{false};

    ghost least = { 0 };

    ghost told = { false };
}

/// A disk that counts no fewer faults than when it was handed in, and tells its history if it did so then. A type keeps this
/// where a disk comes back from code that says nothing of it.
#[derive(Drop)]
pub(crate) struct Counted<C: HandedIn, D: Disk> {
    disk: D,
    handed_in: PhantomData<C>,
    ghost counts: { C.least ≤ D.fault_count disk },
    ghost tells: { is_some (D.history disk) ≡ C.told },
}

impl<C: HandedIn, D: Disk> Counted<C, D> {
    ghost use Rattle.std.specs.Prelude.{◌≡◌, is_some};

    /// A disk that was just handed in.
    pub(crate) fn new(disk: D) -> Counted<C, D>
        requires least { C.least ≡ D.fault_count disk }
        requires told { C.told ≡ is_some (D.history disk) }
        ensures { result.disk ≡ disk }
    {
        Counted {
            disk,
            handed_in: PhantomData,
        }
    }

    /// The disk.
    pub(crate) fn into_inner(self) -> D
        ensures { result ≡ self.disk }
    {
        let Counted { disk, handed_in: _ } = self;
        disk
    }
}

impl<C: HandedIn, D: Disk> Disk for Counted<C, D> {
    ghost use Rattle.std.specs.Prelude.{◌≡◌, ◌<◌, ◌≤◌, ◌+◌, length, slice_range, IfOk, OnOk, OnErr, IsErr, IsErrOf, IfSome};
    ghost use Rattle.std.specs.Option.{ForSome, option_map};
    ghost use Rattle.st_disk.specs.History.{of_file, seen, after_write, after_sync, counted, IsPartlyWritten};
    ghost use Rattle.st_disk.specs.Cause.{HasCause};

    ghost history = { λ c. D.history c.disk };

    ghost fault_count = { λ c. D.fault_count c.disk };

    ghost passes_within = { λ c. D.passes_within c.disk };

    ghost reads_as_image = { λ c. D.reads_as_image c.disk };

    fn len(&mut self, file: u8) -> Result<u64, Failed>
        requires { file < 2 }
        ensures length { IfOk result (λ len. IfSome (D.history self.old.disk) (λ h. len ≡ length (of_file file (seen h)))) }
        ensures same { D.history self.new.disk ≡ D.history self.old.disk }
        ensures cause { HasCause (D.fault_count self.old.disk) (D.fault_count self.new.disk) (IsErr result) }
        ensures no_fault { OnOk result (D.fault_count self.new.disk ≡ D.fault_count self.old.disk) }
    {
        self.disk.len(file)
    }

    fn read(&mut self, file: u8, at: u64, into: &mut [u8]) -> Result<(), Failed>
        requires file { file < 2 }
        requires inside { ForSome (D.history self.old.disk) (λ h. at + length into.old ≤ length (of_file file (seen h))) }
        ensures bytes { OnOk result (IfSome (D.history self.old.disk) (λ h.
            into.new ≡ slice_range (of_file file (seen h)) at (at + length into.old))) }
        ensures same { D.history self.new.disk ≡ D.history self.old.disk }
        ensures cause { HasCause (D.fault_count self.old.disk) (D.fault_count self.new.disk) (IsErr result) }
        ensures no_fault { OnOk result (D.fault_count self.new.disk ≡ D.fault_count self.old.disk) }
    {
        self.disk.read(file, at, into)
    }

    fn write_at(&mut self, file: u8, at: u64, bytes: &[u8]) -> Result<(), DiskRefusal>
        requires file { file < 2 }
        requires begins { ForSome (D.history self.old.disk) (λ h. at ≤ length (of_file file (seen h))) }
        ensures ok { OnOk result (D.history self.new.disk
            ≡ option_map (λ h. counted (after_write file at bytes.now h)) (D.history self.old.disk)) }
        ensures failed { IsErrOf result DiskRefusal.Failed
            → IsPartlyWritten file at bytes.now (D.history self.old.disk) (D.history self.new.disk) }
        ensures no_memory { IsErrOf result DiskRefusal.NoMemory → D.history self.new.disk ≡ D.history self.old.disk }
        ensures cause { HasCause (D.fault_count self.old.disk) (D.fault_count self.new.disk)
            (IsErrOf result DiskRefusal.Failed) }
        ensures no_fault { OnOk result (D.fault_count self.new.disk ≡ D.fault_count self.old.disk) }
    {
        self.disk.write_at(file, at, bytes)
    }

    fn sync(&mut self, file: u8) -> Result<(), Failed>
        requires { file < 2 }
        ensures ok { OnOk result (D.history self.new.disk
            ≡ option_map (λ h. counted (after_sync file h)) (D.history self.old.disk)) }
        ensures err { OnErr result (D.history self.new.disk ≡ D.history self.old.disk) }
        ensures cause { HasCause (D.fault_count self.old.disk) (D.fault_count self.new.disk) (IsErr result) }
        ensures no_fault { OnOk result (D.fault_count self.new.disk ≡ D.fault_count self.old.disk) }
    {
        self.disk.sync(file)
    }

    fn faults(&self) -> u64
        ensures { result ≡ D.fault_count self.now.disk }
    {
        self.disk.faults()
    }
}

impl<C: HandedIn, D: CrashDisk> CrashDisk for Counted<C, D> {
    ghost use Rattle.std.specs.Prelude.{◌≡◌, OnOk, OnErr, IsErrOf};
    ghost use Rattle.std.specs.Option.{option_map};
    ghost use Rattle.st_disk.specs.History.{fresh};
    ghost use Rattle.st_disk.specs.Left.{left};
    ghost use Rattle.st_disk.specs.Cause.{HasCause};

    ghost leaves_an_image = { λ c. D.leaves_an_image c.disk };

    fn restart(&mut self, choice: u64) -> Result<(), DiskRefusal>
        ensures ok { OnOk result (D.history self.new.disk
            ≡ option_map (λ h. fresh (left choice h.now)) (D.history self.old.disk)) }
        ensures err { OnErr result (D.history self.new.disk ≡ D.history self.old.disk) }
        ensures cause { HasCause (D.fault_count self.old.disk) (D.fault_count self.new.disk)
            (IsErrOf result DiskRefusal.Failed) }
        ensures no_fault { OnOk result (D.fault_count self.new.disk ≡ D.fault_count self.old.disk) }
    {
        self.disk.restart(choice)
    }
}
