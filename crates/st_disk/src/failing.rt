// A disk over another one, with listed calls that fail.

ghost use Rattle.std.specs.Prelude.{◌≡◌, ◌==◌};
ghost use Rattle.std.specs.List.{list_any};

use crate::{CrashDisk, Disk, DiskRefusal, Failed};

/// A disk that hands its calls on to another one, but for the listed ones, which fail.
#[derive(Drop)]
pub struct Failing<D> {
    inner: D,
    fails: Vec<u64>,
    calls: u64,
    faults: u64,
}

impl<D: Disk> Failing<D> {
    ghost use Rattle.std.specs.Prelude.{◌≡◌};
    ghost use Rattle.st_disk.specs.Schedule.{schedule_of, inner_of, fails_next, after_call};

    /// `fails` lists the numbers of the calls that fail, from 1: those of `len`, `read`, `write_at` and `sync` are counted
    /// together.
    pub fn new(inner: D, fails: Vec<u64>) -> Self
        ensures schedule { schedule_of result ≡ record { fails = fails.items; calls = 0; faults = 0 } }
        ensures inner { inner_of result ≡ inner }
    {
        Failing {
            inner,
            fails,
            calls: 0,
            faults: 0,
        }
    }

    /// The disk below.
    pub fn into_inner(self) -> D
        ensures { result ≡ inner_of self }
    {
        let Failing {
            inner,
            fails: _,
            calls: _,
            faults: _,
        } = self;
        inner
    }

    // Counts a call, and says whether it fails.
    fn counts_and_fails(&mut self) -> bool
        ensures fails { result ≡ fails_next (schedule_of self.old) }
        ensures schedule { schedule_of self.new ≡ after_call (schedule_of self.old) }
        ensures inner { inner_of self.new ≡ inner_of self.old }
    {
        let call = self.calls.saturating_add(1);
        let fails = contains(&self.fails, call);
        self.calls = call;
        if fails {
            self.faults = self.faults.saturating_add(1);
        }
        fails
    }
}

impl<D: Disk> Disk for Failing<D> {
    ghost use Rattle.std.specs.Prelude.{◌≡◌, ◌<◌, ◌≤◌, ◌+◌, Err, length, slice_range, IfOk, OnOk, OnErr, IsErr, IsErrOf, IsTrue, IfSome};
    ghost use Rattle.std.specs.Option.{ForSome, option_map};
    ghost use Rattle.st_disk.specs.History.{of_file, seen, after_write, after_sync, counted, IsPartlyWritten};
    ghost use Rattle.st_disk.specs.Cause.{HasCause};
    ghost use Rattle.st_disk.specs.Schedule.{schedule_of, inner_of, fails_next, after_call, failing_faults};

    ghost history = { λ f. D.history f.inner };

    ghost fault_count = { λ f. failing_faults D.fault_count f };

    ghost passes_within = { λ f h is. D.passes_within f.inner h is };

    ghost reads_as_image = { λ f h is. D.reads_as_image f.inner h is };

    fn len(&mut self, file: u8) -> Result<u64, Failed>
        requires { file < 2 }
        ensures length { IfOk result (λ len. IfSome (D.history (inner_of self.old)) (λ h. len ≡ length (of_file file (seen h)))) }
        ensures same { D.history (inner_of self.new) ≡ D.history (inner_of self.old) }
        ensures cause { HasCause (failing_faults D.fault_count self.old) (failing_faults D.fault_count self.new) (IsErr result) }
        ensures no_fault { OnOk result (failing_faults D.fault_count self.new ≡ failing_faults D.fault_count self.old) }
        ensures schedule { schedule_of self.new ≡ after_call (schedule_of self.old) }
        ensures listed { IsTrue (fails_next (schedule_of self.old))
            → IsErr result × (inner_of self.new ≡ inner_of self.old) }
    {
        if self.counts_and_fails() {
            return Err(Failed);
        }
        self.inner.len(file)
    }

    fn read(&mut self, file: u8, at: u64, into: &mut [u8]) -> Result<(), Failed>
        requires file { file < 2 }
        requires inside { ForSome (D.history (inner_of self.old)) (λ h. at + length into.old ≤ length (of_file file (seen h))) }
        ensures bytes { OnOk result (IfSome (D.history (inner_of self.old)) (λ h.
            into.new ≡ slice_range (of_file file (seen h)) at (at + length into.old))) }
        ensures same { D.history (inner_of self.new) ≡ D.history (inner_of self.old) }
        ensures cause { HasCause (failing_faults D.fault_count self.old) (failing_faults D.fault_count self.new) (IsErr result) }
        ensures no_fault { OnOk result (failing_faults D.fault_count self.new ≡ failing_faults D.fault_count self.old) }
        ensures schedule { schedule_of self.new ≡ after_call (schedule_of self.old) }
        ensures listed { IsTrue (fails_next (schedule_of self.old))
            → IsErr result × (inner_of self.new ≡ inner_of self.old) }
    {
        if self.counts_and_fails() {
            return Err(Failed);
        }
        self.inner.read(file, at, into)
    }

    fn write_at(&mut self, file: u8, at: u64, bytes: &[u8]) -> Result<(), DiskRefusal>
        requires file { file < 2 }
        requires begins { ForSome (D.history (inner_of self.old)) (λ h. at ≤ length (of_file file (seen h))) }
        ensures ok { OnOk result (D.history (inner_of self.new)
            ≡ option_map (λ h. counted (after_write file at bytes.now h)) (D.history (inner_of self.old))) }
        ensures failed { IsErrOf result DiskRefusal.Failed
            → IsPartlyWritten file at bytes.now (D.history (inner_of self.old)) (D.history (inner_of self.new)) }
        ensures no_memory { IsErrOf result DiskRefusal.NoMemory → D.history (inner_of self.new) ≡ D.history (inner_of self.old) }
        ensures cause { HasCause (failing_faults D.fault_count self.old) (failing_faults D.fault_count self.new)
            (IsErrOf result DiskRefusal.Failed) }
        ensures no_fault { OnOk result (failing_faults D.fault_count self.new ≡ failing_faults D.fault_count self.old) }
        ensures schedule { schedule_of self.new ≡ after_call (schedule_of self.old) }
        ensures listed { IsTrue (fails_next (schedule_of self.old))
            → (result ≡ Err DiskRefusal.Failed) × (inner_of self.new ≡ inner_of self.old) }
    {
        if self.counts_and_fails() {
            return Err(DiskRefusal::Failed);
        }
        self.inner.write_at(file, at, bytes)
    }

    fn sync(&mut self, file: u8) -> Result<(), Failed>
        requires { file < 2 }
        ensures ok { OnOk result (D.history (inner_of self.new)
            ≡ option_map (λ h. counted (after_sync file h)) (D.history (inner_of self.old))) }
        ensures err { OnErr result (D.history (inner_of self.new) ≡ D.history (inner_of self.old)) }
        ensures cause { HasCause (failing_faults D.fault_count self.old) (failing_faults D.fault_count self.new) (IsErr result) }
        ensures no_fault { OnOk result (failing_faults D.fault_count self.new ≡ failing_faults D.fault_count self.old) }
        ensures schedule { schedule_of self.new ≡ after_call (schedule_of self.old) }
        ensures listed { IsTrue (fails_next (schedule_of self.old))
            → IsErr result × (inner_of self.new ≡ inner_of self.old) }
    {
        if self.counts_and_fails() {
            return Err(Failed);
        }
        self.inner.sync(file)
    }

    /// The faults of the disk below and those that were made, together.
    fn faults(&self) -> u64 {
        self.inner.faults().saturating_add(self.faults)
    }
}

impl<D: CrashDisk> CrashDisk for Failing<D> {
    ghost use Rattle.std.specs.Prelude.{◌≡◌, OnOk, OnErr, IsErrOf};
    ghost use Rattle.std.specs.Option.{option_map};
    ghost use Rattle.st_disk.specs.History.{fresh};
    ghost use Rattle.st_disk.specs.Left.{left};
    ghost use Rattle.st_disk.specs.Cause.{HasCause};
    ghost use Rattle.st_disk.specs.Schedule.{schedule_of, inner_of, failing_faults};

    ghost leaves_an_image = { λ f h choice is. D.leaves_an_image f.inner h choice is };

    /// That of the disk below. It isn't counted.
    fn restart(&mut self, choice: u64) -> Result<(), DiskRefusal>
        ensures ok { OnOk result (D.history (inner_of self.new)
            ≡ option_map (λ h. fresh (left choice h.now)) (D.history (inner_of self.old))) }
        ensures err { OnErr result (D.history (inner_of self.new) ≡ D.history (inner_of self.old)) }
        ensures cause { HasCause (failing_faults D.fault_count self.old) (failing_faults D.fault_count self.new)
            (IsErrOf result DiskRefusal.Failed) }
        ensures no_fault { OnOk result (failing_faults D.fault_count self.new ≡ failing_faults D.fault_count self.old) }
        ensures schedule { schedule_of self.new ≡ schedule_of self.old }
    {
        self.inner.restart(choice)
    }
}

fn contains(numbers: &[u64], call: u64) -> bool
    ensures { result ≡ list_any (λ number. number == call) numbers.now }
{
    numbers.iter().any(|number| *number == call)
}
