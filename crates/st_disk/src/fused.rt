// A disk over another one, which stops after some calls.
ghost use Rattle.std.specs.Prelude.{◌≡◌, ◌≤◌, true, false};
ghost use Rattle.std.specs.Option.{ForSome};
ghost use Rattle.st_disk.specs.Spent.{is_spent};

use crate::{Disk, DiskRefusal, Failed};

/// A disk that lets some calls of `write_at` and `sync` pass to another one. The next such call blows it: that call and
/// each later one of `len`, `read`, `write_at` and `sync` fails. A call that the disk below refuses hasn't passed.
#[derive(Drop)]
pub struct Fused<D> {
    inner: D,
    passes: Option<u64>,
    passed: u64,
    is_blown: bool,
    faults: u64,
    ghost spent: { is_blown ≡ true → is_spent passes passed ≡ true },
    ghost whole: { is_blown ≡ false → faults ≡ 0 },
    ghost within: { ForSome passes (λ n. passed ≤ n) },
}

impl<D: Disk> Fused<D> {
    ghost use Rattle.std.specs.Prelude.{◌≡◌, false, Some, IsTrue};
    ghost use Rattle.std.specs.Bool.{OnFalse};
    ghost use Rattle.st_disk.specs.Fuse.{fuse_of, inner_of, stops, blown, fused_history};

    /// With `passes` None the fuse never blows.
    pub fn new(inner: D, passes: Option<u64>) -> Self
        ensures fuse { fuse_of result ≡ record { passes = passes; passed = 0; is_blown = false; faults = 0 } }
        ensures inner { inner_of result ≡ inner }
    {
        Fused {
            inner,
            passes,
            passed: 0,
            is_blown: false,
            faults: 0,
        }
    }

    /// Whether a call of `write_at` or `sync` came after `passes` such calls had passed. So many calls have passed then, no
    /// more and no fewer. Before it no fault is the fuse's.
    pub fn blown(&self) -> bool
        ensures blown { result ≡ (fuse_of self.now).is_blown }
        ensures spent { IsTrue result → (fuse_of self.now).passes ≡ Some (fuse_of self.now).passed }
        ensures told { IsTrue result → ForSome (fused_history D.history self.now) (λ h. h.passes ≡ Some h.made) }
        ensures whole { OnFalse result ((fuse_of self.now).faults ≡ 0) }
    {
        self.is_blown
    }

    /// The disk below.
    pub fn into_inner(self) -> D
        ensures { result ≡ inner_of self }
    {
        let Fused {
            inner,
            passes: _,
            passed: _,
            is_blown: _,
            faults: _,
        } = self;
        inner
    }

    fn stops(&self) -> bool
        ensures { result ≡ stops (fuse_of self.now) }
    {
        self.is_blown || is_spent(self.passes, self.passed)
    }

    fn blow(&mut self)
        requires { IsTrue (stops (fuse_of self.old)) }
        ensures fuse { fuse_of self.new ≡ blown (fuse_of self.old) }
        ensures inner { inner_of self.new ≡ inner_of self.old }
    {
        self.is_blown = true;
        self.faults = self.faults.saturating_add(1);
    }
}

fn is_spent(passes: Option<u64>, passed: u64) -> bool
    ensures { result ≡ is_spent passes passed }
{
    match passes {
        Some(passes) => passed == passes,
        None => false,
    }
}

impl<D: Disk> Disk for Fused<D> {
    ghost use Rattle.std.specs.Prelude.{◌≡◌, ◌<◌, ◌≤◌, ◌+◌, Err, false, length, slice_range, is_ok, IfOk, OnOk, OnErr, IsErr, IsErrOf, IsTrue, IfSome};
    ghost use Rattle.std.specs.Option.{ForSome, option_map};
    ghost use Rattle.st_disk.specs.History.{of_file, seen, after_write, after_sync, counted, IsPartlyWritten};
    ghost use Rattle.st_disk.specs.Cause.{HasCause};
    ghost use Rattle.st_disk.specs.Fuse.{fuse_of, inner_of, stops, after_change, after_look, fused_faults, fused_history};
    ghost use Rattle.st_disk.specs.FusedImages.{counted_image, counted_within};

    ghost history = { λ f. fused_history D.history f };

    ghost fault_count = { λ f. fused_faults D.fault_count f };

    ghost passes_within = { λ f h is. counted_within f.passed f.passes (D.history f.inner) f.within h is };

    ghost reads_as_image = { λ f h is. counted_image f.passed f.passes (D.history f.inner) (D.reads_as_image f.inner) h is };

    fn len(&mut self, file: u8) -> Result<u64, Failed>
        requires { file < 2 }
        ensures length { IfOk result (λ len. IfSome (fused_history D.history self.old) (λ h. len ≡ length (of_file file (seen h)))) }
        ensures same { fused_history D.history self.new ≡ fused_history D.history self.old }
        ensures cause { HasCause (fused_faults D.fault_count self.old) (fused_faults D.fault_count self.new) (IsErr result) }
        ensures no_fault { OnOk result (fused_faults D.fault_count self.new ≡ fused_faults D.fault_count self.old) }
        ensures fuse { fuse_of self.new ≡ after_look (fuse_of self.old) }
        ensures blown { IsTrue (fuse_of self.old).is_blown → IsErr result × (inner_of self.new ≡ inner_of self.old) }
    {
        if self.is_blown {
            self.blow();
            return Err(Failed);
        }
        self.inner.len(file)
    }

    fn read(&mut self, file: u8, at: u64, into: &mut [u8]) -> Result<(), Failed>
        requires file { file < 2 }
        requires inside { ForSome (fused_history D.history self.old) (λ h. at + length into.old ≤ length (of_file file (seen h))) }
        ensures bytes { OnOk result (IfSome (fused_history D.history self.old) (λ h.
            into.new ≡ slice_range (of_file file (seen h)) at (at + length into.old))) }
        ensures same { fused_history D.history self.new ≡ fused_history D.history self.old }
        ensures cause { HasCause (fused_faults D.fault_count self.old) (fused_faults D.fault_count self.new) (IsErr result) }
        ensures no_fault { OnOk result (fused_faults D.fault_count self.new ≡ fused_faults D.fault_count self.old) }
        ensures fuse { fuse_of self.new ≡ after_look (fuse_of self.old) }
        ensures blown { IsTrue (fuse_of self.old).is_blown → IsErr result × (inner_of self.new ≡ inner_of self.old) }
    {
        if self.is_blown {
            self.blow();
            return Err(Failed);
        }
        self.inner.read(file, at, into)
    }

    fn write_at(&mut self, file: u8, at: u64, bytes: &[u8]) -> Result<(), DiskRefusal>
        requires file { file < 2 }
        requires begins { ForSome (fused_history D.history self.old) (λ h. at ≤ length (of_file file (seen h))) }
        ensures ok { OnOk result (fused_history D.history self.new
            ≡ option_map (λ h. counted (after_write file at bytes.now h)) (fused_history D.history self.old)) }
        ensures failed { IsErrOf result DiskRefusal.Failed
            → IsPartlyWritten file at bytes.now (fused_history D.history self.old) (fused_history D.history self.new) }
        ensures no_memory { IsErrOf result DiskRefusal.NoMemory
            → fused_history D.history self.new ≡ fused_history D.history self.old }
        ensures cause { HasCause (fused_faults D.fault_count self.old) (fused_faults D.fault_count self.new)
            (IsErrOf result DiskRefusal.Failed) }
        ensures no_fault { OnOk result (fused_faults D.fault_count self.new ≡ fused_faults D.fault_count self.old) }
        ensures fuse { fuse_of self.new ≡ after_change (is_ok result) (fuse_of self.old) }
        ensures stopped { IsTrue (stops (fuse_of self.old))
            → (result ≡ Err DiskRefusal.Failed) × (inner_of self.new ≡ inner_of self.old) }
    {
        if self.stops() {
            self.blow();
            return Err(DiskRefusal::Failed);
        }
        self.inner.write_at(file, at, bytes)?;
        self.passed = self.passed.saturating_add(1);
        Ok(())
    }

    fn sync(&mut self, file: u8) -> Result<(), Failed>
        requires { file < 2 }
        ensures ok { OnOk result (fused_history D.history self.new
            ≡ option_map (λ h. counted (after_sync file h)) (fused_history D.history self.old)) }
        ensures err { OnErr result (fused_history D.history self.new ≡ fused_history D.history self.old) }
        ensures cause { HasCause (fused_faults D.fault_count self.old) (fused_faults D.fault_count self.new) (IsErr result) }
        ensures no_fault { OnOk result (fused_faults D.fault_count self.new ≡ fused_faults D.fault_count self.old) }
        ensures fuse { fuse_of self.new ≡ after_change (is_ok result) (fuse_of self.old) }
        ensures stopped { IsTrue (stops (fuse_of self.old)) → IsErr result × (inner_of self.new ≡ inner_of self.old) }
    {
        if self.stops() {
            self.blow();
            return Err(Failed);
        }
        self.inner.sync(file)?;
        self.passed = self.passed.saturating_add(1);
        Ok(())
    }

    /// The faults of the disk below and those of the fuse, together. A fuse that isn't blown has none.
    fn faults(&self) -> u64
        ensures all { result ≡ fused_faults D.fault_count self.now }
        ensures below { (fuse_of self.now).is_blown ≡ false → result ≡ D.fault_count (inner_of self.now) }
    {
        self.inner.faults().saturating_add(self.faults)
    }
}
