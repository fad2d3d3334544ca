// Reads a queue's disk.
ghost use Rattle.std.specs.Prelude.{ℕ, ◌≡◌, ◌<◌, IsErrOf, IfOk, IfErr, OnOk, OnErr, IfSome};
ghost use Rattle.std.specs.List.{AllByRecursion};
ghost use Rattle.std.specs.Option.{ForSome, option_map};
ghost use Rattle.st_disk.specs.History.{of_file, seen};
ghost use Rattle.st_disk.specs.Moments.{ToldLeavesOnly};
ghost use Rattle.st_disk.specs.Calls.{ToldStoppedIn};
ghost use Rattle.st_queue.specs.declared.frame.QueueRefusal.TheVariants.{Damaged, DiskFault};
ghost use Rattle.st_queue.specs.Mounting.{IsImageOf, IsSyncedOrStopped, after_both, mount_calls, HasFault, IsOfMount, IsOutside};
ghost use Rattle.st_queue.specs.Place.{next_number};
ghost use Rattle.st_queue.specs.Reading.{IsReading, Fits, Rises};

use crate::QueueRefusal;
use crate::reading::{Reading, read_files};
use st_disk::Disk;
use std::alloc::Global;

/// Syncs both files and reads the frames of a queue. A crash at any moment leaves one of the images from before.
pub(crate) fn read_disk<D: Disk>(alloc: Global, disk: &mut D) -> Result<Reading, QueueRefusal>
    ensures reads { IfSome (D.history disk.old) (λ h. IsReading (seen h) result) }
    ensures numbers { IfOk result (λ reading. Rises 0 reading.frames.items) }
    ensures next { IfOk result (λ reading. AllByRecursion (λ frame. frame.seq < next_number reading.current) reading.frames.items) }
    ensures fits { IfOk result (λ reading. ForSome reading.current Fits) }
    ensures err { IfErr result IsOfMount }
    ensures synced { OnOk result (D.history disk.new ≡ option_map after_both (D.history disk.old)) }
    ensures damage { (file at : ℕ) → IsErrOf result (Damaged file at) → D.history disk.new ≡ option_map after_both (D.history disk.old) }
    ensures stopped { OnErr result (IsSyncedOrStopped (D.history disk.old) (D.history disk.new)) }
    ensures any_moment { ToldLeavesOnly (D.history disk.old) (D.history disk.new) (IsImageOf (D.history disk.old)) }
    ensures cause { HasFault (D.fault_count disk.old) (D.fault_count disk.new) result }
    ensures no_fault { OnOk result (D.fault_count disk.new ≡ D.fault_count disk.old) }
{
    sync_both(disk)?;
    let zero = read_whole(alloc, disk, 0)?;
    let one = read_whole(alloc, disk, 1)?;
    read_files(alloc, &zero, &one)
}

fn sync_both<D: Disk>(disk: &mut D) -> Result<(), QueueRefusal>
    ensures ok { OnOk result (D.history disk.new ≡ option_map after_both (D.history disk.old)) }
    ensures err { IfErr result IsOutside }
    ensures stopped { OnErr result (ToldStoppedIn (λ _. mount_calls) (D.history disk.old) (D.history disk.new)) }
    ensures any_moment { ToldLeavesOnly (D.history disk.old) (D.history disk.new) (IsImageOf (D.history disk.old)) }
    ensures cause { HasFault (D.fault_count disk.old) (D.fault_count disk.new) result }
    ensures no_fault { OnOk result (D.fault_count disk.new ≡ D.fault_count disk.old) }
{
    if disk.sync(0).is_err() {
        return Err(fault(disk));
    }
    if disk.sync(1).is_err() {
        return Err(fault(disk));
    }
    Ok(())
}

// All the bytes of a file.
fn read_whole<D: Disk>(alloc: Global, disk: &mut D, file: u8) -> Result<Vec<u8>, QueueRefusal>
    requires { file < 2 }
    ensures ok { IfOk result (λ bytes. IfSome (D.history disk.old) (λ h. bytes.items ≡ of_file file (seen h))) }
    ensures err { IfErr result IsOutside }
    ensures same { D.history disk.new ≡ D.history disk.old }
    ensures cause { HasFault (D.fault_count disk.old) (D.fault_count disk.new) result }
    ensures no_fault { OnOk result (D.fault_count disk.new ≡ D.fault_count disk.old) }
{
    let Ok(len) = disk.len(file) else {
        return Err(fault(disk));
    };
    let mut bytes = vec![in alloc; 0; len as usize]?;
    if disk.read(file, 0, &mut bytes).is_err() {
        return Err(fault(disk));
    }
    Ok(bytes)
}

pub(crate) fn fault<D: Disk>(disk: &D) -> QueueRefusal
    ensures { result ≡ DiskFault (D.fault_count disk.now) }
{
    QueueRefusal::DiskFault {
        faults: disk.faults(),
    }
}
