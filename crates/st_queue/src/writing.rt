// Writes to a queue's disk.
ghost use Rattle.std.specs.Prelude.{◌≡◌, ◌<◌, ◌≤◌, ◌+◌, ◌^◌, length, true, false, Some, None, IsTrue, IfOk, OnOk, OnErr, IfErr, IsErrOf};
ghost use Rattle.std.specs.Option.{option_map, ForSome};
ghost use Rattle.st_disk.specs.History.{of_file, seen};
ghost use Rattle.st_disk.specs.Moments.{ToldLeavesOnly};
ghost use Rattle.st_disk.specs.Calls.{ToldStoppedIn};
ghost use Rattle.st_queue.specs.declared.frame.QueueRefusal.TheVariants.{NoMemory};
ghost use Rattle.st_queue.specs.Frames.{is_payload};
ghost use Rattle.st_queue.specs.Mounting.{HasFault, IsOutside};
ghost use Rattle.st_queue.specs.Place.{next_file, next_generation, next_number, next_place, spent};
ghost use Rattle.st_queue.specs.Prepared.{Enters, Heads, Shuts, ToldPrepared, ToldUnshut};
ghost use Rattle.st_queue.specs.Reading.{Fits};
ghost use Rattle.st_queue.specs.Writing.{IsSynced, IsSettled, LeavesTorn, Appends, after_put, append_calls, beside, enter_calls, frame_bytes, head_calls, header_bytes, put_calls, shut_calls};

use crate::mounting::fault;
use crate::place::next_place;
use crate::reading::MARK;
use crate::{Place, QueueRefusal};
use st_disk::{Disk, DiskRefusal};
use st_num::{put_u32, put_u64};
use std::alloc::{AllocError, Global};

const OPEN: u8 = 1;

const CLOSED: u8 = 0;

// A frame behind its gate, with the next gate closed.
#[tactic(auto, unfolding(crate::specs::Writing::frame_bytes))]
fn frame_bytes(alloc: Global, number: u64, payload: &[u8]) -> Result<Vec<u8>, AllocError>
    requires { length payload.now < 2 ^ 32 }
    ensures { IfOk result (λ bytes. bytes.items ≡ frame_bytes number payload.now) }
{
    let mut bytes = Vec::new(alloc);
    put_u32(&mut bytes, payload.len() as u32)?;
    put_u64(&mut bytes, number)?;
    bytes.extend_from_slice(payload)?;
    bytes.push(CLOSED)?;
    Ok(bytes)
}

/// Writes a frame behind the current file's closed gate, and then opens the gate.
pub(crate) fn append_frame<D: Disk>(
    alloc: Global,
    disk: &mut D,
    place: Place,
    payload: &[u8],
) -> Result<(), QueueRefusal>
    requires settled { ForSome (D.history disk.old) (λ h. IsSettled h (Some place)) }
    requires file { place.file < 2 }
    requires gate { place.gate < 2 ^ 63 }
    requires next { place.next < 2 ^ 64 }
    requires small { length payload.now < 2 ^ 32 }
    requires listed { IsTrue (is_payload payload.now) }

    ensures appends { Appends (D.history disk.old) (D.history disk.new) place payload.now result }
    ensures beside { IsErrOf result NoMemory → beside place.file (D.history disk.new) ≡ beside place.file (D.history disk.old) }
    ensures err { IfErr result IsOutside }
    ensures stopped { OnErr result (ToldStoppedIn (λ _. append_calls place payload.now) (D.history disk.old) (D.history disk.new)) }
    ensures cause { HasFault (D.fault_count disk.old) (D.fault_count disk.new) result }
    ensures no_fault { OnOk result (D.fault_count disk.new ≡ D.fault_count disk.old) }
{
    let bytes = frame_bytes(alloc, place.next, payload)?;
    put(disk, place.file, place.gate + 1, &bytes)?;
    put(disk, place.file, place.gate, &[OPEN])
}

// A header behind its gate, with the first frame's gate closed.
#[tactic(auto, unfolding(crate::specs::Writing::header_bytes))]
fn header_bytes(alloc: Global, generation: u64, first: u64) -> Result<Vec<u8>, AllocError>
    ensures { IfOk result (λ bytes. bytes.items ≡ header_bytes generation first) }
{
    let mut bytes = MARK.to_vec(alloc)?;
    put_u64(&mut bytes, generation)?;
    put_u64(&mut bytes, first)?;
    bytes.push(CLOSED)?;
    Ok(bytes)
}

/// Shuts the next file, where it has no byte or its gate is open.
pub(crate) fn shut<D: Disk>(
    disk: &mut D,
    current: Option<Place>,
    unshut: bool,
) -> Result<(), QueueRefusal>
    requires settled { ForSome (D.history disk.old) (λ h. IsSettled h current) }
    requires fits { ForSome current Fits }
    requires unshut { ToldUnshut (next_file current) unshut (D.history disk.old) }
    ensures shuts { Shuts (D.history disk.old) (D.history disk.new) current result }
    ensures err { IfErr result IsOutside }
    ensures stopped { OnErr result (ToldStoppedIn (shut_calls (next_file current)) (D.history disk.old) (D.history disk.new)) }
    ensures cause { HasFault (D.fault_count disk.old) (D.fault_count disk.new) result }
    ensures no_fault { OnOk result (D.fault_count disk.new ≡ D.fault_count disk.old) }
{
    if !unshut {
        return Ok(());
    }
    put(disk, next_place(current).file, 0, &[CLOSED])
}

/// Writes the header of the next file behind its closed gate.
pub(crate) fn write_header<D: Disk>(
    alloc: Global,
    disk: &mut D,
    current: Option<Place>,
) -> Result<(), QueueRefusal>
    requires settled { ForSome (D.history disk.old) (λ h. IsSettled h current) }
    requires fits { ForSome current Fits }
    requires shut { ToldUnshut (next_file current) false (D.history disk.old) }
    requires unspent { spent current ≡ None }
    ensures heads { Heads (D.history disk.old) (D.history disk.new) current result }
    ensures err { IfErr result IsOutside }
    ensures stopped { OnErr result (ToldStoppedIn (λ _. head_calls (next_file current) (next_generation current)
        (next_number current)) (D.history disk.old) (D.history disk.new)) }
    ensures cause { HasFault (D.fault_count disk.old) (D.fault_count disk.new) result }
    ensures no_fault { OnOk result (D.fault_count disk.new ≡ D.fault_count disk.old) }
{
    let place = next_place(current);
    let bytes = header_bytes(alloc, place.generation, place.next)?;
    put(disk, place.file, 1, &bytes)
}

/// Opens the gate of the next file, which has its header.
pub(crate) fn enter<D: Disk>(disk: &mut D, current: Option<Place>) -> Result<(), QueueRefusal>
    requires settled { ForSome (D.history disk.old) (λ h. IsSettled h current) }
    requires fits { ForSome current Fits }
    requires prepared { ToldPrepared (D.history disk.old) (next_place current) }
    ensures enters { Enters (D.history disk.old) (D.history disk.new) (next_place current) result }
    ensures err { IfErr result IsOutside }
    ensures stopped { OnErr result (ToldStoppedIn (λ _. enter_calls (next_file current)) (D.history disk.old) (D.history disk.new)) }
    ensures cause { HasFault (D.fault_count disk.old) (D.fault_count disk.new) result }
    ensures no_fault { OnOk result (D.fault_count disk.new ≡ D.fault_count disk.old) }
{
    put(disk, next_place(current).file, 0, &[OPEN])
}

/// Writes to a file of a synced disk, and syncs it. A crash may leave any bytes in the range meanwhile.
fn put<D: Disk>(disk: &mut D, file: u8, at: u64, bytes: &[u8]) -> Result<(), QueueRefusal>
    requires file { file < 2 }
    requires begins { ForSome (D.history disk.old) (λ h. at ≤ length (of_file file (seen h))) }
    requires synced { ForSome (D.history disk.old) IsSynced }
    ensures ok { OnOk result (D.history disk.new ≡ option_map (after_put file at bytes.now) (D.history disk.old)) }
    ensures no_memory { IsErrOf result NoMemory → D.history disk.new ≡ D.history disk.old }
    ensures err { IfErr result IsOutside }
    ensures any_moment { ToldLeavesOnly (D.history disk.old) (D.history disk.new)
        (LeavesTorn file at (length bytes.now) (D.history disk.old)) }
    ensures stopped { OnErr result (ToldStoppedIn (λ _. put_calls file at bytes.now) (D.history disk.old) (D.history disk.new)) }
    ensures cause { HasFault (D.fault_count disk.old) (D.fault_count disk.new) result }
    ensures no_fault { OnOk result (D.fault_count disk.new ≡ D.fault_count disk.old) }
{
    match disk.write_at(file, at, bytes) {
        Ok(()) => {}
        Err(DiskRefusal::NoMemory) => return Err(QueueRefusal::NoMemory),
        Err(DiskRefusal::Failed) => return Err(fault(disk)),
    }
    if disk.sync(file).is_err() {
        return Err(fault(disk));
    }
    Ok(())
}
