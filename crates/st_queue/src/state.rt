// What a queue knows of its disk, and its calls over both.
ghost use Rattle.std.specs.Prelude.{◌≡◌, ◌<◌, ◌≤◌, ◌+◌, ◌-◌, ◌^◌, ◌↔◌, ℕ, length, false, Some, None, Ok, Err, IsSome, IsTrue, IfOk, OnOk, OnErr, IfErr, IfSome, IsErrOf};
ghost use Rattle.std.specs.Option.{ForSome, option_map};
ghost use Rattle.st_disk.specs.History.{of_file, with_file};
ghost use Rattle.st_disk.specs.Moments.{ToldLeavesOnly};
ghost use Rattle.st_disk.specs.Calls.{ToldStoppedIn};
ghost use Rattle.st_queue.specs.declared.frame.QueueRefusal.TheVariants.{Broken, Full, NoMemory};
ghost use Rattle.st_queue.specs.Due.{is_released};
ghost use Rattle.st_queue.specs.Frames.{is_payload};
ghost use Rattle.st_queue.specs.Mounting.{HasFault, IsOfEntering, IsOfWriting, IsOutside};
ghost use Rattle.st_queue.specs.Place.{next_file, next_generation, next_number, next_place, spent};
ghost use Rattle.st_queue.specs.Queue.{Holds, broken_by, end_behind, is_due, with_current, with_entered, with_prepared, after_refusal, IsBefore, IsKept, IsPast, IsSpent, UnlessFailed};
ghost use Rattle.st_queue.specs.Prepared.{Enters};
ghost use Rattle.st_queue.specs.Reading.{Fits};
ghost use Rattle.st_queue.specs.Writing.{Appends, after_put, append_calls, behind_frame, enter_calls, head_calls, header_bytes, recycle_calls, recycled, shut_calls, shut_first, told_frames, HasFrames, HasFramesLess, ToldLess, ToldSettled};

use crate::place::{last_behind, next_place, spent};
use crate::reading::MAX_NUMBER;
use crate::writing::{append_frame, enter, shut, write_header};
use crate::{Place, QueueRefusal};
use st_disk::Disk;
use std::alloc::Global;

/// What a queue knows of its disk.
#[derive(Clone, Copy, Debug, PartialEq, Eq)]
pub struct State {
    /// The end of the current file, where one is live.
    pub current: Option<Place>,
    /// The end of the file that was made ready, and isn't entered yet.
    pub prepared: Option<Place>,
    /// Of each file: it has no byte, or its gate is open.
    pub unshut: (bool, bool),
    /// Where both files are live and the older one has frames: the number behind its last frame.
    pub older: Option<u64>,
    /// The frames with a lower number are discarded.
    pub discarded: u64,
    /// The count of the fault after which nothing is written.
    pub broken: Option<u64>,
    pub swap: u64,
    /// The longest that a file may become, in bytes.
    pub limit: u64,
}

/// A fault breaks the queue.
fn broken_by(refusal: QueueRefusal) -> Option<u64>
    ensures { result ≡ broken_by refusal }
{
    match refusal {
        QueueRefusal::DiskFault { faults } => Some(faults),
        _ => None,
    }
}

/// The file's length once the payload is appended.
fn end_behind(place: Place, payload: &[u8]) -> u64
    requires { place.gate < 2 ^ 63 }
    ensures { result ≡ end_behind place payload.now }
{
    (place.gate + 14).saturating_add(payload.len() as u64)
}

/// The place behind a frame with this payload.
fn behind_frame(place: Place, payload: &[u8]) -> Place
    requires gate { place.gate + 14 + length payload.now ≤ 2 ^ 30 }
    requires next { place.next ≤ 2 ^ 62 + place.gate }
    ensures { result ≡ behind_frame place payload.now }
{
    Place {
        file: place.file,
        generation: place.generation,
        gate: place.gate + (13 + payload.len() as u64),
        next: place.next + 1,
    }
}

/// Appends a frame to the current file.
pub(crate) fn append<D: Disk>(
    alloc: Global,
    disk: &mut D,
    state: &mut State,
    payload: &[u8],
) -> Result<u64, QueueRefusal>
    requires holds { Holds (D.history disk.old) state.old }
    requires live { state.old.broken ≡ None → IsSome state.old.current }
    requires listed { IsTrue (is_payload payload.now) }
    ensures holds { Holds (D.history disk.new) state.new }
    ensures appends { state.old.broken ≡ None → ForSome state.old.current (λ place.
        Appends (D.history disk.old) (D.history disk.new) place payload.now result) }
    ensures number { IfOk result (λ seq. IfSome state.old.current (λ place. seq ≡ place.next)) }
    ensures broken { (faults : ℕ) → (result ≡ Err (Broken faults)) ↔ (state.old.broken ≡ Some faults) }
    ensures full { (long limit : ℕ) → (result ≡ Err (Full long limit)) ↔ IsPast state.old payload.now long limit }
    ensures untouched { IfErr result (λ refusal. IsBefore refusal → disk.new ≡ disk.old) }
    ensures ok { OnOk result (state.new
        ≡ with_current (option_map (λ place. behind_frame place payload.now) state.old.current) state.old) }
    ensures refuses { IfErr result IsOfWriting }
    ensures err { IfErr result (λ refusal. state.new ≡ after_refusal refusal state.old) }
    ensures stopped { IfErr result (λ refusal. IsOutside refusal → ForSome state.old.current (λ place.
        ToldStoppedIn (λ _. append_calls place payload.now) (D.history disk.old) (D.history disk.new))) }
    ensures cause { HasFault (D.fault_count disk.old) (D.fault_count disk.new) result }
    ensures no_fault { OnOk result (D.fault_count disk.new ≡ D.fault_count disk.old) }
{
    if let Some(faults) = state.broken {
        return Err(QueueRefusal::Broken { faults });
    }
    let place = state.current.unwrap();
    let length = end_behind(place, payload);
    if length > state.limit {
        return Err(QueueRefusal::Full {
            length,
            limit: state.limit,
        });
    }
    if let Err(refusal) = append_frame(alloc, disk, place, payload) {
        state.broken = broken_by(refusal);
        return Err(refusal);
    }
    state.current = Some(behind_frame(place, payload));
    state.prepared = None;
    Ok(place.next)
}

/// Whether a next file is due.
pub(crate) fn is_due(state: &State) -> bool
    requires { ForSome state.now.current Fits }
    ensures { result ≡ is_due state.now }
{
    match state.current {
        None => true,
        Some(place) => { place.gate + 1 >= state.swap && is_released(state.older, state.discarded) }
    }
}

// Whether frames before a number, where there are any, are discarded.
fn is_released(older: Option<u64>, discarded: u64) -> bool
    ensures { result ≡ is_released older discarded }
{
    match older {
        None => true,
        Some(behind) => behind <= discarded,
    }
}

// The flags of both files with another one of this file.
fn with_flag(flags: (bool, bool), file: u8, flag: bool) -> (bool, bool)
    ensures { result ≡ with_file file flag flags }
{
    if file == 0 {
        (flag, flags.1)
    } else {
        (flags.0, flag)
    }
}

// The flag of this file.
fn flag_of(flags: (bool, bool), file: u8) -> bool
    ensures { result ≡ of_file file flags }
{
    if file == 0 { flags.0 } else { flags.1 }
}

/// Makes the next file current, which was made ready.
pub(crate) fn enter_next<D: Disk>(disk: &mut D, state: &mut State) -> Result<(), QueueRefusal>
    requires holds { Holds (D.history disk.old) state.old }
    requires prepared { state.old.broken ≡ None → IsSome state.old.prepared }
    ensures holds { Holds (D.history disk.new) state.new }
    ensures enters { state.old.broken ≡ None → ForSome state.old.prepared (λ place.
        Enters (D.history disk.old) (D.history disk.new) place result) }
    ensures broken { (faults : ℕ) → (result ≡ Err (Broken faults)) ↔ (state.old.broken ≡ Some faults) }
    ensures untouched { IfErr result (λ refusal. IsBefore refusal → disk.new ≡ disk.old) }
    ensures ok { OnOk result (state.new ≡ with_entered state.old) }
    ensures refuses { IfErr result IsOfEntering }
    ensures err { IfErr result (λ refusal. state.new ≡ after_refusal refusal state.old) }
    ensures stopped { IfErr result (λ refusal. IsOutside refusal → ForSome state.old.prepared (λ place.
        ToldStoppedIn (λ _. enter_calls place.file) (D.history disk.old) (D.history disk.new))) }
    ensures cause { HasFault (D.fault_count disk.old) (D.fault_count disk.new) result }
    ensures no_fault { OnOk result (D.fault_count disk.new ≡ D.fault_count disk.old) }
{
    if let Some(faults) = state.broken {
        return Err(QueueRefusal::Broken { faults });
    }
    if let Err(refusal) = enter(disk, state.current) {
        state.broken = broken_by(refusal);
        return Err(refusal);
    }
    state.unshut = with_flag(state.unshut, next_place(state.current).file, true);
    state.older = last_behind(state.current);
    state.current = state.prepared;
    state.prepared = None;
    Ok(())
}

// Shuts the next file where it isn't.
fn shut_next<D: Disk>(disk: &mut D, state: &mut State) -> Result<(), QueueRefusal>
    requires holds { Holds (D.history disk.old) state.old }
    requires unbroken { state.old.broken ≡ None }
    requires due { IsTrue (is_due state.old) }
    requires unprepared { state.old.prepared ≡ None }
    ensures holds { Holds (D.history disk.new) state.new }
    ensures any_moment { ToldLeavesOnly (D.history disk.old) (D.history disk.new)
        (HasFramesLess state.old.discarded (D.history disk.old)) }
    ensures calls { OnOk result (D.history disk.new
        ≡ option_map (shut_first (next_file state.old.current)) (D.history disk.old)) }
    ensures less { OnOk result (ToldLess state.old.discarded (D.history disk.old) (D.history disk.new)) }
    ensures same { IsErrOf result NoMemory → D.history disk.new ≡ D.history disk.old }
    ensures ok { OnOk result (state.new ≡ with_prepared None state.old) }
    ensures err { IfErr result (λ refusal. state.new ≡ after_refusal refusal state.old) }
    ensures outside { IfErr result IsOutside }
    ensures stopped { OnErr result (ToldStoppedIn (shut_calls (next_file state.old.current)) (D.history disk.old) (D.history disk.new)) }
    ensures cause { HasFault (D.fault_count disk.old) (D.fault_count disk.new) result }
    ensures no_fault { OnOk result (D.fault_count disk.new ≡ D.fault_count disk.old) }
{
    let file = next_place(state.current).file;
    if let Err(refusal) = shut(disk, state.current, flag_of(state.unshut, file)) {
        state.broken = broken_by(refusal);
        return Err(refusal);
    }
    state.unshut = with_flag(state.unshut, file, false);
    state.older = None;
    Ok(())
}

// Writes the header of the next file, which is shut.
fn head_next<D: Disk>(alloc: Global, disk: &mut D, state: &mut State) -> Result<(), QueueRefusal>
    requires holds { Holds (D.history disk.old) state.old }
    requires unbroken { state.old.broken ≡ None }
    requires shut { of_file (next_file state.old.current) state.old.unshut ≡ false }
    requires unspent { spent state.old.current ≡ None }
    ensures holds { Holds (D.history disk.new) state.new }
    ensures any_moment { ToldLeavesOnly (D.history disk.old) (D.history disk.new) (HasFrames (D.history disk.old)) }
    ensures calls { OnOk result (D.history disk.new ≡ option_map (after_put (next_file state.old.current) 1
        (header_bytes (next_generation state.old.current) (next_number state.old.current))) (D.history disk.old)) }
    ensures frames { OnOk result (told_frames (D.history disk.new) ≡ told_frames (D.history disk.old)) }
    ensures same { IsErrOf result NoMemory → D.history disk.new ≡ D.history disk.old }
    ensures ok { OnOk result (state.new ≡ record state.old { prepared = Some (next_place state.old.current) }) }
    ensures err { IfErr result (λ refusal. state.new ≡ after_refusal refusal state.old) }
    ensures outside { IfErr result IsOutside }
    ensures stopped { OnErr result (ToldStoppedIn (λ _. head_calls (next_file state.old.current) (next_generation state.old.current)
        (next_number state.old.current)) (D.history disk.old) (D.history disk.new)) }
    ensures cause { HasFault (D.fault_count disk.old) (D.fault_count disk.new) result }
    ensures no_fault { OnOk result (D.fault_count disk.new ≡ D.fault_count disk.old) }
{
    if let Err(refusal) = write_header(alloc, disk, state.current) {
        state.broken = broken_by(refusal);
        return Err(refusal);
    }
    state.prepared = Some(next_place(state.current));
    Ok(())
}

/// Makes the next file ready to be the current one.
pub(crate) fn recycle<D: Disk>(
    alloc: Global,
    disk: &mut D,
    state: &mut State,
) -> Result<(), QueueRefusal>
    requires holds { Holds (D.history disk.old) state.old }
    requires due { state.old.broken ≡ None → IsTrue (is_due state.old) }
    ensures holds { Holds (D.history disk.new) state.new }
    ensures any_moment { state.old.broken ≡ None → ToldLeavesOnly (D.history disk.old) (D.history disk.new)
        (HasFramesLess state.old.discarded (D.history disk.old)) }
    ensures broken { (faults : ℕ) → (result ≡ Err (Broken faults)) ↔ (state.old.broken ≡ Some faults) }
    ensures full { (long limit : ℕ) → (result ≡ Err (Full long limit)) ↔ IsSpent state.old long limit }
    ensures untouched { IfErr result (λ refusal. IsBefore refusal → disk.new ≡ disk.old) }
    ensures calls { OnOk result (D.history disk.new ≡ option_map (recycled (next_file state.old.current)
        (next_generation state.old.current) (next_number state.old.current)) (D.history disk.old)) }
    ensures frames { UnlessFailed result (ToldLess state.old.discarded (D.history disk.old) (D.history disk.new)) }
    ensures settled { UnlessFailed result (ToldSettled (D.history disk.new) state.old.current) }
    ensures ok { OnOk result (state.new ≡ with_prepared (Some (next_place state.old.current)) state.old) }
    ensures refuses { IfErr result IsOfWriting }
    ensures err { IfErr result (λ refusal. IsKept refusal state.old state.new) }
    ensures stopped { IfErr result (λ refusal. IsOutside refusal → ToldStoppedIn (recycle_calls (next_file state.old.current)
        (next_generation state.old.current) (next_number state.old.current)) (D.history disk.old) (D.history disk.new)) }
    ensures cause { HasFault (D.fault_count disk.old) (D.fault_count disk.new) result }
    ensures no_fault { OnOk result (D.fault_count disk.new ≡ D.fault_count disk.old) }
{
    if let Some(faults) = state.broken {
        return Err(QueueRefusal::Broken { faults });
    }
    if let Some(length) = spent(state.current) {
        return Err(QueueRefusal::Full {
            length,
            limit: MAX_NUMBER,
        });
    }
    state.prepared = None;
    shut_next(disk, state)?;
    head_next(alloc, disk, state)
}
