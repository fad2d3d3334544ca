// A queue over a disk.
ghost use Rattle.std.specs.Prelude.{◌≡◌, ◌<◌, ◌≤◌, ◌^◌, ◌↔◌, ℕ, max, Some, None, Ok, Err, IsSome, IsTrue, IfOk, OnOk, OnErr, IfErr, IfSome, IsErrOf};
ghost use Rattle.std.specs.Bool.{OnFalse};
ghost use Rattle.std.specs.List.{AllByRecursion};
ghost use Rattle.std.specs.Option.{ForSome, option_map};
ghost use Rattle.st_disk.specs.History.{risen, seen};
ghost use Rattle.st_disk.specs.Moments.{ToldLeavesOnly};
ghost use Rattle.st_disk.specs.Calls.{ToldStoppedIn};
ghost use Rattle.st_queue.specs.declared.frame.QueueRefusal.TheVariants.{Broken, Damaged, DiskFault, Full};
ghost use Rattle.st_queue.specs.Frames.{is_payload};
ghost use Rattle.st_queue.specs.Mounting.{HasFault, IsImageOf, IsOfEntering, IsOfMount, IsOfWriting, IsOutside, IsSyncedOrStopped, after_both};
ghost use Rattle.st_queue.specs.Due.{due_of};
ghost use Rattle.st_queue.specs.Place.{current, next_file, next_generation, next_number, next_place};
ghost use Rattle.st_queue.specs.Reading.{IsReading, Rises};

use crate::mounting::read_disk;
use crate::reading::Reading;
use crate::{Frame, QueueRefusal, State, state};
use st_disk::Disk;
use std::alloc::Global;
use std::marker::Model;

/// A queue of frames over a disk. The disk reads as its frames, and so does every image that a crash may leave of it.
#[derive(Drop)]
pub struct Queue<D: Disk> {
    alloc: Global,
    disk: D,
    state: State,
}

impl<D: Disk> Model for Queue<D> {
    ghost use Rattle.st_queue.specs.Queue.{Opened, Holds};

    ghost Value = { Opened D };

    ghost view = { λ q. record { disk = q.disk; state = q.state } };

    ghost invariant = { λ q. Holds (D.history q.disk) q.state };
}

/// A disk that could not be mounted, and why.
#[derive(Drop)]
pub struct QueueMount<D> {
    pub disk: D,
    pub why: QueueRefusal,
}

impl<D: Disk> Queue<D> {
    ghost use Rattle.st_queue.specs.Queue.{IsBefore, IsKept, IsMounted, IsPast, IsSpent, UnlessFailed, after_refusal, is_due, with_current, with_discarded, with_entered, with_prepared};
    ghost use Rattle.st_queue.specs.Writing.{Appends, HasFramesLess, ToldLess, ToldSettled, append_calls, behind_frame, enter_calls, frames_now, recycle_calls, recycled};
    ghost use Rattle.st_queue.specs.Prepared.{Enters};

    /// Syncs both files and reads the frames. `swap` and `limit` are lengths of a file in bytes.
    pub fn mount(
        alloc: Global,
        mut disk: D,
        swap: u64,
        limit: u64,
    ) -> Result<(Queue<D>, Vec<Frame>), QueueMount<D>>
        requires swap { swap ≤ 2 ^ 30 }
        requires limit { limit ≤ 2 ^ 30 }
        ensures frames { IfOk result (λ mounted. IfSome (D.history disk) (λ h. frames_now h ≡ Ok mounted.1.items)) }
        ensures current { IfOk result (λ mounted. IfSome (D.history disk) (λ h. mounted.0.state.current ≡ current (seen h))) }
        ensures numbers { IfOk result (λ mounted. Rises 0 mounted.1.items) }
        ensures next { IfOk result (λ mounted. AllByRecursion (λ frame. frame.seq < next_number mounted.0.state.current) mounted.1.items) }
        ensures state { IfOk result (λ mounted. IsMounted swap limit mounted.0.state) }
        ensures stands { IfOk result (λ mounted. ToldSettled (D.history mounted.0.disk) mounted.0.state.current) }
        ensures synced { IfOk result (λ mounted. D.history mounted.0.disk ≡ option_map after_both (D.history disk)) }
        ensures any_moment { IfOk result (λ mounted. ToldLeavesOnly (D.history disk) (D.history mounted.0.disk) (IsImageOf (D.history disk))) }
        ensures err { IfErr result (λ e. IsOfMount e.why) }
        ensures damaged { IfErr result (λ e. IfSome (D.history disk) (λ h. IsReading (seen h) (Err e.why))) }
        ensures damage { IfErr result (λ e. (file at : ℕ) → e.why ≡ Damaged file at
            → D.history e.disk ≡ option_map after_both (D.history disk)) }
        ensures any_moment_err { IfErr result (λ e. ToldLeavesOnly (D.history disk) (D.history e.disk) (IsImageOf (D.history disk))) }
        ensures stopped { IfErr result (λ e. IsSyncedOrStopped (D.history disk) (D.history e.disk)) }
        ensures cause { IfErr result (λ e. (faults : ℕ) → e.why ≡ DiskFault faults
            → (faults ≡ D.fault_count e.disk) × (risen (D.fault_count disk) ≤ D.fault_count e.disk)) }
        ensures never_falls { IfErr result (λ e. D.fault_count disk ≤ D.fault_count e.disk) }
        ensures no_fault { IfOk result (λ mounted. D.fault_count mounted.0.disk ≡ D.fault_count disk) }
    {
        match read_disk(alloc, &mut disk) {
            Ok(reading) => {
                let Reading {
                    frames,
                    current,
                    unshut,
                    older,
                } = reading;
                let state = State {
                    current,
                    prepared: None,
                    unshut,
                    older,
                    discarded: 0,
                    broken: None,
                    swap,
                    limit,
                };
                Ok((Queue { alloc, disk, state }, frames))
            }
            Err(why) => Err(QueueMount { disk, why }),
        }
    }

    /// Whether the next file is to be made ready and entered before a frame is appended: no file is live, or the current
    /// one has `swap` bytes and the other one no frame that isn't discarded.
    pub fn due(&self) -> bool
        ensures due { result ≡ is_due self.now.state }
        ensures files { self.now.state.broken ≡ None → ForSome (D.history self.now.disk) (λ h.
            result ≡ due_of self.now.state.swap self.now.state.discarded (seen h)) }
        ensures live { OnFalse result (IsSome self.now.state.current) }
        ensures stands { self.now.state.broken ≡ None → ToldSettled (D.history self.now.disk) self.now.state.current }
    {
        state::is_due(&self.state)
    }

    /// Makes the next file ready, where it is due: shuts it, and writes its header behind the closed gate. The frames that
    /// stood in it are discarded, and gone.
    pub fn recycle(&mut self) -> Result<(), QueueRefusal>
        requires { self.old.state.broken ≡ None → IsTrue (is_due self.old.state) }
        ensures stands { self.new.state.broken ≡ None → ToldSettled (D.history self.new.disk) self.new.state.current }
        ensures any_moment { self.old.state.broken ≡ None → ToldLeavesOnly (D.history self.old.disk) (D.history self.new.disk)
            (HasFramesLess self.old.state.discarded (D.history self.old.disk)) }
        ensures broken { (faults : ℕ) → (result ≡ Err (Broken faults)) ↔ (self.old.state.broken ≡ Some faults) }
        ensures full { (long limit : ℕ) → (result ≡ Err (Full long limit)) ↔ IsSpent self.old.state long limit }
        ensures untouched { IfErr result (λ refusal. IsBefore refusal → self.new.disk ≡ self.old.disk) }
        ensures calls { OnOk result (D.history self.new.disk ≡ option_map (recycled (next_file self.old.state.current)
            (next_generation self.old.state.current) (next_number self.old.state.current)) (D.history self.old.disk)) }
        ensures frames { UnlessFailed result
            (ToldLess self.old.state.discarded (D.history self.old.disk) (D.history self.new.disk)) }
        ensures settled { UnlessFailed result (ToldSettled (D.history self.new.disk) self.old.state.current) }
        ensures ok { OnOk result (self.new.state
            ≡ with_prepared (Some (next_place self.old.state.current)) self.old.state) }
        ensures refuses { IfErr result IsOfWriting }
        ensures err { IfErr result (λ refusal. IsKept refusal self.old.state self.new.state) }
        ensures stopped { IfErr result (λ refusal. IsOutside refusal → ToldStoppedIn (recycle_calls
            (next_file self.old.state.current) (next_generation self.old.state.current) (next_number self.old.state.current))
            (D.history self.old.disk) (D.history self.new.disk)) }
        ensures cause { HasFault (D.fault_count self.old.disk) (D.fault_count self.new.disk) result }
        ensures no_fault { OnOk result (D.fault_count self.new.disk ≡ D.fault_count self.old.disk) }
    {
        state::recycle(self.alloc, &mut self.disk, &mut self.state)
    }

    /// Makes the file current that was made ready.
    pub fn enter_next(&mut self) -> Result<(), QueueRefusal>
        requires { self.old.state.broken ≡ None → IsSome self.old.state.prepared }
        ensures stands { self.new.state.broken ≡ None → ToldSettled (D.history self.new.disk) self.new.state.current }
        ensures enters { self.old.state.broken ≡ None → ForSome self.old.state.prepared (λ place.
            Enters (D.history self.old.disk) (D.history self.new.disk) place result) }
        ensures broken { (faults : ℕ) → (result ≡ Err (Broken faults)) ↔ (self.old.state.broken ≡ Some faults) }
        ensures untouched { IfErr result (λ refusal. IsBefore refusal → self.new.disk ≡ self.old.disk) }
        ensures ok { OnOk result (self.new.state ≡ with_entered self.old.state) }
        ensures refuses { IfErr result IsOfEntering }
        ensures err { IfErr result (λ refusal. self.new.state ≡ after_refusal refusal self.old.state) }
        ensures stopped { IfErr result (λ refusal. IsOutside refusal → ForSome self.old.state.prepared (λ place.
            ToldStoppedIn (λ _. enter_calls place.file) (D.history self.old.disk) (D.history self.new.disk))) }
        ensures cause { HasFault (D.fault_count self.old.disk) (D.fault_count self.new.disk) result }
        ensures no_fault { OnOk result (D.fault_count self.new.disk ≡ D.fault_count self.old.disk) }
    {
        state::enter_next(&mut self.disk, &mut self.state)
    }

    /// Appends a frame to the current file, and answers its number. The frame is on the disk before its gate is opened.
    pub fn append(&mut self, payload: &[u8]) -> Result<u64, QueueRefusal>
        requires live { self.old.state.broken ≡ None → IsSome self.old.state.current }
        requires listed { IsTrue (is_payload payload.now) }
        ensures stands { self.new.state.broken ≡ None → ToldSettled (D.history self.new.disk) self.new.state.current }
        ensures appends { self.old.state.broken ≡ None → ForSome self.old.state.current (λ place.
            Appends (D.history self.old.disk) (D.history self.new.disk) place payload.now result) }
        ensures number { IfOk result (λ seq. IfSome self.old.state.current (λ place. seq ≡ place.next)) }
        ensures broken { (faults : ℕ) → (result ≡ Err (Broken faults)) ↔ (self.old.state.broken ≡ Some faults) }
        ensures full { (long limit : ℕ) → (result ≡ Err (Full long limit)) ↔ IsPast self.old.state payload.now long limit }
        ensures untouched { IfErr result (λ refusal. IsBefore refusal → self.new.disk ≡ self.old.disk) }
        ensures ok { OnOk result (self.new.state ≡ with_current
            (option_map (λ place. behind_frame place payload.now) self.old.state.current) self.old.state) }
        ensures refuses { IfErr result IsOfWriting }
        ensures err { IfErr result (λ refusal. self.new.state ≡ after_refusal refusal self.old.state) }
        ensures stopped { IfErr result (λ refusal. IsOutside refusal → ForSome self.old.state.current (λ place.
            ToldStoppedIn (λ _. append_calls place payload.now) (D.history self.old.disk) (D.history self.new.disk))) }
        ensures cause { HasFault (D.fault_count self.old.disk) (D.fault_count self.new.disk) result }
        ensures no_fault { OnOk result (D.fault_count self.new.disk ≡ D.fault_count self.old.disk) }
    {
        state::append(self.alloc, &mut self.disk, &mut self.state, payload)
    }

    /// Discards the frames with a lower number.
    pub fn discard_before(&mut self, seq: u64)
        ensures disk { self.new.disk ≡ self.old.disk }
        ensures state { self.new.state ≡ with_discarded (max self.old.state.discarded seq) self.old.state }
    {
        self.state.discarded = self.state.discarded.max(seq);
    }

    /// The disk.
    pub fn dismount(self) -> D
        ensures { result ≡ self.disk }
    {
        let Queue {
            alloc: _,
            disk,
            state: _,
        } = self;
        disk
    }
}
