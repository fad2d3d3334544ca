// Appends the payloads of commits to a queue.
ghost use Rattle.std.specs.Prelude.{max, if◌then◌else◌, ◌≡◌, ◌⊎◌, ℕ, Some, None, Err, IsTrue, IfOk, IfErr, IfSome, OnOk};
ghost use Rattle.std.specs.Option.{option_map};
ghost use Rattle.std.specs.Result.{IsErrAnd};
ghost use Rattle.st_disk.specs.History.{seen};
ghost use Rattle.st_disk.specs.Moments.{ToldLeavesOnly};
ghost use Rattle.st_engine.specs.Answers.{HasLessOrMore, IsPast, ToldFewer, ToldOneMore};
ghost use Rattle.st_disk.specs.Calls.{ToldStoppedIn, made};
ghost use Rattle.st_engine.specs.Commit.{Past, begin_in, calls_in, calls_of, commit_with, frame_in, past_in, past_number, place_in};
ghost use Rattle.st_engine.specs.Holding.{began_behind};
ghost use Rattle.st_engine.specs.Store.{Store};
ghost use Rattle.st_queue.specs.Due.{due_of};
ghost use Rattle.st_queue.specs.Frames.{is_payload};
ghost use Rattle.st_queue.specs.Mounting.{HasFault, IsOfWriting, IsOutside};
ghost use Rattle.st_queue.specs.Place.{next_number};
ghost use Rattle.st_queue.specs.Queue.{after_refusal, is_due, with_discarded};
ghost use Rattle.st_queue.specs.Writing.{HasFramesLess, ToldSettled, behind_frame};
ghost use Rattle.st_queue.specs.declared.frame.QueueRefusal.TheVariants.{Broken, Full};

use st_disk::Disk;
use st_ops::Op;
use st_queue::{Queue, QueueRefusal};
use std::alloc::{AllocError, Global};

/// The same operations.
pub(crate) fn copy(alloc: Global, ops: &[Op]) -> Result<Vec<Op>, AllocError>
    ensures { IfOk result (λ copy. copy.items ≡ ops.now) }
{
    let mut copy = Vec::new(alloc);
    for op in ops {
        copy.push(op.clone()?)?;
    }
    Ok(copy)
}

/// The files of a queue's disk alone tell whether a next file is due. This changes nothing.
pub(crate) fn tells_due<D: Disk>(queue: &Queue<D>)
    ensures { queue.now.state.broken ≡ None → IfSome (D.history queue.now.disk) (λ h.
        is_due queue.now.state ≡ due_of queue.now.state.swap queue.now.state.discarded (seen h)) }
{
    let _is_due = queue.due();
}

// Makes the next file ready and enters it, where one is due.
fn enter_due<D: Disk>(queue: &mut Queue<D>) -> Result<(), QueueRefusal>
    ensures any_moment { queue.old.state.broken ≡ None → ToldLeavesOnly (D.history queue.old.disk) (D.history queue.new.disk)
        (HasFramesLess queue.old.state.discarded (D.history queue.old.disk)) }
    ensures stands { queue.new.state.broken ≡ None → ToldSettled (D.history queue.new.disk) queue.new.state.current }
    ensures frames { queue.old.state.broken ≡ None → queue.new.state.broken ≡ None
        → ToldFewer queue.old.state.discarded (D.history queue.old.disk) (D.history queue.new.disk) }
    ensures calls { OnOk result (D.history queue.new.disk
        ≡ option_map (λ h. made (begin_in queue.old.state (seen h)) h) (D.history queue.old.disk)) }
    ensures stopped { queue.old.state.broken ≡ None → IfErr result (λ refusal. IsOutside refusal
        → ToldStoppedIn (begin_in queue.old.state) (D.history queue.old.disk) (D.history queue.new.disk)) }
    ensures discarded { queue.new.state.discarded ≡ queue.old.state.discarded }
    ensures swap { queue.new.state.swap ≡ queue.old.state.swap }
    ensures limit { queue.new.state.limit ≡ queue.old.state.limit }
    ensures ok { OnOk result (queue.new.state.current ≡ Some (place_in queue.old.state)) }
    ensures next { next_number queue.new.state.current ≡ next_number queue.old.state.current }
    ensures broken { (faults : ℕ) → (result ≡ Err (Broken faults)) → (queue.old.state.broken ≡ Some faults) }
    ensures was_broken { (faults : ℕ) → (queue.old.state.broken ≡ Some faults) → IfErr result (λ refusal. refusal ≡ Broken faults) }
    ensures err { IfErr result (λ refusal. queue.new.state.broken ≡ (after_refusal refusal queue.old.state).broken) }
    ensures kept { OnOk result (queue.new.state.broken ≡ queue.old.state.broken) }
    ensures untouched { (faults : ℕ) → queue.old.state.broken ≡ Some faults → queue.new ≡ queue.old }
    ensures full { (long limit : ℕ) → (result ≡ Err (Full long limit)) → (queue.old.state.broken ≡ None)
        × (past_number (is_due queue.old.state) queue.old.state.current ≡ Some (record { length = long; limit = limit })) }
    ensures full_calls { (long limit : ℕ) → (result ≡ Err (Full long limit)) → queue.new.disk ≡ queue.old.disk }
    ensures within { OnOk result (queue.old.state.broken ≡ None → past_number (is_due queue.old.state) queue.old.state.current ≡ None) }
    ensures past { (past : Past) → queue.old.state.broken ≡ None
        → past_number (is_due queue.old.state) queue.old.state.current ≡ Some past → result ≡ Err (Full past.length past.limit) }
    ensures refuses { IfErr result IsOfWriting }
    ensures cause { HasFault (D.fault_count queue.old.disk) (D.fault_count queue.new.disk) result }
    ensures no_fault { OnOk result (D.fault_count queue.new.disk ≡ D.fault_count queue.old.disk) }
{
    if queue.due() {
        queue.recycle()?;
        queue.enter_next()?;
    }
    Ok(())
}

/// Appends a payload to the current file, or to the next one where it is due, and answers its frame's number.
pub(crate) fn append<D: Disk>(queue: &mut Queue<D>, payload: &[u8]) -> Result<u64, QueueRefusal>
    requires listed { IsTrue (is_payload payload.now) }
    ensures any_moment { queue.old.state.broken ≡ None → ToldLeavesOnly (D.history queue.old.disk) (D.history queue.new.disk)
        (HasLessOrMore queue.old.state.discarded (frame_in queue.old.state payload.now) (D.history queue.old.disk)) }
    ensures stands { queue.new.state.broken ≡ None → ToldSettled (D.history queue.new.disk) queue.new.state.current }
    ensures appends { OnOk result (queue.old.state.broken ≡ None
        × ToldOneMore queue.old.state.discarded (frame_in queue.old.state payload.now) (D.history queue.old.disk) (D.history queue.new.disk)) }
    ensures calls { OnOk result (D.history queue.new.disk
        ≡ option_map (λ h. made (calls_in queue.old.state payload.now (seen h)) h) (D.history queue.old.disk)) }
    ensures stopped { queue.old.state.broken ≡ None → IfErr result (λ refusal. IsOutside refusal → (behind : Store)
        → ToldStoppedIn (λ files. calls_of (commit_with queue.old.state.limit (is_due queue.old.state) queue.old.state.current payload.now files behind))
        (D.history queue.old.disk) (D.history queue.new.disk)) }
    ensures stays { IfErr result (λ _. queue.new.state.broken ≡ None
        → ToldFewer queue.old.state.discarded (D.history queue.old.disk) (D.history queue.new.disk)) }
    ensures discarded { queue.new.state.discarded ≡ queue.old.state.discarded }
    ensures swap { queue.new.state.swap ≡ queue.old.state.swap }
    ensures limit { queue.new.state.limit ≡ queue.old.state.limit }
    ensures same_next { IfErr result (λ _. next_number queue.new.state.current ≡ next_number queue.old.state.current) }
    ensures ok { OnOk result (queue.new.state.current ≡ Some (behind_frame (place_in queue.old.state) payload.now)) }
    ensures number { IfOk result (λ seq. seq ≡ (place_in queue.old.state).next) }
    ensures kept { OnOk result (queue.new.state.broken ≡ queue.old.state.broken) }
    ensures within { OnOk result (past_in queue.old.state payload.now ≡ None) }
    ensures untouched { (faults : ℕ) → queue.old.state.broken ≡ Some faults → queue.new ≡ queue.old }
    ensures broken { (faults : ℕ) → result ≡ Err (Broken faults) → queue.old.state.broken ≡ Some faults }
    ensures was_broken { (faults : ℕ) → queue.old.state.broken ≡ Some faults → result ≡ Err (Broken faults) }
    ensures full { (long limit : ℕ) → result ≡ Err (Full long limit) → (queue.old.state.broken ≡ None)
        × (past_in queue.old.state payload.now ≡ Some (record { length = long; limit = limit })) }
    ensures full_calls { (long limit : ℕ) → result ≡ Err (Full long limit) → IfSome (D.history queue.old.disk) (λ h. (behind : Store)
        → IsErrAnd (commit_with queue.old.state.limit (is_due queue.old.state) queue.old.state.current payload.now (seen h) behind)
        (IsPast h (D.history queue.new.disk) long limit)) }
    ensures past { (past : Past) → queue.old.state.broken ≡ None → past_in queue.old.state payload.now ≡ Some past
        → IsErrAnd result (λ refusal. (refusal ≡ Full past.length past.limit) ⊎ IsOutside refusal) }
    ensures err { IfErr result (λ refusal. queue.new.state.broken ≡ (after_refusal refusal queue.old.state).broken) }
    ensures refuses { IfErr result IsOfWriting }
    ensures cause { HasFault (D.fault_count queue.old.disk) (D.fault_count queue.new.disk) result }
    ensures no_fault { OnOk result (D.fault_count queue.new.disk ≡ D.fault_count queue.old.disk) }
{
    enter_due(queue)?;
    let seq = queue.append(payload)?;
    Ok(seq)
}

/// Discards the frames from before a snapshot, where it has ended with this frame. Answers where the snapshot in progress began.
pub(crate) fn discard<D: Disk>(queue: &mut Queue<D>, began: u64, seq: u64, ended: bool) -> u64
    ensures disk { queue.new.disk ≡ queue.old.disk }
    ensures state { queue.new.state
        ≡ (if ended then with_discarded (max queue.old.state.discarded began) queue.old.state else queue.old.state) }
    ensures began { result ≡ (if ended then began_behind seq else began) }
{
    if !ended {
        return began;
    }
    queue.discard_before(began);
    seq.saturating_add(1)
}
