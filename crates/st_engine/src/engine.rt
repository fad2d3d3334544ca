// A durable map over a disk.
ghost use Rattle.std.specs.Prelude.{◌≡◌, ◌≤◌, ◌^◌, ℕ, [], None, Ok, IsTrue, IfOk, IfErr, OnOk};
ghost use Rattle.std.specs.List.{AllByRecursion, list_all};
ghost use Rattle.st_disk.specs.History.{risen};
ghost use Rattle.st_disk.specs.Moments.{ToldLeavesOnly};
ghost use Rattle.st_ops.specs.Grammar.{Fits, is_change};
ghost use Rattle.st_ops.specs.Reading.{reading};
ghost use Rattle.st_ptree.specs.Entries.{pairs_of};
ghost use Rattle.st_queue.specs.declared.frame.QueueRefusal.TheVariants.{DiskFault};

use crate::{EngineMount, EngineRefusal, map, recovery, snapshot, writing};
use bytes::Bytes;
use rand_pcg::Pcg32;
use st_disk::Disk;
use st_fold::Settings;
use st_ops::{Op, encode, form_of_parts, one_spelling};
use st_ptree::PTree;
use st_queue::Queue;
use std::alloc::{AllocError, Global};
use std::marker::Model;

/// A durable map over a disk: each commit changes it by its operations, whole or not at all.
#[derive(Drop)]
pub struct Engine<D: Disk> {
    alloc: Global,
    queue: Queue<D>,
    pairs: PTree<Bytes>,
    fresh: bool,
    // the key of the last item of the snapshot in progress, and the number of its first frame
    cursor: Option<Bytes>,
    began: u64,
    quota: u64,
    // where the priorities of its entries come from
    random: Pcg32,
}

impl<D: Disk> Model for Engine<D> {
    ghost use Rattle.st_ptree.specs.Entries.{pairs_of};
    ghost use Rattle.st_engine.specs.Engine.{Mounted, Keeps, over};

    ghost Value = { Mounted D };

    ghost view = { λ e. over e.queue (pairs_of e.pairs) e.fresh e.cursor e.began e.quota };

    ghost invariant = { λ e. Keeps D.history (over e.queue (pairs_of e.pairs) e.fresh e.cursor e.began e.quota) };
}

// The map behind a commit, the same to be told, the commit's payload, what the snapshot has come to, and where further
// priorities come from.
#[derive(Drop)]
struct Prepared {
    pairs: PTree<Bytes>,
    told: PTree<Bytes>,
    payload: Vec<u8>,
    cursor: Option<Bytes>,
    ended: bool,
    random: Pcg32,
}

impl<D: Disk> Engine<D> {
    ghost use Rattle.st_engine.specs.Answers.{Answers, Commits, FailsToMount, Mounts, Refuses, payload_for};
    ghost use Rattle.st_engine.specs.Commit.{is_ended_by};
    ghost use Rattle.st_engine.specs.Engine.{IsLeft, Keeps, ToldAgrees};
    ghost use Rattle.st_engine.specs.Replay.{ops_on};
    ghost use Rattle.st_engine.specs.Snapshot.{cursor_behind, room_of, whole_of};
    ghost use Rattle.std.specs.Cmp.Lexicographic.{slice_cmp};
    ghost use Rattle.std.specs.FinMap.Entries.{is_sorted};
    ghost use Rattle.std.specs.Ordering.{nat_cmp};
    ghost use Rattle.st_ops.specs.Grammar.{has_form};
    ghost use Rattle.st_queue.specs.Mounting.{HasFault};

    /// Syncs both files, and makes the map of the frames that they hold. The settings' `swap` and `limit` are lengths of a
    /// file in bytes.
    pub fn mount(alloc: Global, disk: D, settings: &Settings) -> Result<Engine<D>, EngineMount<D>>
        requires swap { settings.now.swap ≤ 2 ^ 30 }
        requires limit { settings.now.limit ≤ 2 ^ 30 }
        ensures ok { IfOk result (Mounts D.history disk
            (record { quota = settings.now.quota; swap = settings.now.swap; limit = settings.now.limit })) }
        ensures agrees { IfOk result (ToldAgrees D.history) }
        ensures err { IfErr result (FailsToMount D.history disk) }
        ensures cause { IfErr result (λ e. (faults : ℕ) → e.why ≡ DiskFault faults
            → (faults ≡ D.fault_count e.disk) × (risen (D.fault_count disk) ≤ D.fault_count e.disk)) }
        ensures never_falls { IfErr result (λ e. D.fault_count disk ≤ D.fault_count e.disk) }
        ensures no_fault { IfOk result (λ engine. D.fault_count engine.disk ≡ D.fault_count disk) }
    {
        let (mut queue, frames) = Queue::mount(alloc, disk, settings.swap, settings.limit)?;
        match recovery::recover(alloc, &frames, settings.seed) {
            Ok(recovered) => {
                queue.discard_before(recovered.discarded);
                writing::tells_due(&queue);
                Ok(Engine {
                    alloc,
                    queue,
                    pairs: recovered.pairs,
                    fresh: frames.is_empty(),
                    cursor: recovered.cursor,
                    began: recovered.began,
                    quota: settings.quota,
                    random: recovered.random,
                })
            }
            Err(_) => Err(EngineMount {
                disk: queue.dismount(),
                why: EngineRefusal::NoMemory,
            }),
        }
    }

    /// Makes the operations durable, and answers the map behind them. Each of them is a set or a clear.
    pub fn commit(&mut self, ops: &[Op]) -> Result<PTree<Bytes>, EngineRefusal>
        requires changes { IsTrue (list_all is_change ops.now) }
        requires fits { AllByRecursion Fits ops.now }
        ensures told { IfOk result (λ pairs. pairs_of pairs ≡ self.new.store.pairs) }
        ensures ok { OnOk result (Commits D.history ops.now self.old self.new) }
        ensures err { IfErr result (Refuses D.history ops.now self.old self.new) }
        ensures answers { Answers ops.now self.old result }
        ensures any_moment { self.old.broken ≡ None → ToldLeavesOnly (D.history self.old.disk) (D.history self.new.disk)
            (IsLeft (D.history self.old.disk) self.old.store ops.now) }
        ensures agrees { ToldAgrees D.history self.new }
        ensures bounds { self.new.bounds ≡ self.old.bounds }
        ensures cause { HasFault (D.fault_count self.old.disk) (D.fault_count self.new.disk) result }
        ensures no_fault { OnOk result (D.fault_count self.new.disk ≡ D.fault_count self.old.disk) }
    {
        let ready = self.prepared(ops)?;
        let written = writing::append(&mut self.queue, &ready.payload);
        writing::tells_due(&self.queue);
        let seq = written?;
        self.began = writing::discard(&mut self.queue, self.began, seq, ready.ended);
        writing::tells_due(&self.queue);
        self.pairs = ready.pairs;
        self.cursor = ready.cursor;
        self.random = ready.random;
        self.fresh = false;
        Ok(ready.told)
    }

    // What a commit of the operations needs memory for.
    fn prepared(&self, ops: &[Op]) -> Result<Prepared, AllocError>
        requires changes { IsTrue (list_all is_change ops.now) }
        requires fits { AllByRecursion Fits ops.now }
        ensures pairs { IfOk result (λ ready. pairs_of ready.pairs ≡ ops_on self.now.store.pairs ops.now) }
        ensures told { IfOk result (λ ready. ready.told ≡ ready.pairs) }
        ensures payload { IfOk result (λ ready. ready.payload.items ≡ payload_for ops.now self.now) }
        ensures read { IfOk result (λ ready. reading ready.payload.items
            ≡ Ok (whole_of self.now.bounds.quota self.now.store.cursor self.now.store.pairs ops.now)) }
        ensures cursor { IfOk result (λ ready. ready.cursor
            ≡ cursor_behind self.now.store.cursor (room_of self.now.bounds.quota ops.now) (ops_on self.now.store.pairs ops.now)) }
        ensures ended { IfOk result (λ ready. ready.ended ≡ is_ended_by self.now.bounds.quota self.now.store ops.now) }
        ensures before { IsTrue (is_sorted (slice_cmp nat_cmp) self.now.store.pairs) }
        ensures form { IfOk result (λ _. IsTrue (has_form
            (whole_of self.now.bounds.quota self.now.store.cursor self.now.store.pairs ops.now))) }
        ensures keeps { Keeps D.history self.now }
    {
        form_of_parts();
        one_spelling();
        let mut random = self.random.clone()?;
        let pairs = map::changed(&self.pairs, ops, &mut random)?;
        let told = pairs.share()?;
        let written = snapshot::write(self.alloc, ops, &pairs, self.cursor.clone()?, self.quota)?;
        let payload = encode(self.alloc, &written.ops)?;
        Ok(Prepared {
            pairs,
            told,
            payload,
            cursor: written.cursor,
            ended: written.ended,
            random,
        })
    }

    /// The map.
    pub fn pairs(&self) -> Result<PTree<Bytes>, AllocError>
        ensures pairs { IfOk result (λ pairs. pairs_of pairs ≡ self.now.store.pairs) }
        ensures agrees { ToldAgrees D.history self.now }
    {
        self.pairs.share()
    }

    /// Whether no frame was ever read or written. Then the map is empty.
    pub fn is_fresh(&self) -> bool
        ensures fresh { result ≡ self.now.store.fresh }
        ensures untouched { IsTrue result → self.now.store.pairs ≡ [] }
        ensures agrees { ToldAgrees D.history self.now }
    {
        self.fresh
    }

    /// The disk.
    pub fn dismount(self) -> D
        ensures { result ≡ self.disk }
    {
        let Engine {
            alloc: _,
            queue,
            pairs: _,
            fresh: _,
            cursor: _,
            began: _,
            quota: _,
            random: _,
        } = self;
        queue.dismount()
    }
}
