//! The board.
ghost use Rattle.std.specs.Prelude.{◌≡◌, ◌≤◌, ◌<◌, ◌∷◌, ◌++◌, [], ℕ, List, None, Some, OnOk, OnErr, IfOk, IfErr, IfSome, IsTrue, is_some, length};
ghost use Rattle.st_fold.specs.declared.report.Event.TheVariants as event;
ghost use Rattle.st_ptree.specs.Entries.{pairs_of};

use crate::committing::{has_rows, ops_of};
use crate::versions::put_next;
use crate::{ApplyRefusal, CommitJob, Opening, Story, View, ViewRefusal};
use bytes::Bytes;
use st_course::course_goes_on;
use st_fold::{Ending, Event, Settings};
use st_gate::{Judged, judge};
use st_key::Range;
use st_list::Items;
use st_meta::Meta;
use st_mutation::{Batch, clip_is_the_part_inside};
use st_ptree::PTree;
use st_shards::ShardMap;
use st_versioned::{Window, decisions_above_stay, what_is_written_decides};
use std::alloc::{AllocError, Global};
use std::marker::{Brand, Model, PhantomData};
use std::sync::ledger::Blank;

/// The versions that a server can read over its durable base, and the trace of what it did.
#[derive(Drop)]
pub struct Board<N: Story> {
    alloc: Global,
    settings: Settings,
    newest: u64,
    // what the base is stored with
    durable: Meta,
    // and what it will be stored with once the commit in flight is durable
    flight: Option<Meta>,
    // what the first commit of the life clears
    clears: Vec<Range>,
    window: Window,
    base: PTree<Bytes>,
    shards: ShardMap,
    // there is room for the end of the flight and for the last event
    trace: Vec<Event>,
    story: PhantomData<N>,
}

impl<N: Story> Model for Board<N> {
    ghost use Rattle.std.specs.Prelude.{◌≡◌, ◌+◌, ◌≤◌, vec_len, vec_capacity};
    ghost use Rattle.std.specs.Option.{ForSome};
    ghost use Rattle.st_model.specs.State.{assigned};
    ghost use Rattle.st_ptree.specs.Entries.{pairs_of};
    ghost use Rattle.st_course.specs.Course.{clears_after};
    ghost use Rattle.st_board.specs.Stands.{Keeps, Standing, board_of, still_to_come};

    ghost Value = { Standing };

    ghost view = { λ b. board_of b.trace.items b.newest b.durable b.flight b.shards b.window (pairs_of b.base) };

    ghost invariant = { λ b.
        Keeps N.given N.opening N.store (board_of b.trace.items b.newest b.durable b.flight b.shards b.window (pairs_of b.base))
        × (b.settings ≡ N.given.settings)
        × (b.durable.assigned ≡ assigned N.given.own N.given.log b.durable.version)
        × ForSome b.flight (λ next. next.assigned ≡ assigned N.given.own N.given.log next.version)
        × (b.clears.items ≡ clears_after N.given N.opening N.store.fresh b.trace.items)
        × (vec_len b.trace + still_to_come b.flight ≤ vec_capacity b.trace) };
}

impl<N: Story> Board<N> {
    ghost use Rattle.std.specs.Prelude.{◌↔◌, ◌⊎◌, IsErrOf};
    ghost use Rattle.std.specs.Option.{ForSome};
    ghost use Rattle.st_board.specs.Base.{AreChanges, value_behind};
    ghost use Rattle.st_course.specs.Course.{job_after};
    ghost use Rattle.st_course.specs.Jobs.{clears_of, meta_of};
    ghost use Rattle.st_meta.specs.Stored.{IsState};
    ghost use Rattle.st_board.specs.Kept.{IsUsers};
    ghost use Rattle.st_board.specs.Stands.{IsStill, StandsFor};
    ghost use Rattle.st_fold.specs.Endings.{last_event};
    ghost use Rattle.st_course.specs.Sent.{value_of};
    ghost use Rattle.st_board.specs.Views.{IsViewed};
    ghost use Rattle.st_versioned.specs.Root.{over, value_at};
    ghost use Rattle.st_board.specs.declared.refusal.ApplyRefusal.TheVariants as apply;
    ghost use Rattle.st_model.specs.State.{after_batch, assigned, began, commit_due, commit_version, end_commit, first_state, next_batch};

    /// The board of an opening, of which nothing was applied. Its base has the values of the opening's version. The log owns all
    /// keys and moves none.
    pub fn begin(alloc: Global, o: Opening, s: &Settings) -> Result<Board<N>, AllocError>
        requires named { N.opening ≡ record { version = o.version; available = o.available } }
        requires settings { s.now ≡ N.given.settings }
        requires still { IsStill N.given N.opening }
        requires assigned { o.assigned ≡ assigned N.given.own N.given.log o.version }
        requires base { (key : List ℕ) → IsUsers key → value_at (pairs_of o.base) key ≡ value_of N.given.log o.version key }
        requires pairs { N.store.pairs ≡ pairs_of o.base }
        requires clears { o.clears.items ≡ clears_of N.store.fresh o.available }
        ensures trace { IfOk result (λ board. board.trace ≡ event.Opened o.version ∷ []) }
        ensures state { IfOk result (λ board. board.state ≡ first_state N.given N.opening) }
        ensures base { IfOk result (λ board. board.base ≡ pairs_of o.base) }
    {
        let mut trace = Vec::new(alloc);
        trace.reserve(2)?;
        trace.push_reserved(Event::Opened(o.version));
        let Ok(shards) = ShardMap::new(alloc, &o.assigned, &o.available, o.version) else {
            return Err(AllocError);
        };
        let window = Window::new(alloc, o.version, s.seed)?;
        Ok(Board {
            alloc,
            settings: *s,
            newest: o.version,
            durable: Meta {
                version: o.version,
                assigned: o.assigned,
                available: o.available,
            },
            flight: None,
            clears: o.clears,
            window,
            base: o.base,
            shards,
            trace,
            story: PhantomData,
        })
    }

    /// The settings.
    pub fn settings(&self) -> &Settings
        ensures { result.now ≡ N.given.settings }
    {
        &self.settings
    }

    /// What the versions show of a range: the root and the base that make the map of a version, for each of its keys. Else the
    /// version is judged first, and then the keys. Until then it takes no memory.
    pub fn view<'a>(&'a self, range: &'a Range, version: u64) -> Result<View, ViewRefusal<'a>>
        ensures { IsViewed N.given.log self.now.state range.now version result }
    {
        match judge(self.durable.version, self.newest, version) {
            Judged::TooOld { oldest } => return Err(ViewRefusal::TooOld { oldest }),
            Judged::NotYet { newest } => return Err(ViewRefusal::NotYet { newest }),
            Judged::Ready => {}
        }
        if let Err(at) = self.shards.readable(range) {
            return Err(ViewRefusal::WrongShard { at });
        }
        match self.shared(version) {
            Ok(view) => Ok(view),
            Err(AllocError) => Err(ViewRefusal::NoMemory),
        }
    }

    // What makes the map of a version.
    fn shared(&self, version: u64) -> Result<View, AllocError>
        requires oldest { self.now.state.oldest ≤ version }
        requires newest { version ≤ self.now.state.newest }
        ensures { IfOk result (λ view. (key : List ℕ) → IsUsers key → over (pairs_of view.root.entries) (pairs_of view.base) key ≡ value_of N.given.log version key) }
    {
        match self.window.root_at(version)? {
            Some(root) => Ok(View {
                root,
                base: self.base.share()?,
            }),
            // a root stands for each version that can be read
            None => unreachable!(),
        }
    }

    /// The trace with its last event: the life is closed, or killed, or neither where it is cut short. It takes no memory.
    pub fn finish(self, end: Ending) -> Vec<Event>
        ensures { result.items ≡ self.trace ++ last_event end }
    {
        let Board {
            alloc: _,
            settings: _,
            newest: _,
            durable: _,
            flight: _,
            clears: _,
            window: _,
            base: _,
            shards: _,
            mut trace,
            story: _,
        } = self;
        match end {
            Ending::Closed => trace.push_reserved(Event::Closed),
            Ending::Killed => trace.push_reserved(Event::Killed),
            Ending::Faulted => {}
        }
        trace
    }

    /// The newest version.
    pub fn newest(&self) -> u64
        ensures { result ≡ self.now.state.newest }
    {
        self.newest
    }

    /// The oldest version that can be read.
    pub fn oldest(&self) -> u64
        ensures { result ≡ self.now.state.oldest }
    {
        self.durable.version
    }

    /// The durable version.
    pub fn durable(&self) -> u64
        ensures { result ≡ self.now.state.durable }
    {
        self.durable.version
    }

    /// How many events the trace has.
    pub fn place(&self) -> u64
        ensures { result ≡ length self.now.trace }
    {
        self.trace.len() as u64
    }

    /// The events so far.
    pub fn trace(&self) -> &[Event]
        ensures trace { result.now ≡ self.now.trace }
        ensures stands { StandsFor N.given N.opening N.store self.now }
    {
        self.trace.as_slice()
    }

    /// Applies the log's next batch, at a version above the newest. A batch of another version is refused.
    pub fn apply(&mut self, batch: &Batch) -> Result<(), ApplyRefusal>
        requires { self.old.state.newest < batch.now.version → next_batch N.given self.old.state ≡ Some batch.now }
        ensures applied { OnOk result (self.new.trace ≡ self.old.trace ++ event.Applied batch.now.version ∷ []) }
        ensures state { OnOk result (self.new.state ≡ after_batch self.old.state batch.now) }
        ensures base { self.new.base ≡ self.old.base }
        ensures err { OnErr result (self.new ≡ self.old) }
        ensures not_next { IsErrOf result (apply.NotNext self.old.state.newest) ↔ (batch.now.version ≤ self.old.state.newest) }
        ensures refused { IfErr result (λ why. (why ≡ apply.NotNext self.old.state.newest) ⊎ (why ≡ apply.NoMemory)) }
    {
        if batch.version <= self.newest {
            return Err(ApplyRefusal::NotNext {
                newest: self.newest,
            });
        }
        self.apply_next(batch)?;
        Ok(())
    }

    fn apply_next(&mut self, batch: &Batch) -> Result<(), AllocError>
        requires above { self.old.state.newest < batch.now.version }
        requires next { next_batch N.given self.old.state ≡ Some batch.now }
        ensures applied { OnOk result (self.new.trace ≡ self.old.trace ++ event.Applied batch.now.version ∷ []) }
        ensures state { OnOk result (self.new.state ≡ after_batch self.old.state batch.now) }
        ensures base { self.new.base ≡ self.old.base }
        ensures err { OnErr result (self.new ≡ self.old) }
    {
        course_goes_on();
        decisions_above_stay();
        what_is_written_decides();
        clip_is_the_part_inside();
        self.trace.reserve(3)?;
        put_next::<Brand>(
            self.alloc,
            &mut self.window,
            &self.base,
            batch,
            self.shards.pieces(),
            Blank::new(1),
        )?;
        self.newest = batch.version;
        self.trace.push_reserved(Event::Applied(batch.version));
        Ok(())
    }

    // The version that a commit would begin with: of the batches that the window lets go the last, or the durable version.
    fn commit_version(&self) -> u64
        ensures { result ≡ commit_version N.given self.now.state }
    {
        let bound = self.newest.saturating_sub(self.settings.window);
        self.window.kept_at(bound).unwrap_or(self.durable.version)
    }

    /// Whether a commit may begin: none is in flight, and the window lets a batch go that isn't durable, or rows were fetched
    /// that aren't in the base.
    pub fn commit_due(&self) -> bool
        ensures { result ≡ commit_due N.given self.now.state }
    {
        self.flight.is_none()
            && (self.durable.version < self.commit_version()
                || self.shards.pieces().iter().any(has_rows))
    }

    /// Begins a commit and hands out its job, where one is due. It takes the memory that `committed` needs.
    pub fn take_commit(&mut self) -> Result<Option<CommitJob>, AllocError>
        ensures due { IfOk result (λ taken. is_some taken ≡ commit_due N.given self.old.state) }
        ensures began { IfOk result (λ taken. IfSome taken (λ job. self.new.trace ≡ self.old.trace ++ event.Began job.version ∷ [])) }
        ensures state { IfOk result (λ taken. IfSome taken (λ job. self.new.state ≡ began N.given self.old.state job.version)) }
        ensures version { IfOk result (λ taken. IfSome taken (λ job. job.version ≡ commit_version N.given self.old.state)) }
        ensures job { IfOk result (λ taken. IfSome taken (λ job. job_after N.given N.opening N.store.fresh self.new.trace ≡ Some job)) }
        ensures changes { IfOk result (λ taken. IfSome taken (λ job. AreChanges job.ops)) }
        ensures stored { IfOk result (λ taken. IfSome taken (λ job. ForSome self.new.state.flight (λ flight. IsState (meta_of N.given flight)))) }
        ensures base { self.new.base ≡ self.old.base }
        ensures none { IfOk result (λ taken. taken ≡ None → self.new ≡ self.old) }
        ensures err { OnErr result (self.new ≡ self.old) }
    {
        if !self.commit_due() {
            return Ok(None);
        }
        Ok(Some(self.begin_commit()?))
    }

    fn begin_commit(&mut self) -> Result<CommitJob, AllocError>
        requires { IsTrue (commit_due N.given self.old.state) }
        ensures began { IfOk result (λ job. self.new.trace ≡ self.old.trace ++ event.Began job.version ∷ []) }
        ensures state { IfOk result (λ job. self.new.state ≡ began N.given self.old.state job.version) }
        ensures version { IfOk result (λ job. job.version ≡ commit_version N.given self.old.state) }
        ensures job { IfOk result (λ job. job_after N.given N.opening N.store.fresh self.new.trace ≡ Some job) }
        ensures changes { IfOk result (λ job. AreChanges job.ops) }
        ensures stored { IfOk result (λ job. ForSome self.new.state.flight (λ flight. IsState (meta_of N.given flight))) }
        ensures base { self.new.base ≡ self.old.base }
        ensures err { OnErr result (self.new ≡ self.old) }
    {
        course_goes_on();
        let version = self.commit_version();
        let next = Meta {
            version,
            assigned: self.durable.assigned.clone()?,
            available: self.durable.available.clone()?,
        };
        let ops = ops_of(self.alloc, self.clears.as_slice(), &self.window, &next)?;
        self.trace.reserve(3)?;
        let Ok(()) = self.shards.take() else {
            return Err(AllocError);
        };
        self.flight = Some(next);
        self.trace.push_reserved(Event::Began(version));
        Ok(CommitJob {
            version,
            ops: Items::from_vec(ops),
        })
    }

    /// The commit of a job is durable, and this is the base that its operations made: the versions below its own are forgotten.
    /// It takes no memory.
    pub fn committed(&mut self, job: CommitJob, base: PTree<Bytes>)
        requires job { job_after N.given N.opening N.store.fresh self.old.trace ≡ Some job }
        requires base { (key : List ℕ) → IsUsers key → value_at (pairs_of base) key ≡ value_behind key (value_at self.old.base key) job.ops }
        ensures trace { self.new.trace ≡ self.old.trace ++ event.Durable job.version ∷ [] }
        ensures state { end_commit self.old.state job.version self.old.state.flight ≡ Some self.new.state }
        ensures base { self.new.base ≡ pairs_of base }
    {
        course_goes_on();
        // the job's commit is in flight
        let Some(next) = self.flight.take() else {
            unreachable!()
        };
        self.window.forget_before(job.version);
        self.shards.settle(job.version);
        self.durable = next;
        self.base = base;
        self.clears.clear();
        self.trace.push_reserved(Event::Durable(job.version));
    }
}
