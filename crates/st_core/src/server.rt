//! The server.
ghost use Rattle.std.specs.Borrow.{sem};
ghost use Rattle.std.specs.Prelude.{◌≡◌, ◌≤◌, ◌+◌, ℕ, fold, None, OnOk, OnErr, IfOk, IfErr, IfSome, IsTrue, length, is_some, if◌then◌else◌};
ghost use Rattle.st_board.specs.Base.{all_served};
ghost use Rattle.st_board.specs.Stands.{IsStill};
ghost use Rattle.st_core.specs.Acts.{act_on, event_of, reached_by, to};
ghost use Rattle.st_core.specs.Driving.{IsRun, IsStopped, behind_flight, ran_at, run_on};
ghost use Rattle.st_core.specs.Refusing.{IsOfCommit, IsRefused, IsWell};
ghost use Rattle.st_core.specs.Server.{HoldsState, IsMade, OpenWithin, Serves};
ghost use Rattle.st_course.specs.Course.{job_after};
ghost use Rattle.st_disk.specs.History.{Files, MayLeave};
ghost use Rattle.st_disk.specs.Moments.{ToldLeavesOnly};
ghost use Rattle.st_fold.specs.declared.plan.Act.TheVariants as act;
ghost use Rattle.st_model.specs.Trace.{due};
ghost use Rattle.st_restart.specs.After.{OpenBehind};
ghost use Rattle.st_restart.specs.Agreement.{is_version};

use crate::DriveRefusal;
use st_board::{ApplyRefusal, Board, CommitJob, Story};
use st_course::course_goes_on;
use st_cursor::Cursor;
use st_disk::{Disk, calls_join};
use st_engine::{Engine, EngineRefusal, operations_change_each_key};
use st_fold::Act;
use st_meta::written_is_stored;
use st_mutation::Batch;
use st_restart::{stored_ranges_are_of_users, stores_open};
use std::alloc::AllocError;
use std::marker::Model;

/// A storage server: what it can read and what it did, over the map that it stores, with the log from which it takes its batches.
#[derive(Drop)]
pub struct Server<N: Story, D: Disk, P> {
    board: Board<N>,
    engine: Engine<D>,
    peer: P,
    cursor: Cursor,
    // the job of the commit in flight
    flight: Option<CommitJob>,
}

impl<N: Story, D: Disk, P> Model for Server<N, D, P> {
    ghost use Rattle.st_core.specs.Server.{Serving};

    ghost Value = { Serving D P };

    ghost view = { λ s. record { board = s.board; engine = s.engine; peer = s.peer; cursor = s.cursor; flight = s.flight } };
}

/// What a server is made of.
#[derive(Drop)]
pub struct Parts<N: Story, D: Disk, P> {
    pub board: Board<N>,
    pub engine: Engine<D>,
    pub peer: P,
    pub cursor: Cursor,
    pub flight: Option<CommitJob>,
}

// How many events an act made.
fn count_of(is_made: bool) -> u64
    ensures { result ≡ (if is_made then 1 else 0) }
{
    if is_made { 1 } else { 0 }
}

impl<N: Story, D: Disk, P> Server<N, D, P> {
    ghost use Rattle.st_core.specs.Lending.{LendsBoard};

    /// The server of a life that did nothing yet.
    pub fn new(board: Board<N>, engine: Engine<D>, peer: P, mut cursor: Cursor) -> Server<N, D, P>
        requires still { IsStill N.given N.opening }
        requires log { cursor.log ≡ N.given.log }
        requires popped { cursor.popped ≤ board.state.newest }
        requires none { board.state.flight ≡ None }
        requires made { IsMade N.given N.opening N.store board.trace engine.store.pairs }
        requires stored { HoldsState N.given board.state engine.store.fresh engine.store.pairs }
        requires version { IsTrue (is_version N.given.log board.state.durable) }
        requires sound { engine.broken ≡ None }
        ensures board { result.board ≡ board }
        ensures engine { result.engine ≡ engine }
        ensures peer { result.peer ≡ peer }
        ensures flight { result.flight ≡ None }
        ensures serves { Serves N.given N.opening N.store D.history result }
    {
        let Ok(()) = cursor.rewind(board.newest()) else {
            unreachable!()
        };
        let _ = board.trace();
        let _ = engine.is_fresh();
        Server {
            board,
            engine,
            peer,
            cursor,
            flight: None,
        }
    }

    /// The board.
    pub fn board(&self) -> &Board<N>
        ensures board { result.now ≡ self.now.board }
    {
        &self.board
    }

    /// The board, to be changed.
    pub fn board_mut(&mut self) -> &mut Board<N>
        ensures* writes_back { sem 𝓛 (LendsBoard N.row D.row P.row N.Story D.Disk self.entry result) }
        ensures board { result.now ≡ self.old.board }
    {
        &mut self.board
    }

    /// The log.
    pub fn log(&self) -> &[Batch]
        requires serves { Serves N.given N.opening N.store D.history self.now }
        ensures { result.now ≡ N.given.log }
    {
        self.cursor.log()
    }

    /// What is due first: to end the commit in flight, to begin one, or to apply a batch of at most this version. None exactly
    /// at rest.
    pub fn due(&self, upto: u64) -> Option<Act>
        requires serves { Serves N.given N.opening N.store D.history self.now }
        ensures { result ≡ due (to upto N.given) self.now.board.state }
    {
        // its trace tells what is in flight
        let _ = self.board.trace();
        if self.flight.is_some() {
            return Some(Act::Durable);
        }
        if self.board.commit_due() {
            return Some(Act::Began);
        }
        let Some(batch) = self.cursor.following() else {
            return None;
        };
        if batch.version <= upto {
            Some(Act::Apply)
        } else {
            None
        }
    }

    // Applies the next batch, unless its version is greater than this one.
    fn apply(&mut self, upto: u64) -> Result<bool, AllocError>
        requires serves { Serves N.given N.opening N.store D.history self.old }
        requires upto { upto ≤ N.given.upto }
        ensures told { IfOk result (λ done. done ≡ is_some (event_of (to upto N.given) self.old.board.state act.Apply)) }
        ensures acted { OnOk result (reached_by self.new.board ≡ act_on (to upto N.given) (reached_by self.old.board) act.Apply) }
        ensures due { OnErr result (IsTrue (is_some (event_of (to upto N.given) self.old.board.state act.Apply))) }
        ensures engine { self.new.engine ≡ self.old.engine }
        ensures err { OnErr result (self.new ≡ self.old) }
        ensures serves { Serves N.given N.opening N.store D.history self.new }
    {
        course_goes_on();
        let _ = self.board.trace();
        let Some(batch) = self.cursor.following() else {
            return Ok(false);
        };
        let version = batch.version;
        if version > upto {
            return Ok(false);
        }
        match self.board.apply(batch) {
            Ok(()) => {}
            Err(ApplyRefusal::NoMemory) => return Err(AllocError),
            // it is above the newest version
            Err(ApplyRefusal::NotNext { .. }) => unreachable!(),
        }
        let Ok(()) = self.cursor.rewind(version) else {
            unreachable!()
        };
        Ok(true)
    }

    // Begins a commit, where one is due.
    fn begin(&mut self) -> Result<bool, AllocError>
        requires serves { Serves N.given N.opening N.store D.history self.old }
        ensures told { IfOk result (λ done. done ≡ is_some (event_of N.given self.old.board.state act.Began)) }
        ensures acted { OnOk result (reached_by self.new.board ≡ act_on N.given (reached_by self.old.board) act.Began) }
        ensures due { OnErr result (IsTrue (is_some (event_of N.given self.old.board.state act.Began))) }
        ensures engine { self.new.engine ≡ self.old.engine }
        ensures err { OnErr result (self.new ≡ self.old) }
        ensures serves { Serves N.given N.opening N.store D.history self.new }
    {
        course_goes_on();
        let _ = self.board.trace();
        if !self.board.commit_due() {
            return Ok(false);
        }
        let Some(begun) = self.board.take_commit()? else {
            unreachable!()
        };
        self.flight = Some(begun);
        Ok(true)
    }

    // Ends the commit in flight, where there is one.
    fn end(&mut self) -> Result<bool, EngineRefusal>
        requires serves { Serves N.given N.opening N.store D.history self.old }
        ensures told { IfOk result (λ done. done ≡ is_some (event_of N.given self.old.board.state act.Durable)) }
        ensures acted { OnOk result (reached_by self.new.board ≡ act_on N.given (reached_by self.old.board) act.Durable) }
        ensures due { OnErr result (IsTrue (is_some (event_of N.given self.old.board.state act.Durable))) }
        ensures any_moment { ToldLeavesOnly (D.history self.old.engine.disk) (D.history self.new.engine.disk) (OpenWithin N.given N.opening (length self.old.board.trace) self.new.board.trace) }
        ensures ran { OnOk result (IfSome (D.history self.old.engine.disk) (λ h. IsRun D.history h self.new.engine
            (behind_flight self.old.engine.bounds (ran_at self.old.board self.old.engine h) (job_after N.given N.opening N.store.fresh self.old.board.trace)))) }
        ensures well { OnOk result (IsWell D.fault_count self.old.engine self.new.engine) }
        ensures refused { IfErr result (IsOfCommit D.history D.fault_count self.old.engine self.new.engine self.new.flight) }
        ensures err { OnErr result (self.new.board ≡ self.old.board) }
        ensures serves { Serves N.given N.opening N.store D.history self.new }
    {
        operations_change_each_key();
        course_goes_on();
        written_is_stored();
        stores_open();
        stored_ranges_are_of_users();
        let _ = self.board.trace();
        let Some(job) = self.flight.take() else {
            return Ok(false);
        };
        match self.engine.commit(job.ops.as_slice()) {
            Ok(base) => {
                self.board.committed(job, base);
                Ok(true)
            }
            Err(why) => {
                self.flight = Some(job);
                Err(why)
            }
        }
    }

    // What a crash leaves now opens behind the trace, and all keys are served.
    fn opens(&self)
        requires serves { Serves N.given N.opening N.store D.history self.now }
        ensures now { ToldLeavesOnly (D.history self.now.engine.disk) (D.history self.now.engine.disk) (OpenWithin N.given N.opening (length self.now.board.trace) self.now.board.trace) }
        ensures pieces { self.now.board.state.pieces ≡ all_served }
    {
        operations_change_each_key();
        written_is_stored();
        stores_open();
        stored_ranges_are_of_users();
        let _ = self.board.trace();
    }

    fn act(&mut self, action: Act, upto: u64) -> Result<bool, DriveRefusal>
        requires serves { Serves N.given N.opening N.store D.history self.old }
        requires upto { upto ≤ N.given.upto }
        ensures told { IfOk result (λ done. done ≡ is_some (event_of (to upto N.given) self.old.board.state action)) }
        ensures acted { OnOk result (reached_by self.new.board ≡ act_on (to upto N.given) (reached_by self.old.board) action) }
        ensures due { OnErr result (IsTrue (is_some (event_of (to upto N.given) self.old.board.state action))) }
        ensures any_moment { ToldLeavesOnly (D.history self.old.engine.disk) (D.history self.new.engine.disk) (OpenWithin N.given N.opening (length self.old.board.trace) self.new.board.trace) }
        ensures ran { OnOk result (IfSome (D.history self.old.engine.disk) (λ h. IsRun D.history h self.new.engine
            (run_on N.given N.opening N.store.fresh self.old.engine.bounds upto (ran_at self.old.board self.old.engine h) action))) }
        ensures well { OnOk result (IsWell D.fault_count self.old.engine self.new.engine) }
        ensures refused { IfErr result (IsRefused D.history D.fault_count self.old.engine self.new.engine self.new.flight action) }
        ensures err { OnErr result (self.new.board ≡ self.old.board) }
        ensures serves { Serves N.given N.opening N.store D.history self.new }
    {
        self.opens();
        match action {
            Act::Apply => Ok(self.apply(upto)?),
            Act::Began => Ok(self.begin()?),
            Act::Durable => Ok(self.end()?),
            // all keys are served
            Act::Start | Act::Block => Ok(false),
        }
    }

    /// Does these acts, one after the other, each where it is due, with no batch above `upto`; and answers how many made an
    /// event. The calls that it makes of the disk, and the store behind them, are those of the commits that it ended. Where one
    /// that is due is refused, those before it stand; and the disk refuses none but the end of a commit. At each moment meanwhile
    /// a crash leaves files that open behind the trace that it had come to.
    pub fn drive(&mut self, acts: &[Act], upto: u64) -> Result<u64, DriveRefusal>
        requires serves { Serves N.given N.opening N.store D.history self.old }
        requires upto { upto ≤ N.given.upto }
        ensures told { IfOk result (λ done. length self.new.board.trace ≡ length self.old.board.trace + done) }
        ensures acted { OnOk result (reached_by self.new.board ≡ fold (act_on (to upto N.given)) (reached_by self.old.board) acts.now) }
        ensures stopped { IfErr result (IsStopped N.given N.opening N.store.fresh upto D.history D.fault_count self.old acts.now self.new) }
        ensures ran { OnOk result (IfSome (D.history self.old.engine.disk) (λ h. IsRun D.history h self.new.engine
            (fold (run_on N.given N.opening N.store.fresh self.old.engine.bounds upto) (ran_at self.old.board self.old.engine h) acts.now))) }
        ensures well { OnOk result (IsWell D.fault_count self.old.engine self.new.engine) }
        ensures any_moment { ToldLeavesOnly (D.history self.old.engine.disk) (D.history self.new.engine.disk) (OpenWithin N.given N.opening (length self.old.board.trace) self.new.board.trace) }
        ensures serves { Serves N.given N.opening N.store D.history self.new }
    {
        calls_join();
        self.opens();
        let mut done = 0;
        for action in acts {
            let is_made = self.act(*action, upto)?;
            done += count_of(is_made);
        }
        Ok(done)
    }

    /// What it is made of. Whatever a crash leaves of the disk, its files open behind the server's trace. It takes no memory.
    pub fn into_parts(self) -> Parts<N, D, P>
        requires serves { Serves N.given N.opening N.store D.history self }
        ensures board { result.board ≡ self.board }
        ensures engine { result.engine ≡ self.engine }
        ensures peer { result.peer ≡ self.peer }
        ensures cursor { result.cursor ≡ self.cursor }
        ensures flight { result.flight ≡ self.flight }
        ensures opens { IfSome (D.history result.engine.disk) (λ h. (images : Files) → MayLeave h images → OpenBehind N.given self.board.state images) }
    {
        operations_change_each_key();
        written_is_stored();
        stores_open();
        stored_ranges_are_of_users();
        let _ = self.board.trace();
        let Server {
            board,
            engine,
            peer,
            cursor,
            flight,
        } = self;
        Parts {
            board,
            engine,
            peer,
            cursor,
            flight,
        }
    }
}

impl<N: Story, D: Disk, P: Drop> Server<N, D, P> {
    /// The disk, whose files open behind the server's trace, whatever a crash leaves of them. It takes no memory.
    pub fn into_disk(self) -> D
        requires serves { Serves N.given N.opening N.store D.history self }
        ensures disk { result ≡ self.engine.disk }
        ensures opens { IfSome (D.history result) (λ h. (images : Files) → MayLeave h images → OpenBehind N.given self.board.state images) }
    {
        let Parts {
            board: _,
            engine,
            peer: _,
            cursor: _,
            flight: _,
        } = self.into_parts();
        engine.dismount()
    }
}
