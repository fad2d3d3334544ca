//! A life in the making.
ghost use Rattle.std.specs.Prelude.{◌≡◌, ◌+◌, ◌∷◌, ◌<◌, ◌^◌, ◌≤◌, List, [], ℕ, true, None, Some, IfOk, IfErr, IfSome, OnOk, OnErr, is_some, length, if◌then◌else◌};
ghost use Rattle.st_core.specs.Acts.{event_of, reached_by};
ghost use Rattle.st_core.specs.Server.{Serves};
ghost use Rattle.std.specs.Option.{ForSome};
ghost use Rattle.st_disk.specs.Fuse.{fused_faults, fused_history};
ghost use Rattle.st_disk.specs.History.{History};
ghost use Rattle.st_fold.specs.declared.plan.Do.{Do};
ghost use Rattle.st_model.specs.Schedule.{events_of_poll, has_open, polls_left};
ghost use Rattle.st_model.specs.Trace.{due};
ghost use Rattle.st_life.specs.Play.{bounds_of};
ghost use Rattle.st_life.specs.Readers.{polled};
ghost use Rattle.st_life.specs.Running.{Acts, EngineBehind, IsBegun, IsTurnOf, LeadsOn, PlaysOut, RefusesAct, StopsOn};

use crate::readers::Readers;
use st_board::Story;
use st_core::{DriveRefusal, Server};
use st_disk::{CrashDisk, Disk, Fused, calls_join};
use st_fold::{Act, Do};
use st_session::logs_are_short;
use std::alloc::AllocError;
use std::marker::{Brand, Model, PhantomData};

/// What a life in the making was begun with: what it was given, how it opened and what it is to do; and what its disk told then.
pub trait Beginning {
    ghost use Rattle.std.specs.Prelude.{Option};
    ghost use Rattle.st_disk.specs.History.{History};
    ghost use Rattle.st_life.specs.Play.{Start};

    ghost start: { Start };

    ghost told: { Option History };
}

impl Beginning for Brand {
    ghost use Rattle.std.specs.Prelude.{[], true, None};
    ghost use Rattle.st_engine.specs.Store.{store_of};

    ghost start = { record {
      given = record { log = []; upto = 0; own = []; settings = record { window = 0; patience = 0; seed = 0; swap = 0; limit = 0; quota = 0; block = 0; watches = 0 } };
      plan = record { upto = 0; asks = []; lasts = []; dos = []; cuts = []; peerfails = []; kill = None };
      opening = record { version = 0; available = [] };
      fresh = true;
      kept = record { files = ([], []); store = store_of [] };
    } };

    ghost told = { None };
}

/// A life in the making: a server, and the readers that ask it.
#[derive(Drop)]
pub(crate) struct Running<N: Story, B: Beginning, D: CrashDisk, P: Drop> {
    server: Server<N, Fused<D>, P>,
    readers: Readers,
    // the greatest version that it applies
    upto: u64,
    begun: PhantomData<B>,
}

impl<N: Story, B: Beginning, D: CrashDisk, P: Drop> Model for Running<N, B, D, P> {
    ghost use Rattle.std.specs.Prelude.{◌≡◌};
    ghost use Rattle.st_core.specs.Server.{Serves};
    ghost use Rattle.st_disk.specs.Fuse.{fused_history};
    ghost use Rattle.st_disk.specs.declared.fused.Fused.{Fused};
    ghost use Rattle.st_life.specs.Play.{bounds_of};
    ghost use Rattle.st_life.specs.Running.{IsBegun, Playing};

    ghost Value = { Playing (Fused D) P };

    ghost view = { λ r. record { server = r.server; reading = r.readers } };

    ghost invariant = { λ r.
        Serves N.given N.opening N.store (fused_history D.history) r.server
        × IsBegun N.given N.opening N.store.fresh B.start B.told
        × (r.server.engine.bounds ≡ bounds_of N.given.settings)
        × (r.readers.patience ≡ N.given.settings.patience)
        × (r.upto ≡ N.given.upto) };
}

/// No more calls are carried out than a disk lets through.
pub(crate) fn disks_let_through<D: Disk>()
    ensures { (disk : D) (h : History) → D.history disk ≡ Some h → ForSome h.passes (λ n. h.made ≤ n) }
{}

impl<N: Story, B: Beginning, D: CrashDisk, P: Drop> Running<N, B, D, P> {
    /// A life that did nothing yet.
    pub(crate) fn new(
        server: Server<N, Fused<D>, P>,
        readers: Readers,
        upto: u64,
    ) -> Running<N, B, D, P>
        requires serves { Serves N.given N.opening N.store (fused_history D.history) server }
        requires begun { IsBegun N.given N.opening N.store.fresh B.start B.told }
        requires bounds { server.engine.bounds ≡ bounds_of N.given.settings }
        requires patience { readers.patience ≡ N.given.settings.patience }
        requires upto { upto ≡ N.given.upto }
        ensures { result ≡ record { server = server; reading = readers } }
    {
        Running {
            server,
            readers,
            upto,
            begun: PhantomData,
        }
    }

    // Does an act, and answers whether it could be done.
    fn act(&mut self, action: Act) -> Result<bool, DriveRefusal>
        ensures done { IfOk result (λ done. done ≡ is_some (event_of N.given self.old.server.board.state action)) }
        ensures longer { IfOk result (λ done. length self.new.server.board.trace
            ≡ length self.old.server.board.trace + (if done then 1 else 0)) }
        ensures ok { IfOk result (λ done. Acts (fused_history D.history) B.start B.told action done self.old self.new) }
        ensures err { IfErr result (RefusesAct (fused_history D.history) B.start B.told action self.old self.new) }
        ensures reached { OnErr result (reached_by self.new.server.board ≡ reached_by self.old.server.board) }
        ensures reading { self.new.reading ≡ self.old.reading }
        ensures engine { EngineBehind (fused_faults D.fault_count) self.old.server.engine self.new.server.engine result }
    {
        calls_join();
        disks_let_through::<Fused<D>>();
        let _ = self.server.board().trace();
        let done = self.server.drive(&[action], self.upto)?;
        Ok(done == 1)
    }

    // Polls a reader's first open request, and answers whether there is one.
    fn poll(&mut self, reader: u32) -> Result<bool, AllocError>
        ensures done { IfOk result (λ done. done ≡ has_open reader self.old.reading.sessions) }
        ensures polled { OnOk result (self.new.reading
            ≡ polled B.start.given reader (length self.old.server.board.trace) self.old.server.board.state self.old.reading) }
        ensures fewer { IfOk result (λ done. done ≡ true
            → polls_left self.old.reading.patience self.new.reading.sessions < polls_left self.old.reading.patience self.old.reading.sessions) }
        ensures events { events_of_poll B.start.given reader self.old.server.board.state self.old.reading.sessions ≡ [] }
        ensures server { self.new.server ≡ self.old.server }
        ensures err { OnErr result (self.new ≡ self.old) }
    {
        logs_are_short(self.server.log());
        self.readers.poll(reader, self.server.board_mut())
    }

    // Does a step of the schedule once, and answers whether it could be done.
    fn step(&mut self, one: Do) -> Result<bool, DriveRefusal>
        ensures ok { IfOk result (λ done. (times : ℕ) (later : List (Do × ℕ))
            → LeadsOn (fused_history D.history) B.start B.told ((one, times + 1) ∷ later) (if done then (one, times) ∷ later else later) self.old self.new) }
        ensures err { IfErr result (λ why. (times : ℕ) (later : List (Do × ℕ))
            → StopsOn (fused_history D.history) B.start B.told ((one, times + 1) ∷ later) self.old self.new why) }
        ensures engine { EngineBehind (fused_faults D.fault_count) self.old.server.engine self.new.server.engine result }
    {
        match one {
            Do::Act(action) => self.act(action),
            Do::Flush => {
                let begun = self.act(Act::Began)?;
                let ended = self.act(Act::Durable)?;
                Ok(begun || ended)
            }
            Do::Poll(reader) => Ok(self.poll(reader)?),
        }
    }

    // Does a line of the schedule. A step that can't be done once can't be done again.
    fn line(&mut self, one: Do, times: u64) -> Result<(), DriveRefusal>
        ensures ok { OnOk result ((later : List (Do × ℕ))
            → LeadsOn (fused_history D.history) B.start B.told ((one, times) ∷ later) later self.old self.new) }
        ensures err { IfErr result (λ why. (later : List (Do × ℕ))
            → StopsOn (fused_history D.history) B.start B.told ((one, times) ∷ later) self.old self.new why) }
        ensures engine { EngineBehind (fused_faults D.fault_count) self.old.server.engine self.new.server.engine result }
    {
        for _time in 0..times {
            if !self.step(one)? {
                return Ok(());
            }
        }
        Ok(())
    }

    // The schedule as it is written.
    fn lines(&mut self, lines: &[(Do, u64)]) -> Result<(), DriveRefusal>
        ensures ok { OnOk result (LeadsOn (fused_history D.history) B.start B.told lines.now [] self.old self.new) }
        ensures err { IfErr result (StopsOn (fused_history D.history) B.start B.told lines.now self.old self.new) }
        ensures engine { EngineBehind (fused_faults D.fault_count) self.old.server.engine self.new.server.engine result }
    {
        for (one, times) in lines {
            self.line(*one, *times)?;
        }
        Ok(())
    }

    // What is due. Its event can be made, and there is room for it.
    fn due(&self) -> Option<Act>
        ensures due { result ≡ due B.start.given self.now.server.board.state }
        ensures made { IfSome result (λ action. is_some (event_of N.given self.now.server.board.state action) ≡ true) }
        ensures room { length self.now.server.board.trace < 2 ^ 64 }
    {
        let _ = self.server.board().trace();
        self.server.due(self.upto)
    }

    // Does what is due, until nothing is.
    fn rest(&mut self) -> Result<(), DriveRefusal>
        ensures ok { OnOk result (LeadsOn (fused_history D.history) B.start B.told [] [] self.old self.new) }
        ensures rest { OnOk result (due B.start.given self.new.server.board.state ≡ None) }
        ensures err { IfErr result (StopsOn (fused_history D.history) B.start B.told [] self.old self.new) }
        ensures engine { EngineBehind (fused_faults D.fault_count) self.old.server.engine self.new.server.engine result }
    {
        while let Some(action) = self.due() {
            self.act(action)?;
        }
        Ok(())
    }

    // Polls a reader until it has no open request.
    fn read_out(&mut self, reader: u32) -> Result<(), AllocError>
        ensures ok { OnOk result ((later : List ℕ) → IsTurnOf B.start.given (reader ∷ later) self.old
            → LeadsOn (fused_history D.history) B.start B.told [] [] self.old self.new × IsTurnOf B.start.given later self.new) }
        ensures err { OnErr result ((later : List ℕ) → IsTurnOf B.start.given (reader ∷ later) self.old
            → LeadsOn (fused_history D.history) B.start B.told [] [] self.old self.new) }
        ensures server { self.new.server ≡ self.old.server }
    {
        while self.poll(reader)? {}
        Ok(())
    }

    // Polls the requests of all readers, one reader after the other.
    fn read_all(&mut self) -> Result<(), AllocError>
        requires { due B.start.given self.old.server.board.state ≡ None }
        ensures ok { OnOk result (LeadsOn (fused_history D.history) B.start B.told [] [] self.old self.new × IsTurnOf B.start.given [] self.new) }
        ensures err { OnErr result (LeadsOn (fused_history D.history) B.start B.told [] [] self.old self.new) }
        ensures server { self.new.server ≡ self.old.server }
    {
        for reader in 1..65 {
            self.read_out(reader)?;
        }
        self.read_out(0)
    }

    /// The schedule as it is written, and then the closing.
    pub(crate) fn play(&mut self, lines: &[(Do, u64)]) -> Result<(), DriveRefusal>
        ensures ok { OnOk result (PlaysOut (fused_history D.history) B.start B.told lines.now self.old self.new) }
        ensures err { IfErr result (StopsOn (fused_history D.history) B.start B.told lines.now self.old self.new) }
        ensures engine { EngineBehind (fused_faults D.fault_count) self.old.server.engine self.new.server.engine result }
    {
        self.lines(lines)?;
        self.rest()?;
        self.read_all()?;
        Ok(())
    }

    /// The server and the readers.
    pub(crate) fn into_parts(self) -> (Server<N, Fused<D>, P>, Readers)
        ensures server { result.0 ≡ self.server }
        ensures readers { result.1 ≡ self.reading }
        ensures serves { Serves N.given N.opening N.store (fused_history D.history) self.server }
    {
        let Running {
            server,
            readers,
            upto: _,
            begun: _,
        } = self;
        (server, readers)
    }
}
