//! How the script grows: its last batch and its last life do so in place.
ghost use Rattle.std.specs.Prelude.{◌≡◌, OnOk, OnErr};
ghost use Rattle.st_script.specs.Draft.{on_last, last_version, last_upto, add_batch, add_life, add_mutation, add_request, rows_asked, kill_after, add_line};
ghost use Rattle.st_script.specs.Lines as said;
ghost use Rattle.st_script.specs.declared.form.Place.TheVariants.{Closed};
ghost use Rattle.st_script.specs.Outcome.{Becomes};

use crate::draft::Draft;
use crate::form::Place;
use crate::refusal::LineRefusal;
use st_fold::{Ask, Do, Kind, LifePlan, Request};
use st_list::Items;
use st_mutation::{Batch, Mutation};
use std::alloc::{AllocError, Global};

/// How many batches a script may have.
const MAX_BATCHES: usize = 1_000_000;

/// How many lives a script may have.
const MAX_LIVES: usize = 1_000;

/// How many requests a script may have.
const MAX_REQUESTS: u64 = 100_000;

/// How many rows the requests of a script may ask for together.
const MAX_ROWS: u64 = 10_000_000;

impl Draft {
    pub(super) fn begin_batch(&mut self, alloc: Global, version: u64) -> Result<(), LineRefusal>
        ensures { Becomes result self.new (add_batch self.old version) }
    {
        if version <= self.last_version() {
            return Err(LineRefusal::Bad(Kind::Version));
        }
        if self.log.len() >= MAX_BATCHES {
            return Err(LineRefusal::Bad(Kind::Limit));
        }
        // Most batches are short.
        let mutations = Vec::with_capacity(alloc, 1)?;
        self.log.push(Batch {
            version,
            moves: Items::new(alloc),
            mutations: Items::from_vec(mutations),
        })?;
        self.place = Place::Batch;
        Ok(())
    }

    // The version of the last batch, or 0.
    fn last_version(&self) -> u64
        ensures { result ≡ last_version self.now.log }
    {
        match self.log.last() {
            Some(batch) => batch.version,
            None => 0,
        }
    }

    pub(super) fn push_mutation(&mut self, mutation: Mutation) -> Result<(), LineRefusal>
        ensures { Becomes result self.new
            (Ok (record self.old { log = on_last (add_mutation mutation) self.old.log })) }
    {
        if let Some(batch) = self.log.last_mut() {
            batch.mutations.push(mutation)?;
        }
        Ok(())
    }

    pub(super) fn begin_life(&mut self, alloc: Global, upto: u64) -> Result<(), LineRefusal>
        ensures { Becomes result self.new (add_life self.old upto) }
    {
        if upto < self.last_upto() {
            return Err(LineRefusal::Bad(Kind::Version));
        }
        if self.lives.len() >= MAX_LIVES {
            return Err(LineRefusal::Bad(Kind::Limit));
        }
        self.lives.push(LifePlan {
            upto,
            asks: Items::new(alloc),
            lasts: Items::new(alloc),
            dos: Items::new(alloc),
            cuts: Items::new(alloc),
            peerfails: Items::new(alloc),
            kill: None,
        })?;
        self.place = Place::Life;
        Ok(())
    }

    // Up to which version the last life goes, or 0.
    fn last_upto(&self) -> u64
        ensures { result ≡ last_upto self.now.lives }
    {
        match self.lives.last() {
            Some(life) => life.upto,
            None => 0,
        }
    }

    pub(super) fn push_request(&mut self, reader: u32, ask: Ask) -> Result<(), LineRefusal>
        ensures { Becomes result self.new (add_line self.old (said.asks reader ask)) }
    {
        let rows = self.rows.saturating_add(rows_asked(&ask));
        if self.requests >= MAX_REQUESTS || rows > MAX_ROWS {
            return Err(LineRefusal::Bad(Kind::Limit));
        }
        let number = self.requests + 1;
        if let Some(life) = self.lives.last_mut() {
            add_request(
                life,
                Request {
                    number,
                    reader,
                    ask,
                },
            )?;
        }
        self.requests = number;
        self.rows = rows;
        Ok(())
    }

    pub(super) fn push_step(&mut self, step: Do, count: u64) -> Result<(), LineRefusal>
        ensures { Becomes result self.new (add_line self.old (said.does step count)) }
    {
        if let Some(life) = self.lives.last_mut() {
            life.dos.push((step, count))?;
        }
        Ok(())
    }

    /// Ends the last life by a kill.
    pub(super) fn kill_life(&mut self, calls: u64, choice: u64)
        ensures { self.new
            ≡ record self.old { place = Closed; lives = on_last (kill_after calls choice) self.old.lives } }
    {
        if let Some(life) = self.lives.last_mut() {
            life.kill = Some((calls, choice));
        }
        self.place = Place::Closed;
    }
}

// How many rows a request asks for.
fn rows_asked(ask: &Ask) -> u64
    ensures { result ≡ rows_asked ask.now }
{
    match ask {
        Ask::Rows { rows, .. } => u64::from(*rows),
        _ => 0,
    }
}

// Adds a request of a reader, or of none (0) at the end of the life.
fn add_request(life: &mut LifePlan, request: Request) -> Result<(), AllocError>
    ensures ok { OnOk result (life.new ≡ add_request request life.old) }
    ensures err { OnErr result (life.new ≡ life.old) }
{
    if request.reader == 0 {
        life.lasts.push(request)
    } else {
        life.asks.push(request)
    }
}
