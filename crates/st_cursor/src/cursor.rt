//! A log with the version up to which it was read, and the one up to which it was given up.
ghost use Rattle.std.specs.Prelude.{◌≡◌, ◌<◌, ◌≤◌, length, nat_le, slice_get, IfSome, IfErr, OnOk, IsErr, ◌↔◌};
ghost use Rattle.std.specs.List.{prefix_len};
ghost use Rattle.std.specs.Option.{option_copied, option_map};

use st_mutation::Batch;
use std::marker::Model;

/// A log that is read batch by batch, from the first batch above a version on.
#[derive(Debug, Drop)]
pub struct Cursor {
    log: Vec<Batch>,
    // The place of the next batch.
    place: usize,
    last: u64,
    popped: u64,
}

impl Model for Cursor {
    ghost use Rattle.std.specs.Prelude.{◌≡◌, ◌≤◌, nat_le};
    ghost use Rattle.std.specs.List.{prefix_len};
    ghost use Rattle.st_cursor.specs.Reading.{Reading};

    ghost Value = { Reading };

    ghost view = { λ cursor. record { log = cursor.log.items; last = cursor.last; popped = cursor.popped } };

    ghost invariant = { λ cursor.
        (cursor.place ≡ prefix_len (λ batch. nat_le batch.version cursor.last) cursor.log.items)
        × (cursor.popped ≤ cursor.last) };
}

/// A version that isn't read again: all up to this one was given up.
#[derive(Clone, Copy, Debug, PartialEq, Eq)]
pub struct Popped {
    pub version: u64,
}

// How many batches stand before the first one above a version.
fn count_to(log: &[Batch], version: u64) -> usize
    ensures value { result ≡ prefix_len (λ batch. nat_le batch.version version) log.now }
    ensures within { result ≤ length log.now }
{
    log.iter()
        .take_while(|batch| batch.version <= version)
        .count()
}

// The same, where this many stand before the first one above a version that isn't greater.
fn count_on(log: &[Batch], from: usize, last: u64, version: u64) -> usize
    requires from { from ≡ prefix_len (λ batch. nat_le batch.version last) log.now }
    requires later { last ≤ version }
    ensures { result ≡ prefix_len (λ batch. nat_le batch.version version) log.now }
{
    from + count_to(log.split_at(from).1, version)
}

impl Cursor {
    ghost use Rattle.std.specs.Prelude.{⊤};
    ghost use Rattle.std.specs.Borrow.{sem, follows_so};
    ghost use Rattle.std.specs.Option.{option_copied, option_map};
    ghost use mathlib.Core.Option.{none};
    ghost use Rattle.st_cursor.specs.Reading.{at, behind_next, first_above, next_of, popped_to};
    ghost use Rattle.st_cursor.specs.contracts.cursor.Cursor.{the_row};

    /// The log from its first batch above version 0 on. It takes no memory.
    pub fn new(log: Vec<Batch>) -> Cursor
        ensures { result ≡ record { log = log.items; last = 0; popped = 0 } }
    {
        Cursor {
            place: count_to(&log, 0),
            log,
            last: 0,
            popped: 0,
        }
    }

    /// The log.
    pub fn log(&self) -> &[Batch]
        ensures { result.now ≡ self.now.log }
    {
        &self.log
    }

    /// The log, of which nothing more is read. It takes no memory.
    pub fn into_log(self) -> Vec<Batch>
        ensures { result.items ≡ self.log }
    {
        self.log
    }

    /// Takes the first batch above the last that was taken. None exactly where none is.
    pub fn next(&mut self) -> Option<&Batch>
        ensures* after { sem 𝓛 (follows_so the_row the_row self.entry.ghost_name none (λ _ _. ⊤) (λ new. new ≡ behind_next self.old)) }
        ensures next { option_copied result ≡ next_of self.old }
        ensures kept { IfSome result (λ batch. self.old.popped < batch.now.version) }
    {
        let place = self.go_on();
        self.log.get(place)
    }

    // Goes on behind the next batch, and tells the place where that stands.
    fn go_on(&mut self) -> usize
        ensures after { self.new ≡ behind_next self.old }
        ensures place { slice_get self.new.log result ≡ next_of self.old }
        ensures kept { IfSome (next_of self.old) (λ batch. self.old.popped < batch.version) }
    {
        let place = self.place;
        if let Some(version) = self.peek() {
            self.move_to(version);
        }
        place
    }

    /// The version of the batch that `next` would give. None exactly where it gives none.
    pub fn peek(&self) -> Option<u64>
        ensures next { result ≡ option_map (λ batch. batch.version) (next_of self.now) }
        ensures kept { IfSome result (λ version. self.now.popped < version) }
    {
        match self.following() {
            Some(batch) => Some(batch.version),
            None => None,
        }
    }

    /// The batch that `next` would give, without going on behind it. None exactly where it gives none.
    pub fn following(&self) -> Option<&Batch>
        ensures next { option_copied result ≡ next_of self.now }
        ensures later { IfSome result (λ batch. self.now.last < batch.now.version) }
        ensures kept { self.now.popped ≤ self.now.last }
    {
        self.log.get(self.place)
    }

    /// Gives up what is at a version or below it: it is taken no more.
    pub fn pop(&mut self, version: u64)
        ensures { self.new ≡ popped_to version self.old }
    {
        if self.last < version {
            self.move_to(version);
        }
        self.popped = self.popped.max(version);
    }

    /// Makes the first batch above a version the next, also one that was taken before. A version below one that was popped is
    /// refused.
    pub fn rewind(&mut self, version: u64) -> Result<(), Popped>
        ensures ok { OnOk result (self.new ≡ at version self.old) }
        ensures err { IfErr result (λ why. (why.version ≡ self.old.popped) × (self.new ≡ self.old)) }
        ensures refused { IsErr result ↔ (version < self.old.popped) }
    {
        if version < self.popped {
            return Err(Popped {
                version: self.popped,
            });
        }
        self.move_to(version);
        Ok(())
    }

    // It goes on from the last place, unless the version is below it.
    fn move_to(&mut self, version: u64)
        requires { self.old.popped ≤ version }
        ensures { self.new ≡ at version self.old }
    {
        self.place = if version < self.last {
            count_to(&self.log, version)
        } else {
            count_on(&self.log, self.place, self.last, version)
        };
        self.last = version;
    }
}
