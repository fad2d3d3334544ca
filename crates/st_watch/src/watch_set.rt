//! The registered watches.
ghost use Rattle.std.specs.Prelude.{◌≡◌, ◌↔◌, None, [], IsTrue, IsSome, OnOk, OnErr, IfOk, false, MatchOption, option_map};
ghost use Rattle.std.specs.Bool.{OnTrue};
ghost use Rattle.std.specs.Option.{option_copied};
ghost use Rattle.st_watch.specs.Watches.{AreChanged, IsNextKey, IsRegistered, IsReleased, NoNextKey, RefusesTooMany, after_loss, after_touch, new_watch, watch_of};

use crate::entries::{is_same, place_of, put_in, state_of, take_away, take_out, touch};
use crate::entry::{Entry, Standing};
use crate::places::count_below;
use crate::{WatchRefusal, WatchState};
use st_key::{Key, Range, Value};
use std::alloc::{AllocError, Global};
use std::marker::Model;

/// The registered watches, each under its number.
///
/// Watches that wait are found by their keys, by halving. What a watch waits for, and what has become of it, is told
/// version by version: of each version first what it takes away, then what it changes.
#[derive(Drop)]
pub struct WatchSet {
    limit: u32,
    entries: Vec<Entry>,
    // this many wait, and stand first
    waiting: usize,
}

impl Model for WatchSet {
    ghost use Rattle.st_watch.specs.Watches.{Watches};
    ghost use Rattle.st_watch.specs.Layout.{IsDistinct, IsParted};

    ghost Value = { Watches };

    ghost view = { λ set. record { limit = set.limit; entries = set.entries.items } };

    ghost invariant = { λ set. IsParted set.entries.items set.waiting × IsDistinct set.entries.items };
}

impl WatchSet {
    /// No watches. At most `limit` may stand at once. It takes no memory.
    pub fn new(alloc: Global, limit: u32) -> WatchSet
        ensures { result ≡ record { limit = limit; entries = [] } }
    {
        WatchSet {
            limit,
            entries: Vec::new(alloc),
            waiting: 0,
        }
    }

    /// Registers a watch of a key and a value under a number that no watch has, at a version at which the key has the value
    /// `now`. It waits, or has fired where `now` is another value. Refused exactly where as many watches stand as may.
    pub fn register(
        &mut self,
        id: u64,
        key: &Key,
        value: Option<&Value>,
        now: Option<&[u8]>,
        version: u64,
    ) -> Result<(), WatchRefusal>
        requires { watch_of self.old id ≡ None }
        ensures ok { OnOk result (IsRegistered id (new_watch key.now (option_copied value.entry) (option_copied now.entry) version) self.old self.new) }
        ensures err { OnErr result (self.new ≡ self.old) }
        ensures refused { RefusesTooMany self.old result }
    {
        if self.entries.len() as u64 >= u64::from(self.limit) {
            return Err(WatchRefusal::TooMany { limit: self.limit });
        }
        let standing = new_watch(key, value, now, version)?;
        self.insert(Entry { id, standing })?;
        Ok(())
    }

    // Registers a watch.
    fn insert(&mut self, entry: Entry) -> Result<(), AllocError>
        requires { watch_of self.old entry.id ≡ None }
        ensures ok { OnOk result (IsRegistered entry.id entry.standing self.old self.new) }
        ensures err { OnErr result (self.new ≡ self.old) }
    {
        self.waiting = put_in(&mut self.entries, self.waiting, entry)?;
        Ok(())
    }

    /// Tells that a key has the value `now` at a version: the watches that wait for it to have another fire. It takes no
    /// memory.
    pub fn touched(&mut self, key: &[u8], now: Option<&[u8]>, version: u64)
        ensures { AreChanged (after_touch key.now (option_copied now.entry) version) self.old self.new }
    {
        self.waiting = touch(&mut self.entries, self.waiting, key, now, version);
    }

    /// Tells that a range is taken away at a version: the watches that wait for keys of it are lost. It takes no memory.
    pub fn lost(&mut self, range: &Range, version: u64)
        ensures { AreChanged (after_loss range.now version) self.old self.new }
    {
        self.waiting = take_away(&mut self.entries, self.waiting, range, version);
    }

    /// What has become of a watch. None exactly where no watch has the number. It takes no memory.
    pub fn state(&self, id: u64) -> Option<WatchState>
        ensures { result ≡ option_map (λ standing. standing.state) (watch_of self.now id) }
    {
        state_of(&self.entries, id)
    }

    /// Releases a watch. False exactly where no watch has the number. It takes no memory.
    pub fn release(&mut self, id: u64) -> bool
        ensures found { IsTrue result ↔ IsSome (watch_of self.old id) }
        ensures released { OnTrue result (IsReleased id self.old self.new) }
        ensures none { result ≡ false → self.new ≡ self.old }
    {
        match place_of(&self.entries, id) {
            Some(at) => {
                self.waiting = take_out(&mut self.entries, self.waiting, at);
                true
            }
            None => false,
        }
    }

    /// The least key, at or above `key`, of a watch that waits, found by halving. None exactly where there is none. It takes
    /// no memory.
    pub fn next_key(&self, key: &[u8]) -> Option<&Key>
        ensures { MatchOption result (NoNextKey self.now key.now) (λ found. IsNextKey self.now key.now found.now) }
    {
        let at = count_below(&self.entries[..self.waiting], key);
        if at < self.waiting {
            Some(&self.entries[at].standing.key)
        } else {
            None
        }
    }
}

// A watch of a key and a value, where the key has the value `now` at a version.
fn new_watch(
    key: &Key,
    value: Option<&Value>,
    now: Option<&[u8]>,
    version: u64,
) -> Result<Standing, AllocError>
    ensures { IfOk result (λ standing. standing ≡ new_watch key.now (option_copied value.entry) (option_copied now.entry) version) }
{
    let state = if is_same(now, value) {
        WatchState::Waiting
    } else {
        WatchState::Fired { version }
    };
    let value = match value {
        Some(value) => Some(value.clone()?),
        None => None,
    };
    Ok(Standing {
        key: key.clone()?,
        value,
        state,
    })
}
