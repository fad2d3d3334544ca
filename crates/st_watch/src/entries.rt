//! Entries of a set of watches: those that wait stand first, in the order of their keys.
ghost use Rattle.std.specs.Prelude.{◌≡◌, ◌==◌, ◌≤◌, ◌<◌, ◌∷◌, ◌++◌, true, false, not, map, filter, take, drop, length, OnOk, OnErr, IfOk};
ghost use Rattle.std.specs.List.{AllByRecursion, find, position, remove};
ghost use Rattle.std.specs.List.Sorted.{IsPermutation};
ghost use Rattle.std.specs.Option.{option_copied, option_map};
ghost use Rattle.st_key.specs.Spans.{key_less};
ghost use Rattle.st_model.specs.Watching.{same_value};
ghost use Rattle.st_model.specs.declared.watch.WatchState.TheVariants.{Lost as lost};
ghost use Rattle.st_watch.specs.Watches.{after_loss, after_touch, is_waiting};
ghost use Rattle.st_watch.specs.Layout.{IsParted, IsRising, after_value, in_state, waits, with_change};

use crate::entry::Entry;
use crate::places::{count_to, run_of_key, run_of_range};
use st_key::{Range, Value};
use st_model::WatchState;
use std::alloc::AllocError;

// Whether a watch in this state waits.
fn is_waiting(state: WatchState) -> bool
    ensures { result ≡ is_waiting state }
{
    matches!(state, WatchState::Waiting)
}

/// Whether both are the same value, or both none.
pub(crate) fn is_same(now: Option<&[u8]>, value: Option<&Value>) -> bool
    ensures { result ≡ same_value (option_copied now.entry) (option_copied value.entry) }
{
    match now {
        None => value.is_none(),
        Some(now) => match value {
            None => false,
            Some(value) => now == value.bytes(),
        },
    }
}

// The watch of the entry has fired, unless this is its value. Whether it has.
fn fire_one(entry: &mut Entry, now: Option<&[u8]>, version: u64) -> bool
    ensures fired { entry.new ≡ with_change (after_value (option_copied now.entry) version) entry.old }
    ensures none { result ≡ false → entry.new ≡ entry.old }
{
    if is_same(now, entry.standing.value.as_ref()) {
        return false;
    }
    entry.standing.state = WatchState::Fired { version };
    true
}

// Those whose value isn't this one have fired. Whether there is one.
fn fire(entries: &mut [Entry], now: Option<&[u8]>, version: u64) -> bool
    ensures fired { entries.new ≡ map (with_change (after_value (option_copied now.entry) version)) entries.old }
    ensures none { result ≡ false → entries.new ≡ entries.old }
{
    let mut any = false;
    for entry in entries.iter_mut() {
        if fire_one(entry, now, version) {
            any = true;
        }
    }
    any
}

// They are lost.
fn lose(entries: &mut [Entry], version: u64)
    ensures { entries.new ≡ map (with_change (in_state (lost version))) entries.old }
{
    for entry in entries.iter_mut() {
        entry.standing.state = WatchState::Lost { version };
    }
}

// Puts those of the entries from `from` up to `to` behind that wait no longer, and tells how many wait.
fn wait_first(entries: &mut [Entry], from: usize, to: usize) -> usize
    requires order { from ≤ to }
    requires bound { to ≤ length entries.old }
    requires first { AllByRecursion (λ entry. waits entry ≡ true) (take from entries.old) }
    requires others { AllByRecursion (λ entry. waits entry ≡ false) (drop to entries.old) }
    ensures bound { result ≤ length entries.new }
    ensures first { take result entries.new ≡ filter waits (take to entries.old) }
    ensures others { AllByRecursion (λ entry. waits entry ≡ false) (drop result entries.new) }
    ensures moved { IsPermutation entries.old entries.new }
{
    let mut waiting = from;
    for i in from..to {
        if is_waiting(entries[i].standing.state) {
            entries.swap(waiting, i);
            waiting += 1;
        }
    }
    waiting
}

/// The watches that wait for the key to have another value than `now` fire. Tells how many wait.
pub(crate) fn touch(
    entries: &mut [Entry],
    waiting: usize,
    key: &[u8],
    now: Option<&[u8]>,
    version: u64,
) -> usize
    requires { IsParted entries.old waiting }
    ensures parted { IsParted entries.new result }
    ensures moved { IsPermutation (map (with_change (after_touch key.now (option_copied now.entry) version)) entries.old) entries.new }
{
    let run = run_of_key(&entries[..waiting], key);
    if fire(&mut entries[run.from..run.to], now, version) {
        wait_first(entries, run.from, waiting)
    } else {
        waiting
    }
}

/// The watches that wait for keys of the range are lost. Tells how many wait.
pub(crate) fn take_away(entries: &mut [Entry], waiting: usize, range: &Range, version: u64) -> usize
    requires { IsParted entries.old waiting }
    ensures parted { IsParted entries.new result }
    ensures moved { IsPermutation (map (with_change (after_loss range.now version)) entries.old) entries.new }
{
    let run = run_of_range(&entries[..waiting], range);
    if run.from == run.to {
        return waiting;
    }
    lose(&mut entries[run.from..run.to], version);
    wait_first(entries, run.from, waiting)
}

/// What has become of the watch of this number.
pub(crate) fn state_of(entries: &[Entry], id: u64) -> Option<WatchState>
    ensures { result ≡ option_map (λ entry. entry.standing.state) (find (λ entry. entry.id == id) entries.now) }
{
    match entries.iter().find(|entry| entry.id == id) {
        Some(entry) => Some(entry.standing.state),
        None => None,
    }
}

/// The place of the entry of this number.
pub(crate) fn place_of(entries: &[Entry], id: u64) -> Option<usize>
    ensures { result ≡ position (λ entry. entry.id == id) entries.now }
{
    entries.iter().position(|entry| entry.id == id)
}

/// Puts an entry in. Tells how many wait.
pub(crate) fn put_in(
    entries: &mut Vec<Entry>,
    waiting: usize,
    entry: Entry,
) -> Result<usize, AllocError>
    requires { IsParted entries.old.items waiting }
    ensures parted { IfOk result (λ waits. IsParted entries.new.items waits) }
    ensures moved { OnOk result (IsPermutation (entry ∷ entries.old.items) entries.new.items) }
    ensures err { OnErr result (entries.new.items ≡ entries.old.items) }
{
    if is_waiting(entry.standing.state) {
        let at = count_to(&entries[..waiting], entry.standing.key.bytes());
        entries.insert(at, entry)?;
        Ok(waiting + 1)
    } else {
        entries.push(entry)?;
        Ok(waiting)
    }
}

/// Takes the entry at a place out. Tells how many wait.
pub(crate) fn take_out(entries: &mut Vec<Entry>, waiting: usize, at: usize) -> usize
    requires parted { IsParted entries.old.items waiting }
    requires bound { at < length entries.old.items }
    ensures parted { IsParted entries.new.items result }
    ensures left { entries.new.items ≡ remove entries.old.items at }
{
    let _ = entries.remove(at);
    if at < waiting { waiting - 1 } else { waiting }
}
