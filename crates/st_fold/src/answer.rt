//! What a request finds in the fold of a log.
ghost use Rattle.std.specs.Prelude.{◌≡◌, ◌+◌, ◌^◌, ◌<◌, ◌≤◌, length, IfOk};
ghost use Rattle.st_fold.specs.Map.{folded};
ghost use Rattle.st_fold.specs.Reading.{count_below, in_order, is_below, key_at, moved, pairs_in, plain, rows_of, taken, version_of};

use crate::{Answer, Ask, Found, PlainMap, fold_to, value_to};
use st_key::{Key, Range, Value};
use st_list::Items;
use st_mutation::Batch;
use std::alloc::{AllocError, Global};

/// What a request finds in the fold of a log up to its version. A watch asks for no version, and
/// is told that it waits. It takes time linear in the log and in the fold.
pub fn answer_to(alloc: Global, log: &[Batch], ask: &Ask) -> Result<Answer, AllocError>
    ensures { IfOk result (λ answer. answer ≡ plain (folded log.now (version_of ask.now)) ask.now) }
{
    match ask {
        Ask::Get(key, version) => match value_to(alloc, log, key.bytes(), *version)? {
            Some(value) => Ok(Answer::Value(value)),
            None => Ok(Answer::Absent),
        },
        Ask::Rows {
            range,
            rows,
            bytes,
            reverse,
            version,
        } => fold_to(alloc, log, *version)?.rows(range, *rows, *bytes, *reverse),
        Ask::Select {
            key,
            or_equal,
            offset,
            range,
            version,
        } => {
            let found = fold_to(alloc, log, *version)?.select(key, *or_equal, *offset, range)?;
            Ok(Answer::KeyIs(found))
        }
        Ask::Watch(..) => Ok(Answer::Waiting),
    }
}

impl PlainMap {
    // The rows of a range, and whether there are more.
    fn rows(
        &self,
        range: &Range,
        rows: u32,
        bytes: u32,
        reverse: bool,
    ) -> Result<Answer, AllocError>
        ensures { IfOk result (λ answer.
            answer ≡ rows_of rows bytes (in_order reverse (pairs_in range.now self.now))) }
    {
        let mut pairs = in_order(reverse, self.pairs_in(range)?);
        let count = count_taken(&pairs, rows, bytes);
        let more = count < pairs.len();
        pairs.truncate(count);
        // An answer is kept, and keeps no room for the pairs that weren't taken.
        pairs.shrink_to_fit();
        Ok(Answer::Rows {
            rows: Items::from_vec(pairs),
            more,
        })
    }

    // Where a selector leads in a range.
    fn select(
        &self,
        key: &Key,
        or_equal: bool,
        offset: i32,
        range: &Range,
    ) -> Result<Found, AllocError>
        ensures { IfOk result (λ found. found ≡ key_at
            (moved (count_below key.now or_equal (pairs_in range.now self.now)) offset) (pairs_in range.now self.now)) }
    {
        let pairs = self.pairs_in(range)?;
        let below = count_below(&pairs, key, or_equal);
        key_at(&pairs, moved(below, offset))
    }
}

// The pairs in the order that they have, or the reverse.
fn in_order(reverse: bool, pairs: Vec<(Key, Value)>) -> Vec<(Key, Value)>
    ensures { result.items ≡ in_order reverse pairs.items }
{
    let mut pairs = pairs;
    if reverse {
        pairs.reverse();
    }
    pairs
}

// How many of these pairs are taken.
fn count_taken(pairs: &[(Key, Value)], rows: u32, bytes: u32) -> usize
    ensures { result ≡ length (taken rows bytes pairs.now) }
{
    let mut rows_left = rows;
    let mut bytes_left = bytes as usize;
    let mut count = 0;
    for (key, value) in pairs {
        if rows_left == 0 || bytes_left == 0 {
            return count;
        }
        rows_left -= 1;
        bytes_left = bytes_left.saturating_sub(key.bytes().len() + value.bytes().len());
        count += 1;
    }
    count
}

// How many of these pairs have keys below `key`, or at or below it.
fn count_below(pairs: &[(Key, Value)], key: &Key, or_equal: bool) -> usize
    ensures value { result ≡ count_below key.now or_equal pairs.now }
    ensures bound { result ≤ length pairs.now }
{
    let mut count = 0;
    for (other, _) in pairs {
        if is_below(key, or_equal, other) {
            count += 1;
        }
    }
    count
}

fn is_below(key: &Key, or_equal: bool, other: &Key) -> bool
    ensures { result ≡ is_below key.now or_equal other.now }
{
    if or_equal { key >= other } else { other < key }
}

// So many places on from a place, or back.
fn moved(place: usize, offset: i32) -> usize
    requires { place + 2 ^ 31 < 2 ^ 64 }
    ensures { result ≡ moved place offset }
{
    let steps = offset.unsigned_abs() as usize;
    if offset < 0 {
        place.saturating_sub(steps)
    } else {
        place + steps
    }
}

// The key at a place, counted from 1.
fn key_at(pairs: &[(Key, Value)], place: usize) -> Result<Found, AllocError>
    ensures { IfOk result (λ found. found ≡ key_at place pairs.now) }
{
    if place == 0 {
        return Ok(Found::Before);
    }
    match pairs.get(place - 1) {
        Some((key, _)) => Ok(Found::Key(key.clone()?)),
        None => Ok(Found::After),
    }
}
