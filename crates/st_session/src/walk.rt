//! Steps along the pairs of a view.
ghost use Rattle.std.specs.Prelude.{◌≡◌, ◌≤◌, Some, true, not, length, IfSome, IfOk};
ghost use Rattle.std.specs.Option.{option_map};
ghost use Rattle.st_fold.specs.Map.{Map};
ghost use Rattle.st_key.specs.Spans.{key_less, within};
ghost use Rattle.st_ptree.specs.Entries.{pairs_of};
ghost use Rattle.st_session.specs.Seen.{IsMapOf};
ghost use Rattle.st_session.specs.Walking.{IsFrom, IsNext, comes_first, is_ahead};
ghost use Rattle.st_versioned.specs.Neighbours.{IsFirstOrNone, key_above};
ghost use Rattle.st_versioned.specs.Root.{over};

use st_key::{Key, KeyRefusal, Range, Value, ValueRefusal};
use st_ptree::Steps;
use st_versioned::Overlay;
use std::alloc::{AllocError, Global};
use std::sync::ledger::Ledger;

/// A key that was found.
pub(crate) fn short_key(alloc: Global, bytes: &[u8]) -> Result<Key, AllocError>
    requires { length bytes.now ≤ 10001 }
    ensures { IfOk result (λ key. key ≡ bytes.now) }
{
    match Key::end(alloc, bytes) {
        Ok(key) => Ok(key),
        Err(KeyRefusal::NoMemory) => Err(AllocError),
        Err(KeyRefusal::KeyTooLong { .. }) => unreachable!(),
    }
}

/// A value that was found.
pub(crate) fn short_value(alloc: Global, bytes: &[u8]) -> Result<Value, AllocError>
    requires { length bytes.now ≤ 100000 }
    ensures { IfOk result (λ value. value ≡ bytes.now) }
{
    match Value::read(alloc, bytes) {
        Ok(value) => Ok(value),
        Err(ValueRefusal::NoMemory) => Err(AllocError),
        Err(ValueRefusal::ValueTooLong { .. }) => unreachable!(),
    }
}

// The pair of the greatest key at `key` or below it.
fn last_to<'b, L: Ledger>(
    overlay: &'b Overlay<'_>,
    key: &'b [u8],
    steps: &mut Steps<L>,
) -> Option<(&'b [u8], &'b [u8])>
    ensures { IsFirstOrNone key_above (λ other. not (key_less key.now other)) (over (pairs_of overlay.now.root.now.entries) (pairs_of overlay.now.base.now))
        (option_map (λ found. (found.0.now, found.1.now)) result) }
{
    match overlay.get(key, steps) {
        Some(value) => Some((key, value)),
        None => overlay.prev(key, steps),
    }
}

// The pair of the first key that is ahead.
fn first_ahead<'b, L: Ledger>(
    overlay: &'b Overlay<'_>,
    reverse: bool,
    key: &'b [u8],
    or_equal: bool,
    steps: &mut Steps<L>,
) -> Option<(&'b [u8], &'b [u8])>
    ensures { IsFirstOrNone (comes_first reverse) (is_ahead reverse key.now or_equal) (over (pairs_of overlay.now.root.now.entries) (pairs_of overlay.now.base.now))
        (option_map (λ found. (found.0.now, found.1.now)) result) }
{
    match (reverse, or_equal) {
        (false, _) => overlay.next(key, or_equal, steps),
        (true, false) => overlay.prev(key, steps),
        (true, true) => last_to(overlay, key, steps),
    }
}

/// The pair of the first key of a range that is ahead: in the order of keys or the reverse, from `key` on, at it where
/// `or_equal` says so.
pub(crate) fn next_in<'b, L: Ledger>(
    overlay: &'b Overlay<'_>,
    range: &Range,
    reverse: bool,
    key: &'b [u8],
    or_equal: bool,
    steps: &mut Steps<L>,
) -> Option<(&'b [u8], &'b [u8])>
    requires { IsFrom reverse key.now or_equal range.now }
    ensures next { (pairs : Map) → IsMapOf (over (pairs_of overlay.now.root.now.entries) (pairs_of overlay.now.base.now)) range.now pairs
        → IsNext reverse key.now or_equal range.now pairs (option_map (λ found. (found.0.now, found.1.now)) result) }
    ensures inside { IfSome result (λ found. within range.now found.0.now ≡ true) }
    ensures there { IfSome result (λ found. over (pairs_of overlay.now.root.now.entries) (pairs_of overlay.now.base.now) found.0.now ≡ Some found.1.now) }
{
    match first_ahead(overlay, reverse, key, or_equal, steps) {
        Some((found, value)) => {
            if range.contains(found) {
                Some((found, value))
            } else {
                None
            }
        }
        None => None,
    }
}
