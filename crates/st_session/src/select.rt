//! Where a selector leads in a view.
ghost use Rattle.std.specs.Prelude.{◌≡◌, ℕ, List, false, true, not, IfOk, IfSome, Some, None};
ghost use Rattle.std.specs.List.{slice_get};
ghost use Rattle.std.specs.Option.{option_map};
ghost use Rattle.st_fold.specs.Map.{Map};
ghost use Rattle.st_fold.specs.Reading.{count_below, key_at, moved, pairs_in};
ghost use Rattle.st_key.specs.Spans.{within};
ghost use Rattle.st_ptree.specs.Entries.{pairs_of};
ghost use Rattle.st_session.specs.Seen.{AreShortIn, IsMapOf};
ghost use Rattle.st_session.specs.Walking.{IsFrom, ahead, goes_back, is_ahead, is_sought, key_found, passed_over};
ghost use Rattle.st_versioned.specs.Root.{over};

use crate::walk::{next_in, short_key};
use st_fold::Found;
use st_key::{Key, Range};
use st_ptree::Steps;
use st_versioned::Overlay;
use std::alloc::{AllocError, Global};
use std::sync::ledger::Ledger;

// The pair behind so many that are ahead.
fn nth<'b, L: Ledger>(
    overlay: &'b Overlay<'_>,
    range: &Range,
    reverse: bool,
    key: &'b [u8],
    or_equal: bool,
    passed: u32,
    steps: &mut Steps<L>,
) -> Option<(&'b [u8], &'b [u8])>
    requires { IsFrom reverse key.now or_equal range.now }
    ensures nth { (pairs : Map) → IsMapOf (over (pairs_of overlay.now.root.now.entries) (pairs_of overlay.now.base.now)) range.now pairs
        → option_map (λ found. (found.0.now, found.1.now)) result ≡ slice_get (ahead reverse key.now or_equal range.now pairs) passed }
    ensures inside { IfSome result (λ found. within range.now found.0.now ≡ true) }
    ensures there { IfSome result (λ found. over (pairs_of overlay.now.root.now.entries) (pairs_of overlay.now.base.now) found.0.now ≡ Some found.1.now) }
{
    let mut at = key;
    let mut at_it = or_equal;
    let mut left = passed;
    while left > 0 {
        let (next, _) = next_in(overlay, range, reverse, at, at_it, steps)?;
        at = next;
        at_it = false;
        left -= 1;
    }
    next_in(overlay, range, reverse, at, at_it, steps)
}

// Whether a selector goes back, and how many pairs it passes over.
fn direction(offset: i32) -> (bool, u32)
    ensures reverse { result.0 ≡ goes_back offset }
    ensures passed { result.1 ≡ passed_over offset }
{
    if offset < 1 {
        (true, offset.unsigned_abs())
    } else {
        (false, offset as u32 - 1)
    }
}

// Where a selector leads past the range.
fn none_found(reverse: bool) -> Found
    ensures { result ≡ key_found reverse None }
{
    if reverse { Found::Before } else { Found::After }
}

// Where the way of a selector begins, and whether at it: at the selector's own key, unless that lies outside the range.
fn start<'b>(range: &'b Range, key: &'b Key, or_equal: bool, reverse: bool) -> (&'b [u8], bool)
    ensures from { IsFrom reverse result.0.now result.1 range.now }
    ensures sought { (other : List ℕ) → within range.now other ≡ true
        → is_ahead reverse result.0.now result.1 other ≡ is_sought reverse key.now or_equal other }
{
    if reverse {
        if key < range.end() {
            (key.bytes(), or_equal)
        } else {
            (range.end().bytes(), false)
        }
    } else if key < range.begin() {
        (range.begin().bytes(), true)
    } else {
        (key.bytes(), !or_equal)
    }
}

/// Where a selector leads in a range. It takes a search for each key that it passes over, and one more.
pub(crate) fn select<L: Ledger>(
    alloc: Global,
    overlay: &Overlay<'_>,
    key: &Key,
    or_equal: bool,
    offset: i32,
    range: &Range,
    steps: &mut Steps<L>,
) -> Result<Found, AllocError>
    requires { AreShortIn range.now (over (pairs_of overlay.now.root.now.entries) (pairs_of overlay.now.base.now)) }
    ensures { IfOk result (λ found. (pairs : Map) → IsMapOf (over (pairs_of overlay.now.root.now.entries) (pairs_of overlay.now.base.now)) range.now pairs
        → found ≡ key_at (moved (count_below key.now or_equal (pairs_in range.now pairs)) offset) (pairs_in range.now pairs)) }
{
    let (reverse, passed) = direction(offset);
    let (at, at_it) = start(range, key, or_equal, reverse);
    match nth(overlay, range, reverse, at, at_it, passed, steps) {
        Some((found, _)) => Ok(Found::Key(short_key(alloc, found)?)),
        None => Ok(none_found(reverse)),
    }
}
