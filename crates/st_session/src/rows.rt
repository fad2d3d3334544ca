//! The rows of a range in a view.
ghost use Rattle.std.specs.Prelude.{◌≡◌, IfOk};
ghost use Rattle.st_fold.specs.Map.{Map};
ghost use Rattle.st_fold.specs.Reading.{in_order, pairs_in, rows_of};
ghost use Rattle.st_ptree.specs.Entries.{pairs_of};
ghost use Rattle.st_session.specs.Seen.{AreShortIn, IsMapOf};
ghost use Rattle.st_session.specs.Walking.{IsFrom, ahead, way};
ghost use Rattle.st_versioned.specs.Root.{over};

use crate::walk::{next_in, short_key, short_value};
use st_fold::Answer;
use st_key::Range;
use st_list::Items;
use st_ptree::Steps;
use st_versioned::Overlay;
use std::alloc::{AllocError, Global};
use std::sync::ledger::Ledger;

// Where the way along a range begins, and whether at it.
fn start(range: &Range, reverse: bool) -> (&[u8], bool)
    ensures from { IsFrom reverse result.0.now result.1 range.now }
    ensures whole { (pairs : Map) → ahead reverse result.0.now result.1 range.now pairs ≡ way reverse range.now pairs }
{
    if reverse {
        (range.end().bytes(), false)
    } else {
        (range.begin().bytes(), true)
    }
}

/// The rows of a range, and whether there are more. It takes a search for each row, and one more.
pub(crate) fn rows<L: Ledger>(
    alloc: Global,
    overlay: &Overlay<'_>,
    range: &Range,
    rows: u32,
    bytes: u32,
    reverse: bool,
    steps: &mut Steps<L>,
) -> Result<Answer, AllocError>
    requires { AreShortIn range.now (over (pairs_of overlay.now.root.now.entries) (pairs_of overlay.now.base.now)) }
    ensures { IfOk result (λ answer. (pairs : Map) → IsMapOf (over (pairs_of overlay.now.root.now.entries) (pairs_of overlay.now.base.now)) range.now pairs
        → answer ≡ rows_of rows bytes (in_order reverse (pairs_in range.now pairs))) }
{
    let mut taken = Vec::new(alloc);
    let mut rows_left = rows;
    let mut bytes_left = bytes as usize;
    let (mut at, mut or_equal) = start(range, reverse);
    while let Some((key, value)) = next_in(overlay, range, reverse, at, or_equal, steps) {
        if rows_left == 0 || bytes_left == 0 {
            return Ok(Answer::Rows {
                rows: Items::from_vec(taken),
                more: true,
            });
        }
        taken.push((short_key(alloc, key)?, short_value(alloc, value)?))?;
        rows_left -= 1;
        bytes_left = bytes_left.saturating_sub(key.len() + value.len());
        at = key;
        or_equal = false;
    }
    Ok(Answer::Rows {
        rows: Items::from_vec(taken),
        more: false,
    })
}
