//! What a request finds in a view.
ghost use Rattle.std.specs.Prelude.{◌≡◌, ◌<◌, false, IfOk};
ghost use Rattle.std.specs.Option.{option_map_or};
ghost use Rattle.st_fold.specs.declared.request.Answer.TheVariants as tells;
ghost use Rattle.st_fold.specs.Map.{Map, value_at};
ghost use Rattle.st_fold.specs.Reading.{is_watch, span_of, span_of_key};
ghost use Rattle.st_ptree.specs.Entries.{pairs_of};
ghost use Rattle.st_session.specs.Seen.{AreShortIn, IsFoundIn, IsMapOf, value_in};
ghost use Rattle.st_versioned.specs.Root.{over};

use crate::rows::rows;
use crate::select::select;
use crate::walk::short_value;
use st_board::View;
use st_fold::{Answer, Ask};
use st_key::Key;
use st_ptree::Steps;
use st_versioned::Overlay;
use std::alloc::{AllocError, Global};
use std::marker::Brand;
use std::sync::ledger::{Blank, Ledger};

// The value of a key.
fn get<L: Ledger>(
    alloc: Global,
    overlay: &Overlay<'_>,
    key: &Key,
    steps: &mut Steps<L>,
) -> Result<Answer, AllocError>
    requires { AreShortIn (span_of_key key.now) (over (pairs_of overlay.now.root.now.entries) (pairs_of overlay.now.base.now)) }
    ensures { IfOk result (λ answer. (pairs : Map) → IsMapOf (over (pairs_of overlay.now.root.now.entries) (pairs_of overlay.now.base.now)) (span_of_key key.now) pairs
        → answer ≡ option_map_or tells.Value (value_at pairs key.now) tells.Absent) }
{
    match overlay.get(key.bytes(), steps) {
        Some(value) => Ok(Answer::Value(short_value(alloc, value)?)),
        None => Ok(Answer::Absent),
    }
}

// The answer, by steps that are counted for no one.
fn search_in<L: Ledger>(
    alloc: Global,
    view: &View,
    ask: &Ask,
    blank: Blank,
) -> Result<Answer, AllocError>
    requires name { blank.name ≡ L.name }
    requires parts { blank.parts ≡ L.parts }
    requires some { 0 < blank.parts }
    requires versioned { is_watch ask.now ≡ false }
    requires short { AreShortIn (span_of ask.now) (value_in view.now) }
    ensures { IfOk result (IsFoundIn view.now ask.now) }
{
    let mut steps = Steps::<L>::new(blank);
    let overlay = Overlay {
        root: &view.root,
        base: &view.base,
    };
    match ask {
        Ask::Get(key, _) => get(alloc, &overlay, key, &mut steps),
        Ask::Rows {
            range,
            rows: most,
            bytes,
            reverse,
            version: _,
        } => rows(alloc, &overlay, range, *most, *bytes, *reverse, &mut steps),
        Ask::Select {
            key,
            or_equal,
            offset,
            range,
            version: _,
        } => {
            let found = select(alloc, &overlay, key, *or_equal, *offset, range, &mut steps)?;
            Ok(Answer::KeyIs(found))
        }
        // a session's request asks for a version
        Ask::Watch(_, _) => unreachable!(),
    }
}

/// What a request finds in a view.
pub(crate) fn search(alloc: Global, view: &View, ask: &Ask) -> Result<Answer, AllocError>
    requires versioned { is_watch ask.now ≡ false }
    requires short { AreShortIn (span_of ask.now) (value_in view.now) }
    ensures { IfOk result (IsFoundIn view.now ask.now) }
{
    search_in::<Brand>(alloc, view, ask, Blank::new(1))
}
