//! How far a payload has come.
ghost use Rattle.std.specs.Prelude.{◌≡◌, IfOk};
ghost use Rattle.st_ops.specs.Reading.{stage_after, is_done};

use crate::Op;
use bytes::Bytes;
use std::alloc::AllocError;

/// How far a payload has come, as far as it tells which operations may follow.
#[derive(Drop)]
pub(crate) enum Stage {
    /// Among the sets and clears.
    Changes,
    /// Among the items of the snapshot, behind one of this key.
    Items(Bytes),
    /// Behind the snapshot's end.
    Ended,
    /// Behind the commit.
    Done,
}

impl Stage {
    /// The stage behind an operation. None where it may not follow.
    pub(crate) fn after(&self, op: &Op) -> Result<Option<Stage>, AllocError>
        ensures { IfOk result (λ next. next ≡ stage_after self.now op.now) }
    {
        let next = match op {
            Op::Set(_, _) => match self {
                Stage::Changes => Some(Stage::Changes),
                _ => None,
            },
            Op::Clear(begin, end) => match self {
                Stage::Changes if begin < end => Some(Stage::Changes),
                _ => None,
            },
            Op::SnapItem(key, _) => match self {
                Stage::Changes => Some(Stage::Items(key.clone()?)),
                Stage::Items(last) if last < key => Some(Stage::Items(key.clone()?)),
                _ => None,
            },
            Op::SnapEnd => match self {
                Stage::Changes | Stage::Items(_) => Some(Stage::Ended),
                _ => None,
            },
            Op::Commit => match self {
                Stage::Done => None,
                _ => Some(Stage::Done),
            },
        };
        Ok(next)
    }

    /// Whether the payload may end here.
    pub(crate) fn is_done(&self) -> bool
        ensures { result ≡ is_done self.now }
    {
        matches!(self, Stage::Done)
    }
}
