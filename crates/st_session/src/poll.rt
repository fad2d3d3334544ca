//! What a poll gives.
use st_board::View;
use st_fold::Answer;

/// What a look at the board gives.
#[derive(Drop)]
pub enum Looked {
    /// The version hasn't come, and a further poll may be made. The newest version is told.
    Pending { newest: u64 },
    /// The answer.
    Done(Answer),
    /// The answer is to be found in this view.
    Search(View),
}

/// What a poll gives.
#[derive(Drop)]
pub enum Poll {
    /// The version hasn't come, and a further poll may be made. The newest version is told.
    Pending { newest: u64 },
    /// The answer.
    Done(Answer),
}
