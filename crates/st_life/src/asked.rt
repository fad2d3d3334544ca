//! A request of a life, and its answer once it has one.
ghost use Rattle.std.specs.Prelude.{◌≡◌, ◌<◌, ◌≤◌, List, None, IfOk, OnOk, OnErr, length};
ghost use Rattle.st_model.specs.Schedule.{answered_by, is_open, poll, polls_to_come, unpolled};
ghost use Rattle.st_model.specs.State.{State};
ghost use Rattle.st_mutation.specs.declared.batch.Batch.{Batch};
ghost use Rattle.st_session.specs.Asking.{Asking};
ghost use Rattle.st_session.specs.Logs.{AreShort};
ghost use Rattle.st_session.specs.Polling.{told, IsPolled};
ghost use Rattle.st_life.specs.Readers.{IsAskable};
ghost use Rattle.st_life.specs.Waiting.{session_of, IsWaiting};

use crate::copying::copy_of;
use st_board::{Board, Story};
use st_fold::{Answer, Answered, Request};
use st_session::{Poll, Session};
use std::alloc::{AllocError, Global};

/// A session, with its answer once it has one.
#[derive(Drop)]
pub(crate) struct Asked {
    session: Session,
    answer: Option<Answer>,
}

// The answer that a poll gave, if it gave one.
fn answer_of(poll: Poll) -> Option<Answer>
    ensures { (log : List Batch) → (state : State) → (asking : Asking) → IsPolled log state asking poll → told log state asking ≡ result }
{
    match poll {
        Poll::Pending { newest: _ } => None,
        Poll::Done(answer) => Some(answer),
    }
}

impl Asked {
    /// A request that wasn't polled yet.
    pub(crate) fn new(alloc: Global, request: &Request, patience: u32) -> Result<Asked, AllocError>
        requires patience { 1 ≤ patience }
        requires askable { IsAskable request.now }
        ensures unpolled { IfOk result (λ asked. session_of asked ≡ unpolled request.now) }
        ensures waiting { IfOk result (λ asked. IsWaiting patience asked) }
    {
        let session = Session::new(alloc, copy_of(request)?, patience)?;
        Ok(Asked {
            session,
            answer: None,
        })
    }

    /// Whether it is this reader's and has no answer yet.
    pub(crate) fn is_open(&self, reader: u32) -> bool
        ensures { result ≡ is_open reader (session_of self.now) }
    {
        self.session.request().reader == reader && self.answer.is_none()
    }

    /// One more poll.
    pub(crate) fn poll<N: Story>(&mut self, board: &mut Board<N>) -> Result<(), AllocError>
        requires short { AreShort N.given.log }
        requires waiting { IsWaiting N.given.settings.patience self.old }
        requires open { self.old.answer ≡ None }
        ensures polled { OnOk result (session_of self.new ≡ poll N.given (length board.old.trace) board.old.state (session_of self.old)) }
        ensures waiting { OnOk result (IsWaiting N.given.settings.patience self.new) }
        ensures fewer { OnOk result (polls_to_come N.given.settings.patience (session_of self.new)
            < polls_to_come N.given.settings.patience (session_of self.old)) }
        ensures err { OnErr result (self.new ≡ self.old) }
        ensures board { board.new ≡ board.old }
    {
        self.answer = answer_of(self.session.poll_board(board)?);
        Ok(())
    }

    /// Its answer, or that it was stopped. It takes no memory.
    pub(crate) fn ended(self) -> Answered
        ensures { result ≡ answered_by (session_of self) }
    {
        let Asked { session, answer } = self;
        session.ended(answer.unwrap_or(Answer::Stopped))
    }
}
