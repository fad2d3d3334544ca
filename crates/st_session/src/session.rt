//! A request and the places of its polls.
ghost use Rattle.std.specs.Prelude.{◌≡◌, ◌==◌, ◌+◌, ◌≤◌, ◌++◌, ◌∷◌, [], false, length, if◌then◌else◌, OnOk, OnErr, IfOk};
ghost use Rattle.st_fold.specs.declared.request.Answer.TheVariants as tells;
ghost use Rattle.st_fold.specs.Reading.{is_watch, span_of, version_of};
ghost use Rattle.st_session.specs.Asking.{HasShortKey, IsOfUsers};
ghost use Rattle.st_session.specs.Logs.{AreShort};
ghost use Rattle.st_session.specs.Polling.{HasShortPairs, IsFinished, IsLooked, IsPolled};
ghost use Rattle.st_session.specs.declared.poll.Looked.TheVariants as looked;

use crate::search::search;
use crate::{Looked, Poll};
use st_atomic::values_stay_short;
use st_board::{Board, Story, ViewRefusal};
use st_fold::{Answer, Answered, Ask, Request, folds_are_in_order, keys_change_by_themselves};
use st_key::{Range, key_after};
use st_list::Items;
use std::alloc::{AllocError, Global};
use std::marker::Model;

/// A reader's request, which is polled until it is answered.
#[derive(Drop)]
pub struct Session {
    alloc: Global,
    request: Request,
    // the keys that are looked at
    range: Range,
    // the poll of this number is the last
    patience: u32,
    places: Vec<u64>,
}

impl Model for Session {
    ghost use Rattle.std.specs.Prelude.{◌≡◌};
    ghost use Rattle.st_fold.specs.Reading.{span_of};
    ghost use Rattle.st_session.specs.Asking.{Asking, IsAsking};

    ghost Value = { Asking };

    ghost view = { λ s. record { request = s.request; patience = s.patience; places = s.places.items } };

    ghost invariant = { λ s.
        IsAsking (record { request = s.request; patience = s.patience; places = s.places.items })
        × (s.range ≡ span_of s.request.ask) };
}

// The keys that are looked at.
fn range_of(alloc: Global, ask: &Ask) -> Result<Range, AllocError>
    requires { HasShortKey ask.now }
    ensures { IfOk result (λ range. range ≡ span_of ask.now) }
{
    match ask {
        Ask::Get(key, _) | Ask::Watch(key, _) => {
            match Range::new(key.clone()?, key_after(alloc, key)?) {
                Ok(range) => Ok(range),
                // a key comes before the next one
                Err(_) => unreachable!(),
            }
        }
        Ask::Rows { range, .. } | Ask::Select { range, .. } => range.clone(),
    }
}

// The version that is asked for.
fn version_of(ask: &Ask) -> u64
    ensures { result ≡ version_of ask.now }
{
    match ask {
        Ask::Get(_, version) | Ask::Rows { version, .. } | Ask::Select { version, .. } => *version,
        Ask::Watch(_, _) => 0,
    }
}

impl Session {
    /// The session of a request for a version of users' keys, of which no poll was made. Of the polls that find that the
    /// version hasn't come the one of number `patience` gives that as the answer.
    pub fn new(alloc: Global, request: Request, patience: u32) -> Result<Session, AllocError>
        requires patience { 1 ≤ patience }
        requires versioned { is_watch request.ask ≡ false }
        requires users { IsOfUsers request.ask }
        requires short { HasShortKey request.ask }
        ensures { IfOk result (λ session. session ≡ record { request = request; patience = patience; places = [] }) }
    {
        let range = range_of(alloc, &request.ask)?;
        Ok(Session {
            alloc,
            request,
            range,
            patience,
            places: Vec::new(alloc),
        })
    }

    /// The request.
    pub fn request(&self) -> &Request
        ensures { result.now ≡ self.now.request }
    {
        &self.request
    }

    /// The places of the polls that were made: of each the number of events that the trace had.
    pub fn places(&self) -> &[u64]
        ensures { result.now ≡ self.now.places }
    {
        self.places.as_slice()
    }

    /// The request's number, the places of its polls, and an answer. It takes no memory.
    pub fn ended(self, answer: Answer) -> Answered
        ensures { result ≡ record { request = self.request.number; places = self.places; answer = answer } }
    {
        let Session {
            alloc: _,
            request,
            range: _,
            patience: _,
            places,
        } = self;
        Answered {
            request: request.number,
            places: Items::from_vec(places),
            answer,
        }
    }

    // Keeps the place of a poll.
    fn add(&mut self, place: u64) -> Result<(), AllocError>
        ensures ok { OnOk result (self.new ≡ record self.old { places = self.old.places ++ place ∷ [] }) }
        ensures err { OnErr result (self.new ≡ self.old) }
    {
        self.places.push(place)?;
        Ok(())
    }

    // What one more poll gives where the version hasn't come.
    fn waited(&self, newest: u64) -> Looked
        ensures { result ≡ (if length self.now.places + 1 == self.now.patience
            then looked.Done (tells.FutureVersion newest self.now.patience) else looked.Pending newest) }
    {
        if self.places.len() + 1 == self.patience as usize {
            Looked::Done(Answer::FutureVersion {
                newest,
                polls: self.patience,
            })
        } else {
            Looked::Pending { newest }
        }
    }

    // What one more poll gives, but for what is to be found.
    fn looked<N: Story>(&self, board: &Board<N>) -> Result<Looked, AllocError>
        requires { AreShort N.given.log }
        ensures { IfOk result (IsLooked N.given.log board.now.state self.now) }
    {
        values_stay_short();
        keys_change_by_themselves();
        folds_are_in_order();
        match board.view(&self.range, version_of(&self.request.ask)) {
            Ok(view) => Ok(Looked::Search(view)),
            Err(ViewRefusal::TooOld { oldest }) => Ok(Looked::Done(Answer::TooOld { oldest })),
            Err(ViewRefusal::NotYet { newest }) => Ok(self.waited(newest)),
            Err(ViewRefusal::WrongShard { at }) => {
                Ok(Looked::Done(Answer::WrongShard { at: at.clone()? }))
            }
            Err(ViewRefusal::NoMemory) => Err(AllocError),
        }
    }

    /// A poll as far as it needs the board: an answer that needs no search, or the view in which the answer is to be found. The
    /// place is kept.
    pub fn look<N: Story>(&mut self, board: &mut Board<N>) -> Result<Looked, AllocError>
        requires { AreShort N.given.log }
        ensures looked { IfOk result (IsLooked N.given.log board.old.state self.old) }
        ensures place { OnOk result (self.new ≡ record self.old { places = self.old.places ++ length board.old.trace ∷ [] }) }
        ensures err { OnErr result (self.new ≡ self.old) }
        ensures board { board.new ≡ board.old }
    {
        let looked = self.looked(board)?;
        self.add(board.place())?;
        Ok(looked)
    }

    /// The rest of a poll, which needs no board: the search in the view.
    pub fn finish(&self, looked: Looked) -> Result<Poll, AllocError>
        requires { HasShortPairs self.now.request.ask looked }
        ensures { IfOk result (IsFinished self.now.request.ask looked) }
    {
        match looked {
            Looked::Pending { newest } => Ok(Poll::Pending { newest }),
            Looked::Done(answer) => Ok(Poll::Done(answer)),
            Looked::Search(view) => Ok(Poll::Done(search(self.alloc, &view, &self.request.ask)?)),
        }
    }

    /// A whole poll. Its place is kept where nothing failed.
    pub fn poll_board<N: Story>(&mut self, board: &mut Board<N>) -> Result<Poll, AllocError>
        requires { AreShort N.given.log }
        ensures polled { IfOk result (IsPolled N.given.log board.old.state self.old) }
        ensures place { OnOk result (self.new ≡ record self.old { places = self.old.places ++ length board.old.trace ∷ [] }) }
        ensures err { OnErr result (self.new ≡ self.old) }
        ensures board { board.new ≡ board.old }
    {
        let looked = self.looked(board)?;
        let poll = self.finish(looked)?;
        self.add(board.place())?;
        Ok(poll)
    }
}
