//! The requests of a life, their sessions and their answers.
ghost use Rattle.std.specs.Prelude.{◌≡◌, ◌<◌, ◌≤◌, ◌∷◌, ℕ, [], map, take, true, false, length, slice_index, vec_len, vec_capacity, IfOk, OnOk, OnErr, MatchOption};
ghost use Rattle.std.specs.List.{AllByRecursion};
ghost use Rattle.st_model.specs.Report.{merged, requests_of};
ghost use Rattle.st_model.specs.Schedule.{answered_by, events_of_poll, has_open, polls_left, unpolled};
ghost use Rattle.st_session.specs.Logs.{AreShort};
ghost use Rattle.st_life.specs.Readers.{polled, AreAskable, IsAskable};
ghost use Rattle.st_life.specs.Waiting.{session_of, IsFirstOpen, IsWaiting};

use crate::asked::Asked;
use st_board::{Board, Story};
use st_fold::{Answered, LifePlan, Request, Settings};
use std::alloc::{AllocError, Global};
use std::marker::Model;

/// The requests of a life in order of their numbers, each with its session and its answer. There is room for every answer.
#[derive(Drop)]
pub struct Readers {
    // each request is given so many polls
    patience: u32,
    asked: Vec<Asked>,
    // for each reader a place before which it has no open session
    first: [usize; 65],
    room: Vec<Answered>,
}

impl Model for Readers {
    ghost use Rattle.std.specs.Prelude.{◌≡◌, ◌≤◌, [], map, length, vec_capacity};
    ghost use Rattle.std.specs.List.{AllByRecursion};
    ghost use Rattle.st_life.specs.Readers.{Reading};
    ghost use Rattle.st_life.specs.Waiting.{session_of, AreSought, IsWaiting};

    ghost Value = { Reading };

    ghost view = { λ r. record { patience = r.patience; sessions = map session_of r.asked.items } };

    ghost invariant = { λ r.
        AllByRecursion (IsWaiting r.patience) r.asked.items
        × AreSought r.first (map session_of r.asked.items)
        × (r.room.items ≡ [])
        × (length r.asked.items ≤ vec_capacity r.room) };
}

// The places that the readers are sought from before any was.
fn unsought() -> [usize; 65]
    ensures { (reader : ℕ) → slice_index result reader ≡ 0 }
{
    [0; 65]
}

// The request that comes first in order of numbers, and what is left of both lists.
fn first_of<'a>(
    requests: &'a [Request],
    others: &'a [Request],
) -> Option<(&'a Request, &'a [Request], &'a [Request])>
    ensures { MatchOption result
        (merged requests.now others.now ≡ [])
        (λ first. merged requests.now others.now ≡ first.0.now ∷ merged first.1.now first.2.now) }
{
    match (requests.split_first(), others.split_first()) {
        (None, None) => None,
        (Some((request, later)), None) => Some((request, later, others)),
        (None, Some((other, later))) => Some((other, requests, later)),
        (Some((request, later)), Some((other, others_later))) => {
            if other.number < request.number {
                Some((other, requests, others_later))
            } else {
                Some((request, later, others))
            }
        }
    }
}

// All requests, in order of their numbers.
fn all_asked(
    alloc: Global,
    asks: &[Request],
    lasts: &[Request],
    patience: u32,
) -> Result<Vec<Asked>, AllocError>
    requires patience { 1 ≤ patience }
    requires asks { AllByRecursion IsAskable asks.now }
    requires lasts { AllByRecursion IsAskable lasts.now }
    ensures sessions { IfOk result (λ asked. map session_of asked.items ≡ map unpolled (merged asks.now lasts.now)) }
    ensures waiting { IfOk result (λ asked. AllByRecursion (IsWaiting patience) asked.items) }
{
    let mut asked = Vec::new(alloc);
    let mut requests = asks;
    let mut others = lasts;
    while let Some((request, later, others_later)) = first_of(requests, others) {
        asked.push(Asked::new(alloc, request, patience)?)?;
        requests = later;
        others = others_later;
    }
    Ok(asked)
}

// The place of a reader's first session that is open. It is sought from a place before which none is.
fn first_open(asked: &[Asked], from: usize, reader: u32) -> Option<usize>
    requires { has_open reader (take from (map session_of asked.now)) ≡ false }
    ensures { MatchOption result
        (has_open reader (map session_of asked.now) ≡ false)
        (λ place. IsFirstOpen reader place (map session_of asked.now)) }
{
    for place in from..asked.len() {
        if asked[place].is_open(reader) {
            return Some(place);
        }
    }
    None
}

impl Readers {
    /// The readers of a life that has just opened.
    pub fn new(alloc: Global, plan: &LifePlan, s: &Settings) -> Result<Readers, AllocError>
        requires patience { 1 ≤ s.now.patience }
        requires askable { AreAskable plan.now }
        ensures { IfOk result (λ readers. readers ≡ record { patience = s.now.patience; sessions = map unpolled (requests_of plan.now) }) }
    {
        let asked = all_asked(
            alloc,
            plan.asks.as_slice(),
            plan.lasts.as_slice(),
            s.patience,
        )?;
        let room = Vec::with_capacity(alloc, asked.len())?;
        Ok(Readers {
            patience: s.patience,
            asked,
            first: unsought(),
            room,
        })
    }

    // The place of a reader's first open session. It is sought from where the last one was.
    fn seek(&mut self, reader: u32) -> Option<usize>
        ensures found { MatchOption result
            (has_open reader self.old.sessions ≡ false)
            (λ place. IsFirstOpen reader place self.old.sessions) }
        ensures same { self.new ≡ self.old }
    {
        let reader_at = reader as usize;
        if reader_at >= self.first.len() {
            return first_open(&self.asked, 0, reader);
        }
        let found = first_open(&self.asked, self.first[reader_at], reader);
        self.first[reader_at] = found.unwrap_or(self.asked.len());
        found
    }

    /// One poll of a reader's first request that has no answer, and whether there is one. The requests of the life's end are
    /// those of reader 0.
    pub fn poll<N: Story>(&mut self, reader: u32, board: &mut Board<N>) -> Result<bool, AllocError>
        requires patience { self.old.patience ≡ N.given.settings.patience }
        requires short { AreShort N.given.log }
        ensures done { IfOk result (λ done. done ≡ has_open reader self.old.sessions) }
        ensures ok { OnOk result (self.new ≡ polled N.given reader (length board.old.trace) board.old.state self.old) }
        ensures fewer { IfOk result (λ done. done ≡ true
            → polls_left self.old.patience self.new.sessions < polls_left self.old.patience self.old.sessions) }
        ensures err { OnErr result (self.new ≡ self.old) }
        ensures events { events_of_poll N.given reader board.old.state self.old.sessions ≡ [] }
        ensures board { board.new ≡ board.old }
    {
        let Some(place) = self.seek(reader) else {
            return Ok(false);
        };
        self.asked[place].poll(board)?;
        Ok(true)
    }

    /// The answers in order of the requests' numbers. A request that has none was stopped. It takes no memory.
    pub fn into_answers(self) -> Vec<Answered>
        ensures { result.items ≡ map answered_by self.sessions }
    {
        let Readers {
            patience: _,
            asked,
            first: _,
            room,
        } = self;
        answered(asked, room)
    }
}

// The answers, for which there is room.
fn answered(asked: Vec<Asked>, room: Vec<Answered>) -> Vec<Answered>
    requires empty { room.items ≡ [] }
    requires room { vec_len asked ≤ vec_capacity room }
    ensures { result.items ≡ map answered_by (map session_of asked.items) }
{
    let mut answers = room;
    for one in asked {
        answers.push_reserved(one.ended());
    }
    answers
}
