//! Texts that a reader of the format can write by hand.
use crate::{Form, Report, text};
use bytes::Bytes;
use st_fold::{
    Answer, Answered, Damage, Ending, Event, Fault, ForeignPart, Found, Kind, Life, MetaPart,
};
use st_key::{Key, KeyRefusal, Value, ValueRefusal};
use st_list::Items;
use std::alloc::{AllocError, Global};
use std::test::Fail;

fn key(alloc: Global, bytes: &[u8]) -> Result<Key, AllocError> {
    match Key::read(alloc, bytes) {
        Ok(key) => Ok(key),
        Err(KeyRefusal::KeyTooLong { .. } | KeyRefusal::NoMemory) => Err(AllocError),
    }
}

fn value(alloc: Global, bytes: &[u8]) -> Result<Value, AllocError> {
    match Value::read(alloc, bytes) {
        Ok(value) => Ok(value),
        Err(ValueRefusal::ValueTooLong { .. } | ValueRefusal::NoMemory) => Err(AllocError),
    }
}

fn trace(alloc: Global) -> Result<Items<Event>, AllocError> {
    let mut trace = Items::new(alloc);
    trace.push(Event::Opened(7))?;
    trace.push(Event::Applied(8))?;
    trace.push(Event::FetchStart(key(alloc, &[])?, 8))?;
    trace.push(Event::Block(key(alloc, b"a")?, key(alloc, b"b")?))?;
    trace.push(Event::Split(key(alloc, b"a")?, key(alloc, &[0xab, 0])?))?;
    trace.push(Event::Began(8))?;
    trace.push(Event::Durable(18446744073709551615))?;
    trace.push(Event::Watched(11, key(alloc, b"c")?, None))?;
    trace.push(Event::Watched(12, key(alloc, b"c")?, Some(value(alloc, &[])?)))?;
    trace.push(Event::Unwatched(11))?;
    trace.push(Event::Killed)?;
    Ok(trace)
}

fn rows(alloc: Global) -> Result<Items<(Key, Value)>, AllocError> {
    let mut rows = Items::new(alloc);
    rows.push((key(alloc, b"a")?, value(alloc, b"1")?))?;
    rows.push((key(alloc, &[])?, value(alloc, &[])?))?;
    Ok(rows)
}

fn found_answers(alloc: Global, answers: &mut Vec<Answer>) -> Result<(), AllocError> {
    answers.push(Answer::Value(value(alloc, &[0xFF, 0x0A])?))?;
    answers.push(Answer::Absent)?;
    answers.push(Answer::Rows {
        rows: rows(alloc)?,
        more: true,
    })?;
    answers.push(Answer::Rows {
        rows: Items::new(alloc),
        more: false,
    })?;
    answers.push(Answer::KeyIs(Found::Key(key(alloc, b"b")?)))?;
    answers.push(Answer::KeyIs(Found::Before))?;
    answers.push(Answer::KeyIs(Found::After))?;
    Ok(())
}

fn refusals(alloc: Global, answers: &mut Vec<Answer>) -> Result<(), AllocError> {
    answers.push(Answer::Fired { version: 2 })?;
    answers.push(Answer::Waiting)?;
    answers.push(Answer::TooOld { oldest: 4 })?;
    answers.push(Answer::FutureVersion {
        newest: 9,
        polls: 3,
    })?;
    answers.push(Answer::WrongShard {
        at: key(alloc, b"b")?,
    })?;
    answers.push(Answer::TooManyWatches { limit: 10_000 })?;
    answers.push(Answer::Stopped)?;
    Ok(())
}

// The n-th request has n mod 4 polls.
fn answers(alloc: Global) -> Result<Items<Answered>, AllocError> {
    let mut all = Vec::new(alloc);
    found_answers(alloc, &mut all)?;
    refusals(alloc, &mut all)?;
    let mut answers = Items::new(alloc);
    let mut request: u64 = 1;
    for answer in all {
        let places = [1, 2, 11];
        let polls = (request % 4) as usize;
        answers.push(Answered {
            request,
            places: Items::from_vec(Vec::from_slice(alloc, &places[..polls])?),
            answer,
        })?;
        request = request.saturating_add(1);
    }
    Ok(answers)
}

fn report(alloc: Global, form: Form) -> Result<Report, AllocError> {
    let mut lives = Items::new(alloc);
    lives.push(Life {
        opened: 7,
        trace: trace(alloc)?,
        answers: answers(alloc)?,
        ending: Ending::Killed,
    })?;
    lives.push(Life {
        opened: 8,
        trace: Items::new(alloc),
        answers: Items::new(alloc),
        ending: Ending::Faulted,
    })?;
    Ok(Report {
        status: 9,
        fault: Some(Fault::Memory),
        lives,
        form,
    })
}

const TRACE: &str =
    "life 1 opened 7\nevent applied 8\nevent start - 8\nevent block 61 62\nevent split 61 ab00\nevent began 8\nevent durable 18446744073709551615\nevent watched 11 63 none\nevent watched 12 63 -\nevent unwatched 11\nanswer 1 at 1 = ff0a\nanswer 2 at 1,2 absent\nanswer 3 at 1,2,11 rows more 61=31 -=-\nanswer 4 at - rows all\nanswer 5 at 1 key 62\nanswer 6 at 1,2 key before\nanswer 7 at 1,2,11 key after\nanswer 8 at - fired 2\nanswer 9 at 1 waiting\nanswer 10 at 1,2 1007 transaction_too_old oldest 4\nanswer 11 at 1,2,11 1009 future_version newest 9\nanswer 12 at - 1001 wrong_shard_server at 62\nanswer 13 at 1 too_many_watches limit 10000\nanswer 14 at 1,2 stopped\nlife 1 killed\nlife 2 opened 8\nlife 2 faulted\nfault memory\nend status 9 asked 14 answered 14\n";

const ANSWERS: &str =
    "life 1 opened 7\nanswer 1 = ff0a\nanswer 2 absent\nanswer 3 rows more 61=31 -=-\nanswer 4 rows all\nanswer 5 key 62\nanswer 6 key before\nanswer 7 key after\nanswer 8 fired 2\nanswer 9 waiting\nanswer 10 1007 transaction_too_old oldest 4\nanswer 11 1009 future_version newest 9\nanswer 12 1001 wrong_shard_server at 62\nanswer 13 too_many_watches limit 10000\nanswer 14 stopped\nlife 1 killed\nlife 2 opened 8\nlife 2 faulted\nfault memory\nend status 9 asked 14 answered 14\n";

#[test]
fn each_form_of_a_report(rt: HostRuntime) -> Result<(), Fail> {
    let alloc = rt.alloc();
    let rows = [
        (Form::Trace, TRACE),
        (Form::Answers, ANSWERS),
        (
            Form::Summary,
            "lives 2\nfault memory\nend status 9 asked 14 answered 14\n",
        ),
    ];
    for (form, expected) in rows {
        let report = report(alloc, form)?;
        assert_eq!(rt; text(alloc, &report)?.as_slice(), expected.as_bytes());
    }
    Ok(())
}

#[test]
fn each_fault(rt: HostRuntime) -> Result<(), Fail> {
    let alloc = rt.alloc();
    let rows = [
        (Fault::Words, 2, "fault words"),
        (
            Fault::Script {
                line: 4,
                kind: Kind::End,
            },
            3,
            "fault script line 4 end",
        ),
        (Fault::Read { faults: 1 }, 4, "fault read 1"),
        (Fault::Device { faults: 2 }, 6, "fault device 2"),
        (Fault::Peer { faults: 3 }, 7, "fault peer 3"),
        (
            Fault::Damaged(Damage::File { file: 1, at: 28 }),
            8,
            "fault damaged 1 28",
        ),
        (
            Fault::Damaged(Damage::Meta {
                which: MetaPart::Available,
            }),
            8,
            "fault damaged meta available",
        ),
        (
            Fault::Full {
                length: 254,
                limit: 200,
            },
            10,
            "fault full 254 200",
        ),
        (
            Fault::Foreign(ForeignPart::Assigned),
            11,
            "fault foreign assigned",
        ),
        (
            Fault::Foreign(ForeignPart::Key(Bytes::copy_from_slice(alloc, &[0x61])?)),
            11,
            "fault foreign key 61",
        ),
    ];
    for (fault, status, line) in rows {
        let report = Report {
            status,
            fault: Some(fault),
            lives: Items::new(alloc),
            form: Form::Answers,
        };
        let mut expected = Vec::from_slice(alloc, line.as_bytes())?;
        expected.extend_from_slice(b"\nend status ")?;
        let written = text(alloc, &report)?;
        assert!(rt; written.as_slice().starts_with(expected.as_slice()));
    }
    Ok(())
}
