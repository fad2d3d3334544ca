//! The lines of a life.
ghost use Rattle.std.specs.List.{flat_map};
ghost use Rattle.std.specs.Prelude.{◌≡◌, ◌++◌, codes, decimal, map, true, OnOk};
ghost use Rattle.st_report.specs.Text.{line_text, spaced, answer_line, ended_line, event_lines, hex_word, life_lines, lives_lines, opened_line, place_words, result_words, row_word, trace_lines};

use crate::writer::Writer;
use st_fold::{Answer, Answered, Ending, Event, Found, Life};
use st_key::{Key, Value};
use std::alloc::AllocError;

impl Writer {
    // The line of an event, where it has one.
    fn event(&mut self, event: &Event) -> Result<(), AllocError>
        ensures { OnOk result (self.new.bytes.items
            ≡ self.old.bytes.items ++ flat_map line_text (event_lines event.now)) }
    {
        match event {
            Event::Opened(_) | Event::Closed | Event::Killed => Ok(()),
            Event::Applied(version) => self.event_at("event applied", *version),
            Event::FetchStart(begin, at) => {
                self.text("event start")?;
                self.key(begin)?;
                self.number(*at)?;
                self.end_line()
            }
            Event::Block(begin, upto) => self.event_of_piece("event block", begin, upto),
            Event::Split(begin, key) => self.event_of_piece("event split", begin, key),
            Event::Began(version) => self.event_at("event began", *version),
            Event::Durable(version) => self.event_at("event durable", *version),
            Event::Watched(number, key, value) => self.watched(*number, key, value),
            Event::Unwatched(number) => self.event_at("event unwatched", *number),
        }
    }

    fn event_at(&mut self, label: &str, n: u64) -> Result<(), AllocError>
        ensures { OnOk result (self.new.bytes.items
            ≡ self.old.bytes.items ++ (label.now ++ (spaced (decimal n) ++ codes "\n"))) }
    {
        self.text(label)?;
        self.number(n)?;
        self.end_line()
    }

    fn event_of_piece(&mut self, label: &str, begin: &Key, key: &Key) -> Result<(), AllocError>
        ensures { OnOk result (self.new.bytes.items
            ≡ self.old.bytes.items ++ (label.now ++ (spaced (hex_word begin.now) ++ (spaced (hex_word key.now) ++ codes "\n")))) }
    {
        self.text(label)?;
        self.key(begin)?;
        self.key(key)?;
        self.end_line()
    }

    fn watched(&mut self, number: u64, key: &Key, value: &Option<Value>) -> Result<(), AllocError>
        ensures { OnOk result (self.new.bytes.items
            ≡ self.old.bytes.items ++ flat_map line_text (event_lines (Event.Watched number key.now value.now))) }
    {
        self.text("event watched")?;
        self.number(number)?;
        self.key(key)?;
        self.value(value)?;
        self.end_line()
    }

    fn events(&mut self, events: &[Event]) -> Result<(), AllocError>
        ensures { OnOk result (self.new.bytes.items
            ≡ self.old.bytes.items ++ flat_map line_text (trace_lines true events.now)) }
    {
        for event in events {
            self.event(event)?;
        }
        Ok(())
    }

    fn trace(&mut self, traced: bool, events: &[Event]) -> Result<(), AllocError>
        ensures { OnOk result (self.new.bytes.items
            ≡ self.old.bytes.items ++ flat_map line_text (trace_lines traced events.now)) }
    {
        if traced { self.events(events) } else { Ok(()) }
    }

    fn rows(&mut self, rows: &[(Key, Value)]) -> Result<(), AllocError>
        ensures { OnOk result (self.new.bytes.items
            ≡ self.old.bytes.items ++ flat_map spaced (map row_word rows.now)) }
    {
        for row in rows {
            self.row(row)?;
        }
        Ok(())
    }

    fn all_rows(&mut self, rows: &[(Key, Value)], more: bool) -> Result<(), AllocError>
        ensures { OnOk result (self.new.bytes.items
            ≡ self.old.bytes.items ++ flat_map spaced (result_words (Answer.Rows rows.now more))) }
    {
        self.word("rows")?;
        self.word(if more { "more" } else { "all" })?;
        self.rows(rows)
    }

    fn found(&mut self, found: &Found) -> Result<(), AllocError>
        ensures { OnOk result (self.new.bytes.items
            ≡ self.old.bytes.items ++ flat_map spaced (result_words (Answer.KeyIs found.now))) }
    {
        self.word("key")?;
        match found {
            Found::Key(key) => self.key(key),
            Found::Before => self.word("before"),
            Found::After => self.word("after"),
        }
    }

    fn result(&mut self, answer: &Answer) -> Result<(), AllocError>
        ensures { OnOk result (self.new.bytes.items
            ≡ self.old.bytes.items ++ flat_map spaced (result_words answer.now)) }
    {
        match answer {
            Answer::Value(value) => self.labelled_bytes(" =", value.bytes()),
            Answer::Absent => self.word("absent"),
            Answer::Rows { rows, more } => self.all_rows(rows.as_slice(), *more),
            Answer::KeyIs(found) => self.found(found),
            Answer::Fired { version } => self.labelled(" fired", *version),
            Answer::Waiting => self.word("waiting"),
            Answer::TooOld { oldest } => {
                self.labelled(" 1007 transaction_too_old oldest", *oldest)
            }
            Answer::FutureVersion { newest, .. } => {
                self.labelled(" 1009 future_version newest", *newest)
            }
            Answer::WrongShard { at } => {
                self.labelled_bytes(" 1001 wrong_shard_server at", at.bytes())
            }
            Answer::TooManyWatches { limit } => {
                self.labelled(" too_many_watches limit", u64::from(*limit))
            }
            Answer::Stopped => self.word("stopped"),
        }
    }

    fn at_places(&mut self, traced: bool, places: &[u64]) -> Result<(), AllocError>
        ensures { OnOk result (self.new.bytes.items
            ≡ self.old.bytes.items ++ flat_map spaced (place_words traced places.now)) }
    {
        if !traced {
            return Ok(());
        }
        self.word("at")?;
        self.places(places)
    }

    fn answer(&mut self, traced: bool, answered: &Answered) -> Result<(), AllocError>
        ensures { OnOk result (self.new.bytes.items
            ≡ self.old.bytes.items ++ line_text (answer_line traced answered.now)) }
    {
        self.text("answer")?;
        self.number(answered.request)?;
        self.at_places(traced, answered.places.as_slice())?;
        self.result(&answered.answer)?;
        self.end_line()
    }

    fn answers(&mut self, traced: bool, answers: &[Answered]) -> Result<(), AllocError>
        ensures { OnOk result (self.new.bytes.items
            ≡ self.old.bytes.items ++ flat_map line_text (map (answer_line traced) answers.now)) }
    {
        for answered in answers {
            self.answer(traced, answered)?;
        }
        Ok(())
    }

    fn opened(&mut self, number: u64, life: &Life) -> Result<(), AllocError>
        ensures { OnOk result (self.new.bytes.items
            ≡ self.old.bytes.items ++ line_text (opened_line number life.now)) }
    {
        self.text("life")?;
        self.number(number)?;
        self.labelled(" opened", life.opened)?;
        self.end_line()
    }

    fn ended(&mut self, number: u64, ending: Ending) -> Result<(), AllocError>
        ensures { OnOk result (self.new.bytes.items
            ≡ self.old.bytes.items ++ line_text (ended_line number ending)) }
    {
        self.text("life")?;
        self.number(number)?;
        self.word(match ending {
            Ending::Closed => "closed",
            Ending::Killed => "killed",
            Ending::Faulted => "faulted",
        })?;
        self.end_line()
    }

    fn life(&mut self, traced: bool, number: u64, life: &Life) -> Result<(), AllocError>
        ensures { OnOk result (self.new.bytes.items
            ≡ self.old.bytes.items ++ flat_map line_text (life_lines traced number life.now)) }
    {
        self.opened(number, life)?;
        self.trace(traced, life.trace.as_slice())?;
        self.answers(traced, life.answers.as_slice())?;
        self.ended(number, life.ending)
    }

    /// The lines of lives, with their traces or without.
    pub fn lives(&mut self, traced: bool, lives: &[Life]) -> Result<(), AllocError>
        ensures { OnOk result (self.new.bytes.items
            ≡ self.old.bytes.items ++ flat_map line_text (lives_lines traced 1 lives.now)) }
    {
        for (place, life) in lives.iter().enumerate() {
            self.life(traced, place as u64 + 1, life)?;
        }
        Ok(())
    }
}
