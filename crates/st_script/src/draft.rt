//! The script so far.
ghost use Rattle.std.specs.Prelude.{◌≡◌, [], ◌∷◌, map};
ghost use Rattle.st_script.specs.Draft.{nothing_yet};
ghost use Rattle.st_script.specs.Outcome.{Becomes, Reads};
ghost use Rattle.st_script.specs.Reading.{judge_head, judge_form, judge, after_line, finish};

use crate::field::is_word;
use crate::form::{Form, Place, is_allowed};
use crate::options::Chosen;
use crate::refusal::{LineRefusal, ScriptRefusal};
use crate::store::Store;
use crate::words::{first_words, is_skipped};
use later::is_later_form;
use st_fold::{Kind, LifePlan, Script};
use st_key::Ranges;
use st_list::Items;
use st_mutation::Batch;
use std::alloc::Global;
use std::marker::Model;

mod adding;
mod growing;
mod later;

/// What the lines so far say. The last batch and the last life grow in place.
#[derive(Debug, Drop)]
pub(crate) struct Draft {
    place: Place,
    chosen: Chosen,
    own: Ranges,
    log: Vec<Batch>,
    lives: Vec<LifePlan>,
    requests: u64,
    rows: u64,
}

impl Model for Draft {
    ghost use Rattle.st_script.specs.Draft.{Drafted};

    ghost Value = { Drafted };

    ghost view = { λ a. record {
      place = a.place;
      chosen = a.chosen;
      own = a.own;
      log = a.log.items;
      lives = a.lives.items;
      requests = a.requests;
      rows = a.rows;
    } };
}

impl Draft {
    pub(crate) fn new(alloc: Global) -> Draft
        ensures { result ≡ nothing_yet }
    {
        Draft {
            place: Place::Start,
            chosen: Chosen::none(),
            own: Ranges::new(alloc),
            log: Vec::new(alloc),
            lives: Vec::new(alloc),
            requests: 0,
            rows: 0,
        }
    }

    /// Reads the next line, without its LF. The words of the line before make room for its own.
    pub(crate) fn read_line<'a>(
        &mut self,
        alloc: Global,
        store: &mut Store,
        words: &mut Vec<&'a [u8]>,
        line: &'a [u8],
    ) -> Result<(), LineRefusal>
        ensures { Becomes result self.new (after_line self.old line.now) }
    {
        if is_skipped(line) {
            return Ok(());
        }
        first_words(words, line)?;
        self.judge(alloc, store, words)
    }

    // Judges the words of a line that isn't skipped.
    fn judge(
        &mut self,
        alloc: Global,
        store: &mut Store,
        words: &[&[u8]],
    ) -> Result<(), LineRefusal>
        ensures { Becomes result self.new (judge self.old (map (λ word. word.now) words.now)) }
    {
        let Some((word, others)) = words.split_first() else {
            return Ok(());
        };
        if self.place == Place::Start {
            return self.begin(word, others);
        }
        match Form::of(word) {
            Some(form) => self.judge_form(alloc, store, form, others),
            None if is_later_form(word) => Err(LineRefusal::Bad(Kind::Unbuilt)),
            None => Err(LineRefusal::Bad(Kind::Word)),
        }
    }

    // The first line.
    fn begin(&mut self, word: &[u8], others: &[&[u8]]) -> Result<(), LineRefusal>
        ensures { Becomes result self.new
            (judge_head self.old (word.now ∷ map (λ word. word.now) others.now)) }
    {
        match others {
            [version] if is_word(word, b"storage") && is_word(version, b"1") => {
                self.place = Place::Head;
                Ok(())
            }
            _ => Err(LineRefusal::Bad(Kind::Head)),
        }
    }

    // Judges a line of a known form by the words after the first.
    fn judge_form(
        &mut self,
        alloc: Global,
        store: &mut Store,
        form: Form,
        words: &[&[u8]],
    ) -> Result<(), LineRefusal>
        ensures { Becomes result self.new
            (judge_form self.old form (map (λ word. word.now) words.now)) }
    {
        if self.is_later_line(form, words) {
            return Err(LineRefusal::Bad(Kind::Unbuilt));
        }
        if !is_allowed(self.place, form) || self.is_ruled_out(form) {
            return Err(LineRefusal::Bad(Kind::Order));
        }
        self.add_form(alloc, store, form, words)
    }

    /// The script, if it ended before the line of this number.
    pub(crate) fn finish(self, number: u64) -> Result<Script, ScriptRefusal>
        ensures { Reads result (finish number self) }
    {
        if self.place != Place::Ended {
            return Err(ScriptRefusal::Bad {
                line: number,
                kind: Kind::End,
            });
        }
        let mut log = self.log;
        log.shrink_to_fit();
        Ok(Script {
            settings: self.chosen.settings(),
            own: self.own,
            log: Items::from_vec(log),
            lives: Items::from_vec(self.lives),
        })
    }
}
