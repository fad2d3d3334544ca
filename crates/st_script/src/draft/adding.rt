//! What each line adds to the script.
ghost use Rattle.std.specs.Prelude.{◌≡◌, [], ◌∷◌, map};
ghost use Rattle.st_script.specs.Draft.{all_keys};
ghost use Rattle.st_script.specs.Outcome.{Says, Becomes};
ghost use Rattle.st_script.specs.Reading.{add_form};

use crate::draft::Draft;
use crate::form::{Form, Place};
use crate::line::{
    asked, asked_at_end, bare, batch_version, cleared, killed, life_version, option, pair, step,
};
use crate::options::Setting;
use crate::refusal::LineRefusal;
use crate::store::Store;
use st_atomic::AtomicOp;
use st_key::{Key, Range, Ranges};
use st_mutation::Mutation;
use std::alloc::Global;

impl Draft {
    /// Adds what a line of a form says.
    pub(super) fn add_form(
        &mut self,
        alloc: Global,
        store: &mut Store,
        form: Form,
        words: &[&[u8]],
    ) -> Result<(), LineRefusal>
        ensures { Becomes result self.new
            (add_form self.old form (map (λ word. word.now) words.now)) }
    {
        match form {
            Form::Storage => self.place = Place::Head,
            Form::Option(setting) => return self.add_option(setting, words),
            Form::Own => self.own = all_keys(alloc)?,
            Form::Log => self.place = bare(words, Place::Log)?,
            Form::Batch => return self.add_batch(alloc, words),
            Form::Set => return self.add_set(store, words),
            Form::Clear => return self.add_clear(store, words),
            Form::Atomic(op) => return self.add_atomic(store, op, words),
            Form::Life => return self.add_life(alloc, words),
            Form::Ask => return self.add_ask(store, words),
            Form::Last => return self.add_last(store, words),
            Form::Do => return self.add_step(words),
            Form::Close => self.place = bare(words, Place::Closed)?,
            Form::Kill => return self.add_kill(words),
            Form::End => self.place = bare(words, Place::Ended)?,
        }
        Ok(())
    }

    fn add_option(&mut self, setting: Setting, words: &[&[u8]]) -> Result<(), LineRefusal>
        ensures { Becomes result self.new
            (add_form self.old (Form.Option setting) (map (λ word. word.now) words.now)) }
    {
        let number = option(setting, words)?;
        self.chosen.choose(setting, number);
        Ok(())
    }

    fn add_batch(&mut self, alloc: Global, words: &[&[u8]]) -> Result<(), LineRefusal>
        ensures { Becomes result self.new
            (add_form self.old Form.Batch (map (λ word. word.now) words.now)) }
    {
        let version = batch_version(words)?;
        self.begin_batch(alloc, version)
    }

    fn add_set(&mut self, store: &mut Store, words: &[&[u8]]) -> Result<(), LineRefusal>
        ensures { Becomes result self.new
            (add_form self.old Form.Set (map (λ word. word.now) words.now)) }
    {
        let (key, value) = pair(store, words)?;
        self.push_mutation(Mutation::Set(key, value))
    }

    fn add_clear(&mut self, store: &mut Store, words: &[&[u8]]) -> Result<(), LineRefusal>
        ensures { Becomes result self.new
            (add_form self.old Form.Clear (map (λ word. word.now) words.now)) }
    {
        let range = cleared(store, words)?;
        self.push_mutation(Mutation::Clear(range))
    }

    fn add_atomic(
        &mut self,
        store: &mut Store,
        op: AtomicOp,
        words: &[&[u8]],
    ) -> Result<(), LineRefusal>
        ensures { Becomes result self.new
            (add_form self.old (Form.Atomic op) (map (λ word. word.now) words.now)) }
    {
        let (key, value) = pair(store, words)?;
        self.push_mutation(Mutation::Atomic(op, key, value))
    }

    fn add_life(&mut self, alloc: Global, words: &[&[u8]]) -> Result<(), LineRefusal>
        ensures { Becomes result self.new
            (add_form self.old Form.Life (map (λ word. word.now) words.now)) }
    {
        let upto = life_version(words)?;
        self.begin_life(alloc, upto)
    }

    fn add_ask(&mut self, store: &mut Store, words: &[&[u8]]) -> Result<(), LineRefusal>
        ensures { Becomes result self.new
            (add_form self.old Form.Ask (map (λ word. word.now) words.now)) }
    {
        let (reader, ask) = asked(store, words)?;
        self.push_request(reader, ask)
    }

    fn add_last(&mut self, store: &mut Store, words: &[&[u8]]) -> Result<(), LineRefusal>
        ensures { Becomes result self.new
            (add_form self.old Form.Last (map (λ word. word.now) words.now)) }
    {
        let ask = asked_at_end(store, words)?;
        self.push_request(0, ask)
    }

    fn add_step(&mut self, words: &[&[u8]]) -> Result<(), LineRefusal>
        ensures { Becomes result self.new
            (add_form self.old Form.Do (map (λ word. word.now) words.now)) }
    {
        let (step, count) = step(words)?;
        self.push_step(step, count)
    }

    fn add_kill(&mut self, words: &[&[u8]]) -> Result<(), LineRefusal>
        ensures { Becomes result self.new
            (add_form self.old Form.Kill (map (λ word. word.now) words.now)) }
    {
        let (calls, choice) = killed(words)?;
        self.kill_life(calls, choice);
        Ok(())
    }
}

// The keys below ff.
fn all_keys(alloc: Global) -> Result<Ranges, LineRefusal>
    ensures { Says result (Ok (all_keys ∷ [])) }
{
    let begin = Key::end(alloc, b"")?;
    let end = Key::end(alloc, b"\xff")?;
    match Range::new(begin, end) {
        Ok(range) => Ok(Ranges::of(alloc, range)?),
        Err(_) => unreachable!(),
    }
}
