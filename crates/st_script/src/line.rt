//! What the words of a line say, after its first.
ghost use Rattle.std.specs.Prelude.{◌≡◌, ◌≤◌, IfOk, map, if◌then◌else◌};
ghost use Rattle.std.specs.Option.{option_copied};
ghost use Rattle.st_mutation.specs.declared.batch.Mutation.TheVariants as mutation;
ghost use Rattle.st_script.specs.Fields.{number_field};
ghost use Rattle.st_script.specs.Lines as said;
ghost use Rattle.st_script.specs.Lines.{line_of, pair_of, pair_in, clear_line, asked_by, ask_line, last_line, step_line, act_of, known_act, act_line, poll_by, poll_line, do_line, kill_line};
ghost use Rattle.st_script.specs.Options.{most_of};
ghost use Rattle.st_script.specs.Outcome.{Says, SaysAs};
ghost use Rattle.st_script.specs.Words.{is_empty};

use crate::field::{
    MAX_CALLS, MAX_VERSION, is_word, key as read_key, number, range, small_number,
    value as read_value,
};
use crate::form::{Form, Place};
use crate::options::Setting;
use crate::refusal::LineRefusal;
use crate::request::{is_request, read_request};
use crate::store::Store;
use st_fold::{Act, Ask, Do, Kind};
use st_key::{Key, Range, Value};

const MAX_READERS: u32 = 64;

/// How often one line may take a step.
const MAX_COUNT: u64 = 1_000_000;

/// The place that a line without further words leads to.
pub(crate) fn bare(words: &[&[u8]], place: Place) -> Result<Place, LineRefusal>
    ensures { Says result (if is_empty words.now then Ok place else Err Kind.Word) }
{
    match words {
        [] => Ok(place),
        _ => Err(LineRefusal::Bad(Kind::Word)),
    }
}

/// The number that an option sets.
pub(crate) fn option(setting: Setting, words: &[&[u8]]) -> Result<u64, LineRefusal>
    ensures value { SaysAs (said.sets setting) result
        (line_of (Form.Option setting) (map (λ word. word.now) words.now)) }
    ensures bound { IfOk result (λ number. number ≤ most_of setting) }
{
    match words {
        [word] => Ok(number(word, setting.least(), setting.most())?),
        _ => Err(LineRefusal::Bad(Kind::Word)),
    }
}

/// The version of a batch.
pub(crate) fn batch_version(words: &[&[u8]]) -> Result<u64, LineRefusal>
    ensures { SaysAs said.batch_of result (line_of Form.Batch (map (λ word. word.now) words.now)) }
{
    match words {
        [version] => Ok(number(version, 1, MAX_VERSION)?),
        _ => Err(LineRefusal::Bad(Kind::Word)),
    }
}

/// Two words that are a key and a value.
pub(crate) fn pair(store: &mut Store, words: &[&[u8]]) -> Result<(Key, Value), LineRefusal>
    ensures { Says result (pair_in (map (λ word. word.now) words.now)) }
{
    match words {
        [key, value] => key_and_value(store, key, value),
        _ => Err(LineRefusal::Bad(Kind::Word)),
    }
}

fn key_and_value(store: &mut Store, key: &[u8], value: &[u8]) -> Result<(Key, Value), LineRefusal>
    ensures { Says result (pair_of key.now value.now) }
{
    let key = read_key(store, key)?;
    let value = read_value(store, value)?;
    Ok((key, value))
}

/// The range that a batch clears.
pub(crate) fn cleared(store: &mut Store, words: &[&[u8]]) -> Result<Range, LineRefusal>
    ensures { SaysAs (λ range. said.changes (mutation.Clear range)) result
        (line_of Form.Clear (map (λ word. word.now) words.now)) }
{
    match words {
        [begin, end] => between(store, begin, end),
        _ => Err(LineRefusal::Bad(Kind::Word)),
    }
}

fn between(store: &mut Store, begin: &[u8], end: &[u8]) -> Result<Range, LineRefusal>
    ensures { SaysAs (λ range. said.changes (mutation.Clear range)) result
        (clear_line begin.now end.now) }
{
    let begin = store.decode(begin)?;
    let end = store.decode(end)?;
    range(begin, end)
}

/// The greatest version that a life applies.
pub(crate) fn life_version(words: &[&[u8]]) -> Result<u64, LineRefusal>
    ensures { SaysAs said.life_to result (line_of Form.Life (map (λ word. word.now) words.now)) }
{
    match words {
        [version] => Ok(number(version, 0, MAX_VERSION)?),
        _ => Err(LineRefusal::Bad(Kind::Word)),
    }
}

/// A reader, and what it asks.
pub(crate) fn asked(store: &mut Store, words: &[&[u8]]) -> Result<(u32, Ask), LineRefusal>
    ensures { SaysAs (λ asked. said.asks asked.0 asked.1) result
        (ask_line (map (λ word. word.now) words.now)) }
{
    match words {
        [reader, request @ ..] if is_request(request) => asked_by(store, reader, request),
        _ => Err(LineRefusal::Bad(Kind::Word)),
    }
}

fn asked_by(store: &mut Store, reader: &[u8], request: &[&[u8]]) -> Result<(u32, Ask), LineRefusal>
    ensures { SaysAs (λ asked. said.asks asked.0 asked.1) result
        (asked_by reader.now (map (λ word. word.now) request.now)) }
{
    let reader = reader_number(reader)?;
    let ask = read_request(store, request)?;
    Ok((reader, ask))
}

/// A request of no reader.
pub(crate) fn asked_at_end(store: &mut Store, request: &[&[u8]]) -> Result<Ask, LineRefusal>
    ensures { SaysAs (said.asks 0) result (last_line (map (λ word. word.now) request.now)) }
{
    if !is_request(request) {
        return Err(LineRefusal::Bad(Kind::Word));
    }
    read_request(store, request)
}

/// A step, and how often it is taken.
pub(crate) fn step(words: &[&[u8]]) -> Result<(Do, u64), LineRefusal>
    ensures { SaysAs (λ step. said.does step.0 step.1) result
        (do_line (map (λ word. word.now) words.now)) }
{
    let Some((act, words)) = words.split_first() else {
        return Err(LineRefusal::Bad(Kind::Word));
    };
    if is_word(act, b"poll") {
        polled(words)
    } else {
        acted(act_of(act), words)
    }
}

// The act that takes no reader, by its word.
fn act_of(word: &[u8]) -> Option<Do>
    ensures { result ≡ act_of word.now }
{
    if is_word(word, b"apply") {
        Some(Do::Act(Act::Apply))
    } else if is_word(word, b"began") {
        Some(Do::Act(Act::Began))
    } else if is_word(word, b"durable") {
        Some(Do::Act(Act::Durable))
    } else if is_word(word, b"flush") {
        Some(Do::Flush)
    } else {
        None
    }
}

fn acted(step: Option<Do>, words: &[&[u8]]) -> Result<(Do, u64), LineRefusal>
    ensures { SaysAs (λ step. said.does step.0 step.1) result
        (act_line (map (λ word. word.now) words.now) step) }
{
    match words {
        [] => known(step, None),
        [count] => known(step, Some(count)),
        _ => Err(LineRefusal::Bad(Kind::Word)),
    }
}

fn known(step: Option<Do>, count: Option<&[u8]>) -> Result<(Do, u64), LineRefusal>
    ensures { SaysAs (λ step. said.does step.0 step.1) result
        (known_act step (option_copied count.entry)) }
{
    match step {
        Some(step) => repeated(step, count),
        None => Err(LineRefusal::Bad(Kind::Word)),
    }
}

fn polled(words: &[&[u8]]) -> Result<(Do, u64), LineRefusal>
    ensures { SaysAs (λ step. said.does step.0 step.1) result
        (poll_line (map (λ word. word.now) words.now)) }
{
    match words {
        [reader] => polled_by(reader, None),
        [reader, count] => polled_by(reader, Some(count)),
        _ => Err(LineRefusal::Bad(Kind::Word)),
    }
}

fn polled_by(reader: &[u8], count: Option<&[u8]>) -> Result<(Do, u64), LineRefusal>
    ensures { SaysAs (λ step. said.does step.0 step.1) result
        (poll_by reader.now (option_copied count.entry)) }
{
    let reader = reader_number(reader)?;
    repeated(Do::Poll(reader), count)
}

// A step, once or as often as the word says.
fn repeated(step: Do, count: Option<&[u8]>) -> Result<(Do, u64), LineRefusal>
    ensures { SaysAs (λ step. said.does step.0 step.1) result
        (step_line step (option_copied count.entry)) }
{
    let count = match count {
        Some(word) => number(word, 1, MAX_COUNT)?,
        None => 1,
    };
    Ok((step, count))
}

// The number of a reader.
fn reader_number(word: &[u8]) -> Result<u32, Kind>
    ensures { result ≡ number_field 1 64 word.now }
{
    small_number(word, 1, MAX_READERS)
}

/// How many calls of its disk pass before a life is killed, and what the crash leaves.
pub(crate) fn killed(words: &[&[u8]]) -> Result<(u64, u64), LineRefusal>
    ensures { SaysAs (λ kill. said.kills kill.0 kill.1) result
        (line_of Form.Kill (map (λ word. word.now) words.now)) }
{
    match words {
        [calls, choice] => killed_after(calls, choice),
        _ => Err(LineRefusal::Bad(Kind::Word)),
    }
}

fn killed_after(calls: &[u8], choice: &[u8]) -> Result<(u64, u64), LineRefusal>
    ensures { SaysAs (λ kill. said.kills kill.0 kill.1) result (kill_line calls.now choice.now) }
{
    let calls = number(calls, 0, MAX_CALLS)?;
    let choice = number(choice, 0, u64::MAX)?;
    Ok((calls, choice))
}
