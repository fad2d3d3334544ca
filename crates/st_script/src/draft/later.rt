//! Lines that aren't played yet, and lines that may not come again.
ghost use Rattle.std.specs.Prelude.{◌≡◌, map};
ghost use Rattle.std.specs.List.{list_any};
ghost use Rattle.st_script.specs.Draft.{later_forms, later_requests, later_acts, is_among, are_all_keys, is_later_line, has_lasts, is_ruled_out};
ghost use Rattle.st_script.specs.Fields.{is_word};

use crate::draft::Draft;
use crate::field::is_word;
use crate::form::Form;

// The first words of forms that aren't played yet.
const LATER_FORMS: [&[u8]; 6] = [
    b"block",
    b"watches",
    b"assign",
    b"drop",
    b"cut",
    b"peerfail",
];

const LATER_REQUESTS: [&[u8]; 1] = [b"watch"];

const LATER_ACTS: [&[u8]; 2] = [b"start", b"block"];

// ff in hex of either case.
const END_OF_KEYS: [&[u8]; 4] = [b"ff", b"fF", b"Ff", b"FF"];

impl Draft {
    /// Whether the line is of a form that isn't played yet.
    pub(super) fn is_later_line(&self, form: Form, words: &[&[u8]]) -> bool
        ensures { result ≡ is_later_line self.now form (map (λ word. word.now) words.now) }
    {
        match form {
            Form::Own => !self.own.pieces().is_empty() || !are_all_keys(words),
            Form::Log => self.own.pieces().is_empty(),
            Form::Ask => matches!(words, [_, request, ..] if is_among(&LATER_REQUESTS, request)),
            Form::Do => matches!(words, [act, ..] if is_among(&LATER_ACTS, act)),
            Form::Storage
            | Form::Option(_)
            | Form::Batch
            | Form::Set
            | Form::Clear
            | Form::Atomic(_)
            | Form::Life
            | Form::Last
            | Form::Close
            | Form::Kill
            | Form::End => false,
        }
    }

    /// Whether earlier lines rule the line out: it is an option that one of them has set, or a kill
    /// of a life at whose end one of them asks.
    pub(super) fn is_ruled_out(&self, form: Form) -> bool
        ensures { result ≡ is_ruled_out self.now form }
    {
        match form {
            Form::Option(setting) => self.chosen.has(setting),
            Form::Kill => self.has_lasts(),
            _ => false,
        }
    }

    // Whether the last life has requests that are answered at its end.
    fn has_lasts(&self) -> bool
        ensures { result ≡ has_lasts self.now.lives }
    {
        match self.lives.last() {
            Some(life) => !life.lasts.is_empty(),
            None => false,
        }
    }
}

/// Whether a line with this first word is of a form that isn't played yet.
pub(super) fn is_later_form(word: &[u8]) -> bool
    ensures { result ≡ is_among later_forms word.now }
{
    is_among(&LATER_FORMS, word)
}

fn is_among(known: &[&[u8]], word: &[u8]) -> bool
    ensures { result ≡ is_among (map (λ text. text.now) known.now) word.now }
{
    known.iter().any(|text| is_word(word, text))
}

// Whether the words are `- ff`.
fn are_all_keys(words: &[&[u8]]) -> bool
    ensures { result ≡ are_all_keys (map (λ word. word.now) words.now) }
{
    match words {
        [begin, end] => is_word(begin, b"-") && is_among(&END_OF_KEYS, end),
        _ => false,
    }
}
