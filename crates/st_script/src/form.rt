//! The forms of lines, and where each may stand.
ghost use Rattle.std.specs.Prelude.{◌≡◌, map};
ghost use Rattle.st_script.specs.Draft.{is_allowed};
ghost use Rattle.st_script.specs.Lines.{form_in, form_of};

use crate::field::is_word;
use crate::options::Setting;
use st_atomic::AtomicOp;

/// The form of a line, which its first word tells.
#[derive(Clone, Copy, Debug, PartialEq, Eq)]
pub enum Form {
    Storage,
    Option(Setting),
    Own,
    Log,
    Batch,
    Set,
    Clear,
    Atomic(AtomicOp),
    Life,
    Ask,
    Last,
    Do,
    Close,
    Kill,
    End,
}

// The forms, each by its first word. Most lines are sets and batches, which are found first.
const FORMS: [(&[u8], Form); 29] = [
    (b"set", Form::Set),
    (b"batch", Form::Batch),
    (b"storage", Form::Storage),
    (b"window", Form::Option(Setting::Window)),
    (b"patience", Form::Option(Setting::Patience)),
    (b"seed", Form::Option(Setting::Seed)),
    (b"swap", Form::Option(Setting::Swap)),
    (b"limit", Form::Option(Setting::Limit)),
    (b"quota", Form::Option(Setting::Quota)),
    (b"own", Form::Own),
    (b"log", Form::Log),
    (b"clear", Form::Clear),
    (b"add", Form::Atomic(AtomicOp::Add)),
    (b"and", Form::Atomic(AtomicOp::And)),
    (b"or", Form::Atomic(AtomicOp::Or)),
    (b"xor", Form::Atomic(AtomicOp::Xor)),
    (b"max", Form::Atomic(AtomicOp::Max)),
    (b"min", Form::Atomic(AtomicOp::Min)),
    (b"byte_min", Form::Atomic(AtomicOp::ByteMin)),
    (b"byte_max", Form::Atomic(AtomicOp::ByteMax)),
    (b"append", Form::Atomic(AtomicOp::AppendIfFits)),
    (
        b"compare_and_clear",
        Form::Atomic(AtomicOp::CompareAndClear),
    ),
    (b"life", Form::Life),
    (b"ask", Form::Ask),
    (b"last", Form::Last),
    (b"do", Form::Do),
    (b"close", Form::Close),
    (b"kill", Form::Kill),
    (b"end", Form::End),
];

/// How far a script has come.
#[derive(Clone, Copy, Debug, PartialEq, Eq)]
pub enum Place {
    /// Before its first line.
    Start,
    /// Among its options and ranges.
    Head,
    /// In its log, before the first batch.
    Log,
    /// In a batch.
    Batch,
    /// In a life.
    Life,
    /// After a life.
    Closed,
    /// After its end.
    Ended,
}

impl Form {
    /// The form whose first word this is.
    pub(crate) fn of(word: &[u8]) -> Option<Form>
        ensures { result ≡ form_of word.now }
    {
        form_in(&FORMS, word)
    }
}

// The form that a table has for a word.
fn form_in(table: &[(&[u8], Form)], word: &[u8]) -> Option<Form>
    ensures { result ≡ form_in (map (λ row. (row.0.now, row.1)) table.now) word.now }
{
    table
        .iter()
        .find(|(known, _)| is_word(word, known))
        .map(|(_, form)| *form)
}

/// Whether a line of this form may stand at this place.
pub(crate) fn is_allowed(place: Place, form: Form) -> bool
    ensures { result ≡ is_allowed place form }
{
    matches!(
        (place, form),
        (Place::Head, Form::Option(_) | Form::Own | Form::Log)
            | (Place::Log, Form::Batch | Form::Life)
            | (
                Place::Batch,
                Form::Batch | Form::Set | Form::Clear | Form::Atomic(_) | Form::Life
            )
            | (
                Place::Life,
                Form::Ask | Form::Last | Form::Do | Form::Close | Form::Kill
            )
            | (Place::Closed, Form::Life | Form::End)
    )
}
