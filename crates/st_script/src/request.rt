//! What the words of a request ask.
ghost use Rattle.std.specs.Prelude.{◌≡◌, map};
ghost use Rattle.st_script.specs.Outcome.{Says};
ghost use Rattle.st_script.specs.Requests.{is_at, is_direction, is_relation, is_ranged, is_request, get_of, rows_of, select_of, request_of};

use crate::field::{
    begins_with, is_word, key as read_key, offset as read_offset, range, range_about, small_number,
    version,
};
use crate::refusal::LineRefusal;
use crate::store::Store;
use st_fold::{Ask, Kind};

/// How many rows a request may be answered.
const MAX_ROWS: u32 = 10_000;

/// How many bytes of rows a request may ask for.
const MAX_BYTES: u32 = 100_000;

/// Whether the words are a request's, as far as they are known words. What its other words stand
/// for isn't asked.
pub(crate) fn is_request(words: &[&[u8]]) -> bool
    ensures { result ≡ is_request (map (λ word. word.now) words.now) }
{
    match words {
        [request, _, at] => is_word(request, b"get") && is_at(at),
        [request, _, relation, _, _, direction, at] => {
            is_at(at) && is_ranged(request, relation, direction)
        }
        _ => false,
    }
}

/// Reads a request.
pub(crate) fn read_request(store: &mut Store, words: &[&[u8]]) -> Result<Ask, LineRefusal>
    ensures { Says result (request_of (map (λ word. word.now) words.now)) }
{
    match words {
        [_, key, at] => get(store, key, at),
        [request, first, second, third, fourth, fifth, at] => {
            if is_word(request, b"range") {
                read_rows(store, first, second, third, fourth, fifth, at)
            } else {
                select(store, first, second, third, fourth, fifth, at)
            }
        }
        _ => Err(LineRefusal::Bad(Kind::Word)),
    }
}

// Whether the word is a version of the form `@V`.
fn is_at(word: &[u8]) -> bool
    ensures { result ≡ is_at word.now }
{
    begins_with(word, b'@')
}

// Whether these three words of a request about a range are known ones.
fn is_ranged(request: &[u8], relation: &[u8], direction: &[u8]) -> bool
    ensures { result ≡ is_ranged request.now relation.now direction.now }
{
    is_word(request, b"range") && is_direction(direction)
        || is_word(request, b"key") && is_relation(relation)
}

fn is_direction(word: &[u8]) -> bool
    ensures { result ≡ is_direction word.now }
{
    is_word(word, b"fwd") || is_word(word, b"rev")
}

fn is_relation(word: &[u8]) -> bool
    ensures { result ≡ is_relation word.now }
{
    is_word(word, b"eq") || is_word(word, b"ne")
}

fn get(store: &mut Store, key: &[u8], at: &[u8]) -> Result<Ask, LineRefusal>
    ensures { Says result (get_of key.now at.now) }
{
    let key = read_key(store, key)?;
    let version = version(at)?;
    Ok(Ask::Get(key, version))
}

fn read_rows(
    store: &mut Store,
    begin: &[u8],
    end: &[u8],
    rows: &[u8],
    size: &[u8],
    direction: &[u8],
    at: &[u8],
) -> Result<Ask, LineRefusal>
    ensures { Says result
        (rows_of begin.now end.now rows.now size.now direction.now at.now) }
{
    let begin = store.decode(begin)?;
    let end = store.decode(end)?;
    let rows = small_number(rows, 1, MAX_ROWS)?;
    let size = small_number(size, 1, MAX_BYTES)?;
    let version = version(at)?;
    Ok(Ask::Rows {
        range: range(begin, end)?,
        rows,
        bytes: size,
        reverse: is_word(direction, b"rev"),
        version,
    })
}

fn select(
    store: &mut Store,
    key: &[u8],
    relation: &[u8],
    offset: &[u8],
    begin: &[u8],
    end: &[u8],
    at: &[u8],
) -> Result<Ask, LineRefusal>
    ensures { Says result
        (select_of key.now relation.now offset.now begin.now end.now at.now) }
{
    let key = read_key(store, key)?;
    let offset = read_offset(offset)?;
    let begin = store.decode(begin)?;
    let end = store.decode(end)?;
    let version = version(at)?;
    let range = range_about(&key, begin, end)?;
    Ok(Ask::Select {
        key,
        or_equal: is_word(relation, b"eq"),
        offset,
        range,
        version,
    })
}
