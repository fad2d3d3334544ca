//! Cuts a script into lines, and a line into words.
ghost use Rattle.std.specs.Prelude.{◌≡◌, ◌<◌, ◌∷◌, take, length, map, OnOk};
ghost use Rattle.st_script.specs.Words.{lines, words, is_skipped};

use std::alloc::AllocError;

/// How many words of a line are looked at. A line of a known form has fewer.
const MAX_WORDS: usize = 10;

/// The first line of a text, and the text after it.
pub(crate) fn cut_line(text: &[u8]) -> (&[u8], &[u8])
    requires { 0 < length text.now }
    ensures cut { lines text.now ≡ result.0.now ∷ lines result.1.now }
    ensures shorter { length result.1.now < length text.now }
{
    match text.iter().position(|byte| *byte == b'\n') {
        Some(end) => (&text[..end], &text[end + 1..]),
        None => (text, &[]),
    }
}

/// Whether the line has no word or is a comment.
pub(crate) fn is_skipped(line: &[u8]) -> bool
    ensures { result ≡ is_skipped (words line.now) }
{
    match line.iter().find(|byte| **byte != b' ') {
        Some(first) => *first == b'#',
        None => true,
    }
}

/// Puts the first words of a line, at most [`MAX_WORDS`], in the place of those that were found
/// before.
pub(crate) fn first_words<'a>(found: &mut Vec<&'a [u8]>, line: &'a [u8]) -> Result<(), AllocError>
    ensures { OnOk result
        (map (λ word. word.now) found.new.items ≡ take MAX_WORDS (words line.now)) }
{
    found.clear();
    found.extend(
        line.split(|byte| *byte == b' ')
            .filter(|word| !word.is_empty())
            .take(MAX_WORDS),
    )
}
