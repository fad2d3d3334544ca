//! Ranges of keys.
ghost use Rattle.std.specs.Option.{option_to_list};
ghost use Rattle.std.specs.Prelude.{◌≡◌, false, IsTrue, IfOk, MatchResult};
ghost use Rattle.st_key.specs.Spans.{key_less, within};
ghost use Rattle.st_key.specs.Parts.{least, greatest, has_all, hull, part_below, part_from};

use crate::Key;
use std::alloc::AllocError;
use std::marker::Model;

/// The keys from `begin` up to, and without, `end`. There is at least one.
///
/// A clone shares the bytes of both ends, and copies none.
#[derive(Debug, Drop, PartialEq, Eq)]
pub struct Range {
    begin: Key,
    end: Key,
}

impl Model for Range {
    ghost use Rattle.std.specs.Prelude.{IsTrue};
    ghost use Rattle.st_key.specs.Spans.{Span, key_less};

    ghost Value = { Span };

    ghost view = { λ range. record { begin = range.begin; end = range.end } };

    ghost invariant = { λ range. IsTrue (key_less range.begin range.end) };

    ghost inverse = { λ span. record { begin = span.begin; end = span.end } };
}

/// Two ends between which there is no key.
#[derive(Debug, Drop, PartialEq, Eq)]
pub struct Inverted {
    pub begin: Key,
    pub end: Key,
}

impl Range {
    /// The range between two ends, which are handed back where `begin` isn't below `end`.
    pub fn new(begin: Key, end: Key) -> Result<Range, Inverted>
        ensures { MatchResult result
            (λ range. (IsTrue (key_less begin end)) × (range ≡ record { begin = begin; end = end }))
            (λ why. (key_less begin end ≡ false) × (why ≡ record { begin = begin; end = end })) }
    {
        if begin < end {
            Ok(Range { begin, end })
        } else {
            Err(Inverted { begin, end })
        }
    }

    /// The first key of the range.
    pub fn begin(&self) -> &Key
        ensures value { result.now ≡ self.now.begin }
        ensures ordered { IsTrue (key_less self.now.begin self.now.end) }
    {
        &self.begin
    }

    /// The end of the range, the least key above all of its keys.
    pub fn end(&self) -> &Key
        ensures value { result.now ≡ self.now.end }
        ensures ordered { IsTrue (key_less self.now.begin self.now.end) }
    {
        &self.end
    }

    /// Whether the key is in the range.
    pub fn contains(&self, key: &[u8]) -> bool
        ensures { result ≡ within self.now key.now }
    {
        !is_less(key, self.begin.bytes()) && is_less(key, self.end.bytes())
    }

    // Whether the keys from `begin` up to `end` are all in this one range.
    pub(crate) fn contains_all(&self, begin: &Key, end: &Key) -> bool
        ensures { result ≡ has_all begin.now end.now self.now }
    {
        *begin >= self.begin && self.end >= *end
    }

    // Whether `r` begins above this range, and doesn't touch it.
    pub(crate) fn ends_before(&self, r: &Range) -> bool
        ensures { result ≡ key_less self.now.end r.now.begin }
    {
        self.end < r.begin
    }

    // The least range that has the keys of both.
    pub(crate) fn hull(&self, r: &Range) -> Result<Range, AllocError>
        ensures { IfOk result (λ range. range ≡ hull self.now r.now) }
    {
        Ok(Range {
            begin: least(&self.begin, &r.begin).clone()?,
            end: greatest(&self.end, &r.end).clone()?,
        })
    }

    // The part of this range that lies below `key`, if it has a key.
    pub(crate) fn part_below(&self, key: &Key) -> Result<Option<Range>, AllocError>
        ensures { IfOk result (λ part. option_to_list part ≡ part_below self.now key.now) }
    {
        if self.begin >= *key {
            return Ok(None);
        }
        Ok(Some(Range {
            begin: self.begin.clone()?,
            end: least(key, &self.end).clone()?,
        }))
    }

    // The part of this range that begins at `key` or above it, if it has a key.
    pub(crate) fn part_from(&self, key: &Key) -> Result<Option<Range>, AllocError>
        ensures { IfOk result (λ part. option_to_list part ≡ part_from self.now key.now) }
    {
        if *key >= self.end {
            return Ok(None);
        }
        Ok(Some(Range {
            begin: greatest(&self.begin, key).clone()?,
            end: self.end.clone()?,
        }))
    }
}

impl Clone for Range {
    ghost is_clone = { λ range copy. copy ≡ range };

    fn clone(&self) -> Result<Range, AllocError>
        ensures copy { IfOk result (λ copy. copy ≡ self.now) }
        ensures ordered { IsTrue (key_less self.now.begin self.now.end) }
    {
        Ok(Range {
            begin: self.begin.clone()?,
            end: self.end.clone()?,
        })
    }
}

// Whether `a` comes before `b` in the order of bytes.
fn is_less(a: &[u8], b: &[u8]) -> bool
    ensures { result ≡ key_less a.now b.now }
{
    a < b
}

fn least<'a>(a: &'a Key, b: &'a Key) -> &'a Key
    ensures { result.now ≡ least a.now b.now }
{
    if b < a { b } else { a }
}

fn greatest<'a>(a: &'a Key, b: &'a Key) -> &'a Key
    ensures { result.now ≡ greatest a.now b.now }
{
    if a < b { b } else { a }
}
