//! Sets of keys.
ghost use Rattle.std.specs.Bool.{OnFalse};
ghost use Rattle.std.specs.Prelude.{◌≡◌, ℕ, false, ◌&&◌, ◌||◌, ◌++◌, drop, not, [], ◌∷◌, ◌≤◌, length, List, IsTrue, IfOk, MatchResult, OnOk, OnErr, ◌↔◌};
ghost use Rattle.st_key.specs.Spans.{Span, key_less, within, holds, is_canonical, Covers, IsSubset, Misses};
ghost use Rattle.std.specs.List.{list_all, list_any, prefix_len};
ghost use Rattle.st_key.specs.Parts.{begins_by, ending_from, has_all, lies_in, with_span, without_span};

use crate::{Key, Range};
use std::alloc::{AllocError, Global};
use std::marker::Model;
use std::vec::VecCloneMethods;

/// A set of keys, as the one sorted list of ranges that don't touch.
#[derive(Debug, Drop)]
pub struct Ranges {
    pieces: Vec<Range>,
}

impl Model for Ranges {
    ghost use Rattle.std.specs.Prelude.{List, IsTrue};
    ghost use Rattle.st_key.specs.Spans.{Span, is_canonical};

    ghost Value = { List Span };

    ghost view = { λ set. set.pieces.items };

    ghost invariant = { λ set. IsTrue (is_canonical set.pieces.items) };
}

impl Ranges {
    /// The set of no key.
    pub fn new(alloc: Global) -> Ranges
        ensures { result ≡ [] }
    {
        Ranges {
            pieces: Vec::new(alloc),
        }
    }

    /// The set of the keys of `r`.
    pub fn of(alloc: Global, r: Range) -> Result<Ranges, AllocError>
        ensures { IfOk result (λ set. set ≡ r ∷ []) }
    {
        let _ = r.begin();
        let mut pieces = Vec::new(alloc);
        pieces.push(r)?;
        Ok(Ranges { pieces })
    }

    /// The set of ranges that rise and don't touch. Others are handed back. It takes no memory, and time linear in their
    /// number.
    pub fn from_vec(pieces: Vec<Range>) -> Result<Ranges, Vec<Range>>
        ensures { MatchResult result
            (λ set. IsTrue (is_canonical pieces.items) × (set ≡ pieces.items))
            (λ why. (is_canonical pieces.items ≡ false) × (why.items ≡ pieces.items)) }
    {
        if are_apart(&pieces) {
            Ok(Ranges { pieces })
        } else {
            Err(pieces)
        }
    }

    /// Puts the keys of `r` into the set. Takes time linear in the number of pieces.
    pub fn add(&mut self, r: &Range) -> Result<(), AllocError>
        ensures value { OnOk result (self.new ≡ with_span self.old r.now) }
        ensures ok { OnOk result ((key : List ℕ)
            → holds self.new key ≡ (holds self.old key || within r.now key)) }
        ensures canonical { IsTrue (is_canonical self.new) }
        ensures err { OnErr result (self.new ≡ self.old) }
    {
        self.pieces = self.joined(r)?;
        Ok(())
    }

    /// Takes the keys of `r` out of the set. Takes time linear in the number of pieces.
    pub fn remove(&mut self, r: &Range) -> Result<(), AllocError>
        ensures value { OnOk result (self.new ≡ without_span self.old r.now) }
        ensures ok { OnOk result ((key : List ℕ)
            → holds self.new key ≡ (holds self.old key && not (within r.now key))) }
        ensures canonical { IsTrue (is_canonical self.new) }
        ensures err { OnErr result (self.new ≡ self.old) }
    {
        self.pieces = self.cut(r)?;
        Ok(())
    }

    /// Whether every key of `r` is in the set.
    pub fn covers(&self, r: &Range) -> bool
        ensures covered { IsTrue result ↔ Covers self.now r.now }
        ensures missed { OnFalse result (Misses self.now r.now) }
    {
        self.has_in_one_piece(r.begin(), r.end())
    }

    /// Whether every key of the set is in the other one. Takes time linear in the pieces of both.
    pub fn is_subset(&self, other: &Ranges) -> bool
        ensures value { result ≡ list_all (lies_in other.now) self.now }
        ensures subset { IsTrue result ↔ IsSubset self.now other.now }
    {
        let mut left = other.pieces();
        for piece in self.pieces() {
            left = ending_from(left, piece.end());
            if !begins_by(left, piece.begin()) {
                return false;
            }
        }
        true
    }

    /// Whether the key is in the set.
    pub fn contains(&self, key: &[u8]) -> bool
        ensures { result ≡ holds self.now key.now }
    {
        self.pieces.iter().any(|piece| piece.contains(key))
    }

    /// The ranges of the set: sorted, disjoint and not touching.
    pub fn pieces(&self) -> &[Range]
        ensures value { result.now ≡ self.now }
        ensures canonical { IsTrue (is_canonical self.now) }
    {
        &self.pieces
    }

    // Whether one piece has all keys from `begin` up to `end`.
    fn has_in_one_piece(&self, begin: &Key, end: &Key) -> bool
        ensures value { result ≡ list_any (λ piece. has_all begin.now end.now piece) self.now }
        ensures canonical { IsTrue (is_canonical self.now) }
    {
        self.pieces
            .iter()
            .any(|piece| piece.contains_all(begin, end))
    }

    // The pieces with `r` put in. Those that touch it make one range with it.
    fn joined(&self, r: &Range) -> Result<Vec<Range>, AllocError>
        ensures value { IfOk result (λ out. out.items ≡ with_span self.now r.now) }
        ensures ordered { OnOk result (IsTrue (key_less r.now.begin r.now.end)) }
    {
        let mut out = Vec::new(self.pieces.allocator().clone()?);
        let mut grown = r.clone()?;
        for (at, piece) in self.pieces.iter().enumerate() {
            if piece.ends_before(&grown) {
                out.push(piece.clone()?)?;
            } else if grown.ends_before(piece) {
                out.push(grown)?;
                out.extend_from_slice(&self.pieces[at..])?;
                return Ok(out);
            } else {
                grown = grown.hull(piece)?;
            }
        }
        out.push(grown)?;
        Ok(out)
    }

    // What is left of each piece below `r` and above it.
    fn cut(&self, r: &Range) -> Result<Vec<Range>, AllocError>
        ensures value { IfOk result (λ out. out.items ≡ without_span self.now r.now) }
        ensures ordered { OnOk result (IsTrue (key_less r.now.begin r.now.end)) }
    {
        let (begin, end) = (r.begin(), r.end());
        let mut out = Vec::new(self.pieces.allocator().clone()?);
        for piece in &self.pieces {
            if let Some(below) = piece.part_below(begin)? {
                out.push(below)?;
            }
            if let Some(above) = piece.part_from(end)? {
                out.push(above)?;
            }
        }
        Ok(out)
    }
}

impl Clone for Ranges {
    ghost is_clone = { λ set copy. copy ≡ set };

    fn clone(&self) -> Result<Ranges, AllocError> {
        Ok(Ranges {
            pieces: self.pieces.clone()?,
        })
    }
}

// Whether each range ends below the next one.
fn are_apart(pieces: &[Range]) -> bool
    ensures { result ≡ is_canonical pieces.now }
{
    for (at, piece) in pieces.iter().enumerate() {
        if !is_apart(piece, &pieces[at + 1..]) {
            return false;
        }
    }
    true
}

// Whether the range ends below the first of these.
fn is_apart(piece: &Range, later: &[Range]) -> bool
    ensures { is_canonical (piece.now ∷ later.now) ≡ (result && is_canonical later.now) }
{
    let _ = piece.begin();
    match later.first() {
        Some(next) => {
            let _ = next.begin();
            piece.ends_before(next)
        }
        None => true,
    }
}

// The ranges from the first one on that ends at the key or above it.
fn ending_from<'a>(pieces: &'a [Range], key: &Key) -> &'a [Range]
    ensures { result.now ≡ ending_from pieces.now key.now }
{
    &pieces[count_below(pieces, key)..]
}

// How many ranges at the front end below the key.
fn count_below(pieces: &[Range], key: &Key) -> usize
    ensures value { result ≡ prefix_len (λ s. key_less s.end key.now) pieces.now }
    ensures within { result ≤ length pieces.now }
{
    pieces
        .iter()
        .take_while(|piece| *piece.end() < *key)
        .count()
}

// Whether the first of the ranges begins at the key or below it.
fn begins_by(pieces: &[Range], key: &Key) -> bool
    ensures { result ≡ begins_by pieces.now key.now }
{
    match pieces.first() {
        Some(first) => *key >= *first.begin(),
        None => false,
    }
}
