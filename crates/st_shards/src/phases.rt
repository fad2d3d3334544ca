//! What is asked of one piece, and what becomes of it.
ghost use Rattle.std.specs.Prelude.{◌≡◌, ◌&&◌, ◌∷◌, [], Some, bytes_eq, false, not, IfOk, IsTrue, MatchOption};
ghost use Rattle.st_key.specs.Spans.{key_less};
ghost use Rattle.st_key.specs.Parts.{greatest};
ghost use Rattle.st_model.specs.Pieces.{in_phase, is_readable, nearest, part, rows_taken, fetched_to, wants_fetch, wants_block, takes_block, stops_at, is_whole, start_piece, block_piece, split_piece};
ghost use Rattle.st_model.specs.declared.piece.Phase.TheVariants.{WaitPrevious};
ghost use Rattle.st_shards.specs.Parts.{parts_list, AreSplit};
ghost use Rattle.st_shards.specs.Refusals.{RefusesNotDue};

use crate::refusal::{ShardRefusal, not_due};
use crate::slots::{Parts, Slot};
use st_key::Key;
use st_model::{Phase, Piece};
use std::alloc::AllocError;

// The nearest key between two ends, both included.
fn nearest<'a>(begin: &'a Key, end: &'a Key, key: &'a Key) -> &'a Key
    ensures { result.now ≡ nearest (record { begin = begin.now; end = end.now }) key.now }
{
    let low = if end < key { end } else { key };
    if begin < low { low } else { begin }
}

/// The greater of two keys.
pub fn greatest<'a>(a: &'a Key, b: &'a Key) -> &'a Key
    ensures { result.now ≡ greatest a.now b.now }
{
    if a < b { b } else { a }
}

/// The part of a piece from `begin` to `end`. What was fetched is cut to it.
pub fn part_of(piece: &Piece, begin: &Key, end: &Key) -> Result<Slot, AllocError>
    ensures { IfOk result (λ slot. slot ≡ part piece.now (record { begin = begin.now; end = end.now })) }
{
    let phase = match &piece.phase {
        Phase::Fetching {
            at,
            upto,
            taken,
            in_base,
        } => Phase::Fetching {
            at: *at,
            upto: nearest(begin, end, upto).clone()?,
            taken: nearest(begin, end, taken).clone()?,
            in_base: nearest(begin, end, in_base).clone()?,
        },
        other => other.clone()?,
    };
    Slot::new(Piece {
        begin: begin.clone()?,
        end: end.clone()?,
        phase,
    })
}

// The piece in another phase.
fn in_phase(piece: &Piece, phase: Phase) -> Result<Slot, AllocError>
    ensures { IfOk result (λ slot. slot ≡ in_phase phase piece.now) }
{
    Slot::new(Piece {
        begin: piece.begin.clone()?,
        end: piece.end.clone()?,
        phase,
    })
}

// The phase once a commit has taken the rows that were fetched.
fn rows_taken(phase: &Phase) -> Result<Phase, AllocError>
    ensures { IfOk result (λ next. next ≡ rows_taken phase.now) }
{
    match phase {
        Phase::Fetching {
            at,
            upto,
            in_base,
            ..
        } => Ok(Phase::Fetching {
            at: *at,
            upto: upto.clone()?,
            taken: upto.clone()?,
            in_base: in_base.clone()?,
        }),
        other => other.clone(),
    }
}

// The phase once the piece is fetched up to a key.
fn fetched_to(phase: &Phase, key: &Key) -> Result<Phase, AllocError>
    ensures { IfOk result (λ next. next ≡ fetched_to key.now phase.now) }
{
    match phase {
        Phase::Fetching {
            at,
            taken,
            in_base,
            ..
        } => Ok(Phase::Fetching {
            at: *at,
            upto: key.clone()?,
            taken: taken.clone()?,
            in_base: in_base.clone()?,
        }),
        other => other.clone(),
    }
}

// Whether the piece may be fetched.
fn wants_fetch(piece: &Piece, durable: u64) -> bool
    ensures { result ≡ wants_fetch durable piece.now }
{
    match piece.phase {
        Phase::WaitPrevious { since } => since <= durable,
        _ => false,
    }
}

// Whether `key` may be how far the piece is fetched next.
fn takes_block(piece: &Piece, key: &Key) -> bool
    ensures { result ≡ takes_block key.now piece.now }
{
    match &piece.phase {
        Phase::Fetching { upto, .. } => upto < key && piece.end >= *key,
        _ => false,
    }
}

// How far the piece is fetched, where that is below its end.
fn fetched_part(piece: &Piece) -> Option<&Key>
    ensures { MatchOption result (wants_block piece.now ≡ false)
        (λ key. IsTrue (wants_block piece.now) × IsTrue (stops_at key.now piece.now)) }
{
    match &piece.phase {
        Phase::Fetching { upto, .. } if *upto < piece.end => Some(upto),
        _ => None,
    }
}

// Whether a fetch of the piece that begins at the key may start.
fn may_start(piece: &Piece, begin: &Key, durable: u64) -> bool
    ensures { result ≡ (bytes_eq piece.now.begin begin.now && wants_fetch durable piece.now) }
{
    piece.begin == *begin && wants_fetch(piece, durable)
}

// Whether the piece that begins at the key may be fetched up to `upto` next.
fn may_advance(piece: &Piece, begin: &Key, upto: &Key) -> bool
    ensures { result ≡ (bytes_eq piece.now.begin begin.now && takes_block upto.now piece.now) }
{
    piece.begin == *begin && takes_block(piece, upto)
}

/// The piece once a commit has taken the rows that were fetched.
pub fn taken(piece: &Piece) -> Result<Slot, AllocError>
    ensures { IfOk result (λ slot. slot ≡ in_phase (rows_taken piece.now.phase) piece.now) }
{
    in_phase(piece, rows_taken(&piece.phase)?)
}

/// The piece once its fetch starts at a version, where it begins at the key, and what took it away is durable.
pub fn started(piece: &Piece, begin: &Key, at: u64, durable: u64) -> Result<Parts, ShardRefusal>
    ensures ok { IfOk result (λ parts. parts_list parts ≡ start_piece at piece.now ∷ []) }
    ensures refused { RefusesNotDue (bytes_eq piece.now.begin begin.now && wants_fetch durable piece.now) (Some piece.now.phase) result }
{
    if !may_start(piece, begin, durable) {
        return Err(not_due(piece));
    }
    let phase = Phase::Fetching {
        at,
        upto: piece.begin.clone()?,
        taken: piece.begin.clone()?,
        in_base: piece.begin.clone()?,
    };
    Ok(Parts {
        first: in_phase(piece, phase)?,
        second: None,
    })
}

/// The piece once it is fetched up to `upto`, where it begins at the key, is fetched, and `upto` lies ahead in it.
pub fn advanced(piece: &Piece, begin: &Key, upto: &Key) -> Result<Parts, ShardRefusal>
    ensures ok { IfOk result (λ parts. parts_list parts ≡ block_piece upto.now piece.now ∷ []) }
    ensures refused { RefusesNotDue (bytes_eq piece.now.begin begin.now && takes_block upto.now piece.now) (Some piece.now.phase) result }
{
    if !may_advance(piece, begin, upto) {
        return Err(not_due(piece));
    }
    Ok(Parts {
        first: in_phase(piece, fetched_to(&piece.phase, upto)?)?,
        second: None,
    })
}

// A piece of these keys.
fn slot_of(begin: &Key, end: &Key, phase: Phase) -> Result<Slot, AllocError>
    ensures { IfOk result (λ slot. slot ≡ record { begin = begin.now; end = end.now; phase = phase }) }
{
    Slot::new(Piece {
        begin: begin.clone()?,
        end: end.clone()?,
        phase,
    })
}

// The parts of a piece below a key inside it and from it on: what lies ahead waits to be fetched anew.
fn two_parts(piece: &Piece, key: &Key, durable: u64) -> Result<Parts, AllocError>
    ensures { IfOk result (λ parts. parts_list parts ≡ (record { begin = piece.now.begin; end = key.now; phase = piece.now.phase })
        ∷ (record { begin = key.now; end = piece.now.end; phase = WaitPrevious durable }) ∷ []) }
{
    let left = slot_of(&piece.begin, key, piece.phase.clone()?)?;
    let right = slot_of(key, &piece.end, Phase::WaitPrevious { since: durable })?;
    Ok(Parts {
        first: left,
        second: Some(right),
    })
}

// The piece cut at a key up to which it is fetched: what lies ahead waits to be fetched anew.
fn parts_at(piece: &Piece, key: &Key, durable: u64) -> Result<Parts, AllocError>
    ensures { IfOk result (λ parts. parts_list parts ≡ split_piece durable key.now piece.now) }
{
    if *key != piece.begin {
        return two_parts(piece, key, durable);
    }
    let ahead = Phase::WaitPrevious { since: durable };
    Ok(Parts {
        first: in_phase(piece, ahead)?,
        second: None,
    })
}

/// The parts of the piece once it is split, where it begins at the key, and isn't fetched whole.
pub fn split_off(piece: &Piece, begin: &Key, durable: u64) -> Result<Parts, ShardRefusal>
    ensures ok { IfOk result (λ parts. AreSplit durable piece.now parts) }
    ensures refused { RefusesNotDue (bytes_eq piece.now.begin begin.now && wants_block piece.now) (Some piece.now.phase) result }
{
    if piece.begin != *begin {
        return Err(not_due(piece));
    }
    match fetched_part(piece) {
        Some(key) => Ok(parts_at(piece, key, durable)?),
        None => Err(not_due(piece)),
    }
}

/// Whether the piece was fetched whole, and is in the base.
pub fn is_whole(piece: &Piece) -> bool
    ensures { result ≡ is_whole piece.now }
{
    match &piece.phase {
        Phase::Fetching { upto, in_base, .. } => *in_base == piece.end && *upto == piece.end,
        _ => false,
    }
}

/// Whether the piece isn't served.
pub fn is_unserved(piece: &Piece) -> bool
    ensures { result ≡ not (is_readable piece.now.phase) }
{
    match piece.phase {
        Phase::Readable => false,
        _ => true,
    }
}
