//! Pairs as a state.
ghost use Rattle.std.specs.Prelude.{◌≡◌, ◌<◌, ◌^◌, length, IfOk, IfSome, Ok, Some, None, if◌then◌else◌, nat_le};
ghost use Rattle.std.specs.List.{list_any};
ghost use Rattle.std.specs.Option.{option_map};
ghost use Rattle.st_meta.specs.Reading.{Answers, checked, meta_of, number_of, range_at, ranges_in, ranges_of, sized_at, spans_at, version_in};
ghost use Rattle.st_meta.specs.Stored.{SpellsRanges, Stores, StoresRanges, is_key, is_other, value_at, version_key};
ghost use Rattle.st_meta.specs.declared.state.Meta.{Meta as State};
ghost use Rattle.st_num.specs.Number.{little_bytes};
ghost use Rattle.st_meta.specs.declared.state.MetaRefusal.TheVariants.{BadMeta};
ghost use Rattle.st_ptree.specs.Entries.{pairs_of};

use crate::writing::{ASSIGNED, AVAILABLE, VERSION};
use crate::{Meta, MetaRefusal};
use bytes::Bytes;
use st_key::{Key, KeyRefusal, MetaPart, Range, Ranges};
use st_num::{take_u32, take_u64};
use st_ptree::{PTree, Steps, pairs_are_a_map};
use std::alloc::{AllocError, Global};
use std::marker::Brand;
use std::sync::ledger::{Blank, Ledger};

// The least key that is no user's.
const FF: &[u8] = b"\xff";

// The bytes behind their length, and those behind them. None where they aren't whole.
fn take_sized(bytes: &[u8]) -> Option<(&[u8], &[u8])>
    ensures { option_map (λ found. (found.0.now, found.1.now)) result ≡ sized_at bytes.now }
{
    let len = take_u32(bytes, 0)? as usize;
    bytes[4..].split_at_checked(len)
}

// The end of a range. None where it is too long.
fn bound(alloc: Global, bytes: &[u8]) -> Result<Option<Key>, AllocError>
    ensures { IfOk result (λ key. key ≡ (if nat_le (length bytes.now) 10001 then Some bytes.now else None)) }
{
    match Key::end(alloc, bytes) {
        Ok(key) => Ok(Some(key)),
        Err(KeyRefusal::KeyTooLong { .. }) => Ok(None),
        Err(KeyRefusal::NoMemory) => Err(AllocError),
    }
}

// The range between two ends, with the bytes behind it. None where no state may have it.
fn range_between<'a>(
    alloc: Global,
    begin: &[u8],
    end: &[u8],
    rest: &'a [u8],
) -> Result<Option<(Range, &'a [u8])>, AllocError>
    ensures { IfOk result (λ found. option_map (λ f. (f.0, f.1.now)) found ≡ checked (record { begin = begin.now; end = end.now }) rest.now) }
{
    if end > FF {
        return Ok(None);
    }
    let Some(begin) = bound(alloc, begin)? else {
        return Ok(None);
    };
    let Some(end) = bound(alloc, end)? else {
        return Ok(None);
    };
    match Range::new(begin, end) {
        Ok(range) => Ok(Some((range, rest))),
        Err(_) => Ok(None),
    }
}

// The range at the front, and the bytes behind it. None where no range that a state may have stands there.
fn take_range(alloc: Global, bytes: &[u8]) -> Result<Option<(Range, &[u8])>, AllocError>
    ensures { IfOk result (λ found. option_map (λ f. (f.0, f.1.now)) found ≡ range_at bytes.now) }
{
    let Some((begin, rest)) = take_sized(bytes) else {
        return Ok(None);
    };
    let Some((end, rest)) = take_sized(rest) else {
        return Ok(None);
    };
    range_between(alloc, begin, end, rest)
}

// So many ranges, and nothing behind them.
fn take_ranges(alloc: Global, count: u32, bytes: &[u8]) -> Result<Option<Vec<Range>>, AllocError>
    ensures { IfOk result (λ found. option_map (λ ranges. ranges.items) found ≡ spans_at count bytes.now) }
{
    let mut ranges = Vec::new(alloc);
    let mut rest = bytes;
    for _ in 0..count {
        let Some((range, behind)) = take_range(alloc, rest)? else {
            return Ok(None);
        };
        ranges.push(range)?;
        rest = behind;
    }
    if !rest.is_empty() {
        return Ok(None);
    }
    Ok(Some(ranges))
}

// The ranges of a value, where they rise and don't touch.
fn read_ranges(alloc: Global, bytes: &[u8]) -> Result<Option<Ranges>, AllocError>
    ensures { IfOk result (λ found. found ≡ ranges_of bytes.now) }
{
    let Some(count) = take_u32(bytes, 0) else {
        return Ok(None);
    };
    let Some(ranges) = take_ranges(alloc, count, &bytes[4..])? else {
        return Ok(None);
    };
    Ok(Ranges::from_vec(ranges).ok())
}

// The ranges that a value spells.
fn ranges_of(alloc: Global, bytes: &[u8]) -> Result<Option<Ranges>, AllocError>
    ensures found { IfOk result (λ found. found ≡ ranges_of bytes.now) }
    ensures spelled { IfOk result (λ found. IfSome found (λ ranges. SpellsRanges bytes.now ranges)) }
{
    st_num::taken_is_put();
    read_ranges(alloc, bytes)
}

// The number that a value of eight bytes spells.
fn number_of(bytes: &[u8]) -> Option<u64>
    ensures found { result ≡ number_of bytes.now }
    ensures spelled { IfSome result (λ number. (bytes.now ≡ little_bytes 8 number) × (number < 2 ^ 64)) }
{
    st_num::taken_is_put();
    if bytes.len() == 8 {
        take_u64(bytes, 0)
    } else {
        None
    }
}

// The ranges that the value of a key spells.
fn ranges_at<L: Ledger>(
    alloc: Global,
    base: &PTree<Bytes>,
    key: &[u8],
    steps: &mut Steps<L>,
) -> Result<Option<Ranges>, AllocError>
    ensures found { IfOk result (λ found. found ≡ ranges_in (pairs_of base.now) key.now) }
    ensures stored { IfOk result (λ found. IfSome found (λ ranges. StoresRanges (pairs_of base.now) key.now ranges)) }
{
    pairs_are_a_map::<Bytes>();
    match base.get(key, steps) {
        Some(value) => ranges_of(alloc, value.as_slice()),
        None => Ok(None),
    }
}

fn version_at<L: Ledger>(base: &PTree<Bytes>, steps: &mut Steps<L>) -> Option<u64>
    ensures found { result ≡ version_in (pairs_of base.now) }
    ensures stored { IfSome result (λ version. (value_at (pairs_of base.now) version_key ≡ Some (little_bytes 8 version)) × (version < 2 ^ 64)) }
{
    pairs_are_a_map::<Bytes>();
    number_of(base.get(VERSION, steps)?.as_slice())
}

fn is_key(stored: &[u8], key: &[u8]) -> bool
    ensures { result ≡ is_key stored.now key.now }
{
    stored.cmp(key).is_eq()
}

// Whether the key is no user's, and none of the three.
fn is_other(key: &[u8]) -> bool
    ensures { result ≡ is_other key.now }
{
    key >= FF && !is_key(ASSIGNED, key) && !is_key(AVAILABLE, key) && !is_key(VERSION, key)
}

fn has_other(base: &PTree<Bytes>) -> bool
    ensures { result ≡ list_any (λ pair. is_other pair.0) (pairs_of base.now) }
{
    for (key, _) in base.iter() {
        if is_other(key.as_slice()) {
            return true;
        }
    }
    false
}

fn bad<T>(which: MetaPart) -> Result<T, MetaRefusal>
    ensures { result ≡ Err (BadMeta which) }
{
    Err(MetaRefusal::BadMeta { which })
}

fn of_pairs_in<L: Ledger>(
    alloc: Global,
    base: &PTree<Bytes>,
    blank: Blank,
) -> Result<Meta, MetaRefusal>
    requires name { blank.name ≡ L.name }
    requires parts { blank.parts ≡ L.parts }
    requires some { 0 < blank.parts }
    ensures exact { Answers result (meta_of (pairs_of base.now)) }
    ensures stored { IfOk result (λ meta. Stores (pairs_of base.now) meta) }
{
    let mut steps = Steps::<L>::new(blank);
    let Some(version) = version_at(base, &mut steps) else {
        return bad(MetaPart::Version);
    };
    let Some(assigned) = ranges_at(alloc, base, ASSIGNED, &mut steps)? else {
        return bad(MetaPart::Assigned);
    };
    let Some(available) = ranges_at(alloc, base, AVAILABLE, &mut steps)? else {
        return bad(MetaPart::Available);
    };
    if !available.is_subset(&assigned) {
        return bad(MetaPart::Available);
    }
    if has_other(base) {
        return bad(MetaPart::Other);
    }
    Ok(Meta {
        version,
        assigned,
        available,
    })
}

/// The state that the pairs of a map are. Else the first part that they aren't is told: the version, what is assigned, what
/// is available and lies inside it, and nothing else that is no user's.
pub fn of_pairs(alloc: Global, base: &PTree<Bytes>) -> Result<Meta, MetaRefusal>
    // What is read is the state that the pairs store.
    ensures stored { IfOk result (λ meta. Stores (pairs_of base.now) meta) }
    // A state that the pairs store is read.
    ensures only { (meta : State) → Stores (pairs_of base.now) meta → Answers result (Ok meta) }
    ensures exact { Answers result (meta_of (pairs_of base.now)) }
{
    st_num::put_is_taken();
    of_pairs_in::<Brand>(alloc, base, Blank::new(1))
}
