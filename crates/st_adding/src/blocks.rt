//! The rows that were fetched.
ghost use Rattle.std.specs.Prelude.{◌≡◌, ◌∷◌, ◌++◌, [], ℕ, List, Some, false, not, filter, slice_get, IfOk, IsSome, IsTrue, OnErr, OnOk};
ghost use Rattle.std.specs.Cmp.Lexicographic.{slice_cmp};
ghost use Rattle.std.specs.FinMap.Entries.{find};
ghost use Rattle.std.specs.Option.{option_map_or};
ghost use Rattle.std.specs.Ordering.{nat_cmp};
ghost use Rattle.st_fold.specs.Map.{with_value};
ghost use Rattle.st_fold.specs.Reading.{pairs_in};
ghost use Rattle.st_key.specs.Spans.{within};
ghost use Rattle.st_adding.specs.Rows.{HaveSlots, forgotten, handed, rises, rows_of};

use st_key::{Key, Range, Value};
use st_list::Items;
use std::alloc::{AllocError, Global};
use std::collections::BTreeMap;
use std::marker::Model;

/// What a source answers: rows in the order of their keys, and the key up to which they are all.
#[derive(Debug, Drop)]
pub struct Block {
    pub rows: Items<(Key, Value)>,
    pub upto: Key,
}

/// The rows of all pieces that were fetched and aren't in the base yet, as one map.
#[derive(Drop)]
pub struct Blocks {
    alloc: Global,
    // a slot without a value is room for a row
    slots: BTreeMap<Key, Option<Value>>,
}

impl Model for Blocks {
    ghost use Rattle.st_fold.specs.Map.{Map};
    ghost use Rattle.st_adding.specs.Rows.{rows_of};

    ghost Value = { Map };

    ghost view = { λ blocks. rows_of blocks.slots.entries };
}

// Makes a slot for a key that has none.
fn make_slot(slots: &mut BTreeMap<Key, Option<Value>>, key: &Key) -> Result<(), AllocError>
    ensures same { rows_of slots.new.entries ≡ rows_of slots.old.entries }
    ensures room { OnOk result (IsSome (find (slice_cmp nat_cmp) key.now slots.new.entries)) }
    ensures kept { (other : List ℕ) → IsSome (find (slice_cmp nat_cmp) other slots.old.entries) → IsSome (find (slice_cmp nat_cmp) other slots.new.entries) }
{
    if !slots.contains_key(key) {
        slots.insert(key.clone()?, None)?;
    }
    Ok(())
}

// Makes a slot for each key of rows that has none, so that none is wanting when they are put in.
fn make_slots(
    slots: &mut BTreeMap<Key, Option<Value>>,
    rows: &[(Key, Value)],
) -> Result<(), AllocError>
    ensures same { rows_of slots.new.entries ≡ rows_of slots.old.entries }
    ensures room { OnOk result (HaveSlots slots.new.entries rows.now) }
{
    for row in rows {
        make_slot(slots, &row.0)?;
    }
    Ok(())
}

// Puts a row into its slot.
fn fill_slot(slots: &mut BTreeMap<Key, Option<Value>>, key: Key, value: Value)
    requires { IsSome (find (slice_cmp nat_cmp) key slots.old.entries) }
    ensures filled { rows_of slots.new.entries ≡ with_value key (Some value) (rows_of slots.old.entries) }
    ensures kept { (other : List ℕ) → IsSome (find (slice_cmp nat_cmp) other slots.old.entries) → IsSome (find (slice_cmp nat_cmp) other slots.new.entries) }
{
    match slots.insert(key, Some(value)) {
        Ok(_) => {}
        Err(_) => unreachable!(),
    }
}

// Puts rows into their slots, in their order.
fn fill_slots(slots: &mut BTreeMap<Key, Option<Value>>, rows: Vec<(Key, Value)>)
    requires { HaveSlots slots.old.entries rows.items }
    ensures { rows_of slots.new.entries ≡ handed rows.items (rows_of slots.old.entries) }
{
    for (key, value) in rows {
        fill_slot(slots, key, value);
    }
}

// Whether the first slot is in a range.
fn begins_in(slots: &BTreeMap<Key, Option<Value>>, range: &Range) -> bool
    ensures { result ≡ option_map_or (λ slot. within range.now slot.0) (slice_get slots.now.entries 0) false }
{
    match slots.first_key_value() {
        Some((key, _)) => range.contains(key.bytes()),
        None => false,
    }
}

// Gives up the first slots, as long as they are in a range.
fn pop_slots(slots: &mut BTreeMap<Key, Option<Value>>, range: &Range)
    ensures { filter (λ slot. not (within range.now slot.0)) slots.new.entries ≡ filter (λ slot. not (within range.now slot.0)) slots.old.entries }
{
    while begins_in(slots, range) {
        slots.pop_first();
    }
}

// Gives up the slots in a range. It looks at all slots only where a slot below the range stays.
fn take_slots(slots: &mut BTreeMap<Key, Option<Value>>, range: &Range)
    ensures { slots.new.entries ≡ filter (λ slot. not (within range.now slot.0)) slots.old.entries }
{
    pop_slots(slots, range);
    if slots.range(range.begin()..range.end()).next().is_some() {
        slots.retain(|key, _| !range.contains(key.bytes()));
    }
}

// Adds the row of a slot that has one.
fn push_row(rows: &mut Vec<(Key, Value)>, key: &Key, slot: &Option<Value>) -> Result<(), AllocError>
    ensures { OnOk result (rows.new.items ≡ rows.old.items ++ rows_of ((key.now, slot.now) ∷ [])) }
{
    if let Some(value) = slot {
        rows.push((key.clone()?, value.clone()?))?;
    }
    Ok(())
}

impl Blocks {
    /// No rows. It takes no memory.
    pub fn new(alloc: Global) -> Blocks
        ensures { result ≡ [] }
    {
        Blocks {
            alloc,
            slots: BTreeMap::new(alloc),
        }
    }

    /// Puts the rows of a block in. Where a key comes twice, or is there already, the later row wins.
    pub fn hand(&mut self, block: Block) -> Result<(), AllocError>
        ensures ok { OnOk result (self.new ≡ handed block.rows self.old) }
        ensures err { OnErr result (self.new ≡ self.old) }
    {
        make_slots(&mut self.slots, block.rows.as_slice())?;
        fill_slots(&mut self.slots, block.rows.into_vec());
        Ok(())
    }

    /// The rows in a range, in the order of their keys.
    pub fn rows_in(&self, range: &Range) -> Result<Vec<(Key, Value)>, AllocError>
        ensures rows { IfOk result (λ rows. rows.items ≡ pairs_in range.now self.now) }
        ensures rising { IfOk result (λ rows. IsTrue (rises rows.items)) }
        ensures ordered { IsTrue (rises self.now) }
    {
        let mut rows = Vec::new(self.alloc);
        for (key, slot) in self.slots.range(range.begin()..range.end()) {
            push_row(&mut rows, key, slot)?;
        }
        Ok(rows)
    }

    /// Gives up the rows in a range. It takes no memory. Where no row stands below the range, its time is that of
    /// the rows in it, and else linear in all rows.
    pub fn forget_in(&mut self, range: &Range)
        ensures { self.new ≡ forgotten range.now self.old }
    {
        take_slots(&mut self.slots, range);
    }
}
