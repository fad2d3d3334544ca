//! The plain map, and the plain fold of a log.
ghost use Rattle.std.specs.Prelude.{◌≡◌, [], not, filter, fold, Some, None, OnOk, OnErr, IfOk};
ghost use Rattle.std.specs.Option.{option_copied};
ghost use Rattle.st_atomic.specs.Atomic.{changed};
ghost use Rattle.st_fold.specs.Map.{apply, folded, value_at, with_value};
ghost use Rattle.st_fold.specs.Reading.{pairs_in};
ghost use Rattle.st_key.specs.Spans.{within};

use crate::atomic::value_after;
use st_atomic::AtomicOp;
use st_key::{Key, Range, Value};
use st_mutation::{Batch, Mutation};
use std::alloc::{AllocError, Global};
use std::collections::BTreeMap;
use std::marker::Model;

/// A map from keys to values that is changed by mutations, one after another.
#[derive(Drop)]
pub struct PlainMap {
    alloc: Global,
    pairs: BTreeMap<Vec<u8>, Value>,
}

impl Model for PlainMap {
    ghost use Rattle.std.specs.Prelude.{map};
    ghost use Rattle.st_fold.specs.Map.{Map};

    ghost Value = { Map };

    ghost view = { λ a. map (λ pair. (pair.0.items, pair.1)) a.pairs.entries };
}

impl PlainMap {
    /// The empty map. It takes no memory.
    pub fn new(alloc: Global) -> PlainMap
        ensures { result ≡ [] }
    {
        PlainMap {
            alloc,
            pairs: BTreeMap::new(alloc),
        }
    }

    /// Changes the map by one mutation. A clear takes time linear in the map.
    pub fn apply(&mut self, mutation: &Mutation) -> Result<(), AllocError>
        ensures ok { OnOk result (self.new ≡ apply self.old mutation.now) }
        ensures err { OnErr result (self.new ≡ self.old) }
    {
        match mutation {
            Mutation::Set(key, value) => self.set(key, value.clone()?),
            Mutation::Clear(range) => {
                self.clear(range);
                Ok(())
            }
            Mutation::Atomic(op, key, operand) => self.change(*op, key, operand),
        }
    }

    fn set(&mut self, key: &Key, value: Value) -> Result<(), AllocError>
        ensures ok { OnOk result (self.new ≡ with_value key.now (Some value) self.old) }
        ensures err { OnErr result (self.new ≡ self.old) }
    {
        let key = Vec::from_slice(self.alloc, key.bytes())?;
        self.pairs.insert(key, value)?;
        Ok(())
    }

    fn clear(&mut self, range: &Range)
        ensures { self.new ≡ filter (λ pair. not (within range.now pair.0)) self.old }
    {
        self.pairs.retain(|key, _| !range.contains(key));
    }

    fn forget(&mut self, key: &Key)
        ensures { self.new ≡ with_value key.now None self.old }
    {
        // the contract of `len` says that the keys rise
        let _ = self.pairs.len();
        self.pairs.remove(key.bytes());
    }

    // Gives a key the value that the operation makes of the one that it has.
    fn change(&mut self, op: AtomicOp, key: &Key, operand: &Value) -> Result<(), AllocError>
        ensures ok { OnOk result (self.new ≡ with_value key.now (changed op (value_at self.old key.now) operand.now) self.old) }
        ensures err { OnErr result (self.new ≡ self.old) }
    {
        match value_after(self.alloc, op, self.value(key.bytes()), operand)? {
            Some(value) => self.set(key, value),
            None => {
                self.forget(key);
                Ok(())
            }
        }
    }

    fn apply_all(&mut self, mutations: &[Mutation]) -> Result<(), AllocError>
        ensures { OnOk result (self.new ≡ fold apply self.old mutations.now) }
    {
        for mutation in mutations {
            self.apply(mutation)?;
        }
        Ok(())
    }

    fn value(&self, key: &[u8]) -> Option<&Value>
        ensures { option_copied result ≡ value_at self.now key.now }
    {
        self.pairs.get(key)
    }

    /// The bytes of a key's value.
    pub fn get(&self, key: &[u8]) -> Option<&[u8]>
        ensures { option_copied result ≡ value_at self.now key.now }
    {
        match self.value(key) {
            Some(value) => Some(value.bytes()),
            None => None,
        }
    }

    /// All pairs, in the order of their keys.
    pub fn pairs(&self) -> Result<Vec<(Key, Value)>, AllocError>
        ensures { IfOk result (λ pairs. pairs.items ≡ self.now) }
    {
        let mut all = Vec::new(self.alloc);
        for (key, value) in self.pairs.iter() {
            all.push((stored_key(self.alloc, key)?, value.clone()?))?;
        }
        Ok(all)
    }

    // The pairs in a range, in the order of their keys. It takes time linear in the map.
    pub(crate) fn pairs_in(&self, range: &Range) -> Result<Vec<(Key, Value)>, AllocError>
        ensures { IfOk result (λ pairs. pairs.items ≡ pairs_in range.now self.now) }
    {
        let mut inside = Vec::new(self.alloc);
        for (key, value) in self.pairs.iter() {
            if range.contains(key) {
                inside.push((stored_key(self.alloc, key)?, value.clone()?))?;
            }
        }
        Ok(inside)
    }
}

// A key of a map, which was the key of a mutation, so it isn't too long.
fn stored_key(alloc: Global, bytes: &[u8]) -> Result<Key, AllocError>
    ensures { IfOk result (λ key. key ≡ bytes.now) }
{
    match Key::end(alloc, bytes) {
        Ok(key) => Ok(key),
        Err(_) => Err(AllocError),
    }
}

/// The map that the mutations of a log make up to a version.
pub fn fold_to(alloc: Global, log: &[Batch], version: u64) -> Result<PlainMap, AllocError>
    ensures { IfOk result (λ pairs. pairs ≡ folded log.now version) }
{
    let mut pairs = PlainMap::new(alloc);
    for batch in log {
        if batch.version <= version {
            pairs.apply_all(batch.mutations.as_slice())?;
        }
    }
    Ok(pairs)
}
