// A disk in memory, which keeps each call that changed it.
ghost use Rattle.std.specs.Prelude.{◌≡◌, ◌<◌, ◌≤◌, ◌+◌, ◌-◌, ◌++◌, ◌||◌, [], ◌∷◌, length, take, drop, slice_range, nat_lt, vec_len, vec_capacity, IfOk, OnOk, OnErr};
ghost use Rattle.st_disk.specs.FileState.{overwritten};
ghost use Rattle.st_disk.specs.declared.memory.Change.TheVariants.{Write};

use crate::tear::left_files;
use crate::{CrashDisk, Disk, DiskRefusal, Failed};
use std::alloc::{AllocError, Global};
use std::marker::Model;

// Bytes that a call wrote, or that stood there before.
#[derive(Drop)]
pub(crate) struct Kept {
    bytes: Vec<u8>,
}

impl Model for Kept {
    ghost use Rattle.std.specs.Prelude.{List, ℕ};

    ghost Value = { List ℕ };

    ghost view = { λ kept. kept.bytes.items };
}

impl Kept {
    pub(crate) fn as_slice(&self) -> &[u8]
        ensures { result.now ≡ self.now }
    {
        &self.bytes
    }
}

#[derive(Drop)]
pub(crate) enum Change {
    Write {
        at: usize,
        bytes: Kept,
        before: Kept,
    },
    Sync,
}

// A call that changed the first or the second file.
#[derive(Drop)]
pub(crate) struct Entry {
    pub(crate) second: bool,
    pub(crate) change: Change,
}

/// A disk in memory. It keeps each call that changed it, with the bytes, so that its history can be told.
#[derive(Drop)]
pub struct Memory {
    alloc: Global,
    zero: Vec<u8>,
    one: Vec<u8>,
    entries: Vec<Entry>,
    zero_unsynced: bool,
    one_unsynced: bool,
    made: u64,
}

impl Model for Memory {
    ghost use Rattle.st_disk.specs.Recorded.{Recorded};

    ghost Value = { Recorded };

    ghost use Rattle.st_disk.specs.MemoryView.{view_of, IsKept};

    ghost view = { view_of };

    ghost invariant = { IsKept };
}

impl Memory {
    ghost use Rattle.std.specs.Prelude.{◌≡◌, [], ◌<◌};
    ghost use Rattle.st_disk.specs.Recorded.{history_of};
    ghost use Rattle.st_disk.specs.History.{of_file, seen};

    /// A disk with two empty files.
    pub fn new(alloc: Global) -> Self
        ensures { result ≡ record { start = ([], []); calls = []; made = 0 } }
    {
        Memory::with(alloc, Vec::new(alloc), Vec::new(alloc))
    }

    /// A disk with these files, all of them synced.
    pub fn with(alloc: Global, file0: Vec<u8>, file1: Vec<u8>) -> Self
        ensures { result ≡ record { start = (file0.items, file1.items); calls = []; made = 0 } }
    {
        Memory {
            alloc,
            zero: file0,
            one: file1,
            entries: Vec::new(alloc),
            zero_unsynced: false,
            one_unsynced: false,
            made: 0,
        }
    }

    /// What a file reads as.
    pub fn bytes(&self, file: u8) -> &[u8]
        requires { file < 2 }
        ensures { result.now ≡ of_file file (seen (history_of self.now)) }
    {
        if file == 0 { &self.zero } else { &self.one }
    }
}

impl CrashDisk for Memory {
    ghost use Rattle.st_disk.specs.Told.{told_left};

    ghost leaves_an_image = { λ m h choice is. told_left m h choice is };

    fn restart(&mut self, choice: u64) -> Result<(), DiskRefusal> {
        let alloc = self.alloc;
        let (zero, one) = left_files(alloc, choice, &self.entries, &self.zero, &self.one)?;
        *self = Memory::with(alloc, zero, one);
        Ok(())
    }
}

// Puts these bytes over what stands there, and past the end.
fn overwrite(stored: &mut Vec<u8>, at: usize, bytes: &[u8]) -> Result<(), AllocError>
    requires { at ≤ vec_len stored.old }
    ensures ok { OnOk result (stored.new.items ≡ overwritten at bytes.now stored.old.items) }
    ensures err { OnErr result (stored.new.items ≡ stored.old.items) }
{
    let within = bytes.len().min(stored.len() - at);
    stored.extend_from_slice(&bytes[within..])?;
    stored[at..at + within].copy_from_slice(&bytes[..within]);
    Ok(())
}

// Fills `into` with the bytes from a place.
fn copy_range(stored: &[u8], at: usize, into: &mut [u8])
    requires { at + length into.old ≤ length stored.now }
    ensures { into.new ≡ slice_range stored.now at (at + length into.old) }
{
    let behind = &stored[at..];
    into.copy_from_slice(&behind[..into.len()]);
}

// Writes to a file, whose earlier bytes in the range join the entries. There is then room for the syncs of both files.
fn write(
    alloc: Global,
    entries: &mut Vec<Entry>,
    stored: &mut Vec<u8>,
    second: bool,
    at: usize,
    bytes: &[u8],
) -> Result<(), AllocError>
    requires { at ≤ vec_len stored.old }
    ensures ok { OnOk result (stored.new.items ≡ overwritten at bytes.now stored.old.items) }
    ensures entry { OnOk result (entries.new.items ≡ entries.old.items ++ record {
      second = second;
      change = Write at bytes.now (take (length bytes.now) (drop at stored.old.items));
    } ∷ []) }
    ensures room { OnOk result (vec_len entries.new + 2 ≤ vec_capacity entries.new) }
    ensures err { OnErr result ((stored.new.items ≡ stored.old.items) × (entries.new.items ≡ entries.old.items)) }
    ensures capacity { vec_capacity entries.old ≤ vec_capacity entries.new }
{
    let within = bytes.len().min(stored.len() - at);
    let before = Kept {
        bytes: stored[at..at + within].to_vec(alloc)?,
    };
    let written = Kept {
        bytes: bytes.to_vec(alloc)?,
    };
    entries.reserve(3)?;
    overwrite(stored, at, bytes)?;
    entries.push_reserved(Entry {
        second,
        change: Change::Write {
            at,
            bytes: written,
            before,
        },
    });
    Ok(())
}

impl Disk for Memory {
    ghost use Rattle.std.specs.Prelude.{Some};
    ghost use Rattle.st_disk.specs.Recorded.{history_of};
    ghost use Rattle.st_disk.specs.Told.{told_image, told_within};

    ghost history = { λ m. Some (history_of m) };

    ghost fault_count = { λ m. 0 };

    ghost passes_within = { λ m h is. told_within m h is };

    ghost reads_as_image = { λ m h is. told_image m h is };

    fn len(&mut self, file: u8) -> Result<u64, Failed> {
        Ok(self.bytes(file).len() as u64)
    }

    fn read(&mut self, file: u8, at: u64, into: &mut [u8]) -> Result<(), Failed> {
        copy_range(self.bytes(file), at as usize, into);
        Ok(())
    }

    fn write_at(&mut self, file: u8, at: u64, bytes: &[u8]) -> Result<(), DiskRefusal> {
        let alloc = self.alloc;
        let at = at as usize;
        if file == 0 {
            write(alloc, &mut self.entries, &mut self.zero, false, at, bytes)?;
            self.zero_unsynced = self.zero_unsynced | !bytes.is_empty();
        } else {
            write(alloc, &mut self.entries, &mut self.one, true, at, bytes)?;
            self.one_unsynced = self.one_unsynced | !bytes.is_empty();
        }
        self.made = self.made.saturating_add(1);
        Ok(())
    }

    fn sync(&mut self, file: u8) -> Result<(), Failed> {
        if file == 0 {
            if self.zero_unsynced {
                self.entries.push_reserved(Entry {
                    second: false,
                    change: Change::Sync,
                });
                self.zero_unsynced = false;
            }
        } else if self.one_unsynced {
            self.entries.push_reserved(Entry {
                second: true,
                change: Change::Sync,
            });
            self.one_unsynced = false;
        }
        self.made = self.made.saturating_add(1);
        Ok(())
    }

    fn faults(&self) -> u64 {
        0
    }
}
