// What a crash leaves of the files of a disk in memory.
ghost use Rattle.std.specs.Prelude.{◌≡◌, ◌≤◌, ◌+◌, ℕ, Bool, List, false, true, length, map, replicate, IfOk};
ghost use Rattle.rand_pcg.specs.Lcg.{Lcg};
ghost use Rattle.st_disk.specs.FileState.{FileState, overwritten};
ghost use Rattle.st_disk.specs.Left.{left, torn_byte, torn_from};
ghost use Rattle.st_disk.specs.Entries.{LeadTo, file_of, before_change};
ghost use Rattle.st_disk.specs.declared.memory.Change.TheVariants.{Write};

use crate::memory::{Change, Entry};
use rand_core::SeedableRng;
use rand_core::utils::NextWord;
use rand_pcg::Pcg32;
use std::alloc::{AllocError, Global};

// The files that the choice leaves, of which these are the entries and what a read gives.
pub(crate) fn left_files(
    alloc: Global,
    choice: u64,
    entries: &[Entry],
    zero: &[u8],
    one: &[u8],
) -> Result<(Vec<u8>, Vec<u8>), AllocError>
    requires zero { (unsynced : Bool) × LeadTo false entries.now zero.now unsynced }
    requires one { (unsynced : Bool) × LeadTo true entries.now one.now unsynced }
    ensures { IfOk result (λ files. (files.0.items, files.1.items)
        ≡ left choice (file_of false entries.now zero.now, file_of true entries.now one.now)) }
{
    let first = file_record(alloc, entries, zero, false)?;
    let second = file_record(alloc, entries, one, true)?;
    if choice == 0 {
        return Ok((first.synced, second.synced));
    }
    if choice == 1 {
        return Ok((zero.to_vec(alloc)?, one.to_vec(alloc)?));
    }
    let mut words = Pcg32::seed_from_u64(choice);
    let left_zero = torn(alloc, &mut words, &first.synced, zero, &first.written)?;
    let left_one = torn(alloc, &mut words, &second.synced, one, &second.written)?;
    Ok((left_zero, left_one))
}

// What the last sync of a file left, and which of its bytes were written since.
#[derive(Drop)]
struct FileRecord {
    synced: Vec<u8>,
    written: Vec<bool>,
}

fn file_record(
    alloc: Global,
    entries: &[Entry],
    stored: &[u8],
    second: bool,
) -> Result<FileRecord, AllocError>
    requires { (unsynced : Bool) × LeadTo second entries.now stored.now unsynced }
    ensures synced { IfOk result (λ r. r.synced.items ≡ (file_of second entries.now stored.now).synced) }
    ensures written { IfOk result (λ r. r.written.items ≡ (file_of second entries.now stored.now).written) }
{
    let mut synced = stored.to_vec(alloc)?;
    let mut written = vec![in alloc; false; stored.len()]?;
    let mut rest = entries.len();
    while rest > 0 {
        rest -= 1;
        let entry = &entries[rest];
        if entry.second == second {
            match &entry.change {
                Change::Sync => return Ok(FileRecord { synced, written }),
                Change::Write { at, bytes, before } => {
                    let count = bytes.as_slice().len();
                    mark(&mut written, *at, count);
                    undo(&mut synced, *at, count, before.as_slice());
                }
            }
        }
    }
    Ok(FileRecord { synced, written })
}

// Brings back what stood in a range of so many bytes before a write.
fn undo(bytes: &mut Vec<u8>, at: usize, count: usize, before: &[u8])
    requires inside { at + length before.now ≤ length bytes.old.items }
    requires fewer { length before.now ≤ count }
    ensures { (written : List ℕ) → length written ≡ count → bytes.new.items ≡ before_change (Write at written before.now) bytes.old.items }
{
    let end = at + before.len();
    if before.len() < count {
        bytes.truncate(end);
    }
    bytes[at..end].copy_from_slice(before);
}

fn mark(written: &mut Vec<bool>, at: usize, count: usize)
    requires { at + count ≤ length written.old.items }
    ensures { written.new.items ≡ overwritten at (replicate count true) written.old.items }
{
    written[at..at + count].fill(true);
}

// The bytes of a file that a crash tears.
fn torn(
    alloc: Global,
    words: &mut Pcg32,
    synced: &[u8],
    seen: &[u8],
    written: &[bool],
) -> Result<Vec<u8>, AllocError>
    requires { length written.now ≡ length seen.now }
    ensures { IfOk result (λ left. (left.items, words.new)
        ≡ torn_from (record { synced = synced.now; seen = seen.now; written = written.now }) 0 seen.now words.old) }
{
    let mut left = Vec::with_capacity(alloc, seen.len())?;
    for (place, byte) in seen.iter().enumerate() {
        let next = if written[place] {
            let old = synced.get(place).copied().unwrap_or(0);
            torn_byte(words.next_word(), old, *byte)
        } else {
            *byte
        };
        left.push(next)?;
    }
    Ok(left)
}

// A byte that was written since the last sync, by one word: the old one, the new one or any.
fn torn_byte(word: u32, old: u8, new: u8) -> u8
    ensures { result ≡ torn_byte word old new }
{
    match word % 4 {
        0 => old,
        1 => new,
        _ => (word / 256 % 256) as u8,
    }
}
