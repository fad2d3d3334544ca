//! Numbers of 4 and 8 bytes, the lowest byte first, read from a place of a slice and put at a list's end.
#![tactic(auto)]

ghost use Rattle.std.specs.Prelude.{◌≡◌, ◌<◌, ◌≤◌, ◌^◌, ◌+◌, ◌++◌, ℕ, List, length, take, drop, All, Some, OnOk, OnErr};
ghost use Rattle.st_num.specs.Number.{number_at, little_bytes};

use byteorder::{ByteOrder, LittleEndian};
use std::alloc::AllocError;

/// The number of the 4 bytes from `at`. None exactly where fewer stand there, as past the end.
pub fn take_u32(bytes: &[u8], at: usize) -> Option<u32>
    ensures { result ≡ number_at 4 bytes.now at }
{
    let rest = bytes.get(at..)?;
    if rest.len() < 4 {
        return None;
    }
    Some(LittleEndian::read_u32(rest))
}

/// The number of the 8 bytes from `at`. None exactly where fewer stand there, as past the end.
pub fn take_u64(bytes: &[u8], at: usize) -> Option<u64>
    ensures { result ≡ number_at 8 bytes.now at }
{
    let rest = bytes.get(at..)?;
    if rest.len() < 8 {
        return None;
    }
    Some(LittleEndian::read_u64(rest))
}

/// Puts the 4 bytes of a number behind what is there.
pub fn put_u32(out: &mut Vec<u8>, n: u32) -> Result<(), AllocError>
    ensures ok { OnOk result (out.new.items ≡ out.old.items ++ little_bytes 4 n) }
    ensures err { OnErr result (out.new.items ≡ out.old.items) }
{
    let mut bytes = [0; 4];
    LittleEndian::write_u32(&mut bytes, n);
    out.extend_from_slice(&bytes)
}

/// Puts the 8 bytes of a number behind what is there.
pub fn put_u64(out: &mut Vec<u8>, n: u64) -> Result<(), AllocError>
    ensures ok { OnOk result (out.new.items ≡ out.old.items ++ little_bytes 8 n) }
    ensures err { OnErr result (out.new.items ≡ out.old.items) }
{
    let mut bytes = [0; 8];
    LittleEndian::write_u64(&mut bytes, n);
    out.extend_from_slice(&bytes)
}

/// A law: the number that was put is the one that is taken there, whatever stands before and behind it.
pub fn put_is_taken()
    ensures { (count number : ℕ) (before behind : List ℕ) → number < 256 ^ count
        → number_at count (before ++ little_bytes count number ++ behind) (length before) ≡ Some number }
{}

/// A law: the bytes of a number that was taken are those that are put for it.
pub fn taken_is_put()
    ensures { (count number at : ℕ) (bytes : List ℕ) → All (λ byte. byte < 256) bytes
        → number_at count bytes at ≡ Some number → take count (drop at bytes) ≡ little_bytes count number }
{}

#[cfg(test)]
mod tests;
