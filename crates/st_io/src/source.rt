// A source of bytes, and reading it to its end.
ghost use Rattle.std.specs.Prelude.{◌≡◌, ℕ, ◌+◌, ◌-◌, ◌^◌, ◌<◌, ◌≤◌, List, Option, OnOk, OnErr, IfOk, IfErr, vec_len};
ghost use Rattle.std.specs.Io.{ReadsAtMost};
ghost use Rattle.std.specs.Io.KnownBytes.{IsAtEnd, ReadConsumes};
ghost use Rattle.st_io.specs.Faults.{Rose};
ghost use Rattle.st_io.specs.Source.{TakesAll, WasGivenUp};

use std::alloc::{AllocError, Global};

/// The outside failed. Its count of faults says how often it has.
#[derive(Clone, Copy, Debug, PartialEq, Eq)]
pub struct Failed;

/// Bytes that come in pieces, from a source that may fail.
pub trait Source {
    // The bytes that are left to be read, where the source tells them.
    ghost left: { Self → Option (List ℕ) };

    // How often the source has failed.
    ghost faults: { Self → ℕ };

    /// Reads into the front of a buffer, and answers how many bytes it read. For a buffer that
    /// isn't empty, 0 is the end of input. What the buffer holds behind them isn't said.
    fn read(&mut self, into: &mut [u8]) -> Result<usize, Failed>
        ensures bound { ReadsAtMost result into.new }
        ensures bytes { ReadConsumes (left self.old) (left self.new) result into.new }

        ensures cause { OnErr result (Rose (faults self.old) (faults self.new)) }
        ensures never_falls { faults self.old ≤ faults self.new }
        ensures fits { faults self.new < 2 ^ 64 };

    /// How often the source has failed. The count stands still at `u64::MAX`.
    fn faults(&self) -> u64
        ensures { result ≡ faults self.now };
}

/// Why a source wasn't read to its end.
#[derive(Clone, Copy, Debug, PartialEq, Eq)]
pub enum ReadAll {
    /// A read failed. It carries the source's count of faults after it.
    ReadFault { faults: u64 },
    /// More bytes came than this limit.
    TooLong { limit: u64 },
    NoMemory,
}

impl From<AllocError> for ReadAll {
    ghost use Rattle.std.specs.Prelude.{◌≡◌};
    ghost use Rattle.st_io.specs.declared.source.ReadAll.TheVariants.{NoMemory};

    ghost from_gives = { λ _ e. e ≡ NoMemory };

    fn from(_error: AllocError) -> ReadAll {
        ReadAll::NoMemory
    }
}

// How many bytes one read asks for.
const PIECE: usize = 64 * 1024;

fn zeros(alloc: Global, len: usize) -> Result<Vec<u8>, AllocError>
    ensures { IfOk result (λ zeros. vec_len zeros ≡ len) }
{
    vec![in alloc; 0; len]
}

/// Reads all bytes up to the end of input, of which there may be at most `limit`.
/// After an error the source has lost the bytes that were read.
pub fn read_all<S: Source>(alloc: Global, src: &mut S, limit: u64) -> Result<Vec<u8>, ReadAll>
    ensures all { IfOk result (λ bytes. TakesAll (S.left src.old) (S.left src.new) bytes.items) }
    ensures end { OnOk result (IsAtEnd (S.left src.new)) }
    ensures within { IfOk result (λ bytes. vec_len bytes ≤ limit) }

    ensures given_up { IfErr result
        (WasGivenUp (S.left src.old) (S.left src.new) (S.faults src.old) (S.faults src.new) limit) }
    ensures never_falls { S.faults src.old ≤ S.faults src.new }
{
    let mut piece = zeros(alloc, PIECE)?;
    let mut bytes = Vec::new(alloc);
    loop {
        let spare = limit - bytes.len() as u64;
        let n = match src.read(&mut piece) {
            Ok(n) => n,
            Err(Failed) => {
                let faults = src.faults();
                return Err(ReadAll::ReadFault { faults });
            }
        };
        if n == 0 {
            return Ok(bytes);
        }
        if n as u64 > spare {
            return Err(ReadAll::TooLong { limit });
        }
        bytes.extend_from_slice(&piece[..n])?;
    }
}
