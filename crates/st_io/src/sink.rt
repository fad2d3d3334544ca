// A sink of bytes, and writing all of some bytes to it.
ghost use Rattle.std.specs.Prelude.{◌≡◌, ℕ, ◌+◌, ◌-◌, ◌^◌, ◌<◌, ◌≤◌, List, Option, length, OnOk, IfOk, IfErr, IsErrOf};
ghost use Rattle.std.specs.Io.{WritesAtMost};
ghost use Rattle.std.specs.Io.KnownBytes.{Appends, WriteAppends};
ghost use Rattle.st_io.specs.Faults.{Rose};
ghost use Rattle.st_io.specs.Sink.{WasCutShort};

use std::alloc::AllocError;

/// Why a sink took no byte.
#[derive(Clone, Copy, Debug, PartialEq, Eq)]
pub enum SinkRefusal {
    /// The outside failed, and the count of faults says so.
    Failed,
    NoMemory,
}

impl From<AllocError> for SinkRefusal {
    ghost use Rattle.std.specs.Prelude.{◌≡◌};
    ghost use Rattle.st_io.specs.declared.sink.SinkRefusal.TheVariants.{NoMemory};

    ghost from_gives = { λ _ e. e ≡ NoMemory };

    fn from(_error: AllocError) -> SinkRefusal {
        SinkRefusal::NoMemory
    }
}

/// A place that bytes are written to, which may fail.
pub trait Sink {
    // The bytes that the sink holds, where it tells them.
    ghost held: { Self → Option (List ℕ) };

    // How often the sink has failed.
    ghost faults: { Self → ℕ };

    /// Takes bytes from the front of a piece, and answers how many.
    fn write(&mut self, bytes: &[u8]) -> Result<usize, SinkRefusal>
        ensures bound { WritesAtMost result bytes.now }
        ensures progress { IfOk result (λ n. 0 < length bytes.now → 0 < n) }
        ensures bytes { WriteAppends (held self.old) (held self.new) result bytes.now }

        ensures cause { IsErrOf result SinkRefusal.Failed → Rose (faults self.old) (faults self.new) }
        ensures never_falls { faults self.old ≤ faults self.new }
        ensures fits { faults self.new < 2 ^ 64 };

    /// How often the sink has failed. The count stands still at `u64::MAX`.
    fn faults(&self) -> u64
        ensures { result ≡ faults self.now };
}

/// Why not all bytes went out. Those up to `written` did.
#[derive(Clone, Copy, Debug, PartialEq, Eq)]
pub enum WriteAll {
    /// A write failed. It carries the sink's count of faults after it.
    WriteFault { written: u64, faults: u64 },
    NoMemory { written: u64 },
}

/// Writes all of the bytes.
pub fn write_all<K: Sink>(sink: &mut K, bytes: &[u8]) -> Result<(), WriteAll>
    ensures ok { OnOk result (Appends (K.held sink.old) (K.held sink.new) bytes.now) }
    ensures cut_short { IfErr result
        (WasCutShort (K.held sink.old) (K.held sink.new) (K.faults sink.old) (K.faults sink.new) bytes.now) }
    ensures never_falls { K.faults sink.old ≤ K.faults sink.new }
{
    let mut done = 0;
    while done < bytes.len() {
        match sink.write(&bytes[done..]) {
            Ok(n) => done += n,
            Err(refusal) => {
                let written = done as u64;
                return Err(match refusal {
                    SinkRefusal::Failed => WriteAll::WriteFault {
                        written,
                        faults: sink.faults(),
                    },
                    SinkRefusal::NoMemory => WriteAll::NoMemory { written },
                });
            }
        }
    }
    Ok(())
}
