// Standard readers and writers as a source and a sink. What they read and hold isn't told.
ghost use Rattle.std.specs.Prelude.{◌≡◌, None, is_ok, if◌then◌else◌};
ghost use Rattle.st_io.specs.Faults.{one_more};

use crate::{Failed, Sink, SinkRefusal, Source};
use std::io::{Read, Write};
use std::marker::Model;

/// A reader as a source. Each error of it counts as a fault.
#[derive(Drop)]
pub struct StdSource<R: Read> {
    reader: R,
    faults: u64,
}

// Contracts see it as its count of faults.
impl<R: Read> Model for StdSource<R> {
    ghost use Rattle.std.specs.Prelude.{ℕ, ◌^◌, ◌<◌};

    ghost Value = { ℕ };

    ghost view = { λ s. s.faults };

    ghost invariant = { λ s. s.faults < 2 ^ 64 };
}

impl<R: Read> StdSource<R> {
    pub fn new(reader: R) -> StdSource<R>
        ensures { result ≡ 0 }
    {
        StdSource { reader, faults: 0 }
    }
}

impl<R: Read> Source for StdSource<R> {
    ghost left = { λ _. None };

    ghost faults = { λ s. s };

    fn read(&mut self, into: &mut [u8]) -> Result<usize, Failed> {
        match self.reader.read(into) {
            Ok(n) => Ok(n),
            Err(_) => {
                self.faults = self.faults.saturating_add(1);
                Err(Failed)
            }
        }
    }

    fn faults(&self) -> u64 {
        self.faults
    }
}

/// A writer as a sink. Each error of it counts as a fault, and so does a write that takes no
/// byte of a piece that has some.
#[derive(Drop)]
pub struct StdSink<W: Write> {
    writer: W,
    faults: u64,
}

// Contracts see it as its count of faults.
impl<W: Write> Model for StdSink<W> {
    ghost use Rattle.std.specs.Prelude.{ℕ, ◌^◌, ◌<◌};

    ghost Value = { ℕ };

    ghost view = { λ s. s.faults };

    ghost invariant = { λ s. s.faults < 2 ^ 64 };
}

impl<W: Write> StdSink<W> {
    pub fn new(writer: W) -> StdSink<W>
        ensures { result ≡ 0 }
    {
        StdSink { writer, faults: 0 }
    }

    /// Passes on what the writer has kept back, as one that buffers does. It may fail as a write may.
    pub fn flush(&mut self) -> Result<(), Failed>
        ensures { self.new ≡ (if is_ok result then self.old else one_more self.old) }
    {
        if self.writer.flush().is_err() {
            self.faults = self.faults.saturating_add(1);
            return Err(Failed);
        }
        Ok(())
    }
}

impl<W: Write> Sink for StdSink<W> {
    ghost held = { λ _. None };

    ghost faults = { λ s. s };

    fn write(&mut self, bytes: &[u8]) -> Result<usize, SinkRefusal> {
        match self.writer.write(bytes) {
            Ok(n) if n > 0 || bytes.is_empty() => Ok(n),
            _ => {
                self.faults = self.faults.saturating_add(1);
                Err(SinkRefusal::Failed)
            }
        }
    }

    fn faults(&self) -> u64 {
        self.faults
    }
}
