// A source and a sink in memory, of which listed calls fail.
ghost use Rattle.std.specs.Prelude.{◌≡◌, ℕ, ◌^◌, ◌<◌, ◌≤◌, ◌↔◌, ◌++◌, [], false, Some, Err, length, take, min, is_ok, IsTrue, IfOk, OnErr, if◌then◌else◌, IsErrOf};
ghost use Rattle.std.specs.Io.{ReadsAtMost, WritesAtMost};
ghost use Rattle.std.specs.Io.KnownBytes.{ReadConsumes, WriteAppends};
ghost use Rattle.st_io.specs.Calls.{no_calls, next_fails, after_next};
ghost use Rattle.st_io.specs.Faults.{Rose};
ghost use Rattle.st_io.specs.Source.{read_len, after_read};

use crate::calls::ListedCalls;
use crate::{Failed, Sink, SinkRefusal, Source};
use std::alloc::Global;
use std::marker::Model;

/// A source over bytes in memory. It tells what is left.
///
/// Its calls of `read` are numbered from 1, and fail where their number is listed. Each looks
/// through the list, which should be short.
#[derive(Drop)]
pub struct ByteSource {
    bytes: Vec<u8>,
    position: usize,
    piece: usize,
    calls: ListedCalls,
}

impl Model for ByteSource {
    ghost use Rattle.std.specs.Prelude.{◌≤◌, ◌<◌, length, drop};
    ghost use Rattle.st_io.specs.Source.{Input};

    ghost Value = { Input };

    ghost view = { λ s. record {
      left = drop s.position s.bytes.items;
      piece = s.piece;
      calls = s.calls;
    } };

    ghost invariant = { λ s. (s.position ≤ length s.bytes.items) × (0 < s.piece) };
}

impl ByteSource {
    /// A source of these bytes, which gives at most `piece` of them in one read.
    /// `fails` lists the numbers of the reads that fail, from 1.
    pub fn new(bytes: Vec<u8>, piece: usize, fails: Vec<u64>) -> ByteSource
        requires { 0 < piece }
        ensures { result ≡ record { left = bytes.items; piece = piece; calls = no_calls fails.items } }
    {
        ByteSource {
            bytes,
            position: 0,
            piece,
            calls: ListedCalls::new(fails),
        }
    }
}

// Copies what fits of the first bytes into the front of a buffer, and answers how many.
fn copy_front(from: &[u8], into: &mut [u8], most: usize) -> usize
    ensures count { result ≡ min most (min (length into.old) (length from.now)) }
    ensures copied { take result into.new ≡ take result from.now }
{
    let count = most.min(into.len().min(from.len()));
    into[..count].copy_from_slice(&from[..count]);
    count
}

impl Source for ByteSource {
    ghost left = { λ s. Some s.left };

    ghost faults = { λ s. s.calls.faults };

    fn read(&mut self, into: &mut [u8]) -> Result<usize, Failed>
        ensures bound { ReadsAtMost result into.new }
        ensures bytes { ReadConsumes (Some self.old.left) (Some self.new.left) result into.new }
        ensures cause { OnErr result (Rose self.old.calls.faults self.new.calls.faults) }
        ensures never_falls { self.old.calls.faults ≤ self.new.calls.faults }
        ensures fits { self.new.calls.faults < 2 ^ 64 }

        // which calls fail, how many bytes the others give, and what comes after
        ensures fails { OnErr result (IsTrue (next_fails self.old.calls)) }
        ensures count { IfOk result (λ n. (next_fails self.old.calls ≡ false) × (n ≡ read_len self.old (length into.old))) }
        ensures after { self.new ≡ after_read self.old (length into.old) }
    {
        if self.calls.next_fails() {
            return Err(Failed);
        }
        let count = copy_front(&self.bytes[self.position..], into, self.piece);
        self.position += count;
        Ok(count)
    }

    fn faults(&self) -> u64 {
        self.calls.faults()
    }
}

/// A sink in memory, which takes whole pieces. It tells what it holds.
///
/// Its calls of `write` are numbered from 1, and fail where their number is listed. Each looks
/// through the list, which should be short.
#[derive(Drop)]
pub struct ByteSink {
    held: Vec<u8>,
    calls: ListedCalls,
}

impl Model for ByteSink {
    ghost use Rattle.st_io.specs.Sink.{Output};

    ghost Value = { Output };

    ghost view = { λ s. record { held = s.held.items; calls = s.calls } };
}

impl ByteSink {
    /// A sink that holds nothing. `fails` lists the numbers of the writes that fail, from 1.
    pub fn new(alloc: Global, fails: Vec<u64>) -> ByteSink
        ensures { result ≡ record { held = []; calls = no_calls fails.items } }
    {
        ByteSink {
            held: Vec::new(alloc),
            calls: ListedCalls::new(fails),
        }
    }

    /// The bytes that were written, in order.
    pub fn bytes(&self) -> &[u8]
        ensures { result.now ≡ self.now.held }
    {
        &self.held
    }
}

impl Sink for ByteSink {
    ghost held = { λ s. Some s.held };

    ghost faults = { λ s. s.calls.faults };

    fn write(&mut self, bytes: &[u8]) -> Result<usize, SinkRefusal>
        ensures bound { WritesAtMost result bytes.now }
        ensures progress { IfOk result (λ n. 0 < length bytes.now → 0 < n) }
        ensures bytes { WriteAppends (Some self.old.held) (Some self.new.held) result bytes.now }
        ensures cause { IsErrOf result SinkRefusal.Failed → Rose self.old.calls.faults self.new.calls.faults }
        ensures never_falls { self.old.calls.faults ≤ self.new.calls.faults }
        ensures fits { self.new.calls.faults < 2 ^ 64 }

        // which calls fail, how many bytes the others take, and what comes after
        ensures fails { (result ≡ Err SinkRefusal.Failed) ↔ IsTrue (next_fails self.old.calls) }
        ensures count { IfOk result (λ n. n ≡ length bytes.now) }
        ensures held { self.new.held ≡ (if is_ok result then self.old.held ++ bytes.now else self.old.held) }
        ensures calls { self.new.calls ≡ after_next self.old.calls }
    {
        if self.calls.next_fails() {
            return Err(SinkRefusal::Failed);
        }
        self.held.extend_from_slice(bytes)?;
        Ok(bytes.len())
    }

    fn faults(&self) -> u64 {
        self.calls.faults()
    }
}
