//! Bytes in and out: a source and a sink that may fail, with a count of their faults, and the
//! two calls that read a source to its end and write all of some bytes.
#![tactic(auto)]

mod calls;
mod memory;
mod sink;
mod source;
mod streams;
#[cfg(test)]
mod tests;

pub use memory::{ByteSink, ByteSource};
pub use sink::{Sink, SinkRefusal, WriteAll, write_all};
pub use source::{Failed, ReadAll, Source, read_all};
pub use streams::{StdSink, StdSource};
