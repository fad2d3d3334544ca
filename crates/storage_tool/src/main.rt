//! Replays a script on one storage server over an empty disk in memory, and writes the transcript.
#![tactic(auto)]

#[cfg(test)]
mod lives_tests;
#[cfg(test)]
mod tests;

use st_disk::Memory;
use st_io::{StdSink, StdSource};
use st_run::{tool, without_words};
use std::process::ExitCode;
use std::{env, io};

fn words(rt: &HostRuntime) -> io::Result<Vec<String>> {
    let mut words = Vec::new(rt.alloc());
    for word in env::args(rt)?.skip(1) {
        words.push(word)?;
    }
    Ok(words)
}

fn main(rt: HostRuntime) -> io::Result<ExitCode> {
    let mut out = StdSink::new(rt.stdout());
    let mut script = StdSource::new(rt.stdin());
    let disk = Memory::new(rt.alloc());
    let status = match words(&rt) {
        Ok(words) => tool(rt.alloc(), &words, &mut script, &mut out, disk).status,
        Err(error) if error.kind() == io::ErrorKind::OutOfMemory => {
            without_words(rt.alloc(), &mut out, disk).status
        }
        // A word that isn't UTF-8 is in no command, and no more is no words at all.
        Err(_) => tool(rt.alloc(), &[], &mut script, &mut out, disk).status,
    };
    Ok(ExitCode::from(status))
}
