//! Rows that a reader of the format can check by hand, through the top call.
ghost use Rattle.std.specs.Prelude.{◌<◌};

use st_disk::{CrashDisk, Memory};
use st_io::{ByteSink, ByteSource, Sink, Source};
use st_run::{Ended, tool, without_words};
use std::alloc::{AllocError, Global};
use std::test::Fail;

const FIRST_GET: &str =
    "storage 1\nown - ff\nlog\nbatch 1\nset 61 31\nlife 1\nask 1 get 61 @1\ndo apply\ndo poll 1\nclose\nend\n";

const FIRST_GET_TEXT: &str =
    "life 1 opened 0\nanswer 1 = 31\nlife 1 closed\nend status 0 asked 1 answered 1\n";

const FUTURE_VERSION: &str = "storage 1\nown - ff\nlog\nlife 0\nask 1 get 61 @1\nclose\nend\n";

const CLEARS_AND_SELECTORS: &str =
    "storage 1\nown - ff\nlog\nbatch 1\nset 61 31\nset 62 32\nset 63 33\nbatch 2\nclear 61 63\nbatch 3\nset 62 39\nlife 3\nask 1 get 61 @1\nask 1 get 62 @1\nask 1 get 63 @1\nask 1 get 61 @2\nask 1 get 62 @2\nask 1 get 63 @2\nask 1 get 61 @3\nask 1 get 62 @3\nask 1 get 63 @3\nask 1 range - ff 1 1000 rev @3\nask 1 key 61 eq 1 - ff @3\nask 1 key 62 ne 0 - ff @3\nask 1 key 63 eq 1 - ff @3\ndo apply 3\ndo poll 1 13\nclose\nend\n";

const LIMITS_AND_SELECTORS: &str =
    "storage 1\nown - ff\nlog\nbatch 1\nset 61 31\nset 62 32\nset 63 33\nbatch 2\nclear 61 63\nbatch 3\nset 62 39\nlife 3\nask 1 range 61 64 10 2 fwd @1\nask 1 range 61 64 3 1000 fwd @1\nask 1 key 63 ne 0 - ff @1\ndo apply 3\ndo poll 1 3\nclose\nend\n";

// The requests of the end: one of a version that came, one of a range, and one of a version that
// never comes.
const LASTS: &str =
    "storage 1\nown - ff\nlog\nbatch 1\nset 61 31\nset 62 32\nset 63 33\nbatch 2\nclear 61 63\nbatch 3\nset 62 39\nlife 3\nlast get 62 @3\nask 1 get 61 @1\nlast range - ff 10 1000 fwd @2\nlast get 61 @4\ndo apply\ndo poll 1\nclose\nend\n";

const ONE_POLL: &str =
    "storage 1\npatience 1\nown - ff\nlog\nbatch 1\nset 61 31\nlife 1\nask 1 get 61 @1\nask 1 get 61 @1\ndo poll 1\ndo apply\ndo poll 1\nclose\nend\n";

const ATOMICS: &str =
    "storage 1\nown - ff\nlog\nbatch 1\nadd 61 ff\nbatch 2\nadd 61 01\nbatch 3\ncompare_and_clear 61 00\nappend 62 -\nlife 3\nask 1 get 61 @1\nask 1 get 61 @2\nask 1 get 61 @3\nask 1 get 62 @3\ndo apply 3\ndo poll 1 4\nclose\nend\n";

// The status of a run over a disk, and the disk that it leaves. The words have a space between each two; the empty text is none.
pub(crate) fn run_over<S: Source, K: Sink, D: CrashDisk + Drop>(
    alloc: Global,
    words: &str,
    script: &mut S,
    out: &mut K,
    disk: D,
) -> Result<(u8, D), AllocError> {
    let mut all = Vec::new(alloc);
    if !words.is_empty() {
        for word in words.split(' ') {
            all.push(String::from_str(alloc, word)?)?;
        }
    }
    let Ended {
        status,
        report: _,
        disk,
    } = tool(alloc, &all, script, out, disk);
    Ok((status, disk))
}

// The status of a run over an empty disk.
fn run<S: Source, K: Sink>(
    alloc: Global,
    words: &str,
    script: &mut S,
    out: &mut K,
) -> Result<u8, AllocError> {
    let (status, _) = run_over(alloc, words, script, out, Memory::new(alloc))?;
    Ok(status)
}

pub(crate) fn source(
    alloc: Global,
    script: &str,
    piece: usize,
    fails: &[u64],
) -> Result<ByteSource, AllocError>
    requires { 0 < piece }
{
    Ok(ByteSource::new(
        Vec::from_slice(alloc, script.as_bytes())?,
        piece,
        Vec::from_slice(alloc, fails)?,
    ))
}

#[test]
fn scripts_in_pieces_and_their_transcripts(rt: HostRuntime) -> Result<(), Fail> {
    let alloc = rt.alloc();
    let rows = [
        ("replay", FIRST_GET, 0, FIRST_GET_TEXT),
        (
            "replay --trace",
            FIRST_GET,
            0,
            "life 1 opened 0\nevent applied 1\nanswer 1 at 2 = 31\nlife 1 closed\nend status 0 asked 1 answered 1\n",
        ),
        (
            "replay",
            FUTURE_VERSION,
            0,
            "life 1 opened 0\nanswer 1 1009 future_version newest 0\nlife 1 closed\nend status 0 asked 1 answered 1\n",
        ),
        (
            "replay --trace",
            FUTURE_VERSION,
            0,
            "life 1 opened 0\nanswer 1 at 1,1,1 1009 future_version newest 0\nlife 1 closed\nend status 0 asked 1 answered 1\n",
        ),
        (
            "replay",
            CLEARS_AND_SELECTORS,
            0,
            "life 1 opened 0\nanswer 1 = 31\nanswer 2 = 32\nanswer 3 = 33\nanswer 4 absent\nanswer 5 absent\nanswer 6 = 33\nanswer 7 absent\nanswer 8 = 39\nanswer 9 = 33\nanswer 10 rows more 63=33\nanswer 11 key 62\nanswer 12 key before\nanswer 13 key after\nlife 1 closed\nend status 0 asked 13 answered 13\n",
        ),
        (
            "replay --trace",
            LIMITS_AND_SELECTORS,
            0,
            "life 1 opened 0\nevent applied 1\nevent applied 2\nevent applied 3\nanswer 1 at 4 rows more 61=31\nanswer 2 at 4 rows all 61=31 62=32 63=33\nanswer 3 at 4 key 62\nlife 1 closed\nend status 0 asked 3 answered 3\n",
        ),
        (
            "replay --trace",
            LASTS,
            0,
            "life 1 opened 0\nevent applied 1\nevent applied 2\nevent applied 3\nanswer 1 at 4 = 39\nanswer 2 at 2 = 31\nanswer 3 at 4 rows all 63=33\nanswer 4 at 4,4,4 1009 future_version newest 3\nlife 1 closed\nend status 0 asked 4 answered 4\n",
        ),
        (
            "replay --trace",
            ONE_POLL,
            0,
            "life 1 opened 0\nevent applied 1\nanswer 1 at 1 1009 future_version newest 0\nanswer 2 at 2 = 31\nlife 1 closed\nend status 0 asked 2 answered 2\n",
        ),
        (
            "replay",
            ATOMICS,
            0,
            "life 1 opened 0\nanswer 1 = ff\nanswer 2 = 00\nanswer 3 absent\nanswer 4 = -\nlife 1 closed\nend status 0 asked 4 answered 4\n",
        ),
        // Two readers: the second polls version 2 before it has come, and again after.
        (
            "replay",
            "storage 1\nown - ff\nlog\nbatch 1\nset 61 31\nbatch 2\nset 61 32\nlife 2\nask 1 get 61 @1\nask 2 get 61 @2\nask 1 get 62 @2\ndo apply\ndo poll 2\ndo poll 1\ndo apply 5\ndo poll 2 2\nclose\nend\n",
            0,
            "life 1 opened 0\nanswer 1 = 31\nanswer 2 = 32\nanswer 3 absent\nlife 1 closed\nend status 0 asked 3 answered 3\n",
        ),
        // What can't be done is done with, however often it is to be done.
        (
            "replay --trace",
            "storage 1\nown - ff\nlog\nbatch 1\nset 61 31\nlife 1\nask 1 get 61 @1\ndo poll 2 1000000\ndo apply 1000000\ndo poll 1 1000000\ndo poll 1 1000000\nclose\nend\n",
            0,
            "life 1 opened 0\nevent applied 1\nanswer 1 at 2 = 31\nlife 1 closed\nend status 0 asked 1 answered 1\n",
        ),
        // The life applies no version above its own.
        (
            "replay",
            "storage 1\nown - ff\nlog\nbatch 1\nset 61 31\nbatch 5\nset 61 35\nlife 4\nask 1 get 61 @1\nask 1 get 61 @5\nclose\nend\n",
            0,
            "life 1 opened 0\nanswer 1 = 31\nanswer 2 1009 future_version newest 1\nlife 1 closed\nend status 0 asked 2 answered 2\n",
        ),
        (
            "replay --trace",
            "storage 1\nown - ff\nlog",
            3,
            "fault script line 4 end\nend status 3 asked 0 answered 0\n",
        ),
        (
            "replay",
            "storage 1\nown - ff\nlog\nbatch 1\nclear 62 61\n",
            3,
            "fault script line 5 range\nend status 3 asked 0 answered 0\n",
        ),
    ];
    for (words, script, status, text) in rows {
        for piece in [1, 2, 7, 4096] {
            let mut out = ByteSink::new(alloc, Vec::new(alloc));
            let mut script = source(alloc, script, piece, &[])?;
            assert_eq!(rt; run(alloc, words, &mut script, &mut out)?, status);
            assert_eq!(rt; out.bytes(), text.as_bytes());
        }
    }
    Ok(())
}

#[test]
fn a_read_fails(rt: HostRuntime) -> Result<(), Fail> {
    let alloc = rt.alloc();
    for call in 1..13 {
        let mut out = ByteSink::new(alloc, Vec::new(alloc));
        let mut script = source(alloc, FIRST_GET, 7, &[call])?;
        assert_eq!(rt; run(alloc, "replay", &mut script, &mut out)?, 4);
        let text = "fault read 1\nend status 4 asked 0 answered 0\n";
        assert_eq!(rt; out.bytes(), text.as_bytes());
    }
    Ok(())
}

#[test]
fn the_first_write_fails(rt: HostRuntime) -> Result<(), Fail> {
    let alloc = rt.alloc();
    let mut out = ByteSink::new(alloc, Vec::from_slice(alloc, &[1])?);
    let mut script = source(alloc, FIRST_GET, 4096, &[])?;
    assert_eq!(rt; run(alloc, "replay", &mut script, &mut out)?, 5);
    assert!(rt; out.bytes().is_empty());
    Ok(())
}

#[test]
fn memory_is_refused_for_the_words(rt: HostRuntime) -> Result<(), Fail> {
    let alloc = rt.alloc();
    let mut out = ByteSink::new(alloc, Vec::new(alloc));
    assert_eq!(rt;
        without_words(alloc, &mut out, Memory::new(alloc)).status,
        9
    );
    let text = "fault memory\nend status 9 asked 0 answered 0\n";
    assert_eq!(rt; out.bytes(), text.as_bytes());
    Ok(())
}

#[test]
fn other_words_are_refused(rt: HostRuntime) -> Result<(), Fail> {
    let alloc = rt.alloc();
    let rows = [
        "",
        "walk",
        "Replay",
        "replays",
        "replay ",
        " replay",
        "replay replay",
        "--trace",
        "--trace replay",
        "replay --trace --trace",
        "replay --trace ",
        "replay --Trace",
        "replay --trace=1",
        "replay --summary",
        "replay --trace --summary",
        "replay --store /",
        "replay --",
        "replay -- --trace",
        "gen",
        "help",
    ];
    for words in rows {
        let mut out = ByteSink::new(alloc, Vec::new(alloc));
        let mut script = source(alloc, FIRST_GET, 4096, &[])?;
        assert_eq!(rt; run(alloc, words, &mut script, &mut out)?, 2);
        let text = "fault words\nend status 2 asked 0 answered 0\n";
        assert_eq!(rt; out.bytes(), text.as_bytes());
    }
    Ok(())
}
