//! Rows of lives, commits and kills, through the top call and over disks.
use crate::tests::{run_over, source};
use st_disk::{CrashDisk, Failing, Memory};
use st_io::ByteSink;
use std::alloc::Global;
use std::process::Abort;
use std::test::Fail;

// The log of `window-moves`, and its first life.
const WINDOW_MOVES: &str =
    "storage 1\nwindow 5\nown - ff\nlog\nbatch 1\nset 61 31\nbatch 2\nset 61 32\nbatch 3\nset 61 33\nbatch 4\nset 61 34\nbatch 5\nset 61 35\nbatch 6\nset 61 36\nbatch 7\nset 61 37\nbatch 8\nset 61 38\nbatch 9\nset 61 39\nlife 9\nask 1 get 61 @3\nask 1 get 61 @4\nask 1 get 61 @9\ndo apply 9\ndo flush\ndo poll 1 3\nclose\n";

const SECOND_LIFE: &str =
    "life 9\nask 1 get 61 @4\nask 1 get 61 @5\nlast get 61 @9\ndo poll 1 4\nclose\n";

const WINDOW_MOVES_TRACE: &str =
    "life 1 opened 0\nevent applied 1\nevent applied 2\nevent applied 3\nevent applied 4\nevent applied 5\nevent applied 6\nevent applied 7\nevent applied 8\nevent applied 9\nevent began 4\nevent durable 4\nanswer 1 at 12 1007 transaction_too_old oldest 4\nanswer 2 at 12 = 34\nanswer 3 at 12 = 39\nlife 1 closed\n";

const WINDOW_MOVES_ANSWERS: &str =
    "life 1 opened 0\nanswer 1 1007 transaction_too_old oldest 4\nanswer 2 = 34\nanswer 3 = 39\nlife 1 closed\n";

const SECOND_LIFE_TRACE: &str =
    "life 2 opened 4\nevent applied 5\nevent applied 6\nevent applied 7\nevent applied 8\nevent applied 9\nanswer 4 at 1 = 34\nanswer 5 at 1,1,1 1009 future_version newest 4\nanswer 6 at 6 = 39\nlife 2 closed\n";

const SECOND_LIFE_ANSWERS: &str =
    "life 2 opened 4\nanswer 4 = 34\nanswer 5 1009 future_version newest 4\nanswer 6 = 39\nlife 2 closed\n";

// `first-commit` up to its first life's end, and behind it.
const FIRST_COMMIT: &str =
    "storage 1\nwindow 1\nown - ff\nlog\nbatch 1\nset 61 31\nbatch 2\nlife 2\ndo apply 2\ndo flush\n";

const LAST_GET: &str = "life 2\nlast get 61 @2\nclose\nend\n";

// What the first commit leaves of file 0.
const FIRST_COMMIT_FILE: &[u8] = b"\
    \x01STORQUE\x01\0\0\0\x01\0\0\0\0\0\0\0\0\0\0\0\0\0\0\0\
    \x01\xd4\0\0\0\0\0\0\0\0\0\0\0\
    \x01\x01\0\0\0\x01\0\0\0\x61\x31\
    \x01\x0b\0\0\0\x0d\0\0\0\xff\xff/assigned\x01\0\0\0\0\0\0\0\x01\0\0\0\xff\
    \x01\x0c\0\0\0\x0d\0\0\0\xff\xff/available\x01\0\0\0\0\0\0\0\x01\0\0\0\xff\
    \x01\x0a\0\0\0\x08\0\0\0\xff\xff/version\x01\0\0\0\0\0\0\0\
    \x03\x01\0\0\0\x01\0\0\0\x61\x31\
    \x03\x0b\0\0\0\x0d\0\0\0\xff\xff/assigned\x01\0\0\0\0\0\0\0\x01\0\0\0\xff\
    \x03\x0c\0\0\0\x0d\0\0\0\xff\xff/available\x01\0\0\0\0\0\0\0\x01\0\0\0\xff\
    \x03\x0a\0\0\0\x08\0\0\0\xff\xff/version\x01\0\0\0\0\0\0\0\
    \x04\x05\0";

// The first bytes of the files of `two-files`: the header, and the first frame's gate, length and number.
const TWO_FILES_ZERO: &[u8] = b"\
    \x01STORQUE\x01\0\0\0\x03\0\0\0\0\0\0\0\x03\0\0\0\0\0\0\0\
    \x01\xa0\x01\0\0\x03\0\0\0\0\0\0\0";

const TWO_FILES_ONE: &[u8] = b"\
    \x01STORQUE\x01\0\0\0\x02\0\0\0\0\0\0\0\x01\0\0\0\0\0\0\0\
    \x01\xa0\x01\0\0\x01\0\0\0\0\0\0\0";

// Sixteen batches, each of which sets the key to its version.
const SIXTEEN: &str =
    "storage 1\nwindow 1\npatience 1\nown - ff\nlog\nbatch 1\nset 61 01\nbatch 2\nset 61 02\nbatch 3\nset 61 03\nbatch 4\nset 61 04\nbatch 5\nset 61 05\nbatch 6\nset 61 06\nbatch 7\nset 61 07\nbatch 8\nset 61 08\nbatch 9\nset 61 09\nbatch 10\nset 61 0a\nbatch 11\nset 61 0b\nbatch 12\nset 61 0c\nbatch 13\nset 61 0d\nbatch 14\nset 61 0e\nbatch 15\nset 61 0f\nbatch 16\nset 61 10\n";

// Plays a script over a disk, and says which transcript and status it has. The disk that it leaves is handed back.
fn expect<D: CrashDisk + Drop>(
    rt: &impl Abort,
    alloc: Global,
    words: &str,
    script: &str,
    disk: D,
    status: u8,
    text: &str,
) -> Result<D, Fail> {
    let mut out = ByteSink::new(alloc, Vec::new(alloc));
    let mut script = source(alloc, script, 4096, &[])?;
    let (found, disk) = run_over(alloc, words, &mut script, &mut out, disk)?;
    assert_eq!(rt; out.bytes(), text.as_bytes());
    assert_eq!(rt; found, status);
    Ok(disk)
}

// Over an empty disk.
fn expect_fresh(
    rt: &impl Abort,
    alloc: Global,
    words: &str,
    script: &str,
    status: u8,
    text: &str,
) -> Result<Memory, Fail> {
    expect(rt, alloc, words, script, Memory::new(alloc), status, text)
}

#[test]
fn the_window_moves(rt: HostRuntime) -> Result<(), Fail> {
    let alloc = rt.alloc();
    let script = format!(in alloc; "{}end\n", WINDOW_MOVES)?;
    let rows = [
        ("replay", WINDOW_MOVES_ANSWERS),
        ("replay --trace", WINDOW_MOVES_TRACE),
    ];
    for (words, life) in rows {
        let text = format!(in alloc; "{life}end status 0 asked 3 answered 3\n")?;
        expect_fresh(&rt, alloc, words, &script, 0, &text)?;
    }
    Ok(())
}

#[test]
fn a_second_life_opens_where_the_first_was_durable(rt: HostRuntime) -> Result<(), Fail> {
    let alloc = rt.alloc();
    let script = format!(in alloc; "{}{}end\n", WINDOW_MOVES, SECOND_LIFE)?;
    let rows = [
        ("replay", WINDOW_MOVES_ANSWERS, SECOND_LIFE_ANSWERS),
        ("replay --trace", WINDOW_MOVES_TRACE, SECOND_LIFE_TRACE),
    ];
    for (words, first, second) in rows {
        let text = format!(in alloc; "{first}{second}end status 0 asked 6 answered 6\n")?;
        expect_fresh(&rt, alloc, words, &script, 0, &text)?;
    }
    // Version 0 isn't too old where a first life opens.
    let script =
        "storage 1\nown - ff\nlog\nbatch 1\nset 61 31\nlife 1\nask 1 get 61 @0\ndo poll 1\nclose\nend\n";
    let text =
        "life 1 opened 0\nevent applied 1\nanswer 1 at 1 absent\nlife 1 closed\nend status 0 asked 1 answered 1\n";
    expect_fresh(&rt, alloc, "replay --trace", script, 0, text)?;
    Ok(())
}

// What `first-commit` tells where its second life opens at this version.
fn first_commit_text(alloc: Global, opened: u64) -> Result<String, Fail> {
    Ok(format!(in alloc;
        "life 1 opened 0\nlife 1 killed\nlife 2 opened {opened}\nanswer 1 = 31\nlife 2 closed\nend status 0 asked 1 answered 1\n"
    )?)
}

// Plays `first-commit`, killed after so many calls. The last write of a commit opens its gate, and only the sync behind it makes
// that sure.
fn expect_first_commit(
    rt: &impl Abort,
    alloc: Global,
    calls: u64,
    choice: u64,
) -> Result<(), Fail> {
    let script = format!(in alloc; "{}kill {calls} {choice}\n{}", FIRST_COMMIT, LAST_GET)?;
    let mut out = ByteSink::new(alloc, Vec::new(alloc));
    let mut script = source(alloc, &script, 4096, &[])?;
    let (status, disk) = run_over(alloc, "replay", &mut script, &mut out, Memory::new(alloc))?;
    assert_eq!(rt; status, 0, "kill {calls} {choice}");
    let (old, new) = (first_commit_text(alloc, 0)?, first_commit_text(alloc, 1)?);
    if calls == 9 && choice > 1 {
        let is_one = out.bytes() == old.as_bytes() || out.bytes() == new.as_bytes();
        assert!(rt; is_one, "kill {calls} {choice}");
    } else if calls == 10 || (calls == 9 && choice == 1) {
        assert_eq!(rt; out.bytes(), new.as_bytes(), "kill {calls} {choice}");
    } else {
        assert_eq!(rt; out.bytes(), old.as_bytes(), "kill {calls} {choice}");
    }
    if calls == 10 {
        assert_eq!(rt; disk.bytes(0), FIRST_COMMIT_FILE);
        assert!(rt; disk.bytes(1).is_empty());
    }
    Ok(())
}

#[test]
fn a_file_that_is_cut_short_has_no_commit(rt: HostRuntime) -> Result<(), Fail> {
    let alloc = rt.alloc();
    for calls in 0..6 {
        for choice in 0..100 {
            expect_first_commit(&rt, alloc, calls, choice)?;
        }
    }
    Ok(())
}

#[test]
fn a_first_commit_is_whole_or_not_at_all(rt: HostRuntime) -> Result<(), Fail> {
    let alloc = rt.alloc();
    for calls in 6..11 {
        for choice in 0..100 {
            expect_first_commit(&rt, alloc, calls, choice)?;
        }
    }
    Ok(())
}

// The disk that `first-commit` leaves where all the calls of its commit pass.
fn committed(rt: &impl Abort, alloc: Global) -> Result<Memory, Fail> {
    let script = format!(in alloc; "{}kill 10 0\n{}", FIRST_COMMIT, LAST_GET)?;
    let text = first_commit_text(alloc, 1)?;
    expect_fresh(rt, alloc, "replay", &script, 0, &text)
}

#[test]
fn a_store_is_opened_by_its_own_script(rt: HostRuntime) -> Result<(), Fail> {
    let alloc = rt.alloc();
    let script = format!(in alloc; "{}kill 10 0\n{}", FIRST_COMMIT, LAST_GET)?;
    let disk = committed(&rt, alloc)?;
    assert_eq!(rt; disk.bytes(0), FIRST_COMMIT_FILE);
    let disk = expect(
        &rt,
        alloc,
        "replay",
        &script,
        disk,
        0,
        "life 1 opened 1\nlife 1 killed\nlife 2 opened 1\nanswer 1 = 31\nlife 2 closed\nend status 0 asked 1 answered 1\n",
    )?;
    assert_eq!(rt; disk.bytes(0), FIRST_COMMIT_FILE);
    // The same script but for one value.
    let other =
        "storage 1\nwindow 1\nown - ff\nlog\nbatch 1\nset 61 32\nbatch 2\nlife 2\ndo apply 2\ndo flush\nclose\nend\n";
    let disk = expect(
        &rt,
        alloc,
        "replay --trace",
        other,
        disk,
        11,
        "fault foreign key 61\nend status 11 asked 0 answered 0\n",
    )?;
    assert_eq!(rt; disk.bytes(0), FIRST_COMMIT_FILE);
    // A log without the version of the store.
    let other = "storage 1\nown - ff\nlog\nbatch 2\nset 61 31\nlife 2\nclose\nend\n";
    let disk = expect(
        &rt,
        alloc,
        "replay",
        other,
        disk,
        11,
        "fault foreign version\nend status 11 asked 0 answered 0\n",
    )?;
    assert_eq!(rt; disk.bytes(0), FIRST_COMMIT_FILE);
    // One byte of the file is another one.
    let mut bytes = Vec::from_slice(alloc, b"\x01T")?;
    bytes.extend_from_slice(FIRST_COMMIT_FILE.get(2..).unwrap_or(&[]))?;
    assert_eq!(rt; bytes.len(), 254);
    expect(
        &rt,
        alloc,
        "replay",
        &script,
        Memory::with(alloc, bytes, Vec::new(alloc)),
        8,
        "fault damaged 0 1\nend status 8 asked 0 answered 0\n",
    )?;
    Ok(())
}

#[test]
fn a_queue_changes_its_file(rt: HostRuntime) -> Result<(), Fail> {
    let alloc = rt.alloc();
    let mut script = String::from_str(
        alloc,
        "storage 1\nwindow 1\nswap 64\nquota 1\nown - ff\nlog\nbatch 1\nset 60 ",
    )?;
    for _ in 0..300 {
        script.push_str("2a")?;
    }
    script.push_str(
        "\nset 61 31\nbatch 2\nset 61 32\nbatch 3\nset 61 33\nbatch 4\nset 61 34\nbatch 5\nset 61 35\n",
    )?;
    script.push_str(
        "life 5\ndo apply 2\ndo flush\ndo apply\ndo flush\ndo apply\ndo flush\ndo apply\ndo flush\nkill 34 0\n",
    )?;
    let killed = format!(in alloc; "{script}end\n")?;
    let text = "life 1 opened 0\nlife 1 killed\nend status 0 asked 0 answered 0\n";
    let disk = expect_fresh(&rt, alloc, "replay", &killed, 0, text)?;
    assert_eq!(rt; disk.bytes(0).len(), 874);
    assert_eq!(rt; disk.bytes(0).get(..41), Some(TWO_FILES_ZERO));
    assert_eq!(rt; disk.bytes(0).get(457), Some(&0));
    assert_eq!(rt; disk.bytes(1).len(), 683);
    assert_eq!(rt; disk.bytes(1).get(..41), Some(TWO_FILES_ONE));
    // Its second frame has 212 bytes, and none follows.
    assert_eq!(rt;
        disk.bytes(1).get(457..471),
        Some(b"\x01\xd4\0\0\0\x02\0\0\0\0\0\0\0\x01".as_slice())
    );
    assert_eq!(rt; disk.bytes(1).get(682), Some(&0));
    script.push_str("life 5\nask 1 get 61 @4\ndo poll 1\nclose\nend\n")?;
    let text =
        "life 1 opened 0\nlife 1 killed\nlife 2 opened 4\nanswer 1 = 34\nlife 2 closed\nend status 0 asked 1 answered 1\n";
    expect_fresh(&rt, alloc, "replay", &script, 0, text)?;
    Ok(())
}

#[test]
fn a_file_is_full(rt: HostRuntime) -> Result<(), Fail> {
    let alloc = rt.alloc();
    let script =
        "storage 1\nwindow 1\nlimit 200\nown - ff\nlog\nbatch 1\nset 61 31\nbatch 2\nlife 2\ndo apply 2\ndo flush\nclose\nlife 2\nlast get 61 @2\nclose\nend\n";
    expect_fresh(
        &rt,
        alloc,
        "replay",
        script,
        10,
        "life 1 opened 0\nlife 1 faulted\nfault full 254 200\nend status 10 asked 0 answered 0\n",
    )?;
    expect_fresh(
        &rt,
        alloc,
        "replay --trace",
        script,
        10,
        "life 1 opened 0\nevent applied 1\nevent applied 2\nevent began 1\nlife 1 faulted\nfault full 254 200\nend status 10 asked 0 answered 0\n",
    )?;
    Ok(())
}

// Six calls mount the store, ten make the commit, and six mount it for the second life, which writes nothing.
#[test]
fn each_call_of_a_disk_may_fail(rt: HostRuntime) -> Result<(), Fail> {
    let alloc = rt.alloc();
    let script = format!(in alloc; "{}kill 10 0\n{}", FIRST_COMMIT, LAST_GET)?;
    for call in 1..30 {
        let whole = first_commit_text(alloc, 1)?;
        let (status, text) = if call <= 6 {
            (6, "fault device 1\nend status 6 asked 0 answered 0\n")
        } else if call <= 16 {
            (
                6,
                "life 1 opened 0\nlife 1 faulted\nfault device 1\nend status 6 asked 0 answered 0\n",
            )
        } else if call <= 22 {
            (
                6,
                "life 1 opened 0\nlife 1 killed\nfault device 1\nend status 6 asked 0 answered 0\n",
            )
        } else {
            (0, whole.as_str())
        };
        let disk = Failing::new(Memory::new(alloc), vec![in alloc; call]?);
        expect(&rt, alloc, "replay", &script, disk, status, text)?;
    }
    Ok(())
}

// How many commits last of a life that is killed after so many calls: so many make its first, and each later one has four. Of a
// commit's last write the choices 0, 2 and 3 keep no open gate, and the choice 1 does.
fn commits(calls: u64, first: u64, choice: u64) -> u64 {
    let reached = if choice == 1 {
        calls.saturating_add(1)
    } else {
        calls
    };
    match reached.checked_sub(first) {
        Some(more) => (more / 4).saturating_add(1),
        None => 0,
    }
}

// How many calls make the first commit of a life behind one that was killed before its own was whole: a file that is there is
// not shut again, and one that was entered stays.
fn first_calls(calls: u64, choice: u64) -> u64 {
    if calls == 0 || (calls == 1 && choice == 0) {
        10
    } else if calls < 5 || (calls == 5 && choice != 1) {
        8
    } else {
        4
    }
}

// The answer of a get at this version, below 10, of a life that opened at another and hasn't applied anything, where one poll is all
// patience.
fn at_opening(alloc: Global, version: u64, opened: u64) -> Result<String, Fail> {
    Ok(if opened < version {
        format!(in alloc; "1009 future_version newest {opened}")?
    } else if opened == version {
        format!(in alloc; "= 0{version}")?
    } else {
        format!(in alloc; "1007 transaction_too_old oldest {opened}")?
    })
}

#[test]
fn two_lives_of_which_the_first_is_killed(rt: HostRuntime) -> Result<(), Fail> {
    let alloc = rt.alloc();
    for calls in 0..41 {
        for choice in 0..4 {
            let script = format!(in alloc;
                "{}life 16\nask 1 get 61 @0\nask 2 get 61 @16\ndo poll 1\nkill {calls} {choice}\nlife 16\nask 1 get 61 @3\nlast get 61 @16\ndo poll 1\nclose\nend\n",
                SIXTEEN
            )?;
            let opened = commits(calls, 10, choice);
            let answer = at_opening(alloc, 3, opened)?;
            let text = format!(in alloc;
                "life 1 opened 0\nanswer 1 absent\nanswer 2 stopped\nlife 1 killed\nlife 2 opened {opened}\nanswer 3 {answer}\nanswer 4 = 10\nlife 2 closed\nend status 0 asked 4 answered 4\n"
            )?;
            expect_fresh(&rt, alloc, "replay", &script, 0, &text)?;
        }
    }
    Ok(())
}

// Plays three lives, of which two are killed after so many calls.
fn expect_three_lives(
    rt: &impl Abort,
    alloc: Global,
    calls: u64,
    more: u64,
    choice: u64,
) -> Result<(), Fail> {
    let script = format!(in alloc;
        "{}life 16\nkill {calls} {choice}\nlife 16\nask 1 get 61 @3\nask 2 get 61 @16\ndo poll 1\nkill {more} {choice}\nlife 16\nask 1 get 61 @5\nlast get 61 @16\ndo poll 1\nclose\nend\n",
        SIXTEEN
    )?;
    let second = commits(calls, 10, choice);
    let first = if second == 0 {
        first_calls(calls, choice)
    } else {
        4
    };
    let third = second.saturating_add(commits(more, first, choice));
    let (one, other) = (at_opening(alloc, 3, second)?, at_opening(alloc, 5, third)?);
    let text = format!(in alloc;
        "life 1 opened 0\nlife 1 killed\nlife 2 opened {second}\nanswer 1 {one}\nanswer 2 stopped\nlife 2 killed\nlife 3 opened {third}\nanswer 3 {other}\nanswer 4 = 10\nlife 3 closed\nend status 0 asked 4 answered 4\n"
    )?;
    expect_fresh(rt, alloc, "replay", &script, 0, &text)?;
    Ok(())
}

#[test]
fn three_lives_of_which_two_are_killed(rt: HostRuntime) -> Result<(), Fail> {
    let alloc = rt.alloc();
    for calls in 0..41 {
        for choice in 0..4 {
            expect_three_lives(&rt, alloc, calls, calls % 7, choice)?;
        }
    }
    Ok(())
}

// The second life goes on with what the first one left of its first commit.
#[test]
fn a_first_commit_is_begun_twice(rt: HostRuntime) -> Result<(), Fail> {
    let alloc = rt.alloc();
    for calls in [0, 1, 3, 5, 7, 9] {
        for more in 3..12 {
            for choice in 0..4 {
                expect_three_lives(&rt, alloc, calls, more, choice)?;
            }
        }
    }
    Ok(())
}

#[test]
fn options_are_read(rt: HostRuntime) -> Result<(), Fail> {
    let alloc = rt.alloc();
    let played = "life 1 opened 0\nlife 1 closed\nend status 0 asked 0 answered 0\n";
    let rows = [
        ("window 1\nseed 0\nswap 64\nlimit 64\nquota 1\n", 0, played),
        (
            "quota 1048576\nlimit 268435456\nswap 268435456\nseed 18446744073709551615\nwindow 4611686018427387904\n",
            0,
            played,
        ),
        (
            "window 0\n",
            3,
            "fault script line 2 number\nend status 3 asked 0 answered 0\n",
        ),
        (
            "seed 1\nswap 63\n",
            3,
            "fault script line 3 number\nend status 3 asked 0 answered 0\n",
        ),
        (
            "limit 268435457\n",
            3,
            "fault script line 2 number\nend status 3 asked 0 answered 0\n",
        ),
        (
            "quota 0\n",
            3,
            "fault script line 2 number\nend status 3 asked 0 answered 0\n",
        ),
        (
            "seed 1\nquota 1\nseed 1\n",
            3,
            "fault script line 4 order\nend status 3 asked 0 answered 0\n",
        ),
        (
            "block 1\n",
            3,
            "fault script line 2 unbuilt\nend status 3 asked 0 answered 0\n",
        ),
        (
            "watches 1\n",
            3,
            "fault script line 2 unbuilt\nend status 3 asked 0 answered 0\n",
        ),
    ];
    for (options, status, text) in rows {
        let script = format!(in alloc; "storage 1\n{options}own - ff\nlog\nlife 0\nclose\nend\n")?;
        expect_fresh(&rt, alloc, "replay", &script, status, text)?;
    }
    Ok(())
}

#[test]
fn lines_that_are_not_built_are_told(rt: HostRuntime) -> Result<(), Fail> {
    let alloc = rt.alloc();
    let unbuilt = "fault script line 5 unbuilt\nend status 3 asked 0 answered 0\n";
    let rows = [
        ("batch 1\ndrop 61 62\n", unbuilt),
        ("batch 1\nassign 61 62\n", unbuilt),
        ("life 1\ncut 1\n", unbuilt),
        ("life 1\npeerfail 1\n", unbuilt),
        ("life 1\nask 1 watch 61 none\n", unbuilt),
        ("life 1\ndo start\n", unbuilt),
        ("life 1\ndo block\n", unbuilt),
        // A life with requests of its end isn't killed.
        (
            "life 1\nlast get 61 @1\nkill 0 0\n",
            "fault script line 6 order\nend status 3 asked 0 answered 0\n",
        ),
        (
            "life 2\nclose\nlife 1\n",
            "fault script line 6 version\nend status 3 asked 0 answered 0\n",
        ),
    ];
    for (lines, text) in rows {
        let script = format!(in alloc; "storage 1\nown - ff\nlog\n{lines}")?;
        expect_fresh(&rt, alloc, "replay", &script, 3, text)?;
    }
    Ok(())
}
