//! Scripts that are refused, with the line and the kind that the grammar tells, and scripts that are read.
use crate::{Act, Do, Kind, LifePlan, MAX_BYTES, Script, ScriptRefusal, Settings, read};
use std::alloc::Global;
use std::process::Abort;
use std::test::Fail;

// The lines before the first batch or life.
const HEAD: &[u8] = b"storage 1\nown - ff\nlog\n";

// These and a first life.
const LIFE: &[u8] = b"storage 1\nown - ff\nlog\nlife 1\n";

fn assert_refused(rt: &impl Abort, alloc: Global, script: &[u8], at: u64, why: Kind) {
    match read(alloc, script) {
        Err(ScriptRefusal::Bad { line, kind }) => {
            assert_eq!(rt; line, at);
            assert_eq!(rt; kind, why);
        }
        _ => assert!(rt; false, "a script that is not refused"),
    }
}

// Reads a script of these parts, and asserts that the line of this number between them is refused for this, or that the
// script is read.
fn assert_line(
    rt: &impl Abort,
    alloc: Global,
    before: &[u8],
    at: u64,
    line: &[u8],
    after: &[u8],
    refusal: Option<Kind>,
) -> Result<(), Fail> {
    let mut script = before.to_vec(alloc)?;
    script.extend_from_slice(line)?;
    script.push(b'\n')?;
    script.extend_from_slice(after)?;
    match refusal {
        Some(kind) => assert_refused(rt, alloc, &script, at, kind),
        None => assert!(rt; read(alloc, &script).is_ok()),
    }
    Ok(())
}

// Each row is what its line is refused for, or `read`, and then the line.
fn assert_rows(
    rt: &impl Abort,
    alloc: Global,
    before: &[u8],
    at: u64,
    rows: &[u8],
    after: &[u8],
) -> Result<(), Fail> {
    for row in rows.split(|byte| *byte == b'\n') {
        if let Some(end) = row.iter().position(|byte| *byte == b' ') {
            assert_line(rt, alloc, before, at, &row[end..], after, kind(&row[..end]))?;
        }
    }
    Ok(())
}

fn kind(name: &[u8]) -> Option<Kind> {
    match name {
        b"word" => Some(Kind::Word),
        b"number" => Some(Kind::Number),
        b"hex" => Some(Kind::Hex),
        b"key" => Some(Kind::Key),
        b"range" => Some(Kind::Range),
        b"order" => Some(Kind::Order),
        b"version" => Some(Kind::Version),
        b"unbuilt" => Some(Kind::Unbuilt),
        _ => None,
    }
}

// The script's batches, and its life's bound, requests and steps.
fn counts(script: &Script) -> Option<(usize, u64, usize, usize)> {
    match script.lives.as_slice() {
        [life] => Some((script.log.len(), life.upto, life.asks.len(), life.dos.len())),
        _ => None,
    }
}

// A word of this many bytes, in hex.
fn long_word(alloc: Global, len: usize) -> Result<Vec<u8>, Fail> {
    let mut word = Vec::new(alloc);
    for _ in 0..len {
        word.extend_from_slice(b"61")?;
    }
    Ok(word)
}

#[test]
fn faults_from_the_first_line_on(rt: HostRuntime) -> Result<(), Fail> {
    let rows: [(&[u8], u64, Kind); 29] = [
        (b"", 1, Kind::End),
        (b"# only a comment\n\n   \n", 4, Kind::End),
        (b"storage 2", 1, Kind::Head),
        (b"storage 01\n", 1, Kind::Head),
        (b"storage 1 1\n", 1, Kind::Head),
        (b"\n# a comment\nlog\n", 3, Kind::Head),
        (b"storage\t1\n", 1, Kind::Head),
        (b"storage 1\r\n", 1, Kind::Head),
        (b"storage 1", 2, Kind::End),
        (b"storage 1\nown - ff\nlog", 4, Kind::End),
        (b"storage 1\nstorage 1\n", 2, Kind::Order),
        (b"storage 1\nlog\n", 2, Kind::Unbuilt),
        (b"storage 1\nown 61 62\n", 2, Kind::Unbuilt),
        (b"storage 1\nown - ff\r\n", 2, Kind::Unbuilt),
        (b"storage 1\nown - FF\nown - ff\n", 3, Kind::Unbuilt),
        (b"storage 1\nblock 5\n", 2, Kind::Unbuilt),
        (b"patience 3\n", 1, Kind::Head),
        (b"storage 1\npatience +1\n", 2, Kind::Number),
        (b"storage 1\nlife 1\n", 2, Kind::Order),
        (b"storage 1\nkill 1 1\n", 2, Kind::Order),
        (
            b"storage 1\npatience 3\nown - ff\npatience 0\n",
            4,
            Kind::Order,
        ),
        (b"storage 1\npatience 1000\npatience\n", 3, Kind::Order),
        (b"storage 1\nown - ff\nlog\npatience 3\n", 4, Kind::Order),
        (b"storage 1\nown - ff\nset 61 31\n", 3, Kind::Order),
        (b"storage 1\nown - ff\nend\n", 3, Kind::Order),
        (b"storage 1\nown - ff\nlog x\n", 3, Kind::Word),
        (b"storage 1\nown - ff\nlog\nlog\n", 4, Kind::Order),
        (b"storage 1\nown - ff\nlog\nown - ff\n", 4, Kind::Unbuilt),
        (b"storage 1\nown - ff\nlog\nend\n", 4, Kind::Order),
    ];
    for (script, line, kind) in rows {
        assert_refused(&rt, rt.alloc(), script, line, kind);
    }
    Ok(())
}

#[test]
fn faults_of_the_log(rt: HostRuntime) -> Result<(), Fail> {
    let rows: [(&[u8], u64, Kind); 35] = [
        (b"set 61 31\n", 4, Kind::Order),
        (b"batch\n", 4, Kind::Word),
        (b"batch 1 2\n", 4, Kind::Word),
        (b"batch 0\n", 4, Kind::Number),
        (b"batch -1\n", 4, Kind::Number),
        (b"batch +1\n", 4, Kind::Number),
        (b"batch 1x\n", 4, Kind::Number),
        (b"batch 9223372036854775808\n", 4, Kind::Number),
        (b"batch 18446744073709551617\n", 4, Kind::Number),
        (b"batch 000000000000000000001\n", 4, Kind::Number),
        (b"batch 5000001\nbatch 5000001\n", 5, Kind::Version),
        (
            b"batch 9223372036854775807\nbatch 9223372036854775807\n",
            5,
            Kind::Version,
        ),
        (b"batch 7\nbatch 6\n", 5, Kind::Version),
        (b"batch 5\n# 5 again\nbatch 0005\n", 6, Kind::Version),
        (b"batch 1\nset 6 31\n", 5, Kind::Hex),
        (b"batch 1\nset 6g 31\n", 5, Kind::Hex),
        (b"batch 1\nset 61 3z\n", 5, Kind::Hex),
        (b"batch 1\nset 61 31\r\n", 5, Kind::Hex),
        (b"batch 1\nset 61 \xc3\xa9\n", 5, Kind::Hex),
        (b"batch 1\nset ff 31\n", 5, Kind::Key),
        (b"batch 1\nset FF61 3\n", 5, Kind::Key),
        (b"batch 1\nset 61\n", 5, Kind::Word),
        (b"batch 1\nset 61 31 32\n", 5, Kind::Word),
        (
            b"batch 1\nset 61 31 32 33 34 35 36 37 38 39 40\n",
            5,
            Kind::Word,
        ),
        (b"batch 1\nset\t61 31\n", 5, Kind::Word),
        (b"batch 1\n\xc3\xa9 61\n", 5, Kind::Word),
        (b"batch 1\nSET 61 31\n", 5, Kind::Word),
        (b"batch 1\nassign 61 62\n", 5, Kind::Unbuilt),
        (b"batch 1\ndrop 6\n", 5, Kind::Unbuilt),
        (b"batch 1\nclose\n", 5, Kind::Order),
        (b"batch 1\nkill 1\n", 5, Kind::Order),
        (b"batch 1\nask 1 get 61 @1\n", 5, Kind::Order),
        (b"batch 1\nend\n", 5, Kind::Order),
        (b"batch 2\nlife 1\nbatch 3\n", 6, Kind::Order),
        (b"life 9223372036854775808\n", 4, Kind::Number),
    ];
    for (text, line, kind) in rows {
        let mut script = HEAD.to_vec(rt.alloc())?;
        script.extend_from_slice(text)?;
        assert_refused(&rt, rt.alloc(), &script, line, kind);
    }
    Ok(())
}

#[test]
fn faults_of_a_life(rt: HostRuntime) -> Result<(), Fail> {
    let rows: [(&[u8], u64, Kind); 45] = [
        (b"life 2\n", 5, Kind::Order),
        (b"close\nlife 0\n", 6, Kind::Version),
        (b"kill 0 0\nlife 0\n", 6, Kind::Version),
        (b"close\nlife 5\nclose\nlife 4\n", 8, Kind::Version),
        (b"close\nlife 9223372036854775808\n", 6, Kind::Number),
        (b"close\nlife\n", 6, Kind::Word),
        (b"close\nlife 1\nclose\n", 8, Kind::End),
        (b"close\nbatch 2\n", 6, Kind::Order),
        (b"close\nkill 0 0\n", 6, Kind::Order),
        (b"kill 0 0\n", 6, Kind::End),
        (b"kill 0 0\nclose\n", 6, Kind::Order),
        (b"kill 0 0\ndo apply\n", 6, Kind::Order),
        (b"last get 61 @1\nkill 0 0\n", 6, Kind::Order),
        (b"last get 61 @1\nkill\n", 6, Kind::Order),
        (b"last get 61 @1\nask 1 get 61 @1\nkill x\n", 7, Kind::Order),
        (
            b"last get 61 @1\nclose\nlife 1\nlast get 61 @1\nkill 0 0\n",
            9,
            Kind::Order,
        ),
        (b"set 61 31\n", 5, Kind::Order),
        (b"ask 0 get 61 @1\n", 5, Kind::Number),
        (b"ask 65 get 61 @1\n", 5, Kind::Number),
        (b"ask 65 put 61 @1\n", 5, Kind::Word),
        (b"ask 65 get 61 1\n", 5, Kind::Word),
        (b"ask 1 get 61\n", 5, Kind::Word),
        (b"ask 1 get 61 @1 @1\n", 5, Kind::Word),
        (b"ask 1 get 6 @x\n", 5, Kind::Hex),
        (b"ask 1 get ff @x\n", 5, Kind::Key),
        (b"ask 1 get 61 @\n", 5, Kind::Number),
        (b"ask 1 get 61 @9223372036854775808\n", 5, Kind::Number),
        (b"ask x watch\n", 5, Kind::Unbuilt),
        (b"do\n", 5, Kind::Word),
        (b"do poll\n", 5, Kind::Word),
        (b"do poll 65\n", 5, Kind::Number),
        (b"do poll 1 0\n", 5, Kind::Number),
        (b"do poll 1 1 1\n", 5, Kind::Word),
        (b"cut 0\n", 5, Kind::Unbuilt),
        (b"peerfail 1\n", 5, Kind::Unbuilt),
        (b"end\n", 5, Kind::Order),
        (b"close now\n", 5, Kind::Word),
        (b"close\n", 6, Kind::End),
        (b"close\nclose\n", 6, Kind::Order),
        (b"close\nlast get 61 @1\n", 6, Kind::Order),
        (b"close\nend of it\n", 6, Kind::Word),
        (b"close\nend\nend\n", 7, Kind::Order),
        (b"close\nend\nthe end\n", 7, Kind::Word),
        (b"close\nend\n\nseed 1\n", 8, Kind::Order),
        (b"close\nend\n\nblock 1\n", 8, Kind::Unbuilt),
    ];
    for (text, line, kind) in rows {
        let mut script = HEAD.to_vec(rt.alloc())?;
        script.extend_from_slice(b"life 1\n")?;
        script.extend_from_slice(text)?;
        assert_refused(&rt, rt.alloc(), &script, line, kind);
    }
    Ok(())
}

// For each line what it is refused for, or that it is read.
const OPTIONS: &[u8] = b"\
read   window 1\n\
read   window 4611686018427387904\n\
number window 0\n\
number window 4611686018427387905\n\
word   window\n\
word   window 1 1\n\
read   patience 1\n\
read   patience 1000\n\
number patience 0\n\
number patience 1001\n\
word   patience\n\
word   patience 3 3\n\
read   seed 0\n\
read   seed 18446744073709551615\n\
number seed 18446744073709551616\n\
number seed -1\n\
read   swap 64\n\
read   swap 268435456\n\
number swap 63\n\
number swap 268435457\n\
read   limit 64\n\
read   limit 268435456\n\
number limit 63\n\
number limit 268435457\n\
read   quota 1\n\
read   quota 1048576\n\
number quota 0\n\
number quota 1048577\n\
word   Quota 1\n\
order  do apply\n\
unbuilt block 100\n\
unbuilt watches\n\
";

#[test]
fn options_beside_their_faults(rt: HostRuntime) -> Result<(), Fail> {
    assert_rows(
        &rt,
        rt.alloc(),
        b"storage 1\n",
        2,
        OPTIONS,
        b"own - ff\nlog\nlife 0\nclose\nend\n",
    )
}

// Each option behind all of them is one for the second time, whatever its words are.
#[test]
fn options_for_the_second_time(rt: HostRuntime) -> Result<(), Fail> {
    assert_rows(
        &rt,
        rt.alloc(),
        b"storage 1\nwindow 7\npatience 7\nseed 7\nown - ff\nswap 77\nlimit 77\nquota 7\n",
        9,
        b"order window 7\norder patience\norder seed 8\norder swap x\norder limit 77\norder quota 0\nread log\n",
        b"life 0\nclose\nend\n",
    )
}

// For each line what it is refused for, or that it is read.
const STEPS: &[u8] = b"\
read   do apply\n\
read   do apply 1000000\n\
number do apply 0\n\
number do apply 1000001\n\
word   do apply 1 1\n\
read   do began\n\
read   do began 1\n\
number do began 0\n\
word   do began 1 1\n\
read   do durable\n\
read   do durable 2\n\
number do durable x\n\
read   do flush\n\
read   do flush 1000000\n\
number do flush 1000001\n\
word   do flush 1 1\n\
word   do stop\n\
word   do stop 0\n\
word   do Flush\n\
unbuilt do start\n\
unbuilt do block 0 0\n\
";

#[test]
fn steps_beside_their_faults(rt: HostRuntime) -> Result<(), Fail> {
    assert_rows(&rt, rt.alloc(), LIFE, 5, STEPS, b"close\nend\n")
}

// For each line what it is refused for, or that it is read.
const ENDINGS: &[u8] = b"\
read   close\n\
word   close 0 0\n\
read   kill 0 0\n\
read   kill 9223372036854775807 18446744073709551615\n\
number kill 9223372036854775808 0\n\
number kill 0 18446744073709551616\n\
number kill -1 0\n\
word   kill\n\
word   kill x\n\
word   kill 0 0 0\n\
";

#[test]
fn endings_of_lives_beside_their_faults(rt: HostRuntime) -> Result<(), Fail> {
    assert_rows(&rt, rt.alloc(), LIFE, 5, ENDINGS, b"end\n")?;
    assert_rows(
        &rt,
        rt.alloc(),
        LIFE,
        5,
        ENDINGS,
        b"life 1\nlast get 61 @1\nclose\nend\n",
    )
}

// Lines 4 to 2003 are a thousand lives.
#[test]
fn more_lives_than_a_script_may_have(rt: HostRuntime) -> Result<(), Fail> {
    let mut full = HEAD.to_vec(rt.alloc())?;
    for _ in 0..500 {
        full.extend_from_slice(b"life 1\nclose\nlife 1\nkill 0 0\n")?;
    }
    let rows: [(&[u8], Kind); 4] = [
        (b"life 1\n", Kind::Limit),
        (b"life 0\n", Kind::Version),
        (b"life x\n", Kind::Number),
        (b"close\n", Kind::Order),
    ];
    for (text, kind) in rows {
        let mut script = full.clone()?;
        script.extend_from_slice(text)?;
        assert_refused(&rt, rt.alloc(), &script, 2004, kind);
    }
    full.extend_from_slice(b"end\n")?;
    assert!(rt; read(rt.alloc(), &full).is_ok());
    Ok(())
}

// For each line what it is refused for, or that it is read.
const MUTATIONS: &[u8] = b"\
read   clear - ff\n\
range  clear - ff00\n\
read   clear FE Ff\n\
range  clear ff ff\n\
read   clear 61 6100\n\
range  clear 61 61\n\
range  clear 62 61\n\
range  clear - -\n\
hex    clear 62 6\n\
hex    clear 6 61\n\
word   clear 61\n\
word   clear 61 62 63\n\
read   add 61 -\n\
word   add 61\n\
word   add 61 01 02\n\
key    add ff 0\n\
hex    xor 61 0\n\
hex    byte_min 6 01\n\
read   byte_max 61 01\n\
word   bytemax 61 01\n\
word   Max 61 01\n\
word   append 61\n\
read   compare_and_clear 61 31\n\
word   compare_and_clear 6\n\
order  last get 61 @1\n\
order  patience 3\n\
";

#[test]
fn mutations_beside_their_faults(rt: HostRuntime) -> Result<(), Fail> {
    assert_rows(
        &rt,
        rt.alloc(),
        b"storage 1\nown - ff\nlog\nbatch 1\n",
        5,
        MUTATIONS,
        b"life 1\nclose\nend\n",
    )
}

// For each line what it is refused for, or that it is read.
const RANGES: &[u8] = b"\
read   ask 1 range - ff 1 1 fwd @0\n\
number ask 1 range - ff 0 1 fwd @0\n\
number ask 1 range - ff 1 0 fwd @0\n\
read   ask 1 range - ff 10000 100000 rev @0\n\
number ask 1 range - ff 10001 100000 rev @0\n\
number ask 1 range - ff 10000 100001 rev @0\n\
read   ask 1 range - ff 00000000000000000001 1 fwd @0\n\
number ask 1 range - ff 000000000000000000001 1 fwd @0\n\
number ask 1 range - ff 18446744073709551617 1 fwd @0\n\
read   ask 1 range - ff 1 1 fwd @9223372036854775807\n\
number ask 1 range - ff 1 1 fwd @9223372036854775808\n\
word   ask 1 range - ff 1 1 fwd 0\n\
word   ask 0 range - ff 0 1 up @0\n\
word   ask 1 range - ff 1 1 FWD @0\n\
word   ask 1 range - ff 1 1 fwd\n\
word   ask 1 range - ff 1 1 fwd @0 @0\n\
number ask 0 range 6 ff 0 1 fwd @0\n\
hex    ask 1 range 6 ff 0 1 fwd @0\n\
hex    ask 1 range 61 6 0 1 fwd @0\n\
read   ask 1 range 61 6100 1 1 fwd @0\n\
range  ask 1 range 61 61 1 1 fwd @0\n\
range  ask 1 range 62 61 1 1 rev @0\n\
number ask 1 range 62 61 1 1 rev @x\n\
range  ask 1 range 61 ff00 1 1 fwd @0\n\
read   ask 64 range 61 ff 1 1 fwd @0\n\
number ask 65 range 61 ff00 1 1 fwd @0\n\
range  last range 62 61 1 1 fwd @0\n\
number last range 61 62 10001 1 fwd @0\n\
";

#[test]
fn ranges_beside_their_faults(rt: HostRuntime) -> Result<(), Fail> {
    assert_rows(&rt, rt.alloc(), LIFE, 5, RANGES, b"close\nend\n")
}

// For each line what it is refused for, or that it is read.
const SELECTORS: &[u8] = b"\
read   ask 1 key 61 eq 1000 - ff @0\n\
number ask 1 key 61 eq 1001 - ff @0\n\
read   ask 1 key 61 eq -1000 - ff @0\n\
number ask 1 key 61 eq -1001 - ff @0\n\
read   ask 1 key 61 ne -0 - ff @0\n\
number ask 1 key 61 ne - - ff @0\n\
number ask 1 key 61 ne +1 - ff @0\n\
number ask 1 key 61 ne --1 - ff @0\n\
number ask 1 key 61 ne 1- - ff @0\n\
read   ask 1 key 61 ne -00000000000000000001 - ff @0\n\
number ask 1 key 61 ne -000000000000000000001 - ff @0\n\
number ask 1 key 61 ne -18446744073709551616 - ff @0\n\
word   ask 1 key 61 le 1 - ff @0\n\
word   ask 1 key 61 EQ 1 - ff @0\n\
word   ask 1 key 61 eq 1 - ff 0\n\
word   ask 1 key 61 eq 1 - ff\n\
word   ask 1 key 61 eq 1 - ff @0 x\n\
word   ask 1 key\n\
read   ask 1 key 62 eq 0 62 63 @0\n\
range  ask 1 key 61ff eq 0 62 63 @0\n\
read   ask 1 key 63 eq 0 62 63 @0\n\
range  ask 1 key 6300 eq 0 62 63 @0\n\
range  ask 1 key 61 eq 0 61 61 @0\n\
range  ask 1 key 61 eq 0 - ff00 @0\n\
key    ask 1 key ff eq 0 - ff @0\n\
key    ask 1 key ff eq 1001 - ff @0\n\
hex    ask 1 key 6 eq 1001 - ff @0\n\
number ask 1 key 64 eq 1001 6 63 @0\n\
range  last key 64 eq 0 62 63 @0\n\
key    last get ff @0\n\
word   last get 61 0\n\
word   last 1 get 61 @0\n\
word   last watch 61 none\n\
word   last\n\
";

#[test]
fn selectors_beside_their_faults(rt: HostRuntime) -> Result<(), Fail> {
    assert_rows(&rt, rt.alloc(), LIFE, 5, SELECTORS, b"close\nend\n")
}

// The end of a range may have one byte more than a key.
#[test]
fn long_keys_and_ends(rt: HostRuntime) -> Result<(), Fail> {
    let rows: [(usize, usize, Option<Kind>); 4] = [
        (10_000, 10_001, None),
        (10_001, 10_001, Some(Kind::Key)),
        (10_000, 10_002, Some(Kind::Range)),
        (10_001, 10_002, Some(Kind::Key)),
    ];
    for (key_len, end_len, refusal) in rows {
        let mut line = b"ask 1 key ".to_vec(rt.alloc())?;
        line.extend_from_slice(&long_word(rt.alloc(), key_len)?)?;
        line.extend_from_slice(b" eq 0 - ")?;
        line.extend_from_slice(&long_word(rt.alloc(), end_len)?)?;
        line.extend_from_slice(b" @0")?;
        assert_line(&rt, rt.alloc(), LIFE, 5, &line, b"close\nend\n", refusal)?;
    }
    Ok(())
}

// Lines 5 to 1004 ask for 10,000 rows each.
#[test]
fn more_rows_than_a_script_may_ask_for(rt: HostRuntime) -> Result<(), Fail> {
    let mut full = HEAD.to_vec(rt.alloc())?;
    full.extend_from_slice(b"life 1\nlast range - ff 10000 1 fwd @1\n")?;
    for _ in 0..999 {
        full.extend_from_slice(b"ask 1 range - ff 10000 1 rev @1\n")?;
    }
    let rows: [(&[u8], Kind); 5] = [
        (b"ask 1 range - ff 1 1 rev @1\n", Kind::Limit),
        (b"last range - ff 1 1 fwd @1\n", Kind::Limit),
        (b"ask 1 range ff - 1 1 fwd @1\n", Kind::Range),
        (b"ask 65 range - ff 1 1 fwd @1\n", Kind::Number),
        (b"log\n", Kind::Order),
    ];
    for (text, kind) in rows {
        let mut script = full.clone()?;
        script.extend_from_slice(text)?;
        assert_refused(&rt, rt.alloc(), &script, 1005, kind);
    }
    full.extend_from_slice(b"ask 1 get 61 @1\nclose\nend\n")?;
    assert!(rt; read(rt.alloc(), &full).is_ok());
    Ok(())
}

#[test]
fn long_words_and_lines(rt: HostRuntime) -> Result<(), Fail> {
    let rows: [(usize, usize, Option<Kind>); 4] = [
        (10_000, 100_000, None),
        (10_001, 100_000, Some(Kind::Key)),
        (10_000, 100_001, Some(Kind::Value)),
        (10_001, 100_001, Some(Kind::Key)),
    ];
    for (key_len, value_len, refusal) in rows {
        let mut script = HEAD.to_vec(rt.alloc())?;
        script.extend_from_slice(b"batch 1\nset ")?;
        script.extend_from_slice(&long_word(rt.alloc(), key_len)?)?;
        script.push(b' ')?;
        script.extend_from_slice(&long_word(rt.alloc(), value_len)?)?;
        script.extend_from_slice(b"\nlife 1\nclose\nend\n")?;
        match refusal {
            Some(kind) => assert_refused(&rt, rt.alloc(), &script, 5, kind),
            None => assert!(rt; read(rt.alloc(), &script).is_ok()),
        }
    }
    let megabyte = long_word(rt.alloc(), 524_288)?;
    let mut script = HEAD.to_vec(rt.alloc())?;
    script.push(b'#')?;
    script.extend_from_slice(&megabyte)?;
    script.push(b'\n')?;
    assert_refused(&rt, rt.alloc(), &script, 5, Kind::End);
    script.extend_from_slice(&megabyte)?;
    assert_refused(&rt, rt.alloc(), &script, 5, Kind::Word);
    Ok(())
}

#[test]
fn more_bytes_than_a_script_may_have(rt: HostRuntime) -> Result<(), Fail> {
    let mut script = vec![in rt.alloc(); b'#'; MAX_BYTES]?;
    assert_refused(&rt, rt.alloc(), &script, 2, Kind::End);
    script.push(b'\n')?;
    assert_refused(&rt, rt.alloc(), &script, 0, Kind::Long);
    Ok(())
}

#[test]
fn scripts_that_are_read(rt: HostRuntime) -> Result<(), Fail> {
    let rows: [(&[u8], (usize, u64, usize, usize)); 5] = [
        (
            b"storage 1\nown - ff\nlog\nbatch 1\nset 61 31\nlife 1\nask 1 get 61 @1\ndo apply\ndo poll 1\nclose\nend\n",
            (1, 1, 1, 2),
        ),
        (
            b"storage 1\nown - ff\nlog\nlife 0\nask 1 get 61 @1\nclose\nend",
            (0, 0, 1, 0),
        ),
        (
            b"# a comment \xff\n\n  storage   1  \n # another\nown - Ff\n log\nbatch 007\nset 6A -\nset 6b 4F\nbatch 8\nlife 9223372036854775807\ndo poll 64 1000000\nask 64 get - @0\nclose\n\nend\n# after it\n ",
            (2, 9_223_372_036_854_775_807, 1, 1),
        ),
        (
            b"storage 1\nown - ff\nlog\nbatch 00000000000000000001\nbatch 5000000\nlife 5000000\nask 1 get 61 @1\nask 2 get 62 @2\ndo apply 2\nclose\nend\n",
            (2, 5_000_000, 2, 1),
        ),
        (
            b"storage 1\npatience 1000\nown - ff\nlog\nbatch 1\nclear 61 62\nadd 61 01\nand 61 01\nor 61 01\nxor 61 01\nmax 61 01\nmin 61 01\nbyte_min 61 01\nbyte_max 61 01\nappend 61 01\ncompare_and_clear 61 01\nlife 1\nlast get 61 @1\nask 1 range - ff 1 1 fwd @1\nask 1 key 61 ne -1 - ff @1\nclose\nend\n",
            (1, 1, 2, 0),
        ),
    ];
    for (text, expected) in rows {
        let script = read(rt.alloc(), text)
            .ok()
            .ok_or("a script that is refused")?;
        assert_eq!(rt; counts(&script), Some(expected));
    }
    Ok(())
}

const SETTINGS: Settings = Settings {
    window: 11,
    patience: 12,
    seed: 13,
    swap: 114,
    limit: 115,
    quota: 16,
    block: 100,
    watches: 10_000,
};

#[test]
fn options_in_any_order(rt: HostRuntime) -> Result<(), Fail> {
    let script = read(
        rt.alloc(),
        b"storage 1\nquota 16\nlimit 115\nown - ff\nswap 114\nseed 13\npatience 12\nwindow 11\nlog\nlife 0\nclose\nend\n",
    )
    .ok()
    .ok_or("a script that is refused")?;
    assert!(rt; script.settings == SETTINGS);
    let script = read(
        rt.alloc(),
        b"storage 1\nown - ff\nlog\nlife 0\nclose\nend\n",
    )
    .ok()
    .ok_or("a script that is refused")?;
    assert_eq!(rt; script.settings.window, 5_000_000);
    assert_eq!(rt; script.settings.seed, 1);
    assert_eq!(rt; script.settings.quota, 4_096);
    Ok(())
}

const STEPS_TAKEN: [(Do, u64); 5] = [
    (Do::Act(Act::Apply), 1),
    (Do::Act(Act::Began), 1),
    (Do::Act(Act::Durable), 2),
    (Do::Flush, 3),
    (Do::Poll(4), 5),
];

// A life's bound, how many requests are asked by its readers and at its end, and its kill.
fn ending(life: &LifePlan) -> (u64, usize, usize, Option<(u64, u64)>) {
    (life.upto, life.asks.len(), life.lasts.len(), life.kill)
}

#[test]
fn lives_that_close_and_are_killed(rt: HostRuntime) -> Result<(), Fail> {
    let script = read(
        rt.alloc(),
        b"storage 1\nown - ff\nlog\nbatch 9223372036854775807\nlife 3\nask 1 get 61 @3\ndo apply\ndo began\ndo durable 2\ndo flush 3\ndo poll 4 5\nkill 6 7\nlife 3\nlast get 61 @3\nclose\nlife 4\nkill 0 18446744073709551615\nend\n",
    )
    .ok()
    .ok_or("a script that is refused")?;
    let [first, second, third] = script.lives.as_slice() else {
        return Err("another number of lives".into());
    };
    assert!(rt; first.dos.as_slice() == STEPS_TAKEN.as_slice());
    assert_eq!(rt; ending(first), (3, 1, 0, Some((6, 7))));
    assert_eq!(rt; ending(second), (3, 0, 1, None));
    assert_eq!(rt; ending(third), (4, 0, 0, Some((0, u64::MAX))));
    Ok(())
}
