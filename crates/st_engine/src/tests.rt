ghost use Rattle.std.specs.Prelude.{◌≡◌, ◌≤◌, ◌<◌, ◌^◌, IfOk, IsTrue, length};
ghost use Rattle.std.specs.List.{AllByRecursion, list_all};
ghost use Rattle.st_ops.specs.Grammar.{Fits, is_change};
ghost use Rattle.st_queue.specs.Frames.{is_payload};

use super::*;
use bytes::Bytes;
use rand_core::SeedableRng;
use rand_core::utils::NextWord;
use rand_pcg::Pcg32;
use st_disk::{CrashDisk, Disk, Failing, Fused, Memory};
use st_fold::{PlainMap, Settings};
use st_key::{Key, Range, Value};
use st_mutation::Mutation;
use st_num::take_u64;
use st_ops::Op;
use st_ptree::{PTree, Steps};
use st_queue::Queue;
use std::alloc::{AllocError, Global};
use std::marker::Brand;
use std::sync::ledger::{Blank, Ledger};
use std::test::Fail;

const LIMIT: u64 = 1 << 20;

// An engine over the disk, whose file of `swap` bytes is left for the other one, and whose files may have `limit` bytes.
fn mount_by<D: Disk>(
    alloc: Global,
    disk: D,
    swap: u64,
    limit: u64,
    quota: u64,
) -> Result<Engine<D>, EngineMount<D>>
    requires swap { swap ≤ 2 ^ 30 }
    requires limit { limit ≤ 2 ^ 30 }
{
    let settings = Settings {
        window: 1,
        patience: 1,
        seed: 1,
        swap,
        limit,
        quota,
        block: 1,
        watches: 1,
    };
    Engine::mount(alloc, disk, &settings)
}

fn mount<D: Disk + Drop>(alloc: Global, disk: D) -> Result<Engine<D>, EngineRefusal> {
    mount_by(alloc, disk, LIMIT, LIMIT, 1).map_err(|refused| refused.why)
}

fn set_bytes(alloc: Global, key: &[u8], value: &[u8]) -> Result<Op, AllocError>
    requires key { length key.now < 2 ^ 32 }
    requires value { length value.now < 2 ^ 32 }
    ensures { IfOk result (λ op. IsTrue (is_change op) × Fits op) }
{
    Ok(Op::Set(
        Bytes::copy_from_slice(alloc, key)?,
        Bytes::copy_from_slice(alloc, value)?,
    ))
}

fn set(alloc: Global, key: u8, value: u8) -> Result<Op, AllocError>
    ensures { IfOk result (λ op. IsTrue (is_change op) × Fits op) }
{
    set_bytes(alloc, &[key], &[value])
}

fn clear(alloc: Global, begin: u8, end: u8) -> Result<Op, AllocError>
    requires { begin < end }
    ensures { IfOk result (λ op. IsTrue (is_change op) × Fits op) }
{
    Ok(Op::Clear(
        Bytes::copy_from_slice(alloc, &[begin])?,
        Bytes::copy_from_slice(alloc, &[end])?,
    ))
}

// The value of a key, where it has one byte.
fn value_of<L: Ledger>(pairs: &PTree<Bytes>, key: u8, steps: &mut Steps<L>) -> Option<u8> {
    match pairs.get(&[key], steps) {
        Some(value) => value.as_slice().first().copied(),
        None => None,
    }
}

fn listed_in<L: Ledger>(
    alloc: Global,
    pairs: &PTree<Bytes>,
    blank: Blank,
) -> Result<Vec<(u8, u8)>, AllocError>
    requires name { blank.name ≡ L.name }
    requires parts { blank.parts ≡ L.parts }
    requires some { 0 < blank.parts }
{
    let mut steps = Steps::<L>::new(blank);
    let mut list = Vec::new(alloc);
    for key in 0x60..0x80 {
        if let Some(value) = value_of(pairs, key, &mut steps) {
            list.push((key, value))?;
        }
    }
    Ok(list)
}

// The pairs of a map whose keys are one byte from 60 on, below 80.
fn listed(alloc: Global, pairs: &PTree<Bytes>) -> Result<Vec<(u8, u8)>, AllocError> {
    listed_in::<Brand>(alloc, pairs, Blank::new(1))
}

// The map of an engine.
fn map_of<D: Disk>(alloc: Global, engine: &Engine<D>) -> Result<Vec<(u8, u8)>, AllocError> {
    listed(alloc, &engine.pairs()?)
}

// Commits a set, and answers the map that was told.
fn commit_set<D: Disk>(
    alloc: Global,
    engine: &mut Engine<D>,
    key: u8,
    value: u8,
) -> Result<Vec<(u8, u8)>, EngineRefusal> {
    let ops = vec![in alloc; set(alloc, key, value)?]?;
    Ok(listed(alloc, &engine.commit(&ops)?)?)
}

// Commits a clear, and answers the map that was told.
fn commit_clear<D: Disk>(
    alloc: Global,
    engine: &mut Engine<D>,
    begin: u8,
    end: u8,
) -> Result<Vec<(u8, u8)>, EngineRefusal>
    requires { begin < end }
{
    let ops = vec![in alloc; clear(alloc, begin, end)?]?;
    Ok(listed(alloc, &engine.commit(&ops)?)?)
}

// A file of the one frame that sets 61 to 31. Behind the set stand the snapshot's one item and its end.
const ONE_SET: [u8; 66] = [
    0x01, 0x53, 0x54, 0x4f, 0x52, 0x51, 0x55, 0x45, 0x01, 0x00, 0x00, 0x00, 0x01, 0x00, 0x00, 0x00,
    0x00, 0x00, 0x00, 0x00, 0x00, 0x00, 0x00, 0x00, 0x00, 0x00, 0x00, 0x00, 0x01, 0x18, 0x00, 0x00,
    0x00, 0x00, 0x00, 0x00, 0x00, 0x00, 0x00, 0x00, 0x00, 0x01, 0x01, 0x00, 0x00, 0x00, 0x01, 0x00,
    0x00, 0x00, 0x61, 0x31, 0x03, 0x01, 0x00, 0x00, 0x00, 0x01, 0x00, 0x00, 0x00, 0x61, 0x31, 0x04,
    0x05, 0x00,
];

// The mount makes two writes and syncs, and the commit ten: the next one fails.
#[test]
fn a_first_commit_writes_one_frame(rt: HostRuntime) -> Result<(), Fail> {
    let alloc = rt.alloc();
    let mut engine = mount(alloc, Fused::new(Memory::new(alloc), Some(12)))?;
    assert!(rt; engine.is_fresh());
    assert_eq!(rt; map_of(alloc, &engine)?.len(), 0);
    let told = commit_set(alloc, &mut engine, 0x61, 0x31)?;
    assert_eq!(rt; told.as_slice(), [(0x61, 0x31)].as_slice());
    assert!(rt; !engine.is_fresh());
    let mut disk = engine.dismount();
    assert!(rt; disk.sync(0).is_err());
    let disk = disk.into_inner();
    assert_eq!(rt; disk.bytes(0), ONE_SET.as_slice());
    assert_eq!(rt; disk.bytes(1).len(), 0);
    let engine = mount(alloc, disk)?;
    assert!(rt; !engine.is_fresh());
    assert_eq!(rt;
        map_of(alloc, &engine)?.as_slice(),
        [(0x61, 0x31)].as_slice()
    );
    Ok(())
}

// A file of one frame with the set alone, in which no snapshot ends.
const NO_SNAPSHOT: [u8; 54] = [
    0x01, 0x53, 0x54, 0x4f, 0x52, 0x51, 0x55, 0x45, 0x01, 0x00, 0x00, 0x00, 0x01, 0x00, 0x00, 0x00,
    0x00, 0x00, 0x00, 0x00, 0x00, 0x00, 0x00, 0x00, 0x00, 0x00, 0x00, 0x00, 0x01, 0x0c, 0x00, 0x00,
    0x00, 0x00, 0x00, 0x00, 0x00, 0x00, 0x00, 0x00, 0x00, 0x01, 0x01, 0x00, 0x00, 0x00, 0x01, 0x00,
    0x00, 0x00, 0x61, 0x31, 0x05, 0x00,
];

#[test]
fn a_file_without_a_snapshot_is_mounted(rt: HostRuntime) -> Result<(), Fail> {
    let alloc = rt.alloc();
    let disk = Memory::with(alloc, NO_SNAPSHOT.to_vec(alloc)?, Vec::new(alloc));
    let engine = mount(alloc, disk)?;
    assert!(rt; !engine.is_fresh());
    assert_eq!(rt;
        map_of(alloc, &engine)?.as_slice(),
        [(0x61, 0x31)].as_slice()
    );
    Ok(())
}

// Whether a commit was done. It may have met a stopped disk, and nothing else.
fn is_done<T: Drop>(answer: Result<T, EngineRefusal>) -> Result<bool, EngineRefusal> {
    match answer {
        Ok(_) => Ok(true),
        Err(EngineRefusal::DiskFault { faults: 1 }) => Ok(false),
        Err(refusal) => Err(refusal),
    }
}

// Sets 61 to 31, and then clears it, where so many writes and syncs pass, two of the mount among them.
fn set_and_clear(alloc: Global, passes: u64) -> Result<Memory, Fail> {
    let mut engine = mount(alloc, Fused::new(Memory::new(alloc), Some(passes)))?;
    if is_done(commit_set(alloc, &mut engine, 0x61, 0x31))? {
        is_done(commit_clear(alloc, &mut engine, 0x61, 0x62))?;
    }
    Ok(engine.dismount().into_inner())
}

// Whether the map that a restart leaves has the pair. It has no other one.
fn has_pair_left(alloc: Global, mut disk: Memory, choice: u64) -> Result<bool, Fail> {
    disk.restart(choice)?;
    let left = map_of(alloc, &mount(alloc, disk)?)?;
    if left.is_empty() {
        return Ok(false);
    }
    if left.as_slice() == [(0x61, 0x31)].as_slice() {
        return Ok(true);
    }
    Err(Fail::new("another map"))
}

#[test]
fn a_clear_is_done_or_not(rt: HostRuntime) -> Result<(), Fail> {
    let alloc = rt.alloc();
    for calls in 0..15 {
        for choice in 0..10 {
            let disk = set_and_clear(alloc, calls + 2)?;
            let has_pair = has_pair_left(alloc, disk, choice)?;
            // The ninth call opens the first frame's gate, the thirteenth the second's, and the next one syncs it.
            let want = match (calls, choice) {
                (9, 0) | (13, 1) => false,
                (9, 1) | (13, 0) => true,
                (9 | 13, _) => has_pair,
                _ => 9 < calls && calls < 13,
            };
            assert_eq!(rt; has_pair, want, "{calls} {choice}");
        }
    }
    Ok(())
}

// What the commits of a run are drawn by, the settings of its engine, and how many commits it has.
#[derive(Clone, Copy)]
struct Run {
    seed: u64,
    swap: u16,
    quota: u8,
    commits: u64,
}

fn mount_run<D: Disk + Drop>(alloc: Global, disk: D, run: Run) -> Result<Engine<D>, EngineRefusal> {
    mount_by(
        alloc,
        disk,
        u64::from(run.swap),
        LIMIT,
        u64::from(run.quota),
    )
    .map_err(|refused| refused.why)
}

// A set or a clear over twelve keys.
fn draw(alloc: Global, words: &mut Pcg32) -> Result<Op, AllocError>
    ensures { IfOk result (λ op. IsTrue (is_change op) × Fits op) }
{
    let key = 0x61 + (words.next_word() % 12) as u8;
    let word = words.next_word();
    if word % 3 == 0 {
        return clear(alloc, key, key + 1 + (word / 3 % 4) as u8);
    }
    set(alloc, key, (word / 256 % 256) as u8)
}

// The operations of a commit, one to four.
fn draw_commit(alloc: Global, words: &mut Pcg32) -> Result<Vec<Op>, AllocError>
    ensures changes { IfOk result (λ ops. IsTrue (list_all is_change ops.items)) }
    ensures fits { IfOk result (λ ops. AllByRecursion Fits ops.items) }
{
    let mut ops = Vec::new(alloc);
    for _ in 0..1 + words.next_word() % 4 {
        ops.push(draw(alloc, words)?)?;
    }
    Ok(ops)
}

// Makes so many commits that the words give, and answers how many of them were done before the disk stopped.
fn commit_drawn<D: Disk>(
    alloc: Global,
    engine: &mut Engine<D>,
    words: &mut Pcg32,
    commits: u64,
) -> Result<u64, Fail> {
    let mut done = 0u64;
    for _ in 0..commits {
        let ops = draw_commit(alloc, words)?;
        if !is_done(engine.commit(&ops))? {
            break;
        }
        done = done.wrapping_add(1);
    }
    Ok(done)
}

// The files of a disk after so many commits of a run.
#[derive(Drop)]
struct Begun {
    zero: Vec<u8>,
    one: Vec<u8>,
    commits: u64,
}

// The words of a run behind so many commits.
fn words_behind(alloc: Global, run: Run, commits: u64) -> Result<Pcg32, AllocError> {
    let mut words = Pcg32::seed_from_u64(run.seed);
    for _ in 0..commits {
        draw_commit(alloc, &mut words)?;
    }
    Ok(words)
}

fn begin(alloc: Global, run: Run, commits: u64) -> Result<Begun, Fail> {
    let mut words = Pcg32::seed_from_u64(run.seed);
    let mut engine = mount_run(alloc, Memory::new(alloc), run)?;
    let commits = commit_drawn(alloc, &mut engine, &mut words, commits)?;
    let disk = engine.dismount();
    Ok(Begun {
        zero: disk.bytes(0).to_vec(alloc)?,
        one: disk.bytes(1).to_vec(alloc)?,
        commits,
    })
}

// The disk after so many further writes and syncs of the run, two of a mount among them, and how many of its commits were done.
fn stopped(alloc: Global, run: Run, begun: &Begun, passes: u64) -> Result<(Memory, u64), Fail> {
    let mut words = words_behind(alloc, run, begun.commits)?;
    let (zero, one) = (begun.zero.as_slice(), begun.one.as_slice());
    let disk = Memory::with(alloc, zero.to_vec(alloc)?, one.to_vec(alloc)?);
    let mut engine = mount_run(alloc, Fused::new(disk, Some(passes)), run)?;
    let rest = run.commits.saturating_sub(begun.commits);
    let done = commit_drawn(alloc, &mut engine, &mut words, rest)?;
    Ok((
        engine.dismount().into_inner(),
        begun.commits.saturating_add(done),
    ))
}

fn mutation_of(alloc: Global, op: &Op) -> Result<Mutation, Fail> {
    match op {
        Op::Set(key, value) => Ok(Mutation::Set(
            Key::read(alloc, key.as_slice())?,
            Value::read(alloc, value.as_slice())?,
        )),
        Op::Clear(begin, end) => Ok(Mutation::Clear(Range::new(
            Key::end(alloc, begin.as_slice())?,
            Key::end(alloc, end.as_slice())?,
        )?)),
        _ => Err(Fail::new("neither a set nor a clear")),
    }
}

// Changes the plain map by so many commits that the words give.
fn apply_drawn(
    alloc: Global,
    map: &mut PlainMap,
    words: &mut Pcg32,
    commits: u64,
) -> Result<(), Fail> {
    for _ in 0..commits {
        for op in &draw_commit(alloc, words)? {
            map.apply(&mutation_of(alloc, op)?)?;
        }
    }
    Ok(())
}

// The words of the commits that follow a stop.
fn later_words(run: Run) -> Pcg32 {
    Pcg32::seed_from_u64(run.seed.wrapping_add(1000))
}

// The pairs of the plain map after so many commits of a run, and so many that follow a stop there.
fn plainly(alloc: Global, run: Run, commits: u64, later: u64) -> Result<Vec<(u8, u8)>, Fail> {
    let mut map = PlainMap::new(alloc);
    apply_drawn(
        alloc,
        &mut map,
        &mut Pcg32::seed_from_u64(run.seed),
        commits,
    )?;
    apply_drawn(alloc, &mut map, &mut later_words(run), later)?;
    let mut list = Vec::new(alloc);
    for key in 0x60..0x80 {
        if let Some(value) = map.get(&[key]) {
            list.push((key, value.first().copied().unwrap_or(0)))?;
        }
    }
    Ok(list)
}

// How many commits follow a stop.
const LATER: u64 = 4;

// A map, and what there is after the commits that follow a stop.
#[derive(Drop)]
struct Maps {
    map: Vec<(u8, u8)>,
    later: Vec<(u8, u8)>,
}

impl Maps {
    fn is(&self, other: &Maps) -> bool {
        self.map.as_slice() == other.map.as_slice()
            && self.later.as_slice() == other.later.as_slice()
    }
}

// What a run is to leave after so many commits.
fn wanted(alloc: Global, run: Run, commits: u64) -> Result<Maps, Fail> {
    Ok(Maps {
        map: plainly(alloc, run, commits, 0)?,
        later: plainly(alloc, run, commits, LATER)?,
    })
}

// Mounts a disk, makes the commits that follow a stop, and mounts it again.
fn go_on(alloc: Global, run: Run, disk: Memory) -> Result<Maps, Fail> {
    let mut engine = mount_run(alloc, disk, run)?;
    let map = map_of(alloc, &engine)?;
    let done = commit_drawn(alloc, &mut engine, &mut later_words(run), LATER)?;
    if done != LATER {
        return Err(Fail::new("a commit that follows was not done"));
    }
    let later = map_of(alloc, &mount_run(alloc, engine.dismount(), run)?)?;
    Ok(Maps { map, later })
}

// What a restart leaves after so many writes and syncs of a run.
fn left(alloc: Global, run: Run, begun: &Begun, passes: u64, choice: u64) -> Result<Maps, Fail> {
    let (mut disk, _) = stopped(alloc, run, begun, passes)?;
    disk.restart(choice)?;
    go_on(alloc, run, disk)
}

// Whether a restart leaves what it has to after so many writes and syncs, where these are wanted before and behind the frame
// whose gate the last of them opened. The gate isn't synced, and the choice decides. Where they opened none, both are the same.
fn leaves_its_map(left: &Maps, before: &Maps, behind: &Maps, choice: u64) -> bool {
    match choice {
        0 => left.is(before),
        1 => left.is(behind),
        _ => left.is(before) || left.is(behind),
    }
}

// How many restarts, one by each choice below this one, leave what they have to. Where a gate was opened last, one more commit
// is done with one more call.
fn count_left(
    alloc: Global,
    run: Run,
    begun: &Begun,
    passes: u64,
    choices: u64,
) -> Result<u64, Fail> {
    let (_, done) = stopped(alloc, run, begun, passes)?;
    let (_, next) = stopped(alloc, run, begun, passes.saturating_add(1))?;
    let before = wanted(alloc, run, done)?;
    let behind = wanted(alloc, run, next)?;
    let mut count = 0u64;
    for choice in 0..choices {
        let left = left(alloc, run, begun, passes, choice)?;
        if leaves_its_map(&left, &before, &behind, choice) {
            count = count.wrapping_add(1);
        }
    }
    Ok(count)
}

// The first commit makes ten calls, and each later one four.
#[test]
fn each_stop_leaves_the_map_before_or_behind_a_commit(rt: HostRuntime) -> Result<(), Fail> {
    let alloc = rt.alloc();
    let run = Run {
        seed: 7,
        swap: 60_000,
        quota: 1,
        commits: 10,
    };
    let begun = begin(alloc, run, 0)?;
    for calls in 0..47 {
        let (_, done) = stopped(alloc, run, &begun, calls + 2)?;
        let want = if calls < 10 { 0 } else { (calls - 6) / 4 };
        assert_eq!(rt; done, want, "{calls} calls");
        let count = count_left(alloc, run, &begun, calls + 2, 4)?;
        assert_eq!(rt; count, 4, "{calls} calls");
    }
    Ok(())
}

// A run of forty commits, whose settings are drawn too.
fn draw_run(seed: u64) -> Run {
    let mut words = Pcg32::seed_from_u64(seed);
    Run {
        seed,
        swap: 64 + (words.next_word() % 337) as u16,
        quota: 1 + (words.next_word() % 64) as u8,
        commits: 40,
    }
}

// Behind how many of a run's last eight commits' calls each restart leaves what it has to.
fn count_stops(alloc: Global, run: Run) -> Result<u64, Fail> {
    let begun = begin(alloc, run, 32)?;
    let mut stops = 0u64;
    for passes in 3..83 {
        if count_left(alloc, run, &begun, passes, 8)? != 8 {
            return Err(Fail::new("another map"));
        }
        stops = stops.wrapping_add(1);
        let (_, done) = stopped(alloc, run, &begun, passes)?;
        if done == run.commits {
            return Ok(stops);
        }
    }
    Err(Fail::new("the last commit was not done"))
}

// How many calls the last eight commits of each run make: four, and six more where a file is begun. Each restart is mounted,
// and mounted again after four more commits.
const CALLS: [(u64, u64); 4] = [(1, 44), (2, 50), (3, 74), (4, 68)];

#[test]
fn each_stop_among_turning_files_leaves_its_map(rt: HostRuntime) -> Result<(), Fail> {
    let alloc = rt.alloc();
    let mut mounts = 0u64;
    for (seed, calls) in CALLS {
        let stops = count_stops(alloc, draw_run(seed))?;
        assert_eq!(rt; stops, calls, "{seed}");
        mounts = mounts.wrapping_add(stops.wrapping_mul(16));
    }
    println!(rt; "{mounts} mounts")?;
    assert_eq!(rt; mounts, 3776);
    Ok(())
}

// Appends a payload, to a new file where one is due.
fn append<D: Disk>(queue: &mut Queue<D>, payload: &[u8]) -> Result<u64, EngineRefusal>
    requires { IsTrue (is_payload payload.now) }
{
    if queue.due() {
        queue.recycle()?;
        queue.enter_next()?;
        return queue.append(payload);
    }
    queue.append(payload)
}

// b = 2 and d = 4.
const SETS: [u8; 23] = [
    1, 1, 0, 0, 0, 1, 0, 0, 0, b'b', 2, 1, 1, 0, 0, 0, 1, 0, 0, 0, b'd', 4, 5,
];

// The item a = 1.
const FIRST_ITEM: [u8; 12] = [3, 1, 0, 0, 0, 1, 0, 0, 0, b'a', 1, 5];

// The item c = 3, and the snapshot's end.
const LAST_ITEM: [u8; 13] = [3, 1, 0, 0, 0, 1, 0, 0, 0, b'c', 3, 4, 5];

// A disk of so many of five frames.
fn snapshots(alloc: Global, count: u8) -> Result<Memory, EngineRefusal> {
    let (mut queue, _) = Queue::mount(alloc, Memory::new(alloc), LIMIT, LIMIT).map_err(|e| e.why)?;
    if count > 0 {
        append(&mut queue, &SETS)?;
    }
    if count > 1 {
        append(&mut queue, &FIRST_ITEM)?;
    }
    if count > 2 {
        append(&mut queue, &LAST_ITEM)?;
    }
    // A second snapshot, whose one item clears from the least key on.
    if count > 3 {
        append(&mut queue, &LAST_ITEM)?;
    }
    // A third one, of no item.
    if count > 4 {
        append(&mut queue, &[4, 5])?;
    }
    Ok(queue.dismount())
}

#[test]
fn a_snapshot_is_recovered(rt: HostRuntime) -> Result<(), Fail> {
    let alloc = rt.alloc();
    let rows: [&[(u8, u8)]; 6] = [
        &[],
        &[(b'b', 2), (b'd', 4)],
        &[(b'a', 1), (b'b', 2), (b'd', 4)],
        &[(b'a', 1), (b'c', 3)],
        &[(b'c', 3)],
        &[],
    ];
    for (count, want) in rows.iter().enumerate() {
        let engine = mount(alloc, snapshots(alloc, count as u8)?)?;
        assert_eq!(rt; map_of(alloc, &engine)?.as_slice(), *want, "{count}");
        assert_eq!(rt; engine.is_fresh(), count == 0, "{count}");
    }
    Ok(())
}

// The frame of a set would end at 66 in an empty file, and at 81 behind one of no operation, which ends at 44.
#[test]
fn a_commit_past_the_limit_changes_nothing(rt: HostRuntime) -> Result<(), Fail> {
    let alloc = rt.alloc();
    let mut engine = mount_by(alloc, Memory::new(alloc), LIMIT, 65, 1).map_err(|e| e.why)?;
    let full = EngineRefusal::Full {
        length: 66,
        limit: 65,
    };
    assert_eq!(rt; commit_set(alloc, &mut engine, 0x61, 0x31), Err(full));
    assert!(rt; engine.is_fresh());
    assert_eq!(rt; map_of(alloc, &engine)?.len(), 0);
    engine.commit(&[])?;
    assert!(rt; !engine.is_fresh());
    let full = EngineRefusal::Full {
        length: 81,
        limit: 65,
    };
    assert_eq!(rt; commit_set(alloc, &mut engine, 0x61, 0x31), Err(full));
    assert_eq!(rt; map_of(alloc, &engine)?.len(), 0);
    Ok(())
}

// The mount and the first commit make twelve calls.
#[test]
fn an_engine_is_broken_after_a_fault(rt: HostRuntime) -> Result<(), Fail> {
    let alloc = rt.alloc();
    for passes in 2..16 {
        let mut engine = mount(alloc, Fused::new(Memory::new(alloc), Some(passes)))?;
        let first = commit_set(alloc, &mut engine, 0x61, 0x31);
        let kept: &[(u8, u8)] = if passes < 12 { &[] } else { &[(0x61, 0x31)] };
        let fault = Err(EngineRefusal::DiskFault { faults: 1 });
        if passes < 12 {
            assert_eq!(rt; first, fault, "{passes}");
        } else {
            first?;
            let second = commit_clear(alloc, &mut engine, 0x61, 0x62);
            assert_eq!(rt; second, fault, "{passes}");
        }
        let broken = Err(EngineRefusal::Broken { faults: 1 });
        for _ in 0..2 {
            let next = commit_set(alloc, &mut engine, 0x62, 0x32);
            assert_eq!(rt; next, broken, "{passes}");
        }
        assert_eq!(rt; map_of(alloc, &engine)?.as_slice(), kept, "{passes}");
        assert_eq!(rt; engine.is_fresh(), passes < 12, "{passes}");
    }
    Ok(())
}

// The refusal of a mount of these files. It hands them back.
fn refusal_of(alloc: Global, zero: &[u8], one: &[u8]) -> Result<EngineRefusal, Fail> {
    let disk = Memory::with(alloc, zero.to_vec(alloc)?, one.to_vec(alloc)?);
    match mount_by(alloc, disk, LIMIT, LIMIT, 1) {
        Ok(_) => Err(Fail::new("it was mounted")),
        Err(refused) => {
            if refused.disk.bytes(0) != zero || refused.disk.bytes(1) != one {
                return Err(Fail::new("another disk"));
            }
            Ok(refused.why)
        }
    }
}

#[test]
fn a_damaged_disk_is_handed_back(rt: HostRuntime) -> Result<(), Fail> {
    let mut bytes = ONE_SET;
    bytes[7] = 0x46;
    let damaged = EngineRefusal::Damaged { file: 0, at: 1 };
    assert_eq!(rt; refusal_of(rt.alloc(), &bytes, &[])?, damaged);
    Ok(())
}

// One range, from the empty key to ff.
const RANGES: [u8; 13] = [1, 0, 0, 0, 0, 0, 0, 0, 1, 0, 0, 0, 0xff];

// The sets of a commit: of 60, where a value is given; of 61, to the version's digit; and of three keys that a server stores.
fn stored(alloc: Global, value: Option<&[u8; 300]>, version: u8) -> Result<Vec<Op>, AllocError>
    requires { version < 10 }
    ensures changes { IfOk result (λ ops. IsTrue (list_all is_change ops.items)) }
    ensures fits { IfOk result (λ ops. AllByRecursion Fits ops.items) }
{
    let mut ops = Vec::new(alloc);
    if let Some(value) = value {
        ops.push(set_bytes(alloc, &[0x60], value)?)?;
    }
    ops.push(set(alloc, 0x61, 0x30 + version)?)?;
    ops.push(set_bytes(alloc, b"\xff\xff/assigned", &RANGES)?)?;
    ops.push(set_bytes(alloc, b"\xff\xff/available", &RANGES)?)?;
    let bytes = [version, 0, 0, 0, 0, 0, 0, 0];
    ops.push(set_bytes(alloc, b"\xff\xff/version", &bytes)?)?;
    Ok(ops)
}

// The first file after the first such commit.
fn first_file(alloc: Global) -> Result<Vec<u8>, Fail> {
    let mut engine = mount_by(alloc, Memory::new(alloc), LIMIT, LIMIT, 4096).map_err(|e| e.why)?;
    engine.commit(&stored(alloc, None, 1)?)?;
    Ok(engine.dismount().bytes(0).to_vec(alloc)?)
}

// The header, the frame's head, its sets, the items of the same pairs, the snapshot's end, Commit, and the next frame's gate.
const FIRST_FILE: [&[u8]; 11] = [
    b"\x01STORQUE\x01\0\0\0\x01\0\0\0\0\0\0\0\0\0\0\0\0\0\0\0",
    b"\x01\xd4\0\0\0\0\0\0\0\0\0\0\0",
    b"\x01\x01\0\0\0\x01\0\0\0\x61\x31",
    b"\x01\x0b\0\0\0\x0d\0\0\0\xff\xff/assigned\x01\0\0\0\0\0\0\0\x01\0\0\0\xff",
    b"\x01\x0c\0\0\0\x0d\0\0\0\xff\xff/available\x01\0\0\0\0\0\0\0\x01\0\0\0\xff",
    b"\x01\x0a\0\0\0\x08\0\0\0\xff\xff/version\x01\0\0\0\0\0\0\0",
    b"\x03\x01\0\0\0\x01\0\0\0\x61\x31",
    b"\x03\x0b\0\0\0\x0d\0\0\0\xff\xff/assigned\x01\0\0\0\0\0\0\0\x01\0\0\0\xff",
    b"\x03\x0c\0\0\0\x0d\0\0\0\xff\xff/available\x01\0\0\0\0\0\0\0\x01\0\0\0\xff",
    b"\x03\x0a\0\0\0\x08\0\0\0\xff\xff/version\x01\0\0\0\0\0\0\0",
    b"\x04\x05\0",
];

#[test]
fn a_first_file_has_these_bytes(rt: HostRuntime) -> Result<(), Fail> {
    let alloc = rt.alloc();
    let file = first_file(alloc)?;
    let mut want = Vec::new(alloc);
    for part in FIRST_FILE {
        want.extend_from_slice(part)?;
    }
    assert_eq!(rt; file.len(), 254);
    assert_eq!(rt; file, want);
    Ok(())
}

// With fewer than 29 bytes the file is shut.
#[test]
fn a_file_that_is_cut_short_is_empty_or_damaged(rt: HostRuntime) -> Result<(), Fail> {
    let alloc = rt.alloc();
    let file = first_file(alloc)?;
    let mut prefix = Vec::new(alloc);
    for byte in &file {
        if prefix.len() < 29 {
            let disk = Memory::with(alloc, prefix.as_slice().to_vec(alloc)?, Vec::new(alloc));
            assert!(rt; mount(alloc, disk)?.is_fresh());
        } else {
            let damaged = EngineRefusal::Damaged { file: 0, at: 28 };
            assert_eq!(rt; refusal_of(alloc, &prefix, &[])?, damaged);
        }
        prefix.push(*byte)?;
    }
    assert_eq!(rt; prefix.len(), 254);
    Ok(())
}

#[test]
fn the_same_file_twice_is_damaged(rt: HostRuntime) -> Result<(), Fail> {
    let alloc = rt.alloc();
    let file = first_file(alloc)?;
    let damaged = EngineRefusal::Damaged { file: 1, at: 0 };
    assert_eq!(rt; refusal_of(alloc, &file, &file)?, damaged);
    Ok(())
}

// A file without a frame, of the last generation there is.
const LAST_GENERATION: [u8; 29] = [
    0x01, 0x53, 0x54, 0x4f, 0x52, 0x51, 0x55, 0x45, 0x01, 0x00, 0x00, 0x00, 0x00, 0x00, 0x00, 0x00,
    0x00, 0x00, 0x00, 0x40, 0x00, 0x00, 0x00, 0x00, 0x00, 0x00, 0x00, 0x00, 0x00,
];

// A disk of that file, whose seventh call fails. A mount makes six.
fn last_generation(alloc: Global) -> Result<Failing<Memory>, AllocError> {
    let inner = Memory::with(alloc, LAST_GENERATION.to_vec(alloc)?, Vec::new(alloc));
    Ok(Failing::new(inner, vec![in alloc; 7]?))
}

const LAST_IS_SPENT: EngineRefusal = EngineRefusal::Full {
    length: 4_611_686_018_427_387_905,
    limit: 4_611_686_018_427_387_904,
};

#[test]
fn no_file_follows_the_last_generation(rt: HostRuntime) -> Result<(), Fail> {
    let alloc = rt.alloc();
    let disk = last_generation(alloc)?;
    let (mut queue, frames) = Queue::mount(alloc, disk, 29, LIMIT).map_err(|e| e.why)?;
    assert_eq!(rt; frames.len(), 0);
    assert!(rt; queue.due());
    assert_eq!(rt; queue.recycle(), Err(LAST_IS_SPENT));
    assert!(rt; queue.dismount().sync(0).is_err());
    let disk = last_generation(alloc)?;
    let mut engine = mount_by(alloc, disk, 29, LIMIT, 1).map_err(|e| e.why)?;
    let told = commit_set(alloc, &mut engine, 0x61, 0x31);
    assert_eq!(rt; told, Err(LAST_IS_SPENT));
    assert!(rt; engine.is_fresh());
    assert!(rt; engine.dismount().sync(0).is_err());
    Ok(())
}

// An empty disk after so many of the writes and syncs of four commits, two of the mount among them, and how many of the commits
// were done.
fn turned(alloc: Global, passes: u64) -> Result<(Memory, u64), Fail> {
    let disk = Fused::new(Memory::new(alloc), Some(passes));
    let mut engine = mount_by(alloc, disk, 64, LIMIT, 1).map_err(|e| e.why)?;
    let long = [0x2a; 300];
    let mut done = 0u64;
    for version in 1..5 {
        let value = if version == 1 { Some(&long) } else { None };
        let ops = stored(alloc, value, version)?;
        if !is_done(engine.commit(&ops))? {
            break;
        }
        done = done.wrapping_add(1);
    }
    Ok((engine.dismount().into_inner(), done))
}

#[test]
fn commits_make_ten_or_four_calls(rt: HostRuntime) -> Result<(), Fail> {
    let stops = [
        (11, 0),
        (12, 1),
        (21, 1),
        (22, 2),
        (25, 2),
        (26, 3),
        (35, 3),
        (36, 4),
    ];
    for (passes, want) in stops {
        let (_, done) = turned(rt.alloc(), passes)?;
        assert_eq!(rt; done, want, "{passes} calls");
    }
    Ok(())
}

// The first snapshot ends with frame 0, and the second one, of which the long value is a part, with frame 2.
#[test]
fn the_files_take_turns(rt: HostRuntime) -> Result<(), Fail> {
    let alloc = rt.alloc();
    let (disk, _) = turned(alloc, 36)?;
    let (zero, one) = (disk.bytes(0), disk.bytes(1));
    assert_eq!(rt; (zero.len(), one.len()), (874, 683));
    assert_eq!(rt;
        (take_u64(zero, 12), take_u64(zero, 20)),
        (Some(3), Some(3))
    );
    assert_eq!(rt; (take_u64(one, 12), take_u64(one, 20)), (Some(2), Some(1)));
    assert_eq!(rt; (zero.get(457), one.get(682)), (Some(&0), Some(&0)));
    let (queue, frames) = Queue::mount(alloc, disk, 64, LIMIT).map_err(|e| e.why)?;
    assert_eq!(rt; frames.len(), 3);
    let places = [(1, 1, 28, 416), (2, 1, 457, 212), (3, 0, 28, 416)];
    for (frame, place) in frames.iter().zip(places) {
        assert_eq!(rt;
            (frame.seq, frame.file, frame.at, frame.payload.len()),
            place
        );
    }
    let engine = mount(alloc, queue.dismount())?;
    assert_eq!(rt;
        map_of(alloc, &engine)?.as_slice(),
        [(0x60, 0x2a), (0x61, 0x34)].as_slice()
    );
    Ok(())
}

// The lengths of the files after so many sets of twelve keys in turn.
fn lengths_after(alloc: Global, run: Run) -> Result<(usize, usize), Fail> {
    let mut engine = mount_run(alloc, Memory::new(alloc), run)?;
    for count in 0..run.commits {
        let ops = vec![in alloc; set(alloc, 0x61 + (count % 12) as u8, (count % 256) as u8)?]?;
        engine.commit(&ops)?;
    }
    let disk = engine.dismount();
    Ok((disk.bytes(0).len(), disk.bytes(1).len()))
}

// A swap, a quota, and the length that both files come to.
const LENGTHS: [(u16, u8, usize); 4] = [(64, 1, 312), (100, 1, 312), (200, 16, 262), (64, 64, 212)];

#[test]
fn files_stay_short(rt: HostRuntime) -> Result<(), Fail> {
    for (swap, quota, want) in LENGTHS {
        for commits in [50, 200] {
            let run = Run {
                seed: 0,
                swap,
                quota,
                commits,
            };
            let lengths = lengths_after(rt.alloc(), run)?;
            assert_eq!(rt; lengths, (want, want), "{swap} {quota} {commits}");
        }
    }
    Ok(())
}
