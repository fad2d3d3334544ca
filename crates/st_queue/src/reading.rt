// Reads the frames of a file.
ghost use Rattle.std.specs.List.{AllByRecursion};
ghost use Rattle.std.specs.Option.{ForSome};
ghost use Rattle.std.specs.Prelude.{ℕ, IfOk, IfErr, IsErrOf, Err, ◌≡◌, ◌<◌, ◌≤◌, ◌+◌, ◌^◌, ◌==◌, Ok, IsTrue, Some, None, if◌then◌else◌, length, drop};
ghost use Rattle.st_num.specs.Number.{little_number};
ghost use Rattle.st_queue.specs.Frames.{joined, goes_on, is_live, has_header, generation, first_number, is_payload, is_whole, payload_length, frames_from, file_frames};
ghost use Rattle.st_queue.specs.Place.{current, frames_size, end_of, is_unshut, next_number};
ghost use Rattle.st_queue.specs.Due.{are_discarded, behind_last, is_released, older_frames};
ghost use Rattle.st_queue.specs.Reading.{Answers, IsNext, IsReading, Fits, Rises};
ghost use Rattle.st_queue.specs.Mounting.{IsOfReading};
ghost use Rattle.st_queue.specs.declared.frame.QueueRefusal.TheVariants.{Damaged, NoMemory};

use crate::place::behind_last;
use crate::{Frame, Payload, Place, QueueRefusal};
use st_num::{take_u32, take_u64};
use st_ops::OpsRefusal;
use std::alloc::Global;

// "STORQUE", and the format 1 in 4 bytes.
pub(crate) const MARK: [u8; 11] = *b"STORQUE\x01\0\0\0";

/// The greatest generation and the greatest first number of a file.
pub(crate) const MAX_NUMBER: u64 = 1 << 62;

const OPEN: u8 = 1;

/// What the files of a queue hold.
#[derive(Drop)]
pub struct Reading {
    pub frames: Vec<Frame>,
    /// The end of the current file, where one is live.
    pub current: Option<Place>,
    /// Of each file: it has no byte, or its gate is open.
    pub unshut: (bool, bool),
    /// Where both files are live and the older one has frames: the number behind its last frame.
    pub older: Option<u64>,
}

/// The frames of a queue whose files have these bytes, and the end of its current file.
pub(crate) fn read_files(alloc: Global, zero: &[u8], one: &[u8]) -> Result<Reading, QueueRefusal>
    requires zero { length zero.now < 2 ^ 63 }
    requires one { length one.now < 2 ^ 63 }
    ensures reads { IsReading (zero.now, one.now) result }
    ensures numbers { IfOk result (λ reading. Rises 0 reading.frames.items) }
    ensures next { IfOk result (λ reading. AllByRecursion (λ frame. frame.seq < next_number reading.current) reading.frames.items) }
    ensures err { IfErr result IsOfReading }
{
    let unshut = (is_unshut(zero), is_unshut(one));
    let zero_live = is_live(zero);
    if !is_live(one) {
        if zero_live {
            return read_alone(alloc, 0, zero, unshut);
        }
        return Ok(Reading {
            frames: Vec::new(alloc),
            current: None,
            unshut,
            older: None,
        });
    }
    if !zero_live {
        return read_alone(alloc, 1, one, unshut);
    }
    read_both(alloc, zero, one, unshut)
}

// The one live file.
fn read_alone(
    alloc: Global,
    file: u8,
    bytes: &[u8],
    unshut: (bool, bool),
) -> Result<Reading, QueueRefusal>
    requires file { file < 2 }
    requires live { IsTrue (is_live bytes.now) }
    requires small { length bytes.now < 2 ^ 63 }
    ensures frames { IfOk result (λ reading. file_frames file bytes.now ≡ Ok reading.frames.items) }
    ensures end { IfOk result (λ reading. reading.current ≡ end_of file bytes.now (file_frames file bytes.now)) }
    ensures fits { IfOk result (λ reading. ForSome reading.current Fits) }
    ensures unshut { IfOk result (λ reading. reading.unshut ≡ unshut) }
    ensures older { IfOk result (λ reading. reading.older ≡ None) }
    ensures damage { (at place : ℕ) → IsErrOf result (Damaged at place)
        → file_frames file bytes.now ≡ Err (record { file = at; at = place }) }
    ensures err { IfErr result IsOfReading }
{
    let frames = read_file(alloc, file, bytes)?;
    let current = Some(end_of(file, bytes, &frames));
    Ok(Reading {
        frames,
        current,
        unshut,
        older: None,
    })
}

// Two live files.
fn read_both(
    alloc: Global,
    zero: &[u8],
    one: &[u8],
    unshut: (bool, bool),
) -> Result<Reading, QueueRefusal>
    requires zero { IsTrue (is_live zero.now) }
    requires one { IsTrue (is_live one.now) }
    requires zero_small { length zero.now < 2 ^ 63 }
    requires one_small { length one.now < 2 ^ 63 }
    requires unshut { unshut ≡ (is_unshut zero.now, is_unshut one.now) }
    ensures reads { IsReading (zero.now, one.now) result }
    ensures err { IfErr result IsOfReading }
{
    let first = read_file(alloc, 0, zero)?;
    let second = read_file(alloc, 1, one)?;
    let (newer, older) = both_ends(zero, &first, one, &second);
    let frames = join(zero, first, one, second)?;
    Ok(Reading {
        frames,
        current: Some(newer),
        unshut,
        older: behind_last(older),
    })
}

// The ends of two live files with these frames, the newer one's first.
fn both_ends(zero: &[u8], first: &[Frame], one: &[u8], second: &[Frame]) -> (Place, Place)
    requires zero { IsTrue (is_live zero.now) }
    requires one { IsTrue (is_live one.now) }
    requires zero_small { length zero.now < 2 ^ 63 }
    requires one_small { length one.now < 2 ^ 63 }
    requires first { file_frames 0 zero.now ≡ Ok first.now }
    requires second { file_frames 1 one.now ≡ Ok second.now }
    ensures newer { Some result.0 ≡ current (zero.now, one.now) }
    ensures older { (discarded : ℕ) → is_released (behind_last result.1) discarded
        ≡ are_discarded discarded (older_frames (zero.now, one.now)) }
    ensures fits { Fits result.0 }
{
    let zero_end = end_of(0, zero, first);
    let one_end = end_of(1, one, second);
    if zero_end.generation < one_end.generation {
        return (one_end, zero_end);
    }
    (zero_end, one_end)
}

// The end of a live file with these frames.
fn end_of(file: u8, bytes: &[u8], frames: &[Frame]) -> Place
    requires file { file < 2 }
    requires live { IsTrue (is_live bytes.now) }
    requires small { length bytes.now < 2 ^ 63 }
    requires frames { file_frames file bytes.now ≡ Ok frames.now }
    ensures end { Some result ≡ end_of file bytes.now (file_frames file bytes.now) }
    ensures fits { Fits result }
{
    Place {
        file,
        generation: number(bytes, 12),
        gate: 28 + size(frames),
        next: number(bytes, 20) + frames.len() as u64,
    }
}

// How many bytes the frames take.
fn size(frames: &[Frame]) -> u64
    requires { frames_size frames.now < 2 ^ 63 }
    ensures { result ≡ frames_size frames.now }
{
    let mut total = 0;
    for frame in frames {
        total += 13 + frame.payload.len();
    }
    total
}

// The frames of two live files, the older one's first.
fn join(
    zero: &[u8],
    mut first: Vec<Frame>,
    one: &[u8],
    mut second: Vec<Frame>,
) -> Result<Vec<Frame>, QueueRefusal>
    requires zero { 29 ≤ length zero.now }
    requires one { 29 ≤ length one.now }
    ensures { Answers (joined zero.now one.now (Ok first.items) (Ok second.items)) result }
{
    if follows(zero, first.len(), one) {
        first.append(&mut second)?;
        return Ok(first);
    }
    if follows(one, second.len(), zero) {
        second.append(&mut first)?;
        return Ok(second);
    }
    Err(QueueRefusal::Damaged { file: 1, at: 0 })
}

// Whether a file goes on where another one, which has so many frames, ends.
fn follows(older: &[u8], count: usize, newer: &[u8]) -> bool
    requires older { 29 ≤ length older.now }
    requires newer { 29 ≤ length newer.now }
    ensures { result ≡ goes_on older.now count newer.now }
{
    let count = count as u64;
    is_more_by(number(newer, 12), number(older, 12), 1)
        && is_more_by(number(newer, 20), number(older, 20), count)
}

fn is_more_by(more: u64, less: u64, by: u64) -> bool
    ensures { result ≡ (more == less + by) }
{
    more >= by && more - by == less
}

fn number(bytes: &[u8], at: usize) -> u64
    requires { at + 8 ≤ length bytes.now }
    ensures { result ≡ little_number 8 (drop at bytes.now) }
{
    take_u64(bytes, at).unwrap_or(0)
}

fn is_unshut(bytes: &[u8]) -> bool
    ensures { result ≡ is_unshut bytes.now }
{
    bytes.is_empty() || bytes[0] == OPEN
}

fn is_live(bytes: &[u8]) -> bool
    ensures { result ≡ is_live bytes.now }
{
    bytes.len() >= 29 && bytes[0] == OPEN
}

// The frames of a live file, of these bytes.
pub(crate) fn read_file(alloc: Global, file: u8, bytes: &[u8]) -> Result<Vec<Frame>, QueueRefusal>
    requires { IsTrue (is_live bytes.now) }
    ensures { Answers (file_frames file bytes.now) result }
{
    match header(bytes) {
        Some(first) => read_frames(alloc, file, first, &bytes[28..]),
        None => Err(QueueRefusal::Damaged { file, at: 1 }),
    }
}

// The number of the file's first frame, where the header is sound.
fn header(bytes: &[u8]) -> Option<u64>
    requires { 29 ≤ length bytes.now }
    ensures { result ≡ (if has_header bytes.now then Some (first_number bytes.now) else None) }
{
    let generation = take_u64(bytes, 12)?;
    let first = take_u64(bytes, 20)?;
    if !bytes[1..].starts_with(&MARK) {
        return None;
    }
    if generation > MAX_NUMBER || first > MAX_NUMBER {
        return None;
    }
    Some(first)
}

// The frames of the bytes from place 28 on, of which the first has this number.
fn read_frames(
    alloc: Global,
    file: u8,
    first: u64,
    bytes: &[u8],
) -> Result<Vec<Frame>, QueueRefusal>
    requires number { first ≤ 2 ^ 62 }
    requires fits { 28 + length bytes.now < 2 ^ 64 }
    ensures { Answers (frames_from file first 28 0 bytes.now) result }
{
    let mut frames = Vec::new(alloc);
    let mut read = 0;
    let mut seq = first;
    while let Some((frame, len)) = next_frame(alloc, file, seq, 28 + read as u64, &bytes[read..])? {
        frames.push(frame)?;
        read += len;
        seq += 1;
    }
    Ok(frames)
}

// The frame behind the gate at the start of these bytes, which stand at this place, and how far on the next gate is. None
// where the gate is closed.
fn next_frame(
    alloc: Global,
    file: u8,
    seq: u64,
    at: u64,
    bytes: &[u8],
) -> Result<Option<(Frame, usize)>, QueueRefusal>
    requires { length bytes.now < 2 ^ 64 }
    ensures { IsNext file seq at bytes.now result }
{
    let [gate, behind @ ..] = bytes else {
        return Ok(None);
    };
    if *gate != OPEN {
        return Ok(None);
    }
    let Some(count) = frame_len(seq, behind) else {
        return Err(QueueRefusal::Damaged { file, at });
    };
    let payload = &behind[12..12 + count];
    if !is_payload(alloc, payload)? {
        return Err(QueueRefusal::Damaged { file, at });
    }
    let payload = Payload::new(payload.to_vec(alloc)?);
    let frame = Frame {
        seq,
        file,
        at,
        payload,
    };
    Ok(Some((frame, 13 + count)))
}

// Whether the bytes are a list of operations.
fn is_payload(alloc: Global, bytes: &[u8]) -> Result<bool, QueueRefusal>
    ensures ok { IfOk result (λ listed. listed ≡ is_payload bytes.now) }
    ensures err { IfErr result (λ refusal. refusal ≡ NoMemory) }
{
    match st_ops::decode(alloc, bytes) {
        Ok(_) => Ok(true),
        Err(OpsRefusal::BadOps { .. }) => Ok(false),
        Err(OpsRefusal::NoMemory) => Err(QueueRefusal::NoMemory),
    }
}

// The payload's length, where the bytes of a frame with this number and the next gate stand behind a gate.
fn frame_len(number: u64, behind: &[u8]) -> Option<usize>
    ensures { result ≡ (if is_whole number behind.now then Some (payload_length behind.now) else None) }
{
    let count = take_u32(behind, 0)? as usize;
    let found = take_u64(behind, 4)?;
    if found == number && count < behind.len() - 12 {
        Some(count)
    } else {
        None
    }
}
