ghost use Rattle.std.specs.Prelude.{IsTrue};
ghost use Rattle.st_queue.specs.Frames.{is_payload};

use super::*;
use crate::mounting::read_disk;
use crate::reading::read_files;
use st_disk::{CrashDisk, Disk, Failing, Fused, Memory};
use st_num::{put_u32, put_u64, take_u64};
use st_ops::decode;
use std::alloc::{AllocError, Global};
use std::test::Fail;

// One frame, number 0, of the byte 5: a commit of no operation.
const ONE_FRAME: [u8; 43] = [
    0x01, 0x53, 0x54, 0x4f, 0x52, 0x51, 0x55, 0x45, 0x01, 0x00, 0x00, 0x00, 0x01, 0x00, 0x00, 0x00,
    0x00, 0x00, 0x00, 0x00, 0x00, 0x00, 0x00, 0x00, 0x00, 0x00, 0x00, 0x00, 0x01, 0x01, 0x00, 0x00,
    0x00, 0x00, 0x00, 0x00, 0x00, 0x00, 0x00, 0x00, 0x00, 0x05, 0x00,
];

#[test]
fn a_file_reads_as_its_frames(rt: HostRuntime) -> Result<(), Fail> {
    let frames = read_files(rt.alloc(), &ONE_FRAME, &[])?.frames;
    assert_eq!(rt; frames.len(), 1);
    let frame = &frames[0];
    assert_eq!(rt; (frame.seq, frame.file, frame.at), (0, 0, 28));
    assert_eq!(rt; frame.payload.as_slice(), [5].as_slice());
    Ok(())
}

// A place, the byte there in place of the file's own, and where the file is then damaged.
const CHANGED: [(usize, u8, Option<u64>); 11] = [
    (1, 0x54, Some(1)),
    (8, 2, Some(1)),
    (19, 0x40, Some(1)),
    (19, 0x3f, None),
    (27, 0x80, Some(1)),
    (28, 2, None),
    (29, 2, Some(28)),
    (33, 1, Some(28)),
    // No byte; an unknown tag; a snapshot's end with no commit behind it.
    (29, 0, Some(28)),
    (41, 6, Some(28)),
    (41, 4, Some(28)),
];

#[test]
fn a_changed_file_is_damaged_there(rt: HostRuntime) -> Result<(), Fail> {
    for (place, byte, damage) in CHANGED {
        let mut bytes = ONE_FRAME;
        assert!(rt; place < 43 && place > 0);
        bytes[place] = byte;
        let answer = read_files(rt.alloc(), &[], &bytes).map(|reading| reading.frames.len());
        let want = match damage {
            Some(at) => Err(QueueRefusal::Damaged { file: 1, at }),
            None => Ok(if place == 28 { 0 } else { 1 }),
        };
        assert_eq!(rt; answer, want, "place {place}");
    }
    Ok(())
}

// The payload of the key "a" set to "1".
const SET: [u8; 12] = [1, 1, 0, 0, 0, 1, 0, 0, 0, 0x61, 0x31, 5];

// A file of one frame with this payload, which has fewer than 256 bytes.
fn file_of(alloc: Global, payload: &[u8]) -> Result<Vec<u8>, QueueRefusal> {
    let mut bytes = ONE_FRAME[..29].to_vec(alloc)?;
    bytes.push(payload.len().min(255) as u8)?;
    bytes.extend_from_slice(&ONE_FRAME[30..41])?;
    bytes.extend_from_slice(payload)?;
    bytes.push(0)?;
    Ok(bytes)
}

#[test]
fn a_payload_is_a_list_of_operations(rt: HostRuntime) -> Result<(), Fail> {
    let alloc = rt.alloc();
    // A payload, and whether it is one.
    let rows: [(&[u8], bool); 9] = [
        (&[5], true),
        (&[4, 5], true),
        (&SET, true),
        (&[2, 0, 0, 0, 0, 1, 0, 0, 0, 0x61, 5], true),
        // Behind the commit, without it, and cut short.
        (&[5, 5], false),
        (&SET[..11], false),
        (&SET[..10], false),
        // A clear of no key, and a set behind the snapshot's end.
        (&[2, 1, 0, 0, 0, 1, 0, 0, 0, 0x61, 0x61, 5], false),
        (&[4, 1, 0, 0, 0, 0, 0, 0, 0, 0, 5], false),
    ];
    for (payload, listed) in rows {
        let bytes = file_of(alloc, payload)?;
        let answer = read_files(alloc, &bytes, &[]).map(|reading| reading.frames.len());
        let want = if listed {
            Ok(1)
        } else {
            Err(QueueRefusal::Damaged { file: 0, at: 28 })
        };
        assert_eq!(rt; answer, want, "{payload:?}");
    }
    Ok(())
}

#[test]
fn a_disk_reads_as_the_older_file_and_then_the_newer(rt: HostRuntime) -> Result<(), Fail> {
    let alloc = rt.alloc();
    // File 1 has generation 2 and number 1, and file 0 generation 1 and one frame of number 0.
    let mut newer = ONE_FRAME;
    newer[12] = 2;
    newer[20] = 1;
    newer[33] = 1;
    let mut disk = Memory::with(alloc, ONE_FRAME.to_vec(alloc)?, newer.to_vec(alloc)?);
    let frames = read_disk(alloc, &mut disk)?.frames;
    assert_eq!(rt; frames.len(), 2);
    assert_eq!(rt; (frames[0].seq, frames[0].file), (0, 0));
    assert_eq!(rt; (frames[1].seq, frames[1].file), (1, 1));
    newer[20] = 2;
    newer[33] = 2;
    let mut torn = Memory::with(alloc, ONE_FRAME.to_vec(alloc)?, newer.to_vec(alloc)?);
    let answer = read_disk(alloc, &mut torn).map(|reading| reading.frames.len());
    assert_eq!(rt; answer, Err(QueueRefusal::Damaged { file: 1, at: 0 }));
    Ok(())
}

// Each of the six calls failing in turn: two of `sync`, and `len` and `read` for each file.
#[test]
fn a_failing_disk_is_a_fault(rt: HostRuntime) -> Result<(), Fail> {
    let alloc = rt.alloc();
    for call in 1..8 {
        let mut disk = Failing::new(Memory::new(alloc), vec![in alloc; call]?);
        let answer = read_disk(alloc, &mut disk).map(|reading| reading.frames.len());
        let want = if call < 7 {
            Err(QueueRefusal::DiskFault { faults: 1 })
        } else {
            Ok(0)
        };
        assert_eq!(rt; answer, want, "call {call}");
    }
    Ok(())
}

const LIMIT: u64 = 1 << 30;

// Appends a payload, to a new file where one is due.
fn commit<D: Disk>(queue: &mut Queue<D>, payload: &[u8]) -> Result<u64, QueueRefusal>
    requires { IsTrue (is_payload payload.now) }
{
    if queue.due() {
        queue.recycle()?;
        queue.enter_next()?;
        return queue.append(payload);
    }
    queue.append(payload)
}

// An empty disk after two frames, where so many of its writes and syncs pass, two of the mount among them.
fn stopped(alloc: Global, passes: u64) -> Result<Memory, QueueRefusal> {
    let disk = Fused::new(Memory::new(alloc), Some(passes));
    let (mut queue, _) = Queue::mount(alloc, disk, LIMIT, LIMIT).map_err(|e| e.why)?;
    if commit(&mut queue, &[5]).is_ok() {
        let _ = commit(&mut queue, &SET);
    }
    Ok(queue.dismount().into_inner())
}

// The frames that a restart leaves.
fn left(alloc: Global, passes: u64, choice: u64) -> Result<Vec<Frame>, Fail> {
    let mut disk = stopped(alloc, passes)?;
    disk.restart(choice)?;
    let (_, frames) = Queue::mount(alloc, disk, LIMIT, LIMIT).map_err(|e| e.why)?;
    Ok(frames)
}

#[test]
fn a_first_frame_makes_ten_calls(rt: HostRuntime) -> Result<(), Fail> {
    let alloc = rt.alloc();
    let disk = Fused::new(Memory::new(alloc), Some(12));
    let (mut queue, frames) = Queue::mount(alloc, disk, LIMIT, LIMIT).map_err(|e| e.why)?;
    assert_eq!(rt; frames.len(), 0);
    assert_eq!(rt; commit(&mut queue, &[5]), Ok(0));
    assert_eq!(rt;
        commit(&mut queue, &[4, 5]),
        Err(QueueRefusal::DiskFault { faults: 1 })
    );
    assert_eq!(rt;
        commit(&mut queue, &[4, 5]),
        Err(QueueRefusal::Broken { faults: 1 })
    );
    let disk = queue.dismount().into_inner();
    assert_eq!(rt; disk.bytes(0), ONE_FRAME.as_slice());
    Ok(())
}

// The mount makes six calls, and six more come before the first append: the next one fails.
#[test]
fn an_append_past_the_limit_makes_no_call(rt: HostRuntime) -> Result<(), Fail> {
    let alloc = rt.alloc();
    let disk = Failing::new(Memory::new(alloc), vec![in alloc; 13]?);
    let (mut queue, _) = Queue::mount(alloc, disk, LIMIT, 43).map_err(|e| e.why)?;
    let full = QueueRefusal::Full {
        length: 44,
        limit: 43,
    };
    assert_eq!(rt; commit(&mut queue, &[4, 5]), Err(full));
    assert_eq!(rt;
        commit(&mut queue, &[5]),
        Err(QueueRefusal::DiskFault { faults: 1 })
    );
    assert_eq!(rt;
        commit(&mut queue, &[5]),
        Err(QueueRefusal::Broken { faults: 1 })
    );
    Ok(())
}

// The same where not even the shortest payload has room: the next call fails, which is the disk's own.
#[test]
fn a_limit_may_leave_room_for_no_frame(rt: HostRuntime) -> Result<(), Fail> {
    let alloc = rt.alloc();
    let disk = Failing::new(Memory::new(alloc), vec![in alloc; 13]?);
    let (mut queue, _) = Queue::mount(alloc, disk, LIMIT, 42).map_err(|e| e.why)?;
    let full = QueueRefusal::Full {
        length: 43,
        limit: 42,
    };
    assert_eq!(rt; commit(&mut queue, &[5]), Err(full));
    let mut disk = queue.dismount();
    assert!(rt; disk.sync(0).is_err());
    Ok(())
}

#[test]
fn a_torn_gate_is_open_or_closed(rt: HostRuntime) -> Result<(), Fail> {
    let alloc = rt.alloc();
    assert_eq!(rt; left(alloc, 11, 0)?.len(), 0);
    assert_eq!(rt; left(alloc, 11, 1)?.len(), 1);
    for choice in 0..100 {
        assert_eq!(rt; left(alloc, 10, choice)?.len(), 0, "choice {choice}");
    }
    Ok(())
}

#[test]
fn each_image_has_the_old_frames_or_one_more(rt: HostRuntime) -> Result<(), Fail> {
    let alloc = rt.alloc();
    let mut images = 0u64;
    for passes in 2..17 {
        let whole = if passes < 12 {
            0
        } else if passes < 16 {
            1
        } else {
            2
        };
        for choice in 0..64 {
            let frames = left(alloc, passes, choice)?;
            let count = frames.len();
            assert!(rt;
                count == whole || (count == whole + 1 && count <= 2),
                "{passes} {choice}"
            );
            for (number, frame) in frames.iter().enumerate() {
                assert_eq!(rt; frame.seq, number as u64);
                let payload: &[u8] = if number == 0 { &[5] } else { &SET };
                assert_eq!(rt; frame.payload.as_slice(), payload);
            }
            images = images.wrapping_add(1);
        }
    }
    assert_eq!(rt; images, 960);
    Ok(())
}

// How many bytes each of four payloads sets its key to: they have 832, 416, 212 and 416 bytes.
const VALUES: [u32; 4] = [821, 405, 201, 405];

// A Set of the key "a" to so many bytes, and Commit: 11 bytes more.
fn payload(alloc: Global, count: u32) -> Result<Vec<u8>, AllocError> {
    let mut bytes = vec![in alloc; 1, 1, 0, 0, 0]?;
    put_u32(&mut bytes, count)?;
    bytes.push(b'a')?;
    for _ in 0..count {
        bytes.push(0x2a)?;
    }
    bytes.push(5)?;
    Ok(bytes)
}

// Appends a payload that reads as a list of operations.
fn commit_listed<D: Disk>(
    alloc: Global,
    queue: &mut Queue<D>,
    payload: &[u8],
) -> Result<u64, QueueRefusal> {
    match decode(alloc, payload) {
        Ok(_) => commit(queue, payload),
        Err(_) => Err(QueueRefusal::NoMemory),
    }
}

// An empty disk after so many of the writes and syncs of four frames, two of the mount among them, and how many of the frames
// were appended. Before the last one, frame 0 is discarded.
fn turned(alloc: Global, passes: u64) -> Result<(Memory, u64), QueueRefusal> {
    let disk = Fused::new(Memory::new(alloc), Some(passes));
    let (mut queue, _) = Queue::mount(alloc, disk, 64, LIMIT).map_err(|e| e.why)?;
    let mut done = 0u64;
    for count in VALUES {
        let bytes = payload(alloc, count)?;
        if commit_listed(alloc, &mut queue, &bytes).is_err() {
            break;
        }
        done = done.wrapping_add(1);
        if done == 3 {
            queue.discard_before(1);
        }
    }
    Ok((queue.dismount().into_inner(), done))
}

#[test]
fn frames_take_ten_or_four_calls(rt: HostRuntime) -> Result<(), Fail> {
    let stops = [
        (11, 0),
        (12, 1),
        (21, 1),
        (22, 2),
        (25, 2),
        (26, 3),
        (35, 3),
        (36, 4),
    ];
    for (passes, want) in stops {
        let (_, done) = turned(rt.alloc(), passes)?;
        assert_eq!(rt; done, want, "{passes} calls");
    }
    Ok(())
}

#[test]
fn the_files_take_turns(rt: HostRuntime) -> Result<(), Fail> {
    let alloc = rt.alloc();
    let (disk, _) = turned(alloc, 36)?;
    let (zero, one) = (disk.bytes(0), disk.bytes(1));
    assert_eq!(rt; (zero.len(), one.len()), (874, 683));
    assert_eq!(rt;
        (take_u64(zero, 12), take_u64(zero, 20)),
        (Some(3), Some(3))
    );
    assert_eq!(rt; (take_u64(one, 12), take_u64(one, 20)), (Some(2), Some(1)));
    assert_eq!(rt; (zero.get(457), one.get(682)), (Some(&0), Some(&0)));
    let (_, frames) = Queue::mount(alloc, disk, 64, LIMIT).map_err(|e| e.why)?;
    assert_eq!(rt; frames.len(), 3);
    let places = [(1, 1, 28), (2, 1, 457), (3, 0, 28)];
    for (frame, place) in frames.iter().zip(places) {
        assert_eq!(rt; (frame.seq, frame.file, frame.at), place);
    }
    Ok(())
}

// The number of the first frame that a restart leaves, and how many there are.
fn left_turning(alloc: Global, passes: u64, choice: u64) -> Result<(u64, usize), Fail> {
    let (mut disk, _) = turned(alloc, passes)?;
    disk.restart(choice)?;
    let (_, frames) = Queue::mount(alloc, disk, 64, LIMIT).map_err(|e| e.why)?;
    let first = frames.first().map(|frame| frame.seq).unwrap_or(0);
    Ok((first, frames.len()))
}

// The last frame's calls: the file is shut by the first one and its sync, and the frame's gate is opened by the last.
#[test]
fn each_image_of_a_turn_has_the_frames(rt: HostRuntime) -> Result<(), Fail> {
    let alloc = rt.alloc();
    let all = (0, 3);
    let kept = (1, 2);
    let more = (1, 3);
    for passes in 26..37 {
        let (lower, upper) = match passes {
            26 => (all, all),
            27 => (all, kept),
            35 => (kept, more),
            36 => (more, more),
            _ => (kept, kept),
        };
        assert_eq!(rt; left_turning(alloc, passes, 0)?, lower, "{passes}");
        assert_eq!(rt; left_turning(alloc, passes, 1)?, upper, "{passes}");
        for choice in 2..20 {
            let left = left_turning(alloc, passes, choice)?;
            assert!(rt; left == lower || left == upper, "{passes} {choice}");
        }
    }
    Ok(())
}

// A file of two frames, each of the byte 5, with this generation and this first number.
fn two_frames(alloc: Global, generation: u64, first: u64) -> Result<Vec<u8>, AllocError> {
    let mut bytes = vec![in alloc; 1]?;
    bytes.extend_from_slice(b"STORQUE\x01\0\0\0")?;
    put_u64(&mut bytes, generation)?;
    put_u64(&mut bytes, first)?;
    for number in [first, first.wrapping_add(1)] {
        bytes.extend_from_slice(&[1, 1, 0, 0, 0])?;
        put_u64(&mut bytes, number)?;
        bytes.push(5)?;
    }
    bytes.push(0)?;
    Ok(bytes)
}

const MAX: u64 = 4_611_686_018_427_387_904;

// A generation, a first number, and the next generation or number where that is past 2^62.
const SPENT: [(u64, u64, Option<u64>); 5] = [
    (MAX, 0, Some(4_611_686_018_427_387_905)),
    (1, MAX, Some(4_611_686_018_427_387_906)),
    (MAX, MAX, Some(4_611_686_018_427_387_905)),
    (1, MAX - 1, Some(4_611_686_018_427_387_905)),
    (MAX - 1, MAX - 2, None),
];

// The mount makes six calls, and the next one fails.
#[test]
fn a_spent_number_makes_no_call(rt: HostRuntime) -> Result<(), Fail> {
    let alloc = rt.alloc();
    for (generation, first, spent) in SPENT {
        let zero = two_frames(alloc, generation, first)?;
        assert_eq!(rt; zero.len(), 57);
        let inner = Memory::with(alloc, zero, Vec::new(alloc));
        let disk = Failing::new(inner, vec![in alloc; 7]?);
        let (mut queue, _) = Queue::mount(alloc, disk, 57, LIMIT).map_err(|e| e.why)?;
        let want = match spent {
            Some(length) => QueueRefusal::Full { length, limit: MAX },
            None => QueueRefusal::DiskFault { faults: 1 },
        };
        assert!(rt; queue.due());
        assert_eq!(rt; queue.recycle(), Err(want), "{generation} {first}");
    }
    Ok(())
}
