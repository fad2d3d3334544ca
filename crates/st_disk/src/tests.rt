use super::*;
use std::alloc::Global;
use std::test::Fail;

// File 0 is "abcd" and then "abXYZ", of which the last three bytes aren't synced; file 1 has two bytes, not synced.
fn written(alloc: Global) -> Result<Memory, Fail> {
    let mut disk = Memory::with(alloc, b"abcd".to_vec(alloc)?, Vec::new(alloc));
    if disk.len(0)? == 4 && disk.len(1)? == 0 {
        disk.write_at(0, 2, b"XYZ")?;
        disk.write_at(1, 0, &[9, 8])?;
    }
    Ok(disk)
}

#[test]
fn a_disk_in_memory_reads_what_was_written(rt: HostRuntime) -> Result<(), Fail> {
    let mut disk = written(rt.alloc())?;
    assert_eq!(rt; disk.bytes(0), b"abXYZ".as_slice());
    assert_eq!(rt; disk.len(0)?, 5);
    let mut part = [0; 3];
    assert!(rt; disk.bytes(0).len() == 5);
    disk.read(0, 1, &mut part)?;
    assert_eq!(rt; part, *b"bXY");
    disk.sync(0)?;
    disk.sync(0)?;
    assert_eq!(rt; disk.faults(), 0);
    Ok(())
}

// The choice, and what it leaves of file 0 and of file 1: the words are those of an independent PCG32.
const LEFT: [(u64, &[u8], &[u8]); 6] = [
    (0, b"abcd", &[]),
    (1, b"abXYZ", &[9, 8]),
    (2, &[97, 98, 99, 89, 90], &[93, 0]),
    (3, &[97, 98, 3, 76, 90], &[179, 8]),
    (7, &[97, 98, 88, 28, 90], &[0, 0]),
    (12, &[97, 98, 113, 89, 0], &[0, 93]),
];

#[test]
fn a_restart_leaves_what_was_chosen(rt: HostRuntime) -> Result<(), Fail> {
    for (choice, zero, one) in LEFT {
        let mut disk = written(rt.alloc())?;
        disk.restart(choice)?;
        assert_eq!(rt; disk.bytes(0), zero, "choice {choice}");
        assert_eq!(rt; disk.bytes(1), one, "choice {choice}");
        // Nothing is unsynced after it.
        disk.restart(0)?;
        assert_eq!(rt; disk.bytes(0), zero, "choice {choice}, again");
    }
    Ok(())
}

#[test]
fn a_restart_finds_each_files_last_sync(rt: HostRuntime) -> Result<(), Fail> {
    let mut disk = written(rt.alloc())?;
    disk.sync(1)?;
    assert!(rt; disk.bytes(1).len() == 2);
    disk.write_at(1, 1, &[7])?;
    disk.sync(0)?;
    disk.restart(0)?;
    assert_eq!(rt; disk.bytes(0), b"abXYZ".as_slice());
    assert_eq!(rt; disk.bytes(1), [9, 8].as_slice());
    Ok(())
}

#[test]
fn listed_calls_fail(rt: HostRuntime) -> Result<(), Fail> {
    let alloc = rt.alloc();
    let mut disk = Failing::new(Memory::new(alloc), vec![in alloc; 2, 4]?);
    assert_eq!(rt; disk.len(0), Ok(0));
    assert_eq!(rt; disk.sync(0), Err(Failed));
    assert_eq!(rt; disk.write_at(0, 0, &[5]), Ok(()));
    assert_eq!(rt; disk.len(0), Err(Failed));
    assert_eq!(rt; disk.len(0), Ok(1));
    assert_eq!(rt; disk.faults(), 2);
    disk.restart(1)?;
    assert_eq!(rt; disk.sync(1), Ok(()));
    assert_eq!(rt; disk.into_inner().bytes(0), [5].as_slice());
    Ok(())
}

#[test]
fn a_fuse_blows_once_its_calls_have_passed(rt: HostRuntime) -> Result<(), Fail> {
    let mut disk = Fused::new(Memory::new(rt.alloc()), Some(2));
    assert_eq!(rt; disk.write_at(0, 0, &[5]), Ok(()));
    assert_eq!(rt; disk.sync(0), Ok(()));
    assert_eq!(rt; disk.len(0), Ok(1));
    assert!(rt; !disk.blown());
    assert_eq!(rt; disk.write_at(0, 0, &[6]), Err(DiskRefusal::Failed));
    assert!(rt; disk.blown());
    assert_eq!(rt; disk.len(0), Err(Failed));
    assert_eq!(rt; disk.faults(), 2);
    let below = disk.into_inner();
    assert_eq!(rt; below.faults(), 0);
    assert_eq!(rt; below.bytes(0), [5].as_slice());
    Ok(())
}

#[test]
fn no_fuse_never_blows(rt: HostRuntime) -> Result<(), Fail> {
    let mut disk = Fused::new(Memory::new(rt.alloc()), None);
    for _ in 0..5 {
        disk.sync(1)?;
    }
    assert!(rt; !disk.blown());
    Ok(())
}
