use super::*;
use st_list::Items;
use st_mutation::Batch;
use std::alloc::{AllocError, Global};
use std::test::Fail;

// The cursor over empty batches of these versions.
fn cursor(alloc: Global, versions: &[u64]) -> Result<Cursor, AllocError> {
    let mut log = Vec::new(alloc);
    for version in versions {
        log.push(Batch {
            version: *version,
            moves: Items::new(alloc),
            mutations: Items::new(alloc),
        })?;
    }
    Ok(Cursor::new(log))
}

fn next(cursor: &mut Cursor) -> Option<u64> {
    match cursor.next() {
        Some(batch) => Some(batch.version),
        None => None,
    }
}

#[test]
fn batches_come_in_order(rt: HostRuntime) -> Result<(), Fail> {
    let mut cursor = cursor(rt.alloc(), &[3, 5, 9])?;
    for version in [3, 5, 9] {
        assert_eq!(rt; cursor.peek(), Some(version));
        assert_eq!(rt; next(&mut cursor), Some(version));
    }
    assert_eq!(rt; cursor.peek(), None);
    assert_eq!(rt; next(&mut cursor), None);
    Ok(())
}

#[test]
fn a_rewind_makes_the_first_batch_above_its_version_next(rt: HostRuntime) -> Result<(), Fail> {
    let mut cursor = cursor(rt.alloc(), &[3, 5, 9])?;
    for (version, want) in [
        (4, Some(5)),
        (9, None),
        (5, Some(9)),
        (0, Some(3)),
        (8, Some(9)),
        (3, Some(5)),
    ] {
        assert_eq!(rt; cursor.rewind(version), Ok(()));
        assert_eq!(rt; cursor.peek(), want, "{version}");
        assert_eq!(rt; next(&mut cursor), want, "{version}");
    }
    Ok(())
}

#[test]
fn what_was_popped_is_not_read_again(rt: HostRuntime) -> Result<(), Fail> {
    let mut cursor = cursor(rt.alloc(), &[1, 2, 3])?;
    cursor.pop(2);
    assert_eq!(rt; cursor.rewind(1), Err(Popped { version: 2 }));
    assert_eq!(rt; cursor.rewind(2), Ok(()));
    assert_eq!(rt; next(&mut cursor), Some(3));
    cursor.pop(1);
    assert_eq!(rt; cursor.peek(), None);
    assert_eq!(rt; cursor.rewind(1), Err(Popped { version: 2 }));
    Ok(())
}

#[test]
fn a_pop_passes_what_was_not_read(rt: HostRuntime) -> Result<(), Fail> {
    let mut cursor = cursor(rt.alloc(), &[1, 2, 3])?;
    cursor.pop(2);
    assert_eq!(rt; next(&mut cursor), Some(3));
    Ok(())
}
