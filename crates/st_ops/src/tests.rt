use super::*;
use bytes::Bytes;
use std::test::Fail;

#[test]
fn what_is_encoded_is_decoded(rt: HostRuntime) -> Result<(), Fail> {
    let a: Bytes = Bytes::from_static(b"a");
    let b: Bytes = Bytes::from_static(b"b");
    let one: Bytes = Bytes::from_static(b"1");
    let ops = [
        Op::Set(a.clone()?, one.clone()?),
        Op::Clear(Bytes::new(), a.clone()?),
        Op::SnapItem(a, one),
        Op::SnapItem(b, Bytes::new()),
        Op::SnapEnd,
        Op::Commit,
    ];
    let bytes = encode(rt.alloc(), &ops)?;
    let expected =
        b"\x01\x01\0\0\0\x01\0\0\0a1\x02\0\0\0\0\x01\0\0\0a\x03\x01\0\0\0\x01\0\0\0a1\x03\x01\0\0\0\0\0\0\0b\x04\x05";
    assert_eq!(rt; bytes.as_slice(), expected.as_slice());
    let Ok(read) = decode(rt.alloc(), &bytes) else {
        return Err("no list".into());
    };
    assert!(rt; read.as_slice() == ops.as_slice());
    Ok(())
}

#[test]
fn faults_are_told_at_their_tag(rt: HostRuntime) {
    let rows: [(&[u8], u64); 9] = [
        // nothing, and nothing behind the snapshot's end
        (b"", 0),
        (b"\x04", 1),
        // behind the commit
        (b"\x05\x05", 1),
        // lengths and fields that are cut short
        (b"\x01\x05", 0),
        (b"\x04\x03\0\0\0\0\0\0\0", 1),
        (b"\x01\0\0\0\0\x02\0\0\0\x05", 0),
        // a clear of no key, an unknown tag, and an item behind the end
        (b"\x02\x01\0\0\0\x01\0\0\0aa\x05", 0),
        (b"\x06\x05", 0),
        (b"\x04\x03\0\0\0\0\0\0\0\0\x05", 1),
    ];
    for (bytes, at) in rows {
        assert!(rt;
            decode(rt.alloc(), bytes).err() == Some(OpsRefusal::BadOps { at }),
            "{bytes:?}"
        );
    }
}

#[test]
fn the_shortest_lists_are_read(rt: HostRuntime) {
    let rows: [(&[u8], usize); 2] = [(b"\x05", 1), (b"\x04\x05", 2)];
    for (bytes, count) in rows {
        assert!(rt;
            decode(rt.alloc(), bytes).is_ok_and(|ops| ops.len() == count),
            "{bytes:?}"
        );
    }
}
