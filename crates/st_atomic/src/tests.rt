use super::*;
use std::test::Fail;

// The value afterwards. A value or an operand that is too long is a fault of the test.
fn after(
    alloc: Global,
    op: AtomicOp,
    old: Option<&[u8]>,
    operand: &[u8],
) -> Result<Option<Vec<u8>>, Fail> {
    if let Some(old) = old {
        if old.len() > MAX_VALUE_LEN {
            return Err(Fail::new("a value is too long"));
        }
    }
    if operand.len() > MAX_VALUE_LEN {
        return Err(Fail::new("an operand is too long"));
    }
    Ok(apply(alloc, op, old, operand)?)
}

#[test]
fn operations_at_their_edges(rt: HostRuntime) -> Result<(), Fail> {
    use AtomicOp::*;
    let rows: [(AtomicOp, Option<&[u8]>, &[u8], Option<&[u8]>); 38] = [
        (Add, None, b"", Some(b"")),
        (Add, None, b"\x01\x00", Some(b"\x01\x00")),
        (Add, Some(b"\x05"), b"", Some(b"")),
        (Add, Some(b"\xff"), b"\x01", Some(b"\x00")),
        (Add, Some(b"\x01\x02"), b"\x01", Some(b"\x02")),
        (Add, Some(b"\xff"), b"\x01\x00\x07", Some(b"\x00\x01\x07")),
        (Add, Some(b""), b"\xff\xff", Some(b"\xff\xff")),
        (And, None, b"\x07", Some(b"\x07")),
        (And, Some(b""), b"\x07", Some(b"\x00")),
        (And, Some(b"\xff"), b"\x0f\x0f", Some(b"\x0f\x00")),
        (And, Some(b"\x3c\x01"), b"\x0f", Some(b"\x0c")),
        (Or, None, b"\x02", Some(b"\x02")),
        (Or, Some(b"\x01"), b"\x02\x00", Some(b"\x03\x00")),
        (Or, Some(b"\x01\x01"), b"", Some(b"")),
        (Xor, None, b"\xff", Some(b"\xff")),
        (Xor, Some(b"\xff\x0f"), b"\x0f", Some(b"\xf0")),
        (Max, None, b"\x00", Some(b"\x00")),
        (Max, Some(b"\x01\x02"), b"\x01", Some(b"\x01")),
        (Max, Some(b"\xff\x02"), b"\x01\x03", Some(b"\x01\x03")),
        (Max, Some(b"\x09"), b"\x08\x00", Some(b"\x09\x00")),
        (Max, Some(b"\x09"), b"", Some(b"")),
        (Min, None, b"\x07", Some(b"\x07")),
        (Min, Some(b""), b"\x07", Some(b"\x00")),
        (Min, Some(b"\x05\x02"), b"\x06\x00", Some(b"\x06\x00")),
        (Min, Some(b"\x05"), b"\x06\x00", Some(b"\x05\x00")),
        (ByteMin, None, b"\x01", Some(b"\x01")),
        (ByteMin, Some(b"\x02"), b"\x01\x02", Some(b"\x01\x02")),
        (ByteMin, Some(b"\x01"), b"\x01\x00", Some(b"\x01")),
        (ByteMax, None, b"\x00", Some(b"\x00")),
        (ByteMax, Some(b"\x01"), b"\x01\x00", Some(b"\x01\x00")),
        (ByteMax, Some(b"\x02"), b"", Some(b"\x02")),
        (AppendIfFits, None, b"ab", Some(b"ab")),
        (AppendIfFits, Some(b"ab"), b"", Some(b"ab")),
        (CompareAndClear, None, b"1", None),
        (CompareAndClear, Some(b"1"), b"1", None),
        (CompareAndClear, Some(b"1"), b"2", Some(b"1")),
        (CompareAndClear, Some(b"1"), b"11", Some(b"1")),
        (CompareAndClear, Some(b""), b"", None),
    ];
    for (op, old, operand, wanted) in rows {
        let found = after(rt.alloc(), op, old, operand)?;
        assert_eq!(rt;
            found.as_deref(),
            wanted,
            "{op:?} of {old:?} with {operand:?}"
        );
    }
    Ok(())
}

#[test]
fn sums_wrap_at_every_width(rt: HostRuntime) -> Result<(), Fail> {
    let ones = [0xff; 9];
    let one = [1, 0, 0, 0, 0, 0, 0, 0, 0];
    let twice = [0xfe, 0xff, 0xff, 0xff, 0xff, 0xff, 0xff, 0xff, 0xff];
    for width in 1..10 {
        let wrapped = after(rt.alloc(), AtomicOp::Add, Some(&ones), &one[..width])?;
        assert_eq!(rt;
            wrapped.as_deref(),
            Some(&[0; 9][..width]),
            "one at {width}"
        );
        let doubled = after(
            rt.alloc(),
            AtomicOp::Add,
            Some(&ones[..width]),
            &ones[..width],
        )?;
        assert_eq!(rt;
            doubled.as_deref(),
            Some(&twice[..width]),
            "all ones at {width}"
        );
    }
    Ok(())
}

#[test]
fn values_grow_to_the_limit(rt: HostRuntime) -> Result<(), Fail> {
    let full = vec![in rt.alloc(); 7; MAX_VALUE_LEN]?;
    let short = &full[1..];
    // the length of the old value, the operand, the length afterwards
    let rows: [(&[u8], &[u8], usize); 5] = [
        (short, b"\x07", 100_000),
        (short, b"\x07\x07", 99_999),
        (&full, b"", 100_000),
        (&full, b"\x07", 100_000),
        (b"", &full, 100_000),
    ];
    for (old, operand, len) in rows {
        let grown = after(rt.alloc(), AtomicOp::AppendIfFits, Some(old), operand)?;
        assert_eq!(rt;
            grown.as_deref(),
            full.get(..len),
            "{} and {}",
            old.len(),
            operand.len()
        );
    }
    Ok(())
}
