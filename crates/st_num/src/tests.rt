use super::*;
use std::test::Fail;

#[test]
fn numbers_go_out_and_come_back(rt: HostRuntime) -> Result<(), Fail> {
    let mut out = Vec::new(rt.alloc());
    put_u32(&mut out, 0x0102_0304)?;
    put_u64(&mut out, 0x1112_1314_1516_1718)?;
    let bytes = [4, 3, 2, 1, 0x18, 0x17, 0x16, 0x15, 0x14, 0x13, 0x12, 0x11];
    assert_eq!(rt; out.as_slice(), bytes.as_slice());
    assert_eq!(rt; take_u32(&out, 0), Some(0x0102_0304));
    assert_eq!(rt; take_u64(&out, 4), Some(0x1112_1314_1516_1718));
    Ok(())
}

#[test]
fn a_number_cut_short_is_none(rt: HostRuntime) {
    let bytes = [1, 2, 3, 4, 5, 6, 7, 8];
    assert_eq!(rt; take_u32(&bytes, 4), Some(0x0807_0605));
    assert_eq!(rt; take_u32(&bytes, 5), None);
    assert_eq!(rt; take_u32(&bytes, usize::MAX), None);
    assert_eq!(rt; take_u64(&bytes, 0), Some(0x0807_0605_0403_0201));
    assert_eq!(rt; take_u64(&bytes, 1), None);
    assert_eq!(rt; take_u64(&bytes, 9), None);
}
