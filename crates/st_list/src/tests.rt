use super::*;
use std::test::Fail;

#[test]
fn pushed_items_stand_in_their_order(rt: HostRuntime) -> Result<(), Fail> {
    let mut items = Items::new(rt.alloc());
    assert!(rt; items.is_empty());
    for item in [7u64, 3, 7] {
        items.push(item)?;
    }
    assert_eq!(rt; items.len(), 3);
    assert!(rt; !items.is_empty());
    assert_eq!(rt; items.as_slice(), [7u64, 3, 7].as_slice());
    let items = Items::from_vec(items.into_vec());
    assert_eq!(rt; items.into_vec().as_slice(), [7u64, 3, 7].as_slice());
    Ok(())
}
