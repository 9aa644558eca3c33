//! A list that grows and is written.
use gic_prio::ListOf;
use std::test::Fail;

#[test]
fn keeps_order(rt: HostRuntime) -> Result<(), Fail> {
    let mut list = ListOf::new(rt.alloc());
    assert!(rt; list.is_empty());
    list.push(7u8)?;
    list.push(9)?;
    assert_eq!(rt; list.as_slice(), [7, 9].as_slice());
    assert_eq!(rt; list.get(1).copied(), Some(9));
    assert_eq!(rt; list.get(2).copied(), None);
    list.set(0, 8);
    assert_eq!(rt; list.get(0).copied(), Some(8));
    let again = ListOf::from(list.into_vec());
    assert_eq!(rt; again.len(), 2);
    assert_eq!(rt; again.iter().count(), 2);
    Ok(())
}
