use crate::Keys;
use std::test::Fail;
use thread_base::Tid;

#[test]
fn at_most_128_keys(rt: HostRuntime) -> Result<(), Fail> {
    let mut keys = Keys::new(rt.alloc())?;
    assert_eq!(rt; keys.destructor(0), None);
    for k in 0..128u32 {
        assert_eq!(rt; keys.create(4 * k), Some(k));
    }
    assert_eq!(rt; keys.create(0), None);
    assert_eq!(rt; keys.destructor(127), Some(508));
    assert_eq!(rt; keys.destructor(128), None);
    assert!(rt; keys.delete(5));
    assert!(rt; keys.delete(9));
    assert!(rt; !keys.delete(5));
    assert_eq!(rt; keys.create(64), Some(5));
    assert_eq!(rt; keys.destructor(5), Some(64));
    assert_eq!(rt; keys.destructor(9), None);
    Ok(())
}

#[test]
fn values_of_each_thread(rt: HostRuntime) -> Result<(), Fail> {
    let mut keys = Keys::new(rt.alloc())?;
    let first = Tid::new(1).ok_or("number")?;
    let last = Tid::new(64).ok_or("number")?;
    assert!(rt; !keys.set(first, 0, 7));
    assert_eq!(rt; keys.get(first, 0), None);
    assert_eq!(rt; keys.create(0), Some(0));
    assert_eq!(rt; keys.get(last, 0), Some(0));
    assert!(rt; keys.set(first, 0, 7));
    assert!(rt; keys.set(last, 0, 8));
    assert_eq!(rt; keys.get(first, 0), Some(7));
    assert_eq!(rt; keys.get(last, 0), Some(8));
    assert!(rt; !keys.set(last, 128, 9));
    assert_eq!(rt; keys.get(last, u32::MAX), None);
    Ok(())
}

#[test]
fn new_key_without_old_values(rt: HostRuntime) -> Result<(), Fail> {
    let mut keys = Keys::new(rt.alloc())?;
    let t = Tid::new(64).ok_or("number")?;
    assert_eq!(rt; keys.create(4096), Some(0));
    assert!(rt; keys.set(t, 0, 7));
    assert!(rt; keys.delete(0));
    assert_eq!(rt; keys.get(t, 0), None);
    assert_eq!(rt; keys.create(4096), Some(0));
    assert_eq!(rt; keys.get(t, 0), Some(0));
    Ok(())
}

#[test]
fn destructors_in_order(rt: HostRuntime) -> Result<(), Fail> {
    let mut keys = Keys::new(rt.alloc())?;
    let t = Tid::new(3).ok_or("number")?;
    let other = Tid::new(4).ok_or("number")?;
    for destructor in [4096, 0, 8192] {
        assert!(rt; keys.create(destructor).is_some());
    }
    for k in 0..3u32 {
        assert!(rt; keys.set(t, k, 10 + k));
        assert!(rt; keys.set(other, k, 20 + k));
    }
    assert_eq!(rt; keys.next_destructor(t, 1), Some((2, 8192, 12)));
    assert_eq!(rt; keys.next_destructor(t, 0), Some((0, 4096, 10)));
    assert_eq!(rt; keys.next_destructor(t, 0), None);
    assert_eq!(rt; keys.get(t, 0), Some(0));
    assert_eq!(rt; keys.get(t, 1), Some(11));
    assert_eq!(rt; keys.next_destructor(other, 3), None);
    assert_eq!(rt; keys.next_destructor(other, u32::MAX), None);
    assert_eq!(rt; keys.next_destructor(other, 0), Some((0, 4096, 20)));
    Ok(())
}

#[test]
fn clear_of_one_thread(rt: HostRuntime) -> Result<(), Fail> {
    let mut keys = Keys::new(rt.alloc())?;
    let t = Tid::new(64).ok_or("number")?;
    let other = Tid::new(1).ok_or("number")?;
    for k in 0..128u32 {
        assert_eq!(rt; keys.create(4096), Some(k));
        assert!(rt; keys.set(t, k, 7));
        assert!(rt; keys.set(other, k, 8));
    }
    keys.clear(t);
    assert_eq!(rt; keys.get(t, 0), Some(0));
    assert_eq!(rt; keys.get(t, 127), Some(0));
    assert_eq!(rt; keys.get(other, 0), Some(8));
    assert_eq!(rt; keys.get(other, 127), Some(8));
    assert_eq!(rt; keys.destructor(127), Some(4096));
    Ok(())
}
