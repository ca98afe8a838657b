use crate::{Cancels, Cleanup};
use std::test::Fail;
use thread_base::Tid;

/// A record that is told apart by its argument.
fn cleanup(arg: u32) -> Cleanup {
    Cleanup { routine: 4096, arg }
}

#[test]
fn at_most_32_records(rt: HostRuntime) -> Result<(), Fail> {
    let mut cancels = Cancels::new(rt.alloc())?;
    let t = Tid::new(64).ok_or("number")?;
    let other = Tid::new(63).ok_or("number")?;
    assert_eq!(rt; cancels.last(t), None);
    for arg in 0..32u32 {
        assert!(rt; cancels.push(t, cleanup(arg)), "record {arg}");
        assert_eq!(rt; cancels.last(t), Some(cleanup(arg)));
    }
    assert!(rt; !cancels.push(t, cleanup(32)));
    assert_eq!(rt; cancels.depth(t), 32);
    assert_eq!(rt; cancels.depth(other), 0);
    for below in 0..32u32 {
        assert_eq!(rt; cancels.pop(t), Some(cleanup(31 - below)));
    }
    assert_eq!(rt; cancels.pop(t), None);
    Ok(())
}

#[test]
fn flags_of_each_thread(rt: HostRuntime) -> Result<(), Fail> {
    let mut cancels = Cancels::new(rt.alloc())?;
    let first = Tid::new(1).ok_or("number")?;
    let last = Tid::new(64).ok_or("number")?;
    assert_eq!(rt; cancels.flags(first), (true, false, false));
    assert_eq!(rt; cancels.flags(last), (true, false, false));
    cancels.set_flags(first, (false, true, false));
    cancels.set_flags(last, (true, true, true));
    assert_eq!(rt; cancels.flags(first), (false, true, false));
    assert_eq!(rt; cancels.flags(last), (true, true, true));
    Ok(())
}

#[test]
fn reset_of_one_thread(rt: HostRuntime) -> Result<(), Fail> {
    let mut cancels = Cancels::new(rt.alloc())?;
    let t = Tid::new(64).ok_or("number")?;
    let other = Tid::new(1).ok_or("number")?;
    for thread in [t, other] {
        assert!(rt; cancels.push(thread, cleanup(7)));
        cancels.set_flags(thread, (false, true, true));
    }
    cancels.reset(t);
    assert_eq!(rt; cancels.depth(t), 0);
    assert_eq!(rt; cancels.flags(t), (true, false, false));
    assert_eq!(rt; cancels.last(other), Some(cleanup(7)));
    assert_eq!(rt; cancels.flags(other), (false, true, true));
    Ok(())
}
