use crate::Conds;
use std::test::Fail;
use thread_base::Tid;

/// Makes a condition where there is none of its number; whether it was made.
fn make(table: &mut Conds, c: u32) -> bool {
    if c >= 256 || table.exists(c) {
        return false;
    }
    table.init(c);
    true
}

/// Takes a condition away for which nobody waits; whether it was taken away.
fn unmake(table: &mut Conds, c: u32) -> bool {
    if !table.exists(c) || table.bound_mutex(c).is_some() {
        return false;
    }
    table.destroy(c);
    true
}

/// Puts a thread after those that wait for a condition; whether it waits for no other, there is the condition, and
/// its waiters use this mutex.
fn wait(table: &mut Conds, c: u32, number: u32, m: u32) -> bool {
    let Some(t) = Tid::new(number) else {
        return false;
    };
    if !table.exists(c) || table.awaited(t).is_some() {
        return false;
    }
    match table.bound_mutex(c) {
        Some(bound) => {
            if bound != m {
                return false;
            }
            table.wait(c, t, m);
        }
        None => table.wait(c, t, m),
    }
    true
}

/// Takes a thread out of those that wait for a condition; whether it waited for one.
fn leave(table: &mut Conds, number: u32) -> bool {
    let Some(t) = Tid::new(number) else {
        return false;
    };
    match table.awaited(t) {
        Some(_) => {
            table.remove(t);
            true
        }
        None => false,
    }
}

/// The first three that wait for a condition, and 0 after the last.
fn waiters(table: &Conds, c: u32) -> [u32; 3] {
    let mut numbers = [0; 3];
    if table.exists(c) {
        for (number, t) in numbers.iter_mut().zip(table.waiters(c).iter()) {
            *number = *t;
        }
    }
    numbers
}

/// The mutex that the waiters of a condition use, if there is one.
fn bound(table: &Conds, c: u32) -> Option<u32> {
    if table.exists(c) {
        table.bound_mutex(c)
    } else {
        None
    }
}

#[test]
fn conditions_by_number(rt: HostRuntime) -> Result<(), Fail> {
    let mut table = Conds::new(rt.alloc())?;
    for (c, made) in [(0, true), (255, true), (0, false), (256, false)] {
        assert_eq!(rt; make(&mut table, c), made, "condition {c}");
    }
    assert!(rt; wait(&mut table, 255, 1, 7));
    for (c, exists, taken) in [
        (0, true, true),
        (0, false, false),
        (255, true, false),
        (1, false, false),
    ] {
        assert_eq!(rt; table.exists(c), exists, "condition {c}");
        assert_eq!(rt; unmake(&mut table, c), taken, "condition {c}");
    }
    assert!(rt; leave(&mut table, 1));
    assert!(rt; unmake(&mut table, 255));
    Ok(())
}

#[test]
fn one_mutex_at_a_time(rt: HostRuntime) -> Result<(), Fail> {
    let mut table = Conds::new(rt.alloc())?;
    assert!(rt; make(&mut table, 3));
    assert!(rt; make(&mut table, 4));
    assert_eq!(rt; bound(&table, 3), None);
    for (c, number, m, joins) in [
        (3, 9, 0, true),
        (3, 2, 1, false),
        (3, 2, 0, true),
        (4, 2, 0, false),
        (4, 5, 1, true),
    ] {
        assert_eq!(rt; wait(&mut table, c, number, m), joins, "thread {number}");
    }
    assert_eq!(rt; bound(&table, 3), Some(0));
    assert_eq!(rt; bound(&table, 4), Some(1));
    for (m, used) in [(0, true), (1, true), (2, false)] {
        assert_eq!(rt; table.uses(m), used, "mutex {m}");
    }
    for number in [9, 2] {
        assert!(rt; table.uses(0));
        assert!(rt; leave(&mut table, number), "thread {number}");
    }
    assert!(rt; !table.uses(0));
    assert!(rt; wait(&mut table, 3, 9, 8));
    assert_eq!(rt; bound(&table, 3), Some(8));
    Ok(())
}

#[test]
fn earliest_of_equal_waiters(rt: HostRuntime) -> Result<(), Fail> {
    let mut table = Conds::new(rt.alloc())?;
    assert!(rt; make(&mut table, 3));
    for number in [9, 64, 1] {
        assert!(rt; wait(&mut table, 3, number, 5), "thread {number}");
    }
    let mut eff = [8u8; 64];
    for (level, best) in [(8, 9), (9, 64), (0, 9)] {
        eff[63] = level;
        if table.exists(3) {
            assert_eq!(rt; table.best(3, &eff), Tid::new(best), "level {level}");
        }
    }
    assert!(rt; leave(&mut table, 64));
    assert!(rt; !leave(&mut table, 64));
    assert_eq!(rt; waiters(&table, 3), [9, 1, 0]);
    assert_eq!(rt; table.awaited(Tid::new(1).ok_or("number")?), Some(3));
    Ok(())
}
