use crate::{Holder, Kind, MutexState, Mutexes, Protocol};
use std::test::Fail;
use thread_base::{Prio, Tid};

/// Makes a mutex where there is none of its number; whether it was made.
fn make(table: &mut Mutexes, m: u32, kind: Kind, protocol: Protocol) -> bool {
    if m >= 256 || table.exists(m) {
        return false;
    }
    table.init(m, kind, protocol);
    true
}

/// Takes a mutex away for which nobody waits; whether it was taken away.
fn unmake(table: &mut Mutexes, m: u32) -> bool {
    if !table.exists(m) || table.best_waiter(m, &[0; 64]).is_some() {
        return false;
    }
    table.destroy(m);
    true
}

/// Puts a thread after those that wait for a mutex; whether it waits for no other, and there is the mutex.
fn wait(table: &mut Mutexes, m: u32, number: u32) -> bool {
    let Some(t) = Tid::new(number) else {
        return false;
    };
    if !table.exists(m) || table.awaited(t).is_some() {
        return false;
    }
    table.add_waiter(m, t);
    true
}

/// Takes a thread out of those that wait for a mutex; whether it waited for one.
fn leave(table: &mut Mutexes, number: u32) -> bool {
    let Some(t) = Tid::new(number) else {
        return false;
    };
    match table.awaited(t) {
        Some(_) => {
            table.remove_waiter(t);
            true
        }
        None => false,
    }
}

/// The first three that wait for a mutex, and 0 after the last.
fn waiters(table: &Mutexes, m: u32) -> [u32; 3] {
    let mut numbers = [0; 3];
    if table.exists(m) {
        for (number, t) in numbers.iter_mut().zip(table.waiters(m).iter()) {
            *number = *t;
        }
    }
    numbers
}

/// Gives a mutex that exists to somebody else; whether it exists.
fn give(table: &mut Mutexes, m: u32, holder: Holder) -> bool {
    if !table.exists(m) {
        return false;
    }
    table.put_holder(m, holder);
    true
}

#[test]
fn kinds_protocols_holders(rt: HostRuntime) -> Result<(), Fail> {
    let mut table = Mutexes::new(rt.alloc())?;
    let ceiling = Protocol::Protect(Prio::new(5).ok_or("priority")?);
    let by = Tid::new(7).ok_or("number")?;
    assert!(rt; !table.exists(0));
    for (m, kind) in [
        (0, Kind::Normal),
        (1, Kind::ErrorCheck),
        (255, Kind::Recursive),
    ] {
        assert!(rt; make(&mut table, m, kind, ceiling), "mutex {m}");
        assert!(rt;
            !make(&mut table, m, Kind::Normal, ceiling),
            "mutex {m} again"
        );
        let holder = Holder::Free;
        assert_eq!(rt;
            table.lookup(m),
            Some(MutexState {
                kind,
                protocol: ceiling,
                holder
            })
        );
    }
    assert!(rt; !make(&mut table, 256, Kind::Normal, ceiling));
    assert!(rt; give(&mut table, 255, Holder::Held { by, count: 9 }));
    assert!(rt; give(&mut table, 1, Holder::Orphan));
    if table.exists(255) && table.exists(1) {
        assert_eq!(rt; table.kind(255), Kind::Recursive);
        assert_eq!(rt; table.protocol(255), ceiling);
        assert_eq!(rt; table.holder(255), Holder::Held { by, count: 9 });
        assert_eq!(rt; table.holder(1), Holder::Orphan);
    }
    assert!(rt; unmake(&mut table, 1));
    assert!(rt; !table.exists(1));
    assert!(rt; table.exists(255));
    Ok(())
}

#[test]
fn earliest_of_equal_waiters(rt: HostRuntime) -> Result<(), Fail> {
    let mut table = Mutexes::new(rt.alloc())?;
    assert!(rt; make(&mut table, 3, Kind::Normal, Protocol::Plain));
    assert!(rt; make(&mut table, 4, Kind::Normal, Protocol::Inherit));
    for (m, number) in [(3, 9), (3, 64), (4, 2), (3, 1)] {
        assert!(rt; wait(&mut table, m, number), "thread {number}");
        assert!(rt; !wait(&mut table, 4, number), "thread {number} again");
    }
    assert_eq!(rt; waiters(&table, 3), [9, 64, 1]);
    assert!(rt; !unmake(&mut table, 3));
    let mut eff = [8u8; 64];
    eff[1] = 31;
    for (level, best) in [(8, 9), (9, 64), (0, 9)] {
        eff[63] = level;
        if table.exists(3) {
            assert_eq!(rt; table.best_waiter(3, &eff), Tid::new(best), "level {level}");
        }
    }
    assert!(rt; leave(&mut table, 64));
    assert!(rt; !leave(&mut table, 64));
    assert_eq!(rt; waiters(&table, 3), [9, 1, 0]);
    assert!(rt; leave(&mut table, 9));
    assert!(rt; leave(&mut table, 1));
    assert!(rt; unmake(&mut table, 3));
    assert_eq!(rt; table.awaited(Tid::new(2).ok_or("number")?), Some(4));
    Ok(())
}

#[test]
fn owned_by_one_thread(rt: HostRuntime) -> Result<(), Fail> {
    let mut table = Mutexes::new(rt.alloc())?;
    let by = Tid::new(7).ok_or("number")?;
    let other = Tid::new(8).ok_or("number")?;
    for m in [0, 100, 101, 255] {
        assert!(rt;
            make(&mut table, m, Kind::Normal, Protocol::Plain),
            "mutex {m}"
        );
        assert!(rt;
            give(&mut table, m, Holder::Held { by, count: 1 }),
            "mutex {m}"
        );
    }
    assert!(rt;
        give(
            &mut table,
            100,
            Holder::Held {
                by: other,
                count: 1
            }
        )
    );
    for (from, found) in [(0, Some(0)), (1, Some(101)), (102, Some(255)), (256, None)] {
        assert_eq!(rt; table.next_owned(by, from), found, "from {from}");
    }
    assert_eq!(rt; table.next_owned(other, 0), Some(100));
    Ok(())
}
