use crate::{Row, Threads};
use std::test::Fail;
use thread_base::{Policy, Prio, Tid};

/// A row that is told apart from others by its used quantum.
fn row(used: u32) -> Option<Row> {
    Some(Row {
        base: Prio::new(10)?,
        policy: Policy::Rr,
        used,
        detached: false,
        joiner: None,
        ended: None,
    })
}

#[test]
fn least_number_is_free_again(rt: HostRuntime) -> Result<(), Fail> {
    let mut threads = Threads::new();
    for number in 1..65u32 {
        let made = threads.make(row(number).ok_or("row")?);
        assert_eq!(rt; made, Tid::new(number), "thread {number}");
    }
    let other = row(0).ok_or("row")?;
    assert_eq!(rt; threads.make(other), None);
    assert_eq!(rt; threads.live(), 64);
    for number in [40, 7] {
        let t = Tid::new(number).ok_or("number")?;
        assert!(rt; threads.row(t).is_some());
        threads.free(t);
    }
    for answer in [Tid::new(7), Tid::new(40), None] {
        let made = threads.make(row(0).ok_or("row")?);
        assert_eq!(rt; made, answer);
    }
    Ok(())
}

#[test]
fn rows_of_three(rt: HostRuntime) -> Result<(), Fail> {
    let mut threads = Threads::new();
    let first = threads.make(row(1).ok_or("row")?).ok_or("first")?;
    let second = threads.make(row(2).ok_or("row")?).ok_or("second")?;
    let third = threads.make(row(3).ok_or("row")?).ok_or("third")?;
    let ended = Row {
        ended: Some(5),
        joiner: Some(first),
        ..row(9).ok_or("row")?
    };
    assert!(rt; threads.row(second).is_some());
    threads.put(second, ended);
    assert_eq!(rt; threads.row(first), row(1));
    assert_eq!(rt; threads.row(second), Some(ended));
    assert_eq!(rt; threads.row(third), row(3));
    assert_eq!(rt; threads.live(), 2);
    assert!(rt; threads.row(second).is_some());
    threads.free(second);
    assert_eq!(rt; threads.row(second), None);
    assert_eq!(rt; threads.row(third), row(3));
    assert_eq!(rt; threads.live(), 2);
    Ok(())
}
