use crate::TimeQueue;
use thread_base::Tid;

#[test]
fn the_lowest_due_thread_is_told(rt: HostRuntime) {
    let mut queue = TimeQueue::new();
    assert_eq!(rt; queue.due(u64::MAX), None);
    queue.set(Tid::at(63), 5);
    queue.set(Tid::at(8), 7);
    queue.set(Tid::at(1), u64::MAX);
    for (now, due) in [
        (4, None),
        (5, Some(64)),
        (6, Some(64)),
        (7, Some(9)),
        (u64::MAX, Some(2)),
    ] {
        assert_eq!(rt; queue.due(now).map(Tid::number), due, "at {now}");
    }
}

#[test]
fn deadlines_are_set_and_cancelled(rt: HostRuntime) {
    let mut queue = TimeQueue::new();
    queue.set(Tid::at(0), 3);
    queue.set(Tid::at(4), 9);
    assert_eq!(rt; queue.deadline(Tid::at(0)), Some(3));
    queue.set(Tid::at(0), 12);
    assert_eq!(rt; queue.deadline(Tid::at(0)), Some(12));
    queue.cancel(Tid::at(0));
    assert_eq!(rt; queue.deadline(Tid::at(0)), None);
    assert_eq!(rt; queue.deadline(Tid::at(4)), Some(9));
    assert_eq!(rt; queue.due(20).map(Tid::number), Some(5));
}

#[test]
fn later_due_threads_follow(rt: HostRuntime) {
    let mut queue = TimeQueue::new();
    queue.set(Tid::at(2), 5);
    queue.set(Tid::at(63), 4);
    for (number, due) in [
        (0, Some(3)),
        (3, Some(3)),
        (4, Some(64)),
        (64, Some(64)),
        (65, None),
    ] {
        assert_eq!(rt;
            queue.due_from(number, 5).map(Tid::number),
            due,
            "from {number}"
        );
    }
}
