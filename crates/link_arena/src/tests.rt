ghost use Rattle.std.specs.Prelude.{◌≡◌, ◌<◌, length};

use crate::{Links, Stacks, WaitQueues};
use std::test::Fail;
use thread_base::Tid;

/// One change of the lists.
#[derive(Clone, Copy, Debug, PartialEq, Eq)]
enum Change {
    Push(u32, u32),
    Insert(u32, u32),
    Unlink(u32),
}

/// The first nodes of a list, and 99 after the last.
fn front(links: &Links, head: u32) -> [u32; 4]
    requires { (links.now.nodes ≡ 8) × (head < length links.now.lists) }
{
    let mut nodes = [99; 4];
    let mut next = links.first(head);
    for slot in nodes.iter_mut() {
        let Some(node) = next else {
            break;
        };
        if node >= 8 {
            break;
        }
        *slot = node;
        next = links.next(node);
    }
    nodes
}

/// Puts a node after all others, where it is free; whether it was put.
fn push(links: &mut Links, head: u32, node: u32) -> bool
    requires { (links.old.nodes ≡ 8) × (length links.old.lists ≡ 3) }
    ensures { (links.new.nodes ≡ 8) × (length links.new.lists ≡ 3) }
{
    if head >= 3 || node >= 8 || links.head_of(node).is_some() {
        return false;
    }
    links.push_back(head, node);
    true
}

/// Puts a node before another, where that can be done; whether it was put.
fn insert(links: &mut Links, node: u32, at: u32) -> bool
    requires { (links.old.nodes ≡ 8) × (length links.old.lists ≡ 3) }
    ensures { (links.new.nodes ≡ 8) × (length links.new.lists ≡ 3) }
{
    if node >= 8 || at >= 8 || links.head_of(node).is_some() || links.head_of(at).is_none() {
        return false;
    }
    links.insert_before(node, at);
    true
}

/// Takes a node out of its list, where it stands in one; whether it did.
fn unlink(links: &mut Links, node: u32) -> bool
    requires { (links.old.nodes ≡ 8) × (length links.old.lists ≡ 3) }
    ensures { (links.new.nodes ≡ 8) × (length links.new.lists ≡ 3) }
{
    if node >= 8 || links.head_of(node).is_none() {
        return false;
    }
    links.unlink(node);
    true
}

/// Makes a change, where that can be done; whether it was made.
fn make(links: &mut Links, change: Change) -> bool
    requires { (links.old.nodes ≡ 8) × (length links.old.lists ≡ 3) }
    ensures { (links.new.nodes ≡ 8) × (length links.new.lists ≡ 3) }
{
    match change {
        Change::Push(head, node) => push(links, head, node),
        Change::Insert(node, at) => insert(links, node, at),
        Change::Unlink(node) => unlink(links, node),
    }
}

#[test]
fn one_list_at_a_time(rt: HostRuntime) -> Result<(), Fail> {
    let mut links = Links::new(rt.alloc(), 8, 3)?;
    let rows = [
        (Change::Push(0, 5), [[5, 99, 99, 99], [99; 4]]),
        (Change::Push(0, 2), [[5, 2, 99, 99], [99; 4]]),
        (Change::Push(2, 7), [[5, 2, 99, 99], [7, 99, 99, 99]]),
        (Change::Insert(0, 2), [[5, 0, 2, 99], [7, 99, 99, 99]]),
        (Change::Insert(1, 5), [[1, 5, 0, 2], [7, 99, 99, 99]]),
        (Change::Insert(6, 7), [[1, 5, 0, 2], [6, 7, 99, 99]]),
        (Change::Unlink(5), [[1, 0, 2, 99], [6, 7, 99, 99]]),
        (Change::Unlink(2), [[1, 0, 99, 99], [6, 7, 99, 99]]),
        (Change::Push(2, 5), [[1, 0, 99, 99], [6, 7, 5, 99]]),
        (Change::Unlink(1), [[0, 99, 99, 99], [6, 7, 5, 99]]),
        (Change::Unlink(0), [[99; 4], [6, 7, 5, 99]]),
        (Change::Push(0, 2), [[2, 99, 99, 99], [6, 7, 5, 99]]),
    ];
    for (change, fronts) in rows {
        assert!(rt; make(&mut links, change), "{change:?}");
        assert_eq!(rt; [front(&links, 0), front(&links, 2)], fronts, "{change:?}");
    }
    assert_eq!(rt; front(&links, 1), [99; 4]);
    assert_eq!(rt; links.head_of(5), Some(2));
    assert_eq!(rt; links.head_of(1), None);
    assert_eq!(rt; links.next(1), None);
    for change in [
        Change::Push(1, 2),
        Change::Insert(2, 5),
        Change::Insert(3, 4),
        Change::Unlink(4),
    ] {
        assert!(rt; !make(&mut links, change), "{change:?}");
    }
    Ok(())
}

/// The numbers of the first threads of a list, and 0 after the last.
fn first_numbers(queues: &WaitQueues, n: u32) -> [u32; 4] {
    let mut numbers = [0; 4];
    if n < 256 {
        for (number, t) in numbers.iter_mut().zip(queues.threads(n).iter()) {
            *number = *t;
        }
    }
    numbers
}

/// Puts a thread after all others of a list, where it stands in none; whether it was put.
fn wait(queues: &mut WaitQueues, n: u32, number: u32) -> bool {
    let Some(t) = Tid::new(number) else {
        return false;
    };
    if n >= 256 || queues.awaited(t).is_some() {
        return false;
    }
    queues.push(n, t);
    true
}

#[test]
fn one_queue_at_a_time(rt: HostRuntime) -> Result<(), Fail> {
    let mut queues = WaitQueues::new(rt.alloc())?;
    for (n, number) in [(0, 9), (255, 1), (0, 64), (0, 33), (255, 2)] {
        assert!(rt; wait(&mut queues, n, number), "thread {number}");
        assert!(rt; !wait(&mut queues, 7, number), "thread {number} again");
    }
    assert_eq!(rt; first_numbers(&queues, 0), [9, 64, 33, 0]);
    assert_eq!(rt; first_numbers(&queues, 255), [1, 2, 0, 0]);
    assert_eq!(rt; [queues.is_empty(0), queues.is_empty(7)], [false, true]);
    for (number, left) in [(64, [9, 33, 0, 0]), (2, [9, 33, 0, 0]), (9, [33, 0, 0, 0])] {
        let t = Tid::new(number).ok_or("number")?;
        queues.remove(t);
        assert_eq!(rt; queues.awaited(t), None);
        assert_eq!(rt; first_numbers(&queues, 0), left, "without {number}");
    }
    assert!(rt; wait(&mut queues, 7, 9));
    assert_eq!(rt; queues.awaited(Tid::new(9).ok_or("number")?), Some(7));
    assert_eq!(rt; first_numbers(&queues, 255), [1, 0, 0, 0]);
    Ok(())
}

#[test]
fn earliest_of_the_greatest(rt: HostRuntime) -> Result<(), Fail> {
    let mut queues = WaitQueues::new(rt.alloc())?;
    let mut levels = [0u8; 64];
    assert_eq!(rt; queues.best(3, &levels), None);
    for (number, level) in [(5, 3), (2, 3), (64, 31), (7, 31), (1, 0)] {
        let t = Tid::new(number).ok_or("number")?;
        levels[t.index()] = level;
        assert!(rt; wait(&mut queues, 3, number), "thread {number}");
    }
    for number in [64, 7, 5, 2, 1] {
        let t = Tid::new(number).ok_or("number")?;
        assert_eq!(rt; queues.best(3, &levels), Some(t));
        queues.remove(t);
    }
    assert_eq!(rt; queues.best(3, &levels), None);
    Ok(())
}

#[test]
fn stacks_of_32(rt: HostRuntime) -> Result<(), Fail> {
    let mut stacks = Stacks::new(rt.alloc())?;
    let t = Tid::new(7).ok_or("number")?;
    let other = Tid::new(64).ok_or("number")?;
    assert_eq!(rt; (stacks.pop(t), stacks.top(t)), (None, None));
    let below = stacks.push(other);
    for depth in 0..32u32 {
        assert_eq!(rt; stacks.depth(t), depth);
        let node = stacks.push(t);
        assert!(rt; node.is_some(), "{depth}");
        assert_eq!(rt; stacks.top(t), node);
    }
    assert_eq!(rt; stacks.push(t), None);
    let top = stacks.top(t);
    assert_eq!(rt; stacks.pop(t), top);
    assert_eq!(rt; stacks.push(t), top);
    stacks.clear(t);
    assert_eq!(rt; (stacks.depth(t), stacks.top(t)), (0, None));
    assert_eq!(rt; (stacks.depth(other), stacks.top(other)), (1, below));
    Ok(())
}
