ghost use Rattle.std.specs.Prelude.{◌<◌};

use crate::{BitmapReady, PlainReady, Ready};
use std::test::Fail;
use thread_base::{Prio, Tid};

/// Appends a thread that is not ready, with a priority; whether that could be done.
fn arrive<R: Ready>(ready: &mut R, number: u32, priority: u32) -> bool {
    let Some(t) = Tid::new(number) else {
        return false;
    };
    let Some(p) = Prio::new(priority) else {
        return false;
    };
    if ready.has(t) {
        return false;
    }
    ready.append(t, p);
    true
}

/// Takes a thread out; whether it was ready.
fn leave<R: Ready>(ready: &mut R, number: u32) -> bool {
    let Some(t) = Tid::new(number) else {
        return false;
    };
    if !ready.has(t) {
        return false;
    }
    ready.remove(t);
    true
}

/// Takes the chosen thread out, and tells its number.
fn take<R: Ready>(ready: &mut R) -> Option<u32> {
    let t = ready.chosen()?;
    ready.remove(t);
    Some(t.number())
}

/// Puts a ready thread after all others, or gives it another priority; whether that could be done.
fn change<R: Ready>(ready: &mut R, number: u32, priority: Option<u32>) -> bool {
    let Some(t) = Tid::new(number) else {
        return false;
    };
    if !ready.has(t) {
        return false;
    }
    match priority {
        None => ready.to_tail(t),
        Some(priority) => {
            let Some(p) = Prio::new(priority) else {
                return false;
            };
            ready.reprio(t, p);
        }
    }
    true
}

/// One change of a ready list.
#[derive(Clone, Copy, Debug, PartialEq, Eq)]
enum Step {
    Append(u32, u32),
    Remove(u32),
    ToTail(u32),
    Reprio(u32, u32),
}

/// Makes a change, where that can be done; whether it was made.
fn make<R: Ready>(ready: &mut R, step: Step) -> bool {
    match step {
        Step::Append(number, priority) => arrive(ready, number, priority),
        Step::Remove(number) => leave(ready, number),
        Step::ToTail(number) => change(ready, number, None),
        Step::Reprio(number, priority) => change(ready, number, Some(priority)),
    }
}

/// The number of the chosen thread, and 0 where there is none.
fn first<R: Ready>(ready: &R) -> u32 {
    match ready.chosen() {
        Some(t) => t.number(),
        None => 0,
    }
}

/// Changes that can all be made, each with whom both forms choose after it.
const ROWS: [(Step, u32); 24] = [
    (Step::Append(1, 8), 1),
    (Step::Append(2, 8), 1),
    (Step::Append(3, 8), 1),
    (Step::Reprio(2, 9), 2),
    (Step::Reprio(2, 8), 1),
    (Step::Remove(1), 2),
    (Step::Append(1, 8), 2),
    (Step::Append(64, 31), 64),
    (Step::Append(7, 31), 64),
    (Step::Append(5, 0), 64),
    (Step::Reprio(3, 31), 3),
    (Step::ToTail(3), 64),
    (Step::Reprio(64, 31), 64),
    (Step::Reprio(64, 0), 7),
    (Step::Reprio(7, 0), 3),
    (Step::Remove(3), 2),
    (Step::ToTail(2), 1),
    (Step::Remove(1), 2),
    (Step::Reprio(2, 0), 64),
    (Step::Remove(64), 7),
    (Step::ToTail(7), 5),
    (Step::Remove(5), 2),
    (Step::Remove(2), 7),
    (Step::Remove(7), 0),
];

/// Makes the changes of all rows; how many of them chose as they should.
fn rows_kept<R: Ready>(ready: &mut R) -> u32 {
    let mut kept = 0u32;
    for (step, number) in ROWS {
        if make(ready, step) && first(ready) == number && kept < 24 {
            kept += 1;
        }
    }
    kept
}

/// The step of a number: appends, removals, moves and new priorities in a mixed order.
fn step_of(n: u32) -> Step
    requires { n < 1000 }
{
    let number = n * 29 % 64 + 1;
    let priority = n * 11 % 7 * 5;
    match n * 13 % 10 {
        0..=4 => Step::Append(number, priority),
        5 => Step::Remove(number),
        6 => Step::ToTail(number),
        _ => Step::Reprio(number, priority),
    }
}

#[test]
fn rows_of_both_forms(rt: HostRuntime) -> Result<(), Fail> {
    assert_eq!(rt; rows_kept(&mut PlainReady::new(rt.alloc())?), 24);
    assert_eq!(rt; rows_kept(&mut BitmapReady::new(rt.alloc())?), 24);
    Ok(())
}

#[test]
fn both_forms_agree(rt: HostRuntime) -> Result<(), Fail> {
    let mut plain = PlainReady::new(rt.alloc())?;
    let mut bitmap = BitmapReady::new(rt.alloc())?;
    let mut late = BitmapReady::numbered_from(rt.alloc(), u64::MAX - 40)?;
    for n in 0..1000u32 {
        let step = step_of(n);
        let made = make(&mut plain, step);
        assert_eq!(rt; make(&mut bitmap, step), made, "{n}: {step:?}");
        assert_eq!(rt; make(&mut late, step), made, "{n}: {step:?}");
        assert_eq!(rt; first(&bitmap), first(&plain), "{n}: {step:?}");
        assert_eq!(rt; first(&late), first(&plain), "{n}: {step:?}");
    }
    for n in 0..65u32 {
        let number = take(&mut plain);
        assert_eq!(rt; take(&mut bitmap), number, "after {n}");
        assert_eq!(rt; take(&mut late), number, "after {n}");
    }
    Ok(())
}

#[test]
fn all_threads_are_ready(rt: HostRuntime) -> Result<(), Fail> {
    let mut plain = PlainReady::new(rt.alloc())?;
    let mut bitmap = BitmapReady::new(rt.alloc())?;
    assert_eq!(rt; (take(&mut plain), take(&mut bitmap)), (None, None));
    for number in 1..65u32 {
        assert!(rt; arrive(&mut plain, 65 - number, 15), "thread {number}");
        assert!(rt; arrive(&mut bitmap, 65 - number, 15), "thread {number}");
        assert!(rt;
            !arrive(&mut bitmap, 65 - number, 15),
            "thread {number} again"
        );
    }
    for number in 1..65u32 {
        assert_eq!(rt; take(&mut plain), Some(65 - number));
        assert_eq!(rt; take(&mut bitmap), Some(65 - number));
    }
    Ok(())
}
