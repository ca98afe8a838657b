use crate::outside::{Outside, arrivals};
use journal_text::{Journal, What, read_journal};
use std::alloc::Global;
use thread_base::{Place, Sig};
use unix_process::{Taken, UnixEvent};

const TEXT: &[u8] =
    b"fsu-journal 1\n2.0 sig 10\n3.0 tick\n3.0 data 6869\n3.1 sig 10\n4.0 tick\n9.0 sig 12\n";

fn at(n: u64) -> Place {
    Place { n, k: 0 }
}

fn taken(event: UnixEvent, first: u32, count: u32) -> Option<Taken> {
    Some(Taken {
        event,
        first,
        count,
    })
}

fn signal(n: u32) -> UnixEvent {
    Sig::new(n).map_or(UnixEvent::Tick, UnixEvent::Sig)
}

/// The journal of the tests, of which nothing was presented.
fn attached(alloc: Global) -> Option<Outside> {
    let journal = read_journal(alloc, TEXT).ok()?;
    let mut outside = Outside::new();
    outside.attach(alloc, journal).ok()?;
    Some(outside)
}

/// Presents the next entry at a place of its number, if there is one.
fn present_next(outside: &mut Outside) {
    let before = outside.presented();
    if before < outside.len() {
        outside.present(before + 1, at(u64::from(before) + 1));
    }
}

#[test]
fn nothing_comes_without_a_journal(rt: HostRuntime) {
    let mut outside = Outside::new();
    assert!(rt; outside.is_empty());
    assert!(rt; outside.journal().is_none());
    assert_eq!(rt; outside.len(), 0);
    assert_eq!(rt; outside.bytes().len(), 0);
    assert_eq!(rt; outside.presented(), 0);
    assert_eq!(rt; outside.first(), None);
    assert_eq!(rt; outside.drain(), None);
    arrivals();
}

#[test]
fn entries_pend_and_are_gathered(rt: HostRuntime) {
    let mut outside = attached(rt.alloc()).expect(&rt, "there is memory");
    assert_eq!(rt; outside.len(), 6);
    for _ in 0..5 {
        present_next(&mut outside);
    }
    assert_eq!(rt; outside.presented(), 5);
    assert!(rt; !outside.is_empty());
    assert_eq!(rt; outside.first(), None);
    outside.gather();
    assert_eq!(rt; outside.first(), taken(signal(10), 1, 2));
    assert_eq!(rt; outside.drain(), taken(signal(10), 1, 2));
    assert_eq!(rt; outside.drain(), taken(UnixEvent::Tick, 2, 1));
    assert_eq!(rt; outside.drain(), taken(UnixEvent::Tick, 5, 1));
    assert_eq!(rt; outside.drain(), taken(UnixEvent::Input, 3, 1));
    assert_eq!(rt; outside.drain(), None);
    assert!(rt; outside.is_empty());
}

#[test]
fn entries_are_logged_behind_those_that_pend(rt: HostRuntime) {
    let mut outside = attached(rt.alloc()).expect(&rt, "there is memory");
    outside.enter();
    assert!(rt; outside.is_entered());
    outside.block();
    present_next(&mut outside);
    present_next(&mut outside);
    assert_eq!(rt; outside.first(), None);
    outside.unblock();
    present_next(&mut outside);
    present_next(&mut outside);
    assert_eq!(rt; outside.drain(), taken(signal(10), 1, 2));
    outside.leave();
    assert!(rt; !outside.is_entered());
    assert_eq!(rt; outside.drain(), taken(UnixEvent::Tick, 2, 1));
    assert_eq!(rt; outside.drain(), taken(UnixEvent::Input, 3, 1));
    assert!(rt; outside.is_empty());
}

#[test]
fn entries_and_places_are_read(rt: HostRuntime) {
    let mut outside = attached(rt.alloc()).expect(&rt, "there is memory");
    assert_eq!(rt; outside.bytes(), b"hi".as_slice());
    assert_eq!(rt; outside.journal().map(Journal::len), Some(6));
    assert!(rt; outside.len() == 6);
    assert_eq!(rt; outside.entry(5).place, at(4));
    assert_eq!(rt; outside.entry(3).what, What::Data { start: 0, len: 2 });
    outside.note_place(6, at(7));
    assert_eq!(rt; outside.place(6), at(7));
    assert_eq!(rt; outside.place(1), at(0));
}
