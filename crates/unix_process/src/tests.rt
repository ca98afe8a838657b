ghost use Rattle.std.specs.Prelude.{◌≡◌};

use crate::{INPUT_LIMIT, Taken, Tally, Unix, UnixEvent, merging};
use std::test::Fail;
use thread_base::Sig;

fn user_signal() -> UnixEvent
    ensures { result ≡ UnixEvent.Sig 10 }
{
    UnixEvent::Sig(Sig::of(10))
}

fn taken(event: UnixEvent, first: u32, count: u32) -> Option<Taken> {
    Some(Taken {
        event,
        first,
        count,
    })
}

#[test]
fn entries_of_one_signal_merge(rt: HostRuntime) {
    let mut unix = Unix::new();
    assert_eq!(rt; unix.take(), None);
    unix.accept(user_signal(), 1);
    unix.accept(user_signal(), 2);
    unix.accept(user_signal(), 3);
    assert_eq!(rt; unix.len(), 1);
    assert_eq!(rt; unix.take(), taken(user_signal(), 1, 3));
    assert_eq!(rt; unix.take(), None);
}

#[test]
fn first_occurrence_gives_the_order(rt: HostRuntime) {
    let mut unix = Unix::new();
    unix.accept(UnixEvent::Tick, 1);
    unix.accept(user_signal(), 2);
    unix.accept(UnixEvent::Input, 3);
    unix.accept(UnixEvent::Tick, 4);
    unix.accept(user_signal(), 5);
    assert_eq!(rt; unix.len(), 3);
    assert_eq!(rt; unix.take(), taken(UnixEvent::Tick, 1, 2));
    assert_eq!(rt; unix.take(), taken(user_signal(), 2, 2));
    assert_eq!(rt; unix.take(), taken(UnixEvent::Input, 3, 1));
    assert_eq!(rt; unix.len(), 0);
}

#[test]
fn blocked_events_are_accepted_and_taken(rt: HostRuntime) {
    let mut unix = Unix::new();
    assert!(rt; !unix.is_blocked());
    unix.block_all();
    assert!(rt; unix.is_blocked());
    unix.accept(UnixEvent::Tick, 7);
    assert_eq!(rt; unix.take(), taken(UnixEvent::Tick, 7, 1));
    assert!(rt; unix.is_blocked());
    unix.unblock();
    assert!(rt; !unix.is_blocked());
}

#[test]
fn input_is_granted_and_consumed(rt: HostRuntime) {
    let mut unix = Unix::new();
    assert_eq!(rt; unix.input_left(), 0);
    unix.grant(4096);
    unix.consume(4000);
    assert_eq!(rt; unix.input_left(), 96);
    unix.grant(INPUT_LIMIT - 4096);
    assert_eq!(rt; unix.input_left(), 16_773_216);
    unix.consume(16_773_216);
    assert_eq!(rt; unix.input_left(), 0);
}

#[test]
fn every_event_is_kept(rt: HostRuntime) {
    let mut unix = Unix::new();
    for number in 1..32u32 {
        if let Some(sig) = Sig::new(number) {
            unix.accept(UnixEvent::Sig(sig), number);
        }
    }
    unix.accept(UnixEvent::Tick, 32);
    unix.accept(UnixEvent::Input, 33);
    assert_eq!(rt; unix.len(), 28);
    for number in 1..32u32 {
        if let Some(sig) = Sig::new(number) {
            assert_eq!(rt; unix.take(), taken(UnixEvent::Sig(sig), number, 1));
        }
    }
    assert_eq!(rt; unix.take(), taken(UnixEvent::Tick, 32, 1));
    assert_eq!(rt; unix.take(), taken(UnixEvent::Input, 33, 1));
    assert_eq!(rt; unix.take(), None);
}

#[test]
fn a_tally_is_read_and_recounted(rt: HostRuntime) {
    let mut tally = Tally::new();
    assert_eq!(rt; tally.first(), None);
    tally.merge(Taken {
        event: user_signal(),
        first: 4,
        count: 5,
    });
    assert_eq!(rt; tally.first(), taken(user_signal(), 4, 5));
    tally.recount(6, 3);
    assert_eq!(rt; tally.len(), 1);
    assert_eq!(rt; tally.take(), taken(user_signal(), 6, 3));
    assert_eq!(rt; user_signal().signal(), Some(Sig::of(10)));
    assert_eq!(rt; UnixEvent::Tick.signal(), None);
    merging();
}
