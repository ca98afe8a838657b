ghost use Rattle.std.specs.Prelude.{◌≡◌};

use crate::Log;
use thread_base::Sig;
use unix_process::{Taken, UnixEvent};

fn user_signal() -> UnixEvent
    ensures { result ≡ UnixEvent.Sig 10 }
{
    UnixEvent::Sig(Sig::of(10))
}

fn taken(event: UnixEvent, first: u32, count: u32) -> Taken
    ensures { result ≡ record { event = event; first = first; count = count } }
{
    Taken {
        event,
        first,
        count,
    }
}

#[test]
fn the_flag_is_set_and_cleared(rt: HostRuntime) {
    let mut log = Log::new();
    assert!(rt; !log.is_set());
    log.enter();
    assert!(rt; log.is_set());
    log.add(taken(UnixEvent::Tick, 1, 1));
    assert!(rt; log.is_set());
    log.clear();
    assert!(rt; !log.is_set());
    assert_eq!(rt; log.first(), Some(taken(UnixEvent::Tick, 1, 1)));
}

#[test]
fn entries_of_one_signal_merge(rt: HostRuntime) {
    let mut log = Log::new();
    assert_eq!(rt; log.drain(), None);
    log.add(taken(user_signal(), 1, 1));
    log.add(taken(user_signal(), 2, 1));
    log.add(taken(user_signal(), 3, 1));
    assert_eq!(rt; log.drain(), Some(taken(user_signal(), 1, 3)));
    assert_eq!(rt; log.drain(), None);
}

#[test]
fn first_occurrence_gives_the_order(rt: HostRuntime) {
    let mut log = Log::new();
    log.add(taken(UnixEvent::Input, 1, 2));
    log.add(taken(user_signal(), 2, 4));
    log.add(taken(UnixEvent::Tick, 3, 1));
    log.add(taken(UnixEvent::Input, 7, 5));
    assert_eq!(rt; log.drain(), Some(taken(UnixEvent::Input, 1, 7)));
    assert_eq!(rt; log.drain(), Some(taken(user_signal(), 2, 4)));
    assert_eq!(rt; log.drain(), Some(taken(UnixEvent::Tick, 3, 1)));
    assert_eq!(rt; log.first(), None);
}

#[test]
fn ticks_are_drained_one_by_one(rt: HostRuntime) {
    let mut log = Log::new();
    assert_eq!(rt; log.drain_one(9), None);
    log.add(taken(UnixEvent::Tick, 2, 3));
    log.add(taken(user_signal(), 3, 1));
    assert_eq!(rt; log.drain_one(5), Some(taken(UnixEvent::Tick, 2, 1)));
    assert_eq!(rt; log.first(), Some(taken(UnixEvent::Tick, 5, 2)));
    assert_eq!(rt; log.drain_one(8), Some(taken(UnixEvent::Tick, 5, 1)));
    assert_eq!(rt; log.drain_one(11), Some(taken(UnixEvent::Tick, 8, 1)));
    assert_eq!(rt; log.drain_one(12), Some(taken(user_signal(), 3, 1)));
    assert_eq!(rt; log.drain_one(13), None);
}

#[test]
fn every_event_is_kept(rt: HostRuntime) {
    let mut log = Log::new();
    for number in 1..32u32 {
        if let Some(sig) = Sig::new(number) {
            log.add(taken(UnixEvent::Sig(sig), number, 1));
        }
    }
    log.add(taken(UnixEvent::Tick, 32, 1));
    log.add(taken(UnixEvent::Input, 33, 1));
    for number in 1..32u32 {
        if let Some(sig) = Sig::new(number) {
            assert_eq!(rt; log.drain(), Some(taken(UnixEvent::Sig(sig), number, 1)));
        }
    }
    assert_eq!(rt; log.drain(), Some(taken(UnixEvent::Tick, 32, 1)));
    assert_eq!(rt; log.drain(), Some(taken(UnixEvent::Input, 33, 1)));
    assert_eq!(rt; log.drain(), None);
}
