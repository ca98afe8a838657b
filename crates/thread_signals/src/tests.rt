use crate::{Action, Signals};
use thread_base::{Sig, SigSet, Tid};

/// The numbers of a delivery.
fn numbers(delivery: Option<(Tid, Sig, bool)>) -> Option<(u32, u32, bool)> {
    delivery.map(|(t, s, of_process)| (t.number(), s.number(), of_process))
}

#[test]
fn counts_add_up_and_go_whole(rt: HostRuntime) {
    let mut signals = Signals::new();
    let (t, other) = (Tid::at(63), Tid::at(0));
    signals.pend(Some(t), Sig::of(10), 2);
    signals.pend(Some(t), Sig::of(10), 3);
    signals.pend(None, Sig::of(31), 7);
    assert_eq!(rt; signals.count(Some(t), Sig::of(10)), 5);
    assert_eq!(rt; signals.pending(t), SigSet::of(1 << 10 | 1 << 31));
    assert_eq!(rt; signals.pending(other), SigSet::of(1 << 31));
    let lowest = |t: Tid, set: u32| signals.lowest_pending(t, SigSet::of(set)).map(Sig::number);
    assert_eq!(rt; lowest(t, 1 << 10 | 1 << 31), Some(10));
    assert_eq!(rt; lowest(other, 1 << 10 | 1 << 31), Some(31));
    assert_eq!(rt; lowest(other, 1 << 10), None);
    assert_eq!(rt; signals.take(Some(t), Sig::of(10)), 5);
    assert_eq!(rt; signals.take(Some(t), Sig::of(10)), 0);
    assert_eq!(rt; signals.pending(t), SigSet::of(1 << 31));
}

#[test]
fn an_ignored_signal_is_dropped_everywhere(rt: HostRuntime) {
    let mut signals = Signals::new();
    let s = Sig::of(10);
    signals.pend(None, s, 2);
    signals.pend(Some(Tid::at(63)), s, 3);
    assert_eq!(rt; signals.action(s), Action::Default);
    let handler = Action::Handler {
        at: 4096,
        mask: SigSet::of(0),
    };
    assert_eq!(rt; signals.set_action(s, handler), 0);
    assert_eq!(rt; signals.set_action(s, Action::Ignore), 5);
    assert_eq!(rt; signals.action(s), Action::Ignore);
    assert_eq!(rt; signals.count(None, s), 0);
    signals.pend(None, Sig::of(17), 1);
    assert_eq!(rt; signals.set_action(Sig::of(17), Action::Default), 1);
}

#[test]
fn a_waiter_comes_before_a_free_thread(rt: HostRuntime) {
    let mut signals = Signals::new();
    let s = Sig::of(12);
    let mut eff = [0; 64];
    eff[4] = 9;
    assert_eq!(rt; signals.recipient(s, &eff), None);
    signals.set_open(Tid::at(0), true);
    signals.set_open(Tid::at(1), true);
    signals.set_mask(Tid::at(0), SigSet::of(1 << 12));
    assert_eq!(rt; signals.mask(Tid::at(0)), SigSet::of(1 << 12));
    assert_eq!(rt; signals.recipient(s, &eff).map(Tid::number), Some(2));
    for index in 3..6 {
        signals.set_wait(Tid::at(index), Some(SigSet::of(1 << 12)));
    }
    assert_eq!(rt; signals.recipient(s, &eff).map(Tid::number), Some(5));
    signals.set_wait(Tid::at(4), None);
    assert_eq!(rt; signals.recipient(s, &eff).map(Tid::number), Some(4));
}

#[test]
fn own_signals_come_first(rt: HostRuntime) {
    let mut signals = Signals::new();
    let eff = [8; 64];
    let (low, high) = (Tid::at(1), Tid::at(2));
    signals.pend(None, Sig::of(2), 1);
    signals.pend(Some(high), Sig::of(15), 1);
    signals.pend(Some(high), Sig::of(10), 4);
    assert_eq!(rt; numbers(signals.next_delivery(&eff)), None);
    signals.set_open(low, true);
    assert_eq!(rt; numbers(signals.next_delivery(&eff)), Some((2, 2, true)));
    signals.set_open(high, true);
    assert_eq!(rt; numbers(signals.next_delivery(&eff)), Some((3, 10, false)));
    signals.set_mask(high, SigSet::of(1 << 10));
    assert_eq!(rt; numbers(signals.next_delivery(&eff)), Some((3, 15, false)));
}

#[test]
fn what_pends_is_told_by_place_and_by_signal(rt: HostRuntime) {
    let mut signals = Signals::new();
    let t = Tid::at(63);
    assert!(rt; signals.is_calm());
    signals.pend(None, Sig::of(31), 7);
    signals.pend(Some(t), Sig::of(10), 2);
    signals.pend(Some(t), Sig::of(31), 3);
    assert!(rt; !signals.is_calm());
    assert_eq!(rt; signals.sum(), 12);
    assert_eq!(rt; signals.next_pending(Some(t), 1).map(Sig::number), Some(10));
    assert_eq!(rt;
        signals.next_pending(Some(t), 11).map(Sig::number),
        Some(31)
    );
    assert_eq!(rt; signals.next_pending(Some(t), 32).map(Sig::number), None);
    assert_eq!(rt; signals.next_pending(None, 1).map(Sig::number), Some(31));
    let left = signals.left();
    assert_eq!(rt; left[10], 2);
    assert_eq!(rt; left[31], 10);
    assert_eq!(rt; left[11], 0);
    assert_eq!(rt; signals.set_action(Sig::of(31), Action::Ignore), 10);
    assert_eq!(rt; signals.sum(), 2);
}
