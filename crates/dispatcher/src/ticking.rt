ghost use Rattle.std.specs.Prelude.{◌≡◌, ◌≤◌, ◌<◌, ◌+◌, ◌^◌, nat_le, is_some, true, false, length, None};
ghost use Rattle.posix_model.specs.State.{wait_of, deadline_by};
ghost use Rattle.posix_model.specs.Arrivals.{has_turn, tick};
ghost use Rattle.posix_model.specs.Changes.{begun};
ghost use Rattle.posix_model.specs.Runs.{told_at};
ghost use Rattle.kernel_state.specs.View.{view};
ghost use Rattle.kernel_state.specs.Begun.{HasNotedSome, HasRoom, IsBegun};
ghost use Rattle.kernel_state.specs.Kernels.{IsIdle};
ghost use Rattle.dispatcher.specs.Ticking.{Charges, Expires, ExpiresAll, Rings};

use crate::arrival::note_signal;
use kernel_state::{Change, ClockChange, Kernel, ThreadChange};
use posix_model::{Head, RetakeReply, Wait};
use ready_queues::Ready;
use thread_base::{Errno, Place, Policy, Sig, Tid};

/// The signal of the alarm.
const SIGALRM: u32 = 14;

/// A change of the clock.
fn clock(change: ClockChange) -> Change
    ensures { result ≡ Change.Clock change }
{
    Change::Clock { change }
}

/// Whether the turn of a thread of this policy ends by ticks: not with FIFO (POSIX.1 SCHED_FIFO).
fn has_turn(policy: Policy) -> bool
    ensures { result ≡ has_turn policy }
{
    match policy {
        Policy::Fifo => false,
        Policy::Other | Policy::Rr => true,
    }
}

/// Begins the arrival of a tick, which is this entry and was presented at this place.
pub(crate) fn begin_tick<R: Ready + Drop>(k: &mut Kernel<R>, first: u32, at: Place)
    requires idle { IsIdle k.old }
    requires room { HasRoom (view R.order k.old.tables) }
    ensures { IsBegun R.order k.old k.new (told_at at (Head.ArriveTick first) (tick k.old.settings.quantum (begun (view R.order k.old.tables)))) }
{
    let _sound = k.tables();
    note_tick(k);
    k.begin_arrival(Head::ArriveTick { first }, at);
}

/// Notes what a tick does: the time goes on, the thread that runs is charged, waits end by the numbers of their threads, and
/// the alarm goes off.
fn note_tick<R: Ready + Drop>(k: &mut Kernel<R>)
    requires idle { IsIdle k.old }
    requires room { HasRoom (view R.order k.old.tables) }
    ensures { HasNotedSome R.order k.old k.new (tick k.old.settings.quantum (begun (view R.order k.old.tables))) }
{
    let _sound = k.tables();
    let now = k.tables().ticks() + 1;
    k.note_more(clock(ClockChange::Advance));
    charge(k);
    expire(k, now);
    ring(k, now);
}

/// Whether a turn of so many ticks ends with one more.
fn is_spent(used: u32, quantum: u32) -> bool
    ensures spent { result ≡ nat_le quantum (used + 1) }
    ensures fits { result ≡ false → used + 1 < 2 ^ 32 }
{
    u64::from(used) + 1 >= u64::from(quantum)
}

/// Notes that the thread that runs is charged, unless its policy is FIFO: at the quantum it goes to the end of the ready list
/// (POSIX.1 SCHED_RR).
fn charge<R: Ready + Drop>(k: &mut Kernel<R>)
    requires idle { k.old.main ≡ None }
    requires room { length k.old.rest.noted.items ≤ 1 }
    ensures idle { k.new.main ≡ None }
    ensures length { length k.new.rest.noted.items ≤ length k.old.rest.noted.items + 1 }
    ensures noted { Charges R.order k.old k.new k.old.settings.quantum }
{
    let Some(t) = k.chosen() else {
        return;
    };
    let row = k.tables().known(t).row;
    if !has_turn(row.policy) {
        return;
    }
    if is_spent(row.used, k.settings().quantum) {
        k.note_more(of_thread(t, ThreadChange::ToEnd));
    } else {
        k.note_more(of_thread(t, ThreadChange::Charge));
    }
}

/// A change of a thread.
fn of_thread(thread: Tid, change: ThreadChange) -> Change
    ensures { result ≡ Change.Thread thread change }
{
    Change::Thread { thread, change }
}

/// Notes that every wait ends whose time has come with this tick, by the numbers of their threads; these are 128 small changes
/// at most.
fn expire<R: Ready + Drop>(k: &mut Kernel<R>, now: u64)
    requires idle { k.old.main ≡ None }
    requires room { length k.old.rest.noted.items ≤ 2 }
    requires now { now ≡ (view R.order k.old.tables).now + 1 }
    ensures idle { k.new.main ≡ None }
    ensures length { length k.new.rest.noted.items ≤ length k.old.rest.noted.items + 128 }
    ensures noted { ExpiresAll R.order k.old k.new }
{
    let mut from = 1;
    while let Some(t) = k.tables().due_from(from, now) {
        end_wait(k, t);
        from = t.number() + 1;
    }
}

/// Notes that the wait of a thread ends whose time has come: a sleep is answered, by POSIX.1 sleep, and a wait for a condition
/// ends with ETIMEDOUT, by POSIX.1 pthread_cond_timedwait.
fn end_wait<R: Ready + Drop>(k: &mut Kernel<R>, t: Tid)
    requires idle { k.old.main ≡ None }
    requires room { length k.old.rest.noted.items ≤ 128 }
    requires timed { is_some (deadline_by (wait_of ((view R.order k.old.tables).threads t).standing)) ≡ true }
    ensures idle { k.new.main ≡ None }
    ensures length { length k.new.rest.noted.items ≤ length k.old.rest.noted.items + 2 }
    ensures noted { Expires R.order k.old k.new t }
{
    match k.tables().known(t).wait() {
        Some(Wait::Sleep { .. }) => {
            let (error, value) = (0, 0);
            k.note_more(of_thread(t, ThreadChange::Answer { error, value }));
        }
        Some(Wait::Cond { cond, mutex, .. }) => {
            k.wake(cond, mutex, t, RetakeReply::Answer(Errno::ETIMEDOUT.code()));
        }
        _ => unreachable!(),
    }
}

/// Notes that the alarm goes off where its time has come with this tick: it is cleared, and its signal comes (POSIX.1 alarm).
fn ring<R: Ready + Drop>(k: &mut Kernel<R>, now: u64)
    requires idle { k.old.main ≡ None }
    requires room { length k.old.rest.noted.items ≤ 130 }
    requires now { now ≡ (view R.order k.old.tables).now + 1 }
    ensures idle { k.new.main ≡ None }
    ensures noted { Rings R.order k.old k.new }
{
    let Some(until) = k.tables().alarm() else {
        return;
    };
    if until > now {
        return;
    }
    let signal = Sig::new(SIGALRM).unwrap();
    k.note_more(clock(ClockChange::Ring));
    note_signal(k, signal, 1);
}
