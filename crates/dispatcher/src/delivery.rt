ghost use Rattle.std.specs.Prelude.{◌≡◌, ◌≤◌, ◌+◌, true, false, length, None, Some, if◌then◌else◌};
ghost use Rattle.thread_base.specs.Actions.{ignores};
ghost use Rattle.thread_base.specs.Deliveries.{takes, waits_for};
ghost use Rattle.posix_model.specs.State.{ConditionAt, target, wait_of, set_at, takes_back, is_at_condition};
ghost use Rattle.posix_model.specs.Changes.{begun};
ghost use Rattle.posix_model.specs.Deliveries.{next_delivery, deliver, given, by_action, handled, wait_ended, awaited, is_free_for, may_take};
ghost use Rattle.thread_signals.specs.Counts.{place_of};
ghost use Rattle.kernel_state.specs.Records.{standing_in};
ghost use Rattle.kernel_state.specs.View.{view};
ghost use Rattle.kernel_state.specs.Executing.{delivery_by};
ghost use Rattle.kernel_state.specs.Kernels.{IsIdle};
ghost use Rattle.kernel_state.specs.Begun.{HasRoom, IsBegun};
ghost use Rattle.kernel_state.specs.Waking.{WaitsOn};
ghost use Rattle.dispatcher.specs.Delivering.{Notes, Delivers};

use kernel_state::{Change, Kernel, MutexChange, SignalChange, ThreadChange, ThreadRecord};
use posix_model::{Ending, Head, RetakeReply, Wait};
use ready_queues::Ready;
use thread_base::{Action, Errno, Sig, SigSet, Tid};

/// Begins the delivery that is next: a signal goes to a thread with its whole count. One that the thread waits for is
/// accepted, by POSIX.1 sigwait; of another the action is taken, by POSIX.1 sigaction.
pub fn begin_delivery<R: Ready + Drop>(k: &mut Kernel<R>, t: Tid, s: Sig, of_process: bool)
    requires idle { IsIdle k.old }
    requires room { HasRoom (view R.order k.old.tables) }
    requires next { next_delivery (view R.order k.old.tables) ≡ delivery_by (Some (t, s, of_process)) }
    ensures { IsBegun R.order k.old k.new (deliver (view R.order k.old.tables)) }
{
    let count = k.tables().pending(origin(t, of_process), s);
    let place = origin(t, of_process);
    k.note_more(Change::Signal {
        signal: s,
        change: SignalChange::Take { place },
    });
    let head = give(k, t, s, count);
    k.begin_move(t, head);
}

/// Where a signal pends that is delivered to a thread: on the process, or on the thread.
fn origin(t: Tid, of_process: bool) -> Option<Tid>
    ensures { place_of result ≡ (if of_process then 0 else t) }
{
    if of_process { None } else { Some(t) }
}

/// A waiting thread makes its call again.
fn resumed(t: Tid) -> Change
    ensures { result ≡ Change.Thread t ThreadChange.Resume }
{
    let change = ThreadChange::Resume;
    Change::Thread { thread: t, change }
}

/// The call in which a thread waits answers EINTR with a value.
fn interrupted(t: Tid, value: u32) -> Change
    ensures { result ≡ Change.Thread t (ThreadChange.Answer 4 value) }
{
    let error = Errno::EINTR.code();
    Change::Thread {
        thread: t,
        change: ThreadChange::Answer { error, value },
    }
}

/// Whether a thread waits for a signal, by POSIX.1 sigwait.
fn awaits(known: ThreadRecord, s: Sig) -> bool
    ensures { result ≡ waits_for (set_at (target (standing_in known))) s }
{
    match known.wait() {
        None => false,
        Some(wait) => match wait.awaited() {
            None => false,
            Some(set) => set.has(s),
        },
    }
}

/// Notes what becomes of a signal that was taken: the thread that waits for it accepts it, and else its action is taken.
fn give<R: Ready + Drop>(k: &mut Kernel<R>, t: Tid, s: Sig, count: u64) -> Head
    requires idle { k.old.main ≡ None }
    requires room { length k.old.rest.noted.items ≤ 1 }
    requires takes { takes (awaited (view R.order k.old.tables)) (is_free_for (view R.order k.old.tables)) t s ≡ true }
    requires heeded { ignores ((view R.order k.old.tables).actions s) s ≡ false }
    ensures idle { k.new.main ≡ None }
    ensures noted { Delivers R.order k.old k.new t result count (λ s'. given s' t s count) }
{
    if awaits(k.tables().known(t), s) {
        let error = 0;
        let value = s.number();
        k.note_more(Change::Thread {
            thread: t,
            change: ThreadChange::Answer { error, value },
        });
        return Head::Accept {
            to: t.number(),
            sig: s,
            count,
        };
    }
    act(k, t, s, count)
}

/// Notes what the action of a signal makes of it that was taken for a thread: the process ends, or a handler is due.
fn act<R: Ready + Drop>(k: &mut Kernel<R>, t: Tid, s: Sig, count: u64) -> Head
    requires idle { k.old.main ≡ None }
    requires room { length k.old.rest.noted.items ≤ 1 }
    requires open { may_take ((view R.order k.old.tables).threads t) ≡ true }
    requires heeded { ignores ((view R.order k.old.tables).actions s) s ≡ false }
    ensures idle { k.new.main ≡ None }
    ensures noted { Delivers R.order k.old k.new t result count (λ s'. by_action s' t s count (s'.actions s)) }
{
    match k.tables().action(s) {
        Action::Default => {
            let ending = Ending::Killed(s);
            k.note_more(Change::Over { ending });
            Head::Deliver {
                to: t.number(),
                sig: s,
                count,
            }
        }
        Action::Ignore => unreachable!(),
        Action::Handler { at, mask } => handle(k, t, s, count, at, mask),
    }
}

/// Notes that a thread enters the handler of a signal, after its wait has ended; within a wait for a condition the signal
/// waits on the thread until it has its mutex back, by POSIX.1 pthread_cond_wait.
fn handle<R: Ready + Drop>(
    k: &mut Kernel<R>,
    t: Tid,
    s: Sig,
    count: u64,
    at: u32,
    mask: SigSet,
) -> Head
    requires idle { k.old.main ≡ None }
    requires room { length k.old.rest.noted.items ≤ 1 }
    requires open { may_take ((view R.order k.old.tables).threads t) ≡ true }
    ensures idle { k.new.main ≡ None }
    ensures noted { Delivers R.order k.old k.new t result count (λ s'. handled s' t s count at mask (target (s'.threads t).standing)) }
{
    match k.tables().known(t).wait() {
        Some(Wait::Cond { cond, mutex, .. }) => interrupt(k, t, s, count, cond, mutex),
        wait => {
            end_wait(k, t, wait);
            k.note_more(Change::Thread {
                thread: t,
                change: ThreadChange::Handle {
                    signal: s,
                    at,
                    mask,
                },
            });
            Head::Deliver {
                to: t.number(),
                sig: s,
                count,
            }
        }
    }
}

/// Notes that the wait of a thread for a condition with a mutex ends, and that the signal which ended it pends on the thread.
fn interrupt<R: Ready + Drop>(k: &mut Kernel<R>, t: Tid, s: Sig, count: u64, c: u32, m: u32) -> Head
    requires idle { k.old.main ≡ None }
    requires room { length k.old.rest.noted.items ≤ 1 }
    requires waits { WaitsOn (view R.order k.old.tables) t c m }
    ensures idle { k.new.main ≡ None }
    ensures noted { Delivers R.order k.old k.new t result count (λ s'. handled s' t s count 0 0 (ConditionAt c)) }
{
    k.wake(c, m, t, RetakeReply::Answer(0));
    let place = Some(t);
    let change = SignalChange::Pend { place, count };
    k.note_more(Change::Signal { signal: s, change });
    Head::Interrupt {
        to: t.number(),
        sig: s,
        count,
    }
}

/// Notes how the wait of a thread ends that is to enter a handler: a sleep and a read answer EINTR, by POSIX.1 sleep and
/// read, and a wait for a mutex, for an end or for another signal is made again.
fn end_wait<R: Ready + Drop>(k: &mut Kernel<R>, t: Tid, wait: Option<Wait>)
    requires idle { k.old.main ≡ None }
    requires room { length k.old.rest.noted.items ≤ 1 }
    requires wait { wait ≡ wait_of ((view R.order k.old.tables).threads t).standing }
    requires apart { is_at_condition (target ((view R.order k.old.tables).threads t).standing) ≡ false }
    requires kept { takes_back wait ≡ false }
    ensures idle { k.new.main ≡ None }
    ensures noted { Notes R.order k.old k.new (λ s'. wait_ended (begun s') t (target (s'.threads t).standing)) }
    ensures length { length k.new.rest.noted.items ≤ length k.old.rest.noted.items + 2 }
{
    match wait {
        None => {}
        Some(Wait::Join(_)) => k.note_more(resumed(t)),
        Some(Wait::Signal(_)) => k.note_more(resumed(t)),
        Some(Wait::Mutex(m)) => {
            k.note_more(Change::Mutex {
                mutex: m,
                change: MutexChange::DropWaiter { thread: t },
            });
            k.note_more(resumed(t));
        }
        Some(Wait::Sleep { until }) => {
            let left = until - k.tables().ticks();
            k.note_more(interrupted(t, left as u32));
        }
        Some(Wait::Read { .. }) => k.note_more(interrupted(t, 0)),
        Some(Wait::Cond { .. }) => unreachable!(),
        Some(Wait::Reacquire { .. }) => unreachable!(),
    }
}
