ghost use Rattle.std.specs.Prelude.{◌≡◌, ◌≤◌, ◌+◌, length, Some, None};
ghost use Rattle.posix_model.specs.Changes.{begun};
ghost use Rattle.posix_model.specs.Leaving.{end_of_thread};
ghost use Rattle.kernel_state.specs.View.{view};
ghost use Rattle.kernel_state.specs.Begun.{CanNote, HasNoted, HasNotedSome};
ghost use Rattle.calls_thread.specs.Drops.{DropsPending};
ghost use Rattle.calls_thread.specs.Orphans.{with_orphans};

use kernel_state::{Change, Kernel, MutexChange, SignalChange, ThreadChange};
use ready_queues::Ready;
use thread_base::{Holder, Sig, Tid};

/// A mutex is an orphan; its waiters stay.
fn orphaned(m: u32) -> Change
    ensures { result ≡ Change.Mutex m (MutexChange.Hold Holder.Orphan) }
{
    let holder = Holder::Orphan;
    Change::Mutex {
        mutex: m,
        change: MutexChange::Hold { holder },
    }
}

/// What pends of a signal on a thread is dropped.
fn dropped(t: Tid, s: Sig) -> Change
    ensures { result ≡ Change.Signal s (SignalChange.Drop (Some t)) }
{
    let change = SignalChange::Drop { place: Some(t) };
    Change::Signal { signal: s, change }
}

/// A thread ends with a value, which its joiner has got, where it was joined.
fn ended(t: Tid, value: u32, joined: bool) -> Change
    ensures { result ≡ Change.Thread t (ThreadChange.End value joined) }
{
    Change::Thread {
        thread: t,
        change: ThreadChange::End { value, joined },
    }
}

/// Notes that each mutex that a thread has is an orphan; these are 256 small changes at most.
fn note_orphans<R: Ready + Drop>(k: &mut Kernel<R>, t: Tid)
    requires { CanNote R.order k.old t }
    ensures noted { HasNoted R.order k.old k.new (begun (with_orphans (view R.order k.old.tables) t)) }
    ensures count { length k.new.rest.noted.items ≤ 256 }
{
    let mut from = 0;
    while let Some(m) = k.tables().next_owned(t, from) {
        k.note_more(orphaned(m));
        from = m + 1;
    }
}

/// Notes, after what the move has noted, that all that pends on a thread is dropped; these are 32 small changes at most.
fn note_drops<R: Ready + Drop>(k: &mut Kernel<R>, t: Tid)
    requires room { length k.old.rest.noted.items ≤ 256 }
    requires idle { k.old.main ≡ None }
    ensures noted { DropsPending R.order k.old k.new t }
    ensures idle { k.new.main ≡ None }
    ensures count { length k.new.rest.noted.items ≤ length k.old.rest.noted.items + 32 }
{
    let mut from = 0;
    while let Some(s) = k.tables().next_pending(Some(t), from) {
        k.note_more(dropped(t, s));
        from = s.number() + 1;
    }
}

/// Notes the end of a thread: its mutexes are orphans, what pends on it is dropped, its joiner is answered, and then it
/// is gone.
pub(crate) fn note_end<R: Ready + Drop>(k: &mut Kernel<R>, t: Tid, value: u32)
    requires { CanNote R.order k.old t }
    ensures { HasNotedSome R.order k.old k.new (end_of_thread (view R.order k.old.tables) t value) }
{
    let joiner = k.tables().joiner(t);
    note_orphans(k, t);
    note_drops(k, t);
    match joiner {
        None => k.note_more(ended(t, value, false)),
        Some(u) => {
            let change = ThreadChange::Answer { error: 0, value };
            k.note_more(Change::Thread { thread: u, change });
            k.note_more(ended(t, value, true));
        }
    }
}
