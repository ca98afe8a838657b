ghost use Rattle.std.specs.Prelude.{◌≡◌, None};
ghost use Rattle.posix_model.specs.Changes.{begun};
ghost use Rattle.posix_model.specs.Replies.{values};
ghost use Rattle.posix_model.specs.SignalCalls as rows;
ghost use Rattle.posix_model.specs.SignalCalls.{pending_set, lowest_pending, accepted, accepted_from, accept_or_wait};
ghost use Rattle.thread_signals.specs.Counts.{place_of};
ghost use Rattle.kernel_state.specs.View.{view};
ghost use Rattle.kernel_state.specs.Begun.{CanNote, HasNotedSome};

use crate::signals::note_and_answer;
use kernel_state::{Change, Kernel, SignalChange, ThreadChange};
use posix_model::{Arguments, Reply, Wait};
use ready_queues::Ready;
use thread_base::{Errno, Sig, SigSet, Tid};

/// Answers the set of the signals that pend on the caller or on the process, by POSIX.1 sigpending.
pub(crate) fn sigpending<R: Ready + Drop>(k: &mut Kernel<R>, t: Tid) -> Reply
    requires { CanNote R.order k.old t }
    ensures noted { HasNotedSome R.order k.old k.new (values (begun (view R.order k.old.tables)) t 0 (pending_set (view R.order k.old.tables) t)).outcome }
    ensures reply { result ≡ Reply.Values 0 (pending_set (view R.order k.old.tables) t) }
{
    let set = k.tables().pending_set(t).word();
    k.note_one(t, Change::reply(t, 0, set));
    Reply::Values(0, set)
}

/// Accepts the lowest signal of a set that pends on the caller or on the process, or waits for one of them, by POSIX.1
/// sigwait.
pub(crate) fn sigwait<R: Ready + Drop>(k: &mut Kernel<R>, t: Tid, c: Arguments) -> Reply
    requires { CanNote R.order k.old t }
    ensures noted { HasNotedSome R.order k.old k.new (rows.sigwait (view R.order k.old.tables) t c).outcome }
    ensures reply { result ≡ (rows.sigwait (view R.order k.old.tables) t c).reply }
{
    let set = SigSet::of(c.a0);
    if set.word() == 0 {
        return k.refuse(t, Errno::EINVAL);
    }
    accept_or_wait(k, t, set)
}

/// Accepts the lowest signal of a set that pends on the caller or on the process; where none pends, the caller waits.
fn accept_or_wait<R: Ready + Drop>(k: &mut Kernel<R>, t: Tid, set: SigSet) -> Reply
    requires { CanNote R.order k.old t }
    ensures noted { let s = view R.order k.old.tables in
        HasNotedSome R.order k.old k.new (accept_or_wait s t set (lowest_pending s t set)).outcome }
    ensures reply { let s = view R.order k.old.tables in result ≡ (accept_or_wait s t set (lowest_pending s t set)).reply }
{
    match k.tables().lowest_pending(t, set) {
        Some(signal) => accept(k, t, signal),
        None => await_signal(k, t, set),
    }
}

/// Notes that the caller accepts a signal with its whole count, its own before the process's, and is answered its number.
fn accept<R: Ready + Drop>(k: &mut Kernel<R>, t: Tid, signal: Sig) -> Reply
    requires { CanNote R.order k.old t }
    ensures noted { let s = view R.order k.old.tables in
        HasNotedSome R.order k.old k.new (values (accepted (begun s) (accepted_from s t signal) signal) t 0 signal).outcome }
    ensures reply { result ≡ Reply.Values 0 signal }
{
    let place = accepted_from(k, t, signal);
    let change = SignalChange::Accept { place };
    note_and_answer(k, t, Change::Signal { signal, change }, signal.number())
}

/// The place from which a thread accepts a signal: itself where it pends there, and else the process.
fn accepted_from<R: Ready + Drop>(k: &Kernel<R>, t: Tid, signal: Sig) -> Option<Tid>
    ensures { place_of result ≡ accepted_from (view R.order k.now.tables) t signal }
{
    if k.tables().pending(Some(t), signal) > 0 {
        Some(t)
    } else {
        None
    }
}

/// Notes that the caller waits for a signal of a set.
fn await_signal<R: Ready + Drop>(k: &mut Kernel<R>, t: Tid, set: SigSet) -> Reply
    requires { CanNote R.order k.old t }
    ensures noted { let s = view R.order k.old.tables in
        HasNotedSome R.order k.old k.new (accept_or_wait s t set None).outcome }
    ensures reply { result ≡ Reply.Block }
{
    let wait = Wait::Signal(set);
    let change = ThreadChange::Await { wait };
    k.note_one(t, Change::Thread { thread: t, change });
    Reply::Block
}
