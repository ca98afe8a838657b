ghost use Rattle.std.specs.Prelude.{◌≡◌, true, is_some, IfSome};
ghost use Rattle.thread_signals.specs.Counts.{place_of};
ghost use Rattle.posix_model.specs.State.{is_live};
ghost use Rattle.posix_model.specs.Arrivals.{come};
ghost use Rattle.posix_model.specs.Changes.{begun};
ghost use Rattle.posix_model.specs.Good.{IsGood};
ghost use Rattle.posix_model.specs.Replies.{values};
ghost use Rattle.posix_model.specs.SignalCalls as rows;
ghost use Rattle.posix_model.specs.SignalCalls.{can_send, sent};
ghost use Rattle.posix_model.specs.Threads.{exists};
ghost use Rattle.kernel_state.specs.View.{view};
ghost use Rattle.kernel_state.specs.Changing.{Can, change_by};
ghost use Rattle.kernel_state.specs.Begun.{CanNote, HasNotedSome, HasRoom};

use crate::numbers::{action_of, can_block, can_send, is_action, mask_by, number_of_action};
use kernel_state::{Change, Kernel, SignalChange, ThreadChange};
use posix_model::{Arguments, Reply};
use ready_queues::Ready;
use thread_base::{Errno, Sig, SigSet, Tid};

/// The thread of a number that has not ended; None exactly where there is none.
fn live_thread<R: Ready + Drop>(k: &Kernel<R>, number: u32) -> Option<Tid>
    requires { IsGood (view R.order k.now.tables) }
    ensures live { is_some result ≡ is_live ((view R.order k.now.tables).threads number).standing }
    ensures number { IfSome result (λ u. u ≡ number) }
{
    let u = k.tables().thread(number)?;
    if k.tables().known(u).row.ended.is_some() {
        return None;
    }
    Some(u)
}

/// Notes a change after which the caller is still there, and then that the caller is answered a value.
pub(crate) fn note_and_answer<R: Ready + Drop>(
    k: &mut Kernel<R>,
    t: Tid,
    change: Change,
    value: u32,
) -> Reply
    requires ready { CanNote R.order k.old t }
    requires can { Can change (begun (view R.order k.old.tables)) }
    requires there { exists (change_by change (begun (view R.order k.old.tables))).state t ≡ true }
    ensures noted { HasNotedSome R.order k.old k.new (values (change_by change (begun (view R.order k.old.tables))) t 0 value).outcome }
    ensures reply { result ≡ Reply.Values 0 value }
{
    k.note_two(t, change, Change::reply(t, 0, value));
    Reply::Values(0, value)
}

/// Gives a signal another action, and answers the number of the old one, by POSIX.1 sigaction.
#[tactic(auto, using(crate::proofs::SignalLemmas::none_dropped, crate::proofs::SignalLemmas::there_acted))]
pub(crate) fn sigaction<R: Ready + Drop>(k: &mut Kernel<R>, t: Tid, c: Arguments) -> Reply
    requires { CanNote R.order k.old t }
    ensures noted { HasNotedSome R.order k.old k.new (rows.sigaction (view R.order k.old.tables) t c).outcome }
    ensures reply { result ≡ (rows.sigaction (view R.order k.old.tables) t c).reply }
{
    if !can_block(c.a0) || !is_action(c.a1) {
        return k.refuse(t, Errno::EINVAL);
    }
    let signal = Sig::of(c.a0);
    let old = number_of_action(k.tables().action(signal));
    let action = action_of(c.a1, SigSet::of(c.a2));
    let change = SignalChange::Act { action };
    note_and_answer(k, t, Change::Signal { signal, change }, old)
}

/// Changes the mask of the caller, and answers the old one, by POSIX.1 pthread_sigmask.
#[tactic(auto, using(crate::proofs::SignalLemmas::there_masked))]
pub(crate) fn sigmask<R: Ready + Drop>(k: &mut Kernel<R>, t: Tid, c: Arguments) -> Reply
    requires { CanNote R.order k.old t }
    ensures noted { HasNotedSome R.order k.old k.new (rows.sigmask (view R.order k.old.tables) t c).outcome }
    ensures reply { result ≡ (rows.sigmask (view R.order k.old.tables) t c).reply }
{
    if c.a0 > 2 {
        return k.refuse(t, Errno::EINVAL);
    }
    let old = k.tables().known(t).mask;
    let mask = mask_by(c.a0, old, SigSet::of(c.a1));
    let change = ThreadChange::Block { mask };
    note_and_answer(k, t, Change::Thread { thread: t, change }, old.word())
}

/// Sends a signal to a thread that has not ended, by POSIX.1 pthread_kill.
pub(crate) fn kill_thread<R: Ready + Drop>(k: &mut Kernel<R>, t: Tid, c: Arguments) -> Reply
    requires { CanNote R.order k.old t }
    ensures noted { HasNotedSome R.order k.old k.new (rows.kill_thread (view R.order k.old.tables) t c).outcome }
    ensures reply { result ≡ (rows.kill_thread (view R.order k.old.tables) t c).reply }
{
    let Some(u) = live_thread(k, c.a0) else {
        return k.refuse(t, Errno::ESRCH);
    };
    if !can_send(c.a1) {
        return k.refuse(t, Errno::EINVAL);
    }
    send(k, t, Some(u), c.a1)
}

/// Sends a signal to the process, by POSIX.1 kill.
pub(crate) fn kill_process<R: Ready + Drop>(k: &mut Kernel<R>, t: Tid, c: Arguments) -> Reply
    requires { CanNote R.order k.old t }
    ensures noted { HasNotedSome R.order k.old k.new (rows.kill_process (view R.order k.old.tables) t c).outcome }
    ensures reply { result ≡ (rows.kill_process (view R.order k.old.tables) t c).reply }
{
    if !can_send(c.a0) {
        return k.refuse(t, Errno::EINVAL);
    }
    send(k, t, None, c.a0)
}

/// Notes that one of a signal is sent to a thread, or under None to the process, and that the caller is answered; the
/// signal 0 only asks.
fn send<R: Ready + Drop>(k: &mut Kernel<R>, t: Tid, place: Option<Tid>, number: u32) -> Reply
    requires ready { CanNote R.order k.old t }
    requires can_send { can_send number ≡ true }
    ensures noted { HasNotedSome R.order k.old k.new (values (sent (view R.order k.old.tables) (place_of place) number) t 0 0).outcome }
    ensures reply { result ≡ Reply.Values 0 0 }
{
    if number == 0 {
        k.note_one(t, Change::reply(t, 0, 0));
        return Reply::Values(0, 0);
    }
    let change = coming(k, place, Sig::of(number));
    note_and_answer(k, t, change, 0)
}

/// What one of a signal makes that comes for a thread, or under None for the process: KILL ends the process, one that
/// is ignored is dropped, and every other pends.
#[tactic(auto, using(crate::proofs::SignalLemmas::none_dropped, kernel_state::proofs::SumLemmas::room_one))]
fn coming<R: Ready + Drop>(k: &Kernel<R>, place: Option<Tid>, signal: Sig) -> Change
    ensures made { change_by result (begun (view R.order k.now.tables)) ≡ come (begun (view R.order k.now.tables)) (place_of place) signal 1 }
    ensures can { HasRoom (view R.order k.now.tables) → Can result (begun (view R.order k.now.tables)) }
{
    if signal.number() == 9 {
        return Change::Kill { signal, count: 1 };
    }
    if k.tables().action(signal).ignores(signal) {
        let change = SignalChange::Lose { count: 1 };
        return Change::Signal { signal, change };
    }
    let change = SignalChange::Pend { place, count: 1 };
    Change::Signal { signal, change }
}
