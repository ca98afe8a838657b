ghost use Rattle.std.specs.Prelude.{◌≡◌, ◌≤◌, true, is_some, List, IfSome};
ghost use Rattle.posix_model.specs.State.{Frame, is_live};
ghost use Rattle.posix_model.specs.Good.{IsGood};
ghost use Rattle.posix_model.specs.Changes.{begun, rescheduled};
ghost use Rattle.posix_model.specs.PriorityCalls.{number_of_policy, schedule_word};
ghost use Rattle.posix_model.specs.PriorityCalls as rows;
ghost use Rattle.posix_model.specs.Replies.{values};
ghost use Rattle.posix_model.specs.Threads.{exists};
ghost use Rattle.kernel_state.specs.Records.{thread_in};
ghost use Rattle.kernel_state.specs.View.{view};
ghost use Rattle.kernel_state.specs.Begun.{CanNote, HasNotedSome};

use kernel_state::{Change, Kernel, ThreadChange, ThreadRecord};
use posix_model::{Arguments, Reply};
use ready_queues::Ready;
use thread_base::{Errno, Policy, Prio, Tid};

/// The thread of a number that has not ended; None exactly where there is none.
fn live_thread<R: Ready + Drop>(k: &Kernel<R>, number: u32) -> Option<Tid>
    requires { IsGood (view R.order k.now.tables) }
    ensures live { is_some result ≡ is_live ((view R.order k.now.tables).threads number).standing }
    ensures number { IfSome result (λ u. u ≡ number) }
{
    let u = k.tables().thread(number)?;
    if k.tables().known(u).row.ended.is_some() {
        return None;
    }
    Some(u)
}

/// Gives a thread another policy and priority, by POSIX.1 pthread_setschedparam.
pub(crate) fn set_schedule<R: Ready + Drop>(k: &mut Kernel<R>, t: Tid, c: Arguments) -> Reply
    requires { CanNote R.order k.old t }
    ensures noted { HasNotedSome R.order k.old k.new (rows.setsched (view R.order k.old.tables) t c).outcome }
    ensures reply { result ≡ (rows.setsched (view R.order k.old.tables) t c).reply }
{
    let Some(u) = live_thread(k, c.a0) else {
        return k.refuse(t, Errno::ESRCH);
    };
    let Some(policy) = Policy::new(c.a1) else {
        return k.refuse(t, Errno::EINVAL);
    };
    let Some(base) = Prio::new(c.a2) else {
        return k.refuse(t, Errno::EINVAL);
    };
    schedule(k, t, u, policy, base)
}

/// Gives a thread that has not ended another policy and priority.
fn schedule<R: Ready + Drop>(k: &mut Kernel<R>, t: Tid, u: Tid, policy: Policy, base: Prio) -> Reply
    requires ready { CanNote R.order k.old t }
    requires live { is_live ((view R.order k.old.tables).threads u).standing ≡ true }
    ensures noted { HasNotedSome R.order k.old k.new (values (begun (rescheduled (view R.order k.old.tables) u policy base)) t 0 0).outcome }
    ensures reply { result ≡ Reply.Values 0 0 }
{
    let change = ThreadChange::Schedule { policy, base };
    k.note_two(
        t,
        Change::Thread { thread: u, change },
        Change::reply(t, 0, 0),
    );
    Reply::Values(0, 0)
}

/// The number of a policy, as Linux has it.
fn policy_number(policy: Policy) -> u32
    ensures number { result ≡ number_of_policy policy }
    ensures small { result ≤ 2 }
{
    match policy {
        Policy::Other => 0,
        Policy::Fifo => 1,
        Policy::Rr => 2,
    }
}

/// A thread's policy and its own priority in one word.
fn word_of(known: ThreadRecord) -> u32
    ensures { (frames : List Frame) → result ≡ schedule_word (thread_in known frames) }
{
    256 * policy_number(known.row.policy) + known.row.base.number()
}

/// The word of a thread that is there.
fn schedule_of<R: Ready + Drop>(k: &Kernel<R>, u: Tid) -> u32
    requires { exists (view R.order k.now.tables) u ≡ true }
    ensures { result ≡ schedule_word ((view R.order k.now.tables).threads u) }
{
    word_of(k.tables().known(u))
}

/// Tells the policy and the own priority of a thread, by POSIX.1 pthread_getschedparam.
pub(crate) fn get_schedule<R: Ready + Drop>(k: &mut Kernel<R>, t: Tid, c: Arguments) -> Reply
    requires { CanNote R.order k.old t }
    ensures noted { HasNotedSome R.order k.old k.new (rows.getsched (view R.order k.old.tables) t c).outcome }
    ensures reply { result ≡ (rows.getsched (view R.order k.old.tables) t c).reply }
{
    let Some(u) = live_thread(k, c.a0) else {
        return k.refuse(t, Errno::ESRCH);
    };
    let word = schedule_of(k, u);
    k.note_one(t, Change::reply(t, 0, word));
    Reply::Values(0, word)
}
