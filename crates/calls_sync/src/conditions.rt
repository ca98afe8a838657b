ghost use Rattle.std.specs.Prelude.{◌≡◌, ◌≤◌, true, false, length, Some, is_some};
ghost use Rattle.thread_base.specs.Holders.{count_of};
ghost use Rattle.thread_base.specs.Objects.{waiters_in, cond_mutex, cond_waiters};
ghost use Rattle.thread_base.specs.Orders.{is_in};
ghost use Rattle.posix_model.specs.State.{Mutex, Condition};
ghost use Rattle.thread_base.specs.Priority.{first_greatest};
ghost use Rattle.posix_model.specs.Arrivals.{has_come};
ghost use Rattle.posix_model.specs.Changes.{begun};
ghost use Rattle.posix_model.specs.Conditions.{in_order, is_other, next_woken, wake, wake_all};
ghost use Rattle.posix_model.specs.ConditionCalls as rows;
ghost use Rattle.posix_model.specs.Replies.{values};
ghost use Rattle.posix_model.specs.Mutexes.{best_waiter};
ghost use Rattle.posix_model.specs.Scheduling.{eff};
ghost use Rattle.posix_model.specs.Good.{IsGood};
ghost use Rattle.posix_model.specs.Threads.{exists};
ghost use Rattle.posix_model.specs.declared.RetakeReply.TheVariants.{Answer};
ghost use Rattle.kernel_state.specs.View.{view, mutex_of};
ghost use Rattle.kernel_state.specs.Begun.{CanNote, HasNoted, HasNotedSome};

use crate::mutexes::answer;
use kernel_state::{Change, ConditionChange, Kernel, MutexChange, ThreadChange};
use mutex_table::MutexState;
use posix_model::{Arguments, Reply, RetakeReply, Wait};
use ready_queues::Ready;
use thread_base::{Errno, Tid};

/// What a wait whose time has come is answered (POSIX.1 ETIMEDOUT).
const TIMED_OUT: u32 = 110;

/// Makes a condition, by POSIX.1 pthread_cond_init.
pub(crate) fn cond_init<R: Ready + Drop>(k: &mut Kernel<R>, t: Tid, c: Arguments) -> Reply
    requires { CanNote R.order k.old t }
    ensures noted { HasNotedSome R.order k.old k.new (rows.cond_init (view R.order k.old.tables) t c).outcome }
    ensures reply { result ≡ (rows.cond_init (view R.order k.old.tables) t c).reply }
{
    if c.a0 >= 256 {
        return k.refuse(t, Errno::EINVAL);
    }
    if k.tables().has_condition(c.a0) {
        return k.refuse(t, Errno::EBUSY);
    }
    let change = ConditionChange::Make;
    k.note_two(t, Change::Condition { cond: c.a0, change }, answer(t));
    Reply::Values(0, 0)
}

/// Takes a condition away for which nobody waits, by POSIX.1 pthread_cond_destroy.
pub(crate) fn cond_destroy<R: Ready + Drop>(k: &mut Kernel<R>, t: Tid, c: Arguments) -> Reply
    requires { CanNote R.order k.old t }
    ensures noted { HasNotedSome R.order k.old k.new (rows.cond_destroy (view R.order k.old.tables) t c).outcome }
    ensures reply { result ≡ (rows.cond_destroy (view R.order k.old.tables) t c).reply }
{
    if !k.tables().has_condition(c.a0) {
        return k.refuse(t, Errno::EINVAL);
    }
    if k.tables().condition_mutex(c.a0).is_some() {
        return k.refuse(t, Errno::EBUSY);
    }
    let change = ConditionChange::Destroy;
    k.note_two(t, Change::Condition { cond: c.a0, change }, answer(t));
    Reply::Values(0, 0)
}

/// Waits for a condition with a mutex, which is released, by POSIX.1 pthread_cond_wait.
pub(crate) fn cond_wait<R: Ready + Drop>(k: &mut Kernel<R>, t: Tid, c: Arguments) -> Reply
    requires { CanNote R.order k.old t }
    ensures noted { HasNotedSome R.order k.old k.new (rows.cond_wait (view R.order k.old.tables) t c).outcome }
    ensures reply { result ≡ (rows.cond_wait (view R.order k.old.tables) t c).reply }
{
    wait(k, t, c.a0, c.a1, None)
}

/// Waits for a condition with a mutex, which is released, and until a time, by POSIX.1 pthread_cond_timedwait.
pub(crate) fn cond_timedwait<R: Ready + Drop>(k: &mut Kernel<R>, t: Tid, c: Arguments) -> Reply
    requires { CanNote R.order k.old t }
    ensures noted { HasNotedSome R.order k.old k.new (rows.cond_timedwait (view R.order k.old.tables) t c).outcome }
    ensures reply { result ≡ (rows.cond_timedwait (view R.order k.old.tables) t c).reply }
{
    wait(k, t, c.a0, c.a1, Some(u64::from(c.a2)))
}

/// Waits for a condition with a mutex, until a deadline where there is one.
fn wait<R: Ready + Drop>(k: &mut Kernel<R>, t: Tid, c: u32, m: u32, deadline: Option<u64>) -> Reply
    requires { CanNote R.order k.old t }
    ensures noted { HasNotedSome R.order k.old k.new (rows.cond_wait_of (view R.order k.old.tables) t c ((view R.order k.old.tables).conditions c) m ((view R.order k.old.tables).mutexes m) deadline).outcome }
    ensures reply { result ≡ (rows.cond_wait_of (view R.order k.old.tables) t c ((view R.order k.old.tables).conditions c) m ((view R.order k.old.tables).mutexes m) deadline).reply }
{
    if !k.tables().has_condition(c) {
        return k.refuse(t, Errno::EINVAL);
    }
    match k.tables().mutex(m) {
        None => k.refuse(t, Errno::EINVAL),
        Some(mutex) => wait_with(k, t, c, m, mutex, deadline),
    }
}

/// Whether there is a mutex, and it is another.
fn is_other(bound: Option<u32>, m: u32) -> bool
    ensures { result ≡ is_other m bound }
{
    match bound {
        None => false,
        Some(k) => k != m,
    }
}

/// Whether a deadline, if there is one, has passed.
fn has_come(now: u64, deadline: Option<u64>) -> bool
    ensures { result ≡ has_come now deadline }
{
    match deadline {
        None => false,
        Some(until) => until <= now,
    }
}

/// Waits for a condition with a mutex that is there.
fn wait_with<R: Ready + Drop>(
    k: &mut Kernel<R>,
    t: Tid,
    c: u32,
    m: u32,
    mutex: MutexState,
    deadline: Option<u64>,
) -> Reply
    requires ready { CanNote R.order k.old t }
    requires exists { is_some ((view R.order k.old.tables).conditions c) ≡ true }
    requires found { (view R.order k.old.tables).mutexes m ≡ Some (mutex_of mutex (waiters_in ((view R.order k.old.tables).mutexes m))) }
    ensures noted { (condition : Condition) → (view R.order k.old.tables).conditions c ≡ Some condition
        → HasNotedSome R.order k.old k.new (rows.cond_wait_of (view R.order k.old.tables) t c (Some condition) m (Some (mutex_of mutex (waiters_in ((view R.order k.old.tables).mutexes m)))) deadline).outcome }
    ensures reply { (condition : Condition) → (view R.order k.old.tables).conditions c ≡ Some condition
        → result ≡ (rows.cond_wait_of (view R.order k.old.tables) t c (Some condition) m (Some (mutex_of mutex (waiters_in ((view R.order k.old.tables).mutexes m)))) deadline).reply }
{
    if !mutex.holder.is_held_by(t) {
        return k.refuse(t, Errno::EPERM);
    }
    if is_other(k.tables().condition_mutex(c), m) {
        return k.refuse(t, Errno::EINVAL);
    }
    let count = mutex.holder.count();
    if has_come(k.tables().ticks(), deadline) {
        return time_out(k, t, m, count);
    }
    wait_and_release(k, t, c, m, count, deadline);
    Reply::Block
}

/// Ends a wait whose deadline has passed before it began: where a thread waits for the mutex it is passed on, and else
/// the caller keeps it, which it had so often, and is answered.
fn time_out<R: Ready + Drop>(k: &mut Kernel<R>, t: Tid, m: u32, count: u32) -> Reply
    requires ready { CanNote R.order k.old t }
    requires there { is_some ((view R.order k.old.tables).mutexes m) ≡ true }
    ensures noted { (mutex : Mutex) → (view R.order k.old.tables).mutexes m ≡ Some mutex → count ≡ count_of mutex.holder
        → HasNotedSome R.order k.old k.new (rows.time_out (view R.order k.old.tables) t m mutex (best_waiter (view R.order k.old.tables) mutex)).outcome }
    ensures reply { (mutex : Mutex) → (view R.order k.old.tables).mutexes m ≡ Some mutex
        → result ≡ (rows.time_out (view R.order k.old.tables) t m mutex (best_waiter (view R.order k.old.tables) mutex)).reply }
{
    match k.tables().best_waiter(m) {
        None => {
            k.note_one(t, Change::reply(t, TIMED_OUT, 0));
            Reply::Values(TIMED_OUT, 0)
        }
        Some(u) => {
            pass_on(k, t, m, u, count);
            Reply::Block
        }
    }
}

/// Notes that the caller's mutex goes to its best waiter, and that the caller, who had it so often, waits to have it
/// back, after the others.
fn pass_on<R: Ready + Drop>(k: &mut Kernel<R>, t: Tid, m: u32, u: Tid, count: u32)
    requires ready { CanNote R.order k.old t }
    requires there { is_some ((view R.order k.old.tables).mutexes m) ≡ true }
    requires best { first_greatest (eff (view R.order k.old.tables)) (waiters_in ((view R.order k.old.tables).mutexes m)) ≡ Some u }
    ensures { (mutex : Mutex) → (view R.order k.old.tables).mutexes m ≡ Some mutex → count ≡ count_of mutex.holder
        → HasNotedSome R.order k.old k.new (rows.pass_on (view R.order k.old.tables) t m mutex u) }
{
    k.hand_off(m);
    k.note_more(Change::Mutex {
        mutex: m,
        change: MutexChange::AddWaiter { thread: t },
    });
    let reply = RetakeReply::Answer(TIMED_OUT);
    let wait = Wait::Reacquire {
        mutex: m,
        reply,
        count,
    };
    k.note_more(Change::Thread {
        thread: t,
        change: ThreadChange::Await { wait },
    });
}

/// Notes that the caller waits for a condition, after the others, until a deadline where there is one, and that its
/// mutex is handed over, which it had so often.
fn wait_and_release<R: Ready + Drop>(
    k: &mut Kernel<R>,
    t: Tid,
    c: u32,
    m: u32,
    count: u32,
    deadline: Option<u64>,
)
    requires ready { CanNote R.order k.old t }
    requires exists { is_some ((view R.order k.old.tables).conditions c) ≡ true }
    requires there { is_some ((view R.order k.old.tables).mutexes m) ≡ true }
    requires same { is_other m (cond_mutex ((view R.order k.old.tables).conditions c)) ≡ false }
    ensures { (condition : Condition) (mutex : Mutex) → (view R.order k.old.tables).conditions c ≡ Some condition
        → (view R.order k.old.tables).mutexes m ≡ Some mutex → count ≡ count_of mutex.holder
        → HasNotedSome R.order k.old k.new (rows.wait_and_release (view R.order k.old.tables) t c condition m mutex deadline).outcome }
{
    k.note_more(Change::Condition {
        cond: c,
        change: ConditionChange::Enter {
            thread: t,
            mutex: m,
        },
    });
    let wait = Wait::Cond {
        cond: c,
        mutex: m,
        deadline,
        count,
    };
    k.note_more(Change::Thread {
        thread: t,
        change: ThreadChange::Await { wait },
    });
    k.hand_off(m);
}

/// Wakes the best waiter of a condition, if there is one, by POSIX.1 pthread_cond_signal.
pub(crate) fn cond_signal<R: Ready + Drop>(k: &mut Kernel<R>, t: Tid, c: Arguments) -> Reply
    requires { CanNote R.order k.old t }
    ensures noted { HasNotedSome R.order k.old k.new (rows.cond_signal (view R.order k.old.tables) t c).outcome }
    ensures reply { result ≡ (rows.cond_signal (view R.order k.old.tables) t c).reply }
{
    if !k.tables().has_condition(c.a0) {
        return k.refuse(t, Errno::EINVAL);
    }
    signal(k, t, c.a0);
    Reply::Values(0, 0)
}

/// Notes that the best waiter of a condition is woken, if there is one, and that the caller is answered.
fn signal<R: Ready + Drop>(k: &mut Kernel<R>, t: Tid, c: u32)
    requires ready { CanNote R.order k.old t }
    requires exists { is_some ((view R.order k.old.tables).conditions c) ≡ true }
    ensures { (condition : Condition) → (view R.order k.old.tables).conditions c ≡ Some condition
        → HasNotedSome R.order k.old k.new (values (rows.wake_one (begun (view R.order k.old.tables)) (next_woken (view R.order k.old.tables) condition)) t 0 0).outcome }
{
    match k.tables().next_woken(c) {
        None => k.note_one(t, answer(t)),
        Some(u) => wake_best(k, t, c, u),
    }
}

/// Notes that a waiter of a condition is woken, and that the caller is answered.
fn wake_best<R: Ready + Drop>(k: &mut Kernel<R>, t: Tid, c: u32, u: Tid)
    requires ready { CanNote R.order k.old t }
    requires waits { is_in u (cond_waiters ((view R.order k.old.tables).conditions c)) ≡ true }
    ensures { HasNotedSome R.order k.old k.new (values (wake (begun (view R.order k.old.tables)) u (Answer 0)) t 0 0).outcome }
{
    match k.tables().condition_mutex(c) {
        None => unreachable!(),
        Some(m) => {
            k.wake(c, m, u, RetakeReply::Answer(0));
            k.note_more(answer(t));
        }
    }
}

/// Wakes all waiters of a condition, by POSIX.1 pthread_cond_broadcast.
pub(crate) fn cond_broadcast<R: Ready + Drop>(k: &mut Kernel<R>, t: Tid, c: Arguments) -> Reply
    requires { CanNote R.order k.old t }
    ensures noted { HasNotedSome R.order k.old k.new (rows.cond_broadcast (view R.order k.old.tables) t c).outcome }
    ensures reply { result ≡ (rows.cond_broadcast (view R.order k.old.tables) t c).reply }
{
    if !k.tables().has_condition(c.a0) {
        return k.refuse(t, Errno::EINVAL);
    }
    broadcast(k, t, c.a0);
    Reply::Values(0, 0)
}

/// Notes that all waiters of a condition are woken, those of greater priority first, and that the caller is answered.
fn broadcast<R: Ready + Drop>(k: &mut Kernel<R>, t: Tid, c: u32)
    requires ready { CanNote R.order k.old t }
    requires exists { is_some ((view R.order k.old.tables).conditions c) ≡ true }
    ensures { (condition : Condition) → (view R.order k.old.tables).conditions c ≡ Some condition
        → HasNotedSome R.order k.old k.new (values (wake_all (begun (view R.order k.old.tables)) (in_order (eff (view R.order k.old.tables)) condition.waiters)) t 0 0).outcome }
{
    match k.tables().condition_mutex(c) {
        None => k.note_one(t, answer(t)),
        Some(m) => {
            let wake_order = k.tables().wake_order(c);
            wake_each(k, t, c, m, &wake_order);
            k.note_more(answer(t));
        }
    }
}

/// The thread of the number of a waiter of a condition.
fn cond_waiter<R: Ready + Drop>(k: &Kernel<R>, c: u32, number: u32) -> Tid
    requires good { IsGood (view R.order k.now.tables) }
    requires waits { is_in number (cond_waiters ((view R.order k.now.tables).conditions c)) ≡ true }
    ensures number { result ≡ number }
    ensures there { exists (view R.order k.now.tables) result ≡ true }
{
    match k.tables().thread(number) {
        Some(u) => u,
        None => unreachable!(),
    }
}

/// Notes that all waiters of a condition are woken in this order. Each takes two small changes.
fn wake_each<R: Ready + Drop>(k: &mut Kernel<R>, t: Tid, c: u32, m: u32, wake_order: &[u32])
    requires ready { CanNote R.order k.old t }
    requires all { wake_order.now ≡ in_order (eff (view R.order k.old.tables)) (cond_waiters ((view R.order k.old.tables).conditions c)) }
    requires bound { cond_mutex ((view R.order k.old.tables).conditions c) ≡ Some m }
    ensures noted { HasNoted R.order k.old k.new (wake_all (begun (view R.order k.old.tables)) wake_order.now) }
    ensures length { length k.new.rest.noted.items ≤ 128 }
{
    for number in wake_order {
        let u = cond_waiter(k, c, *number);
        k.wake(c, m, u, RetakeReply::Answer(0));
    }
}
