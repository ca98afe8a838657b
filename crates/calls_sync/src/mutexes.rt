ghost use Rattle.std.specs.Prelude.{◌≡◌, ◌<◌, ◌==◌, ◌&&◌, ◌||◌, true, Some, IsSome, IsNone};
ghost use Rattle.thread_base.specs.Holders.{is_held_by, is_free, count_of};
ghost use Rattle.thread_base.specs.Objects.{free_mutex, holder_in, waiters_in};
ghost use Rattle.posix_model.specs.State.{Mutex};
ghost use Rattle.posix_model.specs.Changes.{begun};
ghost use Rattle.posix_model.specs.Mutexes.{most_locks, set_mutex, hand_off, best_waiter};
ghost use Rattle.posix_model.specs.MutexCalls as rows;
ghost use Rattle.posix_model.specs.MutexCalls.{cannot_init, kind_by, is_error_checking, is_recursive};
ghost use Rattle.posix_model.specs.Replies.{values};
ghost use Rattle.kernel_state.specs.View.{view, mutex_of};
ghost use Rattle.kernel_state.specs.Begun.{CanNote, HasNotedSome};

use kernel_state::{Change, Kernel, MutexChange, ThreadChange};
use mutex_table::MutexState;
use posix_model::{Arguments, Reply, Wait};
use ready_queues::Ready;
use thread_base::{Errno, Holder, Kind, Protocol, Tid};

/// The most that one thread locks a mutex.
const MOST_LOCKS: u32 = 65_535;

/// Every bit of the attributes of a mutex that says nothing, or asks for a protocol that is not built.
const UNUSED: u32 = 0xffff_fffc;

/// Whether no mutex can be made with a number or attributes.
fn cannot_init(c: Arguments) -> bool
    ensures { result ≡ cannot_init c }
{
    c.a0 >= 256 || c.a1 & UNUSED != 0 || c.a1 % 4 == 3
}

/// The kind of a new mutex by its attributes.
fn kind_by(word: u32) -> Kind
    ensures { result ≡ kind_by word }
{
    match word % 4 {
        0 => Kind::Normal,
        1 => Kind::ErrorCheck,
        _ => Kind::Recursive,
    }
}

/// Whether a thread has a mutex of the kind that answers an error where its owner locks it again.
fn is_checked(mutex: &MutexState, t: Tid) -> bool
    ensures { result ≡ (is_error_checking mutex.now.kind && is_held_by mutex.now.holder t) }
{
    matches!(mutex.kind, Kind::ErrorCheck) && mutex.holder.is_held_by(t)
}

/// Whether a thread has a mutex of the kind that counts where its owner locks it again.
fn is_counted(mutex: &MutexState, t: Tid) -> bool
    ensures { result ≡ (is_recursive mutex.now.kind && is_held_by mutex.now.holder t) }
{
    matches!(mutex.kind, Kind::Recursive) && mutex.holder.is_held_by(t)
}

/// Whether a thread has a mutex that counts, and it cannot count further.
fn is_full(mutex: &MutexState, t: Tid) -> bool
    ensures { result ≡ (is_recursive mutex.now.kind && is_held_by mutex.now.holder t && count_of mutex.now.holder == most_locks) }
{
    is_counted(mutex, t) && mutex.holder.count() == MOST_LOCKS
}

/// Whether a thread has a mutex without a wait where it locks it.
fn is_open(mutex: &MutexState, t: Tid) -> bool
    ensures { result ≡ (is_free mutex.now.holder || is_recursive mutex.now.kind && is_held_by mutex.now.holder t) }
{
    mutex.holder.is_free() || is_counted(mutex, t)
}

/// The answer of a call that did what it was asked for and has no value.
pub(crate) fn answer(t: Tid) -> Change
    ensures { result ≡ Change.Thread t (ThreadChange.Reply 0 0) }
{
    Change::reply(t, 0, 0)
}

/// Notes that a mutex has another holder, and that the caller is answered.
fn hold<R: Ready + Drop>(k: &mut Kernel<R>, t: Tid, m: u32, holder: Holder)
    requires ready { CanNote R.order k.old t }
    requires exists { IsSome ((view R.order k.old.tables).mutexes m) }
    ensures { (mutex : Mutex) → (view R.order k.old.tables).mutexes m ≡ Some mutex
        → HasNotedSome R.order k.old k.new (values (begun (set_mutex (view R.order k.old.tables) m (Some (record mutex { holder = holder })))) t 0 0).outcome }
{
    let change = MutexChange::Hold { holder };
    k.note_two(t, Change::Mutex { mutex: m, change }, answer(t));
}

/// Notes that the caller has locked a mutex once more that it had so often.
fn take<R: Ready + Drop>(k: &mut Kernel<R>, t: Tid, m: u32, count: u32)
    requires ready { CanNote R.order k.old t }
    requires exists { IsSome ((view R.order k.old.tables).mutexes m) }
    requires count { count ≡ count_of (holder_in ((view R.order k.old.tables).mutexes m)) }
    ensures { (mutex : Mutex) → (view R.order k.old.tables).mutexes m ≡ Some mutex
        → HasNotedSome R.order k.old k.new (rows.take (view R.order k.old.tables) t m mutex).outcome }
{
    hold(
        k,
        t,
        m,
        Holder::Held {
            by: t,
            count: count + 1,
        },
    );
}

/// Notes that the caller waits for a mutex, after the others.
fn queue<R: Ready + Drop>(k: &mut Kernel<R>, t: Tid, m: u32)
    requires ready { CanNote R.order k.old t }
    requires exists { IsSome ((view R.order k.old.tables).mutexes m) }
    ensures { (mutex : Mutex) → (view R.order k.old.tables).mutexes m ≡ Some mutex
        → HasNotedSome R.order k.old k.new (rows.queue (view R.order k.old.tables) t m mutex).outcome }
{
    let wait = Wait::Mutex(m);
    k.note_two(
        t,
        Change::Mutex {
            mutex: m,
            change: MutexChange::AddWaiter { thread: t },
        },
        Change::Thread {
            thread: t,
            change: ThreadChange::Await { wait },
        },
    );
}

/// Notes a new mutex, which is free.
fn make<R: Ready + Drop>(k: &mut Kernel<R>, t: Tid, m: u32, kind: Kind)
    requires ready { CanNote R.order k.old t }
    requires limit { m < 256 }
    requires fresh { IsNone ((view R.order k.old.tables).mutexes m) }
    ensures { HasNotedSome R.order k.old k.new (values (begun (set_mutex (view R.order k.old.tables) m (Some (free_mutex kind Protocol.Plain)))) t 0 0).outcome }
{
    let protocol = Protocol::Plain;
    let change = MutexChange::Make { kind, protocol };
    k.note_two(t, Change::Mutex { mutex: m, change }, answer(t));
}

/// Makes a mutex, by POSIX.1 pthread_mutex_init.
pub(crate) fn init<R: Ready + Drop>(k: &mut Kernel<R>, t: Tid, c: Arguments) -> Reply
    requires { CanNote R.order k.old t }
    ensures noted { HasNotedSome R.order k.old k.new (rows.mutex_init (view R.order k.old.tables) t c).outcome }
    ensures reply { result ≡ (rows.mutex_init (view R.order k.old.tables) t c).reply }
{
    if cannot_init(c) {
        return k.refuse(t, Errno::EINVAL);
    }
    match k.tables().mutex(c.a0) {
        Some(_) => k.refuse(t, Errno::EBUSY),
        None => {
            make(k, t, c.a0, kind_by(c.a1));
            Reply::Values(0, 0)
        }
    }
}

/// Takes a free mutex away that no waiter of a condition uses, by POSIX.1 pthread_mutex_destroy.
pub(crate) fn destroy<R: Ready + Drop>(k: &mut Kernel<R>, t: Tid, c: Arguments) -> Reply
    requires { CanNote R.order k.old t }
    ensures noted { HasNotedSome R.order k.old k.new (rows.mutex_destroy (view R.order k.old.tables) t c).outcome }
    ensures reply { result ≡ (rows.mutex_destroy (view R.order k.old.tables) t c).reply }
{
    match k.tables().mutex(c.a0) {
        None => k.refuse(t, Errno::EINVAL),
        Some(mutex) => destroy_mutex(k, t, c.a0, mutex),
    }
}

/// Takes a mutex away, where it is free and no waiter of a condition uses it.
fn destroy_mutex<R: Ready + Drop>(k: &mut Kernel<R>, t: Tid, m: u32, mutex: MutexState) -> Reply
    requires ready { CanNote R.order k.old t }
    requires found { (view R.order k.old.tables).mutexes m ≡ Some (mutex_of mutex (waiters_in ((view R.order k.old.tables).mutexes m))) }
    ensures noted { HasNotedSome R.order k.old k.new (rows.destroy_of (view R.order k.old.tables) t m (Some (mutex_of mutex (waiters_in ((view R.order k.old.tables).mutexes m))))).outcome }
    ensures reply { result ≡ (rows.destroy_of (view R.order k.old.tables) t m (Some (mutex_of mutex (waiters_in ((view R.order k.old.tables).mutexes m))))).reply }
{
    if !mutex.holder.is_free() || k.tables().is_used(m) {
        return k.refuse(t, Errno::EBUSY);
    }
    let change = MutexChange::Destroy;
    k.note_two(t, Change::Mutex { mutex: m, change }, answer(t));
    Reply::Values(0, 0)
}

/// Locks a mutex, or waits for it, by POSIX.1 pthread_mutex_lock.
pub(crate) fn lock<R: Ready + Drop>(k: &mut Kernel<R>, t: Tid, c: Arguments) -> Reply
    requires { CanNote R.order k.old t }
    ensures noted { HasNotedSome R.order k.old k.new (rows.lock (view R.order k.old.tables) t c).outcome }
    ensures reply { result ≡ (rows.lock (view R.order k.old.tables) t c).reply }
{
    match k.tables().mutex(c.a0) {
        None => k.refuse(t, Errno::EINVAL),
        Some(mutex) => lock_mutex(k, t, c.a0, mutex),
    }
}

/// Locks a mutex that is there, or waits for it.
fn lock_mutex<R: Ready + Drop>(k: &mut Kernel<R>, t: Tid, m: u32, mutex: MutexState) -> Reply
    requires ready { CanNote R.order k.old t }
    requires found { (view R.order k.old.tables).mutexes m ≡ Some (mutex_of mutex (waiters_in ((view R.order k.old.tables).mutexes m))) }
    ensures noted { HasNotedSome R.order k.old k.new (rows.lock_of (view R.order k.old.tables) t m (Some (mutex_of mutex (waiters_in ((view R.order k.old.tables).mutexes m))))).outcome }
    ensures reply { result ≡ (rows.lock_of (view R.order k.old.tables) t m (Some (mutex_of mutex (waiters_in ((view R.order k.old.tables).mutexes m))))).reply }
{
    if is_checked(&mutex, t) {
        return k.refuse(t, Errno::EDEADLK);
    }
    if is_full(&mutex, t) {
        return k.refuse(t, Errno::EAGAIN);
    }
    if is_open(&mutex, t) {
        take(k, t, m, mutex.holder.count());
        return Reply::Values(0, 0);
    }
    queue(k, t, m);
    Reply::Block
}

/// Locks a mutex where nobody has to wait, by POSIX.1 pthread_mutex_trylock.
pub(crate) fn trylock<R: Ready + Drop>(k: &mut Kernel<R>, t: Tid, c: Arguments) -> Reply
    requires { CanNote R.order k.old t }
    ensures noted { HasNotedSome R.order k.old k.new (rows.trylock (view R.order k.old.tables) t c).outcome }
    ensures reply { result ≡ (rows.trylock (view R.order k.old.tables) t c).reply }
{
    match k.tables().mutex(c.a0) {
        None => k.refuse(t, Errno::EINVAL),
        Some(mutex) => trylock_mutex(k, t, c.a0, mutex),
    }
}

/// Locks a mutex that is there, where nobody has to wait.
fn trylock_mutex<R: Ready + Drop>(k: &mut Kernel<R>, t: Tid, m: u32, mutex: MutexState) -> Reply
    requires ready { CanNote R.order k.old t }
    requires found { (view R.order k.old.tables).mutexes m ≡ Some (mutex_of mutex (waiters_in ((view R.order k.old.tables).mutexes m))) }
    ensures noted { HasNotedSome R.order k.old k.new (rows.trylock_of (view R.order k.old.tables) t m (Some (mutex_of mutex (waiters_in ((view R.order k.old.tables).mutexes m))))).outcome }
    ensures reply { result ≡ (rows.trylock_of (view R.order k.old.tables) t m (Some (mutex_of mutex (waiters_in ((view R.order k.old.tables).mutexes m))))).reply }
{
    if is_full(&mutex, t) {
        return k.refuse(t, Errno::EAGAIN);
    }
    if !is_open(&mutex, t) {
        return k.refuse(t, Errno::EBUSY);
    }
    take(k, t, m, mutex.holder.count());
    Reply::Values(0, 0)
}

/// Unlocks a mutex that the caller has, by POSIX.1 pthread_mutex_unlock.
pub(crate) fn unlock<R: Ready + Drop>(k: &mut Kernel<R>, t: Tid, c: Arguments) -> Reply
    requires { CanNote R.order k.old t }
    ensures noted { HasNotedSome R.order k.old k.new (rows.unlock (view R.order k.old.tables) t c).outcome }
    ensures reply { result ≡ (rows.unlock (view R.order k.old.tables) t c).reply }
{
    match k.tables().mutex(c.a0) {
        None => k.refuse(t, Errno::EINVAL),
        Some(mutex) => unlock_mutex(k, t, c.a0, mutex),
    }
}

/// Unlocks a mutex that is there.
fn unlock_mutex<R: Ready + Drop>(k: &mut Kernel<R>, t: Tid, m: u32, mutex: MutexState) -> Reply
    requires ready { CanNote R.order k.old t }
    requires found { (view R.order k.old.tables).mutexes m ≡ Some (mutex_of mutex (waiters_in ((view R.order k.old.tables).mutexes m))) }
    ensures noted { HasNotedSome R.order k.old k.new (rows.unlock_of (view R.order k.old.tables) t m (Some (mutex_of mutex (waiters_in ((view R.order k.old.tables).mutexes m))))).outcome }
    ensures reply { result ≡ (rows.unlock_of (view R.order k.old.tables) t m (Some (mutex_of mutex (waiters_in ((view R.order k.old.tables).mutexes m))))).reply }
{
    if !mutex.holder.is_held_by(t) {
        return k.refuse(t, Errno::EPERM);
    }
    release(k, t, m, mutex.holder.count());
    Reply::Values(0, 0)
}

/// Notes that the caller has locked a mutex once less that it had so often; with the last lock the mutex is handed
/// over.
fn release<R: Ready + Drop>(k: &mut Kernel<R>, t: Tid, m: u32, count: u32)
    requires ready { CanNote R.order k.old t }
    requires count { count ≡ count_of (holder_in ((view R.order k.old.tables).mutexes m)) }
    requires held { is_held_by (holder_in ((view R.order k.old.tables).mutexes m)) t ≡ true }
    ensures { (mutex : Mutex) → (view R.order k.old.tables).mutexes m ≡ Some mutex
        → HasNotedSome R.order k.old k.new (values (rows.released (view R.order k.old.tables) t m mutex) t 0 0).outcome }
{
    if count == 1 {
        hand_off_and_answer(k, t, m);
    } else {
        hold(
            k,
            t,
            m,
            Holder::Held {
                by: t,
                count: count - 1,
            },
        );
    }
}

/// Notes that a mutex goes to its best waiter, or is free, and that the caller is answered.
fn hand_off_and_answer<R: Ready + Drop>(k: &mut Kernel<R>, t: Tid, m: u32)
    requires ready { CanNote R.order k.old t }
    requires exists { IsSome ((view R.order k.old.tables).mutexes m) }
    ensures { (mutex : Mutex) → (view R.order k.old.tables).mutexes m ≡ Some mutex
        → HasNotedSome R.order k.old k.new (values (hand_off (begun (view R.order k.old.tables)) m mutex (best_waiter (view R.order k.old.tables) mutex)) t 0 0).outcome }
{
    k.hand_off(m);
    k.note_more(answer(t));
}
