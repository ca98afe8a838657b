ghost use Rattle.std.specs.Prelude.{◌≡◌, ◌<◌, ◌≤◌, ◌+◌, true, length, IsSome, None};
ghost use Rattle.thread_base.specs.Objects.{waiters_in};
ghost use Rattle.thread_base.specs.Orders.{is_in};
ghost use Rattle.posix_model.specs.Threads.{exists};
ghost use Rattle.kernel_state.specs.View.{view};
ghost use Rattle.kernel_state.specs.Waking.{HandsOff, HandsOffTo, Wakes};

use crate::change::{Change, ConditionChange, MutexChange};
use crate::kernel::Kernel;
use posix_model::RetakeReply;
use ready_queues::Ready;
use thread_base::{Holder, Tid};

/// A mutex is free; its waiters stay.
fn freed(m: u32) -> Change
    ensures { result ≡ Change.Mutex m (MutexChange.Hold Holder.Free) }
{
    let holder = Holder::Free;
    Change::Mutex {
        mutex: m,
        change: MutexChange::Hold { holder },
    }
}

impl<R: Ready + Drop> Kernel<R> {
    /// Notes, after what the move has noted, that a mutex goes to its best waiter, or is free: three small changes
    /// at most.
    pub fn hand_off(&mut self, m: u32)
        requires exists { IsSome ((view R.order self.old.tables).mutexes m) }
        requires room { length self.old.rest.noted.items < 510 }
        requires idle { self.old.main ≡ None }
        ensures noted { HandsOff R.order self.old self.new m }
        ensures idle { self.new.main ≡ None }
        ensures length { length self.new.rest.noted.items ≤ length self.old.rest.noted.items + 3 }
    {
        match self.tables().best_waiter(m) {
            None => self.note_more(freed(m)),
            Some(u) => self.hand_off_to(m, u),
        }
    }

    /// Notes that a mutex is freed, and that a waiter takes it as often as is due to it.
    fn hand_off_to(&mut self, m: u32, u: Tid)
        requires waits { is_in u (waiters_in ((view R.order self.old.tables).mutexes m)) ≡ true }
        requires room { length self.old.rest.noted.items < 510 }
        requires idle { self.old.main ≡ None }
        ensures noted { HandsOffTo R.order self.old self.new m u }
        ensures idle { self.new.main ≡ None }
        ensures length { length self.new.rest.noted.items ≡ length self.old.rest.noted.items + 3 }
    {
        let count = self.tables().known(u).count_due();
        let reply = self.tables().known(u).reply_due();
        self.note_more(freed(m));
        self.note_more(Change::Mutex {
            mutex: m,
            change: MutexChange::DropWaiter { thread: u },
        });
        self.note_more(Change::Retake {
            thread: u,
            mutex: m,
            count,
            reply,
        });
    }

    /// Notes, after what the move has noted, that the wait of a thread for a condition with a mutex ends with a
    /// reply: two small changes.
    pub fn wake(&mut self, c: u32, m: u32, u: Tid, reply: RetakeReply)
        requires there { exists (view R.order self.old.tables) u ≡ true }
        requires room { length self.old.rest.noted.items < 511 }
        requires idle { self.old.main ≡ None }
        ensures idle { self.new.main ≡ None }
        ensures noted { Wakes R.order self.old self.new c m u reply }
        ensures length { length self.new.rest.noted.items ≡ length self.old.rest.noted.items + 2 }
    {
        let count = self.tables().known(u).count_due();
        self.note_more(Change::Condition {
            cond: c,
            change: ConditionChange::Leave { thread: u },
        });
        self.note_more(Change::Retake {
            thread: u,
            mutex: m,
            count,
            reply,
        });
    }
}
