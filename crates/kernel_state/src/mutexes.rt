ghost use Rattle.std.specs.Prelude.{◌≡◌, ◌<◌, ◌≤◌, ◌-◌, ℕ, true, false, find, IfSome, IfNone, IsSome};
ghost use Rattle.std.specs.List.{range_with_len};
ghost use Rattle.thread_base.specs.Holders.{is_held_by, is_free};
ghost use Rattle.thread_base.specs.Maps.{put, numbered};
ghost use Rattle.thread_base.specs.Objects.{holder_in, waiters_in};
ghost use Rattle.thread_base.specs.Orders.{is_in};
ghost use Rattle.thread_base.specs.Priority.{first_greatest};
ghost use Rattle.mutex_table.specs.MutexMap.{mutexes as mutex_map};
ghost use Rattle.posix_model.specs.State.{Mutex, is_live};
ghost use Rattle.posix_model.specs.Good.{IsGood};
ghost use Rattle.posix_model.specs.Mutexes.{give, requeue};
ghost use Rattle.posix_model.specs.Scheduling.{eff};
ghost use Rattle.kernel_state.specs.View.{view, outcome, mutex_by, StayCurrent};
ghost use Rattle.kernel_state.specs.Changing.{change_by, mutex_change_by, CanMutex, CanRetake, WaitsForNoMutex};

use crate::change::{Change, MutexChange};
use crate::tables::Tables;
use mutex_table::{MutexState, Mutexes};
use posix_model::{RetakeReply, Wait};
use ready_queues::Ready;
use thread_base::{Holder, Tid};

impl<R: Ready + Drop> Tables<R> {
    /// What a mutex does and who has it; None exactly where there is no mutex of this number.
    pub fn mutex(&self, m: u32) -> Option<MutexState>
        ensures mutex { (view R.order self.now).mutexes m ≡ mutex_by result (waiters_in ((view R.order self.now).mutexes m)) }
        ensures limit { IsSome result → m < 256 }
    {
        self.mutexes.lookup(m)
    }

    /// The least mutex from a number on that a thread has; None exactly where it has none of them.
    #[tactic(auto, unfolding(crate::specs::View::view))]
    pub fn next_owned(&self, t: Tid, from: u32) -> Option<u32>
        ensures least { result ≡ find (λ m. is_held_by (holder_in ((view R.order self.now).mutexes m)) t) (range_with_len from (256 - from)) }
        ensures none { IfNone result ((m : ℕ) → from ≤ m → is_held_by (holder_in ((view R.order self.now).mutexes m)) t ≡ false) }
    {
        self.mutexes.next_owned(t, from)
    }

    /// The effective priority of a thread; 0 where there is none.
    fn level(&self, t: Tid) -> u8
        ensures { result ≡ eff (view R.order self.now) t }
    {
        let _in_range = t.number();
        match self.records.row(t) {
            None => 0,
            Some(row) => row.base.number() as u8,
        }
    }

    /// The effective priorities of all threads by their numbers.
    pub(crate) fn levels(&self) -> [u8; 64]
        ensures { (t : ℕ) → 1 ≤ t → t ≤ 64 → numbered 0 result t ≡ eff (view R.order self.now) t }
    {
        let mut levels = [0; 64];
        for index in 0..64 {
            levels[index as usize] = self.level(Tid::at(index));
        }
        levels
    }

    /// Who gets a mutex that is released: of its waiters the first of the greatest priority; None exactly where
    /// nobody waits.
    pub fn best_waiter(&self, m: u32) -> Option<Tid>
        requires good { IsGood (view R.order self.now) }
        requires exists { IsSome ((view R.order self.now).mutexes m) }
        ensures first { result ≡ first_greatest (eff (view R.order self.now)) (waiters_in ((view R.order self.now).mutexes m)) }
        ensures member { IfSome result (λ u. is_in u (waiters_in ((view R.order self.now).mutexes m)) ≡ true) }
    {
        self.mutexes.best_waiter(m, &self.levels())
    }

    /// Makes a change of one mutex.
    #[tactic(auto, unfolding(crate::specs::View::outcome, crate::specs::View::view), using(crate::proofs::CurrentLemmas::alike))]
    pub(crate) fn change_mutex(&mut self, m: u32, change: MutexChange)
        requires { CanMutex change m (view R.order self.old).mutexes }
        ensures outcome { outcome R.order self.new ≡ change_by (Change.Mutex m change) (outcome R.order self.old) }
        ensures current { StayCurrent R.order R.prio self.old self.new }
    {
        change.make(&mut self.mutexes, m);
    }

    /// Whether a mutex that is there is free.
    #[tactic(auto, unfolding(crate::specs::View::view))]
    fn is_free(&self, m: u32) -> bool
        requires { IsSome ((view R.order self.now).mutexes m) }
        ensures { result ≡ is_free (holder_in ((view R.order self.now).mutexes m)) }
    {
        self.mutexes.holder(m).is_free()
    }

    /// Gives a mutex back to a waiting thread, which has it so often and goes on with the reply, or lets it wait for
    /// one that is not free, after the others.
    pub(crate) fn retake(&mut self, t: Tid, m: u32, count: u32, reply: RetakeReply)
        requires { CanRetake t m (view R.order self.old) }
        ensures outcome { outcome R.order self.new ≡ change_by (Change.Retake t m count reply) (outcome R.order self.old) }
        ensures current { StayCurrent R.order R.prio self.old self.new }
    {
        if self.is_free(m) {
            self.give(t, m, count, reply);
        } else {
            self.requeue(t, m, count, reply);
        }
    }

    /// Gives a mutex to a waiting thread, which has it so often and goes on with the reply.
    fn give(&mut self, t: Tid, m: u32, count: u32, reply: RetakeReply)
        requires there { IsSome ((view R.order self.old).mutexes m) }
        requires away { is_in t (view R.order self.old).ready ≡ false }
        requires live { is_live ((view R.order self.old).threads t).standing ≡ true }
        ensures outcome { (mutex : Mutex) → (view R.order self.old).mutexes m ≡ Some mutex
            → outcome R.order self.new ≡ give (outcome R.order self.old) m mutex t count reply }
        ensures current { StayCurrent R.order R.prio self.old self.new }
    {
        let holder = Holder::Held { by: t, count };
        self.change_mutex(m, MutexChange::Hold { holder });
        self.go_on(t, reply);
    }

    /// Lets a waiting thread wait to have a mutex back, after the others.
    fn requeue(&mut self, t: Tid, m: u32, count: u32, reply: RetakeReply)
        requires there { IsSome ((view R.order self.old).mutexes m) }
        requires none { WaitsForNoMutex (view R.order self.old).mutexes t }
        requires live { is_live ((view R.order self.old).threads t).standing ≡ true }
        ensures outcome { (mutex : Mutex) → (view R.order self.old).mutexes m ≡ Some mutex
            → outcome R.order self.new ≡ requeue (outcome R.order self.old) m mutex t count reply }
        ensures current { StayCurrent R.order R.prio self.old self.new }
    {
        self.change_mutex(m, MutexChange::AddWaiter { thread: t });
        let wait = Wait::Reacquire {
            mutex: m,
            reply,
            count,
        };
        self.wait_for(t, wait);
    }
}

impl MutexChange {
    /// Makes the change of the mutex of a number.
    fn make(self, mutexes: &mut Mutexes, m: u32)
        requires { CanMutex self m (mutex_map mutexes.old) }
        ensures { mutex_map mutexes.new ≡ put (mutex_map mutexes.old) m (mutex_change_by self (mutex_map mutexes.old m)) }
    {
        match self {
            MutexChange::Make { kind, protocol } => mutexes.init(m, kind, protocol),
            MutexChange::Destroy => mutexes.destroy(m),
            MutexChange::Hold { holder } => mutexes.put_holder(m, holder),
            MutexChange::AddWaiter { thread } => mutexes.add_waiter(m, thread),
            MutexChange::DropWaiter { thread } => mutexes.remove_waiter(thread),
        }
    }
}
