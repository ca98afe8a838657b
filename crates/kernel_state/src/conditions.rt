ghost use Rattle.std.specs.Prelude.{◌≡◌, ◌<◌, ◌+◌, ◌↔◌, [], true, is_some, IfSome, IsNone, IsTrue, length};
ghost use Rattle.thread_base.specs.Maps.{put, numbered};
ghost use Rattle.thread_base.specs.Objects.{cond_mutex, cond_waiters};
ghost use Rattle.thread_base.specs.Orders.{is_in};
ghost use Rattle.thread_base.specs.Priority.{first_greatest};
ghost use Rattle.posix_model.specs.Good.{IsGood};
ghost use Rattle.posix_model.specs.State.{count_due};
ghost use Rattle.posix_model.specs.Mutexes.{reply_due};
ghost use Rattle.posix_model.specs.Conditions.{insert as insert_of, in_order, is_used};
ghost use Rattle.posix_model.specs.Scheduling.{eff};
ghost use Rattle.cond_table.specs.ConditionMap.{conditions as condition_map};
ghost use Rattle.kernel_state.specs.Records.{standing_in};
ghost use Rattle.kernel_state.specs.View.{view, outcome, StayCurrent};
ghost use Rattle.kernel_state.specs.Changing.{change_by, condition_change_by, CanCondition};

use crate::change::{Change, ConditionChange};
use crate::records::ThreadRecord;
use crate::tables::Tables;
use arrayvec::ArrayVec;
use cond_table::Conds;
use posix_model::{RetakeReply, Wait};
use ready_queues::Ready;
use thread_base::Tid;

impl ThreadRecord {
    /// How often the thread has the mutex that its wait gives it; 1 where it waits for none.
    pub fn count_due(self) -> u32
        ensures { result ≡ count_due (standing_in self) }
    {
        match self.wait() {
            Some(Wait::Cond { count, .. }) => count,
            Some(Wait::Reacquire { count, .. }) => count,
            _ => 1,
        }
    }

    /// What the thread is answered when it has the mutex for which it waits; 0 where it waits for none.
    pub fn reply_due(self) -> RetakeReply
        ensures { result ≡ reply_due (standing_in self) }
    {
        match self.wait() {
            Some(Wait::Reacquire { reply, .. }) => reply,
            _ => RetakeReply::Answer(0),
        }
    }
}

impl<R: Ready + Drop> Tables<R> {
    /// Whether there is a condition of this number.
    #[tactic(auto, unfolding(crate::specs::View::view))]
    pub fn has_condition(&self, c: u32) -> bool
        ensures member { result ≡ is_some ((view R.order self.now).conditions c) }
        ensures limit { IsTrue result → c < 256 }
    {
        self.conditions.exists(c)
    }

    /// The mutex with which the waiters of a condition wait; None exactly where nobody waits or no condition is
    /// there.
    #[tactic(auto, unfolding(crate::specs::View::view))]
    pub fn condition_mutex(&self, c: u32) -> Option<u32>
        ensures mutex { result ≡ cond_mutex ((view R.order self.now).conditions c) }
        ensures empty { IsNone result ↔ (cond_waiters ((view R.order self.now).conditions c) ≡ []) }
    {
        if self.conditions.exists(c) {
            self.conditions.bound_mutex(c)
        } else {
            None
        }
    }

    /// Whom a signal wakes: of the waiters of a condition the first of the greatest priority; None exactly where
    /// nobody waits.
    pub fn next_woken(&self, c: u32) -> Option<Tid>
        requires good { IsGood (view R.order self.now) }
        requires exists { is_some ((view R.order self.now).conditions c) ≡ true }
        ensures first { result ≡ first_greatest (eff (view R.order self.now)) (cond_waiters ((view R.order self.now).conditions c)) }
        ensures member { IfSome result (λ u. is_in u (cond_waiters ((view R.order self.now).conditions c)) ≡ true) }
    {
        self.conditions.best(c, &self.levels())
    }

    /// The numbers of the waiters of a condition, those of greater priority first and the earlier of equals.
    pub fn wake_order(&self, c: u32) -> ArrayVec<u32, 64>
        requires good { IsGood (view R.order self.now) }
        requires exists { is_some ((view R.order self.now).conditions c) ≡ true }
        ensures { result.items ≡ in_order (eff (view R.order self.now)) (cond_waiters ((view R.order self.now).conditions c)) }
    {
        sorted(&self.conditions.waiters(c), &self.levels())
    }

    /// Whether the waiters of some condition wait with a mutex.
    pub fn is_used(&self, m: u32) -> bool
        requires { IsGood (view R.order self.now) }
        ensures { result ≡ is_used (view R.order self.now) m }
    {
        self.conditions.uses(m)
    }

    /// Makes a change of one condition.
    #[tactic(auto, unfolding(crate::specs::View::outcome, crate::specs::View::view), using(crate::proofs::CurrentLemmas::alike))]
    pub(crate) fn change_condition(&mut self, c: u32, change: ConditionChange)
        requires { CanCondition change c (view R.order self.old).conditions }
        ensures outcome { outcome R.order self.new ≡ change_by (Change.Condition c change) (outcome R.order self.old) }
        ensures current { StayCurrent R.order R.prio self.old self.new }
    {
        change.make(&mut self.conditions, c);
    }
}

impl ConditionChange {
    /// Makes the change of the condition of a number.
    fn make(self, conditions: &mut Conds, c: u32)
        requires { CanCondition self c (condition_map conditions.old) }
        ensures { condition_map conditions.new ≡ put (condition_map conditions.old) c (condition_change_by self (condition_map conditions.old c)) }
    {
        match self {
            ConditionChange::Make => conditions.init(c),
            ConditionChange::Destroy => conditions.destroy(c),
            ConditionChange::Enter { thread, mutex } => conditions.wait(c, thread, mutex),
            ConditionChange::Leave { thread } => conditions.remove(thread),
        }
    }
}

/// The numbers of threads by their levels, the greatest first and the earlier of equals.
fn sorted(threads: &[u32], levels: &[u8; 64]) -> ArrayVec<u32, 64>
    requires { length threads.now < 65 }
    ensures { result.items ≡ in_order (numbered 0 levels.now) threads.now }
{
    let mut order = ArrayVec::new();
    let mut index = threads.len();
    while index > 0 {
        index -= 1;
        order = inserted(&order, threads[index], levels);
    }
    order
}

/// A list with one number more, before the first of those whose level is not greater.
fn inserted(threads: &[u32], t: u32, levels: &[u8; 64]) -> ArrayVec<u32, 64>
    requires { length threads.now < 64 }
    ensures items { result.items ≡ insert_of (numbered 0 levels.now) t threads.now }
    ensures length { length result.items ≡ length threads.now + 1 }
{
    let mut after = ArrayVec::new();
    let mut stands = false;
    for u in threads {
        if !stands && level_of(levels, *u) <= level_of(levels, t) {
            after.push(t);
            stands = true;
        }
        after.push(*u);
    }
    if !stands {
        after.push(t);
    }
    after
}

/// The level of a number, where `levels[t - 1]` is that of thread t; 0 where it is no thread's.
fn level_of(levels: &[u8; 64], number: u32) -> u8
    ensures { result ≡ numbered 0 levels.now number }
{
    match Tid::new(number) {
        Some(t) => levels[t.index()],
        None => 0,
    }
}
