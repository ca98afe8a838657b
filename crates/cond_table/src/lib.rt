//! The condition variables: who waits for each, and with which mutex.
#![tactic(auto)]

#[cfg(test)]
mod tests;

ghost use Rattle.std.specs.Prelude.{◌≡◌, ◌<◌, ◌↔◌, [], ℕ, true, is_some, is_none, IfOk, IfSome, IfNone, IsSome, IsNone, IsTrue};
ghost use Rattle.std.specs.List.{list_any};
ghost use Rattle.std.specs.Option.{ForSome};
ghost use Rattle.thread_base.specs.Maps.{put, numbered};
ghost use Rattle.thread_base.specs.Orders.{is_in};
ghost use Rattle.thread_base.specs.Priority.{first_greatest};
ghost use Rattle.link_arena.specs.Waiting.{StandsInNone, StandsInOne, AreApart};
ghost use Rattle.thread_base.specs.Objects.{cond_mutex, cond_waiters, new_condition, entered, without_waiter, is_mutex, condition_numbers};
ghost use Rattle.cond_table.specs.ConditionMap.{conditions, waiting};

use arrayvec::ArrayVec;
use link_arena::WaitQueues;
use std::alloc::Global;
use std::marker::Model;
use thread_base::{NoMemory, Tid};

/// The condition variables, with numbers from 0 to 255, and the threads that wait for each, in order of arrival and
/// all with one mutex (POSIX.1). A thread waits for one at most. Their memory is taken when the table is made.
#[derive(Drop)]
pub struct Conds {
    /// For each condition a mutex, which is that of its waiters while there are some.
    mutexes: Vec<Option<u32>>,
    waiters: WaitQueues,
}

impl Model for Conds {
    ghost use Rattle.cond_table.specs.ConditionMap.{Table, AreSound};

    ghost Value = { Table };

    ghost view = { λ t. record { mutexes = t.mutexes.items; queues = t.waiters } };

    ghost invariant = { λ t. AreSound t.mutexes.items t.waiters };
}

impl Conds {
    /// No condition. NoMemory comes only where memory ran out; no later call takes any.
    pub fn new(alloc: Global) -> Result<Conds, NoMemory>
        ensures { IfOk result (λ t. conditions t ≡ (λ _. None)) }
    {
        let Ok(mutexes) = Vec::from_slice(alloc, &[None; 256]) else {
            return Err(NoMemory);
        };
        Ok(Conds {
            mutexes,
            waiters: WaitQueues::new(alloc)?,
        })
    }

    /// Whether there is a condition of this number.
    pub fn exists(&self, c: u32) -> bool
        ensures member { result ≡ is_some (conditions self.now c) }
        ensures limit { IsTrue result → c < 256 }
    {
        c < 256 && self.mutexes[c as usize].is_some()
    }

    /// Makes a condition for which nobody waits.
    pub fn init(&mut self, c: u32)
        requires limit { c < 256 }
        requires fresh { IsNone (conditions self.old c) }
        ensures { conditions self.new ≡ put (conditions self.old) c (Some new_condition) }
    {
        self.mutexes[c as usize] = Some(0);
    }

    /// Takes a condition away for which nobody waits.
    pub fn destroy(&mut self, c: u32)
        requires exists { IsSome (conditions self.old c) }
        requires idle { cond_waiters (conditions self.old c) ≡ [] }
        ensures { conditions self.new ≡ put (conditions self.old) c None }
    {
        self.mutexes[c as usize] = None;
    }

    /// The mutex with which the waiters of a condition wait; None exactly where nobody waits.
    pub fn bound_mutex(&self, c: u32) -> Option<u32>
        requires { IsSome (conditions self.now c) }
        ensures mutex { result ≡ cond_mutex (conditions self.now c) }
        ensures empty { IsNone result ↔ (cond_waiters (conditions self.now c) ≡ []) }
    {
        if self.waiters.is_empty(c) {
            None
        } else {
            self.mutexes[c as usize]
        }
    }

    /// Puts a thread that waits for no condition after all others that wait for one, with the mutex that they all
    /// wait with.
    pub fn wait(&mut self, c: u32, t: Tid, m: u32)
        requires exists { IsSome (conditions self.old c) }
        requires free { StandsInNone t (waiting (conditions self.old)) }
        requires bound { ForSome (cond_mutex (conditions self.old c)) (λ n. n ≡ m) }
        ensures conditions { conditions self.new ≡ put (conditions self.old) c (entered t m (conditions self.old c)) }
        ensures apart { AreApart (waiting (conditions self.new)) }
    {
        self.mutexes[c as usize] = Some(m);
        self.waiters.push(c, t);
    }

    /// Of the threads that wait for a condition, the first of the greatest priority, where `eff[t - 1]` is that of
    /// thread t; None exactly where nobody waits.
    pub fn best(&self, c: u32, eff: &[u8; 64]) -> Option<Tid>
        requires { IsSome (conditions self.now c) }
        ensures first { result ≡ first_greatest (numbered 0 eff.now) (cond_waiters (conditions self.now c)) }
        ensures empty { IsNone result ↔ (cond_waiters (conditions self.now c) ≡ []) }
        ensures member { IfSome result (λ t. is_in t (cond_waiters (conditions self.now c)) ≡ true) }
    {
        self.waiters.best(c, eff)
    }

    /// Takes a thread that waits for a condition out of its waiters; the order of the others stays.
    pub fn remove(&mut self, t: Tid)
        requires { StandsInOne t (waiting (conditions self.old)) }
        ensures conditions { (c : ℕ) → is_in t (waiting (conditions self.old) c) ≡ true
            → conditions self.new ≡ put (conditions self.old) c (without_waiter t (conditions self.old c)) }
        ensures apart { AreApart (waiting (conditions self.new)) }
    {
        self.waiters.remove(t);
    }

    /// Whether a thread waits for some condition with this mutex.
    pub fn uses(&self, m: u32) -> bool
        ensures { IsTrue result ↔ ((c : ℕ) × (cond_mutex (conditions self.now c) ≡ Some m)) }
    {
        // No condition has a number beyond the table.
        let _places = &self.mutexes;
        self.some_uses(m)
    }

    /// The numbers of the threads that wait for a condition, in order of arrival. It costs a step for each.
    pub fn waiters(&self, c: u32) -> ArrayVec<u32, 64>
        requires { IsSome (conditions self.now c) }
        ensures queue { result.items ≡ cond_waiters (conditions self.now c) }
        ensures apart { AreApart (waiting (conditions self.now)) }
    {
        self.waiters.threads(c)
    }

    /// The condition for which a thread waits; None exactly where it waits for none.
    pub fn awaited(&self, t: Tid) -> Option<u32>
        ensures one { IfSome result (λ c. is_in t (waiting (conditions self.now) c) ≡ true) }
        ensures none { IfNone result (StandsInNone t (waiting (conditions self.now))) }
    {
        self.waiters.awaited(t)
    }

    /// Whether a condition has waiters, and they wait with this mutex.
    fn is_bound(&self, c: u32, m: u32) -> bool
        ensures { result ≡ is_mutex m (cond_mutex (conditions self.now c)) }
    {
        self.exists(c) && self.bound_mutex(c) == Some(m)
    }

    /// Whether some condition of the table has waiters that wait with this mutex.
    #[tactic(auto, unfolding(thread_base::specs::Objects::condition_numbers))]
    fn some_uses(&self, m: u32) -> bool
        ensures { result ≡ list_any (λ c. is_mutex m (cond_mutex (conditions self.now c))) condition_numbers }
    {
        (0..256u32).any(|c| self.is_bound(c, m))
    }
}
