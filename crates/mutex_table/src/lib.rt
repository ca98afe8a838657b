//! The mutexes: what each does, who has it, and who waits for it.
#![tactic(auto)]

#[cfg(test)]
mod tests;

ghost use Rattle.std.specs.Prelude.{◌≡◌, ◌++◌, ◌<◌, ◌≤◌, ◌-◌, ◌↔◌, [], ◌∷◌, ℕ, true, false, is_some, find, IfOk, IfSome, IfNone, IsSome, IsNone, IsTrue};
ghost use Rattle.std.specs.List.{range_with_len};
ghost use Rattle.std.specs.Option.{option_map};
ghost use Rattle.thread_base.specs.Maps.{put, numbered};
ghost use Rattle.thread_base.specs.Orders.{is_in, without};
ghost use Rattle.thread_base.specs.Priority.{first_greatest};
ghost use Rattle.link_arena.specs.Waiting.{StandsInNone, StandsInOne, AreApart};
ghost use Rattle.thread_base.specs.Objects.{waiters_in, free_mutex, with_holder, with_waiters, is_owned_by};
ghost use Rattle.mutex_table.specs.MutexMap.{mutexes, state_of, waiting};

use arrayvec::ArrayVec;
use link_arena::WaitQueues;
use std::alloc::Global;
use std::marker::Model;
use thread_base::{NoMemory, Tid};
pub use thread_base::{Holder, Kind, Protocol};

/// A mutex but for its waiters: what it does where its owner locks it again, what it does to its owner's priority,
/// and who has it (POSIX.1 mutexes).
#[derive(Clone, Copy, Debug, PartialEq, Eq)]
pub struct MutexState {
    pub kind: Kind,
    pub protocol: Protocol,
    pub holder: Holder,
}

/// The mutexes, with numbers from 0 to 255, and the threads that wait for each in order of arrival. A thread waits
/// for one mutex at most. Their memory is taken when the table is made.
#[derive(Drop)]
pub struct Mutexes {
    states: Vec<Option<MutexState>>,
    waiters: WaitQueues,
}

impl Model for Mutexes {
    ghost use Rattle.mutex_table.specs.MutexMap.{Table, AreSound};

    ghost Value = { Table };

    ghost view = { λ t. record { states = t.states.items; queues = t.waiters } };

    ghost invariant = { λ t. AreSound t.states.items t.waiters };
}

impl Mutexes {
    /// No mutex. NoMemory comes only where memory ran out; no later call takes any.
    pub fn new(alloc: Global) -> Result<Mutexes, NoMemory>
        ensures { IfOk result (λ t. mutexes t ≡ (λ _. None)) }
    {
        let Ok(states) = Vec::from_slice(alloc, &[None; 256]) else {
            return Err(NoMemory);
        };
        Ok(Mutexes {
            states,
            waiters: WaitQueues::new(alloc)?,
        })
    }

    /// A mutex but for its waiters; None exactly where there is no such mutex.
    pub fn lookup(&self, m: u32) -> Option<MutexState>
        ensures state { result ≡ state_of (mutexes self.now m) }
        ensures limit { IsSome result → m < 256 }
    {
        if m < 256 {
            self.states[m as usize]
        } else {
            None
        }
    }

    /// Whether there is a mutex of this number.
    pub fn exists(&self, m: u32) -> bool
        ensures member { result ≡ is_some (mutexes self.now m) }
        ensures limit { IsTrue result → m < 256 }
    {
        self.lookup(m).is_some()
    }

    /// What a mutex does where its owner locks it again.
    pub fn kind(&self, m: u32) -> Kind
        requires { IsSome (mutexes self.now m) }
        ensures { option_map (λ mutex. mutex.kind) (mutexes self.now m) ≡ Some result }
    {
        match self.lookup(m) {
            Some(state) => state.kind,
            None => unreachable!(),
        }
    }

    /// What a mutex does to its owner's priority.
    pub fn protocol(&self, m: u32) -> Protocol
        requires { IsSome (mutexes self.now m) }
        ensures { option_map (λ mutex. mutex.protocol) (mutexes self.now m) ≡ Some result }
    {
        match self.lookup(m) {
            Some(state) => state.protocol,
            None => unreachable!(),
        }
    }

    /// Who has a mutex.
    pub fn holder(&self, m: u32) -> Holder
        requires { IsSome (mutexes self.now m) }
        ensures { option_map (λ mutex. mutex.holder) (mutexes self.now m) ≡ Some result }
    {
        match self.lookup(m) {
            Some(state) => state.holder,
            None => unreachable!(),
        }
    }

    /// Makes a mutex that nobody has and nobody waits for.
    pub fn init(&mut self, m: u32, kind: Kind, protocol: Protocol)
        requires limit { m < 256 }
        requires fresh { IsNone (mutexes self.old m) }
        ensures { mutexes self.new ≡ put (mutexes self.old) m (Some (free_mutex kind protocol)) }
    {
        self.states[m as usize] = Some(MutexState {
            kind,
            protocol,
            holder: Holder::Free,
        });
    }

    /// Takes a mutex away for which nobody waits.
    pub fn destroy(&mut self, m: u32)
        requires exists { IsSome (mutexes self.old m) }
        requires idle { waiters_in (mutexes self.old m) ≡ [] }
        ensures { mutexes self.new ≡ put (mutexes self.old) m None }
    {
        self.states[m as usize] = None;
    }

    /// Gives a mutex to somebody, to nobody, or to a thread that has ended; its waiters stay.
    pub fn put_holder(&mut self, m: u32, h: Holder)
        requires { IsSome (mutexes self.old m) }
        ensures { mutexes self.new ≡ put (mutexes self.old) m (with_holder h (mutexes self.old m)) }
    {
        let state = self.lookup(m).unwrap();
        self.states[m as usize] = Some(MutexState {
            kind: state.kind,
            protocol: state.protocol,
            holder: h,
        });
    }

    /// Puts a thread that waits for no mutex after all others that wait for one.
    pub fn add_waiter(&mut self, m: u32, t: Tid)
        requires exists { IsSome (mutexes self.old m) }
        requires free { StandsInNone t (waiting (mutexes self.old)) }
        ensures mutexes { mutexes self.new
            ≡ put (mutexes self.old) m (with_waiters (λ ts. ts ++ t ∷ []) (mutexes self.old m)) }
        ensures apart { AreApart (waiting (mutexes self.new)) }
    {
        self.waiters.push(m, t);
    }

    /// Takes a thread that waits for a mutex out of its waiters; the order of the others stays.
    pub fn remove_waiter(&mut self, t: Tid)
        requires { StandsInOne t (waiting (mutexes self.old)) }
        ensures mutexes { (m : ℕ) → is_in t (waiting (mutexes self.old) m) ≡ true
            → mutexes self.new ≡ put (mutexes self.old) m (with_waiters (without t) (mutexes self.old m)) }
        ensures apart { AreApart (waiting (mutexes self.new)) }
    {
        self.waiters.remove(t);
    }

    /// Of the threads that wait for a mutex, the first of the greatest priority, where `eff[t - 1]` is that of
    /// thread t; None exactly where nobody waits.
    pub fn best_waiter(&self, m: u32, eff: &[u8; 64]) -> Option<Tid>
        requires { IsSome (mutexes self.now m) }
        ensures first { result ≡ first_greatest (numbered 0 eff.now) (waiters_in (mutexes self.now m)) }
        ensures empty { IsNone result ↔ (waiters_in (mutexes self.now m) ≡ []) }
        ensures member { IfSome result (λ t. is_in t (waiters_in (mutexes self.now m)) ≡ true) }
    {
        self.waiters.best(m, eff)
    }

    /// The numbers of the threads that wait for a mutex, in order of arrival. It costs a step for each.
    pub fn waiters(&self, m: u32) -> ArrayVec<u32, 64>
        requires { IsSome (mutexes self.now m) }
        ensures queue { result.items ≡ waiters_in (mutexes self.now m) }
        ensures apart { AreApart (waiting (mutexes self.now)) }
    {
        self.waiters.threads(m)
    }

    /// The mutex for which a thread waits; None exactly where it waits for none.
    pub fn awaited(&self, t: Tid) -> Option<u32>
        ensures one { IfSome result (λ m. is_in t (waiting (mutexes self.now) m) ≡ true) }
        ensures none { IfNone result (StandsInNone t (waiting (mutexes self.now))) }
    {
        self.waiters.awaited(t)
    }

    /// The least mutex from a number on that a thread owns; None exactly where it owns none of them.
    pub fn next_owned(&self, t: Tid, from: u32) -> Option<u32>
        ensures least { result ≡ find (λ m. is_owned_by t (mutexes self.now m)) (range_with_len from (256 - from)) }
        ensures none { IfNone result ((m : ℕ) → from ≤ m → is_owned_by t (mutexes self.now m) ≡ false) }
    {
        // No mutex has a number beyond the table.
        let _places = &self.states;
        self.least_owned(t, from)
    }

    /// The least mutex from a number on that a thread owns, if there is one.
    fn least_owned(&self, t: Tid, from: u32) -> Option<u32>
        ensures { result ≡ find (λ m. is_owned_by t (mutexes self.now m)) (range_with_len from (256 - from)) }
    {
        (from..256).find(|m| self.is_owned(*m, t))
    }

    /// Whether there is a mutex of this number that a thread owns.
    fn is_owned(&self, m: u32, t: Tid) -> bool
        ensures { result ≡ is_owned_by t (mutexes self.now m) }
    {
        match self.lookup(m) {
            Some(state) => state.holder.is_held_by(t),
            None => false,
        }
    }
}
