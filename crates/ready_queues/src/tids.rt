ghost use Rattle.std.specs.Prelude.{◌≡◌, ◌++◌, ◌↔◌, [], ◌∷◌, true, false, IfOk, IfSome, IsNone};
ghost use Rattle.thread_base.specs.Maps.{numbered};
ghost use Rattle.thread_base.specs.Orders.{is_in, without, IsOrder};
ghost use Rattle.thread_base.specs.Priority.{first_greatest};

use link_arena::better;
use std::alloc::Global;
use std::marker::Model;
use thread_base::{NoMemory, Tid};

/// A list of threads in order of arrival, in which each stands once, so that it has 64 at most. Its memory is
/// taken when it is made.
#[derive(Drop)]
pub struct TidList {
    threads: Vec<Tid>,
}

impl Model for TidList {
    ghost use Rattle.std.specs.Prelude.{List, ℕ, ◌≤◌, vec_capacity};
    ghost use Rattle.thread_base.specs.Orders.{IsOrder};

    ghost Value = { List ℕ };

    ghost view = { λ l. l.threads.items };

    ghost invariant = { λ l. IsOrder l.threads.items × (64 ≤ vec_capacity l.threads) };
}

impl TidList {
    /// No thread. NoMemory comes only where memory ran out; no later call takes any.
    pub fn new(alloc: Global) -> Result<TidList, NoMemory>
        ensures { IfOk result (λ list. list ≡ []) }
    {
        let Ok(threads) = Vec::with_capacity(alloc, 64) else {
            return Err(NoMemory);
        };
        Ok(TidList { threads })
    }

    /// Whether a thread is there.
    pub fn has(&self, t: Tid) -> bool
        ensures member { result ≡ is_in t self.now }
        ensures distinct { IsOrder self.now }
    {
        self.threads.contains(&t)
    }

    /// Puts a thread that is not there after all others.
    pub fn push(&mut self, t: Tid)
        requires { is_in t self.old ≡ false }
        ensures items { self.new ≡ self.old ++ t ∷ [] }
        ensures distinct { IsOrder self.new }
    {
        let _in_range = t.number();
        self.threads.push(t).unwrap();
    }

    /// Takes a thread out, where it is there; the order of the others stays.
    pub fn remove(&mut self, t: Tid)
        ensures items { self.new ≡ without t self.old }
        ensures distinct { IsOrder self.new }
    {
        self.threads.retain(|u| *u != t);
    }

    /// The first of the greatest level, where `levels[t - 1]` is that of thread t; None exactly where no thread is
    /// there.
    pub fn best(&self, levels: &[u8; 64]) -> Option<Tid>
        ensures first { result ≡ first_greatest (numbered 0 levels.now) self.now }
        ensures empty { IsNone result ↔ (self.now ≡ []) }
        ensures member { IfSome result (λ t. is_in t self.now ≡ true) }
        ensures distinct { IsOrder self.now }
    {
        let mut best = None;
        for t in &self.threads {
            best = Some(better(levels, best, *t));
        }
        best
    }
}
