ghost use Rattle.std.specs.Prelude.{◌≡◌, ◌++◌, ◌<◌, ◌≤◌, ◌↔◌, [], ◌∷◌, ℕ, true, Some, IfOk, IfSome, IfNone, IsNone};
ghost use Rattle.thread_base.specs.Maps.{put, numbered};
ghost use Rattle.thread_base.specs.Orders.{is_in, is_nil, without};
ghost use Rattle.thread_base.specs.Priority.{first_greatest};
ghost use Rattle.thread_base.proofs.PriorityLemmas.{better as better_of};
ghost use Rattle.link_arena.specs.Waiting.{queue_of, StandsInNone, AreApart};

use crate::Links;
use arrayvec::ArrayVec;
use std::alloc::Global;
use std::marker::Model;
use thread_base::{NoMemory, Tid};

/// Lists of threads for the numbers 0 to 255, each in order of arrival. A thread stands in one of them at most, as
/// it waits for one thing at a time (POSIX.1). Its node is its number. Their memory is taken when they are made.
#[derive(Drop)]
pub struct WaitQueues {
    links: Links,
}

impl Model for WaitQueues {
    ghost use Rattle.std.specs.Prelude.{List, ℕ};
    ghost use Rattle.link_arena.specs.Waiting.{AreQueues};

    ghost Value = { List (List ℕ) };

    ghost view = { λ q. q.links.lists };

    ghost invariant = { λ q. AreQueues q.links };
}

impl WaitQueues {
    /// No thread in any list. NoMemory comes only where memory ran out; no later call takes any.
    pub fn new(alloc: Global) -> Result<WaitQueues, NoMemory>
        ensures { IfOk result (λ q. queue_of q ≡ (λ _. [])) }
    {
        Ok(WaitQueues {
            links: Links::new(alloc, 65, 256)?,
        })
    }

    /// The numbers of the threads of one list, in order. It costs a step for each.
    pub fn threads(&self, n: u32) -> ArrayVec<u32, 64>
        requires { n < 256 }
        ensures queue { result.items ≡ queue_of self.now n }
        ensures apart { AreApart (queue_of self.now) }
    {
        let mut threads = ArrayVec::new();
        let mut at = self.links.first(n);
        while let Some(t) = at {
            threads.push(t);
            at = self.links.next(t);
        }
        threads
    }

    /// Whether no thread stands in one list.
    pub fn is_empty(&self, n: u32) -> bool
        requires { n < 256 }
        ensures { result ≡ is_nil (queue_of self.now n) }
    {
        self.links.first(n).is_none()
    }

    /// The number of the list in which a thread stands; None exactly where it stands in none.
    pub fn awaited(&self, t: Tid) -> Option<u32>
        ensures one { IfSome result (λ n. is_in t (queue_of self.now n) ≡ true) }
        ensures none { IfNone result (StandsInNone t (queue_of self.now)) }
    {
        self.links.head_of(t.number())
    }

    /// Puts a thread that stands in no list after all others of one.
    pub fn push(&mut self, n: u32, t: Tid)
        requires limit { n < 256 }
        requires free { StandsInNone t (queue_of self.old) }
        ensures queues { queue_of self.new ≡ put (queue_of self.old) n (queue_of self.old n ++ t ∷ []) }
        ensures apart { AreApart (queue_of self.new) }
    {
        self.links.push_back(n, t.number());
    }

    /// Takes a thread out of the list in which it stands, where it stands in one; the order of the others stays.
    pub fn remove(&mut self, t: Tid)
        ensures queues { (n : ℕ) → is_in t (queue_of self.old n) ≡ true
            → queue_of self.new ≡ put (queue_of self.old) n (without t (queue_of self.old n)) }
        ensures none { StandsInNone t (queue_of self.old) → queue_of self.new ≡ queue_of self.old }
        ensures apart { AreApart (queue_of self.new) }
    {
        let t = t.number();
        if self.links.head_of(t).is_some() {
            self.links.unlink(t);
        }
    }

    /// Of one list, the first thread of the greatest level, where `levels[t - 1]` is that of thread t; None exactly
    /// where the list is empty.
    pub fn best(&self, n: u32, levels: &[u8; 64]) -> Option<Tid>
        requires { n < 256 }
        ensures first { result ≡ first_greatest (numbered 0 levels.now) (queue_of self.now n) }
        ensures empty { IsNone result ↔ (queue_of self.now n ≡ []) }
        ensures member { IfSome result (λ t. is_in t (queue_of self.now n) ≡ true) }
    {
        let mut best = None;
        let mut at = self.links.first(n);
        while let Some(t) = at {
            best = Some(better(levels, best, thread(t)));
            at = self.links.next(t);
        }
        best
    }
}

/// The thread of a number that is known to be in range.
fn thread(number: u32) -> Tid
    requires { (1 ≤ number) × (number ≤ 64) }
    ensures { result ≡ number }
{
    Tid::at(number as usize - 1)
}

/// Of the best thread so far and one after it, that of the greater level; the earlier of equals.
pub fn better(levels: &[u8; 64], best: Option<Tid>, t: Tid) -> Tid
    ensures { Some result ≡ better_of (numbered 0 levels.now) best t }
{
    match best {
        None => t,
        Some(b) => {
            if levels[b.index()] < levels[t.index()] {
                t
            } else {
                b
            }
        }
    }
}
