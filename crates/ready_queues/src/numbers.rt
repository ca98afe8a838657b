ghost use Rattle.std.specs.Prelude.{◌≡◌, ◌++◌, ◌<◌, ◌-◌, ◌^◌, ◌&&◌, [], ◌∷◌, ℕ, List, true, false, is_some, nat_lt, length, filter, find};
ghost use Rattle.thread_base.specs.Orders.{is_in, IsOrder};
ghost use Rattle.thread_base.specs.Priority.{tids};
ghost use Rattle.link_arena.specs.Chains.{list_of, head_in};
ghost use Rattle.ready_queues.specs.Ranks.{number_of, rank_of, AreNumbered, AllStand};

use crate::levels::Levels;
use thread_base::{Prio, Tid};

/// A rising number for each thread that is ready: of two of them, the one that came later has the greater.
#[derive(Drop)]
pub struct Numbers {
    pub given: [u64; 65],
    pub next: u64,
}

impl Numbers {
    /// Numbers of which the first to be given is this one.
    pub fn starting_at(next: u64) -> Numbers
        ensures next { result.next ≡ next }
        ensures no_one { AreNumbered result.given result.next [] }
    {
        Numbers {
            given: [0; 65],
            next,
        }
    }

    /// Gives a thread a number that is greater than that of every other.
    pub fn give(&mut self, t: Tid, lists: &Levels)
        ensures { (order : List ℕ) → IsOrder order → is_in t order ≡ false → AllStand lists.now order
            → AreNumbered self.old.given self.old.next order → AreNumbered self.new.given self.new.next (order ++ t ∷ []) }
    {
        self.make_room(lists);
        self.given[t.number() as usize] = self.next;
        self.next += 1;
    }

    /// Where the numbers are used up, numbers the threads of the lists anew from 0, in their order.
    fn make_room(&mut self, lists: &Levels)
        ensures room { self.new.next < 2 ^ 64 - 1 }
        ensures order { (order : List ℕ) → IsOrder order → AllStand lists.now order
            → AreNumbered self.old.given self.old.next order → AreNumbered self.new.given self.new.next order }
    {
        if self.next < u64::MAX {
            return;
        }
        self.given = ranks(&self.given, lists);
        self.next = 64;
    }

    /// The first thread of a priority whose number is greater than that of a thread.
    pub fn later(&self, t: Tid, p: Prio, lists: &Levels) -> Option<u32>
        ensures { result ≡ find (λ u. nat_lt (number_of self.now.given t) (number_of self.now.given u)) (list_of lists.now p) }
    {
        let number = self.given[t.number() as usize];
        let mut at = lists.first(p);
        while let Some(u) = at {
            if number < self.given[u as usize] {
                break;
            }
            at = lists.next(u);
        }
        at
    }
}

/// For each thread, how many of those in the lists have a lower number.
fn ranks(given: &[u64; 65], lists: &Levels) -> [u64; 65]
    ensures { (t : ℕ) → t < 65 → number_of result t ≡ rank_of given.now lists.now t }
{
    let mut ranks = [0; 65];
    for t in 0..65u32 {
        ranks[t as usize] = rank(given, lists, t);
    }
    ranks
}

/// How many threads in the lists have a lower number than a thread.
fn rank(given: &[u64; 65], lists: &Levels, t: u32) -> u64
    requires { t < 65 }
    ensures { result ≡ rank_of given.now lists.now t }
{
    let mut lower = 0;
    for u in 1..65u32 {
        if is_lower(given, lists, u, t) {
            lower += 1;
        }
    }
    lower
}

/// Whether a thread stands in a list and has a lower number than another.
fn is_lower(given: &[u64; 65], lists: &Levels, u: u32, t: u32) -> bool
    requires { (u < 65) × (t < 65) }
    ensures { result ≡ (is_some (head_in lists.now u) && nat_lt (number_of given.now u) (number_of given.now t)) }
{
    lists.has(u) && given[u as usize] < given[t as usize]
}
