ghost use Rattle.std.specs.Prelude.{◌≡◌, ◌==◌, ◌&&◌, ◌++◌, ◌<◌, [], ◌∷◌, ℕ, true, false, is_some, None, IfOk, IfSome, IsSome, if◌then◌else◌};
ghost use Rattle.std.specs.Int.{bit_at};
ghost use Rattle.thread_base.specs.Orders.{is_in, without};
ghost use Rattle.link_arena.specs.Chains.{list_of, head_in, first_of, after_in, with_before, StandsOnce};
ghost use Rattle.ready_queues.specs.Ranks.{IsTop};

use link_arena::Links;
use std::alloc::Global;
use std::marker::Model;
use thread_base::{NoMemory, Prio, Tid};

/// A list of threads for each priority, and a bit for each list that has one. A thread's node is its number, and
/// each operation takes constant time.
#[derive(Drop)]
pub struct Levels {
    links: Links,
    bits: u32,
}

impl Model for Levels {
    ghost use Rattle.std.specs.Prelude.{List, ℕ};
    ghost use Rattle.ready_queues.specs.Ranks.{AreMarked};

    ghost Value = { List (List ℕ) };

    ghost view = { λ l. l.links.lists };

    ghost invariant = { λ l. AreMarked l.links l.bits };
}

impl Levels {
    /// An empty list for each priority. NoMemory comes only where memory ran out; no later call takes any.
    pub fn new(alloc: Global) -> Result<Levels, NoMemory>
        ensures { IfOk result (λ l. (h : ℕ) → list_of l h ≡ []) }
    {
        Ok(Levels {
            links: Links::new(alloc, 65, 32)?,
            bits: 0,
        })
    }

    /// Puts a thread that stands in no list after all others of a priority.
    pub fn push(&mut self, t: Tid, p: Prio)
        requires { (h : ℕ) → is_in t (list_of self.old h) ≡ false }
        ensures { (h : ℕ) → list_of self.new h ≡ (if h == p then list_of self.old p ++ t ∷ [] else list_of self.old h) }
    {
        self.links.push_back(p.number(), t.number());
        self.bits |= 1 << p.number();
    }

    /// Puts a thread that stands in no list right before another, in its list.
    pub fn insert(&mut self, t: Tid, at: u32)
        requires range { at < 65 }
        requires free { (h : ℕ) → is_in t (list_of self.old h) ≡ false }
        requires placed { IsSome (head_in self.old at) }
        ensures { (h : ℕ) → list_of self.new h ≡ with_before t at (list_of self.old h) }
    {
        self.links.insert_before(t.number(), at);
    }

    /// Takes a thread out of the list of its priority.
    pub fn remove(&mut self, t: Tid, p: Prio)
        requires { is_in t (list_of self.old p) ≡ true }
        ensures { (h : ℕ) → list_of self.new h ≡ without t (list_of self.old h) }
    {
        self.links.unlink(t.number());
        let is_empty = self.links.first(p.number()).is_none();
        self.bits = unmarked(self.bits, p, is_empty);
    }

    /// The first thread of a priority; None exactly where no thread has it.
    pub fn first(&self, p: Prio) -> Option<u32>
        ensures first { result ≡ first_of (list_of self.now p) }
        ensures range { IfSome result (λ t. t < 65) }
        ensures once { StandsOnce (list_of self.now p) }
    {
        self.links.first(p.number())
    }

    /// The thread after another of its list; None exactly where it is the last.
    pub fn next(&self, t: u32) -> Option<u32>
        requires { t < 65 }
        ensures next { (h : ℕ) → is_in t (list_of self.now h) ≡ true → result ≡ after_in t (list_of self.now h) }
        ensures range { IfSome result (λ u. u < 65) }
    {
        self.links.next(t)
    }

    /// Whether a thread stands in a list.
    pub fn has(&self, t: u32) -> bool
        requires { t < 65 }
        ensures { result ≡ is_some (head_in self.now t) }
    {
        self.links.head_of(t).is_some()
    }

    /// The first thread of the greatest priority that some thread has, found by one look at the bits.
    pub fn top(&self) -> Option<u32>
        ensures { IsTop self.now result }
    {
        if self.bits == 0 {
            return None;
        }
        self.links.first(31 - self.bits.leading_zeros())
    }
}

/// The bits without that of a priority, where no thread has it any more.
fn unmarked(bits: u32, p: Prio, is_empty: bool) -> u32
    ensures { (h : ℕ) → h < 32 → bit_at result h ≡ (if is_empty && (h == p) then 0 else bit_at bits h) }
{
    if is_empty {
        bits & !(1 << p.number())
    } else {
        bits
    }
}
