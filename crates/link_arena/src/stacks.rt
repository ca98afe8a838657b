ghost use Rattle.std.specs.Prelude.{◌≡◌, ◌==◌, ◌+◌, ◌-◌, ◌<◌, ◌≤◌, ◌≢◌, [], ◌∷◌, ℕ, false, None, length, min, IfOk, IfSome, IfNone, if◌then◌else◌};
ghost use Rattle.thread_base.specs.Maps.{put};
ghost use Rattle.thread_base.specs.Orders.{is_in};
ghost use Rattle.link_arena.specs.Chains.{AreApart, list_of, head_in, first_of};
ghost use Rattle.link_arena.specs.Stacking.{moved, rest_of, stack_at};

use crate::Links;
use std::alloc::Global;
use std::marker::Model;
use thread_base::{NoMemory, Tid};

/// A stack of nodes for each thread, of 32 at most. A node that is on no stack is free for its thread. Their memory
/// is taken when they are made.
#[derive(Drop)]
pub struct Stacks {
    links: Links,
    depths: [u32; 65],
}

impl Model for Stacks {
    ghost use Rattle.std.specs.Prelude.{List, ℕ};
    ghost use Rattle.link_arena.specs.Stacking.{AreStacks};

    ghost Value = { List (List ℕ) };

    ghost view = { λ s. s.links.lists };

    ghost invariant = { λ s. AreStacks s.links s.depths };
}

impl Stacks {
    /// No node on any stack. NoMemory comes only where memory ran out; no later call takes any.
    pub fn new(alloc: Global) -> Result<Stacks, NoMemory>
        ensures { IfOk result (λ s. stack_at s ≡ (λ _. [])) }
    {
        Ok(Stacks {
            links: all_free(alloc)?,
            depths: [0; 65],
        })
    }

    /// Puts a node that was free on top of a thread's stack; None, and nothing changes, exactly where the thread has
    /// 32.
    pub fn push(&mut self, t: Tid) -> Option<u32>
        ensures full { IfNone result ((length (stack_at self.old t) ≡ 32) × (stack_at self.new ≡ stack_at self.old)) }
        ensures room { IfSome result (λ _. length (stack_at self.old t) < 32) }
        ensures fresh { IfSome result (λ n. (n < 2048) × ((u : ℕ) → is_in n (stack_at self.old u) ≡ false)) }
        ensures stacks { IfSome result (λ n. stack_at self.new ≡ put (stack_at self.old) t (n ∷ stack_at self.old t)) }
    {
        let number = t.number();
        let node = self.links.move_first(64 + number, number)?;
        self.depths[number as usize] += 1;
        Some(node)
    }

    /// Takes the top of a thread's stack off, which is free then; None exactly where the stack is empty.
    pub fn pop(&mut self, t: Tid) -> Option<u32>
        ensures top { result ≡ first_of (stack_at self.old t) }
        ensures range { IfSome result (λ n. n < 2048) }
        ensures stacks { stack_at self.new ≡ put (stack_at self.old) t (rest_of (stack_at self.old t)) }
    {
        let number = t.number();
        let node = self.links.move_first(number, 64 + number)?;
        self.depths[number as usize] -= 1;
        Some(node)
    }

    /// The top of a thread's stack; None exactly where the stack is empty.
    pub fn top(&self, t: Tid) -> Option<u32>
        ensures top { result ≡ first_of (stack_at self.now t) }
        ensures range { IfSome result (λ n. n < 2048) }
    {
        self.links.first(t.number())
    }

    /// How many nodes a thread's stack has, at most 32.
    pub fn depth(&self, t: Tid) -> u32
        ensures stack { result ≡ length (stack_at self.now t) }
        ensures limit { result ≤ 32 }
    {
        self.depths[t.number() as usize]
    }

    /// Takes all nodes off a thread's stack.
    pub fn clear(&mut self, t: Tid)
        ensures { stack_at self.new ≡ put (stack_at self.old) t [] }
    {
        for node in 0..self.depth(t) {
            self.pop(t);
        }
    }
}

impl Links {
    /// Puts a node that stands in no list before all others of one.
    fn push_front(&mut self, head: u32, node: u32)
        requires range { (head < length self.old.lists) × (node < self.old.nodes) }
        requires free { head_in self.old.lists node ≡ None }
        ensures lists { (h : ℕ) → list_of self.new.lists h ≡ (if h == head then node ∷ list_of self.old.lists head else list_of self.old.lists h) }
        ensures same { (self.new.nodes ≡ self.old.nodes) × (length self.new.lists ≡ length self.old.lists) }
        ensures apart { AreApart self.new }
    {
        match self.first(head) {
            Some(at) => self.insert_before(node, at),
            None => self.push_back(head, node),
        }
    }

    /// Moves the first node of a list to the front of another; None exactly where there is no such node.
    fn move_first(&mut self, from: u32, to: u32) -> Option<u32>
        requires range { (from < length self.old.lists) × (to < length self.old.lists) }
        requires two { from ≢ to }
        ensures first { result ≡ first_of (list_of self.old.lists from) }
        ensures none { IfNone result (self.new ≡ self.old) }
        ensures lists { IfSome result (λ n. (h : ℕ) → list_of self.new.lists h ≡ moved self.old.lists from to n h) }
        ensures same { (self.new.nodes ≡ self.old.nodes) × (length self.new.lists ≡ length self.old.lists) }
        ensures apart { AreApart self.new }
    {
        let node = self.first(from)?;
        self.unlink(node);
        self.push_front(to, node);
        Some(node)
    }
}

/// Lists in which each thread has its 32 nodes free.
fn all_free(alloc: Global) -> Result<Links, NoMemory>
    ensures size { IfOk result (λ links. (links.nodes ≡ 2048) × (length links.lists ≡ 129)) }
    ensures empty { IfOk result (λ links. (t : ℕ) → t ≤ 64 → list_of links.lists t ≡ []) }
    ensures free { IfOk result (λ links. (t : ℕ) → 1 ≤ t → t ≤ 64 → length (list_of links.lists (64 + t)) ≡ 32) }
    ensures apart { IfOk result (λ links. AreApart links) }
{
    let mut links = Links::new(alloc, 2048, 129)?;
    for node in 0..2048u32 {
        links.push_back(65 + node / 32, node);
    }
    Ok(links)
}
