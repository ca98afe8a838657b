//! Lists of nodes in arrays, one for each head. A node stands in one of them at most.
#![tactic(auto)]

mod rings;
mod stacks;
#[cfg(test)]
mod tests;
mod waits;

ghost use Rattle.std.specs.Prelude.{◌≡◌, ◌<◌, ◌≤◌, ◌↔◌, [], ℕ, true, false, None, IfOk, IfSome, IfNone, IsNone, IsSome, length, replicate};
ghost use Rattle.thread_base.specs.Orders.{is_in};
ghost use Rattle.link_arena.specs.Chains.{NodeLists, list_of, head_in, first_of, next_in, pushed, inserted, unlinked, AreApart};
ghost use Rattle.link_arena.specs.Rings.{node_of};

use rings::Rings;
pub use stacks::Stacks;
use std::alloc::Global;
use std::marker::Model;
use thread_base::NoMemory;
pub use waits::{WaitQueues, better};

/// Lists of nodes, one for each head, each linked in both ways. A node stands in one list at most, and each
/// operation takes constant time. All memory is taken when they are made.
#[derive(Drop)]
pub struct Links {
    nodes: u32,
    heads: u32,
    rings: Rings,
}

impl Model for Links {
    ghost use Rattle.link_arena.specs.Chains.{NodeLists};
    ghost use Rattle.link_arena.specs.Rings.{shown, Keeps};

    ghost Value = { NodeLists };

    ghost view = { λ l. shown l.nodes l.heads l.rings.next.items };

    ghost invariant = { λ l. Keeps l.nodes l.heads l.rings.next.items l.rings.previous.items l.rings.homes.items };
}

impl Links {
    /// An empty list for each head. NoMemory comes only where memory ran out; no later call takes any.
    pub fn new(alloc: Global, nodes: u32, heads: u32) -> Result<Links, NoMemory>
        requires limits { (nodes ≤ 4096) × (heads ≤ 4096) }
        ensures { IfOk result (λ links. links ≡ record { nodes = nodes; lists = replicate heads [] }) }
    {
        Ok(Links {
            nodes,
            heads,
            rings: Rings::new(alloc, nodes, heads)?,
        })
    }

    /// Puts a node that stands in no list after all others of one.
    pub fn push_back(&mut self, head: u32, node: u32)
        requires range { (head < length self.old.lists) × (node < self.old.nodes) }
        requires free { head_in self.old.lists node ≡ None }
        ensures lists { self.new ≡ pushed head node self.old }
        ensures apart { AreApart self.new }
    {
        let end = self.nodes + head;
        self.rings.link(node, end);
    }

    /// Puts a node that stands in no list right before another, in its list.
    pub fn insert_before(&mut self, node: u32, at: u32)
        requires range { (node < self.old.nodes) × (at < self.old.nodes) }
        requires free { head_in self.old.lists node ≡ None }
        requires placed { IsSome (head_in self.old.lists at) }
        ensures lists { self.new ≡ inserted node at self.old }
        ensures apart { AreApart self.new }
    {
        self.rings.link(node, at);
    }

    /// Takes a node out of its list; the order of the others stays, in all lists.
    pub fn unlink(&mut self, node: u32)
        requires { IsSome (head_in self.old.lists node) }
        ensures lists { self.new ≡ unlinked node self.old }
        ensures apart { AreApart self.new }
    {
        self.rings.unlink(node);
    }

    /// The first node of a list; None exactly where the list is empty.
    pub fn first(&self, head: u32) -> Option<u32>
        requires { head < length self.now.lists }
        ensures first { result ≡ first_of (list_of self.now.lists head) }
        ensures empty { IsNone result ↔ (list_of self.now.lists head ≡ []) }
        ensures apart { AreApart self.now }
    {
        let end = self.nodes + head;
        node_at(self.nodes, self.rings.next(end))
    }

    /// The node after another; None exactly where it is the last of its list or stands in none.
    pub fn next(&self, node: u32) -> Option<u32>
        requires { node < self.now.nodes }
        ensures next { result ≡ next_in self.now.lists node }
        ensures apart { AreApart self.now }
    {
        let _head = self.rings.home(node)?;
        node_at(self.nodes, self.rings.next(node))
    }

    /// The head in whose list a node stands; None exactly where it stands in none.
    pub fn head_of(&self, node: u32) -> Option<u32>
        requires { node < self.now.nodes }
        ensures head { result ≡ head_in self.now.lists node }
        ensures list { IfSome result (λ head. is_in node (list_of self.now.lists head) ≡ true) }
        ensures none { IfNone result ((head : ℕ) → is_in node (list_of self.now.lists head) ≡ false) }
        ensures apart { AreApart self.now }
    {
        self.rings.home(node)
    }
}

/// The node that stands at a place; None exactly at an end.
fn node_at(nodes: u32, place: u32) -> Option<u32>
    ensures { result ≡ node_of nodes place }
{
    if place < nodes { Some(place) } else { None }
}
