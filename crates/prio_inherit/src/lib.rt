//! Stored effective priorities by inheritance, mended after each change of an own priority or an edge.
#![tactic(auto)]

#[cfg(test)]
mod tests;
mod walks;

ghost use Rattle.std.specs.Prelude.{◌≡◌, ℕ, None};
ghost use Rattle.thread_base.specs.Maps.{put, numbered};
ghost use Rattle.thread_base.specs.Priority.{AreWithin};
ghost use Rattle.prio_inherit.specs.Priorities.{AreEffective, IsChanged, WereEffectiveBeforeRaise, WereEffectiveBeforeLower};

use thread_base::{Prio, Tid};
use walks::{changed, give_back, raise, settle};

/// The own and the stored priority of each of 64 threads, and the edge from each to the thread for which it
/// waits, if there is one (POSIX.1 priority inheritance). Edges may form circles. It takes no memory.
#[derive(Drop)]
pub struct Inherit {
    own: [Prio; 64],
    edges: [Option<Tid>; 64],
    prios: [Prio; 64],
    ghost within: { AreWithin (numbered None edges) },
}

#[tactic(auto, unfolding(crate::specs::Stored::own_of, crate::specs::Stored::edge_of, crate::specs::Stored::prio_of), using(thread_base::proofs::MapLemmas::numbered_set, thread_base::proofs::MapLemmas::numbered_get))]
impl Inherit {
    ghost use Rattle.prio_inherit.specs.Stored.{own_of, edge_of, prio_of};

    /// Own and stored priorities are 0, and there is no edge.
    pub fn new() -> Inherit
        ensures own { own_of result ≡ (λ _. 0) }
        ensures edge { edge_of result ≡ (λ _. None) }
        ensures prio { prio_of result ≡ (λ _. 0) }
        ensures effective { AreEffective (own_of result) (edge_of result) (prio_of result) }
    {
        let none = Prio::new(0).unwrap();
        Inherit {
            own: [none; 64],
            edges: [None; 64],
            prios: [none; 64],
        }
    }

    /// Changes a thread's own priority; the stored priorities stay.
    pub fn set_own(&mut self, t: Tid, p: Prio)
        ensures own { own_of self.new ≡ put (own_of self.old) t p }
        ensures edge { edge_of self.new ≡ edge_of self.old }
        ensures prio { prio_of self.new ≡ prio_of self.old }
    {
        self.own[t.index()] = p;
    }

    /// Changes a thread's edge; the stored priorities stay.
    pub fn set_edge(&mut self, t: Tid, to: Option<Tid>)
        ensures own { own_of self.new ≡ own_of self.old }
        ensures edge { edge_of self.new ≡ put (edge_of self.old) t to }
        ensures prio { prio_of self.new ≡ prio_of self.old }
    {
        if let Some(to) = &to {
            let _in_range = to.number();
        }
        self.edges[t.index()] = to;
    }

    /// Makes the stored priorities effective again, as they were before `t`'s own priority was raised or its edge
    /// was added. Answers the set of threads whose stored priority changed: bit t - 1 stands for thread t.
    pub fn raise_along(&mut self, t: Tid) -> u64
        requires { WereEffectiveBeforeRaise (own_of self.old) (edge_of self.old) (prio_of self.old) t }
        ensures own { own_of self.new ≡ own_of self.old }
        ensures edge { edge_of self.new ≡ edge_of self.old }
        ensures prio { AreEffective (own_of self.new) (edge_of self.new) (prio_of self.new) }
        ensures answer { IsChanged result (prio_of self.old) (prio_of self.new) }
    {
        let index = t.index();
        let (own, to) = (self.own[index], self.edges[index]);
        let by_own = raise(&self.edges, &mut self.prios, Some(t), own);
        let p = self.prios[index];
        let by_edge = raise(&self.edges, &mut self.prios, to, p);
        by_own | by_edge
    }

    /// Makes the stored priorities effective again, as they were before `t`'s own priority was lowered or its edge
    /// to `old` was removed, circles of edges included. Answers the set of threads whose stored priority changed:
    /// bit t - 1 stands for thread t.
    pub fn lower_along(&mut self, t: Tid, old: Option<Tid>) -> u64
        requires { WereEffectiveBeforeLower (own_of self.old) (edge_of self.old) (prio_of self.old) t old }
        ensures own { own_of self.new ≡ own_of self.old }
        ensures edge { edge_of self.new ≡ edge_of self.old }
        ensures prio { AreEffective (own_of self.new) (edge_of self.new) (prio_of self.new) }
        ensures answer { IsChanged result (prio_of self.old) (prio_of self.new) }
    {
        let before = self.prios;
        give_back(&self.own, &self.edges, &mut self.prios, Some(t));
        give_back(&self.own, &self.edges, &mut self.prios, old);
        settle(&self.edges, &mut self.prios);
        changed(&before, &self.prios)
    }

    /// Makes the stored priorities effective, whatever they were.
    pub fn reset(&mut self)
        ensures own { own_of self.new ≡ own_of self.old }
        ensures edge { edge_of self.new ≡ edge_of self.old }
        ensures prio { AreEffective (own_of self.new) (edge_of self.new) (prio_of self.new) }
    {
        let mut prios = self.own;
        settle(&self.edges, &mut prios);
        self.prios = prios;
    }

    /// A thread's stored priority.
    pub fn effective(&self, t: Tid) -> Prio
        ensures { result ≡ prio_of self.now t }
    {
        self.prios[t.index()]
    }
}
