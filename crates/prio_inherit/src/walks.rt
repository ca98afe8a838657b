ghost use Rattle.std.specs.Prelude.{◌≡◌, ℕ, Some, None, length};
ghost use Rattle.thread_base.specs.Maps.{numbered};
ghost use Rattle.thread_base.specs.Priority.{AreWithin};
ghost use Rattle.prio_inherit.specs.Priorities.{AreEffective, IsChanged, Raised, GivenBack};

use thread_base::{Prio, Tid};

/// Raises the thread that is given, and then those that edges reach from it, as long as one has less than a
/// priority; answers the set of threads that were raised.
pub fn raise(edges: &[Option<Tid>; 64], prios: &mut [Prio; 64], from: Option<Tid>, p: Prio) -> u64
    ensures raised { Raised (numbered None edges.now) (numbered 0 prios.old) (numbered 0 prios.new) from p }
    ensures answer { IsChanged result (numbered 0 prios.old) (numbered 0 prios.new) }
    ensures sized { length prios.new ≡ 64 }
{
    let mut raised = 0;
    let mut next = from;
    while let Some(t) = next {
        let index = t.index();
        if p.number() <= prios[index].number() {
            return raised;
        }
        prios[index] = p;
        raised |= 1 << index;
        next = edges[index];
    }
    raised
}

/// Raises priorities along all edges, so that each becomes the greatest of those from which edges lead to it.
pub fn settle(edges: &[Option<Tid>; 64], prios: &mut [Prio; 64])
    requires { AreWithin (numbered None edges.now) }
    ensures effective { AreEffective (numbered 0 prios.old) (numbered None edges.now) (numbered 0 prios.new) }
    ensures sized { length prios.new ≡ 64 }
{
    for index in 0..64 {
        let p = prios[index];
        raise(edges, prios, edges[index], p);
    }
}

/// Gives the thread that is given, and all that edges reach from it, their own priority again.
pub fn give_back(
    own: &[Prio; 64],
    edges: &[Option<Tid>; 64],
    prios: &mut [Prio; 64],
    from: Option<Tid>,
)
    requires { AreWithin (numbered None edges.now) }
    ensures given { GivenBack (numbered 0 own.now) (numbered None edges.now) (numbered 0 prios.old) (numbered 0 prios.new) from }
    ensures sized { length prios.new ≡ 64 }
{
    let mut at = from;
    for _step in 0..64u32 {
        let Some(t) = at else {
            return;
        };
        let index = t.index();
        prios[index] = own[index];
        at = edges[index];
    }
}

/// The set of the threads whose priority is another than before.
pub fn changed(before: &[Prio; 64], now: &[Prio; 64]) -> u64
    ensures { IsChanged result (numbered 0 before.now) (numbered 0 now.now) }
{
    let mut set = 0;
    for index in 0..64 {
        if before[index] != now[index] {
            set |= 1 << index;
        }
    }
    set
}
