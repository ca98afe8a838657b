ghost use Rattle.std.specs.Prelude.{◌≡◌, ℕ, None};
ghost use Rattle.thread_base.specs.Maps.{numbered};
ghost use Rattle.prio_inherit.specs.Stored.{own_of, edge_of, prio_of};
ghost use Rattle.prio_inherit.specs.Priorities.{AreEffective};

use crate::Inherit;
use std::test::Fail;
use thread_base::{Prio, Tid};

/// A table whose stored priorities are effective, and what was put into it.
#[derive(Drop)]
struct Waits {
    table: Inherit,
    own: [Prio; 64],
    edges: [Option<Tid>; 64],
    ghost own_is: { (t : ℕ) → own_of table t ≡ numbered 0 own t },
    ghost edge_is: { (t : ℕ) → edge_of table t ≡ numbered None edges t },
    ghost effective: { AreEffective (own_of table) (edge_of table) (prio_of table) },
}

impl Waits {
    fn new() -> Waits {
        let none = Prio::new(0).unwrap();
        Waits {
            table: Inherit::new(),
            own: [none; 64],
            edges: [None; 64],
        }
    }

    /// Changes a thread's own priority and mends the stored ones; answers which changed.
    fn own(&mut self, t: Tid, p: Prio) -> u64 {
        let index = t.index();
        let was = self.own[index];
        self.own[index] = p;
        self.table.set_own(t, p);
        if was.number() <= p.number() {
            self.table.raise_along(t)
        } else {
            self.table.lower_along(t, None)
        }
    }

    /// Changes a thread's edge and mends the stored priorities; answers which changed.
    fn lead(&mut self, t: Tid, to: Option<Tid>) -> u64 {
        let index = t.index();
        let edges = &mut self.edges;
        let old = edges[index];
        edges[index] = to;
        let to = edges[index];
        self.table.set_edge(t, to);
        match old {
            None => self.table.raise_along(t),
            Some(old) => self.table.lower_along(t, Some(old)),
        }
    }

    /// The stored priorities of all threads.
    fn stored(&self) -> [u32; 64] {
        let mut all = [0; 64];
        for index in 0..64 {
            all[index] = self.table.effective(Tid::at(index)).number();
        }
        all
    }

    /// Those of the threads 1 to 4.
    fn first_four(&self) -> [u32; 4] {
        let [one, two, three, four, ..] = self.stored();
        [one, two, three, four]
    }
}

/// A number that follows another, by the linear congruential generator of Knuth's MMIX.
fn following(seed: u64) -> u64 {
    seed.wrapping_mul(6_364_136_223_846_793_005)
        .wrapping_add(1_442_695_040_888_963_407)
}

/// Gives each of some threads an own priority and then each an edge, of pairs of numbers.
fn fill(waits: &mut Waits, own: &[(u32, u32)], edges: &[(u32, u32)]) -> Result<(), Fail> {
    for (t, p) in own {
        waits.own(
            Tid::new(*t).ok_or("no thread")?,
            Prio::new(*p).ok_or("no priority")?,
        );
    }
    for (t, to) in edges {
        waits.lead(Tid::new(*t).ok_or("no thread")?, Tid::new(*to));
    }
    Ok(())
}

#[test]
fn a_circle_and_a_waiter(rt: HostRuntime) -> Result<(), Fail> {
    let mut waits = Waits::new();
    fill(
        &mut waits,
        &[(2, 8), (3, 10), (4, 20)],
        &[(2, 3), (3, 2), (4, 2)],
    )?;
    assert_eq!(rt; waits.first_four(), [0, 20, 20, 20]);
    let changed = waits.lead(Tid::at(3), None);
    assert_eq!(rt; changed, 0b0110);
    assert_eq!(rt; waits.first_four(), [0, 10, 10, 20]);
    Ok(())
}

#[test]
fn a_circle_of_two(rt: HostRuntime) -> Result<(), Fail> {
    let mut waits = Waits::new();
    fill(&mut waits, &[(1, 8), (2, 9)], &[(1, 2), (2, 1)])?;
    assert_eq!(rt; waits.first_four(), [9, 9, 0, 0]);
    let changed = waits.own(Tid::at(1), Prio::new(3).ok_or("no priority")?);
    assert_eq!(rt; changed, 3);
    assert_eq!(rt; waits.first_four(), [8, 8, 0, 0]);
    Ok(())
}

#[test]
fn a_chain_of_all(rt: HostRuntime) -> Result<(), Fail> {
    let mut waits = Waits::new();
    for index in 0..63 {
        waits.lead(Tid::at(index), Tid::new(index as u32 + 2));
    }
    let first = Tid::at(0);
    assert_eq!(rt;
        waits.own(first, Prio::new(31).ok_or("no priority")?),
        u64::MAX
    );
    assert_eq!(rt; waits.stored(), [31; 64]);
    assert_eq!(rt; waits.lead(first, None), u64::MAX - 1);
    assert_eq!(rt; waits.table.effective(Tid::at(63)).number(), 0);
    Ok(())
}

#[test]
fn many_changes(rt: HostRuntime) -> Result<(), Fail> {
    let mut waits = Waits::new();
    let mut seed = 1;
    for step in 0..4000u32 {
        seed = following(seed);
        let t = Tid::at((seed >> 58) as usize);
        let before = waits.stored();
        let changed = if seed & (1 << 40) == 0 {
            waits.own(t, Prio::new((seed >> 32) as u32 & 31).ok_or("no priority")?)
        } else {
            waits.lead(t, Tid::new((seed >> 32) as u32 & 127))
        };
        let mended = waits.stored();
        waits.table.reset();
        assert_eq!(rt; mended, waits.stored(), "at step {step}");
        for index in 0..64 {
            let is_changed = (changed >> index) & 1 == 1;
            assert_eq!(rt;
                is_changed,
                before[index] != mended[index],
                "thread at {index}, step {step}"
            );
        }
    }
    Ok(())
}
