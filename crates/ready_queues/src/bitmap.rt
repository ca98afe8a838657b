ghost use Rattle.std.specs.Prelude.{◌≡◌, [], IfOk};

use crate::Ready;
use crate::levels::Levels;
use crate::numbers::Numbers;
use std::alloc::Global;
use std::marker::Model;
use thread_base::{NoMemory, Prio, Tid};

/// The ready list as one list for each priority, with rising numbers that tell the order of all. Nothing is looked
/// through but, by `reprio`, the threads of one priority. Its memory is taken when it is made.
#[derive(Drop)]
pub struct BitmapReady {
    lists: Levels,
    numbers: Numbers,
    levels: [Prio; 64],
}

impl Model for BitmapReady {
    ghost use Rattle.ready_queues.specs.Queue.{Queue};
    ghost use Rattle.ready_queues.specs.Ranks.{shown_order, AreRanked};

    ghost Value = { Queue };

    ghost view = { λ r. record { order = shown_order r.numbers.given r.lists; levels = r.levels } };

    ghost invariant = { λ r. AreRanked r.levels r.numbers.given r.numbers.next r.lists };
}

impl BitmapReady {
    /// No thread is ready. NoMemory comes only where memory ran out; no later call takes any.
    pub fn new(alloc: Global) -> Result<BitmapReady, NoMemory>
        ensures { IfOk result (λ r. r.order ≡ []) }
    {
        BitmapReady::numbered_from(alloc, 0)
    }

    /// No thread is ready, and the first that comes gets this number.
    pub(crate) fn numbered_from(alloc: Global, next: u64) -> Result<BitmapReady, NoMemory>
        ensures { IfOk result (λ r. r.order ≡ []) }
    {
        let Some(least) = Prio::new(0) else {
            unreachable!()
        };
        Ok(BitmapReady {
            lists: Levels::new(alloc)?,
            numbers: Numbers::starting_at(next),
            levels: [least; 64],
        })
    }
}

#[tactic(auto, unfolding(crate::specs::Queue::level_of))]
impl Ready for BitmapReady {
    ghost use Rattle.ready_queues.specs.Queue.{level_of};

    ghost order = { λ r. r.order };

    ghost prio = { level_of };

    fn append(&mut self, t: Tid, p: Prio) {
        self.numbers.give(t, &self.lists);
        self.levels[t.index()] = p;
        self.lists.push(t, p);
    }

    fn remove(&mut self, t: Tid) {
        let p = self.levels[t.index()];
        self.lists.remove(t, p);
    }

    fn to_tail(&mut self, t: Tid) {
        let p = self.levels[t.index()];
        self.remove(t);
        self.append(t, p);
    }

    fn reprio(&mut self, t: Tid, p: Prio) {
        let old = self.levels[t.index()];
        self.lists.remove(t, old);
        self.levels[t.index()] = p;
        match self.numbers.later(t, p, &self.lists) {
            Some(at) => self.lists.insert(t, at),
            None => self.lists.push(t, p),
        }
    }

    fn has(&self, t: Tid) -> bool {
        self.lists.has(t.number())
    }

    fn chosen(&self) -> Option<Tid> {
        Tid::new(self.lists.top()?)
    }
}
