ghost use Rattle.std.specs.Prelude.{◌≡◌, ◌<◌, [], IfOk};
ghost use Rattle.thread_base.specs.Maps.{put};
ghost use Rattle.ready_queues.specs.Queue.{level_of};

use crate::Ready;
use crate::tids::TidList;
use std::alloc::Global;
use std::marker::Model;
use thread_base::{NoMemory, Prio, Tid};

/// The ready list as one plain list, which `chosen` looks through. Its memory is taken when it is made.
#[derive(Drop)]
pub struct PlainReady {
    list: TidList,
    levels: [u8; 64],
}

impl Model for PlainReady {
    ghost use Rattle.ready_queues.specs.Queue.{Queue};

    ghost Value = { Queue };

    ghost view = { λ r. record { order = r.list; levels = r.levels } };
}

impl PlainReady {
    /// No thread is ready. NoMemory comes only where memory ran out; no later call takes any.
    pub fn new(alloc: Global) -> Result<PlainReady, NoMemory>
        ensures { IfOk result (λ r. r.order ≡ []) }
    {
        Ok(PlainReady {
            list: TidList::new(alloc)?,
            levels: [0; 64],
        })
    }
}

#[tactic(auto, unfolding(crate::specs::Queue::level_of), using(thread_base::proofs::MapLemmas::numbered_set))]
impl Ready for PlainReady {
    ghost order = { λ r. r.order };

    ghost prio = { level_of };

    fn append(&mut self, t: Tid, p: Prio) {
        self.levels[t.index()] = p.number() as u8;
        self.list.push(t);
    }

    fn remove(&mut self, t: Tid) {
        self.list.remove(t);
    }

    fn to_tail(&mut self, t: Tid) {
        self.list.remove(t);
        self.list.push(t);
    }

    fn reprio(&mut self, t: Tid, p: Prio) {
        self.levels[t.index()] = p.number() as u8;
    }

    fn has(&self, t: Tid) -> bool {
        self.list.has(t)
    }

    fn chosen(&self) -> Option<Tid> {
        self.list.best(&self.levels)
    }
}
