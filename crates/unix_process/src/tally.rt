ghost use Rattle.std.specs.Prelude.{◌≡◌, ◌<◌, ◌≤◌, ◌+◌, ◌^◌, [], length, slice_get, drop, position};
ghost use Rattle.unix_process.specs.Merging.{same_event, merged, recounted, count_of, IsTally, IsCounted, NothingLost};

use crate::{Taken, UnixEvent};
use arrayvec::ArrayVec;
use std::marker::Model;

/// As many events as there are numbers for them: 31 for signals, one for ticks and one for input.
const SLOTS: usize = 33;

/// Events in order of first occurrence, each once with its count; more of one is merged into it.
#[derive(Drop)]
pub struct Tally {
    slots: ArrayVec<Taken, SLOTS>,
}

impl Model for Tally {
    ghost use Rattle.std.specs.Prelude.{List};
    ghost use Rattle.unix_process.specs.declared.Taken.{Taken};
    ghost use Rattle.unix_process.specs.Merging.{IsTally};

    ghost Value = { List Taken };

    ghost view = { λ a. a.slots.items };

    ghost invariant = { λ a. IsTally a.slots.items };
}

impl Tally {
    /// No event. It takes no memory, now or later.
    pub fn new() -> Tally
        ensures { result ≡ [] }
    {
        Tally {
            slots: ArrayVec::new(),
        }
    }

    /// How many different events it counts.
    pub fn len(&self) -> usize
        ensures number { result ≡ length self.now }
        ensures once { IsTally self.now }
        ensures fits { result ≤ SLOTS }
    {
        self.slots.len()
    }

    /// Adds an item's count to that of its event, or puts the item after the others.
    pub fn merge(&mut self, item: Taken)
        requires { count_of item.event self.old + item.count < 2 ^ 32 }
        ensures list { self.new ≡ merged item self.old }
        ensures once { IsTally self.new }
        ensures counted { 1 ≤ item.count → IsCounted self.old → IsCounted self.new }
    {
        let _in_scope = item.event.signal();
        match self.position(item.event) {
            Some(i) => {
                let slot = &mut self.slots[i];
                slot.count += item.count;
            }
            None => self.slots.push(item),
        }
    }

    fn position(&self, event: UnixEvent) -> Option<usize>
        ensures { result ≡ position (λ t. same_event t.event event) self.now }
    {
        self.slots.iter().position(|slot| slot.event == event)
    }

    /// The first event with its count; None exactly where there is none.
    pub fn first(&self) -> Option<Taken>
        ensures { result ≡ slice_get self.now 0 }
    {
        self.slots.first().copied()
    }

    /// Removes the first event and gives it with its count; None exactly where there is none.
    pub fn take(&mut self) -> Option<Taken>
        ensures taken { result ≡ slice_get self.old 0 }
        ensures rest { self.new ≡ drop 1 self.old }
        ensures counts { NothingLost self.old result self.new }
    {
        self.slots.pop_at(0)
    }

    /// Gives the first event, where there is one, another first entry and another count.
    pub fn recount(&mut self, first: u32, count: u32)
        ensures { self.new ≡ recounted first count self.old }
    {
        if !self.slots.is_empty() {
            self.slots[0].first = first;
            self.slots[0].count = count;
        }
    }
}
