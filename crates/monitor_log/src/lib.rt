//! The kernel flag of the monitor, and the log of the events that came while it was set.
#![tactic(auto)]

ghost use Rattle.std.specs.Prelude.{◌≡◌, ◌<◌, ◌≤◌, ◌+◌, ◌^◌, [], true, false, slice_get, drop};
ghost use Rattle.unix_process.specs.Merging.{merged, count_of, IsTally, IsCounted, NothingLost};
ghost use Rattle.monitor_log.specs.Log.{one_of_first, left_after_one};

#[cfg(test)]
mod tests;

use std::marker::Model;
use unix_process::{Taken, Tally};

/// The monitor's flag, and the events that wait for its exit: in order of first occurrence, each once
/// with its count.
#[derive(Drop)]
pub struct Log {
    flag: bool,
    slots: Tally,
}

impl Model for Log {
    ghost use Rattle.unix_process.specs.Merging.{IsTally};
    ghost use Rattle.monitor_log.specs.Log.{LogState};

    ghost Value = { LogState };

    ghost view = { λ l. record { flag = l.flag; slots = l.slots } };

    ghost invariant = { λ l. IsTally l.slots };
}

impl Log {
    /// The flag is clear and nothing is logged. It takes no memory, now or later.
    pub fn new() -> Log
        ensures { result ≡ record { flag = false; slots = [] } }
    {
        Log {
            flag: false,
            slots: Tally::new(),
        }
    }

    /// Sets the flag: the kernel is entered.
    pub fn enter(&mut self)
        ensures { self.new ≡ record self.old { flag = true } }
    {
        self.flag = true;
    }

    /// Clears the flag: the kernel is left.
    pub fn clear(&mut self)
        ensures { self.new ≡ record self.old { flag = false } }
    {
        self.flag = false;
    }

    /// Whether the flag is set.
    pub fn is_set(&self) -> bool
        ensures { result ≡ self.now.flag }
    {
        self.flag
    }

    /// Logs an item: its count is added to that of its event, or it stands after the others.
    pub fn add(&mut self, item: Taken)
        requires { count_of item.event self.old.slots + item.count < 2 ^ 32 }
        ensures slots { self.new ≡ record self.old { slots = merged item self.old.slots } }
        ensures counted { 1 ≤ item.count → IsCounted self.old.slots → IsCounted self.new.slots }
    {
        self.slots.merge(item);
    }

    /// The event that was logged first, with its count; None exactly where nothing is logged.
    pub fn first(&self) -> Option<Taken>
        ensures first { result ≡ slice_get self.now.slots 0 }
        ensures once { IsTally self.now.slots }
    {
        self.slots.first()
    }

    /// Removes the event that was logged first and gives it with its whole count; None exactly where
    /// nothing is logged.
    pub fn drain(&mut self) -> Option<Taken>
        ensures first { result ≡ slice_get self.old.slots 0 }
        ensures rest { self.new ≡ record self.old { slots = drop 1 self.old.slots } }
        ensures counts { NothingLost self.old.slots result self.new.slots }
        ensures counted { IsCounted self.old.slots → IsCounted self.new.slots }
    {
        self.slots.take()
    }

    /// Takes one entry of the event that was logged first, of which `next` is the next entry, and gives
    /// it with count 1; None exactly where nothing is logged. A slot without a further entry goes.
    pub fn drain_one(&mut self, next: u32) -> Option<Taken>
        ensures first { result ≡ one_of_first self.old.slots }
        ensures rest { self.new ≡ record self.old { slots = left_after_one next self.old.slots } }
        ensures counts { IsCounted self.old.slots → NothingLost self.old.slots result self.new.slots }
        ensures counted { IsCounted self.old.slots → IsCounted self.new.slots }
    {
        let slot = self.slots.first()?;
        if slot.count > 1 {
            self.slots.recount(next, slot.count - 1);
        } else {
            let _gone = self.slots.take();
        }
        Some(Taken { count: 1, ..slot })
    }
}
