ghost use Rattle.std.specs.Prelude.{◌≡◌, ◌<◌, ◌≤◌, ◌+◌, ◌-◌, ◌^◌, [], true, false, length, slice_get, drop};
ghost use Rattle.unix_process.specs.Merging.{one_entry, merged, count_of, NothingLost};
ghost use Rattle.unix_process.specs.Unix.{IsSound};

use crate::{INPUT_LIMIT, Taken, Tally, UnixEvent};
use std::marker::Model;

/// The Unix process as the thread kernel sees it: whether its events are blocked, which of them pend,
/// and how many bytes of input it was granted and has consumed.
#[derive(Drop)]
pub struct Unix {
    blocked: bool,
    pending: Tally,
    granted: u32,
    consumed: u32,
}

impl Model for Unix {
    ghost use Rattle.unix_process.specs.Unix.{UnixState, IsSound};

    ghost Value = { UnixState };

    ghost view = { λ u. record {
      blocked = u.blocked;
      pending = u.pending;
      granted = u.granted;
      consumed = u.consumed;
    } };

    ghost invariant = { λ u. IsSound (record {
      blocked = u.blocked;
      pending = u.pending;
      granted = u.granted;
      consumed = u.consumed;
    }) };
}

impl Unix {
    /// Nothing pends, nothing is blocked and no input was granted. It takes no memory, now or later.
    pub fn new() -> Unix
        ensures { result ≡ record { blocked = false; pending = []; granted = 0; consumed = 0 } }
    {
        Unix {
            blocked: false,
            pending: Tally::new(),
            granted: 0,
            consumed: 0,
        }
    }

    /// Lets one more entry of an event pend, of which `first` is the number: 1 is added to the event's
    /// count, or the event stands after the others.
    pub fn accept(&mut self, event: UnixEvent, first: u32)
        requires { count_of event self.old.pending < 2 ^ 32 - 1 }
        ensures { self.new ≡ record self.old {
          pending = merged (one_entry event first) self.old.pending;
        } }
    {
        self.pending.merge(Taken {
            event,
            first,
            count: 1,
        });
    }

    /// Removes the event that has pended longest and gives it with its whole count, blocked or not;
    /// None exactly where nothing pends.
    pub fn take(&mut self) -> Option<Taken>
        ensures first { result ≡ slice_get self.old.pending 0 }
        ensures rest { self.new ≡ record self.old { pending = drop 1 self.old.pending } }
        ensures counts { NothingLost self.old.pending result self.new.pending }
    {
        self.pending.take()
    }

    /// Blocks all events.
    pub fn block_all(&mut self)
        ensures { self.new ≡ record self.old { blocked = true } }
    {
        self.blocked = true;
    }

    /// Blocks no event.
    pub fn unblock(&mut self)
        ensures { self.new ≡ record self.old { blocked = false } }
    {
        self.blocked = false;
    }

    /// Whether all events are blocked.
    pub fn is_blocked(&self) -> bool
        ensures { result ≡ self.now.blocked }
    {
        self.blocked
    }

    /// How many different events pend.
    pub fn len(&self) -> u32
        ensures number { result ≡ length self.now.pending }
        ensures sound { IsSound self.now }
    {
        self.pending.len() as u32
    }

    /// Grants further bytes of input.
    pub fn grant(&mut self, bytes: u32)
        requires { self.old.granted + bytes ≤ INPUT_LIMIT }
        ensures { self.new ≡ record self.old { granted = self.old.granted + bytes } }
    {
        self.granted += bytes;
    }

    /// How many of the bytes granted are not consumed yet.
    pub fn input_left(&self) -> u32
        ensures { result + self.now.consumed ≡ self.now.granted }
    {
        self.granted - self.consumed
    }

    /// Consumes bytes of input, at most as many as are left.
    pub fn consume(&mut self, bytes: u32)
        requires { self.old.consumed + bytes ≤ self.old.granted }
        ensures { self.new ≡ record self.old { consumed = self.old.consumed + bytes } }
    {
        self.consumed += bytes;
    }
}
