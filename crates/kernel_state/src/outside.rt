//! What comes from outside, from the journal to the monitor's log.

ghost use Rattle.std.specs.Prelude.{◌≡◌, ◌+◌, ◌-◌, ◌<◌, ◌≤◌, ◌&&◌, ◌^◌, [], true, false, OnOk, OnErr, IfSome, IsNone, find, length, slice_get, slice_set, Some, None};
ghost use Rattle.std.specs.List.{range_with_len};
ghost use Rattle.journal_text.specs.Contents.{empty};
ghost use Rattle.unix_process.specs.Merging.{count_of, merged, one_entry, IsEvent};
ghost use Rattle.posix_model.specs.Journals.{entry_at};
ghost use Rattle.kernel_state.specs.Laws.{StartStands, CountsLeft, TakenFollows, DrainedMayArrive, ReachedAreDue, NothingLeft, NextIsDue};
ghost use Rattle.kernel_state.specs.Presented.{KeepsStanding, TakesDrained, IsSound, IsOfEntry, IsLeftBehind};
ghost use Rattle.kernel_state.specs.Outside.{attached, event_of, event_at, is_of, gathered, gather, present, next_of, drained, drain, is_nothing};

use journal_text::{Entry, Journal, What};
use monitor_log::Log;
use std::alloc::Global;
use std::marker::Model;
use thread_base::{NoMemory, Place};
use unix_process::{Taken, Unix, UnixEvent};

/// The journal of a run, with the places where its entries were presented.
#[derive(Drop)]
pub(crate) struct Recording {
    journal: Journal,
    places: Vec<Place>,
}

/// What came from outside: the journal, and of its entries that were presented those that are not taken. They pend in
/// Unix, or are in the monitor's log.
#[derive(Drop)]
pub struct Outside {
    unix: Unix,
    log: Log,
    recording: Option<Recording>,
    presented: u32,
}

impl Model for Outside {
    ghost use Rattle.kernel_state.specs.Outside.{OutsideState};
    ghost use Rattle.kernel_state.specs.Presented.{IsSound};
    ghost use Rattle.kernel_state.specs.Recorded.{journal_of, places_of};

    ghost Value = { OutsideState };

    ghost view = { λ o. record {
      unix = o.unix;
      log = o.log;
      journal = journal_of o.recording;
      places = places_of o.recording;
      presented = o.presented;
    } };

    ghost invariant = { λ o. IsSound (record {
      unix = o.unix;
      log = o.log;
      journal = journal_of o.recording;
      places = places_of o.recording;
      presented = o.presented;
    }) };
}

impl Outside {
    /// Nothing pends, nothing is logged, and there is no journal. It takes no memory.
    pub fn new() -> Outside
        ensures { result ≡ record {
          unix = record { blocked = false; pending = []; granted = 0; consumed = 0 };
          log = record { flag = false; slots = [] };
          journal = empty;
          places = [];
          presented = 0;
        } }
    {
        Outside {
            unix: Unix::new(),
            log: Log::new(),
            recording: None,
            presented: 0,
        }
    }

    /// Takes the journal of the run, with room for the place of each of its entries.
    pub fn attach(&mut self, alloc: Global, journal: Journal) -> Result<(), NoMemory>
        requires { self.old.presented ≡ 0 }
        ensures made { OnOk result (self.new ≡ attached self.old journal) }
        ensures same { OnErr result (self.new ≡ self.old) }
    {
        let count = journal.len() as usize;
        let places = vec![in alloc; Place { n: 0, k: 0 }; count].map_err(|_| NoMemory)?;
        self.recording = Some(Recording { journal, places });
        Ok(())
    }

    /// The journal, if there is one.
    pub fn journal(&self) -> Option<&Journal>
        ensures some { IfSome result (λ journal. journal.now ≡ self.now.journal) }
        ensures none { IsNone result → self.now.journal ≡ empty }
    {
        self.recording.as_ref().map(|recording| &recording.journal)
    }

    /// How many entries the journal has.
    pub fn len(&self) -> u32
        ensures { result ≡ length self.now.journal.entries }
    {
        match &self.recording {
            Some(recording) => recording.journal.len(),
            None => 0,
        }
    }

    /// The entry of a number; numbers count from 1.
    pub fn entry(&self, number: u32) -> Entry
        requires first { 1 ≤ number }
        requires there { number ≤ length self.now.journal.entries }
        ensures { entry_at self.now.journal.entries number ≡ Some result }
    {
        self.entry_at(number - 1)
    }

    /// The entry at an index; indices count from 0.
    fn entry_at(&self, index: u32) -> Entry
        requires { index < length self.now.journal.entries }
        ensures { slice_get self.now.journal.entries index ≡ Some result }
    {
        match &self.recording {
            Some(recording) => recording.journal.entry(index),
            None => unreachable!(),
        }
    }

    /// The joined bytes of the journal's data.
    pub fn bytes(&self) -> &[u8]
        ensures { result.now ≡ self.now.journal.bytes }
    {
        match &self.recording {
            Some(recording) => recording.journal.bytes(),
            None => &[],
        }
    }

    /// Notes the place where the entry of a number was presented.
    pub fn note_place(&mut self, number: u32, at: Place)
        requires first { 1 ≤ number }
        requires there { number ≤ length self.old.journal.entries }
        ensures { self.new ≡ record self.old { places = slice_set self.old.places (number - 1) at } }
    {
        if let Some(recording) = &mut self.recording {
            recording.places[number as usize - 1] = at;
        }
    }

    /// The place where the entry of a number was presented.
    pub fn place(&self, number: u32) -> Place
        requires first { 1 ≤ number }
        requires there { number ≤ length self.now.journal.entries }
        ensures { slice_get self.now.places (number - 1) ≡ Some result }
    {
        match &self.recording {
            Some(recording) => recording.places[number as usize - 1],
            None => unreachable!(),
        }
    }

    /// How many entries were presented.
    pub fn presented(&self) -> u32
        ensures number { result ≡ self.now.presented }
        ensures sound { IsSound self.now }
        ensures within { self.now.presented ≤ length self.now.journal.entries }
    {
        self.presented
    }

    /// Sets the monitor's flag: the kernel is entered.
    pub fn enter(&mut self)
        ensures { self.new ≡ record self.old { log = record self.old.log { flag = true } } }
    {
        self.log.enter();
    }

    /// Clears the monitor's flag: the kernel is left.
    pub fn leave(&mut self)
        ensures { self.new ≡ record self.old { log = record self.old.log { flag = false } } }
    {
        self.log.clear();
    }

    /// Whether the monitor's flag is set.
    pub fn is_entered(&self) -> bool
        ensures { result ≡ self.now.log.flag }
    {
        self.log.is_set()
    }

    /// Blocks all events: entries that are presented pend in Unix.
    pub fn block(&mut self)
        ensures { self.new ≡ record self.old { unix = record self.old.unix { blocked = true } } }
    {
        self.unix.block_all();
    }

    /// Blocks no event.
    pub fn unblock(&mut self)
        ensures { self.new ≡ record self.old { unix = record self.old.unix { blocked = false } } }
    {
        self.unix.unblock();
    }

    /// Presents the next entry at a place. Where the flag is clear or Unix is blocked it pends in Unix; else it is logged,
    /// behind all that pended.
    pub fn present(&mut self, number: u32, at: Place)
        requires next { number ≡ self.old.presented + 1 }
        requires there { number ≤ length self.old.journal.entries }
        ensures state { self.new ≡ present self.old number at }
        ensures stands { KeepsStanding self.old self.new }
    {
        self.note_place(number, at);
        let event = event_of(self.entry(number).what);
        if !self.log.is_set() || self.unix.is_blocked() {
            self.accept(event, number);
        } else {
            self.gather();
            self.log(event, number);
        }
    }

    /// Lets the next entry pend in Unix.
    fn accept(&mut self, event: UnixEvent, number: u32)
        requires next { number ≡ self.old.presented + 1 }
        requires there { number ≤ length self.old.journal.entries }
        requires event { event ≡ event_at (entry_at self.old.journal.entries number) }
        requires scope { IsEvent event }
        ensures { self.new ≡ record self.old {
          unix = record self.old.unix { pending = merged (one_entry event number) self.old.unix.pending };
          presented = number;
        } }
    {
        self.presented = number;
        self.unix.accept(event, number);
    }

    /// Logs the next entry, where nothing pends.
    fn log(&mut self, event: UnixEvent, number: u32)
        requires next { number ≡ self.old.presented + 1 }
        requires there { number ≤ length self.old.journal.entries }
        requires event { event ≡ event_at (entry_at self.old.journal.entries number) }
        requires scope { IsEvent event }
        requires gathered { self.old.unix.pending ≡ [] }
        ensures { self.new ≡ record self.old {
          log = record self.old.log { slots = merged (one_entry event number) self.old.log.slots };
          presented = number;
        } }
    {
        self.presented = number;
        self.log.add(Taken {
            event,
            first: number,
            count: 1,
        });
    }

    /// Brings all that pends into the log, first occurrence first.
    pub fn gather(&mut self)
        ensures state { self.new ≡ gather self.old }
        ensures stands { KeepsStanding self.old self.new }
    {
        move_all(&mut self.unix, &mut self.log);
    }

    /// The event that was logged first, with its count; None exactly where nothing is logged.
    pub fn first(&self) -> Option<Taken>
        ensures { result ≡ slice_get self.now.log.slots 0 }
    {
        self.log.first()
    }

    /// Takes what was logged first: all entries of a signal, or one entry of ticks or of input. None exactly where nothing
    /// is logged.
    pub fn drain(&mut self) -> Option<Taken>
        ensures first { result ≡ drained self.old.log.slots }
        ensures rest { self.new ≡ drain self.old }
        ensures entry { IfSome result (IsOfEntry self.old) }
        ensures stands { TakesDrained self.old result self.new }
    {
        let slot = self.log.first()?;
        if slot.event.signal().is_some() {
            self.log.drain()
        } else {
            let next = self.next_of(slot.event, slot.first);
            self.log.drain_one(next)
        }
    }

    /// The next presented entry of an event after one, or 0.
    fn next_of(&self, event: UnixEvent, number: u32) -> u32
        ensures { result ≡ next_of self.now event number }
    {
        match self.next_index(event, number, self.presented()) {
            Some(index) => index + 1,
            None => 0,
        }
    }

    /// The first index from one on and below another at which an entry of an event stands.
    fn next_index(&self, event: UnixEvent, from: u32, end: u32) -> Option<u32>
        requires { end ≤ length self.now.journal.entries }
        ensures index { result ≡ find (λ i. is_of event (slice_get self.now.journal.entries i)) (range_with_len from (end - from)) }
        ensures below { IfSome result (λ i. i < end) }
    {
        (from..end).find(|i| self.is_of(event, *i))
    }

    /// Whether the entry at an index is of an event.
    fn is_of(&self, event: UnixEvent, index: u32) -> bool
        requires { index < length self.now.journal.entries }
        ensures { result ≡ is_of event (slice_get self.now.journal.entries index) }
    {
        event_of(self.entry_at(index).what) == event
    }

    /// Whether nothing is logged and nothing pends; then the entries that are left are those that were not presented.
    pub fn is_empty(&self) -> bool
        ensures nothing { result ≡ (is_nothing self.now.log.slots && is_nothing self.now.unix.pending) }
        ensures left { result ≡ true → IsLeftBehind self.now }
    {
        self.log.first().is_none() && self.unix.len() == 0
    }
}

/// The event of an entry.
fn event_of(what: What) -> UnixEvent
    ensures event { result ≡ event_of what }
    ensures scope { IsEvent result }
{
    match what {
        What::Sig(sig) => {
            let _in_scope = sig.number();
            UnixEvent::Sig(sig)
        }
        What::Tick => UnixEvent::Tick,
        What::Data { .. } | What::Eof => UnixEvent::Input,
    }
}

/// Brings all that pends in Unix into a log, first occurrence first.
fn move_all(unix: &mut Unix, log: &mut Log)
    requires fits { (e : UnixEvent) → count_of e log.old.slots + count_of e unix.old.pending < 2 ^ 32 }
    ensures pending { unix.new ≡ record unix.old { pending = [] } }
    ensures log { log.new ≡ record log.old { slots = gathered log.old.slots unix.old.pending } }
{
    while let Some(item) = unix.take() {
        log.add(item);
    }
}

/// What pends and is logged stands for the entries that were presented and are not taken. So what is drained may arrive,
/// and where nothing is left those that are left are the ones behind.
#[tactic(auto, using(crate::proofs::LawLemmas::start_stands, crate::proofs::LawLemmas::counts_left, crate::proofs::LawLemmas::taken_follows, crate::proofs::LawLemmas::drained_may_arrive, crate::proofs::LawLemmas::reached_are_due, crate::proofs::LawLemmas::left_is_next, crate::proofs::LawLemmas::next_is_due))]
pub fn arrivals()
    ensures start { StartStands }
    ensures counts { CountsLeft }
    ensures taken { TakenFollows }
    ensures may_arrive { DrainedMayArrive }
    ensures reached { ReachedAreDue }
    ensures left { NothingLeft }
    ensures next { NextIsDue }
{}
