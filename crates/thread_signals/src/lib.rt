//! What threads and the process have to do with signals: masks, what is waited for, what pends, actions, and which
//! signal is delivered next.
#![tactic(auto)]

ghost use Rattle.std.specs.Prelude.{◌≡◌, ◌+◌, ◌-◌, ◌<◌, ◌≤◌, ◌^◌, ◌&&◌, ◌↔◌, ◌==◌, ℕ, true, false, find, map, nat_lt, slice_index_or, IfSome, IsNone, None};
ghost use Rattle.std.specs.List.{range_with_len};
ghost use Rattle.thread_base.specs.Maps.{put, numbered};
ghost use Rattle.thread_base.specs.Numbers.{IsTid, has_signal, can_block};
ghost use Rattle.thread_base.specs.Priority.{tids, first_greatest};
ghost use Rattle.thread_signals.specs.Counts.{place_of, is_pending, put_count, without_signal, all_of, total};
ghost use Rattle.thread_base.specs.Deliveries.{signals, waits_for, takes, waiters, own_signal, own_delivery, pending_recipient, process_delivery, is_greater, IsDue, IsSettled};
ghost use Rattle.thread_signals.specs.SignalState.{state_of, first_state, with_count, with_action, dropped_by, free_in, recipient_in, next_in};

#[cfg(test)]
mod tests;
mod words;

use std::marker::Model;
pub use thread_base::Action;
use thread_base::{Sig, SigSet, Tid};
use words::{lowest, with_signal};

/// For each thread its mask, the set that it waits for and whether it may take signals; for the process and for each
/// thread how often each signal pends; and each signal's action (POSIX.1 signals in threads). It takes no memory.
#[derive(Drop)]
pub struct Signals {
    masks: [SigSet; 64],
    waits: [Option<SigSet>; 64],
    is_open: [bool; 64],
    // By place, where 0 is the process and t is thread t, and by signal.
    counts: [[u64; 32]; 65],
    // By place, the signals that pend there: those whose count is not 0.
    pending: [u32; 65],
    actions: [Action; 32],
    // How often all signals pend in all places.
    pended: u64,
}

impl Model for Signals {
    ghost use Rattle.thread_signals.specs.SignalState.{Table, AreSound};

    ghost Value = { Table };

    ghost view = { λ s. record {
      masks = s.masks;
      waits = s.waits;
      is_open = s.is_open;
      counts = s.counts;
      actions = s.actions;
    } };

    ghost invariant = { λ s. AreSound (record {
      masks = s.masks;
      waits = s.waits;
      is_open = s.is_open;
      counts = s.counts;
      actions = s.actions;
    }) s.pending s.pended };
}

#[tactic(auto, unfolding(crate::specs::SignalState::state_of), using(thread_base::proofs::MapLemmas::numbered_set, thread_base::proofs::MapLemmas::numbered_read, thread_base::proofs::MapLemmas::numbered_get))]
impl Signals {
    /// Masks and counts are empty, no thread waits or may take signals, and every action is the default.
    pub fn new() -> Signals
        ensures state { state_of result ≡ first_state }
        ensures sum { total (state_of result).counts ≡ 0 }
    {
        Signals {
            masks: [SigSet::of(0); 64],
            waits: [None; 64],
            is_open: [false; 64],
            counts: [[0; 32]; 65],
            pending: [0; 65],
            actions: [Action::Default; 32],
            pended: 0,
        }
    }

    /// How often all signals pend in all places.
    pub fn sum(&self) -> u64
        ensures { result ≡ total (state_of self.now).counts }
    {
        self.pended
    }

    /// Whether nothing pends anywhere; then nothing is delivered.
    pub fn is_calm(&self) -> bool
        ensures calm { result ≡ (total (state_of self.now).counts == 0) }
        ensures settled { result ≡ true → (eff : ℕ → ℕ) → next_in (state_of self.now) eff ≡ None }
    {
        // Only signals in scope pend.
        let _sound = &self.counts;
        self.sum() == 0
    }

    /// The signals that a thread blocks.
    pub fn mask(&self, t: Tid) -> SigSet
        ensures { result ≡ (state_of self.now).masks t }
    {
        self.masks[t.index()]
    }

    /// Sets the signals that a thread blocks.
    pub fn set_mask(&mut self, t: Tid, s: SigSet)
        ensures { state_of self.new ≡ record (state_of self.old) { masks = put (state_of self.old).masks t s } }
    {
        self.masks[t.index()] = s;
    }

    /// Sets the signals that a thread waits for, or that it waits for none (POSIX.1 sigwait).
    pub fn set_wait(&mut self, t: Tid, s: Option<SigSet>)
        ensures { state_of self.new ≡ record (state_of self.old) { waits = put (state_of self.old).waits t s } }
    {
        self.waits[t.index()] = s;
    }

    /// Sets whether a thread may take signals at all, but for those that it blocks: it has not ended, there is room for
    /// a handler's frame, and it does not wait to have a mutex back.
    pub fn set_open(&mut self, t: Tid, may: bool)
        ensures { state_of self.new ≡ record (state_of self.old) { is_open = put (state_of self.old).is_open t may } }
    {
        self.is_open[t.index()] = may;
    }

    /// What a signal does to the process.
    #[tactic(auto, unfolding(crate::specs::SignalState::state_of, crate::specs::SignalState::actions_of), using(std::proofs::lemmas::List::get_or_default))]
    pub fn action(&self, s: Sig) -> Action
        ensures { result ≡ (state_of self.now).actions s }
    {
        self.actions[s.number() as usize]
    }

    /// Gives a signal another action. Where that ignores the signal, all that pends of it is dropped, and the answer
    /// is how many; else it is 0.
    pub fn set_action(&mut self, s: Sig, a: Action) -> u64
        ensures state { state_of self.new ≡ with_action (state_of self.old) s a }
        ensures dropped { result ≡ dropped_by (state_of self.old) s a }
        ensures sum { total (state_of self.new).counts + result ≡ total (state_of self.old).counts }
    {
        let is_ignored = a.ignores(s);
        self.put_action(s, a);
        if is_ignored { self.drop_all(s) } else { 0 }
    }

    /// Adds to how often a signal pends on a thread, or on the process.
    pub fn pend(&mut self, t: Option<Tid>, s: Sig, count: u64)
        requires { total (state_of self.old).counts + count < 2 ^ 63 }
        ensures state { let state = state_of self.old in
            state_of self.new ≡ with_count state (place_of t) s (state.counts (place_of t) s + count) }
        ensures sum { total (state_of self.new).counts ≡ total (state_of self.old).counts + count }
    {
        let place = place_of(t);
        let had = self.count_at(place, s);
        self.put_count(place, s, had + count);
    }

    /// The signals that pend on a thread or on the process, but for KILL, which no set has.
    pub fn pending(&self, t: Tid) -> SigSet
        ensures { (sig : ℕ) → has_signal result sig ≡ (is_pending (state_of self.now).counts t sig && can_block sig) }
    {
        SigSet::of(self.pending[t.number() as usize] | self.pending[0])
    }

    /// The lowest signal of a set that pends on a thread or on the process.
    pub fn lowest_pending(&self, t: Tid, set: SigSet) -> Option<Sig>
        ensures { result ≡ find (λ sig. is_pending (state_of self.now).counts t sig && has_signal set sig) signals }
    {
        lowest((self.pending[t.number() as usize] | self.pending[0]) & set.word())
    }

    /// How often a signal pends on a thread, or on the process.
    pub fn count(&self, t: Option<Tid>, s: Sig) -> u64
        ensures { result ≡ (state_of self.now).counts (place_of t) s }
    {
        self.count_at(place_of(t), s)
    }

    /// The least signal from a number on that pends on a thread, or on the process.
    pub fn next_pending(&self, t: Option<Tid>, from: u32) -> Option<Sig>
        requires { from ≤ 32 }
        ensures least { let counts = (state_of self.now).counts (place_of t) in
            result ≡ find (λ sig. nat_lt 0 (counts sig)) (range_with_len from (32 - from)) }
        ensures none { IsNone result → (sig : ℕ) → from ≤ sig → (state_of self.now).counts (place_of t) sig ≡ 0 }
    {
        // Only signals in scope pend.
        let _sound = &self.counts;
        let n = self.pending_from(place_of(t), from)?;
        Some(Sig::of(n))
    }

    /// By the number of a signal, how often it pends in all places.
    pub fn left(&self) -> [u64; 32]
        ensures list { result ≡ map (all_of (state_of self.now).counts) (range_with_len 0 32) }
        ensures each { (sig : ℕ) → slice_index_or result sig 0 ≡ all_of (state_of self.now).counts sig }
    {
        // Only signals in scope pend.
        let _sound = &self.counts;
        let mut left = [0; 32];
        for n in 0..32 {
            left[n] = self.left_of(n);
        }
        left
    }

    /// Takes a signal away, as often as it pends on a thread, or on the process, and answers how often that is.
    pub fn take(&mut self, t: Option<Tid>, s: Sig) -> u64
        ensures count { result ≡ (state_of self.old).counts (place_of t) s }
        ensures state { state_of self.new ≡ with_count (state_of self.old) (place_of t) s 0 }
        ensures sum { total (state_of self.new).counts + result ≡ total (state_of self.old).counts }
    {
        self.take_at(place_of(t), s)
    }

    /// Who gets a signal of the process: of the threads that wait for it the lowest of the greatest priority, where
    /// `eff[t - 1]` is that of thread t; else the lowest that is free for it; None exactly where there is neither.
    pub fn recipient(&self, s: Sig, eff: &[u8; 64]) -> Option<Tid>
        ensures first { result ≡ recipient_in (state_of self.now) (numbered 0 eff.now) s }
        ensures taker { let state = state_of self.now in IfSome result (λ t. takes state.waits (free_in state) t s ≡ true) }
        ensures none { let state = state_of self.now in
            IsNone result ↔ ((t : ℕ) → IsTid t → takes state.waits (free_in state) t s ≡ false) }
    {
        self.best_waiter(s, eff).or_else(|| self.lowest_free(s))
    }

    /// The next delivery: the lowest thread with a signal of its own that it waits for or is free for, with the lowest
    /// such signal and false; else the recipient of the lowest signal of the process that has one, with that signal and
    /// true. None exactly where there is neither.
    pub fn next_delivery(&self, eff: &[u8; 64]) -> Option<(Tid, Sig, bool)>
        ensures next { result ≡ next_in (state_of self.now) (numbered 0 eff.now) }
        ensures due { let state = state_of self.now in IfSome result (IsDue state.waits (free_in state) state.counts) }
        ensures none { let state = state_of self.now in
            IsNone result ↔ IsSettled state.waits (free_in state) state.counts }
    {
        // Only signals in scope pend.
        let _sound = &self.counts;
        self.own_delivery().or_else(|| self.process_delivery(eff))
    }

    /// The lowest thread with a signal of its own that it takes, and the lowest such signal.
    fn own_delivery(&self) -> Option<(Tid, Sig, bool)>
        ensures { let state = state_of self.now in result ≡ own_delivery state.waits (free_in state) state.counts }
    {
        for index in 0..64 {
            let t = Tid::at(index);
            if let Some(s) = self.own_signal(t) {
                return Some((t, s, false));
            }
        }
        None
    }

    /// The lowest signal of the process that has a recipient, with that.
    fn process_delivery(&self, eff: &[u8; 64]) -> Option<(Tid, Sig, bool)>
        ensures { let state = state_of self.now in
            result ≡ process_delivery state.waits (free_in state) state.counts (numbered 0 eff.now) }
    {
        // Only signals in scope pend.
        let _sound = &self.counts;
        for n in 1..32 {
            let Some(s) = Sig::new(n) else {
                continue;
            };
            if let Some(t) = self.pending_recipient(s, eff) {
                return Some((t, s, true));
            }
        }
        None
    }

    /// Who gets a signal of the process, if it pends there.
    fn pending_recipient(&self, s: Sig, eff: &[u8; 64]) -> Option<Tid>
        ensures { let state = state_of self.now in
            result ≡ pending_recipient state.waits (free_in state) state.counts (numbered 0 eff.now) s }
    {
        if self.count_at(0, s) > 0 {
            self.recipient(s, eff)
        } else {
            None
        }
    }

    /// The lowest signal that pends on a thread and that it takes.
    fn own_signal(&self, t: Tid) -> Option<Sig>
        ensures { let state = state_of self.now in result ≡ own_signal state.waits (free_in state) state.counts t }
    {
        lowest(self.pending[t.number() as usize] & self.taken_by(t))
    }

    /// The signals that a thread takes: those that it waits for, and those that it is free for.
    fn taken_by(&self, t: Tid) -> u32
        ensures { let state = state_of self.now in
            (sig : ℕ) → sig < 32 → has_signal result sig ≡ takes state.waits (free_in state) t sig }
    {
        self.awaited_by(t) | self.unblocked_by(t)
    }

    /// The signals that a thread waits for.
    fn awaited_by(&self, t: Tid) -> u32
        ensures { (sig : ℕ) → has_signal result sig ≡ waits_for ((state_of self.now).waits t) sig }
    {
        match self.waits[t.index()] {
            Some(set) => set.word(),
            None => 0,
        }
    }

    /// The signals that a thread is free for.
    fn unblocked_by(&self, t: Tid) -> u32
        ensures { (sig : ℕ) → sig < 32 → has_signal result sig ≡ free_in (state_of self.now) t sig }
    {
        if self.may_take(t) {
            !self.mask(t).word()
        } else {
            0
        }
    }

    /// Of the threads that wait for a signal, the lowest of the greatest priority.
    fn best_waiter(&self, s: Sig, eff: &[u8; 64]) -> Option<Tid>
        ensures { result ≡ first_greatest (numbered 0 eff.now) (waiters (state_of self.now).waits s) }
    {
        let mut best = None;
        for index in 0..64 {
            let t = Tid::at(index);
            if self.is_waiting(t, s) && is_above(eff, &best, t) {
                best = Some(t);
            }
        }
        best
    }

    /// The lowest thread that is free for a signal.
    fn lowest_free(&self, s: Sig) -> Option<Tid>
        ensures { result ≡ find (λ t. free_in (state_of self.now) t s) tids }
    {
        for index in 0..64 {
            let t = Tid::at(index);
            if self.is_free(t, s) {
                return Some(t);
            }
        }
        None
    }

    /// Whether a thread waits for a signal.
    fn is_waiting(&self, t: Tid, s: Sig) -> bool
        ensures { result ≡ waits_for ((state_of self.now).waits t) s }
    {
        self.waits[t.index()].is_some_and(|set| set.has(s))
    }

    /// Whether a thread is free for a signal.
    fn is_free(&self, t: Tid, s: Sig) -> bool
        ensures { result ≡ free_in (state_of self.now) t s }
    {
        self.may_take(t) && !self.mask(t).has(s)
    }

    /// Whether a thread may take signals.
    fn may_take(&self, t: Tid) -> bool
        ensures { result ≡ (state_of self.now).is_open t }
    {
        self.is_open[t.index()]
    }

    /// Gives a signal another action; what pends stays.
    #[tactic(auto, unfolding(crate::specs::SignalState::state_of), using(crate::proofs::TableLemmas::actions_set))]
    fn put_action(&mut self, s: Sig, a: Action)
        ensures { state_of self.new ≡ record (state_of self.old) { actions = put (state_of self.old).actions s a } }
    {
        self.actions[s.number() as usize] = a;
    }

    /// Takes a signal away from everywhere, and answers how often it pended.
    fn drop_all(&mut self, s: Sig) -> u64
        ensures state { state_of self.new
            ≡ record (state_of self.old) { counts = without_signal (state_of self.old).counts s } }
        ensures count { result ≡ all_of (state_of self.old).counts s }
        ensures sum { total (state_of self.new).counts + result ≡ total (state_of self.old).counts }
    {
        // The sum of all counts fits, and there is no place beyond the table.
        let _sound = &self.counts;
        let mut dropped = 0;
        for place in 0..65 {
            dropped += self.take_at(place, s);
        }
        dropped
    }

    /// Takes a signal away from one place, and answers how often it pended there.
    fn take_at(&mut self, place: usize, s: Sig) -> u64
        requires { place < 65 }
        ensures count { result ≡ (state_of self.old).counts place s }
        ensures state { state_of self.new ≡ with_count (state_of self.old) place s 0 }
        ensures sum { total (state_of self.new).counts + result ≡ total (state_of self.old).counts }
    {
        let count = self.count_at(place, s);
        self.put_count(place, s, 0);
        count
    }

    /// How often a signal pends in one place.
    #[tactic(auto, unfolding(crate::specs::SignalState::state_of, crate::specs::SignalState::counts_of))]
    fn count_at(&self, place: usize, s: Sig) -> u64
        requires { place < 65 }
        ensures count { result ≡ (state_of self.now).counts place s }
        // What the sum of all counts becomes where another count takes the place of this one.
        ensures sum { (count : ℕ) → total (put_count (state_of self.now).counts place s count) + result
            ≡ total (state_of self.now).counts + count }
        ensures bound { total (state_of self.now).counts < 2 ^ 63 }
    {
        self.counts[place][s.number() as usize]
    }

    /// How often the signal of a number pends in one place.
    #[tactic(auto, unfolding(crate::specs::SignalState::state_of, crate::specs::SignalState::counts_of))]
    fn pended_at(&self, place: usize, n: usize) -> u64
        requires place { place < 65 }
        requires signal { n < 32 }
        ensures { result ≡ (state_of self.now).counts place n }
    {
        self.counts[place][n]
    }

    /// Whether the signal of a number pends in one place.
    fn pends(&self, place: usize, n: u32) -> bool
        requires place { place < 65 }
        requires signal { n < 32 }
        ensures { result ≡ nat_lt 0 ((state_of self.now).counts place n) }
    {
        self.pended_at(place, n as usize) > 0
    }

    /// The least number from one on of a signal that pends in one place.
    fn pending_from(&self, place: usize, from: u32) -> Option<u32>
        requires place { place < 65 }
        requires signal { from ≤ 32 }
        ensures { let counts = (state_of self.now).counts place in
            result ≡ find (λ sig. nat_lt 0 (counts sig)) (range_with_len from (32 - from)) }
    {
        (from..32).find(|n| self.pends(place, *n))
    }

    /// How often a signal pends in all places.
    fn left_of(&self, n: usize) -> u64
        requires { n < 32 }
        ensures { result ≡ all_of (state_of self.now).counts n }
    {
        // The sum of all counts fits, and only signals in scope pend.
        let _sound = &self.counts;
        let mut left = 0;
        for place in 0..65 {
            left += self.pended_at(place, n);
        }
        left
    }

    /// Sets how often a signal pends in one place.
    fn put_count(&mut self, place: usize, s: Sig, count: u64)
        requires place { place < 65 }
        requires bound { total (put_count (state_of self.old).counts place s count) < 2 ^ 63 }
        ensures { state_of self.new ≡ with_count (state_of self.old) place s count }
    {
        self.pended = self.pended - self.count_at(place, s) + count;
        self.counts[place][s.number() as usize] = count;
        self.pending[place] = with_signal(self.pending[place], s, count > 0);
    }
}

/// The place where the signals of a thread, or of the process, pend.
fn place_of(t: Option<Tid>) -> usize
    ensures value { result ≡ place_of t }
    ensures range { result < 65 }
{
    t.map_or(0, |t| t.number() as usize)
}

/// Whether a thread has a greater priority than another, or there is no other.
#[tactic(auto, using(thread_base::proofs::MapLemmas::numbered_get))]
fn is_above(eff: &[u8; 64], other: &Option<Tid>, t: Tid) -> bool
    ensures { result ≡ is_greater (numbered 0 eff.now) other.now t }
{
    match other {
        Some(other) => eff[other.index()] < eff[t.index()],
        None => true,
    }
}
