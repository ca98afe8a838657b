ghost use Rattle.std.specs.Prelude.{◌≡◌, ◌+◌, ◌-◌, ◌≤◌, ℕ, find, nat_lt, IsNone, slice_set, slice_index};
ghost use Rattle.std.specs.List.{range_with_len};
ghost use Rattle.posix_model.specs.Deliveries.{next_delivery};
ghost use Rattle.posix_model.specs.SignalCalls.{pending_set, lowest_pending};
ghost use Rattle.posix_model.specs.Trace.{left};
ghost use Rattle.thread_signals.specs.Counts.{place_of};
ghost use Rattle.kernel_state.specs.View.{view, outcome, AreCurrent, StayCurrent};
ghost use Rattle.kernel_state.specs.Executing.{delivery_by};
ghost use Rattle.kernel_state.specs.Changing.{change_by, CanSignal};

use crate::change::{Change, SignalChange};
use crate::tables::Tables;
use posix_model::Report;
use ready_queues::Ready;
use thread_base::{Action, Sig, SigSet, Tid};

impl<R: Ready + Drop> Tables<R> {
    /// What a signal does to the process.
    #[tactic(auto, unfolding(crate::specs::View::view))]
    pub fn action(&self, s: Sig) -> Action
        ensures { result ≡ (view R.order self.now).actions s }
    {
        self.records.action(s)
    }

    /// How often a signal pends on a thread, or under None on the process.
    #[tactic(auto, unfolding(crate::specs::View::view))]
    pub fn pending(&self, place: Option<Tid>, s: Sig) -> u64
        ensures { result ≡ (view R.order self.now).pending (place_of place) s }
    {
        self.records.count(place, s)
    }

    /// The next delivery: who gets which signal, and whether it pends on the process; None exactly where no delivery is
    /// next.
    pub fn next_delivery(&self) -> Option<(Tid, Sig, bool)>
        ensures { next_delivery (view R.order self.now) ≡ delivery_by result }
    {
        if self.records.is_calm() {
            return None;
        }
        self.records.next_signal(&self.levels())
    }

    /// The least signal from a number on, at most 32, that pends on a thread, or under None on the process; None exactly
    /// where none of them pends there.
    #[tactic(auto, unfolding(crate::specs::View::view))]
    pub fn next_pending(&self, place: Option<Tid>, from: u32) -> Option<Sig>
        requires { from ≤ 32 }
        ensures least { result ≡ find (λ sig. nat_lt 0 ((view R.order self.now).pending (place_of place) sig)) (range_with_len from (32 - from)) }
        ensures none { IsNone result → (sig : ℕ) → from ≤ sig → (view R.order self.now).pending (place_of place) sig ≡ 0 }
    {
        self.records.next_pending(place, from)
    }

    /// The set of the signals that pend on a thread or on the process, but for KILL, which no set has.
    pub fn pending_set(&self, t: Tid) -> SigSet
        ensures { result ≡ pending_set (view R.order self.now) t }
    {
        self.records.pending_set(t)
    }

    /// The lowest signal of a set that pends on a thread or on the process; None exactly where none of the set pends there.
    #[tactic(auto, unfolding(crate::specs::View::view))]
    pub fn lowest_pending(&self, t: Tid, set: SigSet) -> Option<Sig>
        ensures { result ≡ lowest_pending (view R.order self.now) t set }
    {
        self.records.lowest_pending(t, set)
    }

    /// How many of each signal still pend, over the process and all threads, by the signal's number.
    pub fn left(&self) -> [u64; 32]
        ensures { result ≡ left (view R.order self.now) }
    {
        self.records.left()
    }

    /// Lets more of a signal pend in a place.
    #[tactic(auto, unfolding(crate::specs::View::outcome, crate::specs::View::view), using(crate::proofs::CurrentLemmas::alike))]
    fn pend(&mut self, signal: Sig, place: Option<Tid>, count: u64)
        requires { CanSignal (SignalChange.Pend place count) signal (outcome R.order self.old) }
        ensures outcome { outcome R.order self.new ≡ change_by (Change.Signal signal (SignalChange.Pend place count)) (outcome R.order self.old) }
        ensures current { StayCurrent R.order R.prio self.old self.new }
    {
        self.records.pend(place, signal, count);
    }

    /// Takes a signal from a place.
    #[tactic(auto, unfolding(crate::specs::View::outcome, crate::specs::View::view), using(crate::proofs::CurrentLemmas::alike))]
    fn take(&mut self, signal: Sig, place: Option<Tid>)
        ensures outcome { outcome R.order self.new ≡ change_by (Change.Signal signal (SignalChange.Take place)) (outcome R.order self.old) }
        ensures current { StayCurrent R.order R.prio self.old self.new }
    {
        let _count = self.records.take(place, signal);
    }

    /// Takes a signal from a place, and tells how many of it pended there.
    #[tactic(auto, unfolding(crate::specs::View::outcome, crate::specs::View::view), using(crate::proofs::CurrentLemmas::alike))]
    fn accept(&mut self, signal: Sig, place: Option<Tid>)
        ensures outcome { outcome R.order self.new ≡ change_by (Change.Signal signal (SignalChange.Accept place)) (outcome R.order self.old) }
        ensures current { StayCurrent R.order R.prio self.old self.new }
    {
        let count = self.records.take(place, signal);
        tell_accepted(&mut self.report, signal, count);
    }

    /// Drops what pends of a signal in a place.
    #[tactic(auto, unfolding(crate::specs::View::outcome, crate::specs::View::view), using(crate::proofs::CurrentLemmas::alike))]
    fn drop_signal(&mut self, signal: Sig, place: Option<Tid>)
        requires { CanSignal (SignalChange.Drop place) signal (outcome R.order self.old) }
        ensures outcome { outcome R.order self.new ≡ change_by (Change.Signal signal (SignalChange.Drop place)) (outcome R.order self.old) }
        ensures current { StayCurrent R.order R.prio self.old self.new }
    {
        let count = self.records.take(place, signal);
        tell_dropped(&mut self.report, signal, count);
    }

    /// Drops so many of a signal that came.
    #[tactic(auto, unfolding(crate::specs::View::outcome, crate::specs::View::view), using(crate::proofs::CurrentLemmas::alike))]
    fn lose(&mut self, signal: Sig, count: u64)
        requires { CanSignal (SignalChange.Lose count) signal (outcome R.order self.old) }
        ensures outcome { outcome R.order self.new ≡ change_by (Change.Signal signal (SignalChange.Lose count)) (outcome R.order self.old) }
        ensures current { StayCurrent R.order R.prio self.old self.new }
    {
        tell_dropped(&mut self.report, signal, count);
    }

    /// Gives a signal another action, and drops what pends of it where that ignores it.
    fn act(&mut self, signal: Sig, action: Action)
        requires { CanSignal (SignalChange.Act action) signal (outcome R.order self.old) }
        ensures outcome { outcome R.order self.new ≡ change_by (Change.Signal signal (SignalChange.Act action)) (outcome R.order self.old) }
        ensures current { StayCurrent R.order R.prio self.old self.new }
    {
        let is_ignored = action.ignores(signal);
        let dropped = self.records.set_action(signal, action);
        if is_ignored {
            tell_dropped(&mut self.report, signal, dropped);
        }
    }

    /// Makes a change of what pends of a signal, or of what it does.
    pub(crate) fn change_signal(&mut self, signal: Sig, change: SignalChange)
        requires { CanSignal change signal (outcome R.order self.old) }
        ensures outcome { outcome R.order self.new ≡ change_by (Change.Signal signal change) (outcome R.order self.old) }
        ensures current { StayCurrent R.order R.prio self.old self.new }
    {
        match change {
            SignalChange::Pend { place, count } => self.pend(signal, place, count),
            SignalChange::Take { place } => self.take(signal, place),
            SignalChange::Accept { place } => self.accept(signal, place),
            SignalChange::Drop { place } => self.drop_signal(signal, place),
            SignalChange::Lose { count } => self.lose(signal, count),
            SignalChange::Act { action } => self.act(signal, action),
        }
    }
}

/// Tells that so many of a signal were accepted beside the main line.
fn tell_accepted(report: &mut Report, signal: Sig, count: u64)
    ensures { report.new ≡ record report.old { took = 1; took_sig = signal; took_count = count } }
{
    report.took = 1;
    report.took_sig = signal.number();
    report.took_count = count;
}

/// Tells that so many of a signal were dropped, of which nothing was told to be dropped before.
fn tell_dropped(report: &mut Report, signal: Sig, count: u64)
    requires { slice_index report.old.drops signal ≡ 0 }
    ensures { report.new ≡ record report.old { drops = slice_set report.old.drops signal (slice_index report.old.drops signal + count) } }
{
    report.drops[signal.number() as usize] = count;
}
