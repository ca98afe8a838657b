ghost use Rattle.std.specs.Prelude.{◌≡◌, ◌-◌, find};
ghost use Rattle.std.specs.List.{range_with_len};
ghost use Rattle.posix_model.specs.Arrivals.{has_come};
ghost use Rattle.posix_model.specs.State.{wait_of, deadline_by};
ghost use Rattle.kernel_state.specs.View.{view, outcome, StayCurrent};
ghost use Rattle.kernel_state.specs.Changing.{change_by, CanClock};

use crate::change::{Change, ClockChange};
use crate::tables::Tables;
use ready_queues::Ready;
use thread_base::Tid;

impl<R: Ready + Drop> Tables<R> {
    /// The ticks that have come.
    #[tactic(auto, unfolding(crate::specs::View::view))]
    pub fn ticks(&self) -> u64
        ensures { result ≡ (view R.order self.now).now }
    {
        self.ticks
    }

    /// When the alarm goes off, in ticks of the clock; None exactly where it is not set.
    #[tactic(auto, unfolding(crate::specs::View::view))]
    pub fn alarm(&self) -> Option<u64>
        ensures { result ≡ (view R.order self.now).alarm }
    {
        self.alarm
    }

    /// The lowest thread from a number on whose wait ends by itself at a time or before it; None exactly where there is none.
    #[tactic(auto, unfolding(crate::specs::View::view))]
    pub fn due_from(&self, from: u32, time: u64) -> Option<Tid>
        ensures { result ≡ find (λ t. has_come time (deadline_by (wait_of ((view R.order self.now).threads t).standing))) (range_with_len from (65 - from)) }
    {
        self.records.due_from(from, time)
    }

    /// Makes a change of the clock or of its alarm.
    #[tactic(auto, unfolding(crate::specs::View::outcome, crate::specs::View::view), using(crate::proofs::CurrentLemmas::alike))]
    pub(crate) fn change_clock(&mut self, change: ClockChange)
        requires { CanClock change (view R.order self.old) }
        ensures outcome { outcome R.order self.new ≡ change_by (Change.Clock change) (outcome R.order self.old) }
        ensures current { StayCurrent R.order R.prio self.old self.new }
    {
        match change {
            ClockChange::Advance => self.ticks += 1,
            ClockChange::Set { alarm } => self.alarm = alarm,
            ClockChange::Ring => {
                self.alarm = None;
                self.report.alarm = true;
            }
        }
    }
}
