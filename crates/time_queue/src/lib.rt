//! The deadlines of the threads, on the tick clock.
#![tactic(auto)]

ghost use Rattle.std.specs.Prelude.{◌≡◌, ◌<◌, ◌-◌, ℕ, true, false, find, IfSome, IfNone};
ghost use Rattle.std.specs.List.{range_with_len};
ghost use Rattle.thread_base.specs.Maps.{put};
ghost use Rattle.time_queue.specs.Deadlines.{deadlines, has_come, least_due};

#[cfg(test)]
mod tests;

use thread_base::Tid;

/// For each thread the tick at which it is due, where it has such a deadline.
#[derive(Drop)]
pub struct TimeQueue {
    slots: [Option<u64>; 64],
}

#[tactic(auto, using(thread_base::proofs::MapLemmas::numbered_set, thread_base::proofs::MapLemmas::numbered_get, thread_base::proofs::MapLemmas::numbered_read, thread_base::proofs::MapLemmas::numbered_blank))]
impl TimeQueue {
    /// No thread has a deadline. It takes no memory, now or later.
    pub fn new() -> TimeQueue
        ensures { deadlines result ≡ (λ t. None) }
    {
        TimeQueue { slots: [None; 64] }
    }

    /// Gives a thread a deadline, in place of the one that it had.
    pub fn set(&mut self, t: Tid, deadline: u64)
        ensures { deadlines self.new ≡ put (deadlines self.old) t (Some deadline) }
    {
        self.slots[t.index()] = Some(deadline);
    }

    /// Takes a thread's deadline away, where it has one.
    pub fn cancel(&mut self, t: Tid)
        ensures { deadlines self.new ≡ put (deadlines self.old) t None }
    {
        self.slots[t.index()] = None;
    }

    /// A thread's deadline; None exactly where it has none.
    pub fn deadline(&self, t: Tid) -> Option<u64>
        ensures { result ≡ deadlines self.now t }
    {
        self.slots[t.index()]
    }

    /// The lowest thread whose deadline is at most `now`; None exactly where there is none.
    pub fn due(&self, now: u64) -> Option<Tid>
        ensures least { result ≡ least_due now (deadlines self.now) }
        ensures due { IfSome result (λ t. has_come now (deadlines self.now t) ≡ true) }
        ensures lowest { IfSome result
            (λ t. (u : ℕ) → u < t → has_come now (deadlines self.now u) ≡ false) }
        ensures none { IfNone result ((u : ℕ) → has_come now (deadlines self.now u) ≡ false) }
    {
        self.due_from(1, now)
    }

    /// The lowest thread from a number on whose deadline is at most `now`; None exactly where there is none.
    pub fn due_from(&self, number: u32, now: u64) -> Option<Tid>
        ensures { result ≡ find (λ t. has_come now (deadlines self.now t)) (range_with_len number (65 - number)) }
    {
        match self.least_from(number, now) {
            Some(found) => Tid::new(found),
            None => None,
        }
    }

    /// The lowest number from one on of a thread whose deadline is at most `now`, if there is one.
    fn least_from(&self, number: u32, now: u64) -> Option<u32>
        ensures { result ≡ find (λ t. has_come now (deadlines self.now t)) (range_with_len number (65 - number)) }
    {
        (number..65).find(|t| self.is_due(*t, now))
    }

    /// Whether the deadline of the thread of a number, if there is one, is at most `now`.
    fn is_due(&self, number: u32, now: u64) -> bool
        ensures { result ≡ has_come now (deadlines self.now number) }
    {
        match Tid::new(number) {
            Some(t) => self.deadline(t).is_some_and(|deadline| deadline <= now),
            None => false,
        }
    }
}
