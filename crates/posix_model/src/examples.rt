//! Small cases of the definitions, each computed by the checker. The functions do nothing.
#![tactic(auto, unfolding(thread_base::specs::Maps::put, thread_base::specs::Priority::tids, thread_base::specs::Priority::leads, thread_base::specs::Priority::effective, thread_base::specs::Objects::condition_numbers, thread_base::specs::Deliveries::signals, crate::specs::Scheduling::eff, crate::specs::Scheduling::chosen, crate::specs::Calls::call_row, crate::specs::Reports::nothing_told, crate::specs::Lines::sig_numbers, crate::specs::Deliveries::next_delivery, crate::specs::Exits::due_key, crate::specs::Journals::untaken, crate::specs::Journals::reached, crate::specs::Runs::due))]

ghost use Rattle.posix_model.specs.Examples as examples;
ghost use Rattle.posix_model.specs.MutexExamples as mutexes;
ghost use Rattle.posix_model.specs.PriorityExamples as priorities;
ghost use Rattle.posix_model.specs.ConditionExamples as conditions;
ghost use Rattle.posix_model.specs.SignalExamples as signals;
ghost use Rattle.posix_model.specs.ArrivalExamples as arrivals;
ghost use Rattle.posix_model.specs.KillExamples as kills;
ghost use Rattle.posix_model.specs.ClockExamples as clocks;
ghost use Rattle.posix_model.specs.ExitExamples as exits;
ghost use Rattle.posix_model.specs.JournalExamples as journals;

/// The last thread of a chain of waits runs with the priority of the first.
pub fn chain()
    ensures { examples.Chain }
{}

/// The threads of a circle of waits have the priority of a thread that waits for one of them.
pub fn circle()
    ensures { examples.Circle }
{}

/// Of equal priorities the first of the ready list runs.
pub fn first_of_equals()
    ensures { examples.FirstOfEquals }
{}

/// A new thread has the least free number and stands after the others; its creator keeps its place.
pub fn create()
    ensures { examples.Create }
{}

/// Which refusal of create comes first.
pub fn create_refusals()
    ensures { examples.CreateRefusals }
{}

/// A join takes the value of a thread that has ended, and else waits.
pub fn joins()
    ensures { examples.Joins }
{}

/// Which refusal of join comes first.
pub fn join_refusals()
    ensures { examples.JoinRefusals }
{}

/// A detach keeps a thread that goes on, frees one that has ended, and is refused of one that is taken.
pub fn detaches()
    ensures { examples.Detaches }
{}

/// A yield goes after the others.
pub fn yields()
    ensures { examples.Yields }
{}

/// The end of a thread answers its joiner, frees its number, and with the last thread ends the process.
pub fn ends()
    ensures { examples.Ends }
{}

/// A number that the call table does not have answers ENOSYS.
pub fn unknown()
    ensures { examples.Unknown }
{}

/// A special return that is not due faults.
pub fn not_due()
    ensures { examples.NotDue }
{}

/// The lines of a program in which a thread yields, is joined and ends.
pub fn trace_lines()
    ensures { examples.Lines }
{}

/// A free mutex is taken; for one that another owns a thread waits, after those that came before.
pub fn locks()
    ensures { mutexes.Locks }
{}

/// The refusals of lock: no mutex, an error-checking one of its own, a recursive one that is full.
pub fn lock_refusals()
    ensures { mutexes.LockRefusals }
{}

/// A recursive mutex is free after as many unlocks as locks, and only its owner unlocks it.
pub fn counts()
    ensures { mutexes.Counts }
{}

/// A trylock is refused where a lock waits.
pub fn trylocks()
    ensures { mutexes.Trylocks }
{}

/// An unlocked mutex goes to the waiter of greatest priority, the earliest of equals.
pub fn hands_off()
    ensures { mutexes.HandsOff }
{}

/// A mutex of each kind is made; which refusal comes first.
pub fn inits()
    ensures { mutexes.Inits }
{}

/// A mutex is destroyed only where it is free.
pub fn destroys()
    ensures { mutexes.Destroys }
{}

/// A mutex whose owner ended stays locked, and nobody gets it.
pub fn orphans()
    ensures { mutexes.Orphans }
{}

/// The refusals of setsched and getsched: no such thread, one that has ended, a policy or a priority out of range.
pub fn scheduling_refusals()
    ensures { priorities.SchedulingRefusals }
{}

/// A ready thread whose priority is set goes after the others, and who runs is chosen anew.
pub fn schedules()
    ensures { priorities.Schedules }
{}

/// A thread that waits goes on waiting, and its new priority decides who gets a mutex.
pub fn schedules_waiters()
    ensures { priorities.SchedulesWaiters }
{}

/// Who waits for a condition lets its mutex go at once, and stands after the other waiters.
pub fn condition_waits()
    ensures { conditions.ConditionWaits }
{}

/// Which refusal of a wait for a condition comes first.
pub fn condition_wait_refusals()
    ensures { conditions.ConditionWaitRefusals }
{}

/// A signal wakes the waiter of greatest priority, the earliest of equals, who takes its mutex back or waits for it.
pub fn signals()
    ensures { conditions.Signals }
{}

/// A broadcast wakes all in order of their priorities: one has the mutex, the others wait for it.
pub fn broadcasts()
    ensures { conditions.Broadcasts }
{}

/// A recursive mutex comes back from a wait as often as it was locked.
pub fn saved_counts()
    ensures { conditions.SavedCounts }
{}

/// A condition is destroyed only where nobody waits, and a mutex only where no waiter uses it.
pub fn inits_and_destroys()
    ensures { conditions.InitsAndDestroys }
{}

/// Who is woken waits for ever for a mutex whose owner ended.
pub fn woken_in_vain()
    ensures { conditions.WokenInVain }
{}

/// A thread that is cancelled in its wait starts its exit once it has its mutex.
pub fn cancelled_waits()
    ensures { conditions.CancelledWaits }
{}

/// A fault that its thread cannot take ends the process at once, and else pends on it.
pub fn faults_end_at_once()
    ensures { signals.FaultsEndAtOnce }
{}

/// A handler that interrupts a wait for a condition is entered once the thread has its mutex back.
pub fn interrupted_condition()
    ensures { signals.InterruptedCondition }
{}

/// A handler ends a wait for a mutex, and its thread locks again afterwards.
pub fn interrupted_lock()
    ensures { signals.InterruptedLock }
{}

/// A handler ends a sleep and a read with EINTR, and a join is made again.
pub fn interrupted_sleep()
    ensures { signals.InterruptedSleep }
{}

/// The return of a handler restores registers and mask.
pub fn handler_returns()
    ensures { signals.HandlerReturns }
{}

/// The return of a cleanup routine restores the registers, and the mask stays.
pub fn cleanup_returns()
    ensures { signals.CleanupReturns }
{}

/// A signal goes first to who waits for it, of the greatest priority and the lowest number.
pub fn sigwait_takes()
    ensures { signals.SigwaitTakes }
{}

/// Signals that come before they are delivered are delivered as one.
pub fn merged_count()
    ensures { signals.MergedCount }
{}

/// A signal that is ignored is dropped where it comes, and KILL ends the process there.
pub fn ignored_arrives()
    ensures { arrivals.IgnoredArrives }
{}

/// A signal that is ignored is dropped where it is sent.
pub fn sent_in_vain()
    ensures { kills.SentInVain }
{}

/// KILL ends the process where it is sent, and its sender is answered.
pub fn kill_ends()
    ensures { kills.KillEnds }
{}

/// An action that ignores its signal drops all that pends of it; the old action's number is answered.
pub fn other_actions()
    ensures { kills.OtherActions }
{}

/// Signals are added to the mask, taken away, or set in its place.
pub fn masks()
    ensures { kills.Masks }
{}

/// The set of what pends on the caller and on the process.
pub fn pending_sets()
    ensures { kills.PendingSets }
{}

/// The lowest signal that pends is accepted with its whole count, the caller's own before the process's.
pub fn accepts()
    ensures { kills.Accepts }
{}

/// A thread waits for the signals of a set where none of them pends; an empty set is refused.
pub fn awaits()
    ensures { kills.Awaits }
{}

/// A signal pends on the thread to which it is sent, or on the process.
pub fn sends()
    ensures { kills.Sends }
{}

/// Which refusal of the calls of signals comes first.
pub fn kill_refusals()
    ensures { kills.KillRefusals }
{}

/// A sleep of no ticks is over at once, and another waits.
pub fn sleeps()
    ensures { clocks.Sleeps }
{}

/// An alarm is set, set anew and cleared; what was left of the one before is answered.
pub fn alarms()
    ensures { clocks.Alarms }
{}

/// A wait for a condition until a time to come is one without a time, and has the same refusals.
pub fn timed_waits()
    ensures { clocks.TimedWaits }
{}

/// A wait whose time has passed lets a waiter have the mutex, and its caller waits to have it back.
pub fn passed_on()
    ensures { clocks.PassedOn }
{}

/// A wait whose time has passed keeps the mutex for which nobody waits.
pub fn timed_out_at_once()
    ensures { clocks.TimedOutAtOnce }
{}

/// A tick is charged to the thread that ran, before others wake, and never to a FIFO one.
pub fn tick_charges()
    ensures { arrivals.TickCharges }
{}

/// A wait for a condition whose time has come ends with ETIMEDOUT, a sleep with 0.
pub fn deadline_passes()
    ensures { arrivals.DeadlinePasses }
{}

/// Input goes to readers by priority and number while some is left; its end answers all with 0.
pub fn readers_served()
    ensures { arrivals.ReadersServed }
{}

/// A cancelled waiter of a condition starts its exit once it has its mutex, and a sleeper at once.
pub fn cancelled_waiter()
    ensures { exits.CancelledWaiter }
{}

/// An exit within the exit changes its value, and rounds and keys go on.
pub fn exit_within_exit()
    ensures { exits.ExitWithinExit }
{}

/// Destructors run in four rounds at most, each with the value that its key had.
pub fn four_rounds()
    ensures { exits.FourRounds }
{}

/// While an entry is due no instruction is allowed; where nothing else can happen the next entry is due.
pub fn all_arrive_first()
    ensures { journals.AllArriveFirst }
{}

/// A run ends idle where every entry is taken, and with its budget where an instruction would be next.
pub fn runs_end()
    ensures { journals.RunsEnd }
{}
