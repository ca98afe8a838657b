//! Small cases of the definitions, each computed by the checker. The functions do nothing.
#![tactic(auto, unfolding(thread_base::specs::Maps::put, thread_base::specs::Priority::tids, thread_base::specs::Priority::leads, thread_base::specs::Priority::effective, thread_base::specs::Deliveries::signals, posix_model::specs::Scheduling::eff, posix_model::specs::Scheduling::chosen, posix_model::specs::Reports::nothing_told, posix_model::specs::Deliveries::next_delivery))]

ghost use Rattle.run_laws.specs.LedgerExamples as ledgers;

/// A signal for which a thread leaves its wait still pends, and goes with the delivery that follows.
pub fn waits_still_pend()
    ensures { ledgers.WaitsStillPend }
{}

/// A signal that is ignored is dropped where it comes.
pub fn drops_go()
    ensures { ledgers.DropsGo }
{}

/// What the ledgers of eleven reports add up to.
pub fn accounts()
    ensures { ledgers.Accounts }
{}

/// A call that sends a signal lets one come, and a call that ignores it lets all go.
pub fn sends_come()
    ensures { ledgers.SendsCome }
{}

/// A call that accepts a signal lets go what pends where it accepts it.
pub fn accepts_go()
    ensures { ledgers.AcceptsGo }
{}
