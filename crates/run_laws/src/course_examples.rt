//! Small cases of the course of a run, each computed by the checker. The functions do nothing.
#![tactic(auto, unfolding(thread_base::specs::Maps::put, thread_base::specs::Priority::tids, thread_base::specs::Priority::leads, thread_base::specs::Priority::effective, thread_base::specs::Deliveries::signals, posix_model::specs::Scheduling::eff, posix_model::specs::Scheduling::chosen, posix_model::specs::Reports::nothing_told, posix_model::specs::Lines::out_line, posix_model::specs::Deliveries::next_delivery, posix_model::specs::Journals::untaken, posix_model::specs::Journals::reached, posix_model::specs::Runs::due))]

ghost use Rattle.run_laws.specs.CourseExamples as examples;

/// Of entries that are due the lowest is next, alone; else a delivery, and else an instruction within the budget.
pub fn next_moves()
    ensures { examples.NextMoves }
{}

/// A signal arrives and is delivered, which ends the process.
pub fn short_course()
    ensures { examples.ShortCourse }
{}

/// Two entries at one number are not calm, and neither is an entry where a delivery is next.
pub fn not_calm()
    ensures { examples.NotCalm }
{}

/// The bytes of a write are those of the memory, and those that its out line tells.
pub fn written_bytes()
    ensures { examples.WrittenBytes }
{}
