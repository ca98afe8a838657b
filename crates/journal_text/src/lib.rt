//! The journal: what comes to a process from outside, and at which places of its run.
#![tactic(auto)]

mod draft;
mod entry;
mod journal;
mod laws;
mod print;
mod read;
mod refusal;
mod written;

pub use entry::{Entry, What};
pub use journal::Journal;
pub use laws::{four_forms, one_journal, read_again, spelled};
pub use print::print_journal;
pub use read::read_journal;
pub use refusal::JournalRefusal;

#[cfg(test)]
mod tests;
