//! A process and its turns: it makes the moves of a run one by one, and writes their text.
#![tactic(auto)]

#[cfg(test)]
mod delivery_tests;
mod moves;
mod process;
mod stage;
mod threads;
mod told;

use posix_model::{Ending, Report};
pub use process::Process;
use trace_text::Counts;

/// What a turn gave: it completed no move with lines, it completed a move with this report, or the run has
/// ended.
#[derive(Clone, Copy, Debug)]
pub enum Turn {
    Quiet,
    Made(Report),
    Ended(Ending),
}

/// A run that ended and was written whole: how it ended, and how much of each kind it did.
#[derive(Clone, Copy, Debug, PartialEq, Eq)]
pub struct Done {
    pub ending: Ending,
    pub counts: Counts,
}

/// The sink failed in the middle of a run.
#[derive(Clone, Copy, Debug, PartialEq, Eq)]
pub struct WriteFault;
