//! The text of a trace: the lines of a move, of a switch and of an ending, written through a sink.
#![tactic(auto)]

mod counts;
mod line;
mod output;
mod report;
mod tally;

pub use line::{Line, put_line};
pub use report::{put_end, put_ending, put_report, put_run};
pub use tally::Counts;

/// What is written of a run: its trace, or plain text, which is what its threads wrote to descriptors 1 and 2.
#[derive(Clone, Copy, Debug, PartialEq, Eq)]
pub enum Mode {
    Trace,
    Plain,
}
