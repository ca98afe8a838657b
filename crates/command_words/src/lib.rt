//! The words of the command line: the options of `fsu_replay`, read by `clap`.
#![tactic(auto)]

mod options;
mod parse;
mod program;
mod read;
mod value;

pub use options::{Mode, Options, Source};
pub use read::read_options;

#[cfg(test)]
mod tests;
