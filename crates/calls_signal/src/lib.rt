//! The calls of output, signals and the clock, each as small changes that are noted when it begins.
#![tactic(auto)]

mod beginning;
mod clock;
mod numbers;
mod output;
mod signals;
#[cfg(test)]
mod tests;
mod waiting;

pub use beginning::{begin, step};
