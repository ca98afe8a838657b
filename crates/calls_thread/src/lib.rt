//! The calls of threads, of exit and of unknown numbers, the special returns and the faults, each as small
//! changes that are noted when it begins.
#![tactic(auto)]

mod beginning;
mod ending;
mod faults;
mod returns;
mod rows;
mod scheduling;
#[cfg(test)]
mod tests;

pub use beginning::{begin, begin_unknown, step};
pub use faults::begin_fault;
pub use returns::begin_return;
