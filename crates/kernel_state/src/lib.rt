//! All tables of the kernel, the machine state that they show, and the small changes of it.
#![tactic(auto)]

mod activity;
mod change;
mod clock;
mod conditions;
mod kernel;
mod mutexes;
mod outside;
#[cfg(test)]
mod outside_tests;
mod records;
mod rest;
mod signals;
mod tables;
#[cfg(test)]
mod tests;
mod threads;
mod waking;

pub use activity::{Activities, Activity};
pub use change::{
    Beginning, Change, ClockChange, ConditionChange, MutexChange, SignalChange, ThreadChange,
};
pub use kernel::{Kernel, MainLine, Stepped, arguments_from};
pub use outside::{Outside, arrivals};
pub use records::{Records, ThreadRecord};
pub use rest::Rest;
pub use tables::Tables;
