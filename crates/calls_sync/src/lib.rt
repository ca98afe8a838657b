//! The calls of mutexes and of condition variables, each as small changes that are noted when it begins.
#![tactic(auto)]

mod beginning;
mod conditions;
mod mutexes;
#[cfg(test)]
mod tests;

pub use beginning::{begin, step};
