//! The top calls: words, files and sinks in, the text of a run or the places of its threads and a status out.
#![tactic(auto)]

mod address;
mod event;
mod failure;
mod journal;
mod lines;
mod places;
mod request;
mod top;

pub use failure::{Failure, Status};
pub use places::tell_places;
pub use top::replay;

#[cfg(test)]
mod cases;
#[cfg(test)]
mod tests;
