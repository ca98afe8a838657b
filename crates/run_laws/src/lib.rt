//! Laws over whole runs of the thread machine: the ledger of its signals, runs that do not depend on where entries were
//! presented, and the weight of its moves.
#![tactic(auto)]

pub mod course;
pub mod course_examples;
pub mod examples;
pub mod ledger;
pub mod weights;
