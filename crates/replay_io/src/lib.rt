//! The outside of a replay: where text goes, where files come from, and the words of the command line.
#![tactic(auto)]

mod buffer;
mod failures;
mod files;
mod host;
mod mem_files;
mod mem_sink;
mod sinks;
mod sure_sink;
#[cfg(test)]
mod tests;
mod words;

pub use files::{Files, LoadRefusal};
pub use host::{HostFiles, HostOut};
pub use mem_files::MemFiles;
pub use mem_sink::MemSink;
pub use sinks::{Sink, SinkFailed};
pub use sure_sink::SureSink;
pub use words::Words;
