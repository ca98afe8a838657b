//! Programs for tests: the words of system calls, the files that hold such words, and the replay of a program of a few
//! items.
#![tactic(auto)]

mod image;
pub mod program;
mod words;

pub use image::sheet;
pub use words::sys_words;

#[cfg(test)]
mod tests;
