//! Programs as tests: each row is an image of a few items and the whole text of its replay. Here are those of threads.
#![tactic(auto)]

#[cfg(test)]
mod calls;
#[cfg(test)]
mod joins;
#[cfg(test)]
mod threads;
