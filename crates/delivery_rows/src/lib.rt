//! Programs as tests, under journals of signals: what entries do to threads.
#![tactic(auto)]

#[cfg(test)]
mod handlers;
#[cfg(test)]
mod recipients;
#[cfg(test)]
mod waits;
