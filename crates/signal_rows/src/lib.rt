//! Programs as tests, with signals that calls send, their handlers, and waits for them.
#![tactic(auto)]

#[cfg(test)]
mod handlers;
#[cfg(test)]
mod signals;
#[cfg(test)]
mod waits;
