//! Programs as tests, with mutexes, condition variables and priorities that change.
#![tactic(auto)]

#[cfg(test)]
mod conditions;
#[cfg(test)]
mod mutexes;
#[cfg(test)]
mod priorities;
