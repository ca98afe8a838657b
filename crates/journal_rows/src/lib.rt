//! Programs as tests, under journals of signals: where entries come.
#![tactic(auto)]

#[cfg(test)]
mod idle;
#[cfg(test)]
mod places;
