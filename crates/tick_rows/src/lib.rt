//! Programs as tests, under journals of ticks: turns, sleeps, waits with a deadline, and the alarm.
#![tactic(auto)]

#[cfg(test)]
mod alarms;
#[cfg(test)]
mod policies;
#[cfg(test)]
mod refusals;
#[cfg(test)]
mod round_robin;
#[cfg(test)]
mod sleeps;
#[cfg(test)]
mod timed_waits;
