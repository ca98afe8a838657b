//! Arrivals and deliveries, each as small changes that are noted when it begins.
#![tactic(auto)]

mod arrival;
mod delivery;
mod next;
mod ticking;

pub use arrival::begin_arrival;
pub use delivery::begin_delivery;
pub use next::begin_next;
