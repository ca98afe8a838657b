//! What a Unix process is told from outside: the events that pend, each once with a count, and its input.
#![tactic(auto)]

ghost use Rattle.std.specs.Prelude.{◌≡◌};
ghost use Rattle.unix_process.specs.Merging.{signal_of, IsEvent, CountsAddUp, OrderStays, FirstsStay, StaysTally, StaysCounted};

mod tally;
#[cfg(test)]
mod tests;
mod unix;

pub use tally::Tally;
use thread_base::Sig;
pub use unix::Unix;

/// The most bytes of input that are ever granted.
pub const INPUT_LIMIT: u32 = 16_777_216;

/// An event from outside: a signal, a tick of the clock, or input. The default fills empty slots.
#[derive(Clone, Copy, Debug, PartialEq, Eq, Default)]
pub enum UnixEvent {
    Sig(Sig),
    #[default]
    Tick,
    Input,
}

impl UnixEvent {
    /// The signal, where it is one.
    pub fn signal(self) -> Option<Sig>
        ensures value { result ≡ signal_of self }
        ensures scope { IsEvent self }
    {
        match self {
            UnixEvent::Sig(sig) => {
                let _in_scope = sig.number();
                Some(sig)
            }
            UnixEvent::Tick | UnixEvent::Input => None,
        }
    }
}

/// Journal entries of one event that were taken together: how many, and the number of the first.
#[derive(Clone, Copy, Debug, PartialEq, Eq, Default)]
pub struct Taken {
    pub event: UnixEvent,
    pub first: u32,
    pub count: u32,
}

/// What merging is for: the counts add up, the events keep their order and their first entries, and
/// each stands once.
#[tactic(auto, using(crate::proofs::MergingLemmas::counts_add_up, crate::proofs::MergingLemmas::order_stays, crate::proofs::MergingLemmas::firsts_stay, crate::proofs::MergingLemmas::stays_tally, crate::proofs::MergingLemmas::stays_counted))]
pub fn merging()
    ensures counts { CountsAddUp }
    ensures order { OrderStays }
    ensures firsts { FirstsStay }
    ensures once { StaysTally }
    ensures counted { StaysCounted }
{}
