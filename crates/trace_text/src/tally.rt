ghost use Rattle.std.specs.Prelude.{◌≡◌};
ghost use Rattle.trace_text.specs.Counting.{no_counts};

/// How much of each kind a run did: instructions that were made, calls that were told, moves in which entries
/// arrived, deliveries, and lines that name the thread that goes on.
#[derive(Clone, Copy, Debug, PartialEq, Eq)]
pub struct Counts {
    pub instructions: u64,
    pub calls: u64,
    pub arrivals: u64,
    pub deliveries: u64,
    pub switches: u64,
}

impl Counts {
    /// Nothing was done.
    pub fn none() -> Counts
        ensures { result ≡ no_counts }
    {
        Counts {
            instructions: 0,
            calls: 0,
            arrivals: 0,
            deliveries: 0,
            switches: 0,
        }
    }
}
