/// What is written of a run: its trace, or the output of the program alone.
#[derive(Clone, Copy, Debug, PartialEq, Eq)]
pub enum Mode {
    Trace,
    Plain,
}

/// What is run: the image and the journal in the files of two names, or the pair that is generated from a seed.
#[derive(Debug, PartialEq, Eq, Drop)]
pub enum Source {
    Files { image: String, journal: String },
    Seed(u64),
}

/// The options of a run: what is run, the most instructions, the ticks of a quantum, the bytes of memory, and
/// what is written.
#[derive(Debug, PartialEq, Eq, Drop)]
pub struct Options {
    pub source: Source,
    pub budget: u64,
    pub quantum: u32,
    pub memory: u32,
    pub mode: Mode,
}
