ghost use Rattle.std.specs.Prelude.{◌≡◌};

use thread_base::{Place, Sig};

/// An event from outside: a signal, a tick of the clock, some bytes of input, or the end of the input.
#[derive(Clone, Copy, Debug, PartialEq, Eq)]
pub enum What {
    Sig(Sig),
    Tick,
    /// The bytes from `start` on of the journal's joined data, 1 to 4,096.
    Data { start: u32, len: u32 },
    Eof,
}

/// An entry of a journal: an event, and the place where it comes.
#[derive(Clone, Copy, Debug, PartialEq, Eq)]
pub struct Entry {
    pub place: Place,
    pub what: What,
}

impl What {
    ghost use Rattle.journal_text.specs.Contents.{is_eof};

    /// Whether it ends the input.
    pub(crate) fn is_eof(self) -> bool
        ensures { result ≡ is_eof self }
    {
        match self {
            What::Eof => true,
            _ => false,
        }
    }
}
