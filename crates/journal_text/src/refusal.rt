use thiserror::Error;

/// Why a text is refused as a journal. The first reason in this order is given for the whole, and else the
/// first in this order of the first bad line, by its number; the header is line 1. NoMemory is apart: memory
/// ran out.
#[derive(Clone, Copy, Debug, PartialEq, Eq, Error)]
pub enum JournalRefusal {
    /// It has more than 16,777,216 bytes.
    #[error("TooLong")]
    TooLong,
    /// The first line is not `fsu-journal 1` with its line feed.
    #[error("Header")]
    Header,
    /// The line is of none of the four forms, or has no line feed.
    #[error("Line {0}")]
    Line(u32),
    /// A number has a leading zero, or the place is above 1,000,000,000 instructions or 1,000,000 steps.
    #[error("Number {0}")]
    Number(u32),
    /// The number is that of no signal in scope.
    #[error("Signal {0}")]
    Signal(u32),
    /// The place is before that of the line before.
    #[error("Order {0}")]
    Order(u32),
    /// It brings or ends input after an end of input.
    #[error("AfterEof {0}")]
    AfterEof(u32),
    /// It would be entry 1,000,001.
    #[error("TooMany {0}")]
    TooMany(u32),
    /// Memory ran out.
    #[error("NoMemory")]
    NoMemory,
}
