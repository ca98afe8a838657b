ghost use Rattle.std.specs.Prelude.{List, ℕ, Option};
ghost use Rattle.replay_io.specs.Writing.{Writes};

/// A put failed.
#[derive(Clone, Copy, Debug, PartialEq, Eq)]
pub struct SinkFailed;

/// Where text goes.
pub trait Sink {
    /// The bytes written so far, where they are told.
    ghost written: { Self → Option (List ℕ) };

    /// How often a put has failed: a count that never falls.
    ghost faults: { Self → ℕ };

    /// Appends a piece. Ok appends the whole piece and leaves the count of faults;
    /// SinkFailed comes only where the count rose, and then a front of the piece was appended.
    fn put(&mut self, piece: &[u8]) -> Result<(), SinkFailed>
        ensures { Writes result (written self.old) (written self.new) (faults self.old) (faults self.new) piece.now };
}
