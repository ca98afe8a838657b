ghost use Rattle.std.specs.Prelude.{◌≡◌, ◌<◌, ◌≤◌, ◌+◌, ◌++◌, length};
ghost use Rattle.replay_io.specs.Writing.{Writes};
ghost use Rattle.posix_model.specs.Lines.{count_line, count_lines};

use crate::line::put_line;
use replay_io::{Sink, SinkFailed};

/// Writes the line of a signal's count, where it is not 0.
#[tactic(auto, using(replay_io::proofs::WritingLemmas::writes_nothing))]
fn put_count<O: Sink>(
    word: &[u8],
    counts: &[u64; 32],
    sig: usize,
    out: &mut O,
) -> Result<(), SinkFailed>
    requires short { length word.now ≤ 8 }
    requires signal { sig < 32 }
    ensures { Writes result (O.written out.old) (O.written out.new) (O.faults out.old) (O.faults out.new) (count_line word.now counts.now sig) }
{
    let count = counts[sig];
    if count == 0 {
        return Ok(());
    }
    put_line(word, &[sig as u64, count], out)
}

/// Writes a line for each signal whose count is not 0, by signal.
pub fn put_counts_under<O: Sink>(
    word: &[u8],
    counts: &[u64; 32],
    out: &mut O,
) -> Result<(), SinkFailed>
    requires { length word.now ≤ 8 }
    ensures { Writes result (O.written out.old) (O.written out.new) (O.faults out.old) (O.faults out.new) (count_lines word.now counts.now) }
{
    for sig in 0..32usize {
        put_count(word, counts, sig, out)?;
    }
    Ok(())
}
