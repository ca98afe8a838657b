ghost use Rattle.std.specs.Prelude.{◌≡◌, ◌≢◌, IfOk, IfErr, OnOk, None, Some};
ghost use Rattle.journal_text.specs.Refusals.{entries_of};
ghost use Rattle.journal_text.specs.Valid.{IsJournal};
ghost use Rattle.dispatcher.specs.Arriving.{AreSignalsOrTicks, is_signal_or_tick};
ghost use Rattle.replay_cli.specs.Journal.{first_unbuilt, first_refused};

use journal_text::{Journal, JournalRefusal, What, read_journal};
use std::alloc::Global;

/// Whether an event is a signal or a tick.
fn is_signal_or_tick(what: What) -> bool
    ensures { result ≡ is_signal_or_tick what }
{
    match what {
        What::Sig(_) | What::Tick => true,
        _ => false,
    }
}

/// The refusal of the first entry that is no signal and no tick.
fn first_unbuilt(journal: &Journal) -> Option<JournalRefusal>
    ensures { result ≡ first_unbuilt 2 journal.now.entries }
{
    for i in 0..journal.len() {
        if !is_signal_or_tick(journal.entry(i).what) {
            return Some(JournalRefusal::Line(i + 2));
        }
    }
    None
}

/// The journal that bytes spell, whose entries are all signals and ticks, or the first refusal of the bytes. NoMemory
/// comes where memory runs out.
#[tactic(auto, unfolding(crate::specs::Journal::first_refused), using(crate::proofs::Built::all_pass))]
pub fn read_accepted(alloc: Global, bytes: &[u8]) -> Result<Journal, JournalRefusal>
    ensures accepted { OnOk result (first_refused bytes.now ≡ None) }
    ensures entries { IfOk result (λ j. j ≡ entries_of bytes.now) }
    ensures journal { IfOk result IsJournal }
    ensures built { IfOk result (λ j. AreSignalsOrTicks j.entries) }
    ensures refused { IfErr result (λ r. r ≢ JournalRefusal.NoMemory → first_refused bytes.now ≡ Some r) }
{
    let journal = read_journal(alloc, bytes)?;
    match first_unbuilt(&journal) {
        None => Ok(journal),
        Some(refusal) => Err(refusal),
    }
}
