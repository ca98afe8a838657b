ghost use Rattle.std.specs.Prelude.{◌≡◌, ◌≢◌, ◌<◌, ◌≤◌, ◌+◌, ◌^◌, ◌∷◌, [], true, false, OnOk, IfOk, IfErr, IfSome, IfNone, length, None, Some};
ghost use Rattle.journal_text.specs.Contents.{empty};
ghost use Rattle.journal_text.specs.Lines.{lines};
ghost use Rattle.journal_text.specs.Refusals.{first_bad_line, with_lines, first_bad, entries_of};
ghost use Rattle.journal_text.specs.Spelling.{spell};
ghost use Rattle.journal_text.specs.Valid.{IsJournal};

use crate::draft::Draft;
use crate::journal::Journal;
use crate::refusal::JournalRefusal;
use crate::written::{Written, cut_line};
use std::alloc::Global;

/// The first line.
const HEADER: &[u8] = b"fsu-journal 1\n";

/// The most bytes of a journal's text.
const MOST: usize = 16_777_216;

/// Reads a line, and gives the text after it.
fn read_line<'a>(draft: &mut Draft, text: &'a [u8]) -> Result<&'a [u8], JournalRefusal>
    requires some { 0 < length text.now }
    requires room { length draft.old.entries + length draft.old.bytes + length text.now ≤ 16777216 }
    ensures bad { IfOk result (λ rest. first_bad_line draft.old (lines text.now) ≡ first_bad_line draft.new (lines rest.now)) }
    ensures entries { IfOk result (λ rest. with_lines draft.old (lines text.now) ≡ with_lines draft.new (lines rest.now)) }
    ensures shorter { IfOk result (λ rest. length rest.now < length text.now) }
    ensures room { IfOk result (λ rest. length draft.new.entries + length draft.new.bytes + length rest.now
        ≤ length draft.old.entries + length draft.old.bytes + length text.now) }
    ensures refused { IfErr result (λ r. r ≢ JournalRefusal.NoMemory → first_bad_line draft.old (lines text.now) ≡ Some r) }
{
    let Some((line, rest)) = cut_line(text) else {
        return Err(JournalRefusal::Line(draft.next_line()));
    };
    let written = Written::cut(line);
    if let Some(refusal) = draft.refusal(&written) {
        return Err(refusal);
    }
    if draft.push(&written).is_err() {
        return Err(JournalRefusal::NoMemory);
    }
    Ok(rest)
}

/// Reads the lines after the header.
fn read_lines(alloc: Global, text: &[u8]) -> Result<Draft, JournalRefusal>
    requires { length text.now ≤ 16777216 }
    ensures good { OnOk result (first_bad_line empty (lines text.now) ≡ None) }
    ensures entries { IfOk result (λ draft. draft ≡ with_lines empty (lines text.now)) }
    ensures refused { IfErr result (λ r. r ≢ JournalRefusal.NoMemory → first_bad_line empty (lines text.now) ≡ Some r) }
{
    let mut draft = Draft::new(alloc);
    let mut rest = text;
    while !rest.is_empty() {
        rest = read_line(&mut draft, rest)?;
    }
    Ok(draft)
}

/// The lines after the header.
#[tactic(auto, unfolding(crate::specs::Refusals::first_bad, crate::specs::Refusals::entries_of), using(std::proofs::lemmas::List::take_rest))]
fn behind_header(bytes: &[u8]) -> Result<&[u8], JournalRefusal>
    ensures bad { IfOk result (λ text. first_bad bytes.now ≡ first_bad_line empty (lines text.now)) }
    ensures entries { IfOk result (λ text. entries_of bytes.now ≡ with_lines empty (lines text.now)) }
    ensures short { IfOk result (λ text. length text.now ≤ 16777216) }
    ensures refused { IfErr result (λ r. first_bad bytes.now ≡ Some r) }
{
    if bytes.len() > MOST {
        return Err(JournalRefusal::TooLong);
    }
    if !bytes.starts_with(HEADER) {
        return Err(JournalRefusal::Header);
    }
    Ok(&bytes[HEADER.len()..])
}

/// Reads a journal of this project's format, version 1. The answer is the journal whose one text the bytes
/// are, or the first refusal of the bytes. NoMemory comes where memory runs out.
pub fn read_journal(alloc: Global, bytes: &[u8]) -> Result<Journal, JournalRefusal>
    // What is read is a journal, and the bytes are its one text.
    ensures accepted { IfOk result (λ j. bytes.now ≡ spell j) }
    ensures journal { IfOk result IsJournal }
    ensures entries { IfOk result (λ j. j ≡ entries_of bytes.now) }
    ensures good { OnOk result (first_bad bytes.now ≡ None) }

    // Each refusal but NoMemory is the first of the bytes.
    ensures refused { IfErr result (λ r. r ≢ JournalRefusal.NoMemory → first_bad bytes.now ≡ Some r) }
{
    let text = behind_header(bytes)?;
    let draft = read_lines(alloc, text)?;
    Ok(draft.finish())
}
