ghost use Rattle.std.specs.Prelude.{◌≡◌, ◌≢◌, ◌<◌, ◌≤◌, ◌+◌, ◌^◌, OnOk, IfOk, IfErr, length, None, Some};
ghost use Rattle.journal_text.specs.Contents.{empty, is_before_last};
ghost use Rattle.journal_text.specs.Lines.{lines};
ghost use Rattle.journal_text.specs.Refusals.{parts_refusal, with_parts, first_bad_line, with_lines};
ghost use Rattle.journal_text.specs.Valid.{IsJournal};

use crate::entry::Entry;
use crate::journal::Journal;
use crate::refusal::JournalRefusal;
use crate::written::Written;
use std::alloc::{AllocError, Global};
use std::marker::Model;
use thread_base::Place;

/// The most entries of a journal.
const MOST: usize = 1_000_000;

/// What was read of a journal.
#[derive(Drop)]
pub struct Draft {
    entries: Vec<Entry>,
    bytes: Vec<u8>,
    ended: bool,
}

impl Model for Draft {
    ghost use Rattle.std.specs.Prelude.{◌≡◌};
    ghost use Rattle.journal_text.specs.Contents.{Contents, has_eof};

    ghost Value = { Contents };

    ghost view = { λ d. record { entries = d.entries.items; bytes = d.bytes.items } };

    ghost invariant = { λ d. d.ended ≡ has_eof d.entries.items };
}

impl Draft {
    /// Nothing is read yet.
    pub fn new(alloc: Global) -> Draft
        ensures { result ≡ empty }
    {
        Draft {
            entries: Vec::new(alloc),
            bytes: Vec::new(alloc),
            ended: false,
        }
    }

    /// The number of the next line.
    pub fn next_line(&self) -> u32
        requires { length self.now.entries ≤ 16777216 }
        ensures { result ≡ length self.now.entries + 2 }
    {
        self.entries.len() as u32 + 2
    }

    /// Whether a place comes before that of the last entry.
    fn is_out_of_order(&self, place: Place) -> bool
        ensures { result ≡ is_before_last place self.now.entries }
    {
        match self.entries.as_slice().last() {
            Some(last) => place < last.place,
            None => false,
        }
    }

    /// The refusal of the next line.
    #[tactic(auto, unfolding(crate::specs::Refusals::parts_refusal))]
    pub fn refusal(&self, written: &Written) -> Option<JournalRefusal>
        requires { length self.now.entries ≤ 16777216 }
        ensures { result ≡ parts_refusal self.now written.now }
    {
        let line = self.next_line();
        if !written.is_form() {
            return Some(JournalRefusal::Line(line));
        }
        if written.has_bad_number() {
            return Some(JournalRefusal::Number(line));
        }
        if written.has_bad_signal() {
            return Some(JournalRefusal::Signal(line));
        }
        if self.is_out_of_order(written.place()) {
            return Some(JournalRefusal::Order(line));
        }
        if written.is_input() && self.ended {
            return Some(JournalRefusal::AfterEof(line));
        }
        if self.entries.len() >= MOST {
            return Some(JournalRefusal::TooMany(line));
        }
        None
    }

    /// Takes the entry of the next line, which has no refusal.
    pub fn push(&mut self, written: &Written) -> Result<(), AllocError>
        requires good { parts_refusal self.old written.now ≡ None }
        requires room { length self.old.bytes + length written.now.event < 2 ^ 32 }
        ensures grown { OnOk result (self.new ≡ with_parts self.old written.now) }
        ensures few { OnOk result (length self.new.entries ≡ length self.old.entries + 1) }
        ensures short { OnOk result (length self.new.bytes ≤ length self.old.bytes + length written.now.event) }
    {
        let entry = Entry {
            place: written.place(),
            what: written.what(self.bytes.len() as u32),
        };
        let ended = self.ended || entry.what.is_eof();
        written.put_data(&mut self.bytes)?;
        self.entries.push(entry)?;
        self.ended = ended;
        Ok(())
    }

    /// The journal, where all was read.
    pub fn finish(self) -> Journal
        requires { IsJournal self }
        ensures { result ≡ self }
    {
        let Draft { entries, bytes, .. } = self;
        Journal { entries, bytes }
    }
}
