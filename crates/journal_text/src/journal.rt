ghost use Rattle.std.specs.Prelude.{◌≡◌, ◌<◌, ◌≤◌, Some, length, slice_get};
ghost use Rattle.journal_text.specs.Valid.{IsJournal};

use crate::entry::Entry;
use std::marker::Model;

/// A journal, seen as its list of entries and the joined bytes of its data. It is within the limits of the
/// format, its places never fall, and no data or end of input follows an end of input.
#[derive(Drop)]
pub struct Journal {
    pub(crate) entries: Vec<Entry>,
    pub(crate) bytes: Vec<u8>,
}

impl Model for Journal {
    ghost use Rattle.journal_text.specs.Contents.{Contents};

    ghost Value = { Contents };

    ghost use Rattle.journal_text.specs.Valid.{IsJournal};

    ghost view = { λ j. record { entries = j.entries.items; bytes = j.bytes.items } };

    ghost invariant = { λ j. IsJournal (record { entries = j.entries.items; bytes = j.bytes.items }) };
}

impl Journal {
    /// How many entries it has, at most 1,000,000.
    pub fn len(&self) -> u32
        ensures value { result ≡ length self.now.entries }
        ensures journal { IsJournal self.now }
    {
        self.entries.len() as u32
    }

    /// Its entry at an index, which counts from 0.
    pub fn entry(&self, i: u32) -> Entry
        requires { i < length self.now.entries }
        ensures { slice_get self.now.entries i ≡ Some result }
    {
        self.entries[i as usize]
    }

    /// The joined bytes of its data.
    pub fn bytes(&self) -> &[u8]
        ensures { result.now ≡ self.now.bytes }
    {
        self.bytes.as_slice()
    }
}
