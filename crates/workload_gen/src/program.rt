//! Programs of a few items, and the replay of one under a journal.

use crate::{sheet, sys_words};
use replay_cli::{Status, replay};
use replay_io::{MemFiles, MemSink, Words};
use std::alloc::Global;
use std::test::Fail;

/// An item of a sheet program.
#[derive(Clone, Copy)]
pub enum Item {
    /// A call: its number, and a0 to a3.
    Sys(u32, [u32; 4]),
    /// A return to the address in ra.
    Ret,
    /// One instruction.
    Word(u32),
    /// A label: the next item stands at this address.
    At(u32),
}

/// The call self.
pub const SELF: Item = Item::Sys(260, [0, 0, 0, 0]);

/// The call yield.
pub const YIELD: Item = Item::Sys(261, [0, 0, 0, 0]);

/// The exit of the process with 0.
pub const END: Item = Item::Sys(93, [0, 0, 0, 0]);

/// The line with which each journal begins; alone it is the journal without entries.
pub const HEADER: &[u8] = b"fsu-journal 1\n";

/// A row: a program, item by item, and the text of its run under the journal of the header alone.
#[derive(Clone, Copy)]
pub struct Row<'a> {
    pub items: &'a [Item],
    pub text: &'a [u8],
}

/// A row with entries: a program, the lines of a journal after its header, and the text of the run under that journal.
#[derive(Clone, Copy)]
pub struct JournalRow<'a> {
    pub items: &'a [Item],
    pub entries: &'a [u8],
    pub text: &'a [u8],
}

/// The sheet of a program. It is an error where a label does not stand where it says, where the program is longer
/// than a sheet, and where memory ran out.
pub fn image_of(alloc: Global, items: &[Item]) -> Result<Vec<u8>, Fail> {
    let mut code = Vec::new(alloc);
    for item in items {
        match item {
            Item::Sys(number, args) => code.extend_from_slice(&sys_words(*number, *args))?,
            Item::Ret => code.push(0x0000_8067)?,
            Item::Word(word) => code.push(*word)?,
            Item::At(address) => {
                let here = code.len().saturating_mul(4).saturating_add(65_620);
                if here != *address as usize {
                    return Err("a label stands elsewhere".into());
                }
            }
        }
    }
    if code.len() > 10_000 {
        return Err("the program is too long".into());
    }
    Ok(sheet(alloc, &code)?)
}

/// The journal with these lines of entries.
fn journal_of(alloc: Global, entries: &[u8]) -> Result<Vec<u8>, Fail> {
    let mut journal = Vec::new(alloc);
    journal.extend_from_slice(HEADER)?;
    journal.extend_from_slice(entries)?;
    Ok(journal)
}

/// Replays an image under a journal with the words of some options; the sink with its text. It is an error where the
/// replay does not run, and where memory ran out.
fn output_with(
    alloc: Global,
    options: &[&str],
    image: &[u8],
    journal: &[u8],
) -> Result<MemSink, Fail> {
    let mut words = Words::new(alloc);
    words.push("image")?;
    words.push("journal")?;
    for option in options {
        words.push(option)?;
    }
    let mut files = MemFiles::new(alloc, &[])?;
    files.add("image", image)?;
    files.add("journal", journal)?;
    let mut out = MemSink::new(alloc, 2_000_000, &[])?;
    let mut err = MemSink::new(alloc, 4096, &[])?;
    match replay(alloc, &words, &mut files, &mut out, &mut err) {
        Status::Ran => Ok(out),
        _ => Err("the replay did not run".into()),
    }
}

/// Replays an image under a journal without options; the sink with its text. It is an error where the replay does not
/// run, and where memory ran out.
pub fn output_of(alloc: Global, image: &[u8], journal: &[u8]) -> Result<MemSink, Fail> {
    output_with(alloc, &[], image, journal)
}

/// Whether the replay of a program under a journal with the words of some options has this text.
fn has_text(
    alloc: Global,
    options: &[&str],
    items: &[Item],
    journal: &[u8],
    text: &[u8],
) -> Result<bool, Fail> {
    let image = image_of(alloc, items)?;
    let out = output_with(alloc, options, &image, journal)?;
    Ok(out.bytes() == text)
}

/// The first row, from 0, whose replay has another text; None where each has its own.
pub fn first_other(alloc: Global, rows: &[Row<'_>]) -> Result<Option<usize>, Fail> {
    for (index, row) in rows.iter().enumerate() {
        if !has_text(alloc, &[], row.items, HEADER, row.text)? {
            return Ok(Some(index));
        }
    }
    Ok(None)
}

/// The first row with entries, from 0, whose replay has another text; None where each has its own.
pub fn first_other_under(alloc: Global, rows: &[JournalRow<'_>]) -> Result<Option<usize>, Fail> {
    first_other_with(alloc, &[], rows)
}

/// The first row with entries, from 0, whose replay with the words of some options has another text; None where each
/// has its own.
pub fn first_other_with(
    alloc: Global,
    options: &[&str],
    rows: &[JournalRow<'_>],
) -> Result<Option<usize>, Fail> {
    for (index, row) in rows.iter().enumerate() {
        let journal = journal_of(alloc, row.entries)?;
        if !has_text(alloc, options, row.items, &journal, row.text)? {
            return Ok(Some(index));
        }
    }
    Ok(None)
}
