ghost use Rattle.std.specs.Prelude.{◌≡◌, ◌≤◌, ◌<◌, ◌+◌, ◌++◌, ◌∷◌, [], OnOk, IfOk, length, decimal, take, drop};
ghost use Rattle.std.specs.List.{flat_map};
ghost use Rattle.journal_text.specs.Spelling.{hex_digit, hex, event_text, entry_line, spell};
ghost use Rattle.journal_text.specs.Contents.{IsInside, AreInside};

use crate::entry::{Entry, What};
use crate::journal::Journal;
use itoa::Buffer;
use std::alloc::{AllocError, Global};
use thread_base::NoMemory;

/// A digit of lower-case hexadecimal.
fn hex_digit(n: u8) -> u8
    requires { n ≤ 15 }
    ensures { result ≡ hex_digit n }
{
    if n < 10 { b'0' + n } else { 87 + n }
}

/// Appends a number in decimal digits.
fn put_number(text: &mut Vec<u8>, n: u64) -> Result<(), AllocError>
    ensures { OnOk result (text.new.items ≡ text.old.items ++ decimal n) }
{
    let mut buffer = Buffer::new();
    text.extend_from_slice(buffer.format(n).as_bytes())?;
    Ok(())
}

/// Appends bytes in hexadecimal.
fn put_hex(text: &mut Vec<u8>, bytes: &[u8]) -> Result<(), AllocError>
    ensures { OnOk result (text.new.items ≡ text.old.items ++ hex bytes.now) }
{
    for b in bytes {
        text.extend_from_slice(&[hex_digit(*b / 16), hex_digit(*b % 16)])?;
    }
    Ok(())
}

/// Appends an event; the bytes are the joined data.
fn put_event(text: &mut Vec<u8>, bytes: &[u8], what: What) -> Result<(), AllocError>
    requires { IsInside (length bytes.now) what }
    ensures { OnOk result (text.new.items ≡ text.old.items ++ event_text bytes.now what) }
{
    match what {
        What::Sig(sig) => {
            text.extend_from_slice(b"sig ")?;
            put_number(text, u64::from(sig.number()))
        }
        What::Tick => text.extend_from_slice(b"tick"),
        What::Data { start, len } => {
            text.extend_from_slice(b"data ")?;
            let start = start as usize;
            put_hex(text, &bytes[start..start + len as usize])
        }
        What::Eof => text.extend_from_slice(b"eof"),
    }
}

/// Appends the line of an entry.
fn put_entry(text: &mut Vec<u8>, bytes: &[u8], entry: Entry) -> Result<(), AllocError>
    requires { IsInside (length bytes.now) entry.what }
    ensures { OnOk result (text.new.items ≡ text.old.items ++ entry_line bytes.now entry) }
{
    put_number(text, entry.place.n)?;
    text.extend_from_slice(b".")?;
    put_number(text, u64::from(entry.place.k))?;
    text.extend_from_slice(b" ")?;
    put_event(text, bytes, entry.what)?;
    text.extend_from_slice(b"\n")
}

/// Appends the lines of entries.
fn put_entries(text: &mut Vec<u8>, bytes: &[u8], entries: &[Entry]) -> Result<(), AllocError>
    requires { AreInside (length bytes.now) entries.now }
    ensures { OnOk result (text.new.items ≡ text.old.items ++ flat_map (entry_line bytes.now) entries.now) }
{
    for entry in entries {
        put_entry(text, bytes, *entry)?;
    }
    Ok(())
}

/// The text of a journal.
fn text_of(alloc: Global, j: &Journal) -> Result<Vec<u8>, AllocError>
    ensures { IfOk result (λ text. text.items ≡ spell j.now) }
{
    let mut text = Vec::from_slice(alloc, b"fsu-journal 1\n")?;
    put_entries(&mut text, &j.bytes, &j.entries)?;
    Ok(text)
}

/// The one text of a journal. NoMemory comes where memory runs out.
pub fn print_journal(alloc: Global, j: &Journal) -> Result<Vec<u8>, NoMemory>
    ensures printed { IfOk result (λ text. text.items ≡ spell j.now) }
{
    text_of(alloc, j).map_err(|_| NoMemory)
}
