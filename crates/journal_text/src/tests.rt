use super::*;
use std::alloc::{AllocError, Global};
use std::process::Abort;
use std::test::Fail;
use thread_base::{Place, Sig};

/// A text of the header and these lines.
fn text_of(alloc: Global, lines: &[u8]) -> Result<Vec<u8>, AllocError> {
    let mut text = Vec::from_slice(alloc, b"fsu-journal 1\n")?;
    text.extend_from_slice(lines)?;
    Ok(text)
}

/// The text of a refusal, or the number of entries that were read.
fn answer(alloc: Global, text: &[u8]) -> Result<String, Fail> {
    match read_journal(alloc, text) {
        Ok(journal) => Ok(format!(in alloc; "entries {}", journal.len())?),
        Err(refusal) => Ok(refusal.to_string(alloc)?),
    }
}

/// Reads texts of the header and some lines, and compares the answers.
fn expect_answers(rt: &impl Abort, alloc: Global, rows: &[(&str, &str)]) -> Result<(), Fail> {
    for &(lines, wanted) in rows {
        let text = text_of(alloc, lines.as_bytes())?;
        let found = answer(alloc, &text)?;
        assert_eq!(rt; found.as_str(), wanted, "at {lines}");
    }
    Ok(())
}

#[test]
fn a_line_of_each_refusal(rt: HostRuntime) -> Result<(), Fail> {
    let rows = [
        ("3.0 sig 10\n2.0 tick\n", "Order 3"),
        ("0.0 eof\n1.0 data 00\n", "AfterEof 3"),
        ("0.0 eof\n1.0 eof\n", "AfterEof 3"),
        ("01.0 tick\n", "Number 2"),
        ("1.00 tick\n", "Number 2"),
        ("1.0 sig 010\n", "Number 2"),
        ("1.0 tick", "Line 2"),
        ("1.0 sig 19\n", "Signal 2"),
        ("1.0 data 6\n", "Line 2"),
        ("1.0 data 6A\n", "Line 2"),
        ("1.0 data \n", "Line 2"),
        ("1.0 data\n", "Line 2"),
        ("1.0 tick \n", "Line 2"),
        ("1.0  tick\n", "Line 2"),
        ("1 tick\n", "Line 2"),
        (".0 tick\n", "Line 2"),
        ("1.0 sig -1\n", "Line 2"),
        ("1.0 tick\n\n", "Line 3"),
    ];
    expect_answers(&rt, rt.alloc(), &rows)
}

#[test]
fn the_first_refusal(rt: HostRuntime) -> Result<(), Fail> {
    let rows = [
        ("01.0 sig 19\n", "Number 2"),
        ("01.0 sig 19", "Line 2"),
        ("2.0 tick\n1.0 sig 19\n", "Signal 3"),
        ("2.0 eof\n1.0 eof\n", "Order 3"),
        ("2.0 eof\n1.0 tick\n3.0 eof\n", "Order 3"),
        ("", "entries 0"),
        ("2.0 eof\n2.0 tick\n2.1 sig 2\n", "entries 3"),
        ("1.5 tick\n1.4 tick\n", "Order 3"),
        ("1.5 tick\n2.4 tick\n", "entries 2"),
    ];
    expect_answers(&rt, rt.alloc(), &rows)
}

#[test]
fn numbers_at_their_limits(rt: HostRuntime) -> Result<(), Fail> {
    let rows = [
        ("1000000000.1000000 tick\n", "entries 1"),
        ("1000000001.0 tick\n", "Number 2"),
        ("0.1000001 tick\n", "Number 2"),
        ("4294967296.0 tick\n", "Number 2"),
        ("18446744073709551616.0 tick\n", "Number 2"),
        ("0.0 sig 0\n", "Signal 2"),
        ("0.0 sig 1\n", "entries 1"),
        ("0.0 sig 17\n", "entries 1"),
        ("0.0 sig 18\n", "Signal 2"),
        ("0.0 sig 22\n", "Signal 2"),
        ("0.0 sig 23\n", "entries 1"),
        ("0.0 sig 31\n", "entries 1"),
        ("0.0 sig 32\n", "Signal 2"),
        ("0.0 sig 4294967306\n", "Signal 2"),
    ];
    expect_answers(&rt, rt.alloc(), &rows)
}

#[test]
fn data_at_their_limits(rt: HostRuntime) -> Result<(), Fail> {
    let alloc = rt.alloc();
    for (digits, wanted) in [
        (1, "Line 2"),
        (2, "entries 1"),
        (3, "Line 2"),
        (8_192, "entries 1"),
        (8_193, "Line 2"),
        (8_194, "Line 2"),
    ] {
        let mut text = text_of(alloc, b"0.0 data ")?;
        for _ in 0..digits {
            text.push(b'0')?;
        }
        text.push(b'\n')?;
        let found = answer(alloc, &text)?;
        assert_eq!(rt; found.as_str(), wanted, "at {digits}");
    }
    Ok(())
}

#[test]
fn every_prefix(rt: HostRuntime) -> Result<(), Fail> {
    let text = b"fsu-journal 1\n44.0 sig 10\n";
    for len in 0..27 {
        let wanted = match len {
            14 => "entries 0",
            26 => "entries 1",
            0..14 => "Header",
            _ => "Line 2",
        };
        let found = answer(rt.alloc(), &text[..len])?;
        assert_eq!(rt; found.as_str(), wanted, "at {len}");
    }
    Ok(())
}

#[test]
fn the_longest_text(rt: HostRuntime) -> Result<(), Fail> {
    let alloc = rt.alloc();
    let mut text = Vec::from_elem(alloc, 0, 16_777_216)?;
    let found = answer(alloc, &text)?;
    assert_eq!(rt; found.as_str(), "Header");
    text.push(0)?;
    let found = answer(alloc, &text)?;
    assert_eq!(rt; found.as_str(), "TooLong");
    Ok(())
}

#[test]
fn printed_again(rt: HostRuntime) -> Result<(), Fail> {
    let alloc = rt.alloc();
    for lines in [
        "",
        "44.0 sig 10\n",
        "0.0 tick\n0.1 data 00ff\n5.1000000 data 6162630a\n1000000000.0 eof\n1000000000.0 sig 31\n",
    ] {
        let text = text_of(alloc, lines.as_bytes())?;
        let journal = read_journal(alloc, &text)?;
        let printed = print_journal(alloc, &journal)?;
        assert!(rt; printed.as_slice() == text.as_slice(), "at {lines}");
    }
    Ok(())
}

#[test]
fn entries_and_data(rt: HostRuntime) -> Result<(), Fail> {
    let alloc = rt.alloc();
    let text = text_of(
        alloc,
        b"0.0 tick\n0.1 data 00ff\n5.2 sig 10\n5.2 data 616263\n6.0 eof\n",
    )?;
    let journal = read_journal(alloc, &text)?;
    let wanted = [
        (0, 0, What::Tick),
        (0, 1, What::Data { start: 0, len: 2 }),
        (5, 2, What::Sig(Sig::of(10))),
        (5, 2, What::Data { start: 2, len: 3 }),
        (6, 0, What::Eof),
    ];
    assert_eq!(rt; journal.len(), 5);
    for (i, &(n, k, what)) in wanted.iter().enumerate() {
        assert!(rt; i < journal.len() as usize);
        let place = Place { n, k };
        assert_eq!(rt; journal.entry(i as u32), Entry { place, what }, "at {i}");
    }
    assert_eq!(rt; journal.bytes(), b"\x00\xffabc".as_slice());
    Ok(())
}

#[test]
fn a_million_entries(rt: HostRuntime) -> Result<(), Fail> {
    let alloc = rt.alloc();
    let mut text = text_of(alloc, b"")?;
    for _ in 0..1_000_000u32 {
        text.extend_from_slice(b"100000.0 sig 10\n")?;
    }
    let journal = read_journal(alloc, &text)?;
    assert_eq!(rt; journal.len(), 1_000_000);
    let printed = print_journal(alloc, &journal)?;
    assert!(rt; printed.as_slice() == text.as_slice());
    text.extend_from_slice(b"100000.0 sig 10\n")?;
    let found = answer(alloc, &text)?;
    assert_eq!(rt; found.as_str(), "TooMany 1000002");
    Ok(())
}
