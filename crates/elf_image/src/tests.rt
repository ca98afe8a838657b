ghost use Rattle.std.specs.Prelude.{◌≡◌, ◌<◌, ◌≤◌, ◌^◌, IfOk, length, vec_len};

use super::*;
use byteorder::{ByteOrder, LittleEndian};
use rv_exec::Memory;
use std::alloc::{AllocError, Global};
use std::process::Abort;
use std::test::Fail;

/// The smallest image, which writes "hi" and exits with 3: the file's header, one program header of the
/// whole file at 0x10000, the nine words of the program and its text.
const SMALLEST: [u8; 122] = *b"\x7fELF\x01\x01\x01\0\0\0\0\0\0\0\0\0\
    \x02\0\xf3\0\x01\0\0\0\x54\0\x01\0\x34\0\0\0\0\0\0\0\0\0\0\0\x34\0\x20\0\x01\0\0\0\0\0\0\0\
    \x01\0\0\0\0\0\0\0\0\0\x01\0\0\0\x01\0\x7a\0\0\0\x7a\0\0\0\x05\0\0\0\0\x10\0\0\
    \x13\x05\x10\0\x97\x05\0\0\x93\x85\x05\x02\x13\x06\x20\0\x93\x08\0\x04\x73\0\0\0\
    \x13\x05\x30\0\x93\x08\xd0\x05\x73\0\0\0hi";

/// The text of a file's first refusal for a window of 65,536 bytes, or the entry of an image.
fn answer(alloc: Global, file: &[u8]) -> Result<String, Fail> {
    let mut mem = Memory::new(alloc, 65_536)?;
    match load(file, &mut mem) {
        Ok(entry) => Ok(format!(in alloc; "entry {}", entry.0)?),
        Err(refusal) => Ok(refusal.to_string(alloc)?),
    }
}

/// The smallest image with other bytes at some places.
fn edited(rt: &impl Abort, edits: &[(usize, u8)]) -> [u8; 122] {
    let mut file = SMALLEST;
    for &(at, byte) in edits {
        assert!(rt; at < file.len());
        file[at] = byte;
    }
    file
}

/// This many zeros.
fn zeros(alloc: Global, len: usize) -> Result<Vec<u8>, AllocError>
    ensures { IfOk result (λ v. vec_len v ≡ len) }
{
    Vec::from_elem(alloc, 0, len)
}

/// A file of `len` bytes with section headers at its end: the file's header, these program headers (type,
/// offset, vaddr, filesz, memsz), the program and text of the smallest image, then bytes 0xaa.
fn linked(alloc: Global, len: usize, headers: &[[u32; 5]]) -> Result<Vec<u8>, Fail>
    requires few { length headers.now ≤ 64 }
    requires room { 1000 ≤ len }
    requires short { len < 2 ^ 32 }
{
    let program = 52 + 32 * headers.len() as u32;
    let mut head = [0; 52];
    head.copy_from_slice(&SMALLEST[..52]);
    LittleEndian::write_u32(&mut head[24..], 0x1_0000 + program);
    LittleEndian::write_u32(&mut head[32..], len as u32 - 1_000);
    LittleEndian::write_u16(&mut head[44..], headers.len() as u16);
    LittleEndian::write_u16(&mut head[46..], 40);
    LittleEndian::write_u16(&mut head[48..], 25);
    let mut file = Vec::new(alloc);
    file.extend_from_slice(&head)?;
    for &[kind, offset, vaddr, filesz, memsz] in headers {
        for word in [kind, offset, vaddr, vaddr, filesz, memsz, 5, 4_096] {
            file.extend_from_slice(&word.to_le_bytes())?;
        }
    }
    file.extend_from_slice(&SMALLEST[84..])?;
    file.resize(len, 0xaa)?;
    Ok(file)
}

/// Loads an image into a window of 65,536 bytes, and compares its entry, and words at addresses.
fn expect_words(
    rt: &impl Abort,
    alloc: Global,
    file: &[u8],
    entry: u32,
    words: &[(u32, u32)],
) -> Result<(), Fail> {
    let mut mem = Memory::new(alloc, 65_536)?;
    assert_eq!(rt; load(file, &mut mem), Ok(EntryPoint(entry)));
    for &(addr, word) in words {
        assert_eq!(rt; mem.read(addr, 4), Some(word), "at {addr}");
    }
    Ok(())
}

#[test]
fn start_memories(rt: HostRuntime) -> Result<(), Fail> {
    let alloc = rt.alloc();
    let smallest = [
        (65_536, 0x464c_457f),
        (65_620, 0x0010_0513),
        (65_624, 0x0000_0597),
        (65_628, 0x0205_8593),
        (65_632, 0x0020_0613),
        (65_636, 0x0400_0893),
        (65_640, 0x0000_0073),
        (65_644, 0x0030_0513),
        (65_648, 0x05d0_0893),
        (65_652, 0x0000_0073),
        (65_656, 0x0000_6968),
        (65_660, 0),
        (131_068, 0),
    ];
    expect_words(&rt, alloc, &SMALLEST, 65_620, &smallest)?;

    // A usual linker's file: attributes, code with the headers, data with its zeros, and the stack's rights.
    let file = linked(
        alloc,
        9_000,
        &[
            [0x7000_0003, 7_900, 0, 46, 0],
            [1, 0, 0x1_0000, 218, 218],
            [1, 4_096, 0x1_2000, 8, 64],
            [0x6474_e551, 0, 0, 0, 0],
        ],
    )?;
    let words = [
        (65_716, 0x0010_0513),
        (65_752, 0x0000_6968),
        (0x1_2000, 0xaaaa_aaaa),
        (0x1_2004, 0xaaaa_aaaa),
        (0x1_2008, 0),
        (0x1_203c, 0),
    ];
    expect_words(&rt, alloc, &file, 65_716, &words)?;

    // Later segments, with their zeros, over earlier ones.
    let file = linked(
        alloc,
        9_000,
        &[
            [1, 0, 0x1_0000, 4_096, 4_096],
            [1, 0, 0x1_0200, 6, 16],
            [1, 4_096, 0x1_0208, 2, 2],
        ],
    )?;
    let words = [
        (0x1_01fc, 0xaaaa_aaaa),
        (0x1_0200, 0x464c_457f),
        (0x1_0204, 0x0000_0101),
        (0x1_0208, 0x0000_aaaa),
        (0x1_020c, 0),
        (0x1_0210, 0xaaaa_aaaa),
    ];
    expect_words(&rt, alloc, &file, 65_684, &words)
}

#[test]
fn least_indexes(rt: HostRuntime) -> Result<(), Fail> {
    let whole = [1, 0, 0x1_0000, 9_000, 9_000];
    let rows: [([u32; 5], [u32; 5], &str); 9] = [
        (whole, whole, "entry 65652"),
        (whole, [4, 9_999, 0, 9_999, 9], "entry 65652"),
        (whole, [1, 9_999, 0, 0, 0], "entry 65652"),
        (whole, [3, 0, 0, 0, 0], "Dynamic 1"),
        ([1, 8_999, 0, 2, 1], [2, 0, 0, 0, 0], "Dynamic 1"),
        (whole, [1, 8_999, 0, 2, 1], "SegmentOutOfFile 1"),
        ([1, 0, 0, 2, 2], [1, 0, 0x1_0000, 2, 1], "SizeAboveMemory 1"),
        (whole, [1, 0, 0x1_fffc, 4, 5], "OutsideWindow 1"),
        (
            [1, 0, 0xfffc, 4, 5],
            [1, 0, 0x1_fffc, 4, 5],
            "OutsideWindow 0",
        ),
    ];
    for (first, second, want) in rows {
        let file = linked(rt.alloc(), 9_000, &[first, second])?;
        assert_eq!(rt;
            answer(rt.alloc(), &file)?.as_str(),
            want,
            "{first:?} {second:?}"
        );
    }
    Ok(())
}

#[test]
fn first_refusals(rt: HostRuntime) -> Result<(), Fail> {
    let rows: [(usize, &[(usize, u8)], &str); 30] = [
        (122, &[], "entry 65620"),
        (51, &[], "Short"),
        (122, &[(3, b'G')], "Magic"),
        (122, &[(4, 2), (18, 62)], "Class"),
        (122, &[(5, 2)], "Order"),
        (122, &[(6, 0)], "Version"),
        (122, &[(20, 2), (16, 3)], "Version"),
        (122, &[(16, 3), (18, 62)], "FileType"),
        (122, &[(18, 62)], "Machine"),
        (122, &[(36, 1)], "Flags"),
        (122, &[(36, 8), (42, 40)], "Flags"),
        (122, &[(36, 0x10)], "entry 65620"),
        (122, &[(42, 40), (44, 65)], "HeaderSize"),
        (122, &[(44, 65)], "SegmentCount"),
        (122, &[(44, 64)], "TableOutOfFile"),
        (83, &[], "TableOutOfFile"),
        (52, &[(44, 0), (24, 0), (26, 0)], "Entry"),
        (52, &[(44, 0), (24, 0), (26, 0), (42, 0)], "Entry"),
        (52, &[(44, 0)], "entry 65620"),
        (122, &[(52, 2)], "Dynamic 0"),
        (84, &[(52, 3)], "Dynamic 0"),
        (122, &[(68, 123), (72, 123)], "SegmentOutOfFile 0"),
        (121, &[(72, 121)], "SegmentOutOfFile 0"),
        (122, &[(72, 121)], "SizeAboveMemory 0"),
        (122, &[(60, 0xfc), (61, 0xff), (62, 0)], "OutsideWindow 0"),
        (122, &[(62, 2)], "OutsideWindow 0"),
        (122, &[(74, 1)], "OutsideWindow 0"),
        (122, &[(24, 86)], "Entry"),
        (122, &[(26, 0)], "Entry"),
        (122, &[(24, 0), (26, 2)], "Entry"),
    ];
    for (len, edits, want) in rows {
        let file = edited(&rt, edits);
        let file = file.get(..len).expect(&rt, "at most the whole file");
        assert_eq!(rt; answer(rt.alloc(), file)?.as_str(), want, "{len} {edits:?}");
    }
    assert_eq!(rt;
        answer(rt.alloc(), &zeros(rt.alloc(), 16_777_216)?)?.as_str(),
        "Magic"
    );
    assert_eq!(rt;
        answer(rt.alloc(), &zeros(rt.alloc(), 16_777_217)?)?.as_str(),
        "TooLong"
    );
    Ok(())
}
