use crate::Status;
use crate::cases::{Case, EMPTY, check, check_places, given};
use std::alloc::Global;
use std::test::Fail;

/// The smallest image: it writes `hi` and exits with 3.
const SMALLEST: [u8; 122] =
    *b"\x7f\x45\x4c\x46\x01\x01\x01\x00\x00\x00\x00\x00\x00\x00\x00\x00\x02\x00\xf3\x00\x01\x00\x00\x00\x54\x00\x01\x00\x34\x00\x00\x00\x00\x00\x00\x00\x00\x00\x00\x00\x34\x00\x20\x00\x01\x00\x00\x00\x00\x00\x00\x00\x01\x00\x00\x00\x00\x00\x00\x00\x00\x00\x01\x00\x00\x00\x01\x00\x7a\x00\x00\x00\x7a\x00\x00\x00\x05\x00\x00\x00\x00\x10\x00\x00\x13\x05\x10\x00\x97\x05\x00\x00\x93\x85\x05\x02\x13\x06\x20\x00\x93\x08\x00\x04\x73\x00\x00\x00\x13\x05\x30\x00\x93\x08\xd0\x05\x73\x00\x00\x00\x68\x69";

/// Its text.
const SMALLEST_TEXT: &[u8] =
    b"run 1\ncall 1 64 1 65656 2 0 = 0 2\nout 1 1 6869\ncall 1 93 3 65656 2 0 = end\nend exit 3\n";

/// A case whose image is refused with this line.
fn refused<'a>(image: &'a [u8], err: &'a [u8]) -> Case<'a> {
    given(image, EMPTY, Status::Image, b"", err)
}

/// A case whose words are refused.
fn words_refused<'a>(words: &'a [&'a str]) -> Case<'a> {
    Case {
        words,
        ..given(&SMALLEST, EMPTY, Status::Words, b"", b"fsu_replay: words\n")
    }
}

/// A case of the smallest image under these words, which runs.
fn asked<'a>(words: &'a [&'a str], out: &'a [u8]) -> Case<'a> {
    Case {
        words,
        ..given(&SMALLEST, EMPTY, Status::Ran, out, b"")
    }
}

/// Writes a piece into bytes, as far as they go.
fn put(bytes: &mut Vec<u8>, at: usize, piece: &[u8]) {
    for (i, byte) in piece.iter().enumerate() {
        if let Some(place) = bytes.get_mut(at.saturating_add(i)) {
            *place = *byte;
        }
    }
}

/// An image as a linker makes it: 9,000 bytes with section headers and four program headers, of which two
/// are loaded, the first with the headers and the second with more memory than file.
fn linked(alloc: Global) -> Result<Vec<u8>, Fail> {
    let mut bytes = Vec::from_elem(alloc, 0x5a, 9000)?;
    put(&mut bytes, 0, &SMALLEST[..52]);
    // the entry, the place of the section headers, four program headers, five section headers
    put(&mut bytes, 24, &[0x00, 0x02, 0x01, 0x00]);
    put(&mut bytes, 32, &[0x60, 0x22, 0x00, 0x00]);
    put(&mut bytes, 44, &[4, 0, 40, 0, 5, 0, 4, 0]);
    let headers: [[u32; 8]; 4] = [
        [0x7000_0003, 0x1100, 0, 0, 0x20, 0, 4, 1],
        [1, 0, 0x1_0000, 0x1_0000, 0x300, 0x300, 5, 0x1000],
        [1, 0x1000, 0x1_2000, 0x1_2000, 0x100, 0x800, 6, 0x1000],
        [0x6474_e551, 0, 0, 0, 0, 0, 6, 16],
    ];
    for (i, header) in headers.iter().enumerate() {
        for (k, field) in header.iter().enumerate() {
            put(
                &mut bytes,
                52usize
                    .saturating_add(i.saturating_mul(32))
                    .saturating_add(k.saturating_mul(4)),
                &field.to_le_bytes(),
            );
        }
    }
    put(&mut bytes, 0x200, &SMALLEST[84..]);
    Ok(bytes)
}

/// The smallest image with some bytes changed.
fn changed(alloc: Global, changes: &[(usize, u8)]) -> Result<Vec<u8>, Fail> {
    let mut bytes = Vec::from_slice(alloc, &SMALLEST)?;
    for (at, byte) in changes {
        if let Some(place) = bytes.get_mut(*at) {
            *place = *byte;
        }
    }
    Ok(bytes)
}

#[test]
fn the_smallest_image_runs(rt: HostRuntime) -> Result<(), Fail> {
    let alloc = rt.alloc();
    check(
        &rt,
        alloc,
        &given(&SMALLEST, EMPTY, Status::Ran, SMALLEST_TEXT, b""),
    )?;
    // other flags than the low four are not looked at
    let flags = changed(alloc, &[(36, 0x10)])?;
    check(
        &rt,
        alloc,
        &given(&flags, EMPTY, Status::Ran, SMALLEST_TEXT, b""),
    )?;
    let linked_text =
        b"run 1\ncall 1 64 1 66084 2 0 = 0 2\nout 1 1 6869\ncall 1 93 3 66084 2 0 = end\nend exit 3\n";
    check(
        &rt,
        alloc,
        &given(&linked(alloc)?, EMPTY, Status::Ran, linked_text, b""),
    )?;
    for (status, code) in [
        (Status::Ran, 0),
        (Status::Words, 2),
        (Status::ReadFault, 3),
        (Status::Image, 4),
        (Status::Journal, 5),
        (Status::WriteFault, 6),
        (Status::NoMemory, 7),
    ] {
        assert_eq!(rt; status.code(), code);
    }
    Ok(())
}

#[test]
fn refused_images(rt: HostRuntime) -> Result<(), Fail> {
    let alloc = rt.alloc();
    let header = changed(alloc, &[(44, 0), (24, 0), (25, 0), (26, 0)])?;
    let long = changed(alloc, &[(68, 123), (72, 123)])?;
    let small = changed(alloc, &[(72, 121)])?;
    let low = changed(alloc, &[(60, 0xfc), (61, 0xff), (62, 0)])?;
    let flags = changed(alloc, &[(36, 1)])?;
    check(
        &rt,
        alloc,
        &refused(&SMALLEST[..51], b"fsu_replay: image refused: Short\n"),
    )?;
    check(
        &rt,
        alloc,
        &refused(
            header.as_slice().get(..52).ok_or("short")?,
            b"fsu_replay: image refused: Entry\n",
        ),
    )?;
    check(
        &rt,
        alloc,
        &refused(&long, b"fsu_replay: image refused: SegmentOutOfFile 0\n"),
    )?;
    check(
        &rt,
        alloc,
        &refused(&small, b"fsu_replay: image refused: SizeAboveMemory 0\n"),
    )?;
    check(
        &rt,
        alloc,
        &refused(&low, b"fsu_replay: image refused: OutsideWindow 0\n"),
    )?;
    check(
        &rt,
        alloc,
        &refused(&flags, b"fsu_replay: image refused: Flags\n"),
    )
}

#[test]
fn words_and_journals(rt: HostRuntime) -> Result<(), Fail> {
    let alloc = rt.alloc();
    let words: [&[&str]; 5] = [
        &[],
        &["image"],
        &["image", "journal", "more"],
        &["-image", "journal"],
        &["image", "--steps"],
    ];
    for words in words {
        check(&rt, alloc, &words_refused(words))?;
    }
    let journals: [(&[u8], &[u8]); 3] = [
        (b"", b"fsu_replay: journal refused: Header\n"),
        (b"fsu-journal 1", b"fsu_replay: journal refused: Header\n"),
        (
            b"fsu-journal 1\n\n",
            b"fsu_replay: journal refused: Line 2\n",
        ),
    ];
    for (journal, err) in journals {
        check(
            &rt,
            alloc,
            &given(&SMALLEST, journal, Status::Journal, b"", err),
        )?;
    }
    Ok(())
}

#[test]
fn options(rt: HostRuntime) -> Result<(), Fail> {
    let alloc = rt.alloc();
    let eight = b"run 1\ncall 1 64 1 65656 2 0 = 0 2\nout 1 1 6869\nend budget\n";
    let rows: [(&[&str], &[u8]); 7] = [
        (&["image", "journal", "--budget", "0"], b"end budget\n"),
        (&["image", "journal", "--budget", "8"], eight),
        (&["image", "--budget=9", "journal"], SMALLEST_TEXT),
        (&["--quantum", "1", "image", "journal"], SMALLEST_TEXT),
        (&["image", "journal", "--mem", "65536"], SMALLEST_TEXT),
        (&["--mem=67108864", "--", "image", "journal"], SMALLEST_TEXT),
        (
            &[
                "image",
                "journal",
                "--quantum=1000",
                "--budget",
                "1000000000",
            ],
            SMALLEST_TEXT,
        ),
    ];
    for (words, out) in rows {
        check(&rt, alloc, &asked(words, out))?;
    }
    let places = b"thread 1 ready pc 0x00010074 ra 0xffffffd0 sp 0x00020000\nend budget\n";
    let words = ["image", "journal", "--budget=8", "--mem=65536"];
    check_places(&rt, alloc, &asked(&words, places))
}

/// A case of the smallest image under `--plain`, which runs.
fn plain<'a>(journal: &'a [u8], out: &'a [u8], err: &'a [u8]) -> Case<'a> {
    Case {
        words: &["image", "journal", "--plain"],
        ..given(&SMALLEST, journal, Status::Ran, out, err)
    }
}

#[test]
fn plain_text(rt: HostRuntime) -> Result<(), Fail> {
    let alloc = rt.alloc();
    check(&rt, alloc, &plain(EMPTY, b"hi", b"end exit 3\n"))?;
    // the signal comes before the write
    let early = b"fsu-journal 1\n2.0 sig 10\n";
    check(&rt, alloc, &plain(early, b"", b"end killed 10\n"))?;
    let budget = Case {
        words: &["--plain", "image", "--budget=8", "journal"],
        ..plain(EMPTY, b"hi", b"end budget\n")
    };
    check(&rt, alloc, &budget)?;
    // the text goes out in one put
    for (taken, front) in [(0u32, b"".as_slice()), (1, b"h")] {
        let failed = Case {
            failing_puts: &[(1, taken)],
            status: Status::WriteFault,
            ..plain(EMPTY, front, b"fsu_replay: cannot write\n")
        };
        check(&rt, alloc, &failed)?;
    }
    let places = b"thread 1 ready pc 0x00010074 ra 0xffffffd0 sp 0x00020000\nend budget\n";
    let words = ["image", "journal", "--plain", "--budget=8", "--mem=65536"];
    check_places(&rt, alloc, &asked(&words, places))
}

#[test]
fn refused_options(rt: HostRuntime) -> Result<(), Fail> {
    let alloc = rt.alloc();
    let rows: [&[&str]; 12] = [
        &["image", "journal", "--quantum", "0"],
        &["image", "journal", "--budget", "1000000001"],
        &["image", "journal", "--mem", "65537"],
        &["image", "journal", "--budget", "09"],
        &["image", "journal", "--budget", "9", "--budget", "9"],
        &["a"],
        &["a", "b", "--plain", "--steps"],
        &["image", "journal", "--plain", "--plain"],
        // generated pairs are not built yet
        &["--gen", "0"],
        &["--gen", "0", "--plain"],
        &["--gen", "0", "--budget", "9"],
        &["--help"],
    ];
    for words in rows {
        check(&rt, alloc, &words_refused(words))?;
    }
    // an image that begins where the least memory ends
    let high = changed(alloc, &[(62, 2)])?;
    let small = Case {
        words: &["image", "journal", "--mem", "65536"],
        ..refused(&high, b"fsu_replay: image refused: OutsideWindow 0\n")
    };
    check(&rt, alloc, &small)
}

#[test]
fn refused_lines(rt: HostRuntime) -> Result<(), Fail> {
    let alloc = rt.alloc();
    let journals: [(&[u8], &[u8]); 4] = [
        // a leading zero
        (
            b"fsu-journal 1\n01.0 tick\n",
            b"fsu_replay: journal refused: Number 2\n",
        ),
        // no last line feed
        (
            b"fsu-journal 1\n1.0 tick",
            b"fsu_replay: journal refused: Line 2\n",
        ),
        // a signal of job control
        (
            b"fsu-journal 1\n1.0 sig 19\n",
            b"fsu_replay: journal refused: Signal 2\n",
        ),
        // half a byte
        (
            b"fsu-journal 1\n1.0 data 6\n",
            b"fsu_replay: journal refused: Line 2\n",
        ),
    ];
    for (journal, err) in journals {
        check(
            &rt,
            alloc,
            &given(&SMALLEST, journal, Status::Journal, b"", err),
        )?;
    }
    Ok(())
}

#[test]
fn refused_entries(rt: HostRuntime) -> Result<(), Fail> {
    let alloc = rt.alloc();
    let journals: [(&[u8], &[u8]); 3] = [
        (
            b"fsu-journal 1\n3.0 sig 10\n2.0 tick\n",
            b"fsu_replay: journal refused: Order 3\n",
        ),
        (
            b"fsu-journal 1\n0.0 eof\n1.0 data 00\n",
            b"fsu_replay: journal refused: AfterEof 3\n",
        ),
        // a journal, whose input is not presented yet
        (
            b"fsu-journal 1\n1.0 tick\n2.0 data 00\n",
            b"fsu_replay: journal refused: Line 3\n",
        ),
    ];
    for (journal, err) in journals {
        check(
            &rt,
            alloc,
            &given(&SMALLEST, journal, Status::Journal, b"", err),
        )?;
    }
    Ok(())
}

#[test]
fn signals_from_outside(rt: HostRuntime) -> Result<(), Fail> {
    let alloc = rt.alloc();
    // after more instructions than the run makes
    let late = b"fsu-journal 1\n1000.0 sig 10\n";
    check(
        &rt,
        alloc,
        &given(&SMALLEST, late, Status::Ran, SMALLEST_TEXT, b""),
    )?;
    // after two instructions, without a handler
    let early = b"fsu-journal 1\n2.0 sig 10\n";
    let killed = b"run 1\narrive 1 1 sig 10\ndeliver 1 10 1\nend killed 10\n";
    check(
        &rt,
        alloc,
        &given(&SMALLEST, early, Status::Ran, killed, b""),
    )?;
    let places = b"thread 1 ready pc 0x0001005c ra 0xffffffd0 sp 0x00410000\nend killed 10\n";
    check_places(
        &rt,
        alloc,
        &given(&SMALLEST, early, Status::Ran, places, b""),
    )
}

#[test]
fn endings(rt: HostRuntime) -> Result<(), Fail> {
    let alloc = rt.alloc();
    // a jump by 2
    let misaligned = changed(alloc, &[(84, 0x6f), (85, 0), (86, 0x20), (87, 0)])?;
    let killed = b"run 1\nfault 1 7\ndeliver 1 7 1\nend killed 7\n";
    check(
        &rt,
        alloc,
        &given(&misaligned, EMPTY, Status::Ran, killed, b""),
    )?;
    // a jump to itself
    let endless = changed(alloc, &[(84, 0x6f), (85, 0), (86, 0), (87, 0)])?;
    check(
        &rt,
        alloc,
        &given(&endless, EMPTY, Status::Ran, b"run 1\nend budget\n", b""),
    )
}

#[test]
fn failing_loads_and_puts(rt: HostRuntime) -> Result<(), Fail> {
    let alloc = rt.alloc();
    let loads: [(&[u32], &[u8]); 2] = [
        (&[1], b"fsu_replay: cannot read image\n"),
        (&[2], b"fsu_replay: cannot read journal\n"),
    ];
    for (failing_loads, err) in loads {
        let failed = Case {
            failing_loads,
            ..given(&SMALLEST, EMPTY, Status::ReadFault, b"", err)
        };
        check(&rt, alloc, &failed)?;
    }
    // the lines of the text go out in seven puts, the out line in three of them
    let fronts = [0usize, 6, 34, 42, 46, 47, 75];
    for put in 1..=7u32 {
        for taken in [0u32, 1] {
            let Some(before) = fronts.get(put as usize - 1) else {
                return Ok(());
            };
            let Some(front) = SMALLEST_TEXT.get(..before.saturating_add(taken as usize)) else {
                return Ok(());
            };
            let failed = Case {
                failing_puts: &[(put, taken)],
                ..given(
                    &SMALLEST,
                    EMPTY,
                    Status::WriteFault,
                    front,
                    b"fsu_replay: cannot write\n",
                )
            };
            check(&rt, alloc, &failed)?;
        }
    }
    Ok(())
}

#[test]
fn places_are_told(rt: HostRuntime) -> Result<(), Fail> {
    let alloc = rt.alloc();
    let places = b"thread 1 ready pc 0x00010074 ra 0xffffffd0 sp 0x00410000\nend exit 3\n";
    check_places(
        &rt,
        alloc,
        &given(&SMALLEST, EMPTY, Status::Ran, places, b""),
    )?;
    // in place of the write's number it loads a word from a0 + 2, which is no multiple of 4
    let faulting = changed(alloc, &[(100, 0x03), (101, 0x25), (102, 0x25), (103, 0x00)])?;
    let fault =
        b"thread 1 ready pc 0x00010064 ra 0xffffffd0 sp 0x00410000\nfault 1 7 address 0x00000003\nend killed 7\n";
    check_places(
        &rt,
        alloc,
        &given(&faulting, EMPTY, Status::Ran, fault, b""),
    )?;
    let short = b"fsu_where: image refused: Short\n";
    check_places(&rt, alloc, &refused(&SMALLEST[..51], short))?;
    let front = b"thread 1 ready pc 0x00010074 ra 0xffffffd0 sp 0x00410000\nend e";
    let line = b"fsu_where: cannot write\n";
    let failed = Case {
        failing_puts: &[(2, 5)],
        ..given(&SMALLEST, EMPTY, Status::WriteFault, front, line)
    };
    check_places(&rt, alloc, &failed)
}

/// The smallest image with other code, of eleven words at most.
fn coded(alloc: Global, words: &[u32]) -> Result<Vec<u8>, Fail> {
    let mut bytes = Vec::from_elem(alloc, 0, 128)?;
    put(&mut bytes, 0, &SMALLEST[..84]);
    // the size in the file and in memory
    put(&mut bytes, 68, &[128, 0, 0, 0, 128, 0, 0, 0]);
    for (i, word) in words.iter().enumerate() {
        put(
            &mut bytes,
            84usize.saturating_add(i.saturating_mul(4)),
            &word.to_le_bytes(),
        );
    }
    Ok(bytes)
}

#[test]
fn faults_are_told(rt: HostRuntime) -> Result<(), Fail> {
    let alloc = rt.alloc();
    let faults: [(u32, &[u8]); 10] = [
        // a jump by 2
        (
            0x0020_006f,
            b"thread 1 ready pc 0x00010054 ra 0xffffffd0 sp 0x00410000\nfault 1 7 address 0x00010056\nend killed 7\n",
        ),
        // a branch by 2 that is taken
        (
            0x0000_0163,
            b"thread 1 ready pc 0x00010054 ra 0xffffffd0 sp 0x00410000\nfault 1 7 address 0x00010056\nend killed 7\n",
        ),
        // EBREAK, and a word that is no instruction
        (
            0x0010_0073,
            b"thread 1 ready pc 0x00010054 ra 0xffffffd0 sp 0x00410000\nfault 1 5 address 0x00010054\nend killed 5\n",
        ),
        (
            0,
            b"thread 1 ready pc 0x00010054 ra 0xffffffd0 sp 0x00410000\nfault 1 4 address 0x00010054\nend killed 4\n",
        ),
        // loads of a word from 0 and from 2
        (
            0x0000_2503,
            b"thread 1 ready pc 0x00010054 ra 0xffffffd0 sp 0x00410000\nfault 1 11 address 0x00000000\nend killed 11\n",
        ),
        (
            0x0020_2503,
            b"thread 1 ready pc 0x00010054 ra 0xffffffd0 sp 0x00410000\nfault 1 7 address 0x00000002\nend killed 7\n",
        ),
        // stores of a word behind the window and of half a word to 1
        (
            0x0001_2023,
            b"thread 1 ready pc 0x00010054 ra 0xffffffd0 sp 0x00410000\nfault 1 11 address 0x00410000\nend killed 11\n",
        ),
        (
            0x0000_10a3,
            b"thread 1 ready pc 0x00010054 ra 0xffffffd0 sp 0x00410000\nfault 1 7 address 0x00000001\nend killed 7\n",
        ),
        // returns of a handler and of a cleanup routine that are not due
        (
            0x0200_8067,
            b"thread 1 ready pc 0xfffffff0 ra 0xffffffd0 sp 0x00410000\nfault 1 11 address 0xfffffff0\nend killed 11\n",
        ),
        (
            0x0100_8067,
            b"thread 1 ready pc 0xffffffe0 ra 0xffffffd0 sp 0x00410000\nfault 1 11 address 0xffffffe0\nend killed 11\n",
        ),
    ];
    for (word, out) in faults {
        let image = coded(alloc, &[word])?;
        check_places(&rt, alloc, &given(&image, EMPTY, Status::Ran, out, b""))?;
    }
    Ok(())
}

#[test]
fn returns_in_a_handler(rt: HostRuntime) -> Result<(), Fail> {
    let alloc = rt.alloc();
    // in the handler of 10, a return of a first routine and one of a cleanup routine
    let returns: [(u32, &[u8]); 2] = [
        (
            0xfe00_8067,
            b"thread 1 ready pc 0xffffffd0 ra 0xfffffff0 sp 0x00410000\nfault 1 11 address 0xffffffd0\nend killed 11\n",
        ),
        (
            0xff00_8067,
            b"thread 1 ready pc 0xffffffe0 ra 0xfffffff0 sp 0x00410000\nfault 1 11 address 0xffffffe0\nend killed 11\n",
        ),
    ];
    for (word, out) in returns {
        let image = coded(
            alloc,
            &[
                0x00a0_0513,
                0x0000_0597,
                0x01c5_8593,
                0x11e0_0893,
                0x0000_0073,
                0x00a0_0513,
                0x1230_0893,
                0x0000_0073,
                word,
            ],
        )?;
        check_places(&rt, alloc, &given(&image, EMPTY, Status::Ran, out, b""))?;
    }
    Ok(())
}

#[test]
fn signals_that_are_sent_are_no_faults(rt: HostRuntime) -> Result<(), Fail> {
    let alloc = rt.alloc();
    let killed = b"thread 1 ready pc 0x00010060 ra 0xffffffd0 sp 0x00410000\nend killed 7\n";
    // it sends itself 7, and stands at a branch by 2 that is not taken, at EBREAK, and at a plain instruction
    for word in [0x0000_1163, 0x0010_0073, 0x0000_0013] {
        let image = coded(alloc, &[0x0070_0513, 0x1230_0893, 0x0000_0073, word])?;
        check_places(&rt, alloc, &given(&image, EMPTY, Status::Ran, killed, b""))?;
    }
    Ok(())
}
