use crate::{Files, LoadRefusal, MemFiles, MemSink, Sink, SureSink, Words};
use std::test::Fail;

const PIECES: [&[u8]; 3] = [b"ab", b"cd", b"e"];

#[test]
fn keeps_fails_and_runs_out(rt: HostRuntime) -> Result<(), Fail> {
    let alloc = rt.alloc();
    let rows: [(u32, &[(u32, u32)], [bool; 3], &[u8]); 6] = [
        (9, &[], [true, true, true], b"abcde"),
        (9, &[(2, 0)], [true, false, true], b"abe"),
        (9, &[(2, 1)], [true, false, true], b"abce"),
        (9, &[(1, 7), (3, 0)], [false, true, false], b"abcd"),
        (3, &[], [true, true, true], b"abc"),
        (0, &[(3, 1)], [true, true, false], b""),
    ];
    for (row, (room, fails, answers, kept)) in rows.iter().enumerate() {
        let mut sink = MemSink::new(alloc, *room, fails)?;
        for (piece, answer) in PIECES.iter().zip(answers) {
            assert_eq!(rt; sink.put(piece).is_ok(), *answer, "row {row}");
        }
        assert_eq!(rt; sink.bytes(), *kept, "row {row}");
    }
    for (room, kept) in [(5u32, b"abcde".as_slice()), (4, b"abcd")] {
        let mut sink = SureSink::new(alloc, room)?;
        for piece in PIECES {
            assert_eq!(rt; sink.put(piece), Ok(()), "room {room}");
        }
        assert_eq!(rt; sink.bytes(), kept, "room {room}");
    }
    Ok(())
}

#[test]
fn loads_in_turn(rt: HostRuntime) -> Result<(), Fail> {
    let alloc = rt.alloc();
    let mut files = MemFiles::new(alloc, &[2])?;
    files.add("image", b"12345")?;
    files.add("empty", b"")?;
    let rows: [(&str, usize, Option<&[u8]>); 6] = [
        ("image", 9, Some(b"12345")),
        ("image", 9, None),
        ("journal", 9, None),
        ("image", 4, Some(b"12345")),
        ("image", 2, Some(b"123")),
        ("empty", 0, Some(b"")),
    ];
    for (row, (name, most, bytes)) in rows.iter().enumerate() {
        let answer = files.load(alloc, name, *most);
        match bytes {
            Some(bytes) => assert_eq!(rt; answer?.as_slice(), *bytes, "row {row}"),
            None => assert!(rt; matches!(answer, Err(LoadRefusal::Failed)), "row {row}"),
        }
    }
    files.add("image", b"new")?;
    assert_eq!(rt;
        files.load(alloc, "image", 9)?.as_slice(),
        b"new".as_slice()
    );
    Ok(())
}

#[test]
fn keeps_words_in_order(rt: HostRuntime) -> Result<(), Fail> {
    let mut words = Words::new(rt.alloc());
    let given = ["image", "", "--mem", "été"];
    for word in given {
        words.push(word)?;
    }
    assert_eq!(rt; words.len(), given.len());
    for (i, word) in given.iter().enumerate() {
        if i < words.len() {
            assert_eq!(rt; words.word(i), *word, "word {i}");
        }
    }
    Ok(())
}
