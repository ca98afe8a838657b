use super::*;
use elf_image::{EntryPoint, load};
use rv_exec::Memory;
use std::alloc::Global;
use std::test::Fail;

/// The headers of an image of 122 bytes, and the nine words of its program.
const HEADERS: [u8; 84] = *b"\x7fELF\x01\x01\x01\0\0\0\0\0\0\0\0\0\
    \x02\0\xf3\0\x01\0\0\0\x54\0\x01\0\x34\0\0\0\0\0\0\0\0\0\0\0\x34\0\x20\0\x01\0\0\0\0\0\0\0\
    \x01\0\0\0\0\0\0\0\0\0\x01\0\0\0\x01\0\x7a\0\0\0\x7a\0\0\0\x05\0\0\0\0\x10\0\0";

const PROGRAM: [u8; 36] = *b"\x13\x05\x10\0\x97\x05\0\0\x93\x85\x05\x02\x13\x06\x20\0\x93\x08\0\x04\
    \x73\0\0\0\x13\x05\x30\0\x93\x08\xd0\x05\x73\0\0\0";

/// The same words as numbers, and its text "hi" with two zeros.
const CODE: [u32; 10] = [
    0x0010_0513,
    0x0000_0597,
    0x0205_8593,
    0x0020_0613,
    0x0400_0893,
    0x0000_0073,
    0x0030_0513,
    0x05d0_0893,
    0x0000_0073,
    0x0000_6968,
];

#[test]
fn calls_and_sheets(rt: HostRuntime) -> Result<(), Fail> {
    // The pairs by the manual's encodings: lui is upper << 12 | rd << 7 | 0x37, and addi is
    // (lower & 0xfff) << 20 | rd << 15 | rd << 7 | 0x13.
    let rows = [
        (
            256,
            [65_796, 7, 131_072, 0],
            [
                0x0001_0537,
                0x1045_0513,
                0x0000_05b7,
                0x0075_8593,
                0x0002_0637,
                0x0006_0613,
                0x0000_06b7,
                0x0006_8693,
                0x0000_08b7,
                0x1008_8893,
                0x0000_0073,
            ],
        ),
        // Lower parts at their ends: -1, 268, 2047, and twice -2048.
        (
            0x800,
            [0xffff_ffff, 131_340, 0x7ff, 0x7fff_f800],
            [
                0x0000_0537,
                0xfff5_0513,
                0x0002_05b7,
                0x10c5_8593,
                0x0000_0637,
                0x7ff6_0613,
                0x8000_06b7,
                0x8006_8693,
                0x0000_18b7,
                0x8008_8893,
                0x0000_0073,
            ],
        ),
    ];
    for (call, args, want) in rows {
        assert_eq!(rt; sys_words(call, args), want, "{call} {args:?}");
    }

    let file = sheet(rt.alloc(), &CODE)?;
    let parts: [(usize, &[u8]); 5] = [
        (0, &HEADERS[..68]),
        (68, b"\x7c\0\0\0\x7c\0\0\0"),
        (76, &HEADERS[76..]),
        (84, &PROGRAM),
        (120, b"hi\0\0"),
    ];
    assert_eq!(rt; file.len(), 124);
    for (at, want) in parts {
        assert_eq!(rt; file.get(at..at + want.len()), Some(want), "at {at}");
    }

    let mut mem = Memory::new(rt.alloc(), 65_536)?;
    assert_eq!(rt; load(&file, &mut mem), Ok(EntryPoint(65_620)));
    for (i, &word) in CODE.iter().enumerate() {
        let addr = 65_620 + 4 * i as u32;
        assert_eq!(rt; mem.read(addr, 4), Some(word), "at {addr}");
    }
    Ok(())
}
