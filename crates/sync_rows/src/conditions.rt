//! Programs with condition variables, each with the text that the rules of the machine give it. Calls: 280 init with
//! a condition, 281 destroy, 282 wait with a condition and a mutex, 284 signal, 285 broadcast. A new thread whose
//! attributes are 131082, 131084 or 131086 has priority 10, 12 or 14; thread 1 has 8.

use std::test::Fail;
use workload_gen::program::Item::{At, Sys, Word};
use workload_gen::program::{END, HEADER, Item, Row, first_other, image_of, output_of};

/// What the calls answer, and who is woken.
const WOKEN: &[Row<'static>] = &[
    // numbers that no condition has, conditions and mutexes that are not there, a mutex that is not owned
    Row {
        items: &[
            Sys(280, [256, 0, 0, 0]),
            Sys(281, [0, 0, 0, 0]),
            Sys(280, [0, 0, 0, 0]),
            Sys(280, [0, 0, 0, 0]),
            Sys(284, [0, 0, 0, 0]),
            Sys(285, [0, 0, 0, 0]),
            Sys(284, [1, 0, 0, 0]),
            Sys(285, [1, 0, 0, 0]),
            Sys(282, [1, 0, 0, 0]),
            Sys(282, [0, 0, 0, 0]),
            Sys(274, [0, 0, 0, 0]),
            Sys(282, [0, 0, 0, 0]),
            Sys(281, [0, 0, 0, 0]),
            Sys(281, [0, 0, 0, 0]),
            END,
        ],
        text: b"run 1\n\
call 1 280 256 0 0 0 = 22 0\n\
call 1 281 0 0 0 0 = 22 0\n\
call 1 280 0 0 0 0 = 0 0\n\
call 1 280 0 0 0 0 = 16 0\n\
call 1 284 0 0 0 0 = 0 0\n\
call 1 285 0 0 0 0 = 0 0\n\
call 1 284 1 0 0 0 = 22 0\n\
call 1 285 1 0 0 0 = 22 0\n\
call 1 282 1 0 0 0 = 22 0\n\
call 1 282 0 0 0 0 = 22 0\n\
call 1 274 0 0 0 0 = 0 0\n\
call 1 282 0 0 0 0 = 1 0\n\
call 1 281 0 0 0 0 = 0 0\n\
call 1 281 0 0 0 0 = 22 0\n\
call 1 93 0 0 0 0 = end\n\
end exit 0\n",
    },
    // what a waiter uses is not destroyed, and who waits with another mutex is refused; a signal wakes it
    Row {
        items: &[
            Sys(274, [0, 0, 0, 0]),
            Sys(274, [1, 0, 0, 0]),
            Sys(280, [0, 0, 0, 0]),
            Sys(256, [66_104, 0, 131_072, 131_084]),
            Sys(281, [0, 0, 0, 0]),
            Sys(275, [0, 0, 0, 0]),
            Sys(276, [1, 0, 0, 0]),
            Sys(282, [0, 1, 0, 0]),
            Sys(284, [0, 0, 0, 0]),
            Sys(281, [0, 0, 0, 0]),
            END,
            At(66_104),
            Sys(276, [0, 0, 0, 0]),
            Sys(282, [0, 0, 0, 0]),
            Sys(278, [0, 0, 0, 0]),
            Sys(257, [6, 0, 0, 0]),
        ],
        text: b"run 1\n\
call 1 274 0 0 0 0 = 0 0\n\
call 1 274 1 0 0 0 = 0 0\n\
call 1 280 0 0 0 0 = 0 0\n\
call 1 256 66104 0 131072 131084 = 0 2\n\
run 2\n\
call 2 276 0 0 0 0 = 0 0\n\
call 2 282 0 0 0 0 = block\n\
run 1\n\
call 1 281 0 0 0 0 = 16 0\n\
call 1 275 0 0 0 0 = 16 0\n\
call 1 276 1 0 0 0 = 0 0\n\
call 1 282 0 1 0 0 = 22 0\n\
call 1 284 0 0 0 0 = 0 0\n\
done 2 0 0\n\
run 2\n\
call 2 278 0 0 0 0 = 0 0\n\
call 2 257 6 0 0 0 = exit\n\
ret 2 cleanup\n\
gone 2 6\n\
run 1\n\
call 1 281 0 0 0 0 = 0 0\n\
call 1 93 0 0 0 0 = end\n\
end exit 0\n",
    },
    // a signal wakes the greatest priority, and among equals who came first
    Row {
        items: &[
            Sys(274, [0, 0, 0, 0]),
            Sys(280, [0, 0, 0, 0]),
            Sys(256, [66_016, 0, 131_072, 131_082]),
            Sys(256, [66_016, 0, 135_168, 131_084]),
            Sys(256, [66_016, 0, 139_264, 131_084]),
            Sys(284, [0, 0, 0, 0]),
            Sys(284, [0, 0, 0, 0]),
            Sys(284, [0, 0, 0, 0]),
            END,
            At(66_016),
            Sys(276, [0, 0, 0, 0]),
            Sys(282, [0, 0, 0, 0]),
            Sys(278, [0, 0, 0, 0]),
            Sys(257, [0, 0, 0, 0]),
        ],
        text: b"run 1\n\
call 1 274 0 0 0 0 = 0 0\n\
call 1 280 0 0 0 0 = 0 0\n\
call 1 256 66016 0 131072 131082 = 0 2\n\
run 2\n\
call 2 276 0 0 0 0 = 0 0\n\
call 2 282 0 0 0 0 = block\n\
run 1\n\
call 1 256 66016 0 135168 131084 = 0 3\n\
run 3\n\
call 3 276 0 0 0 0 = 0 0\n\
call 3 282 0 0 0 0 = block\n\
run 1\n\
call 1 256 66016 0 139264 131084 = 0 4\n\
run 4\n\
call 4 276 0 0 0 0 = 0 0\n\
call 4 282 0 0 0 0 = block\n\
run 1\n\
call 1 284 0 0 0 0 = 0 0\n\
done 3 0 0\n\
run 3\n\
call 3 278 0 0 0 0 = 0 0\n\
call 3 257 0 0 0 0 = exit\n\
ret 3 cleanup\n\
gone 3 0\n\
run 1\n\
call 1 284 0 0 0 0 = 0 0\n\
done 4 0 0\n\
run 4\n\
call 4 278 0 0 0 0 = 0 0\n\
call 4 257 0 0 0 0 = exit\n\
ret 4 cleanup\n\
gone 4 0\n\
run 1\n\
call 1 284 0 0 0 0 = 0 0\n\
done 2 0 0\n\
run 2\n\
call 2 278 0 0 0 0 = 0 0\n\
call 2 257 0 0 0 0 = exit\n\
ret 2 cleanup\n\
gone 2 0\n\
run 1\n\
call 1 93 0 0 0 0 = end\n\
end exit 0\n",
    },
    // a broadcast by the owner of the mutex to three of different priorities: each gets the mutex in turn
    Row {
        items: &[
            Sys(274, [0, 0, 0, 0]),
            Sys(280, [0, 0, 0, 0]),
            Sys(256, [66_016, 0, 131_072, 131_082]),
            Sys(256, [66_016, 0, 135_168, 131_084]),
            Sys(256, [66_016, 0, 139_264, 131_086]),
            Sys(276, [0, 0, 0, 0]),
            Sys(285, [0, 0, 0, 0]),
            Sys(278, [0, 0, 0, 0]),
            END,
            At(66_016),
            Sys(276, [0, 0, 0, 0]),
            Sys(282, [0, 0, 0, 0]),
            Sys(278, [0, 0, 0, 0]),
            Sys(257, [0, 0, 0, 0]),
        ],
        text: b"run 1\n\
call 1 274 0 0 0 0 = 0 0\n\
call 1 280 0 0 0 0 = 0 0\n\
call 1 256 66016 0 131072 131082 = 0 2\n\
run 2\n\
call 2 276 0 0 0 0 = 0 0\n\
call 2 282 0 0 0 0 = block\n\
run 1\n\
call 1 256 66016 0 135168 131084 = 0 3\n\
run 3\n\
call 3 276 0 0 0 0 = 0 0\n\
call 3 282 0 0 0 0 = block\n\
run 1\n\
call 1 256 66016 0 139264 131086 = 0 4\n\
run 4\n\
call 4 276 0 0 0 0 = 0 0\n\
call 4 282 0 0 0 0 = block\n\
run 1\n\
call 1 276 0 0 0 0 = 0 0\n\
call 1 285 0 0 0 0 = 0 0\n\
call 1 278 0 0 0 0 = 0 0\n\
done 4 0 0\n\
run 4\n\
call 4 278 0 0 0 0 = 0 0\n\
done 3 0 0\n\
call 4 257 0 0 0 0 = exit\n\
ret 4 cleanup\n\
gone 4 0\n\
run 3\n\
call 3 278 0 0 0 0 = 0 0\n\
done 2 0 0\n\
call 3 257 0 0 0 0 = exit\n\
ret 3 cleanup\n\
gone 3 0\n\
run 2\n\
call 2 278 0 0 0 0 = 0 0\n\
call 2 257 0 0 0 0 = exit\n\
ret 2 cleanup\n\
gone 2 0\n\
run 1\n\
call 1 93 0 0 0 0 = end\n\
end exit 0\n",
    },
    // a broadcast while the mutex is free: the greatest priority gets it at once, and equals wait as they came
    Row {
        items: &[
            Sys(274, [0, 0, 0, 0]),
            Sys(280, [0, 0, 0, 0]),
            Sys(256, [65_928, 0, 131_072, 131_082]),
            Sys(256, [65_928, 0, 135_168, 131_082]),
            Sys(256, [65_928, 0, 139_264, 131_084]),
            Sys(285, [0, 0, 0, 0]),
            END,
            At(65_928),
            Sys(276, [0, 0, 0, 0]),
            Sys(282, [0, 0, 0, 0]),
            Sys(278, [0, 0, 0, 0]),
            Sys(257, [0, 0, 0, 0]),
        ],
        text: b"run 1\n\
call 1 274 0 0 0 0 = 0 0\n\
call 1 280 0 0 0 0 = 0 0\n\
call 1 256 65928 0 131072 131082 = 0 2\n\
run 2\n\
call 2 276 0 0 0 0 = 0 0\n\
call 2 282 0 0 0 0 = block\n\
run 1\n\
call 1 256 65928 0 135168 131082 = 0 3\n\
run 3\n\
call 3 276 0 0 0 0 = 0 0\n\
call 3 282 0 0 0 0 = block\n\
run 1\n\
call 1 256 65928 0 139264 131084 = 0 4\n\
run 4\n\
call 4 276 0 0 0 0 = 0 0\n\
call 4 282 0 0 0 0 = block\n\
run 1\n\
call 1 285 0 0 0 0 = 0 0\n\
done 4 0 0\n\
run 4\n\
call 4 278 0 0 0 0 = 0 0\n\
done 2 0 0\n\
call 4 257 0 0 0 0 = exit\n\
ret 4 cleanup\n\
gone 4 0\n\
run 2\n\
call 2 278 0 0 0 0 = 0 0\n\
done 3 0 0\n\
call 2 257 0 0 0 0 = exit\n\
ret 2 cleanup\n\
gone 2 0\n\
run 3\n\
call 3 278 0 0 0 0 = 0 0\n\
call 3 257 0 0 0 0 = exit\n\
ret 3 cleanup\n\
gone 3 0\n\
run 1\n\
call 1 93 0 0 0 0 = end\n\
end exit 0\n",
    },
    // a recursive mutex that was locked three times is free while its owner waits, and comes back three times locked
    Row {
        items: &[
            Sys(274, [0, 2, 0, 0]),
            Sys(280, [0, 0, 0, 0]),
            Sys(256, [65_928, 0, 131_072, 131_084]),
            Sys(276, [0, 0, 0, 0]),
            Sys(284, [0, 0, 0, 0]),
            Sys(278, [0, 0, 0, 0]),
            END,
            At(65_928),
            Sys(276, [0, 0, 0, 0]),
            Sys(276, [0, 0, 0, 0]),
            Sys(276, [0, 0, 0, 0]),
            Sys(282, [0, 0, 0, 0]),
            Sys(278, [0, 0, 0, 0]),
            Sys(278, [0, 0, 0, 0]),
            Sys(278, [0, 0, 0, 0]),
            Sys(278, [0, 0, 0, 0]),
            Sys(257, [0, 0, 0, 0]),
        ],
        text: b"run 1\n\
call 1 274 0 2 0 0 = 0 0\n\
call 1 280 0 0 0 0 = 0 0\n\
call 1 256 65928 0 131072 131084 = 0 2\n\
run 2\n\
call 2 276 0 0 0 0 = 0 0\n\
call 2 276 0 0 0 0 = 0 0\n\
call 2 276 0 0 0 0 = 0 0\n\
call 2 282 0 0 0 0 = block\n\
run 1\n\
call 1 276 0 0 0 0 = 0 0\n\
call 1 284 0 0 0 0 = 0 0\n\
call 1 278 0 0 0 0 = 0 0\n\
done 2 0 0\n\
run 2\n\
call 2 278 0 0 0 0 = 0 0\n\
call 2 278 0 0 0 0 = 0 0\n\
call 2 278 0 0 0 0 = 0 0\n\
call 2 278 0 0 0 0 = 1 0\n\
call 2 257 0 0 0 0 = exit\n\
ret 2 cleanup\n\
gone 2 0\n\
run 1\n\
call 1 93 0 0 0 0 = end\n\
end exit 0\n",
    },
    // a wait hands the mutex over to a thread that waits to lock it
    Row {
        items: &[
            Sys(274, [0, 0, 0, 0]),
            Sys(280, [0, 0, 0, 0]),
            Sys(276, [0, 0, 0, 0]),
            Sys(256, [65_928, 0, 131_072, 131_084]),
            Sys(282, [0, 0, 0, 0]),
            Sys(278, [0, 0, 0, 0]),
            END,
            At(65_928),
            Sys(276, [0, 0, 0, 0]),
            Sys(284, [0, 0, 0, 0]),
            Sys(278, [0, 0, 0, 0]),
            Sys(257, [0, 0, 0, 0]),
        ],
        text: b"run 1\n\
call 1 274 0 0 0 0 = 0 0\n\
call 1 280 0 0 0 0 = 0 0\n\
call 1 276 0 0 0 0 = 0 0\n\
call 1 256 65928 0 131072 131084 = 0 2\n\
run 2\n\
call 2 276 0 0 0 0 = block\n\
run 1\n\
call 1 282 0 0 0 0 = block\n\
done 2 0 0\n\
run 2\n\
call 2 284 0 0 0 0 = 0 0\n\
call 2 278 0 0 0 0 = 0 0\n\
done 1 0 0\n\
call 2 257 0 0 0 0 = exit\n\
ret 2 cleanup\n\
gone 2 0\n\
run 1\n\
call 1 278 0 0 0 0 = 0 0\n\
call 1 93 0 0 0 0 = end\n\
end exit 0\n",
    },
    // a woken thread waits for the mutex before one that comes later to lock it
    Row {
        items: &[
            Sys(274, [0, 0, 0, 0]),
            Sys(280, [0, 0, 0, 0]),
            Sys(256, [65_972, 0, 131_072, 0]),
            Sys(256, [65_972, 0, 135_168, 0]),
            Sys(276, [0, 0, 0, 0]),
            Sys(282, [0, 0, 0, 0]),
            Sys(278, [0, 0, 0, 0]),
            END,
            At(65_972),
            Sys(276, [0, 0, 0, 0]),
            Sys(284, [0, 0, 0, 0]),
            Sys(261, [0, 0, 0, 0]),
            Sys(278, [0, 0, 0, 0]),
            Sys(257, [0, 0, 0, 0]),
        ],
        text: b"run 1\n\
call 1 274 0 0 0 0 = 0 0\n\
call 1 280 0 0 0 0 = 0 0\n\
call 1 256 65972 0 131072 0 = 0 2\n\
call 1 256 65972 0 135168 0 = 0 3\n\
call 1 276 0 0 0 0 = 0 0\n\
call 1 282 0 0 0 0 = block\n\
run 2\n\
call 2 276 0 0 0 0 = 0 0\n\
call 2 284 0 0 0 0 = 0 0\n\
call 2 261 0 0 0 0 = 0 0\n\
run 3\n\
call 3 276 0 0 0 0 = block\n\
run 2\n\
call 2 278 0 0 0 0 = 0 0\n\
done 1 0 0\n\
call 2 257 0 0 0 0 = exit\n\
ret 2 cleanup\n\
gone 2 0\n\
run 1\n\
call 1 278 0 0 0 0 = 0 0\n\
done 3 0 0\n\
call 1 93 0 0 0 0 = end\n\
end exit 0\n",
    },
];

/// A buffer of two places, with two producers of three numbers each (1 to 3, and 100 to 102) and two consumers that
/// add them up. At 0x30000 stand how many are in it, where the next is taken and put, the sum, and the places.
/// Mutex 0 guards it; producers wait on condition 0, consumers on condition 1.
const BOUNDED_BUFFER: &[Item] = &[
    Sys(274, [0, 0, 0, 0]),
    Sys(280, [0, 0, 0, 0]),
    Sys(280, [1, 0, 0, 0]),
    Sys(256, [66_192, 1, 131_072, 0]),
    Sys(256, [66_192, 100, 135_168, 0]),
    Sys(256, [66_484, 0, 139_264, 0]),
    Sys(256, [66_484, 0, 143_360, 0]),
    Sys(258, [2, 0, 0, 0]),
    Sys(258, [3, 0, 0, 0]),
    Sys(258, [4, 0, 0, 0]),
    Sys(258, [5, 0, 0, 0]),
    Sys(64, [1, 196_620, 4, 0]),
    END,
    At(66_192),
    Word(0x0005_0913), // mv s2, a0
    Word(0x0003_04b7), // lui s1, 0x30
    Word(0x0030_0413), // li s0, 3
    Word(0x0020_0993), // li s3, 2
    Sys(276, [0, 0, 0, 0]),
    Word(0x0004_a283), // lw t0, 0(s1)
    Word(0x0332_9a63), // bne t0, s3, L4
    Sys(282, [0, 0, 0, 0]),
    Word(0xfcdf_f06f), // j L3
    Word(0x0012_8293), // addi t0, t0, 1
    Word(0x0054_a023), // sw t0, 0(s1)
    Word(0x0084_a303), // lw t1, 8(s1)
    Word(0x0023_1393), // slli t2, t1, 2
    Word(0x0093_83b3), // add t2, t2, s1
    Word(0x0123_a823), // sw s2, 16(t2)
    Word(0x0013_4313), // xori t1, t1, 1
    Word(0x0064_a423), // sw t1, 8(s1)
    Word(0x0019_0913), // addi s2, s2, 1
    Sys(284, [1, 0, 0, 0]),
    Sys(278, [0, 0, 0, 0]),
    Word(0xfff4_0413), // addi s0, s0, -1
    Word(0xf004_1ee3), // bnez s0, L2
    Sys(257, [0, 0, 0, 0]),
    At(66_484),
    Word(0x0003_04b7), // lui s1, 0x30
    Word(0x0030_0413), // li s0, 3
    Sys(276, [0, 0, 0, 0]),
    Word(0x0004_a283), // lw t0, 0(s1)
    Word(0x0202_9a63), // bnez t0, L7
    Sys(282, [1, 0, 0, 0]),
    Word(0xfcdf_f06f), // j L6
    Word(0xfff2_8293), // addi t0, t0, -1
    Word(0x0054_a023), // sw t0, 0(s1)
    Word(0x0044_a303), // lw t1, 4(s1)
    Word(0x0023_1393), // slli t2, t1, 2
    Word(0x0093_83b3), // add t2, t2, s1
    Word(0x0103_ae03), // lw t3, 16(t2)
    Word(0x0013_4313), // xori t1, t1, 1
    Word(0x0064_a223), // sw t1, 4(s1)
    Word(0x00c4_ae83), // lw t4, 12(s1)
    Word(0x01ce_8eb3), // add t4, t4, t3
    Word(0x01d4_a623), // sw t4, 12(s1)
    Sys(284, [0, 0, 0, 0]),
    Sys(278, [0, 0, 0, 0]),
    Word(0xfff4_0413), // addi s0, s0, -1
    Word(0xf004_1ae3), // bnez s0, L5
    Sys(257, [0, 0, 0, 0]),
];

#[test]
fn conditions_wake(rt: HostRuntime) -> Result<(), Fail> {
    assert_eq!(rt; first_other(rt.alloc(), WOKEN)?, None);
    Ok(())
}

#[test]
fn a_bounded_buffer_loses_nothing(rt: HostRuntime) -> Result<(), Fail> {
    let alloc = rt.alloc();
    let image = image_of(alloc, BOUNDED_BUFFER)?;
    let out = output_of(alloc, &image, HEADER)?;
    let text = out.bytes();
    // 1 + 2 + 3 + 100 + 101 + 102 is 0x135
    assert!(rt;
        text.ends_with(
            b"call 1 64 1 196620 4 0 = 0 4\nout 1 1 35010000\ncall 1 93 0 0 0 0 = end\nend exit 0\n"
        )
    );
    Ok(())
}
