//! Programs with mutexes, each with the text that the rules of the machine give it. Calls: 274 init with a mutex and
//! its attributes (1 error-checking, 2 recursive), 275 destroy, 276 lock, 277 trylock, 278 unlock. A new thread whose
//! attributes are 131082 has priority 10, and one with 131084 has 12; thread 1 has 8.

use std::test::Fail;
use workload_gen::program::Item::{At, Sys, Word};
use workload_gen::program::{END, HEADER, Row, first_other, image_of, output_of};

/// What a lock, a trylock, an unlock and a destroying answer.
const ANSWERS: &[Row<'static>] = &[
    // an error-checking mutex answers its owner, a normal one lets it wait for ever
    Row {
        items: &[
            Sys(274, [0, 1, 0, 0]),
            Sys(276, [0, 0, 0, 0]),
            Sys(276, [0, 0, 0, 0]),
            Sys(274, [1, 0, 0, 0]),
            Sys(276, [1, 0, 0, 0]),
            Sys(276, [1, 0, 0, 0]),
        ],
        text: b"run 1\n\
call 1 274 0 1 0 0 = 0 0\n\
call 1 276 0 0 0 0 = 0 0\n\
call 1 276 0 0 0 0 = 35 0\n\
call 1 274 1 0 0 0 = 0 0\n\
call 1 276 1 0 0 0 = 0 0\n\
call 1 276 1 0 0 0 = block\n\
end idle\n",
    },
    // numbers and attributes that no mutex has, and one that is there
    Row {
        items: &[
            Sys(274, [256, 0, 0, 0]),
            Sys(274, [0, 3, 0, 0]),
            Sys(274, [0, 4, 0, 0]),
            Sys(274, [0, 16, 0, 0]),
            Sys(274, [0, 0, 99, 0]),
            Sys(274, [0, 0, 0, 0]),
            Sys(275, [1, 0, 0, 0]),
            Sys(276, [1, 0, 0, 0]),
            Sys(277, [1, 0, 0, 0]),
            Sys(278, [256, 0, 0, 0]),
            END,
        ],
        text: b"run 1\n\
call 1 274 256 0 0 0 = 22 0\n\
call 1 274 0 3 0 0 = 22 0\n\
call 1 274 0 4 0 0 = 22 0\n\
call 1 274 0 16 0 0 = 22 0\n\
call 1 274 0 0 99 0 = 0 0\n\
call 1 274 0 0 0 0 = 16 0\n\
call 1 275 1 0 0 0 = 22 0\n\
call 1 276 1 0 0 0 = 22 0\n\
call 1 277 1 0 0 0 = 22 0\n\
call 1 278 256 0 0 0 = 22 0\n\
call 1 93 0 0 0 0 = end\n\
end exit 0\n",
    },
    // a normal mutex: nobody unlocks what it does not own, and what is locked is not destroyed
    Row {
        items: &[
            Sys(274, [0, 0, 0, 0]),
            Sys(278, [0, 0, 0, 0]),
            Sys(277, [0, 0, 0, 0]),
            Sys(277, [0, 0, 0, 0]),
            Sys(275, [0, 0, 0, 0]),
            Sys(278, [0, 0, 0, 0]),
            Sys(275, [0, 0, 0, 0]),
            Sys(276, [0, 0, 0, 0]),
            END,
        ],
        text: b"run 1\n\
call 1 274 0 0 0 0 = 0 0\n\
call 1 278 0 0 0 0 = 1 0\n\
call 1 277 0 0 0 0 = 0 0\n\
call 1 277 0 0 0 0 = 16 0\n\
call 1 275 0 0 0 0 = 16 0\n\
call 1 278 0 0 0 0 = 0 0\n\
call 1 275 0 0 0 0 = 0 0\n\
call 1 276 0 0 0 0 = 22 0\n\
call 1 93 0 0 0 0 = end\n\
end exit 0\n",
    },
    // a recursive one is free with the last of as many unlocks as locks
    Row {
        items: &[
            Sys(274, [255, 2, 0, 0]),
            Sys(276, [255, 0, 0, 0]),
            Sys(277, [255, 0, 0, 0]),
            Sys(276, [255, 0, 0, 0]),
            Sys(278, [255, 0, 0, 0]),
            Sys(278, [255, 0, 0, 0]),
            Sys(275, [255, 0, 0, 0]),
            Sys(278, [255, 0, 0, 0]),
            Sys(278, [255, 0, 0, 0]),
            Sys(275, [255, 0, 0, 0]),
            END,
        ],
        text: b"run 1\n\
call 1 274 255 2 0 0 = 0 0\n\
call 1 276 255 0 0 0 = 0 0\n\
call 1 277 255 0 0 0 = 0 0\n\
call 1 276 255 0 0 0 = 0 0\n\
call 1 278 255 0 0 0 = 0 0\n\
call 1 278 255 0 0 0 = 0 0\n\
call 1 275 255 0 0 0 = 16 0\n\
call 1 278 255 0 0 0 = 0 0\n\
call 1 278 255 0 0 0 = 1 0\n\
call 1 275 255 0 0 0 = 0 0\n\
call 1 93 0 0 0 0 = end\n\
end exit 0\n",
    },
];

/// Who gets a mutex.
const HANDED_OVER: &[Row<'static>] = &[
    // four threads of two priorities wait: the greater priority first, and among equals who came first
    Row {
        items: &[
            Sys(274, [0, 0, 0, 0]),
            Sys(276, [0, 0, 0, 0]),
            Sys(256, [65_972, 0, 131_072, 131_082]),
            Sys(256, [65_972, 0, 135_168, 131_084]),
            Sys(256, [65_972, 0, 139_264, 131_084]),
            Sys(256, [65_972, 0, 143_360, 131_082]),
            Sys(278, [0, 0, 0, 0]),
            END,
            At(65_972),
            Sys(276, [0, 0, 0, 0]),
            Sys(278, [0, 0, 0, 0]),
            Sys(257, [0, 0, 0, 0]),
        ],
        text: b"run 1\n\
call 1 274 0 0 0 0 = 0 0\n\
call 1 276 0 0 0 0 = 0 0\n\
call 1 256 65972 0 131072 131082 = 0 2\n\
run 2\n\
call 2 276 0 0 0 0 = block\n\
run 1\n\
call 1 256 65972 0 135168 131084 = 0 3\n\
run 3\n\
call 3 276 0 0 0 0 = block\n\
run 1\n\
call 1 256 65972 0 139264 131084 = 0 4\n\
run 4\n\
call 4 276 0 0 0 0 = block\n\
run 1\n\
call 1 256 65972 0 143360 131082 = 0 5\n\
run 5\n\
call 5 276 0 0 0 0 = block\n\
run 1\n\
call 1 278 0 0 0 0 = 0 0\n\
done 3 0 0\n\
run 3\n\
call 3 278 0 0 0 0 = 0 0\n\
done 4 0 0\n\
call 3 257 0 0 0 0 = exit\n\
ret 3 cleanup\n\
gone 3 0\n\
run 4\n\
call 4 278 0 0 0 0 = 0 0\n\
done 2 0 0\n\
call 4 257 0 0 0 0 = exit\n\
ret 4 cleanup\n\
gone 4 0\n\
run 2\n\
call 2 278 0 0 0 0 = 0 0\n\
done 5 0 0\n\
call 2 257 0 0 0 0 = exit\n\
ret 2 cleanup\n\
gone 2 0\n\
run 5\n\
call 5 278 0 0 0 0 = 0 0\n\
call 5 257 0 0 0 0 = exit\n\
ret 5 cleanup\n\
gone 5 0\n\
run 1\n\
call 1 93 0 0 0 0 = end\n\
end exit 0\n",
    },
    // the owner ends while two wait: they wait for ever
    Row {
        items: &[
            Sys(274, [0, 0, 0, 0]),
            Sys(276, [0, 0, 0, 0]),
            Sys(256, [65_840, 0, 131_072, 131_084]),
            Sys(256, [65_840, 0, 135_168, 131_082]),
            Sys(257, [5, 0, 0, 0]),
            At(65_840),
            Sys(276, [0, 0, 0, 0]),
        ],
        text: b"run 1\n\
call 1 274 0 0 0 0 = 0 0\n\
call 1 276 0 0 0 0 = 0 0\n\
call 1 256 65840 0 131072 131084 = 0 2\n\
run 2\n\
call 2 276 0 0 0 0 = block\n\
run 1\n\
call 1 256 65840 0 135168 131082 = 0 3\n\
run 3\n\
call 3 276 0 0 0 0 = block\n\
run 1\n\
call 1 257 5 0 0 0 = exit\n\
ret 1 cleanup\n\
gone 1 5\n\
end idle\n",
    },
    // the owner has ended: the mutex stays locked, and nobody owns it
    Row {
        items: &[
            Sys(274, [0, 0, 0, 0]),
            Sys(256, [65_884, 0, 131_072, 131_084]),
            Sys(277, [0, 0, 0, 0]),
            Sys(278, [0, 0, 0, 0]),
            Sys(275, [0, 0, 0, 0]),
            Sys(276, [0, 0, 0, 0]),
            At(65_884),
            Sys(276, [0, 0, 0, 0]),
            Sys(257, [0, 0, 0, 0]),
        ],
        text: b"run 1\n\
call 1 274 0 0 0 0 = 0 0\n\
call 1 256 65884 0 131072 131084 = 0 2\n\
run 2\n\
call 2 276 0 0 0 0 = 0 0\n\
call 2 257 0 0 0 0 = exit\n\
ret 2 cleanup\n\
gone 2 0\n\
run 1\n\
call 1 277 0 0 0 0 = 16 0\n\
call 1 278 0 0 0 0 = 1 0\n\
call 1 275 0 0 0 0 = 16 0\n\
call 1 276 0 0 0 0 = block\n\
end idle\n",
    },
];

#[test]
fn answers_of_mutexes(rt: HostRuntime) -> Result<(), Fail> {
    assert_eq!(rt; first_other(rt.alloc(), ANSWERS)?, None);
    Ok(())
}

#[test]
fn mutexes_handed_over(rt: HostRuntime) -> Result<(), Fail> {
    assert_eq!(rt; first_other(rt.alloc(), HANDED_OVER)?, None);
    Ok(())
}

#[test]
fn a_recursive_mutex_counts_65535_locks(rt: HostRuntime) -> Result<(), Fail> {
    let alloc = rt.alloc();
    let image = image_of(
        alloc,
        &[
            Sys(274, [0, 2, 0, 0]),
            Word(0x1140_0893), // li a7, 276
            Word(0x0001_0437), // lui s0, 16
            Word(0x0000_0513), // li a0, 0
            Word(0x0000_0073), // ecall
            Word(0xfff4_0413), // addi s0, s0, -1
            Word(0xfe04_1ae3), // bnez s0, -12
            END,
        ],
    )?;
    let mut text = Vec::new(alloc);
    text.extend_from_slice(b"run 1\ncall 1 274 0 2 0 0 = 0 0\n")?;
    for _ in 0..65_535 {
        text.extend_from_slice(b"call 1 276 0 0 0 0 = 0 0\n")?;
    }
    text.extend_from_slice(b"call 1 276 0 0 0 0 = 11 0\ncall 1 93 0 0 0 0 = end\nend exit 0\n")?;
    let out = output_of(alloc, &image, HEADER)?;
    assert!(rt; out.bytes() == text.as_slice());
    Ok(())
}
