//! Programs whose threads are joined and detached.

use std::test::Fail;
use workload_gen::program::Item::{At, Sys};
use workload_gen::program::{END, Row, YIELD, first_other};

/// Joins, and the numbers that they free.
const JOINS: &[Row<'static>] = &[
    // a join of a thread that has ended; its number is free, and the next join finds no thread
    Row {
        items: &[
            Sys(256, [65_796, 0, 131_072, 131_084]),
            Sys(258, [2, 0, 0, 0]),
            Sys(258, [2, 0, 0, 0]),
            END,
            At(65_796),
            Sys(257, [5, 0, 0, 0]),
        ],
        text: b"run 1\n\
call 1 256 65796 0 131072 131084 = 0 2\n\
run 2\n\
call 2 257 5 0 0 0 = exit\n\
ret 2 cleanup\n\
gone 2 5\n\
run 1\n\
call 1 258 2 0 0 0 = 0 5\n\
call 1 258 2 0 0 0 = 3 0\n\
call 1 93 0 0 0 0 = end\n\
end exit 0\n",
    },
    // refusals: itself, no such thread, a detached thread
    Row {
        items: &[
            Sys(256, [65_620, 0, 131_072, 65_536]),
            Sys(258, [1, 0, 0, 0]),
            Sys(258, [0, 0, 0, 0]),
            Sys(258, [65, 0, 0, 0]),
            Sys(258, [4_294_967_295, 0, 0, 0]),
            Sys(258, [3, 0, 0, 0]),
            Sys(258, [2, 0, 0, 0]),
            END,
        ],
        text: b"run 1\n\
call 1 256 65620 0 131072 65536 = 0 2\n\
call 1 258 1 0 0 0 = 35 0\n\
call 1 258 0 0 0 0 = 3 0\n\
call 1 258 65 0 0 0 = 3 0\n\
call 1 258 4294967295 0 0 0 = 3 0\n\
call 1 258 3 0 0 0 = 3 0\n\
call 1 258 2 0 0 0 = 22 0\n\
call 1 93 0 0 0 0 = end\n\
end exit 0\n",
    },
    // a thread that is detached and joins itself: that it is itself comes first
    Row {
        items: &[
            Sys(259, [1, 0, 0, 0]),
            Sys(258, [1, 0, 0, 0]),
            Sys(259, [1, 0, 0, 0]),
            END,
        ],
        text: b"run 1\n\
call 1 259 1 0 0 0 = 0 0\n\
call 1 258 1 0 0 0 = 35 0\n\
call 1 259 1 0 0 0 = 22 0\n\
call 1 93 0 0 0 0 = end\n\
end exit 0\n",
    },
    // a thread that has a joiner is joined and detached by nobody else; its own join is still one of itself
    Row {
        items: &[
            Sys(256, [65_796, 0, 131_072, 0]),
            Sys(256, [65_928, 0, 135_168, 0]),
            Sys(258, [2, 0, 0, 0]),
            END,
            At(65_796),
            YIELD,
            Sys(258, [2, 0, 0, 0]),
            Sys(257, [6, 0, 0, 0]),
            At(65_928),
            Sys(258, [2, 0, 0, 0]),
            Sys(259, [2, 0, 0, 0]),
            Sys(257, [0, 0, 0, 0]),
        ],
        text: b"run 1\n\
call 1 256 65796 0 131072 0 = 0 2\n\
call 1 256 65928 0 135168 0 = 0 3\n\
call 1 258 2 0 0 0 = block\n\
run 2\n\
call 2 261 0 0 0 0 = 0 0\n\
run 3\n\
call 3 258 2 0 0 0 = 22 0\n\
call 3 259 2 0 0 0 = 22 0\n\
call 3 257 0 0 0 0 = exit\n\
ret 3 cleanup\n\
gone 3 0\n\
run 2\n\
call 2 258 2 0 0 0 = 35 0\n\
call 2 257 6 0 0 0 = exit\n\
ret 2 cleanup\n\
gone 2 6\n\
done 1 0 6\n\
run 1\n\
call 1 93 0 0 0 0 = end\n\
end exit 0\n",
    },
    // two joiners, 1 of 3 and 2 of 4: each gets its thread's value
    Row {
        items: &[
            Sys(256, [65_884, 0, 131_072, 0]),
            Sys(256, [65_972, 0, 135_168, 0]),
            Sys(256, [66_016, 0, 139_264, 0]),
            Sys(258, [3, 0, 0, 0]),
            Sys(258, [2, 0, 0, 0]),
            END,
            At(65_884),
            Sys(258, [4, 0, 0, 0]),
            Sys(257, [7, 0, 0, 0]),
            At(65_972),
            Sys(257, [5, 0, 0, 0]),
            At(66_016),
            Sys(257, [6, 0, 0, 0]),
        ],
        text: b"run 1\n\
call 1 256 65884 0 131072 0 = 0 2\n\
call 1 256 65972 0 135168 0 = 0 3\n\
call 1 256 66016 0 139264 0 = 0 4\n\
call 1 258 3 0 0 0 = block\n\
run 2\n\
call 2 258 4 0 0 0 = block\n\
run 3\n\
call 3 257 5 0 0 0 = exit\n\
ret 3 cleanup\n\
gone 3 5\n\
done 1 0 5\n\
run 4\n\
call 4 257 6 0 0 0 = exit\n\
ret 4 cleanup\n\
gone 4 6\n\
done 2 0 6\n\
run 1\n\
call 1 258 2 0 0 0 = block\n\
run 2\n\
call 2 257 7 0 0 0 = exit\n\
ret 2 cleanup\n\
gone 2 7\n\
done 1 0 7\n\
run 1\n\
call 1 93 0 0 0 0 = end\n\
end exit 0\n",
    },
    // thread 2 joins thread 1
    Row {
        items: &[
            Sys(256, [65_752, 0, 131_072, 0]),
            YIELD,
            Sys(257, [8, 0, 0, 0]),
            At(65_752),
            Sys(258, [1, 0, 0, 0]),
            Sys(93, [2, 0, 0, 0]),
        ],
        text: b"run 1\n\
call 1 256 65752 0 131072 0 = 0 2\n\
call 1 261 0 0 0 0 = 0 0\n\
run 2\n\
call 2 258 1 0 0 0 = block\n\
run 1\n\
call 1 257 8 0 0 0 = exit\n\
ret 1 cleanup\n\
gone 1 8\n\
done 2 0 8\n\
run 2\n\
call 2 93 2 0 0 0 = end\n\
end exit 2\n",
    },
    // a number stays taken until the value is collected
    Row {
        items: &[
            Sys(256, [65_840, 0, 131_072, 131_084]),
            Sys(256, [65_840, 0, 135_168, 131_084]),
            Sys(258, [2, 0, 0, 0]),
            Sys(256, [65_840, 0, 131_072, 131_084]),
            END,
            At(65_840),
            Sys(257, [5, 0, 0, 0]),
        ],
        text: b"run 1\n\
call 1 256 65840 0 131072 131084 = 0 2\n\
run 2\n\
call 2 257 5 0 0 0 = exit\n\
ret 2 cleanup\n\
gone 2 5\n\
run 1\n\
call 1 256 65840 0 135168 131084 = 0 3\n\
run 3\n\
call 3 257 5 0 0 0 = exit\n\
ret 3 cleanup\n\
gone 3 5\n\
run 1\n\
call 1 258 2 0 0 0 = 0 5\n\
call 1 256 65840 0 131072 131084 = 0 2\n\
run 2\n\
call 2 257 5 0 0 0 = exit\n\
ret 2 cleanup\n\
gone 2 5\n\
run 1\n\
call 1 93 0 0 0 0 = end\n\
end exit 0\n",
    },
    // a joiner that waited has the value at once, and the number is free
    Row {
        items: &[
            Sys(256, [65_796, 0, 131_072, 0]),
            Sys(258, [2, 0, 0, 0]),
            Sys(256, [65_796, 0, 135_168, 0]),
            END,
            At(65_796),
            Sys(257, [4_294_967_295, 0, 0, 0]),
        ],
        text: b"run 1\n\
call 1 256 65796 0 131072 0 = 0 2\n\
call 1 258 2 0 0 0 = block\n\
run 2\n\
call 2 257 4294967295 0 0 0 = exit\n\
ret 2 cleanup\n\
gone 2 4294967295\n\
done 1 0 4294967295\n\
run 1\n\
call 1 256 65796 0 135168 0 = 0 2\n\
call 1 93 0 0 0 0 = end\n\
end exit 0\n",
    },
];

/// Detached threads, and the numbers that they free.
const DETACHES: &[Row<'static>] = &[
    // a live thread is detached: its number is free as soon as it ends
    Row {
        items: &[
            Sys(256, [65_840, 0, 131_072, 0]),
            Sys(259, [2, 0, 0, 0]),
            YIELD,
            Sys(256, [65_840, 0, 135_168, 0]),
            END,
            At(65_840),
            Sys(257, [5, 0, 0, 0]),
        ],
        text: b"run 1\n\
call 1 256 65840 0 131072 0 = 0 2\n\
call 1 259 2 0 0 0 = 0 0\n\
call 1 261 0 0 0 0 = 0 0\n\
run 2\n\
call 2 257 5 0 0 0 = exit\n\
ret 2 cleanup\n\
gone 2 5\n\
run 1\n\
call 1 256 65840 0 135168 0 = 0 2\n\
call 1 93 0 0 0 0 = end\n\
end exit 0\n",
    },
    // a thread that was made detached, with priority 12
    Row {
        items: &[
            Sys(256, [65_840, 0, 131_072, 196_620]),
            Sys(258, [2, 0, 0, 0]),
            Sys(259, [2, 0, 0, 0]),
            Sys(256, [65_840, 0, 131_072, 196_620]),
            END,
            At(65_840),
            Sys(257, [5, 0, 0, 0]),
        ],
        text: b"run 1\n\
call 1 256 65840 0 131072 196620 = 0 2\n\
run 2\n\
call 2 257 5 0 0 0 = exit\n\
ret 2 cleanup\n\
gone 2 5\n\
run 1\n\
call 1 258 2 0 0 0 = 3 0\n\
call 1 259 2 0 0 0 = 3 0\n\
call 1 256 65840 0 131072 196620 = 0 2\n\
run 2\n\
call 2 257 5 0 0 0 = exit\n\
ret 2 cleanup\n\
gone 2 5\n\
run 1\n\
call 1 93 0 0 0 0 = end\n\
end exit 0\n",
    },
    // the detach of a thread that has ended frees its number
    Row {
        items: &[
            Sys(256, [65_884, 0, 131_072, 131_084]),
            Sys(259, [2, 0, 0, 0]),
            Sys(259, [2, 0, 0, 0]),
            Sys(258, [2, 0, 0, 0]),
            Sys(256, [65_620, 0, 135_168, 0]),
            END,
            At(65_884),
            Sys(257, [5, 0, 0, 0]),
        ],
        text: b"run 1\n\
call 1 256 65884 0 131072 131084 = 0 2\n\
run 2\n\
call 2 257 5 0 0 0 = exit\n\
ret 2 cleanup\n\
gone 2 5\n\
run 1\n\
call 1 259 2 0 0 0 = 0 0\n\
call 1 259 2 0 0 0 = 3 0\n\
call 1 258 2 0 0 0 = 3 0\n\
call 1 256 65620 0 135168 0 = 0 2\n\
call 1 93 0 0 0 0 = end\n\
end exit 0\n",
    },
    // refusals: no such thread, a detached thread
    Row {
        items: &[
            Sys(259, [0, 0, 0, 0]),
            Sys(259, [65, 0, 0, 0]),
            Sys(259, [4_294_967_295, 0, 0, 0]),
            Sys(259, [2, 0, 0, 0]),
            Sys(256, [65_620, 0, 131_072, 65_536]),
            Sys(259, [2, 0, 0, 0]),
            END,
        ],
        text: b"run 1\n\
call 1 259 0 0 0 0 = 3 0\n\
call 1 259 65 0 0 0 = 3 0\n\
call 1 259 4294967295 0 0 0 = 3 0\n\
call 1 259 2 0 0 0 = 3 0\n\
call 1 256 65620 0 131072 65536 = 0 2\n\
call 1 259 2 0 0 0 = 22 0\n\
call 1 93 0 0 0 0 = end\n\
end exit 0\n",
    },
    // a thread detaches itself
    Row {
        items: &[
            Sys(256, [65_752, 0, 131_072, 131_084]),
            Sys(258, [2, 0, 0, 0]),
            END,
            At(65_752),
            Sys(259, [2, 0, 0, 0]),
            Sys(257, [5, 0, 0, 0]),
        ],
        text: b"run 1\n\
call 1 256 65752 0 131072 131084 = 0 2\n\
run 2\n\
call 2 259 2 0 0 0 = 0 0\n\
call 2 257 5 0 0 0 = exit\n\
ret 2 cleanup\n\
gone 2 5\n\
run 1\n\
call 1 258 2 0 0 0 = 3 0\n\
call 1 93 0 0 0 0 = end\n\
end exit 0\n",
    },
    // a thread is detached while it waits for the one that detaches it, and still gets the value
    Row {
        items: &[
            Sys(256, [65_796, 0, 131_072, 0]),
            Sys(258, [2, 0, 0, 0]),
            Sys(259, [1, 0, 0, 0]),
            Sys(257, [4, 0, 0, 0]),
            At(65_796),
            Sys(259, [1, 0, 0, 0]),
            Sys(257, [5, 0, 0, 0]),
        ],
        text: b"run 1\n\
call 1 256 65796 0 131072 0 = 0 2\n\
call 1 258 2 0 0 0 = block\n\
run 2\n\
call 2 259 1 0 0 0 = 0 0\n\
call 2 257 5 0 0 0 = exit\n\
ret 2 cleanup\n\
gone 2 5\n\
done 1 0 5\n\
run 1\n\
call 1 259 1 0 0 0 = 22 0\n\
call 1 257 4 0 0 0 = exit\n\
ret 1 cleanup\n\
gone 1 4\n\
end exit 0\n",
    },
    // thread 1 is detached and ends: a new thread has the number 1
    Row {
        items: &[
            Sys(256, [65_752, 0, 131_072, 0]),
            YIELD,
            Sys(257, [3, 0, 0, 0]),
            At(65_752),
            Sys(259, [1, 0, 0, 0]),
            YIELD,
            Sys(256, [65_620, 0, 135_168, 0]),
            Sys(93, [4, 0, 0, 0]),
        ],
        text: b"run 1\n\
call 1 256 65752 0 131072 0 = 0 2\n\
call 1 261 0 0 0 0 = 0 0\n\
run 2\n\
call 2 259 1 0 0 0 = 0 0\n\
call 2 261 0 0 0 0 = 0 0\n\
run 1\n\
call 1 257 3 0 0 0 = exit\n\
ret 1 cleanup\n\
gone 1 3\n\
run 2\n\
call 2 256 65620 0 135168 0 = 0 1\n\
call 2 93 4 0 0 0 = end\n\
end exit 4\n",
    },
];

#[test]
fn joins_and_detaches(rt: HostRuntime) -> Result<(), Fail> {
    let alloc = rt.alloc();
    assert_eq!(rt; first_other(alloc, JOINS)?, None);
    assert_eq!(rt; first_other(alloc, DETACHES)?, None);
    Ok(())
}
