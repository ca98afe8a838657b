//! Programs of many threads, each with the text that the rules of the machine give it. Calls: 64 write,
//! 93 exit of the process, 256 create, 257 exit of the thread, 258 join, 259 detach, 260 self, 261 yield.
//! Attributes are 65536 (detached), and 131072 (they tell the scheduling) + 256 * policy + priority.

use std::alloc::Global;
use std::test::Fail;
use workload_gen::program::Item::{At, Ret, Sys};
use workload_gen::program::{END, Item, Row, SELF, YIELD, first_other};

/// Who runs, among equals.
const TURNS: &[Row<'static>] = &[
    // a yield, a join that waits, and the end of the thread that it waits for
    Row {
        items: &[
            Sys(256, [65_796, 7, 131_072, 0]),
            YIELD,
            Sys(258, [2, 0, 0, 0]),
            END,
            At(65_796),
            YIELD,
            Sys(257, [5, 0, 0, 0]),
        ],
        text: b"run 1\n\
call 1 256 65796 7 131072 0 = 0 2\n\
call 1 261 0 0 0 0 = 0 0\n\
run 2\n\
call 2 261 0 0 0 0 = 0 0\n\
run 1\n\
call 1 258 2 0 0 0 = block\n\
run 2\n\
call 2 257 5 0 0 0 = exit\n\
ret 2 cleanup\n\
gone 2 5\n\
done 1 0 5\n\
run 1\n\
call 1 93 0 0 0 0 = end\n\
end exit 0\n",
    },
    // three threads yield in turn
    Row {
        items: &[
            Sys(256, [65_840, 0, 131_072, 0]),
            Sys(256, [65_840, 0, 135_168, 0]),
            YIELD,
            YIELD,
            END,
            At(65_840),
            YIELD,
            YIELD,
            Sys(257, [0, 0, 0, 0]),
        ],
        text: b"run 1\n\
call 1 256 65840 0 131072 0 = 0 2\n\
call 1 256 65840 0 135168 0 = 0 3\n\
call 1 261 0 0 0 0 = 0 0\n\
run 2\n\
call 2 261 0 0 0 0 = 0 0\n\
run 3\n\
call 3 261 0 0 0 0 = 0 0\n\
run 1\n\
call 1 261 0 0 0 0 = 0 0\n\
run 2\n\
call 2 261 0 0 0 0 = 0 0\n\
run 3\n\
call 3 261 0 0 0 0 = 0 0\n\
run 1\n\
call 1 93 0 0 0 0 = end\n\
end exit 0\n",
    },
    // who is answered goes on after its equals
    Row {
        items: &[
            Sys(256, [65_796, 0, 131_072, 0]),
            Sys(256, [65_840, 0, 135_168, 0]),
            Sys(258, [2, 0, 0, 0]),
            END,
            At(65_796),
            Sys(257, [2, 0, 0, 0]),
            At(65_840),
            Sys(257, [3, 0, 0, 0]),
        ],
        text: b"run 1\n\
call 1 256 65796 0 131072 0 = 0 2\n\
call 1 256 65840 0 135168 0 = 0 3\n\
call 1 258 2 0 0 0 = block\n\
run 2\n\
call 2 257 2 0 0 0 = exit\n\
ret 2 cleanup\n\
gone 2 2\n\
done 1 0 2\n\
run 3\n\
call 3 257 3 0 0 0 = exit\n\
ret 3 cleanup\n\
gone 3 3\n\
run 1\n\
call 1 93 0 0 0 0 = end\n\
end exit 0\n",
    },
    // two threads join each other, and nobody can go on
    Row {
        items: &[
            Sys(256, [65_708, 0, 131_072, 0]),
            Sys(258, [2, 0, 0, 0]),
            At(65_708),
            Sys(258, [1, 0, 0, 0]),
        ],
        text: b"run 1\n\
call 1 256 65708 0 131072 0 = 0 2\n\
call 1 258 2 0 0 0 = block\n\
run 2\n\
call 2 258 1 0 0 0 = block\n\
end idle\n",
    },
    // a circle of three joins
    Row {
        items: &[
            Sys(256, [65_752, 0, 131_072, 0]),
            Sys(256, [65_796, 0, 135_168, 0]),
            Sys(258, [2, 0, 0, 0]),
            At(65_752),
            Sys(258, [3, 0, 0, 0]),
            At(65_796),
            Sys(258, [1, 0, 0, 0]),
        ],
        text: b"run 1\n\
call 1 256 65752 0 131072 0 = 0 2\n\
call 1 256 65796 0 135168 0 = 0 3\n\
call 1 258 2 0 0 0 = block\n\
run 2\n\
call 2 258 3 0 0 0 = block\n\
run 3\n\
call 3 258 1 0 0 0 = block\n\
end idle\n",
    },
];

/// Who runs, by priority; thread 1 has 8.
const PRIORITIES: &[Row<'static>] = &[
    // a new thread of priority 12 runs at once, and goes on after its yield
    Row {
        items: &[
            Sys(256, [65_708, 7, 131_072, 131_084]),
            END,
            At(65_708),
            SELF,
            YIELD,
            Sys(257, [5, 0, 0, 0]),
        ],
        text: b"run 1\n\
call 1 256 65708 7 131072 131084 = 0 2\n\
run 2\n\
call 2 260 0 0 0 0 = 0 2\n\
call 2 261 0 0 0 0 = 0 0\n\
call 2 257 5 0 0 0 = exit\n\
ret 2 cleanup\n\
gone 2 5\n\
run 1\n\
call 1 93 0 0 0 0 = end\n\
end exit 0\n",
    },
    // one of priority 4 runs when its creator waits, and not when it yields
    Row {
        items: &[
            Sys(256, [65_796, 0, 131_072, 131_076]),
            YIELD,
            Sys(258, [2, 0, 0, 0]),
            Sys(93, [1, 0, 0, 0]),
            At(65_796),
            Sys(257, [6, 0, 0, 0]),
        ],
        text: b"run 1\n\
call 1 256 65796 0 131072 131076 = 0 2\n\
call 1 261 0 0 0 0 = 0 0\n\
call 1 258 2 0 0 0 = block\n\
run 2\n\
call 2 257 6 0 0 0 = exit\n\
ret 2 cleanup\n\
gone 2 6\n\
done 1 0 6\n\
run 1\n\
call 1 93 1 0 0 0 = end\n\
end exit 1\n",
    },
    // thread 3 has its creator's 12, not the 31 of bits that do not count: it runs after 2, before 1
    Row {
        items: &[
            Sys(256, [65_708, 0, 131_072, 131_084]),
            END,
            At(65_708),
            Sys(256, [65_796, 0, 135_168, 31]),
            Sys(257, [1, 0, 0, 0]),
            At(65_796),
            SELF,
            Sys(257, [2, 0, 0, 0]),
        ],
        text: b"run 1\n\
call 1 256 65708 0 131072 131084 = 0 2\n\
run 2\n\
call 2 256 65796 0 135168 31 = 0 3\n\
call 2 257 1 0 0 0 = exit\n\
ret 2 cleanup\n\
gone 2 1\n\
run 3\n\
call 3 260 0 0 0 0 = 0 3\n\
call 3 257 2 0 0 0 = exit\n\
ret 3 cleanup\n\
gone 3 2\n\
run 1\n\
call 1 93 0 0 0 0 = end\n\
end exit 0\n",
    },
    // a creator that is preempted, here by FIFO with priority 31, stays before its equals
    Row {
        items: &[
            Sys(256, [65_752, 0, 131_072, 0]),
            Sys(256, [65_752, 0, 135_168, 131_359]),
            END,
            At(65_752),
            Sys(257, [3, 0, 0, 0]),
        ],
        text: b"run 1\n\
call 1 256 65752 0 131072 0 = 0 2\n\
call 1 256 65752 0 135168 131359 = 0 3\n\
run 3\n\
call 3 257 3 0 0 0 = exit\n\
ret 3 cleanup\n\
gone 3 3\n\
run 1\n\
call 1 93 0 0 0 0 = end\n\
end exit 0\n",
    },
    // FIFO with priority 4 goes before RR with 0, though it came later
    Row {
        items: &[
            Sys(256, [65_796, 0, 131_072, 131_584]),
            Sys(256, [65_796, 0, 135_168, 131_332]),
            Sys(258, [2, 0, 0, 0]),
            END,
            At(65_796),
            Sys(257, [9, 0, 0, 0]),
        ],
        text: b"run 1\n\
call 1 256 65796 0 131072 131584 = 0 2\n\
call 1 256 65796 0 135168 131332 = 0 3\n\
call 1 258 2 0 0 0 = block\n\
run 3\n\
call 3 257 9 0 0 0 = exit\n\
ret 3 cleanup\n\
gone 3 9\n\
run 2\n\
call 2 257 9 0 0 0 = exit\n\
ret 2 cleanup\n\
gone 2 9\n\
done 1 0 9\n\
run 1\n\
call 1 93 0 0 0 0 = end\n\
end exit 0\n",
    },
    // a join lends no priority: 3 with 12 waits for 2 with 4, and 1 with 8 goes on
    Row {
        items: &[
            Sys(256, [65_840, 0, 131_072, 131_076]),
            Sys(256, [65_796, 0, 135_168, 131_084]),
            SELF,
            END,
            At(65_796),
            Sys(258, [2, 0, 0, 0]),
            At(65_840),
            Sys(257, [0, 0, 0, 0]),
        ],
        text: b"run 1\n\
call 1 256 65840 0 131072 131076 = 0 2\n\
call 1 256 65796 0 135168 131084 = 0 3\n\
run 3\n\
call 3 258 2 0 0 0 = block\n\
run 1\n\
call 1 260 0 0 0 0 = 0 1\n\
call 1 93 0 0 0 0 = end\n\
end exit 0\n",
    },
];

/// How threads return and end.
const ENDS: &[Row<'static>] = &[
    // a return at once: the value is the argument, which stands in a0
    Row {
        items: &[
            Sys(256, [65_752, 7, 131_072, 0]),
            Sys(258, [2, 0, 0, 0]),
            END,
            At(65_752),
            Ret,
        ],
        text: b"run 1\n\
call 1 256 65752 7 131072 0 = 0 2\n\
call 1 258 2 0 0 0 = block\n\
run 2\n\
ret 2 start\n\
ret 2 cleanup\n\
gone 2 7\n\
done 1 0 7\n\
run 1\n\
call 1 93 0 0 0 0 = end\n\
end exit 0\n",
    },
    // a return after a write that is refused with 9: the value is -9
    Row {
        items: &[
            Sys(256, [65_752, 0, 131_072, 0]),
            Sys(258, [2, 0, 0, 0]),
            END,
            At(65_752),
            Sys(64, [7, 65_620, 1, 0]),
            Ret,
        ],
        text: b"run 1\n\
call 1 256 65752 0 131072 0 = 0 2\n\
call 1 258 2 0 0 0 = block\n\
run 2\n\
call 2 64 7 65620 1 0 = 9 0\n\
ret 2 start\n\
ret 2 cleanup\n\
gone 2 4294967287\n\
done 1 0 4294967287\n\
run 1\n\
call 1 93 0 0 0 0 = end\n\
end exit 0\n",
    },
    // thread 1 ends and another goes on; the end of the last ends the process with 0
    Row {
        items: &[
            Sys(256, [65_708, 0, 131_072, 0]),
            Sys(257, [3, 0, 0, 0]),
            At(65_708),
            SELF,
            Sys(257, [4, 0, 0, 0]),
        ],
        text: b"run 1\n\
call 1 256 65708 0 131072 0 = 0 2\n\
call 1 257 3 0 0 0 = exit\n\
ret 1 cleanup\n\
gone 1 3\n\
run 2\n\
call 2 260 0 0 0 0 = 0 2\n\
call 2 257 4 0 0 0 = exit\n\
ret 2 cleanup\n\
gone 2 4\n\
end exit 0\n",
    },
    // the same where thread 1 returns
    Row {
        items: &[Sys(256, [65_668, 6, 131_072, 0]), Ret, At(65_668), Ret],
        text: b"run 1\n\
call 1 256 65668 6 131072 0 = 0 2\n\
ret 1 start\n\
ret 1 cleanup\n\
gone 1 0\n\
run 2\n\
ret 2 start\n\
ret 2 cleanup\n\
gone 2 6\n\
end exit 0\n",
    },
    // thread 1 alone ends: its value is not the status
    Row {
        items: &[Sys(257, [9, 0, 0, 0])],
        text: b"run 1\n\
call 1 257 9 0 0 0 = exit\n\
ret 1 cleanup\n\
gone 1 9\n\
end exit 0\n",
    },
    // thread 1 has ended: its value is collected, and its number is that of a new thread
    Row {
        items: &[
            Sys(256, [65_708, 0, 131_072, 0]),
            Sys(257, [8, 0, 0, 0]),
            At(65_708),
            Sys(258, [1, 0, 0, 0]),
            Sys(256, [65_840, 5, 135_168, 0]),
            Sys(257, [0, 0, 0, 0]),
            At(65_840),
            Ret,
        ],
        text: b"run 1\n\
call 1 256 65708 0 131072 0 = 0 2\n\
call 1 257 8 0 0 0 = exit\n\
ret 1 cleanup\n\
gone 1 8\n\
run 2\n\
call 2 258 1 0 0 0 = 0 8\n\
call 2 256 65840 5 135168 0 = 0 1\n\
call 2 257 0 0 0 0 = exit\n\
ret 2 cleanup\n\
gone 2 0\n\
run 1\n\
ret 1 start\n\
ret 1 cleanup\n\
gone 1 5\n\
end exit 0\n",
    },
    // thread 2 exits the process while thread 1 waits for it; the status is one byte
    Row {
        items: &[
            Sys(256, [65_708, 0, 131_072, 0]),
            Sys(258, [2, 0, 0, 0]),
            At(65_708),
            Sys(93, [259, 0, 0, 0]),
        ],
        text: b"run 1\n\
call 1 256 65708 0 131072 0 = 0 2\n\
call 1 258 2 0 0 0 = block\n\
run 2\n\
call 2 93 259 0 0 0 = end\n\
end exit 3\n",
    },
];

/// What a thread can be made with.
const CREATES: &[Row<'static>] = &[
    // refusals: a routine that is no multiple of 4, a stack that is none of 16, bits that no attribute has,
    // policy 3 where it counts; where it does not it is taken
    Row {
        items: &[
            Sys(256, [65_622, 0, 131_072, 0]),
            Sys(256, [65_620, 0, 131_080, 0]),
            Sys(256, [65_620, 0, 131_072, 32]),
            Sys(256, [65_620, 0, 131_072, 1_024]),
            Sys(256, [65_620, 0, 131_072, 32_768]),
            Sys(256, [65_620, 0, 131_072, 262_144]),
            Sys(256, [65_620, 0, 131_072, 2_147_483_648]),
            Sys(256, [65_620, 0, 131_072, 131_840]),
            Sys(256, [65_620, 0, 131_072, 768]),
            END,
        ],
        text: b"run 1\n\
call 1 256 65622 0 131072 0 = 22 0\n\
call 1 256 65620 0 131080 0 = 22 0\n\
call 1 256 65620 0 131072 32 = 22 0\n\
call 1 256 65620 0 131072 1024 = 22 0\n\
call 1 256 65620 0 131072 32768 = 22 0\n\
call 1 256 65620 0 131072 262144 = 22 0\n\
call 1 256 65620 0 131072 2147483648 = 22 0\n\
call 1 256 65620 0 131072 131840 = 22 0\n\
call 1 256 65620 0 131072 768 = 0 2\n\
call 1 93 0 0 0 0 = end\n\
end exit 0\n",
    },
    // policy 3 and priority 31 do not count: the thread waits for its turn, and runs
    Row {
        items: &[
            Sys(256, [65_752, 1, 131_072, 799]),
            YIELD,
            END,
            At(65_752),
            Ret,
        ],
        text: b"run 1\n\
call 1 256 65752 1 131072 799 = 0 2\n\
call 1 261 0 0 0 0 = 0 0\n\
run 2\n\
ret 2 start\n\
ret 2 cleanup\n\
gone 2 1\n\
run 1\n\
call 1 93 0 0 0 0 = end\n\
end exit 0\n",
    },
    // a routine that begins at an ecall shows the first registers: a0 is the argument, a1 to a3 and a7 are 0;
    // the value is -38
    Row {
        items: &[
            Sys(256, [65_792, 7, 131_072, 131_084]),
            Sys(258, [2, 0, 0, 0]),
            END,
            At(65_752),
            Sys(17, [1, 2, 3, 4]),
            Ret,
        ],
        text: b"run 1\n\
call 1 256 65792 7 131072 131084 = 0 2\n\
run 2\n\
call 2 0 7 0 0 0 = 38 0\n\
ret 2 start\n\
ret 2 cleanup\n\
gone 2 4294967258\n\
run 1\n\
call 1 258 2 0 0 0 = 0 4294967258\n\
call 1 93 0 0 0 0 = end\n\
end exit 0\n",
    },
    // a routine at 0xffffffd0 is the return itself
    Row {
        items: &[
            Sys(256, [4_294_967_248, 7, 131_072, 131_084]),
            Sys(258, [2, 0, 0, 0]),
            END,
        ],
        text: b"run 1\n\
call 1 256 4294967248 7 131072 131084 = 0 2\n\
run 2\n\
ret 2 start\n\
ret 2 cleanup\n\
gone 2 7\n\
run 1\n\
call 1 258 2 0 0 0 = 0 7\n\
call 1 93 0 0 0 0 = end\n\
end exit 0\n",
    },
    // a write by thread 2
    Row {
        items: &[
            Sys(256, [65_708, 0, 131_072, 131_084]),
            END,
            At(65_708),
            Sys(64, [2, 65_536, 4, 0]),
            Sys(257, [0, 0, 0, 0]),
        ],
        text: b"run 1\n\
call 1 256 65708 0 131072 131084 = 0 2\n\
run 2\n\
call 2 64 2 65536 4 0 = 0 4\n\
out 2 2 7f454c46\n\
call 2 257 0 0 0 0 = exit\n\
ret 2 cleanup\n\
gone 2 0\n\
run 1\n\
call 1 93 0 0 0 0 = end\n\
end exit 0\n",
    },
    // numbers without a call, by thread 2; the second leaves its error in a0
    Row {
        items: &[
            Sys(256, [65_708, 0, 131_072, 131_084]),
            END,
            At(65_708),
            Sys(17, [1, 2, 3, 4]),
            Sys(4_294_967_295, [1, 2, 3, 4]),
            Ret,
        ],
        text: b"run 1\n\
call 1 256 65708 0 131072 131084 = 0 2\n\
run 2\n\
call 2 17 1 2 3 4 = 38 0\n\
call 2 4294967295 1 2 3 4 = 38 0\n\
ret 2 start\n\
ret 2 cleanup\n\
gone 2 38\n\
run 1\n\
call 1 93 0 0 0 0 = end\n\
end exit 0\n",
    },
];

/// Faults of another thread than 1.
const FAULTS: &[Row<'static>] = &[
    // a routine before the window, and a stack too
    Row {
        items: &[Sys(256, [0, 0, 0, 131_084]), END],
        text: b"run 1\n\
call 1 256 0 0 0 131084 = 0 2\n\
run 2\n\
fault 2 11\n\
deliver 2 11 1\n\
end killed 11\n",
    },
    // a routine after the window, while thread 1 waits
    Row {
        items: &[Sys(256, [4_259_840, 0, 131_072, 0]), Sys(258, [2, 0, 0, 0])],
        text: b"run 1\n\
call 1 256 4259840 0 131072 0 = 0 2\n\
call 1 258 2 0 0 0 = block\n\
run 2\n\
fault 2 11\n\
deliver 2 11 1\n\
end killed 11\n",
    },
    // a routine in memory that is 0: no instruction
    Row {
        items: &[Sys(256, [131_072, 0, 131_072, 131_084]), END],
        text: b"run 1\n\
call 1 256 131072 0 131072 131084 = 0 2\n\
run 2\n\
fault 2 4\n\
deliver 2 4 1\n\
end killed 4\n",
    },
    // a routine at 0xffffffe0: the return of an exit is not due
    Row {
        items: &[Sys(256, [4_294_967_264, 0, 131_072, 131_084]), END],
        text: b"run 1\n\
call 1 256 4294967264 0 131072 131084 = 0 2\n\
run 2\n\
fault 2 11\n\
deliver 2 11 1\n\
end killed 11\n",
    },
    // a routine at 0xfffffff0: the return of a handler is not due
    Row {
        items: &[Sys(256, [4_294_967_280, 0, 131_072, 131_084]), END],
        text: b"run 1\n\
call 1 256 4294967280 0 131072 131084 = 0 2\n\
run 2\n\
fault 2 11\n\
deliver 2 11 1\n\
end killed 11\n",
    },
];

#[test]
fn turns_and_priorities(rt: HostRuntime) -> Result<(), Fail> {
    let alloc = rt.alloc();
    assert_eq!(rt; first_other(alloc, TURNS)?, None);
    assert_eq!(rt; first_other(alloc, PRIORITIES)?, None);
    Ok(())
}

#[test]
fn ends_and_faults(rt: HostRuntime) -> Result<(), Fail> {
    let alloc = rt.alloc();
    assert_eq!(rt; first_other(alloc, ENDS)?, None);
    assert_eq!(rt; first_other(alloc, FAULTS)?, None);
    Ok(())
}

#[test]
fn creates(rt: HostRuntime) -> Result<(), Fail> {
    assert_eq!(rt; first_other(rt.alloc(), CREATES)?, None);
    Ok(())
}

/// A program that makes the threads 2 to `last` of its own priority, and its text. Each would return its number.
fn filling(alloc: Global, last: u32) -> Result<(Vec<Item>, Vec<u8>), Fail> {
    let mut items = Vec::new(alloc);
    let mut text = Vec::from_slice(alloc, b"run 1\n")?;
    for number in 2..=last {
        items.push(Sys(256, [68_480, number, 131_072, 0]))?;
        let line = format!(in alloc; "call 1 256 68480 {number} 131072 0 = 0 {number}\n")?;
        text.extend_from_slice(line.as_bytes())?;
    }
    Ok((items, text))
}

#[test]
fn no_number_is_left(rt: HostRuntime) -> Result<(), Fail> {
    let alloc = rt.alloc();
    let (mut items, mut text) = filling(alloc, 64)?;
    // create answers EAGAIN, after its other refusals; there is a thread 64
    items.extend_from_slice(&[
        Sys(256, [65_620, 0, 131_072, 0]),
        Sys(256, [65_622, 0, 131_072, 0]),
        Sys(259, [64, 0, 0, 0]),
        Sys(259, [64, 0, 0, 0]),
        END,
    ])?;
    text.extend_from_slice(
        b"call 1 256 65620 0 131072 0 = 11 0\n\
call 1 256 65622 0 131072 0 = 22 0\n\
call 1 259 64 0 0 0 = 0 0\n\
call 1 259 64 0 0 0 = 22 0\n\
call 1 93 0 0 0 0 = end\n\
end exit 0\n",
    )?;
    let row = Row {
        items: &items,
        text: &text,
    };
    assert_eq!(rt; first_other(alloc, &[row])?, None);
    Ok(())
}

#[test]
fn every_thread_has_its_turn(rt: HostRuntime) -> Result<(), Fail> {
    let alloc = rt.alloc();
    let (mut items, mut text) = filling(alloc, 64)?;
    items.extend_from_slice(&[Sys(258, [64, 0, 0, 0]), END, At(68_480), Ret])?;
    text.extend_from_slice(b"call 1 258 64 0 0 0 = block\n")?;
    for number in 2..=64u32 {
        let lines = format!(in alloc;
            "run {number}\nret {number} start\nret {number} cleanup\ngone {number} {number}\n"
        )?;
        text.extend_from_slice(lines.as_bytes())?;
    }
    text.extend_from_slice(
        b"done 1 0 64\n\
run 1\n\
call 1 93 0 0 0 0 = end\n\
end exit 0\n",
    )?;
    let row = Row {
        items: &items,
        text: &text,
    };
    assert_eq!(rt; first_other(alloc, &[row])?, None);
    Ok(())
}

#[test]
fn the_last_number_joins(rt: HostRuntime) -> Result<(), Fail> {
    let alloc = rt.alloc();
    let (mut items, mut text) = filling(alloc, 63)?;
    // thread 64 has priority 12 and waits for thread 1, whose number it gives to a new thread
    items.extend_from_slice(&[
        Sys(256, [68_480, 0, 131_072, 131_084]),
        Sys(256, [68_480, 0, 131_072, 0]),
        Sys(257, [9, 0, 0, 0]),
        At(68_480),
        Sys(258, [1, 0, 0, 0]),
        Sys(256, [65_620, 0, 131_072, 0]),
        END,
    ])?;
    text.extend_from_slice(
        b"call 1 256 68480 0 131072 131084 = 0 64\n\
run 64\n\
call 64 258 1 0 0 0 = block\n\
run 1\n\
call 1 256 68480 0 131072 0 = 11 0\n\
call 1 257 9 0 0 0 = exit\n\
ret 1 cleanup\n\
gone 1 9\n\
done 64 0 9\n\
run 64\n\
call 64 256 65620 0 131072 0 = 0 1\n\
call 64 93 0 0 0 0 = end\n\
end exit 0\n",
    )?;
    let row = Row {
        items: &items,
        text: &text,
    };
    assert_eq!(rt; first_other(alloc, &[row])?, None);
    Ok(())
}
