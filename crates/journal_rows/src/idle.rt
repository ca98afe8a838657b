//! Programs all of whose threads wait while a journal has entries: then the next entry comes alone and at once, however
//! far its place is. Each has the text that the rules of the machine give it. A call is eleven instructions, and one that
//! is made again is one. Calls: 286 sets a signal's handler, 287 changes the mask. Bit 10 of a set is 1024,
//! bit 15 is 32,768.

use std::test::Fail;
use workload_gen::program::Item::{At, Ret, Sys};
use workload_gen::program::{END, Item, JournalRow, SELF, YIELD, first_other_under};

/// A thread that waits for a mutex that it has, and a handler of signal 10 that lets it wait again.
const STUCK: &[Item] = &[
    Sys(274, [0, 0, 0, 0]),
    Sys(286, [10, 65_840, 0, 0]),
    Sys(276, [0, 0, 0, 0]),
    Sys(276, [0, 0, 0, 0]),
    END,
    At(65_840),
    SELF,
    Ret,
];

/// A thread that waits for a mutex that it has, and a handler of signal 10 that gives the mutex back.
const FREED: &[Item] = &[
    Sys(274, [0, 0, 0, 0]),
    Sys(286, [10, 65_840, 0, 0]),
    Sys(276, [0, 0, 0, 0]),
    Sys(276, [0, 0, 0, 0]),
    END,
    At(65_840),
    Sys(278, [0, 0, 0, 0]),
    Ret,
];

/// One thread that waits.
const ALONE: &[JournalRow<'static>] = &[
    // its handler ends the wait for good
    JournalRow {
        items: FREED,
        entries: b"500000.0 sig 10\n",
        text: b"run 1\n\
call 1 274 0 0 0 0 = 0 0\n\
call 1 286 10 65840 0 0 = 0 0\n\
call 1 276 0 0 0 0 = 0 0\n\
call 1 276 0 0 0 0 = block\n\
arrive 1 1 sig 10\n\
deliver 1 10 1\n\
call 1 278 0 0 0 0 = 0 0\n\
ret 1 handler\n\
call 1 276 0 0 0 0 = 0 0\n\
call 1 93 0 0 0 0 = end\n\
end exit 0\n",
    },
    // the first entry changes nothing, so the second comes; the third is not told
    JournalRow {
        items: FREED,
        entries: b"500000.0 sig 17\n500000.0 sig 10\n500001.0 sig 9\n",
        text: b"run 1\n\
call 1 274 0 0 0 0 = 0 0\n\
call 1 286 10 65840 0 0 = 0 0\n\
call 1 276 0 0 0 0 = 0 0\n\
call 1 276 0 0 0 0 = block\n\
arrive 1 1 sig 17\n\
drop 17 1\n\
arrive 2 1 sig 10\n\
deliver 1 10 1\n\
call 1 278 0 0 0 0 = 0 0\n\
ret 1 handler\n\
call 1 276 0 0 0 0 = 0 0\n\
call 1 93 0 0 0 0 = end\n\
end exit 0\n",
    },
    // entries of one place come one by one, each when all threads wait; the run is idle when none is left
    JournalRow {
        items: STUCK,
        entries: b"500000.0 sig 10\n500000.0 sig 10\n",
        text: b"run 1\n\
call 1 274 0 0 0 0 = 0 0\n\
call 1 286 10 65840 0 0 = 0 0\n\
call 1 276 0 0 0 0 = 0 0\n\
call 1 276 0 0 0 0 = block\n\
arrive 1 1 sig 10\n\
deliver 1 10 1\n\
call 1 260 0 0 0 0 = 0 1\n\
ret 1 handler\n\
call 1 276 0 0 0 0 = block\n\
arrive 2 1 sig 10\n\
deliver 1 10 1\n\
call 1 260 0 0 0 0 = 0 1\n\
ret 1 handler\n\
call 1 276 0 0 0 0 = block\n\
end idle\n",
    },
    // those that are reached when all threads wait come together, and the next one within the handler
    JournalRow {
        items: STUCK,
        entries: b"44.0 sig 10\n44.0 sig 10\n45.0 sig 10\n100.0 sig 17\n",
        text: b"run 1\n\
call 1 274 0 0 0 0 = 0 0\n\
call 1 286 10 65840 0 0 = 0 0\n\
call 1 276 0 0 0 0 = 0 0\n\
call 1 276 0 0 0 0 = block\n\
arrive 1 2 sig 10\n\
deliver 1 10 2\n\
arrive 3 1 sig 10\n\
call 1 260 0 0 0 0 = 0 1\n\
ret 1 handler\n\
deliver 1 10 1\n\
call 1 260 0 0 0 0 = 0 1\n\
ret 1 handler\n\
call 1 276 0 0 0 0 = block\n\
arrive 4 1 sig 17\n\
drop 17 1\n\
end idle\n",
    },
    // one instruction later the first comes alone, and the second when it is reached, within the handler
    JournalRow {
        items: STUCK,
        entries: b"45.0 sig 10\n45.0 sig 10\n",
        text: b"run 1\n\
call 1 274 0 0 0 0 = 0 0\n\
call 1 286 10 65840 0 0 = 0 0\n\
call 1 276 0 0 0 0 = 0 0\n\
call 1 276 0 0 0 0 = block\n\
arrive 1 1 sig 10\n\
deliver 1 10 1\n\
arrive 2 1 sig 10\n\
call 1 260 0 0 0 0 = 0 1\n\
ret 1 handler\n\
deliver 1 10 1\n\
call 1 260 0 0 0 0 = 0 1\n\
ret 1 handler\n\
call 1 276 0 0 0 0 = block\n\
end idle\n",
    },
    // the default of a signal at the farthest place ends the process
    JournalRow {
        items: STUCK,
        entries: b"1000000000.1000000 sig 15\n",
        text: b"run 1\n\
call 1 274 0 0 0 0 = 0 0\n\
call 1 286 10 65840 0 0 = 0 0\n\
call 1 276 0 0 0 0 = 0 0\n\
call 1 276 0 0 0 0 = block\n\
arrive 1 1 sig 15\n\
deliver 1 15 1\n\
end killed 15\n",
    },
    // KILL, with another entry left
    JournalRow {
        items: STUCK,
        entries: b"2000000.0 sig 9\n2000000.0 sig 9\n",
        text: b"run 1\n\
call 1 274 0 0 0 0 = 0 0\n\
call 1 286 10 65840 0 0 = 0 0\n\
call 1 276 0 0 0 0 = 0 0\n\
call 1 276 0 0 0 0 = block\n\
arrive 1 1 sig 9\n\
deliver 0 9 1\n\
end killed 9\n",
    },
    // blocked signals come too, one by one, and are left
    JournalRow {
        items: &[
            Sys(274, [0, 0, 0, 0]),
            Sys(276, [0, 0, 0, 0]),
            Sys(287, [0, 1024, 0, 0]),
            Sys(276, [0, 0, 0, 0]),
        ],
        entries: b"900000.0 sig 10\n900000.0 sig 10\n",
        text: b"run 1\n\
call 1 274 0 0 0 0 = 0 0\n\
call 1 276 0 0 0 0 = 0 0\n\
call 1 287 0 1024 0 0 = 0 0\n\
call 1 276 0 0 0 0 = block\n\
arrive 1 1 sig 10\n\
arrive 2 1 sig 10\n\
left 10 2\n\
end idle\n",
    },
    // a wait for a condition, whose mutex is free
    JournalRow {
        items: &[
            Sys(274, [0, 0, 0, 0]),
            Sys(280, [0, 0, 0, 0]),
            Sys(286, [10, 65_884, 0, 0]),
            Sys(276, [0, 0, 0, 0]),
            Sys(282, [0, 0, 0, 0]),
            END,
            At(65_884),
            SELF,
            Ret,
        ],
        entries: b"500000.0 sig 10\n",
        text: b"run 1\n\
call 1 274 0 0 0 0 = 0 0\n\
call 1 280 0 0 0 0 = 0 0\n\
call 1 286 10 65884 0 0 = 0 0\n\
call 1 276 0 0 0 0 = 0 0\n\
call 1 282 0 0 0 0 = block\n\
arrive 1 1 sig 10\n\
interrupt 1 10 1\n\
done 1 0 0\n\
deliver 1 10 1\n\
call 1 260 0 0 0 0 = 0 1\n\
ret 1 handler\n\
call 1 93 0 0 0 0 = end\n\
end exit 0\n",
    },
];

/// Two threads that wait.
const TOGETHER: &[JournalRow<'static>] = &[
    // thread 1 joins thread 2, which waits for its mutex: the handler gives the mutex back
    JournalRow {
        items: &[
            Sys(274, [0, 0, 0, 0]),
            Sys(286, [10, 65_884, 0, 0]),
            Sys(276, [0, 0, 0, 0]),
            Sys(256, [65_932, 0, 131_072, 0]),
            Sys(258, [2, 0, 0, 0]),
            END,
            At(65_884),
            Sys(278, [0, 0, 0, 0]),
            Ret,
            At(65_932),
            Sys(276, [0, 0, 0, 0]),
            Sys(257, [6, 0, 0, 0]),
        ],
        entries: b"700000.0 sig 10\n",
        text: b"run 1\n\
call 1 274 0 0 0 0 = 0 0\n\
call 1 286 10 65884 0 0 = 0 0\n\
call 1 276 0 0 0 0 = 0 0\n\
call 1 256 65932 0 131072 0 = 0 2\n\
call 1 258 2 0 0 0 = block\n\
run 2\n\
call 2 276 0 0 0 0 = block\n\
arrive 1 1 sig 10\n\
deliver 1 10 1\n\
run 1\n\
call 1 278 0 0 0 0 = 0 0\n\
done 2 0 0\n\
ret 1 handler\n\
call 1 258 2 0 0 0 = block\n\
run 2\n\
call 2 257 6 0 0 0 = exit\n\
ret 2 cleanup\n\
gone 2 6\n\
done 1 0 6\n\
run 1\n\
call 1 93 0 0 0 0 = end\n\
end exit 0\n",
    },
    // thread 1 blocks the signal, so the handler runs in thread 2, which then waits again
    JournalRow {
        items: &[
            Sys(274, [0, 0, 0, 0]),
            Sys(286, [10, 65_928, 0, 0]),
            Sys(276, [0, 0, 0, 0]),
            Sys(256, [65_976, 0, 131_072, 0]),
            Sys(287, [0, 1024, 0, 0]),
            Sys(258, [2, 0, 0, 0]),
            END,
            At(65_928),
            SELF,
            Ret,
            At(65_976),
            Sys(276, [0, 0, 0, 0]),
        ],
        entries: b"700000.0 sig 10\n700000.0 sig 15\n",
        text: b"run 1\n\
call 1 274 0 0 0 0 = 0 0\n\
call 1 286 10 65928 0 0 = 0 0\n\
call 1 276 0 0 0 0 = 0 0\n\
call 1 256 65976 0 131072 0 = 0 2\n\
call 1 287 0 1024 0 0 = 0 0\n\
call 1 258 2 0 0 0 = block\n\
run 2\n\
call 2 276 0 0 0 0 = block\n\
arrive 1 1 sig 10\n\
deliver 2 10 1\n\
call 2 260 0 0 0 0 = 0 2\n\
ret 2 handler\n\
call 2 276 0 0 0 0 = block\n\
arrive 2 1 sig 15\n\
deliver 1 15 1\n\
end killed 15\n",
    },
    // thread 2 is interrupted in its wait for a condition; while it waits to have its mutex back it takes no signal, not
    // even one whose default would end the process, and thread 1 blocks them
    JournalRow {
        items: &[
            Sys(274, [0, 0, 0, 0]),
            Sys(280, [0, 0, 0, 0]),
            Sys(286, [10, 66_016, 0, 0]),
            Sys(256, [66_064, 0, 131_072, 0]),
            Sys(287, [0, 33_792, 0, 0]),
            YIELD,
            Sys(276, [0, 0, 0, 0]),
            Sys(258, [2, 0, 0, 0]),
            END,
            At(66_016),
            SELF,
            Ret,
            At(66_064),
            Sys(276, [0, 0, 0, 0]),
            Sys(282, [0, 0, 0, 0]),
        ],
        entries: b"500000.0 sig 10\n500000.0 sig 10\n500000.0 sig 15\n",
        text: b"run 1\n\
call 1 274 0 0 0 0 = 0 0\n\
call 1 280 0 0 0 0 = 0 0\n\
call 1 286 10 66016 0 0 = 0 0\n\
call 1 256 66064 0 131072 0 = 0 2\n\
call 1 287 0 33792 0 0 = 0 0\n\
call 1 261 0 0 0 0 = 0 0\n\
run 2\n\
call 2 276 0 0 0 0 = 0 0\n\
call 2 282 0 0 0 0 = block\n\
run 1\n\
call 1 276 0 0 0 0 = 0 0\n\
call 1 258 2 0 0 0 = block\n\
arrive 1 1 sig 10\n\
interrupt 2 10 1\n\
arrive 2 1 sig 10\n\
arrive 3 1 sig 15\n\
left 10 2\n\
left 15 1\n\
end idle\n",
    },
];

#[test]
fn one_thread_waits(rt: HostRuntime) -> Result<(), Fail> {
    assert_eq!(rt; first_other_under(rt.alloc(), ALONE)?, None);
    Ok(())
}

#[test]
fn two_threads_wait(rt: HostRuntime) -> Result<(), Fail> {
    assert_eq!(rt; first_other_under(rt.alloc(), TOGETHER)?, None);
    Ok(())
}
