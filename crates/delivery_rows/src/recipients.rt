//! Programs that show to whom a signal of a journal goes and what it does there, each with the text that the rules of the
//! machine give it. A call is eleven instructions. Calls: 286 sets the action of a signal (0 the default, 1 to ignore, else
//! a handler's address), 287 changes the mask (0 adds, 1 takes away). Bit 10 of a set is 1024, bit 17 is 131,072.

use std::test::Fail;
use workload_gen::program::Item::{At, Ret, Sys};
use workload_gen::program::{END, Item, JournalRow, SELF, YIELD, first_other_under};

/// Two threads that are both free for signal 10.
const BOTH_FREE: &[Item] = &[
    Sys(286, [10, 65_796, 0, 0]),
    Sys(256, [65_844, 0, 131_072, 0]),
    YIELD,
    END,
    At(65_796),
    SELF,
    Ret,
    At(65_844),
    YIELD,
    Sys(257, [0, 0, 0, 0]),
];

/// Which of two threads gets a signal.
const WHO: &[JournalRow<'static>] = &[
    // the lowest, while the other runs
    JournalRow {
        items: BOTH_FREE,
        entries: b"36.0 sig 10\n",
        text: b"run 1\n\
call 1 286 10 65796 0 0 = 0 0\n\
call 1 256 65844 0 131072 0 = 0 2\n\
call 1 261 0 0 0 0 = 0 0\n\
run 2\n\
arrive 1 1 sig 10\n\
deliver 1 10 1\n\
call 2 261 0 0 0 0 = 0 0\n\
run 1\n\
call 1 260 0 0 0 0 = 0 1\n\
ret 1 handler\n\
call 1 93 0 0 0 0 = end\n\
end exit 0\n",
    },
    // the lowest, between the two
    JournalRow {
        items: BOTH_FREE,
        entries: b"33.0 sig 10\n",
        text: b"run 1\n\
call 1 286 10 65796 0 0 = 0 0\n\
call 1 256 65844 0 131072 0 = 0 2\n\
call 1 261 0 0 0 0 = 0 0\n\
arrive 1 1 sig 10\n\
deliver 1 10 1\n\
run 2\n\
call 2 261 0 0 0 0 = 0 0\n\
run 1\n\
call 1 260 0 0 0 0 = 0 1\n\
ret 1 handler\n\
call 1 93 0 0 0 0 = end\n\
end exit 0\n",
    },
    // while the handler of the one runs, the other gets the second
    JournalRow {
        items: BOTH_FREE,
        entries: b"30.0 sig 10\n31.0 sig 10\n",
        text: b"run 1\n\
call 1 286 10 65796 0 0 = 0 0\n\
call 1 256 65844 0 131072 0 = 0 2\n\
arrive 1 1 sig 10\n\
deliver 1 10 1\n\
arrive 2 1 sig 10\n\
deliver 2 10 1\n\
call 1 260 0 0 0 0 = 0 1\n\
ret 1 handler\n\
call 1 261 0 0 0 0 = 0 0\n\
run 2\n\
call 2 260 0 0 0 0 = 0 2\n\
ret 2 handler\n\
call 2 261 0 0 0 0 = 0 0\n\
run 1\n\
call 1 93 0 0 0 0 = end\n\
end exit 0\n",
    },
    // thread 1 blocks it, so thread 2 gets it before it has begun
    JournalRow {
        items: &[
            Sys(286, [10, 65_840, 0, 0]),
            Sys(256, [65_888, 0, 131_072, 0]),
            Sys(287, [0, 1024, 0, 0]),
            YIELD,
            END,
            At(65_840),
            SELF,
            Ret,
            At(65_888),
            YIELD,
            Sys(257, [0, 0, 0, 0]),
        ],
        entries: b"36.0 sig 10\n",
        text: b"run 1\n\
call 1 286 10 65840 0 0 = 0 0\n\
call 1 256 65888 0 131072 0 = 0 2\n\
call 1 287 0 1024 0 0 = 0 0\n\
arrive 1 1 sig 10\n\
deliver 2 10 1\n\
call 1 261 0 0 0 0 = 0 0\n\
run 2\n\
call 2 260 0 0 0 0 = 0 2\n\
ret 2 handler\n\
call 2 261 0 0 0 0 = 0 0\n\
run 1\n\
call 1 93 0 0 0 0 = end\n\
end exit 0\n",
    },
    // both block it, and thread 2 is the first that does no more
    JournalRow {
        items: &[
            Sys(286, [10, 65_840, 0, 0]),
            Sys(287, [0, 1024, 0, 0]),
            Sys(256, [65_888, 0, 131_072, 0]),
            YIELD,
            END,
            At(65_840),
            SELF,
            Ret,
            At(65_888),
            Sys(287, [1, 1024, 0, 0]),
            Sys(257, [0, 0, 0, 0]),
        ],
        entries: b"36.0 sig 10\n",
        text: b"run 1\n\
call 1 286 10 65840 0 0 = 0 0\n\
call 1 287 0 1024 0 0 = 0 0\n\
call 1 256 65888 0 131072 0 = 0 2\n\
arrive 1 1 sig 10\n\
call 1 261 0 0 0 0 = 0 0\n\
run 2\n\
call 2 287 1 1024 0 0 = 0 1024\n\
deliver 2 10 1\n\
call 2 260 0 0 0 0 = 0 2\n\
ret 2 handler\n\
call 2 257 0 0 0 0 = exit\n\
ret 2 cleanup\n\
gone 2 0\n\
run 1\n\
call 1 93 0 0 0 0 = end\n\
end exit 0\n",
    },
    // thread 2, of priority 12, waits for the end of thread 1, which blocks the signal: its handler runs at once
    JournalRow {
        items: &[
            Sys(286, [10, 65_840, 0, 0]),
            Sys(256, [65_888, 0, 131_072, 131_084]),
            Sys(287, [0, 1024, 0, 0]),
            SELF,
            END,
            At(65_840),
            SELF,
            Ret,
            At(65_888),
            Sys(258, [1, 0, 0, 0]),
        ],
        entries: b"50.0 sig 10\n",
        text: b"run 1\n\
call 1 286 10 65840 0 0 = 0 0\n\
call 1 256 65888 0 131072 131084 = 0 2\n\
run 2\n\
call 2 258 1 0 0 0 = block\n\
run 1\n\
call 1 287 0 1024 0 0 = 0 0\n\
arrive 1 1 sig 10\n\
deliver 2 10 1\n\
run 2\n\
call 2 260 0 0 0 0 = 0 2\n\
ret 2 handler\n\
call 2 258 1 0 0 0 = block\n\
run 1\n\
call 1 260 0 0 0 0 = 0 1\n\
call 1 93 0 0 0 0 = end\n\
end exit 0\n",
    },
    // a signal of the process stays when a thread ends, and the next free one gets it
    JournalRow {
        items: &[
            Sys(286, [10, 65_796, 0, 0]),
            Sys(287, [0, 1024, 0, 0]),
            Sys(256, [65_844, 0, 131_072, 0]),
            Sys(257, [0, 0, 0, 0]),
            At(65_796),
            SELF,
            Ret,
            At(65_844),
            Sys(287, [1, 1024, 0, 0]),
            Sys(257, [0, 0, 0, 0]),
        ],
        entries: b"44.0 sig 10\n",
        text: b"run 1\n\
call 1 286 10 65796 0 0 = 0 0\n\
call 1 287 0 1024 0 0 = 0 0\n\
call 1 256 65844 0 131072 0 = 0 2\n\
call 1 257 0 0 0 0 = exit\n\
arrive 1 1 sig 10\n\
ret 1 cleanup\n\
gone 1 0\n\
run 2\n\
call 2 287 1 1024 0 0 = 0 1024\n\
deliver 2 10 1\n\
call 2 260 0 0 0 0 = 0 2\n\
ret 2 handler\n\
call 2 257 0 0 0 0 = exit\n\
ret 2 cleanup\n\
gone 2 0\n\
end exit 0\n",
    },
];

/// A thread that blocks signals 10 and 17, and then asks for its number.
const BLOCKS: &[Item] = &[Sys(287, [0, 132_096, 0, 0]), SELF, END];

/// Signals that end the process, and such that are dropped.
const WHAT: &[JournalRow<'static>] = &[
    // KILL, twice at one place: what else is due there is not told, and what pends is left
    JournalRow {
        items: BLOCKS,
        entries: b"11.0 sig 10\n22.0 sig 9\n22.0 sig 9\n22.0 sig 10\n",
        text: b"run 1\n\
call 1 287 0 132096 0 0 = 0 0\n\
arrive 1 1 sig 10\n\
call 1 260 0 0 0 0 = 0 1\n\
arrive 2 2 sig 9\n\
deliver 0 9 2\n\
left 10 1\n\
end killed 9\n",
    },
    // one that came before KILL at its place is told, and is not delivered
    JournalRow {
        items: BLOCKS,
        entries: b"15.0 sig 15\n15.0 sig 9\n",
        text: b"run 1\n\
call 1 287 0 132096 0 0 = 0 0\n\
arrive 1 1 sig 15\n\
arrive 2 1 sig 9\n\
deliver 0 9 1\n\
left 15 1\n\
end killed 9\n",
    },
    // the default of 15, with its whole count; 10 is blocked
    JournalRow {
        items: BLOCKS,
        entries: b"15.0 sig 15\n15.0 sig 10\n15.0 sig 15\n",
        text: b"run 1\n\
call 1 287 0 132096 0 0 = 0 0\n\
arrive 1 2 sig 15\n\
arrive 2 1 sig 10\n\
deliver 1 15 2\n\
left 10 1\n\
end killed 15\n",
    },
    // two defaults: the lower signal ends the process, and the other pends
    JournalRow {
        items: BLOCKS,
        entries: b"11.0 sig 15\n11.0 sig 12\n",
        text: b"run 1\n\
call 1 287 0 132096 0 0 = 0 0\n\
arrive 1 1 sig 15\n\
arrive 2 1 sig 12\n\
deliver 1 12 1\n\
left 15 1\n\
end killed 12\n",
    },
    // 17 is ignored by default, also where it is blocked
    JournalRow {
        items: BLOCKS,
        entries: b"0.0 sig 17\n5.0 sig 17\n11.0 sig 17\n12.0 sig 17\n12.0 sig 17\n",
        text: b"arrive 1 1 sig 17\n\
drop 17 1\n\
run 1\n\
arrive 2 1 sig 17\n\
drop 17 1\n\
call 1 287 0 132096 0 0 = 0 0\n\
arrive 3 1 sig 17\n\
drop 17 1\n\
arrive 4 2 sig 17\n\
drop 17 2\n\
call 1 260 0 0 0 0 = 0 1\n\
call 1 93 0 0 0 0 = end\n\
end exit 0\n",
    },
    // an action to ignore, and a handler of 17
    JournalRow {
        items: &[
            Sys(286, [10, 1, 0, 0]),
            Sys(286, [17, 65_752, 0, 0]),
            END,
            At(65_752),
            SELF,
            Ret,
        ],
        entries: b"11.0 sig 10\n11.0 sig 17\n22.0 sig 17\n22.0 sig 10\n22.0 sig 10\n",
        text: b"run 1\n\
call 1 286 10 1 0 0 = 0 0\n\
arrive 1 1 sig 10\n\
drop 10 1\n\
arrive 2 1 sig 17\n\
drop 17 1\n\
call 1 286 17 65752 0 0 = 0 0\n\
arrive 3 1 sig 17\n\
arrive 4 2 sig 10\n\
drop 10 2\n\
deliver 1 17 1\n\
call 1 260 0 0 0 0 = 0 1\n\
ret 1 handler\n\
call 1 93 0 0 0 0 = end\n\
end exit 0\n",
    },
];

#[test]
fn who_gets_a_signal(rt: HostRuntime) -> Result<(), Fail> {
    assert_eq!(rt; first_other_under(rt.alloc(), WHO)?, None);
    Ok(())
}

#[test]
fn what_a_signal_does(rt: HostRuntime) -> Result<(), Fail> {
    assert_eq!(rt; first_other_under(rt.alloc(), WHAT)?, None);
    Ok(())
}
