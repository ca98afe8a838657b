//! Programs that wait for a condition up to a time, each with the text that the rules of the machine give it. A call is
//! eleven instructions. Calls: 283 waits for a condition with a mutex up to a time, and is answered 110 when that has come;
//! 274 makes a mutex, 276 locks and 278 unlocks it; 280 makes a condition, 284 signals it; 286 sets a signal's handler.

use std::test::Fail;
use workload_gen::program::Item::{At, Ret, Sys};
use workload_gen::program::{END, Item, JournalRow, SELF, YIELD, first_other_under};

/// Thread 1 waits up to the time 2, from 66 instructions on; thread 2 signals the condition by a call that is the 77th.
const SIGNALED: &[Item] = &[
    Sys(286, [10, 65_972, 0, 0]),
    Sys(274, [0, 0, 0, 0]),
    Sys(280, [0, 0, 0, 0]),
    Sys(256, [66_020, 0, 131_072, 0]),
    Sys(276, [0, 0, 0, 0]),
    Sys(283, [0, 0, 2, 0]),
    Sys(278, [0, 0, 0, 0]),
    END,
    At(65_972),
    SELF,
    Ret,
    At(66_020),
    Sys(284, [0, 0, 0, 0]),
    Sys(257, [2, 0, 0, 0]),
];

/// Signals of the condition, and signals of a journal, beside ticks.
const BESIDE_SIGNALS: &[JournalRow<'static>] = &[
    // the condition is signalled in time; later ticks change nothing
    JournalRow {
        items: SIGNALED,
        entries: b"70.0 tick\n95.0 tick\n95.0 tick\n",
        text: b"run 1\n\
call 1 286 10 65972 0 0 = 0 0\n\
call 1 274 0 0 0 0 = 0 0\n\
call 1 280 0 0 0 0 = 0 0\n\
call 1 256 66020 0 131072 0 = 0 2\n\
call 1 276 0 0 0 0 = 0 0\n\
call 1 283 0 0 2 0 = block\n\
run 2\n\
arrive 1 tick\n\
call 2 284 0 0 0 0 = 0 0\n\
done 1 0 0\n\
call 2 257 2 0 0 0 = exit\n\
ret 2 cleanup\n\
gone 2 2\n\
run 1\n\
arrive 2 tick\n\
arrive 3 tick\n\
call 1 278 0 0 0 0 = 0 0\n\
call 1 93 0 0 0 0 = end\n\
end exit 0\n",
    },
    // the tick stands at the call that signals, and so behind it
    JournalRow {
        items: SIGNALED,
        entries: b"70.0 tick\n77.0 tick\n",
        text: b"run 1\n\
call 1 286 10 65972 0 0 = 0 0\n\
call 1 274 0 0 0 0 = 0 0\n\
call 1 280 0 0 0 0 = 0 0\n\
call 1 256 66020 0 131072 0 = 0 2\n\
call 1 276 0 0 0 0 = 0 0\n\
call 1 283 0 0 2 0 = block\n\
run 2\n\
arrive 1 tick\n\
call 2 284 0 0 0 0 = 0 0\n\
done 1 0 0\n\
arrive 2 tick\n\
call 2 257 2 0 0 0 = exit\n\
ret 2 cleanup\n\
gone 2 2\n\
run 1\n\
call 1 278 0 0 0 0 = 0 0\n\
call 1 93 0 0 0 0 = end\n\
end exit 0\n",
    },
    // it is signalled too late, by one instruction: nobody waits for it any more
    JournalRow {
        items: SIGNALED,
        entries: b"70.0 tick\n76.0 tick\n",
        text: b"run 1\n\
call 1 286 10 65972 0 0 = 0 0\n\
call 1 274 0 0 0 0 = 0 0\n\
call 1 280 0 0 0 0 = 0 0\n\
call 1 256 66020 0 131072 0 = 0 2\n\
call 1 276 0 0 0 0 = 0 0\n\
call 1 283 0 0 2 0 = block\n\
run 2\n\
arrive 1 tick\n\
arrive 2 tick\n\
done 1 110 0\n\
call 2 284 0 0 0 0 = 0 0\n\
call 2 257 2 0 0 0 = exit\n\
ret 2 cleanup\n\
gone 2 2\n\
run 1\n\
call 1 278 0 0 0 0 = 0 0\n\
call 1 93 0 0 0 0 = end\n\
end exit 0\n",
    },
    // a signal and the last tick at one place: the wait's time has come before the signal is delivered
    JournalRow {
        items: SIGNALED,
        entries: b"70.0 tick\n71.0 sig 10\n71.0 tick\n",
        text: b"run 1\n\
call 1 286 10 65972 0 0 = 0 0\n\
call 1 274 0 0 0 0 = 0 0\n\
call 1 280 0 0 0 0 = 0 0\n\
call 1 256 66020 0 131072 0 = 0 2\n\
call 1 276 0 0 0 0 = 0 0\n\
call 1 283 0 0 2 0 = block\n\
run 2\n\
arrive 1 tick\n\
arrive 2 1 sig 10\n\
arrive 3 tick\n\
done 1 110 0\n\
deliver 1 10 1\n\
call 2 284 0 0 0 0 = 0 0\n\
call 2 257 2 0 0 0 = exit\n\
ret 2 cleanup\n\
gone 2 2\n\
run 1\n\
call 1 260 0 0 0 0 = 0 1\n\
ret 1 handler\n\
call 1 278 0 0 0 0 = 0 0\n\
call 1 93 0 0 0 0 = end\n\
end exit 0\n",
    },
    // the signal comes before the last tick: it interrupts the wait, which is answered 0
    JournalRow {
        items: SIGNALED,
        entries: b"70.0 sig 10\n71.0 tick\n71.0 tick\n",
        text: b"run 1\n\
call 1 286 10 65972 0 0 = 0 0\n\
call 1 274 0 0 0 0 = 0 0\n\
call 1 280 0 0 0 0 = 0 0\n\
call 1 256 66020 0 131072 0 = 0 2\n\
call 1 276 0 0 0 0 = 0 0\n\
call 1 283 0 0 2 0 = block\n\
run 2\n\
arrive 1 1 sig 10\n\
interrupt 1 10 1\n\
done 1 0 0\n\
deliver 1 10 1\n\
arrive 2 tick\n\
arrive 3 tick\n\
call 2 284 0 0 0 0 = 0 0\n\
call 2 257 2 0 0 0 = exit\n\
ret 2 cleanup\n\
gone 2 2\n\
run 1\n\
call 1 260 0 0 0 0 = 0 1\n\
ret 1 handler\n\
call 1 278 0 0 0 0 = 0 0\n\
call 1 93 0 0 0 0 = end\n\
end exit 0\n",
    },
];

/// One thread that waits up to the time 2, and then asks for the time.
const UP_TO_TWO: &[Item] = &[
    Sys(274, [0, 0, 0, 0]),
    Sys(280, [0, 0, 0, 0]),
    Sys(276, [0, 0, 0, 0]),
    Sys(283, [0, 0, 2, 0]),
    Sys(278, [0, 0, 0, 0]),
    Sys(294, [0, 0, 0, 0]),
    END,
];

/// Times that come, and that have come already.
const TIMES: &[JournalRow<'static>] = &[
    // a tick before the call counts, since it is a time and no number of ticks
    JournalRow {
        items: UP_TO_TWO,
        entries: b"5.0 tick\n500.0 tick\n500.0 tick\n",
        text: b"run 1\n\
arrive 1 tick\n\
call 1 274 0 0 0 0 = 0 0\n\
call 1 280 0 0 0 0 = 0 0\n\
call 1 276 0 0 0 0 = 0 0\n\
call 1 283 0 0 2 0 = block\n\
arrive 2 tick\n\
done 1 110 0\n\
call 1 278 0 0 0 0 = 0 0\n\
call 1 294 0 0 0 0 = 0 2\n\
call 1 93 0 0 0 0 = end\n\
end exit 0\n",
    },
    // the time is now, and the mutex free for its old owner
    JournalRow {
        items: UP_TO_TWO,
        entries: b"5.0 tick\n5.0 tick\n",
        text: b"run 1\n\
arrive 1 tick\n\
arrive 2 tick\n\
call 1 274 0 0 0 0 = 0 0\n\
call 1 280 0 0 0 0 = 0 0\n\
call 1 276 0 0 0 0 = 0 0\n\
call 1 283 0 0 2 0 = 110 0\n\
call 1 278 0 0 0 0 = 0 0\n\
call 1 294 0 0 0 0 = 0 2\n\
call 1 93 0 0 0 0 = end\n\
end exit 0\n",
    },
    // the time is past: the mutex goes to thread 2, and comes back with its unlock; a tick meanwhile changes nothing
    JournalRow {
        items: &[
            Sys(274, [0, 0, 0, 0]),
            Sys(280, [0, 0, 0, 0]),
            Sys(276, [0, 0, 0, 0]),
            Sys(256, [65_972, 0, 131_072, 0]),
            YIELD,
            Sys(283, [0, 0, 0, 0]),
            Sys(278, [0, 0, 0, 0]),
            END,
            At(65_972),
            Sys(276, [0, 0, 0, 0]),
            Sys(278, [0, 0, 0, 0]),
            Sys(257, [2, 0, 0, 0]),
        ],
        entries: b"70.0 tick\n80.0 tick\n",
        text: b"run 1\n\
call 1 274 0 0 0 0 = 0 0\n\
call 1 280 0 0 0 0 = 0 0\n\
call 1 276 0 0 0 0 = 0 0\n\
call 1 256 65972 0 131072 0 = 0 2\n\
call 1 261 0 0 0 0 = 0 0\n\
run 2\n\
call 2 276 0 0 0 0 = block\n\
run 1\n\
arrive 1 tick\n\
call 1 283 0 0 0 0 = block\n\
done 2 0 0\n\
run 2\n\
arrive 2 tick\n\
call 2 278 0 0 0 0 = 0 0\n\
done 1 110 0\n\
call 2 257 2 0 0 0 = exit\n\
ret 2 cleanup\n\
gone 2 2\n\
run 1\n\
call 1 278 0 0 0 0 = 0 0\n\
call 1 93 0 0 0 0 = end\n\
end exit 0\n",
    },
    // two threads wait for the mutex: the old owner is the last of all to have it
    JournalRow {
        items: &[
            Sys(274, [0, 0, 0, 0]),
            Sys(280, [0, 0, 0, 0]),
            Sys(276, [0, 0, 0, 0]),
            Sys(256, [66_016, 0, 131_072, 0]),
            Sys(256, [66_016, 0, 135_168, 0]),
            YIELD,
            Sys(283, [0, 0, 0, 0]),
            Sys(278, [0, 0, 0, 0]),
            END,
            At(66_016),
            Sys(276, [0, 0, 0, 0]),
            Sys(278, [0, 0, 0, 0]),
            Sys(257, [2, 0, 0, 0]),
        ],
        entries: b"",
        text: b"run 1\n\
call 1 274 0 0 0 0 = 0 0\n\
call 1 280 0 0 0 0 = 0 0\n\
call 1 276 0 0 0 0 = 0 0\n\
call 1 256 66016 0 131072 0 = 0 2\n\
call 1 256 66016 0 135168 0 = 0 3\n\
call 1 261 0 0 0 0 = 0 0\n\
run 2\n\
call 2 276 0 0 0 0 = block\n\
run 3\n\
call 3 276 0 0 0 0 = block\n\
run 1\n\
call 1 283 0 0 0 0 = block\n\
done 2 0 0\n\
run 2\n\
call 2 278 0 0 0 0 = 0 0\n\
done 3 0 0\n\
call 2 257 2 0 0 0 = exit\n\
ret 2 cleanup\n\
gone 2 2\n\
run 3\n\
call 3 278 0 0 0 0 = 0 0\n\
done 1 110 0\n\
call 3 257 2 0 0 0 = exit\n\
ret 3 cleanup\n\
gone 3 2\n\
run 1\n\
call 1 278 0 0 0 0 = 0 0\n\
call 1 93 0 0 0 0 = end\n\
end exit 0\n",
    },
];

/// Waits whose time comes, and the mutex.
const MUTEXES: &[JournalRow<'static>] = &[
    // thread 2 has the mutex, so the wait is not answered before its unlock
    JournalRow {
        items: &[
            Sys(274, [0, 0, 0, 0]),
            Sys(280, [0, 0, 0, 0]),
            Sys(256, [65_928, 0, 131_072, 0]),
            Sys(276, [0, 0, 0, 0]),
            Sys(283, [0, 0, 1, 0]),
            Sys(278, [0, 0, 0, 0]),
            END,
            At(65_928),
            Sys(276, [0, 0, 0, 0]),
            SELF,
            Sys(278, [0, 0, 0, 0]),
            Sys(257, [2, 0, 0, 0]),
        ],
        entries: b"70.0 tick\n80.0 tick\n",
        text: b"run 1\n\
call 1 274 0 0 0 0 = 0 0\n\
call 1 280 0 0 0 0 = 0 0\n\
call 1 256 65928 0 131072 0 = 0 2\n\
call 1 276 0 0 0 0 = 0 0\n\
call 1 283 0 0 1 0 = block\n\
run 2\n\
call 2 276 0 0 0 0 = 0 0\n\
arrive 1 tick\n\
call 2 260 0 0 0 0 = 0 2\n\
arrive 2 tick\n\
call 2 278 0 0 0 0 = 0 0\n\
done 1 110 0\n\
call 2 257 2 0 0 0 = exit\n\
ret 2 cleanup\n\
gone 2 2\n\
run 1\n\
call 1 278 0 0 0 0 = 0 0\n\
call 1 93 0 0 0 0 = end\n\
end exit 0\n",
    },
    // two waits end at one tick: thread 1 has the mutex first, although thread 2 was first to wait
    JournalRow {
        items: &[
            Sys(274, [0, 0, 0, 0]),
            Sys(280, [0, 0, 0, 0]),
            Sys(256, [65_972, 0, 131_072, 0]),
            YIELD,
            Sys(276, [0, 0, 0, 0]),
            Sys(283, [0, 0, 1, 0]),
            Sys(278, [0, 0, 0, 0]),
            Sys(257, [1, 0, 0, 0]),
            At(65_972),
            Sys(276, [0, 0, 0, 0]),
            Sys(283, [0, 0, 1, 0]),
            Sys(278, [0, 0, 0, 0]),
            Sys(257, [2, 0, 0, 0]),
        ],
        entries: b"500.0 tick\n",
        text: b"run 1\n\
call 1 274 0 0 0 0 = 0 0\n\
call 1 280 0 0 0 0 = 0 0\n\
call 1 256 65972 0 131072 0 = 0 2\n\
call 1 261 0 0 0 0 = 0 0\n\
run 2\n\
call 2 276 0 0 0 0 = 0 0\n\
call 2 283 0 0 1 0 = block\n\
run 1\n\
call 1 276 0 0 0 0 = 0 0\n\
call 1 283 0 0 1 0 = block\n\
arrive 1 tick\n\
done 1 110 0\n\
call 1 278 0 0 0 0 = 0 0\n\
done 2 110 0\n\
call 1 257 1 0 0 0 = exit\n\
ret 1 cleanup\n\
gone 1 1\n\
run 2\n\
call 2 278 0 0 0 0 = 0 0\n\
call 2 257 2 0 0 0 = exit\n\
ret 2 cleanup\n\
gone 2 2\n\
end exit 0\n",
    },
    // a recursive mutex comes back as often as it was locked
    JournalRow {
        items: &[
            Sys(274, [0, 2, 0, 0]),
            Sys(280, [0, 0, 0, 0]),
            Sys(276, [0, 0, 0, 0]),
            Sys(276, [0, 0, 0, 0]),
            Sys(283, [0, 0, 1, 0]),
            Sys(278, [0, 0, 0, 0]),
            Sys(278, [0, 0, 0, 0]),
            Sys(278, [0, 0, 0, 0]),
            END,
        ],
        entries: b"500.0 tick\n",
        text: b"run 1\n\
call 1 274 0 2 0 0 = 0 0\n\
call 1 280 0 0 0 0 = 0 0\n\
call 1 276 0 0 0 0 = 0 0\n\
call 1 276 0 0 0 0 = 0 0\n\
call 1 283 0 0 1 0 = block\n\
arrive 1 tick\n\
done 1 110 0\n\
call 1 278 0 0 0 0 = 0 0\n\
call 1 278 0 0 0 0 = 0 0\n\
call 1 278 0 0 0 0 = 1 0\n\
call 1 93 0 0 0 0 = end\n\
end exit 0\n",
    },
];

#[test]
fn waits_end_at_their_time(rt: HostRuntime) -> Result<(), Fail> {
    let alloc = rt.alloc();
    assert_eq!(rt; first_other_under(alloc, BESIDE_SIGNALS)?, None);
    assert_eq!(rt; first_other_under(alloc, TIMES)?, None);
    assert_eq!(rt; first_other_under(alloc, MUTEXES)?, None);
    Ok(())
}
