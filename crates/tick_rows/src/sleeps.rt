//! Programs that sleep and ask for the time, each with the text that the rules of the machine give it. A call is eleven
//! instructions. Calls: 292 sleeps so many ticks, 294 tells the time, which is how many ticks have come; 286 sets a
//! signal's handler.

use std::test::Fail;
use workload_gen::program::Item::{At, Ret, Sys};
use workload_gen::program::{END, Item, JournalRow, SELF, YIELD, first_other_under};

/// The call that tells the time.
const CLOCK: Item = Sys(294, [0, 0, 0, 0]);

/// A sleep of one tick, and then the time.
const ONE_TICK: &[Item] = &[Sys(292, [1, 0, 0, 0]), CLOCK, END];

/// One thread and the time.
const ALONE: &[JournalRow<'static>] = &[
    // before ticks, between them and after them; a tick at a call comes at its end
    JournalRow {
        items: &[CLOCK, CLOCK, CLOCK, END],
        entries: b"11.0 tick\n15.0 tick\n33.0 tick\n33.7 tick\n",
        text: b"run 1\n\
call 1 294 0 0 0 0 = 0 0\n\
arrive 1 tick\n\
arrive 2 tick\n\
call 1 294 0 0 0 0 = 0 2\n\
call 1 294 0 0 0 0 = 0 2\n\
arrive 3 tick\n\
arrive 4 tick\n\
call 1 93 0 0 0 0 = end\n\
end exit 0\n",
    },
    // a sleep of no ticks, after a tick before the first instruction
    JournalRow {
        items: &[Sys(292, [0, 0, 0, 0]), CLOCK, END],
        entries: b"0.0 tick\n",
        text: b"arrive 1 tick\n\
run 1\n\
call 1 292 0 0 0 0 = 0 0\n\
call 1 294 0 0 0 0 = 0 1\n\
call 1 93 0 0 0 0 = end\n\
end exit 0\n",
    },
    // while all threads wait ticks come one at a time, however far they are
    JournalRow {
        items: &[Sys(292, [3, 0, 0, 0]), CLOCK, END],
        entries: b"500.0 tick\n500.0 tick\n\
1000000000.1000000 tick\n1000000000.1000000 tick\n",
        text: b"run 1\n\
call 1 292 3 0 0 0 = block\n\
arrive 1 tick\n\
arrive 2 tick\n\
arrive 3 tick\n\
done 1 0 0\n\
call 1 294 0 0 0 0 = 0 3\n\
call 1 93 0 0 0 0 = end\n\
end exit 0\n",
    },
    // ticks that are reached come all, also where the first of them ends the sleep
    JournalRow {
        items: ONE_TICK,
        entries: b"11.0 tick\n11.0 tick\n11.0 tick\n",
        text: b"run 1\n\
call 1 292 1 0 0 0 = block\n\
arrive 1 tick\n\
done 1 0 0\n\
arrive 2 tick\n\
arrive 3 tick\n\
call 1 294 0 0 0 0 = 0 3\n\
call 1 93 0 0 0 0 = end\n\
end exit 0\n",
    },
    // a tick right before the call does not count for the sleep
    JournalRow {
        items: ONE_TICK,
        entries: b"10.0 tick\n11.0 tick\n",
        text: b"run 1\n\
arrive 1 tick\n\
call 1 292 1 0 0 0 = block\n\
arrive 2 tick\n\
done 1 0 0\n\
call 1 294 0 0 0 0 = 0 2\n\
call 1 93 0 0 0 0 = end\n\
end exit 0\n",
    },
    // the journal has too few ticks, and a signal that is ignored ends no sleep
    JournalRow {
        items: &[Sys(292, [2, 0, 0, 0]), END],
        entries: b"50.0 sig 17\n50.0 tick\n",
        text: b"run 1\n\
call 1 292 2 0 0 0 = block\n\
arrive 1 1 sig 17\n\
drop 17 1\n\
arrive 2 tick\n\
end idle\n",
    },
];

/// Sleeps of several threads.
const TOGETHER: &[JournalRow<'static>] = &[
    // thread 2 wakes one tick before thread 1
    JournalRow {
        items: &[
            Sys(256, [65_752, 0, 131_072, 0]),
            Sys(292, [2, 0, 0, 0]),
            Sys(257, [1, 0, 0, 0]),
            At(65_752),
            Sys(292, [1, 0, 0, 0]),
            CLOCK,
            Sys(257, [2, 0, 0, 0]),
        ],
        entries: b"100.0 tick\n100.0 tick\n",
        text: b"run 1\n\
call 1 256 65752 0 131072 0 = 0 2\n\
call 1 292 2 0 0 0 = block\n\
run 2\n\
call 2 292 1 0 0 0 = block\n\
arrive 1 tick\n\
done 2 0 0\n\
call 2 294 0 0 0 0 = 0 1\n\
call 2 257 2 0 0 0 = exit\n\
ret 2 cleanup\n\
gone 2 2\n\
arrive 2 tick\n\
done 1 0 0\n\
run 1\n\
call 1 257 1 0 0 0 = exit\n\
ret 1 cleanup\n\
gone 1 1\n\
end exit 0\n",
    },
    // three wake at one tick, the lowest number first, although thread 2 went to sleep last
    JournalRow {
        items: &[
            Sys(256, [65_796, 0, 131_072, 0]),
            Sys(256, [65_928, 0, 135_168, 0]),
            Sys(292, [2, 0, 0, 0]),
            Sys(257, [1, 0, 0, 0]),
            At(65_796),
            YIELD,
            Sys(292, [1, 0, 0, 0]),
            Sys(257, [2, 0, 0, 0]),
            At(65_928),
            Sys(292, [2, 0, 0, 0]),
            Sys(257, [3, 0, 0, 0]),
        ],
        entries: b"60.0 tick\n900.0 tick\n",
        text: b"run 1\n\
call 1 256 65796 0 131072 0 = 0 2\n\
call 1 256 65928 0 135168 0 = 0 3\n\
call 1 292 2 0 0 0 = block\n\
run 2\n\
call 2 261 0 0 0 0 = 0 0\n\
run 3\n\
call 3 292 2 0 0 0 = block\n\
run 2\n\
arrive 1 tick\n\
call 2 292 1 0 0 0 = block\n\
arrive 2 tick\n\
done 1 0 0\n\
done 2 0 0\n\
done 3 0 0\n\
run 1\n\
call 1 257 1 0 0 0 = exit\n\
ret 1 cleanup\n\
gone 1 1\n\
run 2\n\
call 2 257 2 0 0 0 = exit\n\
ret 2 cleanup\n\
gone 2 2\n\
run 3\n\
call 3 257 3 0 0 0 = exit\n\
ret 3 cleanup\n\
gone 3 3\n\
end exit 0\n",
    },
];

/// A sleep of five ticks with a handler of signal 10, and then the time.
const FIVE_TICKS: &[Item] = &[
    Sys(286, [10, 65_796, 0, 0]),
    Sys(292, [5, 0, 0, 0]),
    CLOCK,
    END,
    At(65_796),
    SELF,
    Ret,
];

/// A sleep of one tick with a handler of signal 10, and then the time.
const ONE_WITH_HANDLER: &[Item] = &[
    Sys(286, [10, 65_796, 0, 0]),
    Sys(292, [1, 0, 0, 0]),
    CLOCK,
    END,
    At(65_796),
    SELF,
    Ret,
];

/// Signals that come while a thread sleeps.
const INTERRUPTED: &[JournalRow<'static>] = &[
    // the sleep is over, and tells the ticks that were left
    JournalRow {
        items: FIVE_TICKS,
        entries: b"100.0 tick\n100.0 tick\n100.0 sig 10\n",
        text: b"run 1\n\
call 1 286 10 65796 0 0 = 0 0\n\
call 1 292 5 0 0 0 = block\n\
arrive 1 tick\n\
arrive 2 tick\n\
arrive 3 1 sig 10\n\
deliver 1 10 1\n\
done 1 4 3\n\
call 1 260 0 0 0 0 = 0 1\n\
ret 1 handler\n\
call 1 294 0 0 0 0 = 0 2\n\
call 1 93 0 0 0 0 = end\n\
end exit 0\n",
    },
    // at one place that is reached all ticks come with the first of them
    JournalRow {
        items: FIVE_TICKS,
        entries: b"22.0 tick\n22.0 sig 10\n22.0 tick\n",
        text: b"run 1\n\
call 1 286 10 65796 0 0 = 0 0\n\
call 1 292 5 0 0 0 = block\n\
arrive 1 tick\n\
arrive 3 tick\n\
arrive 2 1 sig 10\n\
deliver 1 10 1\n\
done 1 4 3\n\
call 1 260 0 0 0 0 = 0 1\n\
ret 1 handler\n\
call 1 294 0 0 0 0 = 0 2\n\
call 1 93 0 0 0 0 = end\n\
end exit 0\n",
    },
    // all that is reached comes before a delivery: the tick ends the sleep, although the signal stands before it
    JournalRow {
        items: ONE_WITH_HANDLER,
        entries: b"22.0 sig 10\n22.0 tick\n",
        text: b"run 1\n\
call 1 286 10 65796 0 0 = 0 0\n\
call 1 292 1 0 0 0 = block\n\
arrive 1 1 sig 10\n\
arrive 2 tick\n\
done 1 0 0\n\
deliver 1 10 1\n\
call 1 260 0 0 0 0 = 0 1\n\
ret 1 handler\n\
call 1 294 0 0 0 0 = 0 1\n\
call 1 93 0 0 0 0 = end\n\
end exit 0\n",
    },
    // at a place that is not reached the signal comes alone, and the tick is not told
    JournalRow {
        items: ONE_WITH_HANDLER,
        entries: b"500.0 sig 10\n500.0 tick\n",
        text: b"run 1\n\
call 1 286 10 65796 0 0 = 0 0\n\
call 1 292 1 0 0 0 = block\n\
arrive 1 1 sig 10\n\
deliver 1 10 1\n\
done 1 4 1\n\
call 1 260 0 0 0 0 = 0 1\n\
ret 1 handler\n\
call 1 294 0 0 0 0 = 0 0\n\
call 1 93 0 0 0 0 = end\n\
end exit 0\n",
    },
    // the longest sleep
    JournalRow {
        items: &[
            Sys(286, [10, 65_752, 0, 0]),
            Sys(292, [0xffff_ffff, 0, 0, 0]),
            END,
            At(65_752),
            SELF,
            Ret,
        ],
        entries: b"100.0 tick\n100.0 sig 10\n",
        text: b"run 1\n\
call 1 286 10 65752 0 0 = 0 0\n\
call 1 292 4294967295 0 0 0 = block\n\
arrive 1 tick\n\
arrive 2 1 sig 10\n\
deliver 1 10 1\n\
done 1 4 4294967294\n\
call 1 260 0 0 0 0 = 0 1\n\
ret 1 handler\n\
call 1 93 0 0 0 0 = end\n\
end exit 0\n",
    },
];

#[test]
fn threads_sleep(rt: HostRuntime) -> Result<(), Fail> {
    let alloc = rt.alloc();
    assert_eq!(rt; first_other_under(alloc, ALONE)?, None);
    assert_eq!(rt; first_other_under(alloc, TOGETHER)?, None);
    assert_eq!(rt; first_other_under(alloc, INTERRUPTED)?, None);
    Ok(())
}
