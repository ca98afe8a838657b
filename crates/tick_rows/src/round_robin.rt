//! Programs whose threads take turns, each with the text that the rules of the machine give it. The quantum is how many
//! ticks a turn lasts. A call is eleven instructions, and the end of a thread after its exit is one. Calls: 256 makes a
//! thread, with attributes as the last argument: 131,072 more than 256 times the policy (0 OTHER, 1 FIFO, 2 RR) plus the
//! priority, or 0 for those of its maker; 292 sleeps so many ticks. Thread 1 has policy OTHER and priority 8.

use std::test::Fail;
use workload_gen::program::Item::{At, Sys};
use workload_gen::program::{
    END, Item, JournalRow, SELF, YIELD, first_other_under, first_other_with,
};

/// The options of a quantum of one tick.
const ONE: &[&str] = &["--quantum", "1"];

/// The options of a quantum of two ticks.
const TWO: &[&str] = &["--quantum", "2"];

/// Thread 2, of priority 12, wakes while thread 1 runs; thread 3 is thread 1's equal.
const PREEMPTED: &[Item] = &[
    Sys(256, [65_796, 0, 131_072, 131_340]),
    Sys(256, [65_884, 0, 135_168, 0]),
    SELF,
    END,
    At(65_796),
    Sys(292, [1, 0, 0, 0]),
    Sys(257, [2, 0, 0, 0]),
    At(65_884),
    Sys(257, [3, 0, 0, 0]),
];

/// Three equal threads, each with two calls and an exit.
const THREE: &[Item] = &[
    Sys(256, [65_840, 0, 131_072, 0]),
    Sys(256, [65_840, 0, 135_168, 0]),
    SELF,
    SELF,
    Sys(257, [1, 0, 0, 0]),
    At(65_840),
    SELF,
    SELF,
    Sys(257, [5, 0, 0, 0]),
];

/// Runs with the quantum of no options, four ticks.
const BY_FOUR: &[JournalRow<'static>] = &[
    // thread 1 is pushed aside before its turn is over, and goes on before its equal
    JournalRow {
        items: PREEMPTED,
        entries: b"40.0 tick\n",
        text: b"run 1\n\
call 1 256 65796 0 131072 131340 = 0 2\n\
run 2\n\
call 2 292 1 0 0 0 = block\n\
run 1\n\
call 1 256 65884 0 135168 0 = 0 3\n\
arrive 1 tick\n\
done 2 0 0\n\
run 2\n\
call 2 257 2 0 0 0 = exit\n\
ret 2 cleanup\n\
gone 2 2\n\
run 1\n\
call 1 260 0 0 0 0 = 0 1\n\
call 1 93 0 0 0 0 = end\n\
end exit 0\n",
    },
    // of five ticks at one place the fifth is the first of thread 3's turn, before that has made an instruction
    JournalRow {
        items: THREE,
        entries: b"23.0 tick\n24.0 tick\n25.0 tick\n30.0 tick\n\
35.0 tick\n35.0 tick\n35.0 tick\n35.0 tick\n35.0 tick\n\
36.0 tick\n36.0 tick\n37.0 tick\n",
        text: b"run 1\n\
call 1 256 65840 0 131072 0 = 0 2\n\
call 1 256 65840 0 135168 0 = 0 3\n\
arrive 1 tick\n\
arrive 2 tick\n\
arrive 3 tick\n\
arrive 4 tick\n\
run 2\n\
arrive 5 tick\n\
arrive 6 tick\n\
arrive 7 tick\n\
arrive 8 tick\n\
arrive 9 tick\n\
run 3\n\
arrive 10 tick\n\
arrive 11 tick\n\
arrive 12 tick\n\
run 1\n\
call 1 260 0 0 0 0 = 0 1\n\
call 1 260 0 0 0 0 = 0 1\n\
call 1 257 1 0 0 0 = exit\n\
ret 1 cleanup\n\
gone 1 1\n\
run 2\n\
call 2 260 0 0 0 0 = 0 2\n\
call 2 260 0 0 0 0 = 0 2\n\
call 2 257 5 0 0 0 = exit\n\
ret 2 cleanup\n\
gone 2 5\n\
run 3\n\
call 3 260 0 0 0 0 = 0 3\n\
call 3 260 0 0 0 0 = 0 3\n\
call 3 257 5 0 0 0 = exit\n\
ret 3 cleanup\n\
gone 3 5\n\
end exit 0\n",
    },
];

/// Runs with a quantum of two ticks.
const BY_TWO: &[JournalRow<'static>] = &[
    JournalRow {
        items: THREE,
        entries: b"30.0 tick\n40.0 tick\n50.0 tick\n60.0 tick\n70.0 tick\n80.0 tick\n90.0 tick\n",
        text: b"run 1\n\
call 1 256 65840 0 131072 0 = 0 2\n\
call 1 256 65840 0 135168 0 = 0 3\n\
arrive 1 tick\n\
call 1 260 0 0 0 0 = 0 1\n\
arrive 2 tick\n\
run 2\n\
arrive 3 tick\n\
call 2 260 0 0 0 0 = 0 2\n\
arrive 4 tick\n\
run 3\n\
arrive 5 tick\n\
call 3 260 0 0 0 0 = 0 3\n\
arrive 6 tick\n\
run 1\n\
call 1 260 0 0 0 0 = 0 1\n\
arrive 7 tick\n\
call 1 257 1 0 0 0 = exit\n\
ret 1 cleanup\n\
gone 1 1\n\
run 2\n\
call 2 260 0 0 0 0 = 0 2\n\
call 2 257 5 0 0 0 = exit\n\
ret 2 cleanup\n\
gone 2 5\n\
run 3\n\
call 3 260 0 0 0 0 = 0 3\n\
call 3 257 5 0 0 0 = exit\n\
ret 3 cleanup\n\
gone 3 5\n\
end exit 0\n",
    },
    // after a yield a thread has a whole turn again
    JournalRow {
        items: &[
            Sys(256, [65_884, 0, 131_072, 0]),
            SELF,
            YIELD,
            SELF,
            SELF,
            Sys(257, [1, 0, 0, 0]),
            At(65_884),
            YIELD,
            SELF,
            Sys(257, [5, 0, 0, 0]),
        ],
        entries: b"15.0 tick\n50.0 tick\n60.0 tick\n",
        text: b"run 1\n\
call 1 256 65884 0 131072 0 = 0 2\n\
arrive 1 tick\n\
call 1 260 0 0 0 0 = 0 1\n\
call 1 261 0 0 0 0 = 0 0\n\
run 2\n\
call 2 261 0 0 0 0 = 0 0\n\
run 1\n\
arrive 2 tick\n\
call 1 260 0 0 0 0 = 0 1\n\
arrive 3 tick\n\
run 2\n\
call 2 260 0 0 0 0 = 0 2\n\
call 2 257 5 0 0 0 = exit\n\
ret 2 cleanup\n\
gone 2 5\n\
run 1\n\
call 1 260 0 0 0 0 = 0 1\n\
call 1 257 1 0 0 0 = exit\n\
ret 1 cleanup\n\
gone 1 1\n\
end exit 0\n",
    },
    // a thread that is pushed aside keeps what is left of its turn: one tick, while thread 2, of policy FIFO, is charged
    // none
    JournalRow {
        items: &[
            Sys(256, [65_796, 0, 131_072, 131_340]),
            Sys(256, [65_928, 0, 135_168, 0]),
            SELF,
            Sys(257, [1, 0, 0, 0]),
            At(65_796),
            Sys(292, [1, 0, 0, 0]),
            Sys(292, [0, 0, 0, 0]),
            Sys(257, [2, 0, 0, 0]),
            At(65_928),
            Sys(257, [3, 0, 0, 0]),
        ],
        entries: b"40.0 tick\n50.0 tick\n64.0 tick\n",
        text: b"run 1\n\
call 1 256 65796 0 131072 131340 = 0 2\n\
run 2\n\
call 2 292 1 0 0 0 = block\n\
run 1\n\
call 1 256 65928 0 135168 0 = 0 3\n\
arrive 1 tick\n\
done 2 0 0\n\
run 2\n\
arrive 2 tick\n\
call 2 292 0 0 0 0 = 0 0\n\
call 2 257 2 0 0 0 = exit\n\
ret 2 cleanup\n\
gone 2 2\n\
run 1\n\
arrive 3 tick\n\
run 3\n\
call 3 257 3 0 0 0 = exit\n\
ret 3 cleanup\n\
gone 3 3\n\
run 1\n\
call 1 260 0 0 0 0 = 0 1\n\
call 1 257 1 0 0 0 = exit\n\
ret 1 cleanup\n\
gone 1 1\n\
end exit 0\n",
    },
];

/// Runs with a quantum of one tick.
const BY_ONE: &[JournalRow<'static>] = &[
    // the tick charges thread 1, which was chosen before it, and not thread 2, which it wakes: thread 3 comes next
    JournalRow {
        items: PREEMPTED,
        entries: b"40.0 tick\n",
        text: b"run 1\n\
call 1 256 65796 0 131072 131340 = 0 2\n\
run 2\n\
call 2 292 1 0 0 0 = block\n\
run 1\n\
call 1 256 65884 0 135168 0 = 0 3\n\
arrive 1 tick\n\
done 2 0 0\n\
run 2\n\
call 2 257 2 0 0 0 = exit\n\
ret 2 cleanup\n\
gone 2 2\n\
run 3\n\
call 3 257 3 0 0 0 = exit\n\
ret 3 cleanup\n\
gone 3 3\n\
run 1\n\
call 1 260 0 0 0 0 = 0 1\n\
call 1 93 0 0 0 0 = end\n\
end exit 0\n",
    },
    // a tick whose place is within a call comes at its end
    JournalRow {
        items: &[
            Sys(256, [65_752, 0, 131_072, 0]),
            SELF,
            END,
            At(65_752),
            Sys(257, [1, 0, 0, 0]),
        ],
        entries: b"22.3 tick\n",
        text: b"run 1\n\
call 1 256 65752 0 131072 0 = 0 2\n\
call 1 260 0 0 0 0 = 0 1\n\
arrive 1 tick\n\
run 2\n\
call 2 257 1 0 0 0 = exit\n\
ret 2 cleanup\n\
gone 2 1\n\
run 1\n\
call 1 93 0 0 0 0 = end\n\
end exit 0\n",
    },
    JournalRow {
        items: THREE,
        entries: b"30.0 tick\n40.0 tick\n50.0 tick\n60.0 tick\n",
        text: b"run 1\n\
call 1 256 65840 0 131072 0 = 0 2\n\
call 1 256 65840 0 135168 0 = 0 3\n\
arrive 1 tick\n\
run 2\n\
arrive 2 tick\n\
run 3\n\
arrive 3 tick\n\
run 1\n\
call 1 260 0 0 0 0 = 0 1\n\
arrive 4 tick\n\
run 2\n\
call 2 260 0 0 0 0 = 0 2\n\
call 2 260 0 0 0 0 = 0 2\n\
call 2 257 5 0 0 0 = exit\n\
ret 2 cleanup\n\
gone 2 5\n\
run 3\n\
call 3 260 0 0 0 0 = 0 3\n\
call 3 260 0 0 0 0 = 0 3\n\
call 3 257 5 0 0 0 = exit\n\
ret 3 cleanup\n\
gone 3 5\n\
run 1\n\
call 1 260 0 0 0 0 = 0 1\n\
call 1 257 1 0 0 0 = exit\n\
ret 1 cleanup\n\
gone 1 1\n\
end exit 0\n",
    },
    // the turn of thread 1 is over before thread 2 wakes: thread 3 goes on, then thread 1, and thread 2 last
    JournalRow {
        items: &[
            Sys(256, [65_840, 0, 131_072, 0]),
            YIELD,
            Sys(256, [65_928, 0, 135_168, 0]),
            SELF,
            Sys(257, [1, 0, 0, 0]),
            At(65_840),
            Sys(292, [1, 0, 0, 0]),
            Sys(257, [2, 0, 0, 0]),
            At(65_928),
            Sys(257, [3, 0, 0, 0]),
        ],
        entries: b"50.0 tick\n",
        text: b"run 1\n\
call 1 256 65840 0 131072 0 = 0 2\n\
call 1 261 0 0 0 0 = 0 0\n\
run 2\n\
call 2 292 1 0 0 0 = block\n\
run 1\n\
call 1 256 65928 0 135168 0 = 0 3\n\
arrive 1 tick\n\
done 2 0 0\n\
run 3\n\
call 3 257 3 0 0 0 = exit\n\
ret 3 cleanup\n\
gone 3 3\n\
run 1\n\
call 1 260 0 0 0 0 = 0 1\n\
call 1 257 1 0 0 0 = exit\n\
ret 1 cleanup\n\
gone 1 1\n\
run 2\n\
call 2 257 2 0 0 0 = exit\n\
ret 2 cleanup\n\
gone 2 2\n\
end exit 0\n",
    },
];

#[test]
fn threads_take_turns(rt: HostRuntime) -> Result<(), Fail> {
    let alloc = rt.alloc();
    assert_eq!(rt; first_other_under(alloc, BY_FOUR)?, None);
    assert_eq!(rt; first_other_with(alloc, TWO, BY_TWO)?, None);
    assert_eq!(rt; first_other_with(alloc, ONE, BY_ONE)?, None);
    Ok(())
}
