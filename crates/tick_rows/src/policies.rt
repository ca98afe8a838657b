//! Two threads of several policies and priorities under a quantum of one tick, each program with the text that the rules of
//! the machine give it. A call is eleven instructions. Call 256 makes a thread, with attributes as the last argument:
//! 131,072 more than 256 times the policy (0 OTHER, 1 FIFO, 2 RR) plus the priority. Thread 1 has policy OTHER and
//! priority 8.

use std::test::Fail;
use workload_gen::program::Item::{At, Sys};
use workload_gen::program::{JournalRow, SELF, first_other_with};

/// The options of a quantum of one tick.
const ONE: &[&str] = &["--quantum", "1"];

/// Thread 2 beside thread 1.
const ROWS: &[JournalRow<'static>] = &[
    // policy FIFO: no tick ends its turn
    JournalRow {
        items: &[
            Sys(256, [65_752, 0, 131_072, 131_336]),
            SELF,
            Sys(257, [1, 0, 0, 0]),
            At(65_752),
            SELF,
            SELF,
            Sys(257, [5, 0, 0, 0]),
        ],
        entries: b"15.0 tick\n20.0 tick\n30.0 tick\n60.0 tick\n",
        text: b"run 1\n\
call 1 256 65752 0 131072 131336 = 0 2\n\
arrive 1 tick\n\
run 2\n\
arrive 2 tick\n\
call 2 260 0 0 0 0 = 0 2\n\
arrive 3 tick\n\
call 2 260 0 0 0 0 = 0 2\n\
call 2 257 5 0 0 0 = exit\n\
ret 2 cleanup\n\
gone 2 5\n\
run 1\n\
call 1 260 0 0 0 0 = 0 1\n\
arrive 4 tick\n\
call 1 257 1 0 0 0 = exit\n\
ret 1 cleanup\n\
gone 1 1\n\
end exit 0\n",
    },
    // policy RR: it takes turns as OTHER does
    JournalRow {
        items: &[
            Sys(256, [65_752, 0, 131_072, 131_592]),
            SELF,
            Sys(257, [1, 0, 0, 0]),
            At(65_752),
            SELF,
            SELF,
            Sys(257, [5, 0, 0, 0]),
        ],
        entries: b"15.0 tick\n20.0 tick\n30.0 tick\n",
        text: b"run 1\n\
call 1 256 65752 0 131072 131592 = 0 2\n\
arrive 1 tick\n\
run 2\n\
arrive 2 tick\n\
run 1\n\
call 1 260 0 0 0 0 = 0 1\n\
arrive 3 tick\n\
run 2\n\
call 2 260 0 0 0 0 = 0 2\n\
call 2 260 0 0 0 0 = 0 2\n\
call 2 257 5 0 0 0 = exit\n\
ret 2 cleanup\n\
gone 2 5\n\
run 1\n\
call 1 257 1 0 0 0 = exit\n\
ret 1 cleanup\n\
gone 1 1\n\
end exit 0\n",
    },
    // priority 7: it has no turn while thread 1 is ready, however many ticks come
    JournalRow {
        items: &[
            Sys(256, [65_752, 0, 131_072, 131_079]),
            SELF,
            Sys(257, [1, 0, 0, 0]),
            At(65_752),
            SELF,
            Sys(257, [5, 0, 0, 0]),
        ],
        entries: b"15.0 tick\n16.0 tick\n20.0 tick\n",
        text: b"run 1\n\
call 1 256 65752 0 131072 131079 = 0 2\n\
arrive 1 tick\n\
arrive 2 tick\n\
arrive 3 tick\n\
call 1 260 0 0 0 0 = 0 1\n\
call 1 257 1 0 0 0 = exit\n\
ret 1 cleanup\n\
gone 1 1\n\
run 2\n\
call 2 260 0 0 0 0 = 0 2\n\
call 2 257 5 0 0 0 = exit\n\
ret 2 cleanup\n\
gone 2 5\n\
end exit 0\n",
    },
];

#[test]
fn policies_and_priorities(rt: HostRuntime) -> Result<(), Fail> {
    assert_eq!(rt; first_other_with(rt.alloc(), ONE, ROWS)?, None);
    Ok(())
}
