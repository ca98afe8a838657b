//! Programs whose threads wait when an entry of a journal comes, each with the text that the rules of the machine give it.
//! A call is eleven instructions, the return of a handler two, and the end of a thread after its exit one. Calls: 286 sets
//! a signal's handler, 287 changes the mask (0 adds, 1 takes away). Bit 10 of a set is 1024. Thread 1 blocks signal 10
//! where thread 2 is to get it.

use std::test::Fail;
use workload_gen::program::Item::{At, Ret, Sys};
use workload_gen::program::{END, Item, JournalRow, SELF, YIELD, first_other_under};

/// Thread 1 waits for the end of thread 2, which yields first.
const JOIN: &[Item] = &[
    Sys(286, [10, 65_796, 0, 0]),
    Sys(256, [65_844, 0, 131_072, 0]),
    Sys(258, [2, 0, 0, 0]),
    END,
    At(65_796),
    SELF,
    Ret,
    At(65_844),
    YIELD,
    Sys(257, [5, 0, 0, 0]),
];

/// Waits for the end of a thread: the join is made again.
const JOINS: &[JournalRow<'static>] = &[
    // thread 2 goes on up to its yield, since thread 1 is after it
    JournalRow {
        items: JOIN,
        entries: b"40.0 sig 10\n",
        text: b"run 1\n\
call 1 286 10 65796 0 0 = 0 0\n\
call 1 256 65844 0 131072 0 = 0 2\n\
call 1 258 2 0 0 0 = block\n\
run 2\n\
arrive 1 1 sig 10\n\
deliver 1 10 1\n\
call 2 261 0 0 0 0 = 0 0\n\
run 1\n\
call 1 260 0 0 0 0 = 0 1\n\
ret 1 handler\n\
call 1 258 2 0 0 0 = block\n\
run 2\n\
call 2 257 5 0 0 0 = exit\n\
ret 2 cleanup\n\
gone 2 5\n\
done 1 0 5\n\
run 1\n\
call 1 93 0 0 0 0 = end\n\
end exit 0\n",
    },
    // before thread 2 has begun; it gets the second signal, since that comes in the handler of thread 1
    JournalRow {
        items: JOIN,
        entries: b"33.0 sig 10\n46.0 sig 10\n",
        text: b"run 1\n\
call 1 286 10 65796 0 0 = 0 0\n\
call 1 256 65844 0 131072 0 = 0 2\n\
call 1 258 2 0 0 0 = block\n\
arrive 1 1 sig 10\n\
deliver 1 10 1\n\
run 2\n\
call 2 261 0 0 0 0 = 0 0\n\
run 1\n\
arrive 2 1 sig 10\n\
deliver 2 10 1\n\
call 1 260 0 0 0 0 = 0 1\n\
ret 1 handler\n\
call 1 258 2 0 0 0 = block\n\
run 2\n\
call 2 260 0 0 0 0 = 0 2\n\
ret 2 handler\n\
call 2 257 5 0 0 0 = exit\n\
ret 2 cleanup\n\
gone 2 5\n\
done 1 0 5\n\
run 1\n\
call 1 93 0 0 0 0 = end\n\
end exit 0\n",
    },
    // thread 2 has ended by the time that the join is made again
    JournalRow {
        items: JOIN,
        entries: b"55.0 sig 10\n",
        text: b"run 1\n\
call 1 286 10 65796 0 0 = 0 0\n\
call 1 256 65844 0 131072 0 = 0 2\n\
call 1 258 2 0 0 0 = block\n\
run 2\n\
call 2 261 0 0 0 0 = 0 0\n\
call 2 257 5 0 0 0 = exit\n\
arrive 1 1 sig 10\n\
deliver 1 10 1\n\
ret 2 cleanup\n\
gone 2 5\n\
run 1\n\
call 1 260 0 0 0 0 = 0 1\n\
ret 1 handler\n\
call 1 258 2 0 0 0 = 0 5\n\
call 1 93 0 0 0 0 = end\n\
end exit 0\n",
    },
];

/// Thread 1 has the mutex for which thread 2 waits, and yields before it gives it back.
const LOCK: &[Item] = &[
    Sys(274, [0, 0, 0, 0]),
    Sys(286, [10, 66_060, 0, 0]),
    Sys(276, [0, 0, 0, 0]),
    Sys(256, [66_108, 0, 131_072, 0]),
    Sys(287, [0, 1024, 0, 0]),
    YIELD,
    YIELD,
    Sys(278, [0, 0, 0, 0]),
    YIELD,
    END,
    At(66_060),
    SELF,
    Ret,
    At(66_108),
    Sys(276, [0, 0, 0, 0]),
    Sys(278, [0, 0, 0, 0]),
    Sys(257, [0, 0, 0, 0]),
];

/// Waits for a mutex: the lock is made again.
const LOCKS: &[JournalRow<'static>] = &[
    // thread 1 runs, and goes on up to its yield
    JournalRow {
        items: LOCK,
        entries: b"80.0 sig 10\n",
        text: b"run 1\n\
call 1 274 0 0 0 0 = 0 0\n\
call 1 286 10 66060 0 0 = 0 0\n\
call 1 276 0 0 0 0 = 0 0\n\
call 1 256 66108 0 131072 0 = 0 2\n\
call 1 287 0 1024 0 0 = 0 0\n\
call 1 261 0 0 0 0 = 0 0\n\
run 2\n\
call 2 276 0 0 0 0 = block\n\
run 1\n\
arrive 1 1 sig 10\n\
deliver 2 10 1\n\
call 1 261 0 0 0 0 = 0 0\n\
run 2\n\
call 2 260 0 0 0 0 = 0 2\n\
ret 2 handler\n\
call 2 276 0 0 0 0 = block\n\
run 1\n\
call 1 278 0 0 0 0 = 0 0\n\
done 2 0 0\n\
call 1 261 0 0 0 0 = 0 0\n\
run 2\n\
call 2 278 0 0 0 0 = 0 0\n\
call 2 257 0 0 0 0 = exit\n\
ret 2 cleanup\n\
gone 2 0\n\
run 1\n\
call 1 93 0 0 0 0 = end\n\
end exit 0\n",
    },
    // between two threads; a second entry ends the lock that was made again, and the mutex is free for the third
    JournalRow {
        items: LOCK,
        entries: b"77.0 sig 10\n105.0 sig 10\n",
        text: b"run 1\n\
call 1 274 0 0 0 0 = 0 0\n\
call 1 286 10 66060 0 0 = 0 0\n\
call 1 276 0 0 0 0 = 0 0\n\
call 1 256 66108 0 131072 0 = 0 2\n\
call 1 287 0 1024 0 0 = 0 0\n\
call 1 261 0 0 0 0 = 0 0\n\
run 2\n\
call 2 276 0 0 0 0 = block\n\
arrive 1 1 sig 10\n\
deliver 2 10 1\n\
run 1\n\
call 1 261 0 0 0 0 = 0 0\n\
run 2\n\
call 2 260 0 0 0 0 = 0 2\n\
ret 2 handler\n\
call 2 276 0 0 0 0 = block\n\
run 1\n\
arrive 2 1 sig 10\n\
deliver 2 10 1\n\
call 1 278 0 0 0 0 = 0 0\n\
call 1 261 0 0 0 0 = 0 0\n\
run 2\n\
call 2 260 0 0 0 0 = 0 2\n\
ret 2 handler\n\
call 2 276 0 0 0 0 = 0 0\n\
call 2 278 0 0 0 0 = 0 0\n\
call 2 257 0 0 0 0 = exit\n\
ret 2 cleanup\n\
gone 2 0\n\
run 1\n\
call 1 93 0 0 0 0 = end\n\
end exit 0\n",
    },
    // all block the signal: it comes while thread 2 waits, and is delivered when that thread unblocks it
    JournalRow {
        items: &[
            Sys(274, [0, 0, 0, 0]),
            Sys(286, [10, 66_060, 0, 0]),
            Sys(287, [0, 1024, 0, 0]),
            Sys(276, [0, 0, 0, 0]),
            Sys(256, [66_108, 0, 131_072, 0]),
            YIELD,
            SELF,
            Sys(278, [0, 0, 0, 0]),
            YIELD,
            END,
            At(66_060),
            SELF,
            Ret,
            At(66_108),
            Sys(276, [0, 0, 0, 0]),
            Sys(287, [1, 1024, 0, 0]),
            Sys(257, [0, 0, 0, 0]),
        ],
        entries: b"80.0 sig 10\n",
        text: b"run 1\n\
call 1 274 0 0 0 0 = 0 0\n\
call 1 286 10 66060 0 0 = 0 0\n\
call 1 287 0 1024 0 0 = 0 0\n\
call 1 276 0 0 0 0 = 0 0\n\
call 1 256 66108 0 131072 0 = 0 2\n\
call 1 261 0 0 0 0 = 0 0\n\
run 2\n\
call 2 276 0 0 0 0 = block\n\
run 1\n\
arrive 1 1 sig 10\n\
call 1 260 0 0 0 0 = 0 1\n\
call 1 278 0 0 0 0 = 0 0\n\
done 2 0 0\n\
call 1 261 0 0 0 0 = 0 0\n\
run 2\n\
call 2 287 1 1024 0 0 = 0 1024\n\
deliver 2 10 1\n\
call 2 260 0 0 0 0 = 0 2\n\
ret 2 handler\n\
call 2 257 0 0 0 0 = exit\n\
ret 2 cleanup\n\
gone 2 0\n\
run 1\n\
call 1 93 0 0 0 0 = end\n\
end exit 0\n",
    },
];

/// Thread 2 waits for a condition, and thread 1 takes its mutex and gives it back.
const CONDITION: &[Item] = &[
    Sys(274, [0, 0, 0, 0]),
    Sys(280, [0, 0, 0, 0]),
    Sys(286, [10, 66_104, 0, 0]),
    Sys(256, [66_152, 0, 131_072, 0]),
    Sys(287, [0, 1024, 0, 0]),
    YIELD,
    Sys(276, [0, 0, 0, 0]),
    SELF,
    Sys(278, [0, 0, 0, 0]),
    YIELD,
    END,
    At(66_104),
    SELF,
    Ret,
    At(66_152),
    Sys(276, [0, 0, 0, 0]),
    Sys(282, [0, 0, 0, 0]),
    Sys(278, [0, 0, 0, 0]),
    Sys(257, [0, 0, 0, 0]),
];

/// Waits for a condition: the handler runs when the mutex is back.
const CONDITIONS: &[JournalRow<'static>] = &[
    // thread 1 has the mutex
    JournalRow {
        items: CONDITION,
        entries: b"99.0 sig 10\n",
        text: b"run 1\n\
call 1 274 0 0 0 0 = 0 0\n\
call 1 280 0 0 0 0 = 0 0\n\
call 1 286 10 66104 0 0 = 0 0\n\
call 1 256 66152 0 131072 0 = 0 2\n\
call 1 287 0 1024 0 0 = 0 0\n\
call 1 261 0 0 0 0 = 0 0\n\
run 2\n\
call 2 276 0 0 0 0 = 0 0\n\
call 2 282 0 0 0 0 = block\n\
run 1\n\
call 1 276 0 0 0 0 = 0 0\n\
arrive 1 1 sig 10\n\
interrupt 2 10 1\n\
call 1 260 0 0 0 0 = 0 1\n\
call 1 278 0 0 0 0 = 0 0\n\
done 2 0 0\n\
deliver 2 10 1\n\
call 1 261 0 0 0 0 = 0 0\n\
run 2\n\
call 2 260 0 0 0 0 = 0 2\n\
ret 2 handler\n\
call 2 278 0 0 0 0 = 0 0\n\
call 2 257 0 0 0 0 = exit\n\
ret 2 cleanup\n\
gone 2 0\n\
run 1\n\
call 1 93 0 0 0 0 = end\n\
end exit 0\n",
    },
    // one that comes while thread 2 waits to have the mutex back pends on the process, and is delivered by itself
    JournalRow {
        items: CONDITION,
        entries: b"99.0 sig 10\n99.0 sig 10\n110.0 sig 10\n",
        text: b"run 1\n\
call 1 274 0 0 0 0 = 0 0\n\
call 1 280 0 0 0 0 = 0 0\n\
call 1 286 10 66104 0 0 = 0 0\n\
call 1 256 66152 0 131072 0 = 0 2\n\
call 1 287 0 1024 0 0 = 0 0\n\
call 1 261 0 0 0 0 = 0 0\n\
run 2\n\
call 2 276 0 0 0 0 = 0 0\n\
call 2 282 0 0 0 0 = block\n\
run 1\n\
call 1 276 0 0 0 0 = 0 0\n\
arrive 1 2 sig 10\n\
interrupt 2 10 2\n\
call 1 260 0 0 0 0 = 0 1\n\
arrive 3 1 sig 10\n\
call 1 278 0 0 0 0 = 0 0\n\
done 2 0 0\n\
deliver 2 10 2\n\
call 1 261 0 0 0 0 = 0 0\n\
run 2\n\
call 2 260 0 0 0 0 = 0 2\n\
ret 2 handler\n\
deliver 2 10 1\n\
call 2 260 0 0 0 0 = 0 2\n\
ret 2 handler\n\
call 2 278 0 0 0 0 = 0 0\n\
call 2 257 0 0 0 0 = exit\n\
ret 2 cleanup\n\
gone 2 0\n\
run 1\n\
call 1 93 0 0 0 0 = end\n\
end exit 0\n",
    },
    // the mutex is free: it is back at once, and thread 1 has to wait for it
    JournalRow {
        items: CONDITION,
        entries: b"90.0 sig 10\n",
        text: b"run 1\n\
call 1 274 0 0 0 0 = 0 0\n\
call 1 280 0 0 0 0 = 0 0\n\
call 1 286 10 66104 0 0 = 0 0\n\
call 1 256 66152 0 131072 0 = 0 2\n\
call 1 287 0 1024 0 0 = 0 0\n\
call 1 261 0 0 0 0 = 0 0\n\
run 2\n\
call 2 276 0 0 0 0 = 0 0\n\
call 2 282 0 0 0 0 = block\n\
run 1\n\
arrive 1 1 sig 10\n\
interrupt 2 10 1\n\
done 2 0 0\n\
deliver 2 10 1\n\
call 1 276 0 0 0 0 = block\n\
run 2\n\
call 2 260 0 0 0 0 = 0 2\n\
ret 2 handler\n\
call 2 278 0 0 0 0 = 0 0\n\
done 1 0 0\n\
call 2 257 0 0 0 0 = exit\n\
ret 2 cleanup\n\
gone 2 0\n\
run 1\n\
call 1 260 0 0 0 0 = 0 1\n\
call 1 278 0 0 0 0 = 0 0\n\
call 1 261 0 0 0 0 = 0 0\n\
call 1 93 0 0 0 0 = end\n\
end exit 0\n",
    },
];

#[test]
fn joins_are_made_again(rt: HostRuntime) -> Result<(), Fail> {
    assert_eq!(rt; first_other_under(rt.alloc(), JOINS)?, None);
    Ok(())
}

#[test]
fn locks_are_made_again(rt: HostRuntime) -> Result<(), Fail> {
    assert_eq!(rt; first_other_under(rt.alloc(), LOCKS)?, None);
    Ok(())
}

#[test]
fn conditions_are_left(rt: HostRuntime) -> Result<(), Fail> {
    assert_eq!(rt; first_other_under(rt.alloc(), CONDITIONS)?, None);
    Ok(())
}
