//! Waits for a condition with a deadline that are refused, each with the text that the rules of the machine give it.
//! Calls: 283 waits for a condition with a mutex, up to a time; 274 makes a mutex, 276 locks and 278 unlocks it; 280 makes
//! a condition, 284 signals it. Errors: 1 the mutex is not the caller's, 22 what is asked for is not there or not so, 110
//! the time has come.

use std::test::Fail;
use workload_gen::program::Item::{At, Sys};
use workload_gen::program::{END, JournalRow, YIELD, first_other_under};

/// Refusals in their order, and what comes after them.
const ROWS: &[JournalRow<'static>] = &[
    // no condition, no mutex, not the owner, and the first of these where several hold; a time that has come is looked at
    // last, and leaves the mutex with its owner
    JournalRow {
        items: &[
            Sys(283, [0, 0, 5, 0]),
            Sys(280, [0, 0, 0, 0]),
            Sys(283, [0, 0, 5, 0]),
            Sys(274, [0, 0, 0, 0]),
            Sys(283, [0, 0, 5, 0]),
            Sys(283, [1, 0, 5, 0]),
            Sys(283, [256, 0, 0, 0]),
            Sys(283, [0, 256, 0, 0]),
            Sys(276, [0, 0, 0, 0]),
            Sys(283, [1, 0, 0, 0]),
            Sys(283, [0, 0, 0, 0]),
            Sys(283, [0, 0, 0, 0]),
            Sys(278, [0, 0, 0, 0]),
            Sys(283, [0, 0, 0, 0]),
            END,
        ],
        entries: b"",
        text: b"run 1\n\
call 1 283 0 0 5 0 = 22 0\n\
call 1 280 0 0 0 0 = 0 0\n\
call 1 283 0 0 5 0 = 22 0\n\
call 1 274 0 0 0 0 = 0 0\n\
call 1 283 0 0 5 0 = 1 0\n\
call 1 283 1 0 5 0 = 22 0\n\
call 1 283 256 0 0 0 = 22 0\n\
call 1 283 0 256 0 0 = 22 0\n\
call 1 276 0 0 0 0 = 0 0\n\
call 1 283 1 0 0 0 = 22 0\n\
call 1 283 0 0 0 0 = 110 0\n\
call 1 283 0 0 0 0 = 110 0\n\
call 1 278 0 0 0 0 = 0 0\n\
call 1 283 0 0 0 0 = 1 0\n\
call 1 93 0 0 0 0 = end\n\
end exit 0\n",
    },
    // thread 2 waits for the condition with mutex 1, so nobody waits for it with mutex 0 until thread 2 has left it
    JournalRow {
        items: &[
            Sys(274, [0, 0, 0, 0]),
            Sys(274, [1, 0, 0, 0]),
            Sys(280, [0, 0, 0, 0]),
            Sys(256, [66_280, 0, 131_072, 0]),
            YIELD,
            Sys(283, [0, 0, 5, 0]),
            Sys(276, [0, 0, 0, 0]),
            Sys(283, [0, 0, 5, 0]),
            Sys(283, [0, 0, 0, 0]),
            Sys(283, [0, 1, 5, 0]),
            Sys(278, [0, 0, 0, 0]),
            Sys(284, [0, 0, 0, 0]),
            Sys(276, [0, 0, 0, 0]),
            Sys(283, [0, 0, 0, 0]),
            END,
            At(66_280),
            Sys(276, [1, 0, 0, 0]),
            Sys(282, [0, 1, 0, 0]),
        ],
        entries: b"",
        text: b"run 1\n\
call 1 274 0 0 0 0 = 0 0\n\
call 1 274 1 0 0 0 = 0 0\n\
call 1 280 0 0 0 0 = 0 0\n\
call 1 256 66280 0 131072 0 = 0 2\n\
call 1 261 0 0 0 0 = 0 0\n\
run 2\n\
call 2 276 1 0 0 0 = 0 0\n\
call 2 282 0 1 0 0 = block\n\
run 1\n\
call 1 283 0 0 5 0 = 1 0\n\
call 1 276 0 0 0 0 = 0 0\n\
call 1 283 0 0 5 0 = 22 0\n\
call 1 283 0 0 0 0 = 22 0\n\
call 1 283 0 1 5 0 = 1 0\n\
call 1 278 0 0 0 0 = 0 0\n\
call 1 284 0 0 0 0 = 0 0\n\
done 2 0 0\n\
call 1 276 0 0 0 0 = 0 0\n\
call 1 283 0 0 0 0 = 110 0\n\
call 1 93 0 0 0 0 = end\n\
end exit 0\n",
    },
];

#[test]
fn waits_are_refused(rt: HostRuntime) -> Result<(), Fail> {
    assert_eq!(rt; first_other_under(rt.alloc(), ROWS)?, None);
    Ok(())
}
