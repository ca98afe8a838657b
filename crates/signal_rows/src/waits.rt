//! Programs that ask what pends and wait for signals, each with the text that the rules of the machine give it. Calls: 286
//! sets the action of a signal (1 to ignore, else a handler's address), 287 adds to the mask, 288 answers the set that
//! pends, 289 waits for a signal of a set, 290 sends a signal to a thread, 291 to the process. Bit 2 of a set is 4, bit 10
//! is 1024, bit 12 is 4096, bit 15 is 32768.

use std::alloc::Global;
use std::test::Fail;
use workload_gen::program::Item::{At, Ret, Sys};
use workload_gen::program::{END, Item, JournalRow, Row, SELF, first_other, first_other_under};

/// A wait for signal 10.
const WAITS_FOR_10: Item = Sys(289, [1024, 0, 0, 0]);

/// The exit of a thread with 0.
const EXIT: Item = Sys(257, [0, 0, 0, 0]);

/// What an entry of the journal makes of a signal that pends or is awaited.
const ENTRIES: &[JournalRow<'static>] = &[
    // a signal that is blocked pends
    JournalRow {
        items: &[Sys(287, [0, 4, 0, 0]), Sys(288, [0, 0, 0, 0]), END],
        entries: b"11.0 sig 2\n",
        text: b"run 1\n\
call 1 287 0 4 0 0 = 0 0\n\
arrive 1 1 sig 2\n\
call 1 288 0 0 0 0 = 0 4\n\
call 1 93 0 0 0 0 = end\n\
left 2 1\n\
end exit 0\n",
    },
    // it is accepted at once by a call that waits for it
    JournalRow {
        items: &[Sys(287, [0, 4, 0, 0]), Sys(289, [4, 0, 0, 0]), END],
        entries: b"11.0 sig 2\n",
        text: b"run 1\n\
call 1 287 0 4 0 0 = 0 0\n\
arrive 1 1 sig 2\n\
call 1 289 4 0 0 0 = 0 2\n\
accept 1 2 1\n\
call 1 93 0 0 0 0 = end\n\
end exit 0\n",
    },
    // an action to ignore drops it
    JournalRow {
        items: &[Sys(287, [0, 4, 0, 0]), Sys(286, [2, 1, 0, 0]), END],
        entries: b"11.0 sig 2\n",
        text: b"run 1\n\
call 1 287 0 4 0 0 = 0 0\n\
arrive 1 1 sig 2\n\
call 1 286 2 1 0 0 = 0 0\n\
drop 2 1\n\
call 1 93 0 0 0 0 = end\n\
end exit 0\n",
    },
    // the only thread waits, so the entry comes although its place is far
    JournalRow {
        items: &[Sys(287, [0, 1024, 0, 0]), WAITS_FOR_10, SELF, END],
        entries: b"500.0 sig 10\n",
        text: b"run 1\n\
call 1 287 0 1024 0 0 = 0 0\n\
call 1 289 1024 0 0 0 = block\n\
arrive 1 1 sig 10\n\
accept 1 10 1\n\
done 1 0 10\n\
call 1 260 0 0 0 0 = 0 1\n\
call 1 93 0 0 0 0 = end\n\
end exit 0\n",
    },
    // the wait comes before the action, which would end the process; two entries are accepted as one
    JournalRow {
        items: &[WAITS_FOR_10, END],
        entries: b"11.0 sig 10\n11.0 sig 10\n",
        text: b"run 1\n\
call 1 289 1024 0 0 0 = block\n\
arrive 1 2 sig 10\n\
accept 1 10 2\n\
done 1 0 10\n\
call 1 93 0 0 0 0 = end\n\
end exit 0\n",
    },
];

/// What calls send to those who wait.
const SENDS: &[Row<'static>] = &[
    // the lowest signal of the set with its whole count, the caller's own before the process's; empty sets are refused
    Row {
        items: &[
            Sys(287, [0, 37_888, 0, 0]),
            Sys(290, [1, 12, 0, 0]),
            Sys(290, [1, 12, 0, 0]),
            Sys(291, [12, 0, 0, 0]),
            Sys(291, [10, 0, 0, 0]),
            Sys(289, [36_864, 0, 0, 0]),
            Sys(288, [0, 0, 0, 0]),
            Sys(289, [37_888, 0, 0, 0]),
            Sys(289, [37_888, 0, 0, 0]),
            Sys(288, [0, 0, 0, 0]),
            Sys(289, [0, 0, 0, 0]),
            Sys(289, [512, 0, 0, 0]),
            END,
        ],
        text: b"run 1\n\
call 1 287 0 37888 0 0 = 0 0\n\
call 1 290 1 12 0 0 = 0 0\n\
call 1 290 1 12 0 0 = 0 0\n\
call 1 291 12 0 0 0 = 0 0\n\
call 1 291 10 0 0 0 = 0 0\n\
call 1 289 36864 0 0 0 = 0 12\n\
accept 1 12 2\n\
call 1 288 0 0 0 0 = 0 5120\n\
call 1 289 37888 0 0 0 = 0 10\n\
accept 1 10 1\n\
call 1 289 37888 0 0 0 = 0 12\n\
accept 1 12 1\n\
call 1 288 0 0 0 0 = 0 0\n\
call 1 289 0 0 0 0 = 22 0\n\
call 1 289 512 0 0 0 = 22 0\n\
call 1 93 0 0 0 0 = end\n\
end exit 0\n",
    },
    // of those who wait the one of the greatest priority gets it, the lowest of equals; where nobody waits the sender is
    // free for it, and its action ends the process
    Row {
        items: &[
            Sys(256, [65_928, 0, 131_072, 131_082]),
            Sys(256, [65_928, 0, 135_168, 131_084]),
            Sys(256, [65_928, 0, 139_264, 131_084]),
            Sys(291, [10, 0, 0, 0]),
            Sys(291, [10, 0, 0, 0]),
            Sys(291, [10, 0, 0, 0]),
            Sys(291, [10, 0, 0, 0]),
            At(65_928),
            WAITS_FOR_10,
            EXIT,
        ],
        text: b"run 1\n\
call 1 256 65928 0 131072 131082 = 0 2\n\
run 2\n\
call 2 289 1024 0 0 0 = block\n\
run 1\n\
call 1 256 65928 0 135168 131084 = 0 3\n\
run 3\n\
call 3 289 1024 0 0 0 = block\n\
run 1\n\
call 1 256 65928 0 139264 131084 = 0 4\n\
run 4\n\
call 4 289 1024 0 0 0 = block\n\
run 1\n\
call 1 291 10 0 0 0 = 0 0\n\
accept 3 10 1\n\
done 3 0 10\n\
run 3\n\
call 3 257 0 0 0 0 = exit\n\
ret 3 cleanup\n\
gone 3 0\n\
run 1\n\
call 1 291 10 0 0 0 = 0 0\n\
accept 4 10 1\n\
done 4 0 10\n\
run 4\n\
call 4 257 0 0 0 0 = exit\n\
ret 4 cleanup\n\
gone 4 0\n\
run 1\n\
call 1 291 10 0 0 0 = 0 0\n\
accept 2 10 1\n\
done 2 0 10\n\
run 2\n\
call 2 257 0 0 0 0 = exit\n\
ret 2 cleanup\n\
gone 2 0\n\
run 1\n\
call 1 291 10 0 0 0 = 0 0\n\
deliver 1 10 1\n\
end killed 10\n",
    },
    // a handler of another signal ends the wait, which is made again
    Row {
        items: &[
            Sys(286, [12, 65_928, 0, 0]),
            Sys(256, [65_840, 0, 131_072, 131_084]),
            Sys(290, [2, 12, 0, 0]),
            Sys(290, [2, 10, 0, 0]),
            END,
            At(65_840),
            WAITS_FOR_10,
            EXIT,
            At(65_928),
            Ret,
        ],
        text: b"run 1\n\
call 1 286 12 65928 0 0 = 0 0\n\
call 1 256 65840 0 131072 131084 = 0 2\n\
run 2\n\
call 2 289 1024 0 0 0 = block\n\
run 1\n\
call 1 290 2 12 0 0 = 0 0\n\
deliver 2 12 1\n\
run 2\n\
ret 2 handler\n\
call 2 289 1024 0 0 0 = block\n\
run 1\n\
call 1 290 2 10 0 0 = 0 0\n\
accept 2 10 1\n\
done 2 0 10\n\
run 2\n\
call 2 257 0 0 0 0 = exit\n\
ret 2 cleanup\n\
gone 2 0\n\
run 1\n\
call 1 93 0 0 0 0 = end\n\
end exit 0\n",
    },
];

#[test]
fn entries_are_accepted(rt: HostRuntime) -> Result<(), Fail> {
    assert_eq!(rt; first_other_under(rt.alloc(), ENTRIES)?, None);
    Ok(())
}

#[test]
fn sent_signals_are_accepted(rt: HostRuntime) -> Result<(), Fail> {
    assert_eq!(rt; first_other(rt.alloc(), SENDS)?, None);
    Ok(())
}
