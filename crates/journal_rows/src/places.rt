//! Programs under journals of signals: where an entry comes, and which entries come together, each with the text that the
//! rules of the machine give it. A call is eleven instructions, and the last of them is the call itself, so an entry
//! `22.K` stands after the second call. Calls: 286 sets the action of a signal (0 the default, 1 to ignore, else a
//! handler's address, with the set that it blocks), 287 changes the mask (0 adds, 1 takes away), 290 sends a signal to a
//! thread, 291 to the process. Bit 10 of a set is 1024.

use std::test::Fail;
use workload_gen::program::Item::{At, Ret, Sys, Word};
use workload_gen::program::{END, Item, JournalRow, SELF, YIELD, first_other_under};

/// An endless loop: a jump to itself.
const LOOP: Item = Word(0x0000_006f);

/// A thread that takes a mutex and gives it back, and a handler of signal 10.
const LOCKS: &[Item] = &[
    Sys(286, [10, 65_840, 0, 0]),
    Sys(274, [0, 0, 0, 0]),
    Sys(276, [0, 0, 0, 0]),
    Sys(278, [0, 0, 0, 0]),
    END,
    At(65_840),
    Ret,
];

/// The text where one entry stands after the unlock.
const ONE_AFTER_UNLOCK: &[u8] = b"run 1\n\
call 1 286 10 65840 0 0 = 0 0\n\
call 1 274 0 0 0 0 = 0 0\n\
call 1 276 0 0 0 0 = 0 0\n\
call 1 278 0 0 0 0 = 0 0\n\
arrive 1 1 sig 10\n\
deliver 1 10 1\n\
ret 1 handler\n\
call 1 93 0 0 0 0 = end\n\
end exit 0\n";

/// The text where four entries stand there.
const FOUR_AFTER_UNLOCK: &[u8] = b"run 1\n\
call 1 286 10 65840 0 0 = 0 0\n\
call 1 274 0 0 0 0 = 0 0\n\
call 1 276 0 0 0 0 = 0 0\n\
call 1 278 0 0 0 0 = 0 0\n\
arrive 1 4 sig 10\n\
deliver 1 10 4\n\
ret 1 handler\n\
call 1 93 0 0 0 0 = end\n\
end exit 0\n";

/// Entries of one signal at a call: they come at its end, whatever the second number of their places, and together.
const AT_A_CALL: &[JournalRow<'static>] = &[
    JournalRow {
        items: LOCKS,
        entries: b"44.0 sig 10\n",
        text: ONE_AFTER_UNLOCK,
    },
    JournalRow {
        items: LOCKS,
        entries: b"44.2 sig 10\n",
        text: ONE_AFTER_UNLOCK,
    },
    JournalRow {
        items: LOCKS,
        entries: b"44.9 sig 10\n",
        text: ONE_AFTER_UNLOCK,
    },
    JournalRow {
        items: LOCKS,
        entries: b"44.500 sig 10\n",
        text: ONE_AFTER_UNLOCK,
    },
    JournalRow {
        items: LOCKS,
        entries: b"44.0 sig 10\n44.0 sig 10\n44.0 sig 10\n",
        text: b"run 1\n\
call 1 286 10 65840 0 0 = 0 0\n\
call 1 274 0 0 0 0 = 0 0\n\
call 1 276 0 0 0 0 = 0 0\n\
call 1 278 0 0 0 0 = 0 0\n\
arrive 1 3 sig 10\n\
deliver 1 10 3\n\
ret 1 handler\n\
call 1 93 0 0 0 0 = end\n\
end exit 0\n",
    },
    JournalRow {
        items: LOCKS,
        entries: b"44.0 sig 10\n44.0 sig 10\n44.0 sig 10\n44.0 sig 10\n",
        text: FOUR_AFTER_UNLOCK,
    },
    JournalRow {
        items: LOCKS,
        entries: b"44.0 sig 10\n44.0 sig 10\n44.0 sig 10\n44.1 sig 10\n",
        text: FOUR_AFTER_UNLOCK,
    },
    JournalRow {
        items: LOCKS,
        entries: b"44.0 sig 10\n44.0 sig 10\n44.0 sig 10\n44.7 sig 10\n",
        text: FOUR_AFTER_UNLOCK,
    },
    JournalRow {
        items: LOCKS,
        entries: b"44.0 sig 10\n44.0 sig 10\n44.0 sig 10\n44.64 sig 10\n",
        text: FOUR_AFTER_UNLOCK,
    },
];

/// An exit with 3 after a handler was set, which makes a call.
const EXITS: &[Item] = &[
    Sys(286, [10, 65_708, 0, 0]),
    Sys(93, [3, 1, 2, 4]),
    At(65_708),
    SELF,
    Ret,
];

/// The text where the handler runs before the exit.
const HANDLED_BEFORE_EXIT: &[u8] = b"run 1\n\
call 1 286 10 65708 0 0 = 0 0\n\
arrive 1 1 sig 10\n\
deliver 1 10 1\n\
call 1 260 0 0 0 0 = 0 1\n\
ret 1 handler\n\
call 1 93 3 1 2 4 = end\n\
end exit 3\n";

/// An entry before, between and after the instructions of a call.
const WITHIN_A_CALL: &[JournalRow<'static>] = &[
    // before the first one, between two, and right before the call itself: the registers are as before, so it is the same
    JournalRow {
        items: EXITS,
        entries: b"11.0 sig 10\n",
        text: HANDLED_BEFORE_EXIT,
    },
    JournalRow {
        items: EXITS,
        entries: b"15.0 sig 10\n",
        text: HANDLED_BEFORE_EXIT,
    },
    JournalRow {
        items: EXITS,
        entries: b"21.0 sig 10\n",
        text: HANDLED_BEFORE_EXIT,
    },
    // the process is over after it: what stands there and beyond is not told
    JournalRow {
        items: EXITS,
        entries: b"22.0 sig 10\n22.0 sig 9\n1000000000.1000000 sig 10\n",
        text: b"run 1\n\
call 1 286 10 65708 0 0 = 0 0\n\
call 1 93 3 1 2 4 = end\n\
end exit 3\n",
    },
    // one instruction before the call that sets the handler, the default ends the process
    JournalRow {
        items: EXITS,
        entries: b"10.0 sig 10\n",
        text: b"run 1\n\
arrive 1 1 sig 10\n\
deliver 1 10 1\n\
end killed 10\n",
    },
    // before the first instruction of all no thread has run
    JournalRow {
        items: EXITS,
        entries: b"0.0 sig 10\n",
        text: b"arrive 1 1 sig 10\n\
deliver 1 10 1\n\
end killed 10\n",
    },
    JournalRow {
        items: EXITS,
        entries: b"0.0 sig 17\n",
        text: b"arrive 1 1 sig 17\n\
drop 17 1\n\
run 1\n\
call 1 286 10 65708 0 0 = 0 0\n\
call 1 93 3 1 2 4 = end\n\
end exit 3\n",
    },
];

/// Handlers of 10, which asks for its thread, and of 12, which yields.
const TWO_HANDLERS: &[Item] = &[
    Sys(286, [10, 65_752, 0, 0]),
    Sys(286, [12, 65_800, 0, 0]),
    END,
    At(65_752),
    SELF,
    Ret,
    At(65_800),
    YIELD,
    Ret,
];

/// Entries of several signals at one place: they come in the order of the journal, those of one signal with the first
/// of them, and are then delivered by number.
const SEVERAL_SIGNALS: &[JournalRow<'static>] = &[
    JournalRow {
        items: TWO_HANDLERS,
        entries: b"22.0 sig 12\n22.0 sig 10\n",
        text: b"run 1\n\
call 1 286 10 65752 0 0 = 0 0\n\
call 1 286 12 65800 0 0 = 0 0\n\
arrive 1 1 sig 12\n\
arrive 2 1 sig 10\n\
deliver 1 10 1\n\
deliver 1 12 1\n\
call 1 261 0 0 0 0 = 0 0\n\
ret 1 handler\n\
call 1 260 0 0 0 0 = 0 1\n\
ret 1 handler\n\
call 1 93 0 0 0 0 = end\n\
end exit 0\n",
    },
    JournalRow {
        items: TWO_HANDLERS,
        entries: b"22.0 sig 10\n22.0 sig 12\n",
        text: b"run 1\n\
call 1 286 10 65752 0 0 = 0 0\n\
call 1 286 12 65800 0 0 = 0 0\n\
arrive 1 1 sig 10\n\
arrive 2 1 sig 12\n\
deliver 1 10 1\n\
deliver 1 12 1\n\
call 1 261 0 0 0 0 = 0 0\n\
ret 1 handler\n\
call 1 260 0 0 0 0 = 0 1\n\
ret 1 handler\n\
call 1 93 0 0 0 0 = end\n\
end exit 0\n",
    },
    // another signal stands between two of one
    JournalRow {
        items: TWO_HANDLERS,
        entries: b"22.0 sig 12\n22.1 sig 10\n22.1 sig 12\n22.3 sig 10\n22.9 sig 12\n",
        text: b"run 1\n\
call 1 286 10 65752 0 0 = 0 0\n\
call 1 286 12 65800 0 0 = 0 0\n\
arrive 1 3 sig 12\n\
arrive 2 2 sig 10\n\
deliver 1 10 2\n\
deliver 1 12 3\n\
call 1 261 0 0 0 0 = 0 0\n\
ret 1 handler\n\
call 1 260 0 0 0 0 = 0 1\n\
ret 1 handler\n\
call 1 93 0 0 0 0 = end\n\
end exit 0\n",
    },
    // all are blocked: 23 and 28 are dropped nevertheless, and what pends is told at the end by number
    JournalRow {
        items: &[Sys(287, [2, 0xffff_ffff, 0, 0]), END],
        entries: b"11.0 sig 31\n11.0 sig 28\n11.0 sig 15\n11.0 sig 31\n\
11.0 sig 1\n11.0 sig 28\n11.0 sig 23\n11.0 sig 31\n",
        text: b"run 1\n\
call 1 287 2 4294967295 0 0 = 0 0\n\
arrive 1 3 sig 31\n\
arrive 2 2 sig 28\n\
drop 28 2\n\
arrive 3 1 sig 15\n\
arrive 5 1 sig 1\n\
arrive 7 1 sig 23\n\
drop 23 1\n\
call 1 93 0 0 0 0 = end\n\
left 1 1\n\
left 15 1\n\
left 31 3\n\
end exit 0\n",
    },
];

/// Signals that pend when an entry comes, or when an action or a mask changes.
const PENDING: &[JournalRow<'static>] = &[
    // an action drops what came
    JournalRow {
        items: &[Sys(287, [0, 4, 0, 0]), Sys(286, [2, 1, 0, 0]), END],
        entries: b"11.0 sig 2\n",
        text: b"run 1\n\
call 1 287 0 4 0 0 = 0 0\n\
arrive 1 1 sig 2\n\
call 1 286 2 1 0 0 = 0 0\n\
drop 2 1\n\
call 1 93 0 0 0 0 = end\n\
end exit 0\n",
    },
    // without it the signal is left
    JournalRow {
        items: &[Sys(287, [0, 4, 0, 0]), SELF, END],
        entries: b"11.0 sig 2\n",
        text: b"run 1\n\
call 1 287 0 4 0 0 = 0 0\n\
arrive 1 1 sig 2\n\
call 1 260 0 0 0 0 = 0 1\n\
call 1 93 0 0 0 0 = end\n\
left 2 1\n\
end exit 0\n",
    },
    // the action counts when the signal is delivered, and not when it came
    JournalRow {
        items: &[
            Sys(287, [0, 1024, 0, 0]),
            Sys(286, [10, 65_796, 0, 0]),
            Sys(287, [1, 1024, 0, 0]),
            END,
            At(65_796),
            SELF,
            Ret,
        ],
        entries: b"11.0 sig 10\n",
        text: b"run 1\n\
call 1 287 0 1024 0 0 = 0 0\n\
arrive 1 1 sig 10\n\
call 1 286 10 65796 0 0 = 0 0\n\
call 1 287 1 1024 0 0 = 0 1024\n\
deliver 1 10 1\n\
call 1 260 0 0 0 0 = 0 1\n\
ret 1 handler\n\
call 1 93 0 0 0 0 = end\n\
end exit 0\n",
    },
    // entries at several places while it is blocked: all are delivered at once
    JournalRow {
        items: &[
            Sys(286, [10, 65_840, 0, 0]),
            Sys(287, [0, 1024, 0, 0]),
            SELF,
            Sys(287, [1, 1024, 0, 0]),
            END,
            At(65_840),
            SELF,
            Ret,
        ],
        entries: b"22.0 sig 10\n25.0 sig 10\n25.3 sig 10\n33.0 sig 10\n",
        text: b"run 1\n\
call 1 286 10 65840 0 0 = 0 0\n\
call 1 287 0 1024 0 0 = 0 0\n\
arrive 1 1 sig 10\n\
arrive 2 2 sig 10\n\
call 1 260 0 0 0 0 = 0 1\n\
arrive 4 1 sig 10\n\
call 1 287 1 1024 0 0 = 0 1024\n\
deliver 1 10 4\n\
call 1 260 0 0 0 0 = 0 1\n\
ret 1 handler\n\
call 1 93 0 0 0 0 = end\n\
end exit 0\n",
    },
    // the process has one by a call already, with which the entry's counts
    JournalRow {
        items: &[
            Sys(286, [10, 65_840, 0, 0]),
            Sys(287, [0, 1024, 0, 0]),
            Sys(291, [10, 0, 0, 0]),
            Sys(287, [1, 1024, 0, 0]),
            END,
            At(65_840),
            SELF,
            Ret,
        ],
        entries: b"33.0 sig 10\n",
        text: b"run 1\n\
call 1 286 10 65840 0 0 = 0 0\n\
call 1 287 0 1024 0 0 = 0 0\n\
call 1 291 10 0 0 0 = 0 0\n\
arrive 1 1 sig 10\n\
call 1 287 1 1024 0 0 = 0 1024\n\
deliver 1 10 2\n\
call 1 260 0 0 0 0 = 0 1\n\
ret 1 handler\n\
call 1 93 0 0 0 0 = end\n\
end exit 0\n",
    },
    // the thread has one by a call: it is delivered by itself, and before the process's
    JournalRow {
        items: &[
            Sys(286, [10, 65_840, 0, 0]),
            Sys(287, [0, 1024, 0, 0]),
            Sys(290, [1, 10, 0, 0]),
            Sys(287, [1, 1024, 0, 0]),
            END,
            At(65_840),
            SELF,
            Ret,
        ],
        entries: b"33.0 sig 10\n33.0 sig 10\n",
        text: b"run 1\n\
call 1 286 10 65840 0 0 = 0 0\n\
call 1 287 0 1024 0 0 = 0 0\n\
call 1 290 1 10 0 0 = 0 0\n\
arrive 1 2 sig 10\n\
call 1 287 1 1024 0 0 = 0 1024\n\
deliver 1 10 1\n\
call 1 260 0 0 0 0 = 0 1\n\
ret 1 handler\n\
deliver 1 10 2\n\
call 1 260 0 0 0 0 = 0 1\n\
ret 1 handler\n\
call 1 93 0 0 0 0 = end\n\
end exit 0\n",
    },
    // the call itself is the last instruction before the entry: the entry comes before the delivery
    JournalRow {
        items: &[
            Sys(286, [10, 65_752, 0, 0]),
            Sys(291, [10, 0, 0, 0]),
            END,
            At(65_752),
            SELF,
            Ret,
        ],
        entries: b"22.0 sig 10\n",
        text: b"run 1\n\
call 1 286 10 65752 0 0 = 0 0\n\
call 1 291 10 0 0 0 = 0 0\n\
arrive 1 1 sig 10\n\
deliver 1 10 2\n\
call 1 260 0 0 0 0 = 0 1\n\
ret 1 handler\n\
call 1 93 0 0 0 0 = end\n\
end exit 0\n",
    },
];

/// The last instructions of the budget, 1,000,000.
const LAST_INSTRUCTIONS: &[JournalRow<'static>] = &[
    // the handler's return is one of them
    JournalRow {
        items: &[Sys(286, [10, 65_668, 0, 0]), LOOP, At(65_668), Ret],
        entries: b"999990.0 sig 10\n",
        text: b"run 1\n\
call 1 286 10 65668 0 0 = 0 0\n\
arrive 1 1 sig 10\n\
deliver 1 10 1\n\
ret 1 handler\n\
end budget\n",
    },
    // the handler's call is the very last; what is due then still comes and is delivered, and what is beyond is not told
    JournalRow {
        items: &[
            Sys(286, [10, 65_712, 0, 0]),
            Sys(286, [12, 65_712, 0, 0]),
            LOOP,
            At(65_712),
            SELF,
            Ret,
        ],
        entries: b"999989.0 sig 10\n1000000.0 sig 10\n1000000.0 sig 12\n\
1000000.0 sig 17\n1000000.3 sig 12\n1000001.0 sig 9\n",
        text: b"run 1\n\
call 1 286 10 65712 0 0 = 0 0\n\
call 1 286 12 65712 0 0 = 0 0\n\
arrive 1 1 sig 10\n\
deliver 1 10 1\n\
call 1 260 0 0 0 0 = 0 1\n\
arrive 2 1 sig 10\n\
arrive 3 2 sig 12\n\
arrive 4 1 sig 17\n\
drop 17 1\n\
deliver 1 12 2\n\
left 10 1\n\
end budget\n",
    },
];

#[test]
fn entries_at_a_call(rt: HostRuntime) -> Result<(), Fail> {
    assert_eq!(rt; first_other_under(rt.alloc(), AT_A_CALL)?, None);
    Ok(())
}

#[test]
fn entries_within_a_call(rt: HostRuntime) -> Result<(), Fail> {
    assert_eq!(rt; first_other_under(rt.alloc(), WITHIN_A_CALL)?, None);
    Ok(())
}

#[test]
fn several_signals_at_one_place(rt: HostRuntime) -> Result<(), Fail> {
    assert_eq!(rt; first_other_under(rt.alloc(), SEVERAL_SIGNALS)?, None);
    Ok(())
}

#[test]
fn signals_that_pend(rt: HostRuntime) -> Result<(), Fail> {
    assert_eq!(rt; first_other_under(rt.alloc(), PENDING)?, None);
    Ok(())
}

#[test]
fn the_last_instructions(rt: HostRuntime) -> Result<(), Fail> {
    assert_eq!(rt; first_other_under(rt.alloc(), LAST_INSTRUCTIONS)?, None);
    Ok(())
}
