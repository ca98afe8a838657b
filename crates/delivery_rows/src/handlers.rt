//! Programs whose handlers begin by entries of a journal: handlers within handlers, as many as may be, and faults, each
//! with the text that the rules of the machine give it. A call is eleven instructions; the return of a handler is two, the
//! jump and the return itself. Calls: 286 sets a signal's handler with the set that it blocks, 287 changes the mask (1
//! takes away). Bit 10 of a set is 1024.

use std::alloc::Global;
use std::test::Fail;
use workload_gen::program::Item::{At, Ret, Sys, Word};
use workload_gen::program::{END, Item, JournalRow, SELF, YIELD, first_other_under};

/// A load from address 0.
const NULL: Item = Word(0x0000_2503);

/// Handlers within one another, and one after the other.
const NESTED: &[JournalRow<'static>] = &[
    // 10 comes while the handler of 12 runs, and within it
    JournalRow {
        items: &[
            Sys(286, [10, 65_752, 0, 0]),
            Sys(286, [12, 65_800, 0, 0]),
            END,
            At(65_752),
            SELF,
            Ret,
            At(65_800),
            YIELD,
            Ret,
        ],
        entries: b"22.0 sig 12\n27.0 sig 10\n",
        text: b"run 1\n\
call 1 286 10 65752 0 0 = 0 0\n\
call 1 286 12 65800 0 0 = 0 0\n\
arrive 1 1 sig 12\n\
deliver 1 12 1\n\
arrive 2 1 sig 10\n\
deliver 1 10 1\n\
call 1 260 0 0 0 0 = 0 1\n\
ret 1 handler\n\
call 1 261 0 0 0 0 = 0 0\n\
ret 1 handler\n\
call 1 93 0 0 0 0 = end\n\
end exit 0\n",
    },
    // the handler of 12 blocks 10, which comes after it
    JournalRow {
        items: &[
            Sys(286, [10, 65_752, 0, 0]),
            Sys(286, [12, 65_800, 1024, 0]),
            END,
            At(65_752),
            SELF,
            Ret,
            At(65_800),
            YIELD,
            Ret,
        ],
        entries: b"22.0 sig 12\n27.0 sig 10\n",
        text: b"run 1\n\
call 1 286 10 65752 0 0 = 0 0\n\
call 1 286 12 65800 1024 0 = 0 0\n\
arrive 1 1 sig 12\n\
deliver 1 12 1\n\
arrive 2 1 sig 10\n\
call 1 261 0 0 0 0 = 0 0\n\
ret 1 handler\n\
deliver 1 10 1\n\
call 1 260 0 0 0 0 = 0 1\n\
ret 1 handler\n\
call 1 93 0 0 0 0 = end\n\
end exit 0\n",
    },
    // both come at one place: 10 is entered first, and the handler of 12, which blocks it, begins within it
    JournalRow {
        items: &[
            Sys(286, [10, 65_752, 0, 0]),
            Sys(286, [12, 65_800, 1024, 0]),
            END,
            At(65_752),
            SELF,
            Ret,
            At(65_800),
            YIELD,
            Ret,
        ],
        entries: b"22.0 sig 12\n22.0 sig 10\n30.0 sig 10\n",
        text: b"run 1\n\
call 1 286 10 65752 0 0 = 0 0\n\
call 1 286 12 65800 1024 0 = 0 0\n\
arrive 1 1 sig 12\n\
arrive 2 1 sig 10\n\
deliver 1 10 1\n\
deliver 1 12 1\n\
arrive 3 1 sig 10\n\
call 1 261 0 0 0 0 = 0 0\n\
ret 1 handler\n\
call 1 260 0 0 0 0 = 0 1\n\
ret 1 handler\n\
deliver 1 10 1\n\
call 1 260 0 0 0 0 = 0 1\n\
ret 1 handler\n\
call 1 93 0 0 0 0 = end\n\
end exit 0\n",
    },
    // the handler of 12 unblocks 10 in its midst
    JournalRow {
        items: &[
            Sys(286, [10, 65_752, 0, 0]),
            Sys(286, [12, 65_800, 1024, 0]),
            END,
            At(65_752),
            SELF,
            Ret,
            At(65_800),
            Sys(287, [1, 1024, 0, 0]),
            YIELD,
            Ret,
        ],
        entries: b"22.0 sig 12\n27.0 sig 10\n",
        text: b"run 1\n\
call 1 286 10 65752 0 0 = 0 0\n\
call 1 286 12 65800 1024 0 = 0 0\n\
arrive 1 1 sig 12\n\
deliver 1 12 1\n\
arrive 2 1 sig 10\n\
call 1 287 1 1024 0 0 = 0 5120\n\
deliver 1 10 1\n\
call 1 260 0 0 0 0 = 0 1\n\
ret 1 handler\n\
call 1 261 0 0 0 0 = 0 0\n\
ret 1 handler\n\
call 1 93 0 0 0 0 = end\n\
end exit 0\n",
    },
    // a signal is blocked while its own handler runs; what came meanwhile comes at once, with its count
    JournalRow {
        items: &[Sys(286, [10, 65_708, 0, 0]), END, At(65_708), SELF, Ret],
        entries: b"11.0 sig 10\n12.0 sig 10\n22.0 sig 10\n24.0 sig 10\n25.0 sig 10\n",
        text: b"run 1\n\
call 1 286 10 65708 0 0 = 0 0\n\
arrive 1 1 sig 10\n\
deliver 1 10 1\n\
arrive 2 1 sig 10\n\
call 1 260 0 0 0 0 = 0 1\n\
arrive 3 1 sig 10\n\
ret 1 handler\n\
arrive 4 1 sig 10\n\
deliver 1 10 3\n\
arrive 5 1 sig 10\n\
call 1 260 0 0 0 0 = 0 1\n\
ret 1 handler\n\
deliver 1 10 1\n\
call 1 260 0 0 0 0 = 0 1\n\
ret 1 handler\n\
call 1 93 0 0 0 0 = end\n\
end exit 0\n",
    },
    // a thread in its exit takes a signal too, and goes on with its exit
    JournalRow {
        items: &[
            Sys(286, [10, 65_708, 0, 0]),
            Sys(257, [7, 0, 0, 0]),
            At(65_708),
            SELF,
            Ret,
        ],
        entries: b"22.0 sig 10\n",
        text: b"run 1\n\
call 1 286 10 65708 0 0 = 0 0\n\
call 1 257 7 0 0 0 = exit\n\
arrive 1 1 sig 10\n\
deliver 1 10 1\n\
call 1 260 0 0 0 0 = 0 1\n\
ret 1 handler\n\
ret 1 cleanup\n\
gone 1 7\n\
end exit 0\n",
    },
];

/// Faults beside entries.
const FAULTS: &[JournalRow<'static>] = &[
    // a handler faults
    JournalRow {
        items: &[Sys(286, [10, 65_708, 0, 0]), END, At(65_708), NULL],
        entries: b"11.0 sig 10\n",
        text: b"run 1\n\
call 1 286 10 65708 0 0 = 0 0\n\
arrive 1 1 sig 10\n\
deliver 1 10 1\n\
fault 1 11\n\
deliver 1 11 1\n\
end killed 11\n",
    },
    // a fault in the handler of the same signal, which came from outside; one more of it pends
    JournalRow {
        items: &[Sys(286, [11, 65_708, 0, 0]), END, At(65_708), SELF, NULL],
        entries: b"11.0 sig 11\n15.0 sig 11\n",
        text: b"run 1\n\
call 1 286 11 65708 0 0 = 0 0\n\
arrive 1 1 sig 11\n\
deliver 1 11 1\n\
arrive 2 1 sig 11\n\
call 1 260 0 0 0 0 = 0 1\n\
fault 1 11\n\
deliver 1 11 1\n\
left 11 1\n\
end killed 11\n",
    },
    // an entry right after the fault comes before its delivery, and is delivered after it
    JournalRow {
        items: &[
            Sys(286, [10, 65_712, 0, 0]),
            Sys(286, [11, 65_760, 0, 0]),
            NULL,
            At(65_712),
            SELF,
            Ret,
            At(65_760),
            END,
        ],
        entries: b"23.0 sig 10\n",
        text: b"run 1\n\
call 1 286 10 65712 0 0 = 0 0\n\
call 1 286 11 65760 0 0 = 0 0\n\
fault 1 11\n\
arrive 1 1 sig 10\n\
deliver 1 11 1\n\
deliver 1 10 1\n\
call 1 260 0 0 0 0 = 0 1\n\
ret 1 handler\n\
call 1 93 0 0 0 0 = end\n\
end exit 0\n",
    },
    // the fault's and the entry's are of one signal: the thread's comes first, and then the process's
    JournalRow {
        items: &[
            Sys(286, [11, 65_668, 0, 0]),
            NULL,
            At(65_668),
            Sys(287, [1, 2048, 0, 0]),
            END,
        ],
        entries: b"12.0 sig 11\n",
        text: b"run 1\n\
call 1 286 11 65668 0 0 = 0 0\n\
fault 1 11\n\
arrive 1 1 sig 11\n\
deliver 1 11 1\n\
call 1 287 1 2048 0 0 = 0 2048\n\
deliver 1 11 1\n\
call 1 287 1 2048 0 0 = 0 2048\n\
call 1 93 0 0 0 0 = end\n\
end exit 0\n",
    },
];

/// A handler that unblocks its signal and returns.
const DEEP: &[Item] = &[
    Sys(286, [10, 65_708, 0, 0]),
    END,
    At(65_708),
    Sys(287, [1, 1024, 0, 0]),
    Ret,
];

/// An entry after the call that sets the handler and after each of 32 calls that unblock the signal, and one more after
/// the return that follows.
fn deep_entries(alloc: Global) -> Result<String, Fail> {
    let mut entries = String::new(alloc);
    for count in 1..=33u32 {
        writeln!(entries, "{}.0 sig 10", 11 * count)?;
    }
    writeln!(entries, "365.0 sig 10")?;
    Ok(entries)
}

/// The text of 32 handlers within one another; the signals 33 and 34 come together when the last of them has returned.
fn deep_text(alloc: Global) -> Result<String, Fail> {
    let mut text = String::new(alloc);
    writeln!(text, "run 1\ncall 1 286 10 65708 0 0 = 0 0")?;
    for count in 1..=32u32 {
        writeln!(
            text,
            "arrive {count} 1 sig 10\ndeliver 1 10 1\ncall 1 287 1 1024 0 0 = 0 1024"
        )?;
    }
    writeln!(
        text,
        "arrive 33 1 sig 10\nret 1 handler\narrive 34 1 sig 10"
    )?;
    writeln!(text, "deliver 1 10 2\ncall 1 287 1 1024 0 0 = 0 1024")?;
    for _ in 0..32 {
        writeln!(text, "ret 1 handler")?;
    }
    writeln!(text, "call 1 93 0 0 0 0 = end\nend exit 0")?;
    Ok(text)
}

#[test]
fn handlers_within_handlers(rt: HostRuntime) -> Result<(), Fail> {
    assert_eq!(rt; first_other_under(rt.alloc(), NESTED)?, None);
    Ok(())
}

#[test]
fn faults_beside_entries(rt: HostRuntime) -> Result<(), Fail> {
    assert_eq!(rt; first_other_under(rt.alloc(), FAULTS)?, None);
    Ok(())
}

#[test]
fn as_many_handlers_as_may_be(rt: HostRuntime) -> Result<(), Fail> {
    let alloc = rt.alloc();
    let entries = deep_entries(alloc)?;
    let text = deep_text(alloc)?;
    let row = JournalRow {
        items: DEEP,
        entries: entries.as_bytes(),
        text: text.as_bytes(),
    };
    assert_eq!(rt; first_other_under(alloc, &[row])?, None);
    Ok(())
}
