//! Programs that set the alarm, each with the text that the rules of the machine give it. A call is eleven instructions,
//! the return of a handler two. Calls: 293 sets the alarm to so many ticks from now, or clears it with 0, and tells the
//! ticks that were left; 292 sleeps, 294 tells the time; 286 sets the action of a signal (1 to ignore, else a handler's
//! address), 287 changes the mask (0 adds, 1 takes away). The alarm's signal is 14, and bit 14 of a set is 16,384.

use std::test::Fail;
use workload_gen::program::Item::{At, Ret, Sys};
use workload_gen::program::{END, Item, JournalRow, SELF, first_other_under};

/// The call that tells the time.
const CLOCK: Item = Sys(294, [0, 0, 0, 0]);

/// An alarm that goes off while its thread runs.
const RUNNING: &[JournalRow<'static>] = &[
    // it goes off once, at its time
    JournalRow {
        items: &[
            Sys(286, [14, 65_840, 0, 0]),
            Sys(293, [2, 0, 0, 0]),
            SELF,
            SELF,
            END,
            At(65_840),
            CLOCK,
            Ret,
        ],
        entries: b"25.0 tick\n30.0 tick\n40.0 tick\n",
        text: b"run 1\n\
call 1 286 14 65840 0 0 = 0 0\n\
call 1 293 2 0 0 0 = 0 0\n\
arrive 1 tick\n\
arrive 2 tick\n\
alarm\n\
deliver 1 14 1\n\
arrive 3 tick\n\
call 1 294 0 0 0 0 = 0 3\n\
ret 1 handler\n\
call 1 260 0 0 0 0 = 0 1\n\
call 1 260 0 0 0 0 = 0 1\n\
call 1 93 0 0 0 0 = end\n\
end exit 0\n",
    },
    // the handler sets it anew, so it goes off again
    JournalRow {
        items: &[
            Sys(286, [14, 65_796, 0, 0]),
            Sys(293, [1, 0, 0, 0]),
            SELF,
            END,
            At(65_796),
            Sys(293, [1, 0, 0, 0]),
            Ret,
        ],
        entries: b"22.0 tick\n40.0 tick\n",
        text: b"run 1\n\
call 1 286 14 65796 0 0 = 0 0\n\
call 1 293 1 0 0 0 = 0 0\n\
arrive 1 tick\n\
alarm\n\
deliver 1 14 1\n\
call 1 293 1 0 0 0 = 0 0\n\
ret 1 handler\n\
arrive 2 tick\n\
alarm\n\
deliver 1 14 1\n\
call 1 293 1 0 0 0 = 0 0\n\
ret 1 handler\n\
call 1 260 0 0 0 0 = 0 1\n\
call 1 93 0 0 0 0 = end\n\
end exit 0\n",
    },
    // the default of its signal ends the process
    JournalRow {
        items: &[Sys(293, [1, 0, 0, 0]), SELF, END],
        entries: b"15.0 tick\n",
        text: b"run 1\n\
call 1 293 1 0 0 0 = 0 0\n\
arrive 1 tick\n\
alarm\n\
deliver 1 14 1\n\
end killed 14\n",
    },
    // its signal is ignored: the alarm is over nevertheless
    JournalRow {
        items: &[
            Sys(286, [14, 1, 0, 0]),
            Sys(293, [1, 0, 0, 0]),
            Sys(293, [0, 0, 0, 0]),
            END,
        ],
        entries: b"25.0 tick\n",
        text: b"run 1\n\
call 1 286 14 1 0 0 = 0 0\n\
call 1 293 1 0 0 0 = 0 0\n\
arrive 1 tick\n\
alarm\n\
drop 14 1\n\
call 1 293 0 0 0 0 = 0 0\n\
call 1 93 0 0 0 0 = end\n\
end exit 0\n",
    },
    // its signal is blocked: it pends with that of the second alarm and that of an entry
    JournalRow {
        items: &[
            Sys(286, [14, 65_884, 0, 0]),
            Sys(287, [0, 16_384, 0, 0]),
            Sys(293, [1, 0, 0, 0]),
            Sys(293, [1, 0, 0, 0]),
            Sys(287, [1, 16_384, 0, 0]),
            END,
            At(65_884),
            SELF,
            Ret,
        ],
        entries: b"33.0 tick\n45.0 tick\n46.0 sig 14\n",
        text: b"run 1\n\
call 1 286 14 65884 0 0 = 0 0\n\
call 1 287 0 16384 0 0 = 0 0\n\
call 1 293 1 0 0 0 = 0 0\n\
arrive 1 tick\n\
alarm\n\
call 1 293 1 0 0 0 = 0 0\n\
arrive 2 tick\n\
alarm\n\
arrive 3 1 sig 14\n\
call 1 287 1 16384 0 0 = 0 16384\n\
deliver 1 14 3\n\
call 1 260 0 0 0 0 = 0 1\n\
ret 1 handler\n\
call 1 93 0 0 0 0 = end\n\
end exit 0\n",
    },
];

/// What an alarm tells of the one before.
const ANEW: &[JournalRow<'static>] = &[
    // set anew, cleared, and cleared again; then ticks change nothing
    JournalRow {
        items: &[
            Sys(293, [5, 0, 0, 0]),
            Sys(293, [3, 0, 0, 0]),
            Sys(293, [0, 0, 0, 0]),
            Sys(293, [0, 0, 0, 0]),
            SELF,
            END,
        ],
        entries: b"15.0 tick\n22.0 tick\n25.0 tick\n45.0 tick\n45.0 tick\n",
        text: b"run 1\n\
call 1 293 5 0 0 0 = 0 0\n\
arrive 1 tick\n\
call 1 293 3 0 0 0 = 0 4\n\
arrive 2 tick\n\
arrive 3 tick\n\
call 1 293 0 0 0 0 = 0 1\n\
call 1 293 0 0 0 0 = 0 0\n\
arrive 4 tick\n\
arrive 5 tick\n\
call 1 260 0 0 0 0 = 0 1\n\
call 1 93 0 0 0 0 = end\n\
end exit 0\n",
    },
    // the longest alarm
    JournalRow {
        items: &[
            Sys(293, [0xffff_ffff, 0, 0, 0]),
            Sys(293, [0, 0, 0, 0]),
            END,
        ],
        entries: b"15.0 tick\n",
        text: b"run 1\n\
call 1 293 4294967295 0 0 0 = 0 0\n\
arrive 1 tick\n\
call 1 293 0 0 0 0 = 0 4294967294\n\
call 1 93 0 0 0 0 = end\n\
end exit 0\n",
    },
];

/// An alarm that goes off while all threads wait.
const WAITING: &[JournalRow<'static>] = &[
    // it ends a sleep, which tells the ticks that were left
    JournalRow {
        items: &[
            Sys(286, [14, 65_840, 0, 0]),
            Sys(293, [2, 0, 0, 0]),
            Sys(292, [5, 0, 0, 0]),
            CLOCK,
            END,
            At(65_840),
            SELF,
            Ret,
        ],
        entries: b"500.0 tick\n500.0 tick\n",
        text: b"run 1\n\
call 1 286 14 65840 0 0 = 0 0\n\
call 1 293 2 0 0 0 = 0 0\n\
call 1 292 5 0 0 0 = block\n\
arrive 1 tick\n\
arrive 2 tick\n\
alarm\n\
deliver 1 14 1\n\
done 1 4 3\n\
call 1 260 0 0 0 0 = 0 1\n\
ret 1 handler\n\
call 1 294 0 0 0 0 = 0 2\n\
call 1 93 0 0 0 0 = end\n\
end exit 0\n",
    },
    // at one tick the sleep is over first
    JournalRow {
        items: &[
            Sys(286, [14, 65_840, 0, 0]),
            Sys(293, [2, 0, 0, 0]),
            Sys(292, [2, 0, 0, 0]),
            CLOCK,
            END,
            At(65_840),
            SELF,
            Ret,
        ],
        entries: b"500.0 tick\n500.0 tick\n",
        text: b"run 1\n\
call 1 286 14 65840 0 0 = 0 0\n\
call 1 293 2 0 0 0 = 0 0\n\
call 1 292 2 0 0 0 = block\n\
arrive 1 tick\n\
arrive 2 tick\n\
alarm\n\
done 1 0 0\n\
deliver 1 14 1\n\
call 1 260 0 0 0 0 = 0 1\n\
ret 1 handler\n\
call 1 294 0 0 0 0 = 0 2\n\
call 1 93 0 0 0 0 = end\n\
end exit 0\n",
    },
    // it interrupts a wait for a condition before the wait's time
    JournalRow {
        items: &[
            Sys(286, [14, 65_972, 0, 0]),
            Sys(274, [0, 0, 0, 0]),
            Sys(280, [0, 0, 0, 0]),
            Sys(293, [1, 0, 0, 0]),
            Sys(276, [0, 0, 0, 0]),
            Sys(283, [0, 0, 2, 0]),
            Sys(278, [0, 0, 0, 0]),
            END,
            At(65_972),
            SELF,
            Ret,
        ],
        entries: b"500.0 tick\n500.0 tick\n",
        text: b"run 1\n\
call 1 286 14 65972 0 0 = 0 0\n\
call 1 274 0 0 0 0 = 0 0\n\
call 1 280 0 0 0 0 = 0 0\n\
call 1 293 1 0 0 0 = 0 0\n\
call 1 276 0 0 0 0 = 0 0\n\
call 1 283 0 0 2 0 = block\n\
arrive 1 tick\n\
alarm\n\
interrupt 1 14 1\n\
done 1 0 0\n\
deliver 1 14 1\n\
call 1 260 0 0 0 0 = 0 1\n\
ret 1 handler\n\
call 1 278 0 0 0 0 = 0 0\n\
call 1 93 0 0 0 0 = end\n\
end exit 0\n",
    },
    // thread 1, the lowest, gets the signal in its join, which is made again; thread 2 sleeps on
    JournalRow {
        items: &[
            Sys(286, [14, 65_840, 0, 0]),
            Sys(256, [65_888, 0, 131_072, 0]),
            Sys(293, [1, 0, 0, 0]),
            Sys(258, [2, 0, 0, 0]),
            END,
            At(65_840),
            SELF,
            Ret,
            At(65_888),
            Sys(292, [2, 0, 0, 0]),
            Sys(257, [2, 0, 0, 0]),
        ],
        entries: b"500.0 tick\n500.0 tick\n",
        text: b"run 1\n\
call 1 286 14 65840 0 0 = 0 0\n\
call 1 256 65888 0 131072 0 = 0 2\n\
call 1 293 1 0 0 0 = 0 0\n\
call 1 258 2 0 0 0 = block\n\
run 2\n\
call 2 292 2 0 0 0 = block\n\
arrive 1 tick\n\
alarm\n\
deliver 1 14 1\n\
run 1\n\
call 1 260 0 0 0 0 = 0 1\n\
ret 1 handler\n\
call 1 258 2 0 0 0 = block\n\
arrive 2 tick\n\
done 2 0 0\n\
run 2\n\
call 2 257 2 0 0 0 = exit\n\
ret 2 cleanup\n\
gone 2 2\n\
done 1 0 2\n\
run 1\n\
call 1 93 0 0 0 0 = end\n\
end exit 0\n",
    },
];

#[test]
fn alarms_go_off(rt: HostRuntime) -> Result<(), Fail> {
    let alloc = rt.alloc();
    assert_eq!(rt; first_other_under(alloc, RUNNING)?, None);
    assert_eq!(rt; first_other_under(alloc, ANEW)?, None);
    assert_eq!(rt; first_other_under(alloc, WAITING)?, None);
    Ok(())
}
