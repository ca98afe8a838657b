//! Programs with signals that calls send, each with the text that the rules of the machine give it. Calls: 286 sets the
//! action of a signal (0 the default, 1 to ignore, else a handler's address, with the set that it blocks), 287 changes
//! the mask (0 adds, 1 takes away, 2 sets), 290 sends a signal to a thread, 291 to the process. Bit 10 of a set is 1024,
//! bit 12 is 4096.

use std::alloc::Global;
use std::test::Fail;
use workload_gen::program::Item::{At, Ret, Sys, Word};
use workload_gen::program::{END, Item, Row, SELF, YIELD, first_other};

/// A call with the registers as they are.
const ECALL: Item = Word(0x0000_0073);

/// The stack in a0.
const STACK: Item = Word(0x0001_0513);

/// A load from address 0.
const NULL: Item = Word(0x0000_2503);

/// What the calls answer.
const ANSWERS: &[Row<'static>] = &[
    // signals that have no action or cannot be sent, numbers of actions, a how of 3, the whole set
    Row {
        items: &[
            Sys(286, [9, 1, 0, 0]),
            Sys(286, [18, 1, 0, 0]),
            Sys(286, [0, 0, 0, 0]),
            Sys(286, [10, 2, 0, 0]),
            Sys(286, [10, 65_620, 0, 0]),
            Sys(286, [10, 1, 0, 0]),
            Sys(286, [10, 0, 0, 0]),
            Sys(286, [10, 0, 0, 0]),
            Sys(287, [3, 1024, 0, 0]),
            Sys(287, [2, 0xffff_ffff, 0, 0]),
            Sys(287, [1, 0xffff_fbff, 0, 0]),
            Sys(287, [0, 4096, 0, 0]),
            Sys(287, [2, 0, 0, 0]),
            Sys(290, [2, 10, 0, 0]),
            Sys(290, [65, 40, 0, 0]),
            Sys(290, [1, 40, 0, 0]),
            Sys(290, [1, 18, 0, 0]),
            Sys(290, [1, 0, 0, 0]),
            Sys(291, [32, 0, 0, 0]),
            Sys(291, [0, 0, 0, 0]),
            END,
        ],
        text: b"run 1\n\
call 1 286 9 1 0 0 = 22 0\n\
call 1 286 18 1 0 0 = 22 0\n\
call 1 286 0 0 0 0 = 22 0\n\
call 1 286 10 2 0 0 = 22 0\n\
call 1 286 10 65620 0 0 = 0 0\n\
call 1 286 10 1 0 0 = 0 65620\n\
call 1 286 10 0 0 0 = 0 1\n\
call 1 286 10 0 0 0 = 0 0\n\
call 1 287 3 1024 0 0 = 22 0\n\
call 1 287 2 4294967295 0 0 = 0 0\n\
call 1 287 1 4294966271 0 0 = 0 4286840318\n\
call 1 287 0 4096 0 0 = 0 1024\n\
call 1 287 2 0 0 0 = 0 5120\n\
call 1 290 2 10 0 0 = 3 0\n\
call 1 290 65 40 0 0 = 3 0\n\
call 1 290 1 40 0 0 = 22 0\n\
call 1 290 1 18 0 0 = 22 0\n\
call 1 290 1 0 0 0 = 0 0\n\
call 1 291 32 0 0 0 = 22 0\n\
call 1 291 0 0 0 0 = 0 0\n\
call 1 93 0 0 0 0 = end\n\
end exit 0\n",
    },
    // a thread that has ended gets none
    Row {
        items: &[
            Sys(256, [65_752, 0, 131_072, 131_084]),
            Sys(290, [2, 0, 0, 0]),
            END,
            At(65_752),
            Sys(257, [0, 0, 0, 0]),
        ],
        text: b"run 1\n\
call 1 256 65752 0 131072 131084 = 0 2\n\
run 2\n\
call 2 257 0 0 0 0 = exit\n\
ret 2 cleanup\n\
gone 2 0\n\
run 1\n\
call 1 290 2 0 0 0 = 3 0\n\
call 1 93 0 0 0 0 = end\n\
end exit 0\n",
    },
    // an action to ignore drops what pends on the thread and on the process, and what is sent from then on
    Row {
        items: &[
            Sys(287, [0, 1024, 0, 0]),
            Sys(290, [1, 10, 0, 0]),
            Sys(291, [10, 0, 0, 0]),
            Sys(286, [10, 1, 0, 0]),
            Sys(290, [1, 10, 0, 0]),
            Sys(291, [10, 0, 0, 0]),
            END,
        ],
        text: b"run 1\n\
call 1 287 0 1024 0 0 = 0 0\n\
call 1 290 1 10 0 0 = 0 0\n\
call 1 291 10 0 0 0 = 0 0\n\
call 1 286 10 1 0 0 = 0 0\n\
drop 10 2\n\
call 1 290 1 10 0 0 = 0 0\n\
drop 10 1\n\
call 1 291 10 0 0 0 = 0 0\n\
drop 10 1\n\
call 1 93 0 0 0 0 = end\n\
end exit 0\n",
    },
    // by default 17 and 28 are ignored
    Row {
        items: &[Sys(291, [17, 0, 0, 0]), Sys(290, [1, 28, 0, 0]), END],
        text: b"run 1\n\
call 1 291 17 0 0 0 = 0 0\n\
drop 17 1\n\
call 1 290 1 28 0 0 = 0 0\n\
drop 28 1\n\
call 1 93 0 0 0 0 = end\n\
end exit 0\n",
    },
];

/// Handlers that run and return.
const HANDLERS: &[Row<'static>] = &[
    // a signal of a thread to itself
    Row {
        items: &[
            Sys(286, [10, 65_752, 0, 0]),
            Sys(290, [1, 10, 0, 0]),
            END,
            At(65_752),
            Ret,
        ],
        text: b"run 1\n\
call 1 286 10 65752 0 0 = 0 0\n\
call 1 290 1 10 0 0 = 0 0\n\
deliver 1 10 1\n\
ret 1 handler\n\
call 1 93 0 0 0 0 = end\n\
end exit 0\n",
    },
    // a0, ra and sp of a handler, whose stack is a multiple of 16; all registers are as before when it has returned
    Row {
        items: &[
            Word(0xffc1_0113), // addi sp, sp, -4
            Sys(286, [10, 65_768, 0, 0]),
            Sys(290, [1, 10, 0, 0]),
            ECALL,
            STACK,
            ECALL,
            END,
            At(65_768),
            ECALL,
            Word(0x0000_8513), // mv a0, ra
            ECALL,
            STACK,
            ECALL,
            Ret,
        ],
        text: b"run 1\n\
call 1 286 10 65768 0 0 = 0 0\n\
call 1 290 1 10 0 0 = 0 0\n\
deliver 1 10 1\n\
call 1 290 10 0 0 0 = 3 0\n\
call 1 290 4294967280 0 0 0 = 3 0\n\
call 1 290 4259824 0 0 0 = 3 0\n\
ret 1 handler\n\
call 1 290 0 0 0 0 = 3 0\n\
call 1 290 4259836 0 0 0 = 3 0\n\
call 1 93 0 0 0 0 = end\n\
end exit 0\n",
    },
    // one that is blocked comes when it is unblocked, both at once, and is blocked while its handler runs
    Row {
        items: &[
            Sys(286, [10, 65_928, 0, 0]),
            Sys(287, [0, 1024, 0, 0]),
            Sys(290, [1, 10, 0, 0]),
            Sys(290, [1, 10, 0, 0]),
            Sys(287, [1, 1024, 0, 0]),
            Sys(287, [0, 0, 0, 0]),
            END,
            At(65_928),
            Sys(287, [0, 0, 0, 0]),
            Ret,
        ],
        text: b"run 1\n\
call 1 286 10 65928 0 0 = 0 0\n\
call 1 287 0 1024 0 0 = 0 0\n\
call 1 290 1 10 0 0 = 0 0\n\
call 1 290 1 10 0 0 = 0 0\n\
call 1 287 1 1024 0 0 = 0 1024\n\
deliver 1 10 2\n\
call 1 287 0 0 0 0 = 0 1024\n\
ret 1 handler\n\
call 1 287 0 0 0 0 = 0 0\n\
call 1 93 0 0 0 0 = end\n\
end exit 0\n",
    },
    // a signal that the handler of another blocks comes after it, and its handler's mask goes with the handler
    Row {
        items: &[
            Sys(286, [10, 65_796, 4096, 0]),
            Sys(286, [12, 65_888, 0, 0]),
            Sys(290, [1, 10, 0, 0]),
            END,
            At(65_796),
            Sys(290, [1, 12, 0, 0]),
            SELF,
            Ret,
            At(65_888),
            YIELD,
            Ret,
        ],
        text: b"run 1\n\
call 1 286 10 65796 4096 0 = 0 0\n\
call 1 286 12 65888 0 0 = 0 0\n\
call 1 290 1 10 0 0 = 0 0\n\
deliver 1 10 1\n\
call 1 290 1 12 0 0 = 0 0\n\
call 1 260 0 0 0 0 = 0 1\n\
ret 1 handler\n\
deliver 1 12 1\n\
call 1 261 0 0 0 0 = 0 0\n\
ret 1 handler\n\
call 1 93 0 0 0 0 = end\n\
end exit 0\n",
    },
    // one that it does not block comes within it
    Row {
        items: &[
            Sys(286, [10, 65_796, 0, 0]),
            Sys(286, [12, 65_888, 0, 0]),
            Sys(290, [1, 10, 0, 0]),
            END,
            At(65_796),
            Sys(290, [1, 12, 0, 0]),
            SELF,
            Ret,
            At(65_888),
            YIELD,
            Ret,
        ],
        text: b"run 1\n\
call 1 286 10 65796 0 0 = 0 0\n\
call 1 286 12 65888 0 0 = 0 0\n\
call 1 290 1 10 0 0 = 0 0\n\
deliver 1 10 1\n\
call 1 290 1 12 0 0 = 0 0\n\
deliver 1 12 1\n\
call 1 261 0 0 0 0 = 0 0\n\
ret 1 handler\n\
call 1 260 0 0 0 0 = 0 1\n\
ret 1 handler\n\
call 1 93 0 0 0 0 = end\n\
end exit 0\n",
    },
    // a thread's own come before the process's, the lowest first; the second is entered before the first has begun
    Row {
        items: &[
            Sys(286, [10, 65_972, 0, 0]),
            Sys(286, [12, 66_020, 0, 0]),
            Sys(287, [2, 5120, 0, 0]),
            Sys(291, [10, 0, 0, 0]),
            Sys(290, [1, 12, 0, 0]),
            Sys(290, [1, 10, 0, 0]),
            Sys(287, [2, 0, 0, 0]),
            END,
            At(65_972),
            SELF,
            Ret,
            At(66_020),
            YIELD,
            Ret,
        ],
        text: b"run 1\n\
call 1 286 10 65972 0 0 = 0 0\n\
call 1 286 12 66020 0 0 = 0 0\n\
call 1 287 2 5120 0 0 = 0 0\n\
call 1 291 10 0 0 0 = 0 0\n\
call 1 290 1 12 0 0 = 0 0\n\
call 1 290 1 10 0 0 = 0 0\n\
call 1 287 2 0 0 0 = 0 5120\n\
deliver 1 10 1\n\
deliver 1 12 1\n\
call 1 261 0 0 0 0 = 0 0\n\
ret 1 handler\n\
call 1 260 0 0 0 0 = 0 1\n\
ret 1 handler\n\
deliver 1 10 1\n\
call 1 260 0 0 0 0 = 0 1\n\
ret 1 handler\n\
call 1 93 0 0 0 0 = end\n\
end exit 0\n",
    },
];

/// Which thread gets a signal, and what comes of its wait.
const RECIPIENTS: &[Row<'static>] = &[
    // thread 1 blocks the process's signal, so thread 2 gets it
    Row {
        items: &[
            Sys(286, [10, 65_884, 0, 0]),
            Sys(256, [65_932, 0, 131_072, 0]),
            Sys(287, [0, 1024, 0, 0]),
            Sys(291, [10, 0, 0, 0]),
            YIELD,
            END,
            At(65_884),
            SELF,
            Ret,
            At(65_932),
            Sys(257, [0, 0, 0, 0]),
        ],
        text: b"run 1\n\
call 1 286 10 65884 0 0 = 0 0\n\
call 1 256 65932 0 131072 0 = 0 2\n\
call 1 287 0 1024 0 0 = 0 0\n\
call 1 291 10 0 0 0 = 0 0\n\
deliver 2 10 1\n\
call 1 261 0 0 0 0 = 0 0\n\
run 2\n\
call 2 260 0 0 0 0 = 0 2\n\
ret 2 handler\n\
call 2 257 0 0 0 0 = exit\n\
ret 2 cleanup\n\
gone 2 0\n\
run 1\n\
call 1 93 0 0 0 0 = end\n\
end exit 0\n",
    },
    // a new thread blocks what its creator blocks; what pends on it and what pends on the process come apart
    Row {
        items: &[
            Sys(286, [10, 65_928, 0, 0]),
            Sys(287, [0, 1024, 0, 0]),
            Sys(256, [65_976, 0, 131_072, 0]),
            Sys(291, [10, 0, 0, 0]),
            Sys(290, [2, 10, 0, 0]),
            YIELD,
            END,
            At(65_928),
            SELF,
            Ret,
            At(65_976),
            Sys(287, [1, 1024, 0, 0]),
            Sys(257, [0, 0, 0, 0]),
        ],
        text: b"run 1\n\
call 1 286 10 65928 0 0 = 0 0\n\
call 1 287 0 1024 0 0 = 0 0\n\
call 1 256 65976 0 131072 0 = 0 2\n\
call 1 291 10 0 0 0 = 0 0\n\
call 1 290 2 10 0 0 = 0 0\n\
call 1 261 0 0 0 0 = 0 0\n\
run 2\n\
call 2 287 1 1024 0 0 = 0 1024\n\
deliver 2 10 1\n\
call 2 260 0 0 0 0 = 0 2\n\
ret 2 handler\n\
deliver 2 10 1\n\
call 2 260 0 0 0 0 = 0 2\n\
ret 2 handler\n\
call 2 257 0 0 0 0 = exit\n\
ret 2 cleanup\n\
gone 2 0\n\
run 1\n\
call 1 93 0 0 0 0 = end\n\
end exit 0\n",
    },
    // a join is made again after the handler; the other thread has ended by then
    Row {
        items: &[
            Sys(286, [10, 65_796, 0, 0]),
            Sys(256, [65_844, 0, 131_072, 0]),
            Sys(258, [2, 0, 0, 0]),
            END,
            At(65_796),
            SELF,
            Ret,
            At(65_844),
            Sys(290, [1, 10, 0, 0]),
            Sys(257, [5, 0, 0, 0]),
        ],
        text: b"run 1\n\
call 1 286 10 65796 0 0 = 0 0\n\
call 1 256 65844 0 131072 0 = 0 2\n\
call 1 258 2 0 0 0 = block\n\
run 2\n\
call 2 290 1 10 0 0 = 0 0\n\
deliver 1 10 1\n\
call 2 257 5 0 0 0 = exit\n\
ret 2 cleanup\n\
gone 2 5\n\
run 1\n\
call 1 260 0 0 0 0 = 0 1\n\
ret 1 handler\n\
call 1 258 2 0 0 0 = 0 5\n\
call 1 93 0 0 0 0 = end\n\
end exit 0\n",
    },
    // a thread of greater priority runs its handler at once, and goes on with its join
    Row {
        items: &[
            Sys(286, [10, 65_796, 0, 0]),
            Sys(256, [65_844, 0, 131_072, 131_084]),
            Sys(290, [2, 10, 0, 0]),
            END,
            At(65_796),
            SELF,
            Ret,
            At(65_844),
            Sys(258, [1, 0, 0, 0]),
        ],
        text: b"run 1\n\
call 1 286 10 65796 0 0 = 0 0\n\
call 1 256 65844 0 131072 131084 = 0 2\n\
run 2\n\
call 2 258 1 0 0 0 = block\n\
run 1\n\
call 1 290 2 10 0 0 = 0 0\n\
deliver 2 10 1\n\
run 2\n\
call 2 260 0 0 0 0 = 0 2\n\
ret 2 handler\n\
call 2 258 1 0 0 0 = block\n\
run 1\n\
call 1 93 0 0 0 0 = end\n\
end exit 0\n",
    },
];

/// How signals end the process, and what the end of a thread makes of them.
const ENDS: &[Row<'static>] = &[
    // the default of 15
    Row {
        items: &[Sys(291, [15, 0, 0, 0]), END],
        text: b"run 1\n\
call 1 291 15 0 0 0 = 0 0\n\
deliver 1 15 1\n\
end killed 15\n",
    },
    // what pends still is told, from the thread and from the process
    Row {
        items: &[
            Sys(287, [0, 5120, 0, 0]),
            Sys(291, [10, 0, 0, 0]),
            Sys(290, [1, 10, 0, 0]),
            Sys(290, [1, 12, 0, 0]),
            Sys(290, [1, 15, 0, 0]),
            END,
        ],
        text: b"run 1\n\
call 1 287 0 5120 0 0 = 0 0\n\
call 1 291 10 0 0 0 = 0 0\n\
call 1 290 1 10 0 0 = 0 0\n\
call 1 290 1 12 0 0 = 0 0\n\
call 1 290 1 15 0 0 = 0 0\n\
deliver 1 15 1\n\
left 10 2\n\
left 12 1\n\
end killed 15\n",
    },
    // KILL to a thread and to the process
    Row {
        items: &[Sys(290, [1, 9, 0, 0]), END],
        text: b"run 1\n\
call 1 290 1 9 0 0 = 0 0\n\
deliver 0 9 1\n\
end killed 9\n",
    },
    Row {
        items: &[Sys(291, [9, 0, 0, 0]), END],
        text: b"run 1\n\
call 1 291 9 0 0 0 = 0 0\n\
deliver 0 9 1\n\
end killed 9\n",
    },
    // a thread exits from its handler
    Row {
        items: &[
            Sys(286, [10, 65_708, 0, 0]),
            Sys(290, [1, 10, 0, 0]),
            At(65_708),
            Sys(257, [7, 0, 0, 0]),
        ],
        text: b"run 1\n\
call 1 286 10 65708 0 0 = 0 0\n\
call 1 290 1 10 0 0 = 0 0\n\
deliver 1 10 1\n\
call 1 257 7 0 0 0 = exit\n\
ret 1 cleanup\n\
gone 1 7\n\
end exit 0\n",
    },
    // what pends on a thread is dropped with it, and what pends on the process stays
    Row {
        items: &[
            Sys(287, [0, 1024, 0, 0]),
            Sys(290, [1, 10, 0, 0]),
            Sys(290, [1, 10, 0, 0]),
            Sys(291, [10, 0, 0, 0]),
            Sys(257, [7, 0, 0, 0]),
        ],
        text: b"run 1\n\
call 1 287 0 1024 0 0 = 0 0\n\
call 1 290 1 10 0 0 = 0 0\n\
call 1 290 1 10 0 0 = 0 0\n\
call 1 291 10 0 0 0 = 0 0\n\
call 1 257 7 0 0 0 = exit\n\
ret 1 cleanup\n\
drop 10 2\n\
gone 1 7\n\
left 10 1\n\
end exit 0\n",
    },
];

/// Faults with actions and masks.
const FAULTS: &[Row<'static>] = &[
    // the handler of a fault ends the process by itself
    Row {
        items: &[Sys(286, [11, 65_668, 0, 0]), NULL, At(65_668), END],
        text: b"run 1\n\
call 1 286 11 65668 0 0 = 0 0\n\
fault 1 11\n\
deliver 1 11 1\n\
call 1 93 0 0 0 0 = end\n\
end exit 0\n",
    },
    // the same fault in its handler, which blocks it
    Row {
        items: &[Sys(286, [11, 65_668, 0, 0]), NULL, At(65_668), NULL],
        text: b"run 1\n\
call 1 286 11 65668 0 0 = 0 0\n\
fault 1 11\n\
deliver 1 11 1\n\
fault 1 11\n\
deliver 1 11 1\n\
end killed 11\n",
    },
    // a handler that returns comes back to the fault; the second time its action is the default
    Row {
        items: &[
            Sys(286, [11, 65_668, 0, 0]),
            NULL,
            At(65_668),
            Sys(286, [11, 0, 0, 0]),
            Ret,
        ],
        text: b"run 1\n\
call 1 286 11 65668 0 0 = 0 0\n\
fault 1 11\n\
deliver 1 11 1\n\
call 1 286 11 0 0 0 = 0 65668\n\
ret 1 handler\n\
fault 1 11\n\
deliver 1 11 1\n\
end killed 11\n",
    },
    // an ignored one kills: EBREAK
    Row {
        items: &[Sys(286, [5, 1, 0, 0]), Word(0x0010_0073)],
        text: b"run 1\n\
call 1 286 5 1 0 0 = 0 0\n\
fault 1 5\n\
deliver 1 5 1\n\
end killed 5\n",
    },
    // so does a blocked one, and what pends of it stays
    Row {
        items: &[Sys(287, [0, 2048, 0, 0]), Sys(290, [1, 11, 0, 0]), NULL],
        text: b"run 1\n\
call 1 287 0 2048 0 0 = 0 0\n\
call 1 290 1 11 0 0 = 0 0\n\
fault 1 11\n\
deliver 1 11 1\n\
left 11 1\n\
end killed 11\n",
    },
    // in a handler the return of a first routine is not due
    Row {
        items: &[
            Sys(286, [10, 65_708, 0, 0]),
            Sys(290, [1, 10, 0, 0]),
            At(65_708),
            Word(0xfe00_8067), // jr -32(ra)
        ],
        text: b"run 1\n\
call 1 286 10 65708 0 0 = 0 0\n\
call 1 290 1 10 0 0 = 0 0\n\
deliver 1 10 1\n\
fault 1 11\n\
deliver 1 11 1\n\
end killed 11\n",
    },
];

/// A handler that unblocks its signal and sends it again; the one that counts 34 ends the process.
const NESTED: &[Item] = &[
    Sys(286, [10, 65_752, 0, 0]),
    Sys(290, [1, 10, 0, 0]),
    END,
    At(65_752),
    Word(0x0003_04b7), // lui s1, 0x30
    Word(0x0004_a283), // lw t0, 0(s1)
    Word(0x0012_8293), // addi t0, t0, 1
    Word(0x0054_a023), // sw t0, 0(s1)
    Word(0x0220_0313), // li t1, 34
    Word(0x0662_8063), // beq t0, t1, END
    Sys(287, [1, 1024, 0, 0]),
    Sys(290, [1, 10, 0, 0]),
    Ret,
    END,
];

/// The text of 32 handlers within one another; the next two come one after the other, when the one before has returned.
fn nested_text(alloc: Global) -> Result<Vec<u8>, Fail> {
    let mut text = Vec::new(alloc);
    text.extend_from_slice(b"run 1\ncall 1 286 10 65752 0 0 = 0 0\ncall 1 290 1 10 0 0 = 0 0\n")?;
    for count in 1..=34u32 {
        if count > 32 {
            text.extend_from_slice(b"ret 1 handler\n")?;
        }
        text.extend_from_slice(b"deliver 1 10 1\n")?;
        if count < 34 {
            text.extend_from_slice(b"call 1 287 1 1024 0 0 = 0 1024\ncall 1 290 1 10 0 0 = 0 0\n")?;
        }
    }
    text.extend_from_slice(b"call 1 93 0 0 0 0 = end\nend exit 0\n")?;
    Ok(text)
}

#[test]
fn answers_and_handlers(rt: HostRuntime) -> Result<(), Fail> {
    assert_eq!(rt; first_other(rt.alloc(), ANSWERS)?, None);
    assert_eq!(rt; first_other(rt.alloc(), HANDLERS)?, None);
    Ok(())
}

#[test]
fn recipients(rt: HostRuntime) -> Result<(), Fail> {
    assert_eq!(rt; first_other(rt.alloc(), RECIPIENTS)?, None);
    Ok(())
}

#[test]
fn ends_and_faults(rt: HostRuntime) -> Result<(), Fail> {
    assert_eq!(rt; first_other(rt.alloc(), ENDS)?, None);
    assert_eq!(rt; first_other(rt.alloc(), FAULTS)?, None);
    Ok(())
}

#[test]
fn handlers_within_handlers(rt: HostRuntime) -> Result<(), Fail> {
    let alloc = rt.alloc();
    let text = nested_text(alloc)?;
    let row = Row {
        items: NESTED,
        text: &text,
    };
    assert_eq!(rt; first_other(alloc, &[row])?, None);
    Ok(())
}
