//! Programs whose threads have handlers run while they wait for a mutex or a condition, each with the text that the rules
//! of the machine give it. Calls: 286 sets a signal's handler, 287 changes the mask, 290 sends a signal to a thread, 291
//! to the process.

use std::test::Fail;
use workload_gen::program::Item::{At, Ret, Sys};
use workload_gen::program::{END, Row, SELF, YIELD, first_other};

/// Handlers of threads that wait for a mutex: the lock is made again.
const LOCKS: &[Row<'static>] = &[
    // thread 2 has priority 12: its handler runs at once, and then it waits again
    Row {
        items: &[
            Sys(274, [0, 0, 0, 0]),
            Sys(286, [10, 65_928, 0, 0]),
            Sys(276, [0, 0, 0, 0]),
            Sys(256, [65_976, 0, 131_072, 131_084]),
            Sys(290, [2, 10, 0, 0]),
            Sys(278, [0, 0, 0, 0]),
            END,
            At(65_928),
            SELF,
            Ret,
            At(65_976),
            Sys(276, [0, 0, 0, 0]),
            Sys(278, [0, 0, 0, 0]),
            Sys(257, [0, 0, 0, 0]),
        ],
        text: b"run 1\n\
call 1 274 0 0 0 0 = 0 0\n\
call 1 286 10 65928 0 0 = 0 0\n\
call 1 276 0 0 0 0 = 0 0\n\
call 1 256 65976 0 131072 131084 = 0 2\n\
run 2\n\
call 2 276 0 0 0 0 = block\n\
run 1\n\
call 1 290 2 10 0 0 = 0 0\n\
deliver 2 10 1\n\
run 2\n\
call 2 260 0 0 0 0 = 0 2\n\
ret 2 handler\n\
call 2 276 0 0 0 0 = block\n\
run 1\n\
call 1 278 0 0 0 0 = 0 0\n\
done 2 0 0\n\
run 2\n\
call 2 278 0 0 0 0 = 0 0\n\
call 2 257 0 0 0 0 = exit\n\
ret 2 cleanup\n\
gone 2 0\n\
run 1\n\
call 1 93 0 0 0 0 = end\n\
end exit 0\n",
    },
    // who is interrupted has lost its place: its equal, which came later, gets the mutex first
    Row {
        items: &[
            Sys(274, [0, 0, 0, 0]),
            Sys(286, [10, 66_060, 0, 0]),
            Sys(276, [0, 0, 0, 0]),
            Sys(256, [66_108, 0, 131_072, 0]),
            Sys(256, [66_108, 0, 135_168, 0]),
            YIELD,
            Sys(290, [2, 10, 0, 0]),
            Sys(278, [0, 0, 0, 0]),
            YIELD,
            END,
            At(66_060),
            SELF,
            Ret,
            At(66_108),
            Sys(276, [0, 0, 0, 0]),
            Sys(278, [0, 0, 0, 0]),
            Sys(257, [0, 0, 0, 0]),
        ],
        text: b"run 1\n\
call 1 274 0 0 0 0 = 0 0\n\
call 1 286 10 66060 0 0 = 0 0\n\
call 1 276 0 0 0 0 = 0 0\n\
call 1 256 66108 0 131072 0 = 0 2\n\
call 1 256 66108 0 135168 0 = 0 3\n\
call 1 261 0 0 0 0 = 0 0\n\
run 2\n\
call 2 276 0 0 0 0 = block\n\
run 3\n\
call 3 276 0 0 0 0 = block\n\
run 1\n\
call 1 290 2 10 0 0 = 0 0\n\
deliver 2 10 1\n\
call 1 278 0 0 0 0 = 0 0\n\
done 3 0 0\n\
call 1 261 0 0 0 0 = 0 0\n\
run 2\n\
call 2 260 0 0 0 0 = 0 2\n\
ret 2 handler\n\
call 2 276 0 0 0 0 = block\n\
run 3\n\
call 3 278 0 0 0 0 = 0 0\n\
done 2 0 0\n\
call 3 257 0 0 0 0 = exit\n\
ret 3 cleanup\n\
gone 3 0\n\
run 1\n\
call 1 93 0 0 0 0 = end\n\
end exit 0\n",
    },
    // the mutex is free by then
    Row {
        items: &[
            Sys(274, [0, 0, 0, 0]),
            Sys(286, [10, 66_016, 0, 0]),
            Sys(276, [0, 0, 0, 0]),
            Sys(256, [66_064, 0, 131_072, 0]),
            YIELD,
            Sys(290, [2, 10, 0, 0]),
            Sys(278, [0, 0, 0, 0]),
            YIELD,
            END,
            At(66_016),
            SELF,
            Ret,
            At(66_064),
            Sys(276, [0, 0, 0, 0]),
            Sys(278, [0, 0, 0, 0]),
            Sys(257, [0, 0, 0, 0]),
        ],
        text: b"run 1\n\
call 1 274 0 0 0 0 = 0 0\n\
call 1 286 10 66016 0 0 = 0 0\n\
call 1 276 0 0 0 0 = 0 0\n\
call 1 256 66064 0 131072 0 = 0 2\n\
call 1 261 0 0 0 0 = 0 0\n\
run 2\n\
call 2 276 0 0 0 0 = block\n\
run 1\n\
call 1 290 2 10 0 0 = 0 0\n\
deliver 2 10 1\n\
call 1 278 0 0 0 0 = 0 0\n\
call 1 261 0 0 0 0 = 0 0\n\
run 2\n\
call 2 260 0 0 0 0 = 0 2\n\
ret 2 handler\n\
call 2 276 0 0 0 0 = 0 0\n\
call 2 278 0 0 0 0 = 0 0\n\
call 2 257 0 0 0 0 = exit\n\
ret 2 cleanup\n\
gone 2 0\n\
run 1\n\
call 1 93 0 0 0 0 = end\n\
end exit 0\n",
    },
    // the handler waits for another mutex
    Row {
        items: &[
            Sys(274, [0, 0, 0, 0]),
            Sys(274, [1, 0, 0, 0]),
            Sys(286, [10, 66_060, 0, 0]),
            Sys(276, [0, 0, 0, 0]),
            Sys(276, [1, 0, 0, 0]),
            Sys(256, [66_152, 0, 131_072, 131_084]),
            Sys(290, [2, 10, 0, 0]),
            Sys(278, [0, 0, 0, 0]),
            Sys(278, [1, 0, 0, 0]),
            END,
            At(66_060),
            Sys(276, [1, 0, 0, 0]),
            Sys(278, [1, 0, 0, 0]),
            Ret,
            At(66_152),
            Sys(276, [0, 0, 0, 0]),
            Sys(278, [0, 0, 0, 0]),
            Sys(257, [0, 0, 0, 0]),
        ],
        text: b"run 1\n\
call 1 274 0 0 0 0 = 0 0\n\
call 1 274 1 0 0 0 = 0 0\n\
call 1 286 10 66060 0 0 = 0 0\n\
call 1 276 0 0 0 0 = 0 0\n\
call 1 276 1 0 0 0 = 0 0\n\
call 1 256 66152 0 131072 131084 = 0 2\n\
run 2\n\
call 2 276 0 0 0 0 = block\n\
run 1\n\
call 1 290 2 10 0 0 = 0 0\n\
deliver 2 10 1\n\
run 2\n\
call 2 276 1 0 0 0 = block\n\
run 1\n\
call 1 278 0 0 0 0 = 0 0\n\
call 1 278 1 0 0 0 = 0 0\n\
done 2 0 0\n\
run 2\n\
call 2 278 1 0 0 0 = 0 0\n\
ret 2 handler\n\
call 2 276 0 0 0 0 = 0 0\n\
call 2 278 0 0 0 0 = 0 0\n\
call 2 257 0 0 0 0 = exit\n\
ret 2 cleanup\n\
gone 2 0\n\
run 1\n\
call 1 93 0 0 0 0 = end\n\
end exit 0\n",
    },
];

/// Handlers of threads that wait for a condition: they run when the mutex is back.
const CONDITIONS: &[Row<'static>] = &[
    // thread 1 has the mutex: signals pend on thread 2 until it gets it, and it is no waiter of the condition any more
    Row {
        items: &[
            Sys(274, [0, 0, 0, 0]),
            Sys(280, [0, 0, 0, 0]),
            Sys(286, [10, 66_060, 0, 0]),
            Sys(256, [66_108, 0, 131_072, 131_084]),
            Sys(276, [0, 0, 0, 0]),
            Sys(290, [2, 10, 0, 0]),
            Sys(290, [2, 10, 0, 0]),
            Sys(281, [0, 0, 0, 0]),
            Sys(278, [0, 0, 0, 0]),
            END,
            At(66_060),
            SELF,
            Ret,
            At(66_108),
            Sys(276, [0, 0, 0, 0]),
            Sys(282, [0, 0, 0, 0]),
            Sys(278, [0, 0, 0, 0]),
            Sys(257, [0, 0, 0, 0]),
        ],
        text: b"run 1\n\
call 1 274 0 0 0 0 = 0 0\n\
call 1 280 0 0 0 0 = 0 0\n\
call 1 286 10 66060 0 0 = 0 0\n\
call 1 256 66108 0 131072 131084 = 0 2\n\
run 2\n\
call 2 276 0 0 0 0 = 0 0\n\
call 2 282 0 0 0 0 = block\n\
run 1\n\
call 1 276 0 0 0 0 = 0 0\n\
call 1 290 2 10 0 0 = 0 0\n\
interrupt 2 10 1\n\
call 1 290 2 10 0 0 = 0 0\n\
call 1 281 0 0 0 0 = 0 0\n\
call 1 278 0 0 0 0 = 0 0\n\
done 2 0 0\n\
deliver 2 10 2\n\
run 2\n\
call 2 260 0 0 0 0 = 0 2\n\
ret 2 handler\n\
call 2 278 0 0 0 0 = 0 0\n\
call 2 257 0 0 0 0 = exit\n\
ret 2 cleanup\n\
gone 2 0\n\
run 1\n\
call 1 93 0 0 0 0 = end\n\
end exit 0\n",
    },
    // the mutex is free: it is back at once
    Row {
        items: &[
            Sys(274, [0, 0, 0, 0]),
            Sys(280, [0, 0, 0, 0]),
            Sys(286, [10, 65_884, 0, 0]),
            Sys(256, [65_932, 0, 131_072, 131_084]),
            Sys(290, [2, 10, 0, 0]),
            END,
            At(65_884),
            SELF,
            Ret,
            At(65_932),
            Sys(276, [0, 0, 0, 0]),
            Sys(282, [0, 0, 0, 0]),
            Sys(278, [0, 0, 0, 0]),
            Sys(257, [0, 0, 0, 0]),
        ],
        text: b"run 1\n\
call 1 274 0 0 0 0 = 0 0\n\
call 1 280 0 0 0 0 = 0 0\n\
call 1 286 10 65884 0 0 = 0 0\n\
call 1 256 65932 0 131072 131084 = 0 2\n\
run 2\n\
call 2 276 0 0 0 0 = 0 0\n\
call 2 282 0 0 0 0 = block\n\
run 1\n\
call 1 290 2 10 0 0 = 0 0\n\
interrupt 2 10 1\n\
done 2 0 0\n\
deliver 2 10 1\n\
run 2\n\
call 2 260 0 0 0 0 = 0 2\n\
ret 2 handler\n\
call 2 278 0 0 0 0 = 0 0\n\
call 2 257 0 0 0 0 = exit\n\
ret 2 cleanup\n\
gone 2 0\n\
run 1\n\
call 1 93 0 0 0 0 = end\n\
end exit 0\n",
    },
    // thread 1 blocks the process's signals: the first pends on thread 2 from then on, the second on the process
    Row {
        items: &[
            Sys(274, [0, 0, 0, 0]),
            Sys(280, [0, 0, 0, 0]),
            Sys(286, [10, 66_060, 0, 0]),
            Sys(256, [66_108, 0, 131_072, 131_084]),
            Sys(287, [0, 1024, 0, 0]),
            Sys(276, [0, 0, 0, 0]),
            Sys(291, [10, 0, 0, 0]),
            Sys(291, [10, 0, 0, 0]),
            Sys(278, [0, 0, 0, 0]),
            END,
            At(66_060),
            SELF,
            Ret,
            At(66_108),
            Sys(276, [0, 0, 0, 0]),
            Sys(282, [0, 0, 0, 0]),
            Sys(278, [0, 0, 0, 0]),
            Sys(257, [0, 0, 0, 0]),
        ],
        text: b"run 1\n\
call 1 274 0 0 0 0 = 0 0\n\
call 1 280 0 0 0 0 = 0 0\n\
call 1 286 10 66060 0 0 = 0 0\n\
call 1 256 66108 0 131072 131084 = 0 2\n\
run 2\n\
call 2 276 0 0 0 0 = 0 0\n\
call 2 282 0 0 0 0 = block\n\
run 1\n\
call 1 287 0 1024 0 0 = 0 0\n\
call 1 276 0 0 0 0 = 0 0\n\
call 1 291 10 0 0 0 = 0 0\n\
interrupt 2 10 1\n\
call 1 291 10 0 0 0 = 0 0\n\
call 1 278 0 0 0 0 = 0 0\n\
done 2 0 0\n\
deliver 2 10 1\n\
run 2\n\
call 2 260 0 0 0 0 = 0 2\n\
ret 2 handler\n\
deliver 2 10 1\n\
call 2 260 0 0 0 0 = 0 2\n\
ret 2 handler\n\
call 2 278 0 0 0 0 = 0 0\n\
call 2 257 0 0 0 0 = exit\n\
ret 2 cleanup\n\
gone 2 0\n\
run 1\n\
call 1 93 0 0 0 0 = end\n\
end exit 0\n",
    },
    // a recursive mutex comes back as often locked as it was
    Row {
        items: &[
            Sys(274, [0, 2, 0, 0]),
            Sys(280, [0, 0, 0, 0]),
            Sys(286, [10, 65_884, 0, 0]),
            Sys(256, [65_932, 0, 131_072, 131_084]),
            Sys(290, [2, 10, 0, 0]),
            END,
            At(65_884),
            Sys(278, [0, 0, 0, 0]),
            Ret,
            At(65_932),
            Sys(276, [0, 0, 0, 0]),
            Sys(276, [0, 0, 0, 0]),
            Sys(282, [0, 0, 0, 0]),
            Sys(278, [0, 0, 0, 0]),
            Sys(278, [0, 0, 0, 0]),
            Sys(257, [0, 0, 0, 0]),
        ],
        text: b"run 1\n\
call 1 274 0 2 0 0 = 0 0\n\
call 1 280 0 0 0 0 = 0 0\n\
call 1 286 10 65884 0 0 = 0 0\n\
call 1 256 65932 0 131072 131084 = 0 2\n\
run 2\n\
call 2 276 0 0 0 0 = 0 0\n\
call 2 276 0 0 0 0 = 0 0\n\
call 2 282 0 0 0 0 = block\n\
run 1\n\
call 1 290 2 10 0 0 = 0 0\n\
interrupt 2 10 1\n\
done 2 0 0\n\
deliver 2 10 1\n\
run 2\n\
call 2 278 0 0 0 0 = 0 0\n\
ret 2 handler\n\
call 2 278 0 0 0 0 = 0 0\n\
call 2 278 0 0 0 0 = 1 0\n\
call 2 257 0 0 0 0 = exit\n\
ret 2 cleanup\n\
gone 2 0\n\
run 1\n\
call 1 93 0 0 0 0 = end\n\
end exit 0\n",
    },
    // the default of a signal ends the process within the wait
    Row {
        items: &[
            Sys(274, [0, 0, 0, 0]),
            Sys(280, [0, 0, 0, 0]),
            Sys(256, [65_840, 0, 131_072, 131_084]),
            Sys(290, [2, 15, 0, 0]),
            END,
            At(65_840),
            Sys(276, [0, 0, 0, 0]),
            Sys(282, [0, 0, 0, 0]),
        ],
        text: b"run 1\n\
call 1 274 0 0 0 0 = 0 0\n\
call 1 280 0 0 0 0 = 0 0\n\
call 1 256 65840 0 131072 131084 = 0 2\n\
run 2\n\
call 2 276 0 0 0 0 = 0 0\n\
call 2 282 0 0 0 0 = block\n\
run 1\n\
call 1 290 2 15 0 0 = 0 0\n\
deliver 2 15 1\n\
end killed 15\n",
    },
];

#[test]
fn locks_are_made_again(rt: HostRuntime) -> Result<(), Fail> {
    assert_eq!(rt; first_other(rt.alloc(), LOCKS)?, None);
    Ok(())
}

#[test]
fn conditions_are_left(rt: HostRuntime) -> Result<(), Fail> {
    assert_eq!(rt; first_other(rt.alloc(), CONDITIONS)?, None);
    Ok(())
}
