//! Programs that change priorities, each with the text that the rules of the machine give it. Calls: 262 sets the policy
//! and the priority of a thread, 263 tells 256 times the policy plus the priority. Thread 1 has policy 0 and priority 8.

use std::test::Fail;
use workload_gen::program::Item::{At, Sys};
use workload_gen::program::{END, Row, YIELD, first_other};

/// Who runs after a priority was set.
const WHO_RUNS: &[Row<'static>] = &[
    // a thread that is raised runs at once
    Row {
        items: &[
            Sys(256, [65_752, 0, 131_072, 0]),
            Sys(262, [2, 1, 9, 0]),
            END,
            At(65_752),
            Sys(263, [2, 0, 0, 0]),
            Sys(257, [0, 0, 0, 0]),
        ],
        text: b"run 1\n\
call 1 256 65752 0 131072 0 = 0 2\n\
call 1 262 2 1 9 0 = 0 0\n\
run 2\n\
call 2 263 2 0 0 0 = 0 265\n\
call 2 257 0 0 0 0 = exit\n\
ret 2 cleanup\n\
gone 2 0\n\
run 1\n\
call 1 93 0 0 0 0 = end\n\
end exit 0\n",
    },
    // a thread that lowers itself lets another run, also after the other's yield
    Row {
        items: &[
            Sys(256, [65_752, 0, 131_072, 0]),
            Sys(262, [1, 2, 7, 0]),
            END,
            At(65_752),
            YIELD,
            Sys(257, [0, 0, 0, 0]),
        ],
        text: b"run 1\n\
call 1 256 65752 0 131072 0 = 0 2\n\
call 1 262 1 2 7 0 = 0 0\n\
run 2\n\
call 2 261 0 0 0 0 = 0 0\n\
call 2 257 0 0 0 0 = exit\n\
ret 2 cleanup\n\
gone 2 0\n\
run 1\n\
call 1 93 0 0 0 0 = end\n\
end exit 0\n",
    },
    // who gets the priority that it has goes after its equals: thread 1 first, and then thread 3 after thread 1
    Row {
        items: &[
            Sys(256, [65_796, 0, 131_072, 0]),
            Sys(256, [65_796, 0, 135_168, 0]),
            Sys(262, [1, 0, 8, 0]),
            END,
            At(65_796),
            Sys(262, [3, 0, 8, 0]),
            Sys(257, [0, 0, 0, 0]),
        ],
        text: b"run 1\n\
call 1 256 65796 0 131072 0 = 0 2\n\
call 1 256 65796 0 135168 0 = 0 3\n\
call 1 262 1 0 8 0 = 0 0\n\
run 2\n\
call 2 262 3 0 8 0 = 0 0\n\
call 2 257 0 0 0 0 = exit\n\
ret 2 cleanup\n\
gone 2 0\n\
run 1\n\
call 1 93 0 0 0 0 = end\n\
end exit 0\n",
    },
    // a thread that is raised while it waits for a mutex gets it before one that was above it
    Row {
        items: &[
            Sys(274, [0, 0, 0, 0]),
            Sys(276, [0, 0, 0, 0]),
            Sys(256, [65_928, 0, 131_072, 131_082]),
            Sys(256, [65_928, 0, 135_168, 131_084]),
            Sys(262, [2, 0, 13, 0]),
            Sys(278, [0, 0, 0, 0]),
            END,
            At(65_928),
            Sys(276, [0, 0, 0, 0]),
            Sys(278, [0, 0, 0, 0]),
            Sys(257, [0, 0, 0, 0]),
        ],
        text: b"run 1\n\
call 1 274 0 0 0 0 = 0 0\n\
call 1 276 0 0 0 0 = 0 0\n\
call 1 256 65928 0 131072 131082 = 0 2\n\
run 2\n\
call 2 276 0 0 0 0 = block\n\
run 1\n\
call 1 256 65928 0 135168 131084 = 0 3\n\
run 3\n\
call 3 276 0 0 0 0 = block\n\
run 1\n\
call 1 262 2 0 13 0 = 0 0\n\
call 1 278 0 0 0 0 = 0 0\n\
done 2 0 0\n\
run 2\n\
call 2 278 0 0 0 0 = 0 0\n\
done 3 0 0\n\
call 2 257 0 0 0 0 = exit\n\
ret 2 cleanup\n\
gone 2 0\n\
run 3\n\
call 3 278 0 0 0 0 = 0 0\n\
call 3 257 0 0 0 0 = exit\n\
ret 3 cleanup\n\
gone 3 0\n\
run 1\n\
call 1 93 0 0 0 0 = end\n\
end exit 0\n",
    },
];

/// What the calls answer.
const ANSWERS: &[Row<'static>] = &[
    // no thread, one that has ended, and then a policy and a priority that no thread can have
    Row {
        items: &[
            Sys(256, [66_104, 0, 131_072, 131_084]),
            Sys(262, [0, 3, 32, 0]),
            Sys(262, [65, 0, 8, 0]),
            Sys(262, [2, 3, 32, 0]),
            Sys(262, [1, 3, 8, 0]),
            Sys(262, [1, 0, 32, 0]),
            Sys(263, [2, 0, 0, 0]),
            Sys(263, [65, 0, 0, 0]),
            Sys(262, [1, 2, 31, 0]),
            Sys(263, [1, 0, 0, 0]),
            END,
            At(66_104),
            Sys(257, [0, 0, 0, 0]),
        ],
        text: b"run 1\n\
call 1 256 66104 0 131072 131084 = 0 2\n\
run 2\n\
call 2 257 0 0 0 0 = exit\n\
ret 2 cleanup\n\
gone 2 0\n\
run 1\n\
call 1 262 0 3 32 0 = 3 0\n\
call 1 262 65 0 8 0 = 3 0\n\
call 1 262 2 3 32 0 = 3 0\n\
call 1 262 1 3 8 0 = 22 0\n\
call 1 262 1 0 32 0 = 22 0\n\
call 1 263 2 0 0 0 = 3 0\n\
call 1 263 65 0 0 0 = 3 0\n\
call 1 262 1 2 31 0 = 0 0\n\
call 1 263 1 0 0 0 = 0 543\n\
call 1 93 0 0 0 0 = end\n\
end exit 0\n",
    },
    // a new thread has what its attributes say, and else what its creator has by then
    Row {
        items: &[
            Sys(256, [65_884, 0, 131_072, 131_589]),
            Sys(263, [2, 0, 0, 0]),
            Sys(262, [1, 1, 9, 0]),
            Sys(256, [65_884, 0, 135_168, 0]),
            Sys(263, [3, 0, 0, 0]),
            END,
            At(65_884),
            Sys(257, [0, 0, 0, 0]),
        ],
        text: b"run 1\n\
call 1 256 65884 0 131072 131589 = 0 2\n\
call 1 263 2 0 0 0 = 0 517\n\
call 1 262 1 1 9 0 = 0 0\n\
call 1 256 65884 0 135168 0 = 0 3\n\
call 1 263 3 0 0 0 = 0 265\n\
call 1 93 0 0 0 0 = end\n\
end exit 0\n",
    },
];

#[test]
fn priorities_choose_who_runs(rt: HostRuntime) -> Result<(), Fail> {
    assert_eq!(rt; first_other(rt.alloc(), WHO_RUNS)?, None);
    Ok(())
}

#[test]
fn answers_of_priorities(rt: HostRuntime) -> Result<(), Fail> {
    assert_eq!(rt; first_other(rt.alloc(), ANSWERS)?, None);
    Ok(())
}
