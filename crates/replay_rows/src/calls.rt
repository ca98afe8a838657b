//! Calls of one thread, and its return.

use std::test::Fail;
use workload_gen::program::Item::{At, Ret, Sys};
use workload_gen::program::{Row, first_other};

#[test]
fn rows_of_sheets(rt: HostRuntime) -> Result<(), Fail> {
    let alloc = rt.alloc();
    // empty writes, refusals in their order, numbers without a call, an exit of more than a byte
    let calls = Row {
        items: &[
            At(65_620),
            Sys(64, [1, 131_072, 0, 0]),
            At(65_664),
            Sys(64, [1, 4, 1, 0]),
            Sys(64, [7, 131_072, 1, 0]),
            Sys(64, [7, 4, 1, 0]),
            Sys(64, [2, 131_072, 3, 0]),
            Sys(17, [0, 0, 0, 0]),
            Sys(300, [5, 6, 7, 8]),
            Sys(93, [258, 0, 0, 0]),
        ],
        text: b"run 1\n\
call 1 64 1 131072 0 0 = 0 0\n\
call 1 64 1 4 1 0 = 14 0\n\
call 1 64 7 131072 1 0 = 9 0\n\
call 1 64 7 4 1 0 = 9 0\n\
call 1 64 2 131072 3 0 = 0 3\n\
out 1 2 000000\n\
call 1 17 0 0 0 0 = 38 0\n\
call 1 300 5 6 7 8 = 38 0\n\
call 1 93 258 0 0 0 = end\n\
end exit 2\n",
    };
    assert_eq!(rt; first_other(alloc, &[calls])?, None);
    // a return from the first routine: the value is the 0 that the call left in a0
    let returned = Row {
        items: &[Sys(260, [0, 0, 0, 0]), Ret],
        text: b"run 1\n\
call 1 260 0 0 0 0 = 0 1\n\
ret 1 start\n\
ret 1 cleanup\n\
gone 1 0\n\
end exit 0\n",
    };
    assert_eq!(rt; first_other(alloc, &[returned])?, None);
    Ok(())
}
