//! Calls of thread 1 from the start of a run on, one after another: what each is answered, and what is told beside.

ghost use Rattle.std.specs.Prelude.{◌≡◌, ◌≤◌, ◌+◌, [], true, IfOk, length};
ghost use Rattle.posix_model.specs.Weights.{pending_in_all};
ghost use Rattle.kernel_state.specs.Begun.{CanBegin, HasRoom};
ghost use Rattle.kernel_state.specs.Kernels.{IsIdle};
ghost use Rattle.kernel_state.specs.View.{view};

use crate::{begin, step};
use elf_image::EntryPoint;
use kernel_state::{Kernel, Stepped};
use posix_model::{Head, Reply, Report, Settings};
use ready_queues::{PlainReady, Ready};
use rv_exec::Memory;
use std::alloc::Global;
use std::test::Fail;
use thread_base::{CallNo, Family, NoMemory, Sig, Tid};

/// What is told of a call beside its reply.
#[derive(Clone, Copy, Debug, PartialEq, Eq)]
enum Beside {
    Nothing,
    Wrote(u32),
    Dropped(u64),
    Killed(u64),
    Accepted(u64),
}

/// A call, what it is answered, and what is told beside.
#[derive(Clone, Copy, Debug)]
struct Row {
    number: u32,
    args: [u32; 4],
    reply: Reply,
    beside: Beside,
}

/// A call with its arguments that is answered a value, and of which nothing more is told.
fn answered(number: u32, args: [u32; 4], value: u32) -> Row {
    telling(number, args, value, Beside::Nothing)
}

/// A call with its arguments that is answered a value, and of which more is told.
fn telling(number: u32, args: [u32; 4], value: u32, beside: Beside) -> Row {
    Row {
        number,
        args,
        reply: Reply::Values(0, value),
        beside,
    }
}

/// A call with its arguments that is refused.
fn refused(number: u32, args: [u32; 4], error: u32) -> Row {
    Row {
        number,
        args,
        reply: Reply::Values(error, 0),
        beside: Beside::Nothing,
    }
}

/// A call with its arguments that waits.
fn waiting(number: u32, args: [u32; 4]) -> Row {
    Row {
        number,
        args,
        reply: Reply::Block,
        beside: Beside::Nothing,
    }
}

/// A kernel at the start of a run over 131,072 bytes: nothing pends, and no tick has come.
fn start<R: Ready + Drop>(alloc: Global, ready: R) -> Result<Kernel<R>, NoMemory>
    requires { R.order ready ≡ [] }
    ensures none { IfOk result (λ k. pending_in_all (view R.order k.tables) ≤ 0) }
    ensures time { IfOk result (λ k. (view R.order k.tables).now ≤ 0) }
    ensures ready { IfOk result (λ k. CanBegin R.order k 1) }
{
    let settings = Settings {
        budget: 10,
        quantum: 4,
    };
    let memory = Memory::new(alloc, 131_072)?;
    Kernel::new(alloc, ready, memory, EntryPoint(0x10000), settings)
}

/// What a call of the thread that runs is answered, and what is told beside; None where the process is over, nobody
/// runs, or the number is not of this family. No tick comes.
fn call<R: Ready + Drop>(k: &mut Kernel<R>, number: u32, args: [u32; 4]) -> Option<(Reply, Beside)>
    requires idle { IsIdle k.old }
    requires few { HasRoom (view R.order k.old.tables) }
    ensures idle { IsIdle k.new }
    ensures more { pending_in_all (view R.order k.new.tables) ≤ pending_in_all (view R.order k.old.tables) + 1 }
    ensures time { (view R.order k.new.tables).now ≤ (view R.order k.old.tables).now }
{
    let number = CallNo::new(number)?;
    let t = k.chosen()?;
    if k.tables().over().is_some() {
        return None;
    }
    match number.family() {
        Family::Signals => {
            begin(k, t, number, args);
            told_by(&k.finish())
        }
        _ => None,
    }
}

/// The reply of a call, and what its report tells beside.
fn told_by(report: &Report) -> Option<(Reply, Beside)> {
    match report.head {
        Head::Call { reply, .. } => Some((reply, told_beside(report))),
        _ => None,
    }
}

/// What a report tells beside its head.
fn told_beside(report: &Report) -> Beside {
    if report.out_len != 0 {
        return Beside::Wrote(report.out_len);
    }
    match report.took {
        1 => return Beside::Accepted(report.took_count),
        2 => return Beside::Killed(report.took_count),
        _ => {}
    }
    for count in &report.drops {
        if *count != 0 {
            return Beside::Dropped(*count);
        }
    }
    Beside::Nothing
}

/// The index of the first of some calls in a row that is answered otherwise; None where each is answered so.
fn first_other<R: Ready + Drop>(k: &mut Kernel<R>, rows: &[Row]) -> Option<usize>
    requires idle { IsIdle k.old }
    requires none { pending_in_all (view R.order k.old.tables) ≤ 0 }
    requires early { (view R.order k.old.tables).now ≤ 0 }
    requires short { length rows.now ≤ 100 }
    ensures idle { IsIdle k.new }
    ensures few { pending_in_all (view R.order k.new.tables) ≤ 100 }
{
    let mut index = 0;
    for row in rows {
        let wanted = Some((row.reply, row.beside));
        if call(k, row.number, row.args) != wanted {
            return Some(index);
        }
        index += 1;
    }
    None
}

/// How calls of thread 1 from the start of a run on went: which is the first that is answered otherwise than its row
/// says, if any; and how many of a signal pend after them on thread 1 and on the process, and whether that is over.
#[derive(Clone, Copy, Debug, PartialEq, Eq)]
struct Told {
    other: Option<usize>,
    on_thread: u64,
    on_process: u64,
    is_over: bool,
}

/// What is told where each call is answered as its row says, and so many of the signal pend.
fn pending(on_thread: u64, on_process: u64) -> Told {
    Told {
        other: None,
        on_thread,
        on_process,
        is_over: false,
    }
}

/// What is told where each call is answered as its row says, and the last ends the process.
fn ended() -> Told {
    Told {
        other: None,
        on_thread: 0,
        on_process: 0,
        is_over: true,
    }
}

/// How calls of thread 1 from the start of a run on go, with what pends of a signal after them.
fn told_of<R: Ready + Drop>(
    alloc: Global,
    ready: R,
    rows: &[Row],
    signal: Sig,
) -> Result<Told, NoMemory>
    requires empty { R.order ready ≡ [] }
    requires short { length rows.now ≤ 100 }
{
    let mut k = start(alloc, ready)?;
    let other = first_other(&mut k, rows);
    Ok(Told {
        other,
        on_thread: k.tables().pending(Some(Tid::at(0)), signal),
        on_process: k.tables().pending(None, signal),
        is_over: k.tables().over().is_some(),
    })
}

/// How many small changes a call of thread 1 makes, 2 for more than one; 0 where it is not of this family.
fn small_changes<R: Ready + Drop>(k: &mut Kernel<R>, number: u32, args: [u32; 4]) -> u32
    requires { CanBegin R.order k.old 1 }
{
    let Some(number) = CallNo::new(number) else {
        return 0;
    };
    match number.family() {
        Family::Signals => {
            begin(k, Tid::at(0), number, args);
            match step(k) {
                Stepped::More => 2,
                Stepped::Exit(_) => 1,
            }
        }
        _ => 0,
    }
}

/// How many small changes a call makes at the start of a run.
fn changes_at_start<R: Ready + Drop>(
    alloc: Global,
    ready: R,
    number: u32,
    args: [u32; 4],
) -> Result<u32, NoMemory>
    requires { R.order ready ≡ [] }
{
    let mut k = start(alloc, ready)?;
    Ok(small_changes(&mut k, number, args))
}

#[test]
fn writes(rt: HostRuntime) -> Result<(), Fail> {
    let alloc = rt.alloc();
    let rows = [
        telling(64, [1, 0x10000, 2, 0], 2, Beside::Wrote(2)),
        answered(64, [2, 4, 0, 0], 0),
        telling(64, [1, 0x10000, 70_000, 0], 65_536, Beside::Wrote(65_536)),
        refused(64, [0, 4, 1, 0], 9),
        refused(64, [3, 0x10000, 2, 0], 9),
        refused(64, [1, 4, 1, 0], 14),
    ];
    let told = told_of(alloc, PlainReady::new(alloc)?, &rows, Sig::of(10))?;
    assert_eq!(rt; told, pending(0, 0));
    Ok(())
}

#[test]
fn actions(rt: HostRuntime) -> Result<(), Fail> {
    let alloc = rt.alloc();
    let rows = [
        answered(286, [10, 0x10104, 0x1400, 0], 0),
        answered(286, [10, 0xffff_fffc, 0, 0], 0x10104),
        answered(286, [10, 0, 0, 0], 0xffff_fffc),
        answered(286, [10, 1, 0, 0], 0),
        answered(286, [10, 4, 0, 0], 1),
        answered(286, [1, 1, 0, 0], 0),
        answered(286, [31, 1, 0, 0], 0),
        refused(286, [0, 1, 0, 0], 22),
        refused(286, [9, 1, 0, 0], 22),
        refused(286, [18, 1, 0, 0], 22),
        refused(286, [22, 1, 0, 0], 22),
        refused(286, [32, 1, 0, 0], 22),
        refused(286, [10, 2, 0, 0], 22),
        refused(286, [10, 5, 0, 0], 22),
        answered(286, [10, 4, 0, 0], 4),
    ];
    let told = told_of(alloc, PlainReady::new(alloc)?, &rows, Sig::of(10))?;
    assert_eq!(rt; told, pending(0, 0));
    Ok(())
}

#[test]
fn masks(rt: HostRuntime) -> Result<(), Fail> {
    let alloc = rt.alloc();
    let rows = [
        answered(287, [0, 0x1400, 0, 0], 0),
        answered(287, [0, 0xa00, 0, 0], 0x1400),
        answered(287, [1, 0x600, 0, 0], 0x1c00),
        answered(287, [2, 0xffff_ffff, 0, 0], 0x1800),
        refused(287, [3, 0, 0, 0], 22),
        refused(287, [0xffff_ffff, 0, 0, 0], 22),
        answered(287, [2, 0, 0, 0], 0xff83_fdfe),
        answered(287, [0, 0, 0, 0], 0),
    ];
    let told = told_of(alloc, PlainReady::new(alloc)?, &rows, Sig::of(10))?;
    assert_eq!(rt; told, pending(0, 0));
    Ok(())
}

#[test]
fn signals_to_a_thread(rt: HostRuntime) -> Result<(), Fail> {
    let alloc = rt.alloc();
    let rows = [
        answered(290, [1, 0, 0, 0], 0),
        answered(290, [1, 10, 0, 0], 0),
        answered(290, [1, 10, 0, 0], 0),
        telling(290, [1, 17, 0, 0], 0, Beside::Dropped(1)),
        refused(290, [0, 10, 0, 0], 3),
        refused(290, [2, 40, 0, 0], 3),
        refused(290, [65, 0, 0, 0], 3),
        refused(290, [1, 18, 0, 0], 22),
        refused(290, [1, 32, 0, 0], 22),
    ];
    let told = told_of(alloc, PlainReady::new(alloc)?, &rows, Sig::of(10))?;
    assert_eq!(rt; told, pending(2, 0));
    Ok(())
}

#[test]
fn signals_to_the_process(rt: HostRuntime) -> Result<(), Fail> {
    let alloc = rt.alloc();
    let rows = [
        answered(291, [0, 0, 0, 0], 0),
        answered(291, [10, 0, 0, 0], 0),
        telling(291, [28, 0, 0, 0], 0, Beside::Dropped(1)),
        refused(291, [22, 0, 0, 0], 22),
        refused(291, [0xffff_ffff, 0, 0, 0], 22),
    ];
    let told = told_of(alloc, PlainReady::new(alloc)?, &rows, Sig::of(10))?;
    assert_eq!(rt; told, pending(0, 1));
    Ok(())
}

#[test]
fn what_pends_is_accepted(rt: HostRuntime) -> Result<(), Fail> {
    let alloc = rt.alloc();
    let rows = [
        answered(288, [0; 4], 0),
        answered(290, [1, 12, 0, 0], 0),
        answered(290, [1, 12, 0, 0], 0),
        answered(290, [1, 12, 0, 0], 0),
        answered(291, [12, 0, 0, 0], 0),
        answered(291, [10, 0, 0, 0], 0),
        answered(291, [10, 0, 0, 0], 0),
        answered(288, [0; 4], 0x1400),
        telling(289, [0x9000, 0, 0, 0], 12, Beside::Accepted(3)),
        answered(288, [0; 4], 0x1400),
        telling(289, [0x9400, 0, 0, 0], 10, Beside::Accepted(2)),
        answered(288, [0; 4], 0x1000),
        telling(289, [0x9400, 0, 0, 0], 12, Beside::Accepted(1)),
        answered(288, [0; 4], 0),
    ];
    let told = told_of(alloc, PlainReady::new(alloc)?, &rows, Sig::of(12))?;
    assert_eq!(rt; told, pending(0, 0));
    Ok(())
}

#[test]
fn a_signal_is_awaited(rt: HostRuntime) -> Result<(), Fail> {
    let alloc = rt.alloc();
    let rows = [
        refused(289, [0; 4], 22),
        refused(289, [0x200, 0, 0, 0], 22),
        refused(289, [0x007c_0001, 0, 0, 0], 22),
        answered(290, [1, 10, 0, 0], 0),
        waiting(289, [0x8200, 0, 0, 0]),
    ];
    let told = told_of(alloc, PlainReady::new(alloc)?, &rows, Sig::of(10))?;
    assert_eq!(rt; told, pending(1, 0));
    Ok(())
}

#[test]
fn what_pends_is_dropped(rt: HostRuntime) -> Result<(), Fail> {
    let alloc = rt.alloc();
    let rows = [
        answered(286, [17, 0x10104, 0, 0], 0),
        answered(290, [1, 17, 0, 0], 0),
        answered(291, [17, 0, 0, 0], 0),
        answered(291, [17, 0, 0, 0], 0),
        telling(286, [17, 0, 0, 0], 0x10104, Beside::Dropped(3)),
        answered(286, [17, 1, 0, 0], 0),
        telling(290, [1, 17, 0, 0], 0, Beside::Dropped(1)),
    ];
    let told = told_of(alloc, PlainReady::new(alloc)?, &rows, Sig::of(17))?;
    assert_eq!(rt; told, pending(0, 0));
    Ok(())
}

#[test]
fn kill_ends_the_process(rt: HostRuntime) -> Result<(), Fail> {
    let alloc = rt.alloc();
    let to_thread = [telling(290, [1, 9, 0, 0], 0, Beside::Killed(1))];
    let told = told_of(alloc, PlainReady::new(alloc)?, &to_thread, Sig::of(9))?;
    assert_eq!(rt; told, ended());
    let to_process = [telling(291, [9, 0, 0, 0], 0, Beside::Killed(1))];
    let told = told_of(alloc, PlainReady::new(alloc)?, &to_process, Sig::of(9))?;
    assert_eq!(rt; told, ended());
    Ok(())
}

#[test]
fn calls_as_small_changes(rt: HostRuntime) -> Result<(), Fail> {
    let alloc = rt.alloc();
    for (number, args, changes) in [
        (64, [1, 0x10000, 2, 0], 2),
        (286, [10, 0x10104, 0, 0], 2),
        (286, [9, 1, 0, 0], 1),
        (287, [0, 0x400, 0, 0], 2),
        (288, [0; 4], 1),
        (289, [0x400, 0, 0, 0], 1),
        (290, [1, 10, 0, 0], 2),
        (290, [1, 0, 0, 0], 1),
        (291, [9, 0, 0, 0], 2),
        (291, [18, 0, 0, 0], 1),
    ] {
        let made = changes_at_start(alloc, PlainReady::new(alloc)?, number, args)?;
        assert_eq!(rt; made, changes, "call {number}");
    }
    Ok(())
}

#[test]
fn calls_that_are_not_built(rt: HostRuntime) -> Result<(), Fail> {
    let alloc = rt.alloc();
    let rows = [refused(63, [0, 0x10000, 1, 0], 38)];
    let told = told_of(alloc, PlainReady::new(alloc)?, &rows, Sig::of(10))?;
    assert_eq!(rt; told, pending(0, 0));
    Ok(())
}

#[test]
fn clock_calls(rt: HostRuntime) -> Result<(), Fail> {
    let alloc = rt.alloc();
    let rows = [
        answered(294, [0; 4], 0),
        answered(293, [9, 0, 0, 0], 0),
        answered(293, [0xffff_ffff, 0, 0, 0], 9),
        answered(293, [0; 4], 0xffff_ffff),
        answered(293, [5, 0, 0, 0], 0),
        answered(292, [0; 4], 0),
        waiting(292, [7, 0, 0, 0]),
    ];
    let told = told_of(alloc, PlainReady::new(alloc)?, &rows, Sig::of(14))?;
    assert_eq!(rt; told, pending(0, 0));
    Ok(())
}
