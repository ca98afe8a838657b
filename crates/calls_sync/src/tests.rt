//! Calls of mutexes and conditions of threads at the start of a run, to their reports.

ghost use Rattle.std.specs.Prelude.{◌≡◌, [], true, IfOk};
ghost use Rattle.kernel_state.specs.Begun.{CanBegin};
ghost use Rattle.thread_base.specs.Numbers.{family_of};

use crate::{begin, step};
use elf_image::EntryPoint;
use kernel_state::{Kernel, Stepped};
use posix_model::{Head, Reply, Report, Settings};
use ready_queues::{PlainReady, Ready};
use rv_exec::Memory;
use std::alloc::Global;
use std::test::Fail;
use thread_base::{CallNo, Family, NoMemory, Tid};

/// A kernel at the start of a run over 65,536 bytes.
fn start<R: Ready + Drop>(alloc: Global, ready: R) -> Result<Kernel<R>, NoMemory>
    requires { R.order ready ≡ [] }
    ensures { IfOk result (λ k. CanBegin R.order k 1) }
{
    let settings = Settings {
        budget: 10,
        quantum: 4,
    };
    let memory = Memory::new(alloc, 65_536)?;
    Kernel::new(alloc, ready, memory, EntryPoint(0x10000), settings)
}

/// The reply to a call of thread 1, and 1 where one small change made it, else 2.
fn call<R: Ready + Drop>(
    alloc: Global,
    ready: R,
    number: u32,
    args: [u32; 4],
) -> Result<(Option<Reply>, u32), NoMemory>
    requires empty { R.order ready ≡ [] }
    requires here { family_of number ≡ Family.Sync }
{
    let mut k = start(alloc, ready)?;
    let Some(number) = CallNo::new(number) else {
        return Ok((None, 0));
    };
    begin(&mut k, Tid::at(0), number, args);
    match step(&mut k) {
        Stepped::More => Ok((reply_of(&k.finish()), 2)),
        Stepped::Exit(report) => Ok((reply_of(&report), 1)),
    }
}

/// What a report tells of the reply.
fn reply_of(report: &Report) -> Option<Reply> {
    match report.head {
        Head::Call { reply, .. } => Some(reply),
        _ => None,
    }
}

#[test]
fn calls_where_no_mutex_is(rt: HostRuntime) -> Result<(), Fail> {
    let alloc = rt.alloc();
    let outcome = call(alloc, PlainReady::new(alloc)?, 274, [255, 2, 0, 0])?;
    assert_eq!(rt; outcome, (Some(Reply::Values(0, 0)), 2));
    let above = call(alloc, PlainReady::new(alloc)?, 274, [256, 0, 0, 0])?;
    assert_eq!(rt; above, (Some(Reply::Values(22, 0)), 1));
    let inherits = call(alloc, PlainReady::new(alloc)?, 274, [0, 16, 0, 0])?;
    assert_eq!(rt; inherits, (Some(Reply::Values(22, 0)), 1));
    let destroyed = call(alloc, PlainReady::new(alloc)?, 275, [0; 4])?;
    assert_eq!(rt; destroyed, (Some(Reply::Values(22, 0)), 1));
    let locked = call(alloc, PlainReady::new(alloc)?, 276, [0; 4])?;
    assert_eq!(rt; locked, (Some(Reply::Values(22, 0)), 1));
    let tried = call(alloc, PlainReady::new(alloc)?, 277, [0; 4])?;
    assert_eq!(rt; tried, (Some(Reply::Values(22, 0)), 1));
    let unlocked = call(alloc, PlainReady::new(alloc)?, 278, [0; 4])?;
    assert_eq!(rt; unlocked, (Some(Reply::Values(22, 0)), 1));
    Ok(())
}

#[test]
fn calls_where_no_condition_is(rt: HostRuntime) -> Result<(), Fail> {
    let alloc = rt.alloc();
    let outcome = call(alloc, PlainReady::new(alloc)?, 280, [255, 0, 0, 0])?;
    assert_eq!(rt; outcome, (Some(Reply::Values(0, 0)), 2));
    let above = call(alloc, PlainReady::new(alloc)?, 280, [256, 0, 0, 0])?;
    assert_eq!(rt; above, (Some(Reply::Values(22, 0)), 1));
    let destroyed = call(alloc, PlainReady::new(alloc)?, 281, [0; 4])?;
    assert_eq!(rt; destroyed, (Some(Reply::Values(22, 0)), 1));
    let waits = call(alloc, PlainReady::new(alloc)?, 282, [0; 4])?;
    assert_eq!(rt; waits, (Some(Reply::Values(22, 0)), 1));
    let waits_until = call(alloc, PlainReady::new(alloc)?, 283, [0, 0, 3, 0])?;
    assert_eq!(rt; waits_until, (Some(Reply::Values(22, 0)), 1));
    let signals = call(alloc, PlainReady::new(alloc)?, 284, [0; 4])?;
    assert_eq!(rt; signals, (Some(Reply::Values(22, 0)), 1));
    let wakes = call(alloc, PlainReady::new(alloc)?, 285, [0; 4])?;
    assert_eq!(rt; wakes, (Some(Reply::Values(22, 0)), 1));
    Ok(())
}
