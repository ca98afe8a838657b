//! Each call once, and faults and special returns, of thread 1 at the start of a run, to their reports.

ghost use Rattle.std.specs.Prelude.{◌≡◌, ℕ, [], ◌∷◌, true, List, None, IfOk};
ghost use Rattle.posix_model.specs.Changes.{begun};
ghost use Rattle.posix_model.specs.Good.{IsGood};
ghost use Rattle.posix_model.specs.Start.{start_state};
ghost use Rattle.kernel_state.specs.Begun.{CanBegin, HasRoom};
ghost use Rattle.kernel_state.specs.Changing.{thread_change_by, CanThread};
ghost use Rattle.kernel_state.specs.Kernels.{owed_by};
ghost use Rattle.kernel_state.specs.Moves.{InProgress};
ghost use Rattle.kernel_state.specs.View.{view};
ghost use Rattle.thread_base.specs.Numbers.{family_of};

use crate::{begin, begin_fault, begin_return, begin_unknown, step};
use elf_image::EntryPoint;
use kernel_state::{Change, Kernel, Stepped, ThreadChange};
use posix_model::{Head, Reply, Report, Settings};
use ready_queues::{PlainReady, Ready};
use rv_exec::{Memory, Special};
use std::alloc::Global;
use std::test::Fail;
use thread_base::{CallNo, Family, NoMemory, Sig, SigSet, Tid};

/// A kernel at the start of a run over 65,536 bytes.
fn start<R: Ready + Drop>(alloc: Global, ready: R) -> Result<Kernel<R>, NoMemory>
    requires { R.order ready ≡ [] }
    ensures ready { IfOk result (λ k. CanBegin R.order k 1) }
    ensures start { IfOk result (λ k. (memory : List ℕ) × (view R.order k.tables ≡ start_state memory 0x10000)) }
{
    let settings = Settings {
        budget: 10,
        quantum: 4,
    };
    let memory = Memory::new(alloc, 65_536)?;
    Kernel::new(alloc, ready, memory, EntryPoint(0x10000), settings)
}

/// Makes the move in progress, after which thread 1 is alone and can begin another.
fn go_on<R: Ready + Drop>(k: &mut Kernel<R>)
    requires progress { InProgress k.old }
    requires alone { let s = (owed_by R.order k.old).state in (s.over ≡ None) × (s.ready ≡ 1 ∷ []) × HasRoom s }
    ensures ready { CanBegin R.order k.new 1 }
    ensures state { view R.order k.new.tables ≡ (owed_by R.order k.old).state }
{
    let _report = k.finish();
}

/// The reply to a call.
fn call<R: Ready + Drop>(
    alloc: Global,
    ready: R,
    number: u32,
    args: [u32; 4],
) -> Result<Option<Reply>, NoMemory>
    requires empty { R.order ready ≡ [] }
    requires here { family_of number ≡ Family.Threads }
{
    let mut k = start(alloc, ready)?;
    match CallNo::new(number) {
        None => Ok(None),
        Some(number) => {
            begin(&mut k, Tid::at(0), number, args);
            Ok(reply_of(&k.finish()))
        }
    }
}

/// The report of a fault.
fn fault<R: Ready + Drop>(alloc: Global, ready: R, signal: Sig) -> Result<Report, NoMemory>
    requires { R.order ready ≡ [] }
{
    let mut k = start(alloc, ready)?;
    begin_fault(&mut k, Tid::at(0), signal);
    Ok(k.finish())
}

/// Makes one small change of thread 1, which stays alone and can begin another move.
fn prepare<R: Ready + Drop>(k: &mut Kernel<R>, change: ThreadChange)
    requires ready { CanBegin R.order k.old 1 }
    requires can { CanThread change 1 (view R.order k.old.tables) }
    requires good { IsGood (thread_change_by change 1 (begun (view R.order k.old.tables))).state }
    requires alone { let s = (thread_change_by change 1 (begun (view R.order k.old.tables))).state in (s.over ≡ None) × (s.ready ≡ 1 ∷ []) × HasRoom s }
    ensures ready { CanBegin R.order k.new 1 }
    ensures state { view R.order k.new.tables ≡ (thread_change_by change 1 (begun (view R.order k.old.tables))).state }
{
    let _sound = k.tables();
    let thread = Tid::at(0);
    k.note_one(thread, Change::Thread { thread, change });
    k.begin_move(thread, Head::Quiet);
    go_on(k);
}

/// The report of a fault of a thread that blocks the signals of a set.
fn blocked_fault<R: Ready + Drop>(
    alloc: Global,
    ready: R,
    mask: SigSet,
    signal: Sig,
) -> Result<Report, NoMemory>
    requires { R.order ready ≡ [] }
{
    let mut k = start(alloc, ready)?;
    prepare(&mut k, ThreadChange::Block { mask });
    begin_fault(&mut k, Tid::at(0), signal);
    Ok(k.finish())
}

/// The report of the return of a handler during which its signal was blocked, and the signals that its thread blocks then.
fn handler_return<R: Ready + Drop>(alloc: Global, ready: R) -> Result<(Report, u32), NoMemory>
    requires { R.order ready ≡ [] }
{
    let mut k = start(alloc, ready)?;
    let signal = Sig::of(7);
    let mask = SigSet::of(0);
    let at = 0x10100;
    prepare(&mut k, ThreadChange::Handle { signal, at, mask });
    begin_return(&mut k, Tid::at(0), Special::Handler);
    let report = k.finish();
    let blocked = match k.tables().find(Tid::at(0)) {
        None => 0,
        Some(known) => known.mask.word(),
    };
    Ok((report, blocked))
}

/// The report of the end of a thread on which the signal of a fault pends.
fn end_after_fault<R: Ready + Drop>(alloc: Global, ready: R) -> Result<Report, NoMemory>
    requires { R.order ready ≡ [] }
{
    let mut k = start(alloc, ready)?;
    begin_fault(&mut k, Tid::at(0), Sig::of(7));
    go_on(&mut k);
    begin_return(&mut k, Tid::at(0), Special::Start);
    go_on(&mut k);
    begin_return(&mut k, Tid::at(0), Special::Cleanup);
    Ok(k.finish())
}

/// The report of a special return.
fn special<R: Ready + Drop>(alloc: Global, ready: R, which: Special) -> Result<Report, NoMemory>
    requires { R.order ready ≡ [] }
{
    let mut k = start(alloc, ready)?;
    begin_return(&mut k, Tid::at(0), which);
    Ok(k.finish())
}

/// The reply to a call of an unknown number, by steps; None where the number is known, or where it is not made by the
/// first.
fn unknown<R: Ready + Drop>(alloc: Global, ready: R, number: u32) -> Result<Option<Reply>, NoMemory>
    requires { R.order ready ≡ [] }
{
    let mut k = start(alloc, ready)?;
    match CallNo::new(number) {
        Some(_) => return Ok(None),
        None => begin_unknown(&mut k, Tid::at(0), number, [0; 4]),
    }
    match step(&mut k) {
        Stepped::More => Ok(None),
        Stepped::Exit(report) => Ok(reply_of(&report)),
    }
}

/// What a report tells of the reply.
fn reply_of(report: &Report) -> Option<Reply> {
    match report.head {
        Head::Call { reply, .. } => Some(reply),
        _ => None,
    }
}

#[test]
fn calls_of_threads(rt: HostRuntime) -> Result<(), Fail> {
    let alloc = rt.alloc();
    let outcome = call(alloc, PlainReady::new(alloc)?, 256, [65_796, 7, 131_072, 0])?;
    assert_eq!(rt; outcome, Some(Reply::Values(0, 2)));
    let left = call(alloc, PlainReady::new(alloc)?, 257, [5, 0, 0, 0])?;
    assert_eq!(rt; left, Some(Reply::Exit));
    let joined = call(alloc, PlainReady::new(alloc)?, 258, [2, 0, 0, 0])?;
    assert_eq!(rt; joined, Some(Reply::Values(3, 0)));
    let myself = call(alloc, PlainReady::new(alloc)?, 258, [1, 0, 0, 0])?;
    assert_eq!(rt; myself, Some(Reply::Values(35, 0)));
    Ok(())
}

#[test]
fn calls_of_one_thread(rt: HostRuntime) -> Result<(), Fail> {
    let alloc = rt.alloc();
    let detached = call(alloc, PlainReady::new(alloc)?, 259, [1, 0, 0, 0])?;
    assert_eq!(rt; detached, Some(Reply::Values(0, 0)));
    let number = call(alloc, PlainReady::new(alloc)?, 260, [0; 4])?;
    assert_eq!(rt; number, Some(Reply::Values(0, 1)));
    let yielded = call(alloc, PlainReady::new(alloc)?, 261, [0; 4])?;
    assert_eq!(rt; yielded, Some(Reply::Values(0, 0)));
    let exited = call(alloc, PlainReady::new(alloc)?, 93, [259, 0, 0, 0])?;
    assert_eq!(rt; exited, Some(Reply::End));
    Ok(())
}

#[test]
fn calls_of_priorities(rt: HostRuntime) -> Result<(), Fail> {
    let alloc = rt.alloc();
    let most = call(alloc, PlainReady::new(alloc)?, 262, [1, 2, 31, 0])?;
    assert_eq!(rt; most, Some(Reply::Values(0, 0)));
    let policy = call(alloc, PlainReady::new(alloc)?, 262, [1, 3, 31, 0])?;
    assert_eq!(rt; policy, Some(Reply::Values(22, 0)));
    let priority = call(alloc, PlainReady::new(alloc)?, 262, [1, 2, 32, 0])?;
    assert_eq!(rt; priority, Some(Reply::Values(22, 0)));
    let nobody = call(alloc, PlainReady::new(alloc)?, 262, [2, 3, 32, 0])?;
    assert_eq!(rt; nobody, Some(Reply::Values(3, 0)));
    let told = call(alloc, PlainReady::new(alloc)?, 263, [1, 0, 0, 0])?;
    assert_eq!(rt; told, Some(Reply::Values(0, 8)));
    let untold = call(alloc, PlainReady::new(alloc)?, 263, [65, 0, 0, 0])?;
    assert_eq!(rt; untold, Some(Reply::Values(3, 0)));
    Ok(())
}

#[test]
fn unknown_calls_and_returns(rt: HostRuntime) -> Result<(), Fail> {
    let alloc = rt.alloc();
    let answered = unknown(alloc, PlainReady::new(alloc)?, 17)?;
    assert_eq!(rt; answered, Some(Reply::Values(38, 0)));
    let returned = special(alloc, PlainReady::new(alloc)?, Special::Start)?;
    assert_eq!(rt; returned.head, Head::Ret(Special::Start));
    let early = special(alloc, PlainReady::new(alloc)?, Special::Cleanup)?;
    assert_eq!(rt; early.head, Head::Fault(Sig::of(11)));
    let handled = handler_return(alloc, PlainReady::new(alloc)?)?;
    assert_eq!(rt; handled.0.head, Head::Ret(Special::Handler));
    assert_eq!(rt; handled.1, 0);
    let bare = special(alloc, PlainReady::new(alloc)?, Special::Handler)?;
    assert_eq!(rt; bare.head, Head::Fault(Sig::of(11)));
    Ok(())
}

#[test]
fn faults(rt: HostRuntime) -> Result<(), Fail> {
    let alloc = rt.alloc();
    let pends = fault(alloc, PlainReady::new(alloc)?, Sig::of(7))?;
    assert_eq!(rt; pends.head, Head::Fault(Sig::of(7)));
    assert_eq!(rt; pends.took, 0);
    let masked = blocked_fault(
        alloc,
        PlainReady::new(alloc)?,
        SigSet::of(1 << 7),
        Sig::of(7),
    )?;
    assert_eq!(rt; masked.head, Head::Fault(Sig::of(7)));
    assert_eq!(rt; masked.took, 2);
    assert_eq!(rt; masked.took_sig, 7);
    let other = blocked_fault(
        alloc,
        PlainReady::new(alloc)?,
        SigSet::of(1 << 7),
        Sig::of(4),
    )?;
    assert_eq!(rt; other.took, 0);
    let ended = end_after_fault(alloc, PlainReady::new(alloc)?)?;
    assert_eq!(rt; ended.head, Head::Ret(Special::Cleanup));
    assert_eq!(rt; ended.gone, true);
    assert_eq!(rt; ended.drops[7], 1);
    Ok(())
}
