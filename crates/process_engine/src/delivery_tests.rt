//! Deliveries to thread 1, which is ready or waits, to what their reports tell.

ghost use Rattle.std.specs.Prelude.{◌≡◌, ◌≤◌, ◌<◌, ◌+◌, ◌^◌, ℕ, [], true, false, IfOk, IfSome, length};
ghost use Rattle.posix_model.specs.Calls.{call as call_of};
ghost use Rattle.posix_model.specs.Good.{IsSoundWait};
ghost use Rattle.posix_model.specs.State.{Waits, EndOf, MutexAt, ConditionAt, aim, is_target};
ghost use Rattle.posix_model.specs.Weights.{pending_in_all};
ghost use Rattle.kernel_state.specs.View.{view};
ghost use Rattle.kernel_state.specs.Begun.{CanBegin, IsBegun, arguments_of};
ghost use Rattle.kernel_state.specs.Kernels.{IsIdle};

use dispatcher::begin_delivery;
use elf_image::EntryPoint;
use kernel_state::{Change, Kernel, ThreadChange};
use posix_model::{Head, Settings, Wait};
use ready_queues::{PlainReady, Ready};
use rv_exec::Memory;
use std::alloc::Global;
use std::test::Fail;
use thread_base::{CallNo, Family, NoMemory, Sig, SigSet, Tid};

/// The address of the handler.
const HANDLER: u32 = 0x10400;

/// The number of the signal of the tests.
const USR1: u32 = 10;

/// What a call is made with: its number and its arguments.
type Call = (u32, [u32; 4]);

/// The call by which the signal gets the handler, during which signal 12 is blocked.
const HANDLES: Call = (286, [USR1, HANDLER, 1 << 12, 0]);

/// The call by which one of the signal is sent to the process.
const SENDS: Call = (291, [USR1, 0, 0, 0]);

/// The call by which one of it is sent to thread 1.
const SENDS_TO_1: Call = (290, [1, USR1, 0, 0]);

/// The call by which mutex 0 is made.
const MAKES_MUTEX: Call = (274, [0; 4]);

/// The call by which it is locked.
const LOCKS: Call = (276, [0; 4]);

/// The call by which condition 0 is made.
const MAKES_CONDITION: Call = (280, [0; 4]);

/// The call by which a thread waits for it with mutex 0.
const AWAITS_CONDITION: Call = (282, [0; 4]);

/// The call by which thread 2 is made.
const CREATES: Call = (256, [0x10100, 0, 0x10800, 0]);

/// The call by which a thread waits for its end.
const JOINS: Call = (258, [2, 0, 0, 0]);

/// A kernel at the start of a run over 65,536 bytes.
fn start<R: Ready + Drop>(alloc: Global, ready: R) -> Result<Kernel<R>, NoMemory>
    requires { R.order ready ≡ [] }
    ensures idle { IfOk result IsIdle }
    ensures none { IfOk result (λ k. pending_in_all (view R.order k.tables) ≤ 0) }
{
    let settings = Settings {
        budget: 10,
        quantum: 4,
    };
    let memory = Memory::new(alloc, 65_536)?;
    Kernel::new(alloc, ready, memory, EntryPoint(0x10000), settings)
}

/// Whether the time is far below the limit of the clock.
fn has_time<R: Ready + Drop>(k: &Kernel<R>) -> bool
    ensures { result ≡ true → (view R.order k.now.tables).now < 2 ^ 31 }
{
    k.tables().ticks() < 0x8000_0000
}

/// The thread that runs; None where none does, the process is over, or no time is left.
fn runner<R: Ready + Drop>(k: &Kernel<R>) -> Option<Tid>
    requires idle { IsIdle k.now }
    requires most { pending_in_all (view R.order k.now.tables) ≤ 100 }
    ensures { IfSome result (CanBegin R.order k.now) }
{
    let t = k.chosen()?;
    if k.tables().over().is_some() || !has_time(k) {
        return None;
    }
    Some(t)
}

/// Begins a call in its crate.
fn begin_call<R: Ready + Drop>(k: &mut Kernel<R>, t: Tid, number: CallNo, args: [u32; 4])
    requires { CanBegin R.order k.old t }
    ensures { IsBegun R.order k.old k.new (call_of (view R.order k.old.tables) t number (arguments_of args)) }
{
    match number.family() {
        Family::Threads => calls_thread::begin(k, t, number, args),
        Family::Sync => calls_sync::begin(k, t, number, args),
        Family::Signals => calls_signal::begin(k, t, number, args),
    }
}

/// Makes a call of the thread that runs, where one does, after so many calls.
fn make<R: Ready + Drop>(k: &mut Kernel<R>, made: usize, call: Call)
    requires idle { IsIdle k.old }
    requires most { pending_in_all (view R.order k.old.tables) ≤ made }
    requires few { made < 100 }
    ensures idle { IsIdle k.new }
    ensures most { pending_in_all (view R.order k.new.tables) ≤ made + 1 }
{
    let (number, args) = call;
    let Some(t) = runner(k) else {
        return;
    };
    if let Some(number) = CallNo::new(number) {
        begin_call(k, t, number, args);
        let _report = k.finish();
    }
}

/// Makes calls one after another.
fn make_all<R: Ready + Drop>(k: &mut Kernel<R>, calls: &[Call])
    requires idle { IsIdle k.old }
    requires none { pending_in_all (view R.order k.old.tables) ≤ 0 }
    requires few { length calls.now < 100 }
    ensures idle { IsIdle k.new }
    ensures most { pending_in_all (view R.order k.new.tables) ≤ length calls.now }
{
    for index in 0..calls.len() {
        make(k, index, calls[index]);
    }
}

/// Lets the thread that runs wait, where one does, for what no other thread has.
fn wait_for<R: Ready + Drop>(k: &mut Kernel<R>, wait: Wait)
    requires idle { IsIdle k.old }
    requires most { pending_in_all (view R.order k.old.tables) ≤ 100 }
    requires joins_none { (t : ℕ) → is_target (EndOf t) (aim wait) ≡ false }
    requires wants_none { (m : ℕ) → is_target (MutexAt m) (aim wait) ≡ false }
    requires waits_on_none { (c : ℕ) → is_target (ConditionAt c) (aim wait) ≡ false }
    requires sound { IsSoundWait (view R.order k.old.tables).now (Waits wait) }
    ensures idle { IsIdle k.new }
    ensures most { pending_in_all (view R.order k.new.tables) ≤ 100 }
{
    if let Some(t) = runner(k) {
        let _sound = k.tables();
        let change = ThreadChange::Await { wait };
        k.note_one(t, Change::Thread { thread: t, change });
        k.begin_move(t, Head::Quiet);
        let _report = k.finish();
    }
}

/// Lets the thread that runs wait for a signal of a set, where one runs and the set has one.
fn wait_for_signals<R: Ready + Drop>(k: &mut Kernel<R>, set: SigSet)
    requires idle { IsIdle k.old }
    requires most { pending_in_all (view R.order k.old.tables) ≤ 100 }
    ensures idle { IsIdle k.new }
    ensures most { pending_in_all (view R.order k.new.tables) ≤ 100 }
{
    if set.word() != 0 {
        wait_for(k, Wait::Signal(set));
    }
}

/// Lets the thread that runs wait for input, where one runs.
fn wait_for_input<R: Ready + Drop>(k: &mut Kernel<R>)
    requires idle { IsIdle k.old }
    requires most { pending_in_all (view R.order k.old.tables) ≤ 100 }
    ensures idle { IsIdle k.new }
    ensures most { pending_in_all (view R.order k.new.tables) ≤ 100 }
{
    let wait = Wait::Read {
        buffer: 0x10000,
        length: 4,
    };
    wait_for(k, wait);
}

/// Lets the thread that runs sleep for seven ticks, where one runs.
fn sleep<R: Ready + Drop>(k: &mut Kernel<R>)
    requires idle { IsIdle k.old }
    requires most { pending_in_all (view R.order k.old.tables) ≤ 100 }
    ensures idle { IsIdle k.new }
    ensures most { pending_in_all (view R.order k.new.tables) ≤ 100 }
{
    let now = k.tables().ticks();
    if now < 100 {
        wait_for(k, Wait::Sleep { until: now + 7 });
    }
}

/// What a thread does after its calls: it goes on, or waits for signals of a word, for seven ticks, or for input.
#[derive(Clone, Copy, Debug)]
enum Then {
    GoesOn,
    AwaitsSignals(u32),
    Sleeps,
    Reads,
}

/// Lets the thread that runs do what is to come after its calls.
fn go_on<R: Ready + Drop>(k: &mut Kernel<R>, then: Then)
    requires idle { IsIdle k.old }
    requires most { pending_in_all (view R.order k.old.tables) ≤ 100 }
    ensures idle { IsIdle k.new }
    ensures most { pending_in_all (view R.order k.new.tables) ≤ 100 }
{
    match then {
        Then::GoesOn => {}
        Then::AwaitsSignals(word) => wait_for_signals(k, SigSet::of(word)),
        Then::Sleeps => sleep(k),
        Then::Reads => wait_for_input(k),
    }
}

/// A main line of a delivery: what becomes of the signal, with the thread, the signal's number, and how often it came.
#[derive(Clone, Copy, Debug, PartialEq, Eq)]
enum Line {
    Delivered(u32, u32, u64),
    Accepted(u32, u32, u64),
    Interrupts(u32, u32, u64),
    Other,
}

/// The main line of a delivery, by numbers.
fn line_of(head: Head) -> Line {
    match head {
        Head::Deliver { to, sig, count } => Line::Delivered(to, sig.number(), count),
        Head::Accept { to, sig, count } => Line::Accepted(to, sig.number(), count),
        Head::Interrupt { to, sig, count } => Line::Interrupts(to, sig.number(), count),
        _ => Line::Other,
    }
}

/// What is told of a delivery: its main line, the threads that are answered, and what thread 1 is answered; and after it
/// how thread 1 stands, with how many frames, how many of the signal pend on it, and whether the process is over.
#[derive(Clone, Copy, Debug, PartialEq, Eq)]
struct Told {
    line: Line,
    done: u64,
    value: (u32, u32),
    pc: u32,
    depth: u32,
    pending: u64,
    is_over: bool,
}

/// What is told of the next delivery; None where none is next, or no time is left.
fn deliver<R: Ready + Drop>(k: &mut Kernel<R>) -> Option<Told>
    requires idle { IsIdle k.old }
    requires most { pending_in_all (view R.order k.old.tables) ≤ 100 }
{
    if !has_time(k) {
        return None;
    }
    let (t, s, of_process) = k.tables().next_delivery()?;
    begin_delivery(k, t, s, of_process);
    let report = k.finish();
    let (pc, depth) = position(k);
    Some(Told {
        line: line_of(report.head),
        done: report.done,
        value: report.values[0],
        pc,
        depth,
        pending: k.tables().pending(Some(Tid::at(0)), Sig::of(USR1)),
        is_over: k.tables().over().is_some(),
    })
}

/// Where thread 1 stands, and how many frames it has; 0 where it is not there.
fn position<R: Ready + Drop>(k: &Kernel<R>) -> (u32, u32) {
    let t = Tid::at(0);
    match k.tables().find(t) {
        None => (0, 0),
        Some(known) => (known.regs.pc, k.tables().depth(t)),
    }
}

/// The delivery after calls of thread 1 at the start of a run, and what it does then.
fn delivery_after<R: Ready + Drop>(
    alloc: Global,
    ready: R,
    calls: &[Call],
    then: Then,
) -> Result<Option<Told>, NoMemory>
    requires empty { R.order ready ≡ [] }
    requires few { length calls.now < 100 }
{
    let mut k = start(alloc, ready)?;
    make_all(&mut k, calls);
    go_on(&mut k, then);
    Ok(deliver(&mut k))
}

/// What is told where thread 1 enters the handler for a signal that came so often, and is answered or not.
fn entered(count: u64, done: u64, value: (u32, u32)) -> Option<Told> {
    Some(Told {
        line: Line::Delivered(1, USR1, count),
        done,
        value,
        pc: HANDLER,
        depth: 1,
        pending: 0,
        is_over: false,
    })
}

/// What is told where a signal that came so often ends the process, while thread 1 goes on after two calls.
fn ended(count: u64) -> Option<Told> {
    Some(Told {
        line: Line::Delivered(1, USR1, count),
        done: 0,
        value: (0, 0),
        pc: 0x10008,
        depth: 0,
        pending: 0,
        is_over: true,
    })
}

/// What is told where a signal that came so often pends on thread 1, whose seventh call, a wait for a condition, has ended.
fn interrupted(count: u64) -> Option<Told> {
    Some(Told {
        line: Line::Interrupts(1, USR1, count),
        done: 1,
        value: (0, 0),
        pc: 0x1001c,
        depth: 0,
        pending: count,
        is_over: false,
    })
}

/// What is told where thread 1 accepts a signal that came so often, by its fourth call.
fn accepted(count: u64) -> Option<Told> {
    Some(Told {
        line: Line::Accepted(1, USR1, count),
        done: 1,
        value: (0, USR1),
        pc: 0x10010,
        depth: 0,
        pending: 0,
        is_over: false,
    })
}

#[test]
fn a_default_ends_the_process(rt: HostRuntime) -> Result<(), Fail> {
    let alloc = rt.alloc();
    let calls = [SENDS, SENDS];
    let told = delivery_after(alloc, PlainReady::new(alloc)?, &calls, Then::GoesOn)?;
    assert_eq!(rt; told, ended(2));
    Ok(())
}

#[test]
fn a_ready_thread_enters_the_handler(rt: HostRuntime) -> Result<(), Fail> {
    let alloc = rt.alloc();
    let calls = [HANDLES, SENDS_TO_1, SENDS_TO_1, SENDS_TO_1];
    let told = delivery_after(alloc, PlainReady::new(alloc)?, &calls, Then::GoesOn)?;
    assert_eq!(rt; told, entered(3, 0, (0, 0)));
    Ok(())
}

#[test]
fn a_lock_and_a_join_are_made_again(rt: HostRuntime) -> Result<(), Fail> {
    let alloc = rt.alloc();
    let locks = [HANDLES, SENDS, MAKES_MUTEX, LOCKS, LOCKS];
    let locking = delivery_after(alloc, PlainReady::new(alloc)?, &locks, Then::GoesOn)?;
    assert_eq!(rt; locking, entered(1, 0, (0, 0)));
    let joins = [HANDLES, SENDS, CREATES, JOINS];
    let joining = delivery_after(alloc, PlainReady::new(alloc)?, &joins, Then::GoesOn)?;
    assert_eq!(rt; joining, entered(1, 0, (0, 0)));
    Ok(())
}

#[test]
fn a_wait_for_a_condition_ends_first(rt: HostRuntime) -> Result<(), Fail> {
    let alloc = rt.alloc();
    let calls = [
        HANDLES,
        SENDS,
        SENDS,
        MAKES_MUTEX,
        LOCKS,
        MAKES_CONDITION,
        AWAITS_CONDITION,
    ];
    let told = delivery_after(alloc, PlainReady::new(alloc)?, &calls, Then::GoesOn)?;
    assert_eq!(rt; told, interrupted(2));
    Ok(())
}

#[test]
fn a_thread_accepts_what_it_waits_for(rt: HostRuntime) -> Result<(), Fail> {
    let alloc = rt.alloc();
    let calls = [HANDLES, SENDS, SENDS];
    let same = Then::AwaitsSignals(1 << USR1);
    let told = delivery_after(alloc, PlainReady::new(alloc)?, &calls, same)?;
    assert_eq!(rt; told, accepted(2));
    let other = Then::AwaitsSignals(1 << 12);
    let told = delivery_after(alloc, PlainReady::new(alloc)?, &calls, other)?;
    assert_eq!(rt; told, entered(2, 0, (0, 0)));
    Ok(())
}

#[test]
fn a_sleep_and_a_read_answer_eintr(rt: HostRuntime) -> Result<(), Fail> {
    let alloc = rt.alloc();
    let calls = [HANDLES, SENDS];
    let slept = delivery_after(alloc, PlainReady::new(alloc)?, &calls, Then::Sleeps)?;
    assert_eq!(rt; slept, entered(1, 1, (4, 7)));
    let read = delivery_after(alloc, PlainReady::new(alloc)?, &calls, Then::Reads)?;
    assert_eq!(rt; read, entered(1, 1, (4, 0)));
    Ok(())
}
