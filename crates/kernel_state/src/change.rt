ghost use Rattle.std.specs.Prelude.{◌≡◌};

use posix_model::{Ending, RetakeReply, Wait};
use thread_base::{Action, Holder, Kind, Policy, Prio, Protocol, Sig, SigSet, Tid};

/// What a new thread begins with: its priority and policy, the signals that it blocks, whether it is detached, its
/// routine with an argument, and its stack.
#[derive(Clone, Copy, Debug)]
pub struct Beginning {
    pub base: Prio,
    pub policy: Policy,
    pub mask: SigSet,
    pub detached: bool,
    pub routine: u32,
    pub argument: u32,
    pub stack: u32,
}

/// A change of one thread and of its place in the ready list.
#[derive(Clone, Copy, Debug)]
pub enum ThreadChange {
    /// The caller of a call is answered.
    Reply { error: u32, value: u32 },
    /// A ready thread goes after the others.
    ToEnd,
    /// A new thread is made, after the others.
    Create { beginning: Beginning },
    /// A thread starts its exit, or takes a new value for it.
    StartExit { value: u32 },
    /// A ready thread waits.
    Await { wait: Wait },
    /// A waiting thread is answered, and becomes ready.
    Answer { error: u32, value: u32 },
    /// A waiting thread becomes ready without an answer, its pc at its call, which it makes again.
    Resume,
    /// A thread blocks the signals of another mask.
    Block { mask: SigSet },
    /// A thread enters the handler of a signal at an address, during which the signals of a mask are blocked too.
    Handle { signal: Sig, at: u32, mask: SigSet },
    /// A thread goes back to its last frame, where it has one.
    GoBack,
    /// A thread has another base priority and policy, and its turn begins; a ready one goes after the others.
    Schedule { policy: Policy, base: Prio },
    /// One tick more of a thread's turn is used.
    Charge,
    /// A thread is detached.
    Detach,
    /// The number of a thread that has ended is free.
    Free,
    /// A thread ends with a value, which its joiner has got, where it was joined.
    End { value: u32, joined: bool },
}

/// A change of one mutex, or of one place among its waiters.
#[derive(Clone, Copy, Debug)]
pub enum MutexChange {
    /// It is made, and is free.
    Make { kind: Kind, protocol: Protocol },
    /// It is there no more.
    Destroy,
    /// It has another holder, or none; its waiters stay.
    Hold { holder: Holder },
    /// A thread stands after the others that wait for it.
    AddWaiter { thread: Tid },
    /// A thread stands among its waiters no more.
    DropWaiter { thread: Tid },
}

/// A change of one condition, or of one place among its waiters.
#[derive(Clone, Copy, Debug)]
pub enum ConditionChange {
    /// It is made, and nobody waits for it.
    Make,
    /// It is there no more.
    Destroy,
    /// A thread stands after the others that wait for it, with the mutex that they all wait with.
    Enter { thread: Tid, mutex: u32 },
    /// A thread stands among its waiters no more.
    Leave { thread: Tid },
}

/// A change of how many of a signal pend on a thread, or on the process under None, or of what the signal does.
#[derive(Clone, Copy, Debug)]
pub enum SignalChange {
    /// So many more pend.
    Pend { place: Option<Tid>, count: u64 },
    /// None pends there: the signal is taken with its whole count.
    Take { place: Option<Tid> },
    /// None pends there: the signal is accepted with its whole count, which is told beside the main line.
    Accept { place: Option<Tid> },
    /// None pends there: what pended is dropped.
    Drop { place: Option<Tid> },
    /// So many that came are dropped.
    Lose { count: u64 },
    /// The signal has another action; where that ignores it, all that pends of it is dropped.
    Act { action: Action },
}

/// A change of the clock or of its alarm.
#[derive(Clone, Copy, Debug)]
pub enum ClockChange {
    /// The time goes on by a tick.
    Advance,
    /// The alarm is set to a time, or cleared.
    Set { alarm: Option<u64> },
    /// The alarm goes off: it is cleared, and told.
    Ring,
}

/// One small change of the machine, with what it tells. It writes the record of one thread, one object (a mutex, a
/// condition, what pends of a signal with its action, the clock, the ending) and one place of one list at most.
#[derive(Clone, Copy, Debug)]
pub enum Change {
    Thread {
        thread: Tid,
        change: ThreadChange,
    },
    Mutex {
        mutex: u32,
        change: MutexChange,
    },
    Condition {
        cond: u32,
        change: ConditionChange,
    },
    Signal {
        signal: Sig,
        change: SignalChange,
    },
    Clock {
        change: ClockChange,
    },
    /// A waiting thread takes a mutex back: it has it so often and goes on with the reply where the mutex is free
    /// by then, and else waits for it, after the others.
    Retake {
        thread: Tid,
        mutex: u32,
        count: u32,
        reply: RetakeReply,
    },
    /// So many bytes of a buffer were written to a descriptor.
    Output {
        descriptor: u32,
        buffer: u32,
        length: u32,
    },
    /// The process is over.
    Over {
        ending: Ending,
    },
    /// A signal that came so often ends the process at once.
    Kill {
        signal: Sig,
        count: u64,
    },
}

impl Change {
    /// The caller of a call is answered an error and a value.
    pub fn reply(thread: Tid, error: u32, value: u32) -> Change
        ensures { result ≡ Change.Thread thread (ThreadChange.Reply error value) }
    {
        Change::Thread {
            thread,
            change: ThreadChange::Reply { error, value },
        }
    }
}

impl Default for Change {
    /// What stands in a list where nothing was noted.
    fn default() -> Change {
        Change::Output {
            descriptor: 0,
            buffer: 0,
            length: 0,
        }
    }
}
