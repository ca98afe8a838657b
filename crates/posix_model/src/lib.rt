//! The thread machine: its definitions, its laws, and the plain types of which they speak.
#![tactic(auto)]

ghost use Rattle.std.specs.Prelude.{◌≡◌};
ghost use Rattle.posix_model.specs.Reports.{nothing_told};
ghost use Rattle.posix_model.specs.Laws.{OneRun, InstructionIsAlone, Progress, Completion, StaysEnd, Goodness, PriorityIsInherited, BestComesFirst, EveryoneIsWoken};
ghost use Rattle.posix_model.specs.Laws.{InstructionsKeepGood, DeliveriesKeepGood, ArrivalsKeepGood, PlainInstructionsLeave, PendingIsBounded};
ghost use Rattle.posix_model.specs.State.{EndOf, aim, is_target, set_at, takes_back};
ghost use Rattle.thread_base.specs.Numbers.{code_of};

use rv_exec::Special;
use thread_base::{Errno, Place, Sig, SigSet, Tid};

mod attributes;
pub mod examples;

pub use attributes::Attributes;

/// One move of a run: an instruction of a thread, an arrival of `count` journal entries from
/// entry `first` on, the first of which was presented at `at`, or the next delivery.
#[derive(Clone, Copy, Debug, PartialEq, Eq)]
pub enum Move {
    Instr { tid: Tid },
    Arrive { first: u32, count: u32, at: Place },
    Deliver,
}

/// How a run ends: the process exited with a value from 0 to 255, was killed by a signal,
/// has no thread that could go on, or has used up its budget of instructions.
#[derive(Clone, Copy, Debug, PartialEq, Eq)]
pub enum Ending {
    Exit(u32),
    Killed(Sig),
    Idle,
    Budget,
}

/// What a call answers: an error number (0 for none) and a value, or that the caller waits,
/// starts its exit, acts on a cancellation, enters a routine, or ends the process.
#[derive(Clone, Copy, Debug, PartialEq, Eq)]
pub enum Reply {
    Values(u32, u32),
    Block,
    Exit,
    Cancel,
    Enter,
    End,
}

impl Reply {
    /// The answer of a refusal: its error, with the value 0.
    pub fn refusal(error: Errno) -> Reply
        ensures { result ≡ Reply.Values (code_of error) 0 }
    {
        Reply::Values(error.code(), 0)
    }
}

/// What a thread is answered when it has its mutex back: an error number, 0 for none, or its exit starts.
#[derive(Clone, Copy, Debug, PartialEq, Eq)]
pub enum RetakeReply {
    Answer(u32),
    Cancel,
}

/// What a thread waits for: the end of a thread, a mutex, a condition with a mutex, to have a mutex back after a
/// condition, a signal of a set, a time, or input for a buffer. `count`, from 1 to 65,535, is how often it had locked
/// the mutex; `deadline` and `until` count ticks.
#[derive(Clone, Copy, Debug, PartialEq, Eq)]
pub enum Wait {
    Join(Tid),
    Mutex(u32),
    Cond {
        cond: u32,
        mutex: u32,
        deadline: Option<u64>,
        count: u32,
    },
    Reacquire {
        mutex: u32,
        reply: RetakeReply,
        count: u32,
    },
    Signal(SigSet),
    Sleep {
        until: u64,
    },
    Read {
        buffer: u32,
        length: u32,
    },
}

impl Wait {
    /// Whether it is for the end of a thread.
    pub fn is_for_end_of(self, t: Tid) -> bool
        ensures { result ≡ is_target (EndOf t) (aim self) }
    {
        match self {
            Wait::Join(u) => u.number() == t.number(),
            Wait::Mutex(_) => false,
            Wait::Cond { .. } => false,
            Wait::Reacquire { .. } => false,
            Wait::Signal(_) => false,
            Wait::Sleep { .. } => false,
            Wait::Read { .. } => false,
        }
    }

    /// The set of signals that it is for; None exactly where it is for none.
    pub fn awaited(self) -> Option<SigSet>
        ensures { result ≡ set_at (aim self) }
    {
        match self {
            Wait::Signal(set) => Some(set),
            _ => None,
        }
    }

    /// Whether it is for having a mutex back.
    pub fn takes_back(self) -> bool
        ensures { result ≡ takes_back (Some self) }
    {
        match self {
            Wait::Reacquire { .. } => true,
            _ => false,
        }
    }
}

/// The arguments of a call, which stand in a0, a1, a2 and a3.
#[derive(Clone, Copy, Debug, PartialEq, Eq)]
pub struct Arguments {
    pub a0: u32,
    pub a1: u32,
    pub a2: u32,
    pub a3: u32,
}

/// What a run is given: how many instructions it may make, and how many ticks a turn of a thread lasts.
#[derive(Clone, Copy, Debug, PartialEq, Eq)]
pub struct Settings {
    pub budget: u64,
    pub quantum: u32,
}

/// What a move's main line tells; a plain instruction is quiet.
#[derive(Clone, Copy, Debug, PartialEq, Eq)]
pub enum Head {
    Quiet,
    Call {
        no: u32,
        args: [u32; 4],
        reply: Reply,
    },
    Ret(Special),
    Fault(Sig),
    ArriveSig {
        first: u32,
        count: u32,
        sig: Sig,
    },
    ArriveTick {
        first: u32,
    },
    ArriveData {
        first: u32,
        len: u32,
    },
    ArriveEof {
        first: u32,
    },
    Deliver {
        to: u32,
        sig: Sig,
        count: u64,
    },
    Accept {
        to: u32,
        sig: Sig,
        count: u64,
    },
    Interrupt {
        to: u32,
        sig: Sig,
        count: u64,
    },
    Cancel {
        to: u32,
    },
}

/// The plain data of one move's lines. Every field that a move does not use is 0 or false.
#[derive(Clone, Copy, Debug)]
pub struct Report {
    /// The thread of an instruction or of a delivery, and 0 for an arrival.
    pub tid: u32,
    pub head: Head,
    /// Where an arrival's first entry was presented.
    pub at: Place,
    /// Whether a tick let the alarm go off.
    pub alarm: bool,
    /// The descriptor, the address and the number of the bytes that a write wrote.
    pub out_fd: u32,
    pub out_buf: u32,
    pub out_len: u32,
    /// 1 where a signal was accepted beside the main line, 2 where one was delivered, else 0.
    pub took: u32,
    pub took_sig: u32,
    pub took_count: u64,
    /// How many of each signal were dropped, by the signal's number.
    pub drops: [u64; 32],
    /// Whether the thread ended, and with which value.
    pub gone: bool,
    pub gone_value: u32,
    /// Bit t - 1 tells that the waiting thread t was answered, with `values[t - 1]`.
    pub done: u64,
    pub values: [(u32, u32); 64],
}

impl Report {
    /// The report of nothing: each field is 0 or false.
    #[tactic(auto, unfolding(crate::specs::Reports::nothing_told))]
    pub fn nothing() -> Report
        ensures nothing { result ≡ nothing_told }
        ensures no_output { result.out_len ≡ 0 }
    {
        Report {
            tid: 0,
            head: Head::Quiet,
            at: Place { n: 0, k: 0 },
            alarm: false,
            out_fd: 0,
            out_buf: 0,
            out_len: 0,
            took: 0,
            took_sig: 0,
            took_count: 0,
            drops: [0; 32],
            gone: false,
            gone_value: 0,
            done: 0,
            values: [(0, 0); 64],
        }
    }
}

/// The law of one list: two whole runs from one good start that have one text have the same moves, but for
/// where entries were presented, and the same ending.
pub fn one_run()
    ensures { OneRun }
{}

/// Where an instruction is allowed, no other move is.
#[tactic(auto, using(crate::proofs::OneRun::instruction_is_alone))]
pub fn instruction_is_alone()
    ensures { InstructionIsAlone }
{}

/// The law of progress: within the budget a run has ended, or a move is allowed.
#[tactic(auto, using(crate::proofs::RunLaws::progress))]
pub fn progress()
    ensures { Progress }
{}

/// The law of good states: the start is good, and every move that is allowed keeps a good state good.
#[tactic(auto, using(crate::proofs::GoodMoves::goodness))]
pub fn goodness()
    ensures { Goodness }
{}

/// The law of good instructions: whatever the chosen thread does in one instruction keeps a good state good, a
/// plain one, a call of any number with any arguments, a special return and a fault.
#[tactic(auto, using(crate::proofs::GoodMoves::instructions_keep_good))]
pub fn instructions_keep_good()
    ensures { InstructionsKeepGood }
{}

/// The law of good deliveries: the next delivery keeps a good state good.
#[tactic(auto, using(crate::proofs::GoodMoves::deliveries_keep_good))]
pub fn deliveries_keep_good()
    ensures { DeliveriesKeepGood }
{}

/// The law of good arrivals: whatever arrives keeps a good state good.
#[tactic(auto, using(crate::proofs::GoodMoves::arrivals_keep_good))]
pub fn arrivals_keep_good()
    ensures { ArrivalsKeepGood }
{}

/// The law of inherited priority: a thread's effective priority is the greatest own priority over the thread
/// itself and every thread from which a chain of waits leads to it, by POSIX.1.
#[tactic(auto, using(crate::proofs::PriorityLaws::priority_is_inherited))]
pub fn priority_is_inherited()
    ensures { PriorityIsInherited }
{}

/// A broadcast wakes first whom a signal would wake, and then the others in the same way.
#[tactic(auto, using(crate::proofs::WakeLemmas::best_comes_first))]
pub fn best_comes_first()
    ensures { BestComesFirst }
{}

/// After a broadcast nobody waits for the condition.
#[tactic(auto, using(crate::proofs::WakeLemmas::everyone_is_woken))]
pub fn everyone_is_woken()
    ensures { EveryoneIsWoken }
{}

/// From a good state within the budget every run so far goes on to a whole run.
#[tactic(auto, using(crate::proofs::RunLaws::completion))]
pub fn completion()
    ensures { Completion }
{}

/// Every stay ends: a delivery lowers the weight of a good state, an arrival raises it by 3 at most, and where nothing
/// pends but signals in scope it is 1,870 at most.
#[tactic(auto, using(crate::proofs::Weights::stays_end))]
pub fn stays_end()
    ensures { StaysEnd }
{}

/// A plain instruction leaves the chosen thread and the next delivery.
pub fn plain_instructions_leave()
    ensures { PlainInstructionsLeave }
{}

/// The sum of all that pends is at most the instructions made and the entries taken together, the time is at most
/// the ticks taken, and nothing pends but signals in scope.
#[tactic(auto, using(crate::proofs::PendingMoves::pending_is_bounded))]
pub fn pending_is_bounded()
    ensures { PendingIsBounded }
{}

#[cfg(test)]
mod tests {
    use super::*;
    use thread_base::{Policy, Prio};

    #[test]
    fn attributes_by_bits(rt: HostRuntime) {
        let inherited = Attributes { word: 0x1_0000 };
        let told = Attributes { word: 0x2_010c };
        assert!(rt; inherited.are_valid() && inherited.detached());
        assert!(rt; told.are_valid() && !told.detached());
        assert!(rt; !Attributes { word: 0x20 }.are_valid());
        assert!(rt; !Attributes { word: 0x2_0300 }.are_valid());
        let Some(base) = Prio::new(8) else {
            return;
        };
        assert_eq!(rt; inherited.base(base).number(), 8);
        assert_eq!(rt; told.base(base).number(), 12);
        assert_eq!(rt; inherited.policy(Policy::Rr), Policy::Rr);
        assert_eq!(rt; told.policy(Policy::Rr), Policy::Fifo);
    }

    #[test]
    fn replies_and_waits(rt: HostRuntime) {
        assert_eq!(rt; Reply::refusal(Errno::EDEADLK), Reply::Values(35, 0));
        assert!(rt; Wait::Join(Tid::at(1)).is_for_end_of(Tid::at(1)));
        assert!(rt; !Wait::Join(Tid::at(1)).is_for_end_of(Tid::at(2)));
        assert!(rt; !Wait::Mutex(1).is_for_end_of(Tid::at(1)));
        let woken = Wait::Reacquire {
            mutex: 1,
            reply: RetakeReply::Answer(0),
            count: 1,
        };
        assert!(rt; !woken.is_for_end_of(Tid::at(1)));
        assert_eq!(rt; Report::nothing().done, 0);
    }
}
