//! Numbers and names that every layer shares.
#![tactic(auto)]

ghost use Rattle.std.specs.Prelude.{◌≡◌, ◌<◌, ◌≤◌, ◌+◌, ◌&&◌, ℕ, SomeIff, bit_or, ◌^◌};
ghost use Rattle.thread_base.specs.Numbers.{IsTid, IsPrio, IsInScope, IsCall, IsPolicy, can_block, has_signal, set_of, set_without, policy_of, code_of, family_of};
ghost use Rattle.thread_base.specs.Priority.{EffectiveIsGreatest};

mod action;
mod frame;
mod mutex;

pub use action::Action;
pub use frame::{Cleanup, FrameKind};
pub use mutex::{Holder, Kind, Protocol};
use std::marker::Model;

/// Memory ran out: the one answer for want of memory.
#[derive(Clone, Copy, Debug, PartialEq, Eq)]
pub struct NoMemory;

/// A thread's number, from 1 to 64.
#[derive(Clone, Copy, Debug, PartialEq, Eq)]
pub struct Tid(u32);

impl Model for Tid {
    ghost use Rattle.std.specs.Prelude.{ℕ};
    ghost use Rattle.thread_base.specs.Numbers.{IsTid};

    ghost Value = { ℕ };

    ghost view = { λ t. t.0 };

    ghost invariant = { λ t. IsTid t.0 };

    ghost inverse = { λ n. record { 0 = n } };
}

impl Tid {
    /// The thread of a number; None exactly outside 1 to 64.
    pub fn new(n: u32) -> Option<Tid>
        ensures { SomeIff result (IsTid n) n }
    {
        if 1 <= n && n <= 64 {
            Some(Tid(n))
        } else {
            None
        }
    }

    /// The thread at an index of a table, which counts from 0.
    pub fn at(index: usize) -> Tid
        requires { index < 64 }
        ensures { result ≡ index + 1 }
    {
        Tid(index as u32 + 1)
    }

    /// Its number, from 1 to 64.
    pub fn number(self) -> u32
        ensures value { result ≡ self }
        ensures range { IsTid self }
    {
        self.0
    }

    /// Its index in a table, which counts from 0.
    pub fn index(self) -> usize
        ensures value { result + 1 ≡ self }
        ensures range { result < 64 }
    {
        self.0 as usize - 1
    }
}

/// A priority, from 0 to 31; the greater goes first.
#[derive(Clone, Copy, Debug, PartialEq, Eq)]
pub struct Prio(u32);

impl Model for Prio {
    ghost use Rattle.std.specs.Prelude.{ℕ};
    ghost use Rattle.thread_base.specs.Numbers.{IsPrio};

    ghost Value = { ℕ };

    ghost view = { λ p. p.0 };

    ghost invariant = { λ p. IsPrio p.0 };

    ghost inverse = { λ n. record { 0 = n } };
}

impl Prio {
    /// The priority of a number; None exactly above 31.
    pub fn new(n: u32) -> Option<Prio>
        ensures { SomeIff result (IsPrio n) n }
    {
        if n <= 31 { Some(Prio(n)) } else { None }
    }

    /// Its number, from 0 to 31.
    pub fn number(self) -> u32
        ensures value { result ≡ self }
        ensures range { IsPrio self }
    {
        self.0
    }
}

/// A signal in scope: 1 to 31 without 18 to 22, by the numbers of Linux.
#[derive(Clone, Copy, Debug, PartialEq, Eq)]
pub struct Sig(u32);

impl Model for Sig {
    ghost use Rattle.std.specs.Prelude.{ℕ};
    ghost use Rattle.thread_base.specs.Numbers.{IsInScope};

    ghost Value = { ℕ };

    ghost view = { λ s. s.0 };

    ghost invariant = { λ s. IsInScope s.0 };

    ghost inverse = { λ n. record { 0 = n } };
}

impl Sig {
    /// The signal of a number; None exactly where it is not in scope.
    pub fn new(n: u32) -> Option<Sig>
        ensures { SomeIff result (IsInScope n) n }
    {
        if 1 <= n && n <= 31 && (n < 18 || 22 < n) {
            Some(Sig(n))
        } else {
            None
        }
    }

    /// The signal of a number that is in scope.
    pub const fn of(n: u32) -> Sig
        requires { IsInScope n }
        ensures { result ≡ n }
    {
        Sig(n)
    }

    /// Its number, from 1 to 31.
    pub fn number(self) -> u32
        ensures value { result ≡ self }
        ensures scope { IsInScope self }
    {
        self.0
    }
}

/// The bits of the signals that can be blocked: those in scope but KILL.
const ALL_BLOCKED: u32 = 0xff83_fdfe;

/// A set of signals that can be blocked, by POSIX.1: those in scope but KILL. Bit s stands for signal s.
#[derive(Clone, Copy, Debug, PartialEq, Eq)]
pub struct SigSet(u32);

impl Model for SigSet {
    ghost use Rattle.std.specs.Prelude.{ℕ};

    ghost Value = { ℕ };

    ghost view = { λ s. s.0 };

    ghost inverse = { λ n. record { 0 = n } };
}

impl SigSet {
    /// The signals of a word, of which bit s stands for signal s; what cannot be blocked is left out.
    pub fn of(word: u32) -> SigSet
        ensures set { result ≡ set_of word }
        ensures members { (sig : ℕ) → has_signal result sig ≡ (has_signal word sig && can_block sig) }
    {
        SigSet(word & ALL_BLOCKED)
    }

    /// Its word, in which bit s stands for signal s.
    pub fn word(self) -> u32
        ensures { result ≡ self }
    {
        self.0
    }

    /// Whether a signal is in the set.
    pub fn has(self, s: Sig) -> bool
        ensures { result ≡ has_signal self s }
    {
        (self.0 >> s.number()) & 1 == 1
    }

    /// The set with one signal more.
    pub fn with(self, s: Sig) -> SigSet
        ensures { result ≡ bit_or self (2 ^ s) }
    {
        SigSet(self.0 | 1 << s.number())
    }

    /// The signals of this set and of another.
    pub fn union(self, other: SigSet) -> SigSet
        ensures { result ≡ bit_or self other }
    {
        SigSet(self.0 | other.0)
    }

    /// The signals of this set that another does not have.
    pub fn without(self, other: SigSet) -> SigSet
        ensures { result ≡ set_without self other }
    {
        SigSet(self.0 & !other.0)
    }
}

/// A scheduling policy of POSIX.1: SCHED_OTHER, SCHED_FIFO or SCHED_RR.
#[derive(Clone, Copy, Debug, PartialEq, Eq)]
pub enum Policy {
    Other,
    Fifo,
    Rr,
}

impl Policy {
    /// The policy of a number: 0 is OTHER, 1 is FIFO, 2 is RR; None exactly above 2.
    pub fn new(n: u32) -> Option<Policy>
        ensures { SomeIff result (IsPolicy n) (policy_of n) }
    {
        match n {
            0 => Some(Policy::Other),
            1 => Some(Policy::Fifo),
            2 => Some(Policy::Rr),
            _ => None,
        }
    }
}

/// An error that a call answers, by its name in POSIX.1.
#[derive(Clone, Copy, Debug, PartialEq, Eq)]
pub enum Errno {
    EPERM,
    ESRCH,
    EINTR,
    EBADF,
    EAGAIN,
    EFAULT,
    EBUSY,
    EINVAL,
    EDEADLK,
    ENOSYS,
    ETIMEDOUT,
}

impl Errno {
    /// Its number, as Linux has it.
    pub fn code(self) -> u32
        ensures { result ≡ code_of self }
    {
        match self {
            Errno::EPERM => 1,
            Errno::ESRCH => 3,
            Errno::EINTR => 4,
            Errno::EBADF => 9,
            Errno::EAGAIN => 11,
            Errno::EFAULT => 14,
            Errno::EBUSY => 16,
            Errno::EINVAL => 22,
            Errno::EDEADLK => 35,
            Errno::ENOSYS => 38,
            Errno::ETIMEDOUT => 110,
        }
    }
}

/// The parts of the kernel in which calls begin: threads and the exit of the process, mutexes and condition
/// variables, and input, output, signals and time.
#[derive(Clone, Copy, Debug, PartialEq, Eq)]
pub enum Family {
    Threads,
    Sync,
    Signals,
}

/// The number of a call in the call table: 63, 64, 93, or 256 to 294.
#[derive(Clone, Copy, Debug, PartialEq, Eq)]
pub struct CallNo(u32);

impl Model for CallNo {
    ghost use Rattle.std.specs.Prelude.{ℕ};
    ghost use Rattle.thread_base.specs.Numbers.{IsCall};

    ghost Value = { ℕ };

    ghost view = { λ c. c.0 };

    ghost invariant = { λ c. IsCall c.0 };

    ghost inverse = { λ n. record { 0 = n } };
}

impl CallNo {
    /// The call of a number; None exactly where the table has no such number.
    pub fn new(n: u32) -> Option<CallNo>
        ensures { SomeIff result (IsCall n) n }
    {
        if n == 63 || n == 64 || n == 93 || (256 <= n && n <= 294) {
            Some(CallNo(n))
        } else {
            None
        }
    }

    /// Its number.
    pub fn number(self) -> u32
        ensures value { result ≡ self }
        ensures table { IsCall self }
    {
        self.0
    }

    /// The part of the kernel in which it begins.
    pub fn family(self) -> Family
        ensures { result ≡ family_of self }
    {
        match self.0 {
            93 | 256..=273 => Family::Threads,
            274..=285 => Family::Sync,
            _ => Family::Signals,
        }
    }
}

/// A place of a run: `n` instructions were made, and `k` kernel steps since the n-th.
/// Places are ordered by `n`, then by `k`.
#[derive(Clone, Copy, Debug, PartialEq, Eq, PartialOrd, Ord)]
pub struct Place {
    pub n: u64,
    pub k: u32,
}

/// The law of effective priority, by POSIX.1 priority inheritance: it is the greatest own priority over the
/// thread itself and every thread from which a chain of edges leads to it, circles of edges too, and no other.
pub fn effective_is_greatest()
    ensures { EffectiveIsGreatest }
{}

#[cfg(test)]
mod tests {
    use super::*;

    #[test]
    fn ranges_and_tables(rt: HostRuntime) {
        for (n, tid, prio, sig) in [
            (0, false, true, false),
            (1, true, true, true),
            (17, true, true, true),
            (18, true, true, false),
            (22, true, true, false),
            (23, true, true, true),
            (31, true, true, true),
            (32, true, false, false),
            (64, true, false, false),
            (65, false, false, false),
        ] {
            assert_eq!(rt; Tid::new(n).is_some(), tid, "thread {n}");
            assert_eq!(rt; Prio::new(n).is_some(), prio, "priority {n}");
            assert_eq!(rt; Sig::new(n).is_some(), sig, "signal {n}");
        }
        for (n, call) in [
            (62, false),
            (63, true),
            (64, true),
            (65, false),
            (93, true),
            (255, false),
            (256, true),
            (294, true),
            (295, false),
        ] {
            assert_eq!(rt; CallNo::new(n).is_some(), call, "call {n}");
        }
        for (n, family) in [
            (64, Family::Signals),
            (93, Family::Threads),
            (273, Family::Threads),
            (274, Family::Sync),
            (285, Family::Sync),
            (286, Family::Signals),
        ] {
            assert_eq!(rt;
                CallNo::new(n).map(|call| call.family()),
                Some(family),
                "call {n}"
            );
        }
        assert_eq!(rt; Policy::new(2), Some(Policy::Rr));
        assert_eq!(rt; Policy::new(3), None);
        assert_eq!(rt; Errno::ETIMEDOUT.code(), 110);
        for (n, member) in [(1, true), (2, false), (9, false), (18, false), (31, true)] {
            let set = SigSet::of(0xfffc_0202 | (1 << 31));
            if let Some(sig) = Sig::new(n) {
                assert_eq!(rt; set.has(sig), member, "signal {n} in the set");
            }
        }
        assert_eq!(rt; SigSet::of(0xfffc_0202).word(), 0xff80_0002);
        let set = SigSet::of(1 << 10).with(Sig::of(12));
        assert_eq!(rt; set.word(), 1 << 10 | 1 << 12);
        assert_eq!(rt;
            set.union(SigSet::of(1 << 2)).word(),
            1 << 2 | 1 << 10 | 1 << 12
        );
        assert_eq!(rt; set.without(SigSet::of(1 << 10)).word(), 1 << 12);
        assert!(rt; Place { n: 3, k: 9 } < Place { n: 4, k: 0 });
        assert!(rt; Place { n: 4, k: 0 } < Place { n: 4, k: 1 });
    }

    #[test]
    fn signals_that_are_ignored(rt: HostRuntime) {
        for (n, ignored) in [(16, false), (17, true), (23, true), (28, true), (29, false)] {
            if let Some(sig) = Sig::new(n) {
                assert_eq!(rt; Action::Default.ignores(sig), ignored, "signal {n}");
                assert!(rt; Action::Ignore.ignores(sig));
                let mask = SigSet::of(0);
                assert!(rt; !Action::Handler { at: 4096, mask }.ignores(sig));
            }
        }
    }
}
