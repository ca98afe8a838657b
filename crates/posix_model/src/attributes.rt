ghost use Rattle.std.specs.Prelude.{◌≡◌};
ghost use Rattle.posix_model.specs.Threads.{are_attributes, says_detached, base_by, policy_by, tells_scheduling, policy_bits};

use thread_base::{Policy, Prio};

/// Every bit that says nothing.
const UNUSED: u32 = 0xfffc_fce0;

/// The attributes of a new thread in one word: bits 0 to 4 are a priority, bits 8 and 9 a policy, bit 16 says
/// that it is detached, bit 17 that priority and policy count. Else they are the creator's, by POSIX.1.
#[derive(Clone, Copy, Debug, PartialEq, Eq)]
pub struct Attributes {
    pub word: u32,
}

impl Attributes {
    /// Whether priority and policy count.
    fn tell_scheduling(self) -> bool
        ensures { result ≡ tells_scheduling self.word }
    {
        (self.word >> 17) & 1 == 1
    }

    /// The policy's number, from 0 to 3.
    fn policy_number(self) -> u32
        ensures { result ≡ policy_bits self.word }
    {
        (self.word / 256) % 4
    }

    /// Whether no other bit is set, and a policy that counts is one.
    pub fn are_valid(self) -> bool
        ensures { result ≡ are_attributes self.word }
    {
        self.word & UNUSED == 0 && !(self.tell_scheduling() && self.policy_number() == 3)
    }

    /// Whether the thread is detached.
    pub fn detached(self) -> bool
        ensures { result ≡ says_detached self.word }
    {
        (self.word >> 16) & 1 == 1
    }

    /// The base priority of a thread that is made with these attributes by a thread of the given one.
    pub fn base(self, creator: Prio) -> Prio
        ensures { result ≡ base_by creator self.word }
    {
        if !self.tell_scheduling() {
            return creator;
        }
        match Prio::new(self.word % 32) {
            Some(base) => base,
            None => unreachable!(),
        }
    }

    /// The policy of a thread that is made with these attributes by a thread of the given one.
    pub fn policy(self, creator: Policy) -> Policy
        ensures { result ≡ policy_by creator self.word }
    {
        if !self.tell_scheduling() {
            return creator;
        }
        match self.policy_number() {
            0 => Policy::Other,
            1 => Policy::Fifo,
            _ => Policy::Rr,
        }
    }
}
