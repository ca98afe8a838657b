//! What is kept of each thread for its cancellation: three flags, and the cleanup routines that it has pushed.
#![tactic(auto)]

#[cfg(test)]
mod tests;

ghost use Rattle.std.specs.Prelude.{◌≡◌, ◌==◌, ◌++◌, ◌≤◌, ◌↔◌, [], ◌∷◌, not, length, IfOk, IsNone, if◌then◌else◌};
ghost use Rattle.thread_base.specs.Maps.{put};
ghost use Rattle.cancel_cleanup.specs.Cancellations.{flags_of, cleanups_of, flags_from, first_flags, last_of, before_last};

use link_arena::Stacks;
use std::alloc::Global;
use std::marker::Model;
pub use thread_base::Cleanup;
use thread_base::{NoMemory, Tid};

/// Whether a thread can be cancelled, whether at any time and not only at a cancellation point, and whether it is
/// to be (POSIX.1 cancelability state, cancelability type, cancellation request).
#[derive(Clone, Copy)]
struct Flags {
    enabled: bool,
    asynchronous: bool,
    pending: bool,
}

/// The flags of a thread that begins (POSIX.1): enabled, deferred, nothing pending.
const FIRST: Flags = Flags {
    enabled: true,
    asynchronous: false,
    pending: false,
};

/// The cancellation flags and the cleanup records of all threads. Their memory is taken when they are made.
#[derive(Drop)]
pub struct Cancels {
    flags: [Flags; 64],
    stacks: Stacks,
    /// The record of each node.
    records: Vec<Cleanup>,
}

impl Model for Cancels {
    ghost use Rattle.std.specs.Prelude.{◌≡◌, length};
    ghost use Rattle.link_arena.specs.Stacking.{stack_at, HavePlaces};
    ghost use Rattle.cancel_cleanup.specs.Cancellations.{Cancellations};

    ghost Value = { Cancellations };

    ghost view = { λ c. record { flags = c.flags; lists = c.stacks; records = c.records.items } };

    ghost invariant = { λ c. (length c.flags ≡ 64) × HavePlaces c.records.items (stack_at c.stacks) };
}

#[tactic(auto, unfolding(crate::specs::Cancellations::flags_of, crate::specs::Cancellations::cleanups_of), using(thread_base::proofs::MapLemmas::numbered_set, thread_base::proofs::MapLemmas::numbered_read))]
impl Cancels {
    /// Every thread enabled, deferred, nothing pending, without cleanup records. NoMemory comes only where memory
    /// ran out; no later call takes any.
    pub fn new(alloc: Global) -> Result<Cancels, NoMemory>
        ensures flags { IfOk result (λ c. flags_of c ≡ (λ _. first_flags)) }
        ensures cleanups { IfOk result (λ c. cleanups_of c ≡ (λ _. [])) }
    {
        let stacks = Stacks::new(alloc)?;
        let records = blanks(alloc)?;
        Ok(Cancels {
            flags: [FIRST; 64],
            stacks,
            records,
        })
    }

    /// Pushes a record after a thread's others; false, and nothing changes, exactly where the thread has 32.
    pub fn push(&mut self, t: Tid, c: Cleanup) -> bool
        ensures room { result ≡ not (length (cleanups_of self.old t) == 32) }
        ensures cleanups { cleanups_of self.new
            ≡ (if result then put (cleanups_of self.old) t (cleanups_of self.old t ++ c ∷ []) else cleanups_of self.old) }
        ensures flags { flags_of self.new ≡ flags_of self.old }
    {
        let Some(node) = self.stacks.push(t) else {
            return false;
        };
        self.records[node as usize] = c;
        true
    }

    /// Takes a thread's last record out; None exactly where it has none.
    pub fn pop(&mut self, t: Tid) -> Option<Cleanup>
        ensures last { result ≡ last_of (cleanups_of self.old t) }
        ensures empty { IsNone result ↔ (cleanups_of self.old t ≡ []) }
        ensures cleanups { cleanups_of self.new ≡ put (cleanups_of self.old) t (before_last (cleanups_of self.old t)) }
        ensures flags { flags_of self.new ≡ flags_of self.old }
    {
        let node = self.stacks.pop(t)?;
        Some(self.records[node as usize])
    }

    /// A thread's last record, which stays; None exactly where it has none.
    pub fn last(&self, t: Tid) -> Option<Cleanup>
        ensures last { result ≡ last_of (cleanups_of self.now t) }
        ensures empty { IsNone result ↔ (cleanups_of self.now t ≡ []) }
    {
        let node = self.stacks.top(t)?;
        Some(self.records[node as usize])
    }

    /// How many records a thread has, at most 32.
    pub fn depth(&self, t: Tid) -> u32
        ensures cleanups { result ≡ length (cleanups_of self.now t) }
        ensures limit { result ≤ 32 }
    {
        self.stacks.depth(t)
    }

    /// A thread's flags: enabled, asynchronous, pending.
    pub fn flags(&self, t: Tid) -> (bool, bool, bool)
        ensures { flags_from result ≡ flags_of self.now t }
    {
        let flags = self.flags[t.index()];
        (flags.enabled, flags.asynchronous, flags.pending)
    }

    /// Sets a thread's flags: enabled, asynchronous, pending.
    pub fn set_flags(&mut self, t: Tid, f: (bool, bool, bool))
        ensures flags { flags_of self.new ≡ put (flags_of self.old) t (flags_from f) }
        ensures cleanups { cleanups_of self.new ≡ cleanups_of self.old }
    {
        let (enabled, asynchronous, pending) = f;
        self.flags[t.index()] = Flags {
            enabled,
            asynchronous,
            pending,
        };
    }

    /// Makes a thread as it was at first: enabled, deferred, nothing pending, without cleanup records.
    pub fn reset(&mut self, t: Tid)
        ensures flags { flags_of self.new ≡ put (flags_of self.old) t first_flags }
        ensures cleanups { cleanups_of self.new ≡ put (cleanups_of self.old) t [] }
    {
        self.flags[t.index()] = FIRST;
        self.stacks.clear(t);
    }
}

/// A blank record for each node.
fn blanks(alloc: Global) -> Result<Vec<Cleanup>, NoMemory>
    ensures { IfOk result (λ v. length v.items ≡ 2048) }
{
    let Ok(mut records) = Vec::with_capacity(alloc, 2048) else {
        return Err(NoMemory);
    };
    for index in 0..2048u32 {
        if records.push(Cleanup::default()).is_err() {
            return Err(NoMemory);
        }
    }
    Ok(records)
}
