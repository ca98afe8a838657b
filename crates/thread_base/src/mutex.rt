ghost use Rattle.std.specs.Prelude.{◌≡◌};
ghost use Rattle.thread_base.specs.Holders.{is_held_by, count_of, is_free};

use crate::{Prio, Tid};

/// What a mutex does where its owner locks it again: it blocks for ever, answers an error, or counts
/// (POSIX.1 PTHREAD_MUTEX_NORMAL, ERRORCHECK and RECURSIVE).
#[derive(Clone, Copy, Debug, PartialEq, Eq)]
pub enum Kind {
    Normal,
    ErrorCheck,
    Recursive,
}

/// What a mutex does to its owner's priority: nothing, the owner inherits from its waiters, or it has at
/// least this ceiling (POSIX.1 PTHREAD_PRIO_NONE, INHERIT and PROTECT).
#[derive(Clone, Copy, Debug, PartialEq, Eq)]
pub enum Protocol {
    Plain,
    Inherit,
    Protect(Prio),
}

/// Who has a mutex: nobody, a thread that locked it so often, or a thread that has ended
/// (POSIX.1 pthread_mutex_lock).
#[derive(Clone, Copy, Debug, PartialEq, Eq)]
pub enum Holder {
    Free,
    Held { by: Tid, count: u32 },
    Orphan,
}

impl Holder {
    /// Whether a thread owns the mutex.
    pub fn is_held_by(self, t: Tid) -> bool
        ensures { result ≡ is_held_by self t }
    {
        match self {
            Holder::Held { by, .. } => by.number() == t.number(),
            Holder::Free | Holder::Orphan => false,
        }
    }

    /// How often its owner has locked it; 0 where no thread that goes on owns it.
    pub fn count(self) -> u32
        ensures { result ≡ count_of self }
    {
        match self {
            Holder::Held { count, .. } => count,
            Holder::Free | Holder::Orphan => 0,
        }
    }

    /// Whether nobody has the mutex.
    pub fn is_free(self) -> bool
        ensures { result ≡ is_free self }
    {
        match self {
            Holder::Free => true,
            Holder::Held { .. } | Holder::Orphan => false,
        }
    }
}
