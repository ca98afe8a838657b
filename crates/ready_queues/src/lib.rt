//! The ready list: the threads that can run, in order, and the choice among them.
#![tactic(auto)]

mod bitmap;
mod levels;
mod numbers;
mod plain;
#[cfg(test)]
mod tests;
mod tids;

ghost use Rattle.std.specs.Prelude.{◌≡◌, ◌++◌, ◌↔◌, [], ◌∷◌, ℕ, List, true, false, IfSome, IsNone};
ghost use Rattle.thread_base.specs.Maps.{put};
ghost use Rattle.thread_base.specs.Orders.{is_in, without, IsOrder};
ghost use Rattle.thread_base.specs.Priority.{first_greatest};

pub use bitmap::BitmapReady;
pub use plain::PlainReady;
use thread_base::{Prio, Tid};

/// The threads that are ready, each once, in order of arrival, with a priority for each (POSIX.1 scheduling).
pub trait Ready {
    /// The threads in order.
    ghost order: { Self → List ℕ };

    /// The priority of each thread's number. It counts for the threads in order.
    ghost prio: { Self → ℕ → ℕ };

    /// Puts a thread that is not there after all others, with a priority.
    fn append(&mut self, t: Tid, p: Prio)
        requires { is_in t (order self.old) ≡ false }
        ensures order { order self.new ≡ order self.old ++ t ∷ [] }
        ensures prio { prio self.new ≡ put (prio self.old) t p }
        ensures distinct { IsOrder (order self.new) };

    /// Takes a thread out; the order of the others stays.
    fn remove(&mut self, t: Tid)
        requires { is_in t (order self.old) ≡ true }
        ensures order { order self.new ≡ without t (order self.old) }
        ensures prio { prio self.new ≡ prio self.old }
        ensures distinct { IsOrder (order self.new) };

    /// Puts a thread after all others; the order of the others stays.
    fn to_tail(&mut self, t: Tid)
        requires { is_in t (order self.old) ≡ true }
        ensures order { order self.new ≡ without t (order self.old) ++ t ∷ [] }
        ensures prio { prio self.new ≡ prio self.old }
        ensures distinct { IsOrder (order self.new) };

    /// Gives a thread another priority; it keeps its place.
    fn reprio(&mut self, t: Tid, p: Prio)
        requires { is_in t (order self.old) ≡ true }
        ensures order { order self.new ≡ order self.old }
        ensures prio { prio self.new ≡ put (prio self.old) t p };

    /// Whether a thread is ready.
    fn has(&self, t: Tid) -> bool
        ensures member { result ≡ is_in t (order self.now) }
        ensures distinct { IsOrder (order self.now) };

    /// The first thread of the greatest priority; None exactly where no thread is ready.
    fn chosen(&self) -> Option<Tid>
        ensures first { result ≡ first_greatest (prio self.now) (order self.now) }
        ensures empty { IsNone result ↔ (order self.now ≡ []) }
        ensures member { IfSome result (λ t. is_in t (order self.now) ≡ true) }
        ensures distinct { IsOrder (order self.now) };
}
