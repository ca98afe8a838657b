//! The rows of the threads that exist, by their numbers.
#![tactic(auto)]

#[cfg(test)]
mod tests;

ghost use Rattle.std.specs.Prelude.{◌≡◌, ◌↔◌, ℕ, IsNone, IsSome, IfSome};
ghost use Rattle.thread_base.specs.Numbers.{IsTid};
ghost use Rattle.thread_base.specs.Maps.{put, numbered};
ghost use Rattle.thread_table.specs.Rows.{rows, free_number, put_found, is_live, live_count};

use thread_base::{Policy, Prio, Tid};

/// What is kept of a thread: its base priority and policy, the ticks of its turn that it has used, whether it
/// is detached, who joins it, and the value that it ended with, if it has ended (POSIX.1 threads).
#[derive(Clone, Copy, Debug, PartialEq, Eq)]
pub struct Row {
    pub base: Prio,
    pub policy: Policy,
    pub used: u32,
    pub detached: bool,
    pub joiner: Option<Tid>,
    pub ended: Option<u32>,
}

/// The threads that exist, at most 64. Clauses see them as a map from numbers to rows.
#[derive(Drop)]
pub struct Threads {
    rows: [Option<Row>; 64],
}

#[tactic(auto, unfolding(crate::specs::Rows::rows), using(thread_base::proofs::MapLemmas::numbered_set, thread_base::proofs::MapLemmas::numbered_read))]
impl Threads {
    /// No thread.
    pub fn new() -> Threads
        ensures { rows result ≡ (λ _. None) }
    {
        Threads { rows: [None; 64] }
    }

    /// Gives a new thread the least free number; None, and nothing changes, exactly where all 64 are in use.
    pub fn make(&mut self, row: Row) -> Option<Tid>
        ensures number { result ≡ free_number (rows self.old) }
        ensures fresh { IfSome result (λ t. IsNone (rows self.old t)) }
        ensures full { IsNone result ↔ ((t : ℕ) → IsTid t → IsSome (rows self.old t)) }
        ensures after { rows self.new ≡ put_found (rows self.old) result row }
    {
        let number = self.least_free()?;
        self.rows[number.index()] = Some(row);
        Some(number)
    }

    /// A thread's row; None exactly where no thread has this number.
    pub fn row(&self, t: Tid) -> Option<Row>
        ensures { result ≡ rows self.now t }
    {
        self.rows[t.index()]
    }

    /// Changes the row of a thread that exists; other rows stay.
    pub fn put(&mut self, t: Tid, row: Row)
        requires { IsSome (rows self.old t) }
        ensures { rows self.new ≡ put (rows self.old) t (Some row) }
    {
        self.rows[t.index()] = Some(row);
    }

    /// Frees the number of a thread that exists; other rows stay.
    pub fn free(&mut self, t: Tid)
        requires { IsSome (rows self.old t) }
        ensures { rows self.new ≡ put (rows self.old) t None }
    {
        self.rows[t.index()] = None;
    }

    /// How many threads exist and have not ended, at most 64.
    pub fn live(&self) -> u32
        ensures { result ≡ live_count (rows self.now) }
    {
        count_live(&self.rows)
    }

    /// The least number that no thread has, if there is one.
    fn least_free(&self) -> Option<Tid>
        ensures { result ≡ free_number (rows self.now) }
    {
        for index in 0..64 {
            let t = Tid::at(index);
            if self.row(t).is_none() {
                return Some(t);
            }
        }
        None
    }
}

/// How many rows are those of threads that have not ended.
fn count_live(rows: &[Option<Row>; 64]) -> u32
    ensures { result ≡ live_count (numbered None rows.now) }
{
    rows.iter().filter(|row| is_live(row)).count() as u32
}

/// Whether a row is that of a thread that has not ended.
fn is_live(row: &Option<Row>) -> bool
    ensures { result ≡ is_live row.now }
{
    match row {
        Some(row) => row.ended.is_none(),
        None => false,
    }
}
