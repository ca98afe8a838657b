ghost use Rattle.std.specs.Prelude.{◌≡◌, ◌<◌, ◌++◌, [], ◌∷◌, true, false, Some, None, IfSome, is_some, IfOk, length};
ghost use Rattle.thread_base.specs.Orders.{is_in, without};
ghost use Rattle.posix_model.specs.State.{no_thread, joins};
ghost use Rattle.posix_model.specs.Good.{IsGood};
ghost use Rattle.posix_model.specs.Calls.{is_taken};
ghost use Rattle.posix_model.specs.Changes.{set_thread};
ghost use Rattle.posix_model.specs.Deliveries.{is_free_for};
ghost use Rattle.posix_model.specs.Reports.{nothing_told};
ghost use Rattle.posix_model.specs.Scheduling.{own, chosen};
ghost use Rattle.posix_model.specs.Start.{start_state, start_registers};
ghost use Rattle.posix_model.specs.Threads.{exists, free_number, joiner, some_live};
ghost use Rattle.kernel_state.specs.Executing.{HasExecuted};
ghost use Rattle.kernel_state.specs.Records.{thread_in, standing_in, registers_of, entered, left, top_kind};
ghost use Rattle.kernel_state.specs.View.{view, with_ready, AreCurrent, StayCurrent};

use crate::records::{Records, ThreadRecord};
use cond_table::Conds;
use context_frames::FrameKind;
use elf_image::EntryPoint;
use mutex_table::Mutexes;
use posix_model::{Ending, Report};
use ready_queues::Ready;
use rv_exec::{BASE, Event, Memory, Regs, START_RETURN};
use std::alloc::Global;
use thread_base::{NoMemory, Prio, Sig, SigSet, Tid};

impl ThreadRecord {
    /// Whether the thread waits for the end of another.
    fn joins(self, t: Tid) -> bool
        ensures { result ≡ joins t (standing_in self) }
    {
        if self.row.ended.is_some() {
            return false;
        }
        match self.activity.wait {
            None => false,
            Some(wait) => wait.is_for_end_of(t),
        }
    }
}

/// All tables, the memory, and what has been told of the move in progress. Clauses see the machine state
/// that it shows.
#[derive(Drop)]
pub struct Tables<R: Ready + Drop> {
    pub(crate) records: Records,
    pub(crate) ready: R,
    pub(crate) mutexes: Mutexes,
    pub(crate) conditions: Conds,
    pub(crate) ticks: u64,
    pub(crate) alarm: Option<u64>,
    pub(crate) memory: Memory,
    pub(crate) over: Option<Ending>,
    pub(crate) report: Report,
}

impl<R: Ready + Drop> Tables<R> {
    /// The tables at the start of a run: thread 1 stands at the entry, with its stack at the window's end, and
    /// is ready. NoMemory is free.
    pub(crate) fn new(
        alloc: Global,
        mut ready: R,
        memory: Memory,
        entry: EntryPoint,
    ) -> Result<Tables<R>, NoMemory>
        requires { R.order ready ≡ [] }
        ensures start { IfOk result (λ k. view R.order k ≡ start_state memory entry.0) }
        ensures current { IfOk result (λ k. AreCurrent (R.prio k.ready) (view R.order k)) }
        ensures untold { IfOk result (λ k. k.report ≡ nothing_told) }
    {
        let records = Records::new(alloc, first_regs(&memory, entry))?;
        let mutexes = Mutexes::new(alloc)?;
        let conditions = Conds::new(alloc)?;
        ready.append(Tid::at(0), first_priority());
        Ok(Tables {
            records,
            ready,
            mutexes,
            conditions,
            ticks: 0,
            alarm: None,
            memory,
            over: None,
            report: Report::nothing(),
        })
    }

    /// The thread that runs: the first ready one of greatest priority; None exactly where none is ready.
    pub fn chosen(&self) -> Option<Tid>
        requires { AreCurrent (R.prio self.now.ready) (view R.order self.now) }
        ensures { result ≡ chosen (view R.order self.now) }
    {
        self.ready.chosen()
    }

    /// What the tables keep of a thread; None exactly where there is none.
    #[tactic(auto, unfolding(crate::specs::View::view))]
    pub fn find(&self, t: Tid) -> Option<ThreadRecord>
        ensures thread { IfSome result (λ k. thread_in k ((view R.order self.now).threads t).frames ≡ (view R.order self.now).threads t) }
        ensures there { is_some result ≡ exists (view R.order self.now) t }
    {
        self.records.find(t)
    }

    /// Whether there is a thread, which may have ended.
    pub fn exists(&self, t: Tid) -> bool
        ensures { result ≡ exists (view R.order self.now) t }
    {
        self.find(t).is_some()
    }

    /// The thread of a number; None exactly where there is none.
    pub fn thread(&self, number: u32) -> Option<Tid>
        requires { IsGood (view R.order self.now) }
        ensures there { is_some result ≡ exists (view R.order self.now) number }
        ensures number { IfSome result (λ t. t ≡ number) }
    {
        let t = Tid::new(number)?;
        if self.exists(t) { Some(t) } else { None }
    }

    /// Whether a thread waits for the end of another.
    fn joins(&self, u: Tid, t: Tid) -> bool
        ensures { result ≡ joins t ((view R.order self.now).threads u).standing }
    {
        match self.find(u) {
            None => false,
            Some(known) => known.joins(t),
        }
    }

    /// The thread that waits for the end of another; None exactly where none does.
    pub fn joiner(&self, t: Tid) -> Option<Tid>
        ensures { result ≡ joiner (view R.order self.now) t }
    {
        for index in 0..64 {
            let u = Tid::at(index);
            if self.joins(u, t) {
                return Some(u);
            }
        }
        None
    }

    /// The least number that no thread has; None exactly where 64 are in use.
    pub fn free_number(&self) -> Option<Tid>
        ensures { result ≡ free_number (view R.order self.now) }
    {
        for index in 0..64 {
            let t = Tid::at(index);
            if !self.exists(t) {
                return Some(t);
            }
        }
        None
    }

    /// Whether nobody may join or detach a thread any more.
    pub fn is_taken(&self, t: Tid) -> bool
        requires { exists (view R.order self.now) t ≡ true }
        ensures { result ≡ is_taken (view R.order self.now) t }
    {
        self.known(t).row.detached || self.joiner(t).is_some()
    }

    /// What the tables keep of a thread that is there.
    pub fn known(&self, t: Tid) -> ThreadRecord
        requires { exists (view R.order self.now) t ≡ true }
        ensures { thread_in result ((view R.order self.now).threads t).frames ≡ (view R.order self.now).threads t }
    {
        match self.find(t) {
            Some(known) => known,
            None => unreachable!(),
        }
    }

    /// What the last frame of a thread is for that is there; None exactly where it has none.
    #[tactic(auto, unfolding(crate::specs::View::view))]
    pub fn top(&self, t: Tid) -> Option<FrameKind>
        requires { exists (view R.order self.now) t ≡ true }
        ensures { result ≡ top_kind ((view R.order self.now).threads t).frames }
    {
        self.records.top(t)
    }

    /// How many frames a thread has that is there.
    #[tactic(auto, unfolding(crate::specs::View::view))]
    pub fn depth(&self, t: Tid) -> u32
        requires { exists (view R.order self.now) t ≡ true }
        ensures { result ≡ length ((view R.order self.now).threads t).frames }
    {
        self.records.depth(t)
    }

    /// Whether a thread is free for a signal: it may take signals and does not block this one.
    #[tactic(auto, unfolding(crate::specs::View::view))]
    pub fn is_free_for(&self, t: Tid, s: Sig) -> bool
        ensures { result ≡ is_free_for (view R.order self.now) t s }
    {
        self.records.is_free_for(t, s)
    }

    /// The memory.
    #[tactic(auto, unfolding(crate::specs::View::view))]
    pub fn memory(&self) -> &Memory
        ensures { result.now ≡ (view R.order self.now).memory }
    {
        &self.memory
    }

    /// The thread whose registers are in place.
    pub fn placed(&self) -> Tid
        ensures { result ≡ self.now.records.placed }
    {
        self.records.placed()
    }

    /// Puts the registers of a thread in place; those that were there are saved, and the machine stays.
    pub(crate) fn place(&mut self, t: Tid)
        ensures view { view R.order self.new ≡ view R.order self.old }
        ensures placed { self.new.records.placed ≡ t }
        ensures report { self.new.report ≡ self.old.report }
        ensures current { StayCurrent R.order R.prio self.old self.new }
    {
        self.records.place(t);
    }

    /// How the process ended, where it is over.
    #[tactic(auto, unfolding(crate::specs::View::view))]
    pub fn over(&self) -> Option<Ending>
        ensures { result ≡ (view R.order self.now).over }
    {
        self.over
    }

    /// Makes one instruction of the thread whose registers are in place, up to what its event asks for.
    #[inline(always)]
    pub(crate) fn execute(&mut self) -> Event
        requires { exists (view R.order self.old) self.old.records.placed ≡ true }
        ensures executed { HasExecuted (view R.order self.old) self.old.records.placed result (view R.order self.new) }
        ensures placed { self.new.records.placed ≡ self.old.records.placed }
        ensures report { self.new.report ≡ self.old.report }
        ensures current { StayCurrent R.order R.prio self.old self.new }
    {
        self.records.execute(&mut self.memory)
    }

    /// Changes what the tables keep of a thread that is there; the others stay.
    pub(crate) fn put_record(&mut self, t: Tid, known: ThreadRecord)
        requires { exists (view R.order self.old) t ≡ true }
        ensures view { view R.order self.new ≡ set_thread (view R.order self.old) t (thread_in known ((view R.order self.old).threads t).frames) }
        ensures report { self.new.report ≡ self.old.report }
        ensures current { known.row.base ≡ own (view R.order self.old) t → StayCurrent R.order R.prio self.old self.new }
    {
        self.records.put(t, known);
    }

    /// Changes what the tables keep of a thread that is there and not ready, its base priority too; the others stay.
    pub(crate) fn put_away(&mut self, t: Tid, known: ThreadRecord)
        requires there { exists (view R.order self.old) t ≡ true }
        requires away { is_in t (view R.order self.old).ready ≡ false }
        ensures view { view R.order self.new ≡ set_thread (view R.order self.old) t (thread_in known ((view R.order self.old).threads t).frames) }
        ensures report { self.new.report ≡ self.old.report }
        ensures current { StayCurrent R.order R.prio self.old self.new }
    {
        self.records.put(t, known);
    }

    /// Changes what the tables keep of a ready thread, its base priority too, and puts it after the others.
    pub(crate) fn put_anew(&mut self, t: Tid, known: ThreadRecord, base: Prio)
        requires there { exists (view R.order self.old) t ≡ true }
        requires listed { is_in t (view R.order self.old).ready ≡ true }
        requires base { known.row.base ≡ base }
        ensures view { view R.order self.new ≡ with_ready (set_thread (view R.order self.old) t (thread_in known ((view R.order self.old).threads t).frames)) (without t (view R.order self.old).ready ++ t ∷ []) }
        ensures report { self.new.report ≡ self.old.report }
        ensures current { StayCurrent R.order R.prio self.old self.new }
    {
        self.take_out(t);
        self.put_away(t, known);
        self.append(t, base);
    }

    /// Pushes a frame with the registers and the mask of a thread that is there and has fewer than 32 frames, and gives it
    /// others.
    pub(crate) fn enter(&mut self, t: Tid, kind: FrameKind, regs: Regs, mask: SigSet)
        requires there { exists (view R.order self.old) t ≡ true }
        requires room { length ((view R.order self.old).threads t).frames < 32 }
        ensures view { view R.order self.new ≡ set_thread (view R.order self.old) t (entered ((view R.order self.old).threads t) kind (registers_of regs) mask) }
        ensures report { self.new.report ≡ self.old.report }
        ensures current { StayCurrent R.order R.prio self.old self.new }
    {
        self.records.enter(t, kind, regs, mask);
    }

    /// Takes the last frame of a thread off, which goes back to it.
    pub(crate) fn leave_frame(&mut self, t: Tid)
        requires { exists (view R.order self.old) t ≡ true }
        ensures view { view R.order self.new ≡ set_thread (view R.order self.old) t (left ((view R.order self.old).threads t)) }
        ensures report { self.new.report ≡ self.old.report }
        ensures current { StayCurrent R.order R.prio self.old self.new }
    {
        self.records.leave(t);
    }

    /// Changes what the tables keep of a thread that is there, and drops its frames; the others stay.
    pub(crate) fn put_bare(&mut self, t: Tid, known: ThreadRecord)
        requires { exists (view R.order self.old) t ≡ true }
        ensures view { view R.order self.new ≡ set_thread (view R.order self.old) t (thread_in known []) }
        ensures report { self.new.report ≡ self.old.report }
        ensures current { known.row.base ≡ own (view R.order self.old) t → StayCurrent R.order R.prio self.old self.new }
    {
        self.records.put_bare(t, known);
    }

    /// Keeps a new thread, of the least number that is free.
    pub(crate) fn add_record(&mut self, t: Tid, known: ThreadRecord)
        requires { free_number (view R.order self.old) ≡ Some t }
        ensures view { view R.order self.new ≡ set_thread (view R.order self.old) t (thread_in known []) }
        ensures report { self.new.report ≡ self.old.report }
        ensures current { is_in t (view R.order self.old).ready ≡ false → StayCurrent R.order R.prio self.old self.new }
    {
        self.records.add(t, known);
    }

    /// Keeps nothing more of a thread that is there: its number is free.
    pub(crate) fn remove_record(&mut self, t: Tid)
        requires { exists (view R.order self.old) t ≡ true }
        ensures view { view R.order self.new ≡ set_thread (view R.order self.old) t no_thread }
        ensures report { self.new.report ≡ self.old.report }
        ensures current { is_in t (view R.order self.old).ready ≡ false → StayCurrent R.order R.prio self.old self.new }
    {
        self.records.remove(t);
    }

    /// Whether some thread has not ended.
    pub fn some_live(&self) -> bool
        ensures { result ≡ some_live (view R.order self.now) }
    {
        self.records.live() != 0
    }

    /// Whether a thread stands in the ready list.
    #[tactic(auto, unfolding(crate::specs::View::view))]
    pub(crate) fn is_listed(&self, t: Tid) -> bool
        ensures { result ≡ is_in t (view R.order self.now).ready }
    {
        self.ready.has(t)
    }

    /// Puts a ready thread after the others.
    #[tactic(auto, unfolding(crate::specs::View::view))]
    pub(crate) fn put_last(&mut self, t: Tid)
        requires { is_in t (view R.order self.old).ready ≡ true }
        ensures view { view R.order self.new ≡ with_ready (view R.order self.old) (without t (view R.order self.old).ready ++ t ∷ []) }
        ensures report { self.new.report ≡ self.old.report }
        ensures current { StayCurrent R.order R.prio self.old self.new }
    {
        self.ready.to_tail(t);
    }

    /// Puts a thread that was not ready after those that are, with its base priority.
    #[tactic(auto, unfolding(crate::specs::View::view))]
    pub(crate) fn append(&mut self, t: Tid, base: Prio)
        requires away { is_in t (view R.order self.old).ready ≡ false }
        requires base { base ≡ own (view R.order self.old) t }
        ensures view { view R.order self.new ≡ with_ready (view R.order self.old) ((view R.order self.old).ready ++ t ∷ []) }
        ensures report { self.new.report ≡ self.old.report }
        ensures current { StayCurrent R.order R.prio self.old self.new }
    {
        let _in_range = t.number();
        self.ready.append(t, base);
    }

    /// Takes a ready thread out.
    #[tactic(auto, unfolding(crate::specs::View::view))]
    pub(crate) fn take_out(&mut self, t: Tid)
        requires { is_in t (view R.order self.old).ready ≡ true }
        ensures view { view R.order self.new ≡ with_ready (view R.order self.old) (without t (view R.order self.old).ready) }
        ensures report { self.new.report ≡ self.old.report }
        ensures current { StayCurrent R.order R.prio self.old self.new }
    {
        self.ready.remove(t);
    }
}

/// The priority of thread 1.
fn first_priority() -> Prio
    ensures { result ≡ 8 }
{
    Prio::new(8).unwrap()
}

/// The registers of thread 1 at the start.
fn first_regs(memory: &Memory, entry: EntryPoint) -> Regs
    ensures { registers_of result ≡ start_registers (length memory.now) entry.0 }
{
    let mut x = [0u32; 32];
    x[1] = START_RETURN;
    x[2] = BASE + memory.size();
    Regs { pc: entry.0, x }
}
