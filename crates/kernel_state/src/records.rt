ghost use Rattle.std.specs.Prelude.{◌≡◌, ◌<◌, ◌≤◌, ◌+◌, ◌-◌, ◌^◌, ◌&&◌, ℕ, List, [], true, false, Some, None, length, is_some, find, map, nat_lt, IsNone, IfOk, IfSome, if◌then◌else◌};
ghost use Rattle.std.specs.List.{range_with_len};
ghost use Rattle.thread_base.specs.Actions.{ignores};
ghost use Rattle.thread_base.specs.Maps.{put, numbered};
ghost use Rattle.thread_base.specs.Deliveries.{signals};
ghost use Rattle.thread_base.specs.Numbers.{IsTid, has_signal, can_block};
ghost use Rattle.rv_exec.specs.Meaning.{effect};
ghost use Rattle.rv_exec.specs.Outcome.{HasEffect};
ghost use Rattle.context_frames.specs.Contexts.{saved_of, stack_of};
ghost use Rattle.thread_table.specs.Rows.{free_number as free_row, rows as rows_of, live_count};
ghost use Rattle.thread_signals.specs.Counts.{place_of, is_pending, put_count, without_signal, all_of, total};
ghost use Rattle.thread_signals.specs.SignalState.{state_of};
ghost use Rattle.time_queue.specs.Deadlines.{deadlines as deadlines_of};
ghost use Rattle.posix_model.specs.State.{Frame as MachineFrame, no_thread, is_of_handler, wait_of, target, set_at, deadline_by, none_pending, default_actions};
ghost use Rattle.posix_model.specs.Arrivals.{has_come};
ghost use Rattle.posix_model.specs.Deliveries.{may_take};
ghost use Rattle.kernel_state.specs.Records.{SameSignals, threads_in, thread_in, standing_in, pending_in, actions_in, has_thread, registers_of, context_of, contexts_of, activities_of, main_row, first_threads, entered, left, top_kind, free_in, next_signal};

use crate::activity::{Activities, Activity};
use context_frames::{Frame, FrameKind, Frames, Saved};
use posix_model::Wait;
use rv_exec::{Event, Memory, Regs, exec};
use std::alloc::Global;
use std::marker::Model;
use thread_base::{Action, NoMemory, Policy, Prio, Sig, SigSet, Tid};
use thread_signals::Signals;
use thread_table::{Row, Threads};
use time_queue::TimeQueue;

/// All that is kept of a thread, but for its frames.
#[derive(Clone, Copy, Debug)]
pub struct ThreadRecord {
    pub row: Row,
    pub activity: Activity,
    pub mask: SigSet,
    pub regs: Regs,
}

impl ThreadRecord {
    /// The wait of the thread; None exactly where it does not wait.
    pub fn wait(self) -> Option<Wait>
        ensures { result ≡ wait_of (standing_in self) }
    {
        match self.row.ended {
            Some(_) => None,
            None => self.activity.wait,
        }
    }

    /// The time at which the thread's wait ends by itself; None exactly where there is none.
    fn deadline(self) -> Option<u64>
        ensures { result ≡ deadline_by (wait_of (standing_in self)) }
    {
        match self.wait() {
            Some(Wait::Cond { deadline, .. }) => deadline,
            Some(Wait::Sleep { until }) => Some(until),
            _ => None,
        }
    }

    /// The set of signals that the thread waits for; None exactly where it waits for none.
    fn awaited(&self) -> Option<SigSet>
        ensures { result ≡ set_at (target (standing_in self.now)) }
    {
        if self.row.ended.is_some() {
            return None;
        }
        match self.activity.wait {
            Some(wait) => wait.awaited(),
            None => None,
        }
    }

    /// Whether the thread, which has so many frames, may take signals.
    fn may_take(&self, depth: u32) -> bool
        ensures { (frames : List MachineFrame) → depth ≡ length frames → result ≡ may_take (thread_in self.now frames) }
    {
        if self.row.ended.is_some() || depth >= 32 {
            return false;
        }
        match self.activity.wait {
            Some(wait) => !wait.takes_back(),
            None => true,
        }
    }
}

/// What is kept of each thread: its row, its wait and exit, its frames and registers, its mask with what signals
/// need of it, and its deadline; and for the process what pends and the actions of signals. Clauses see the machine's threads by
/// `threads_in`, and by `pending_in` and `actions_in` what pends and the actions.
#[derive(Drop)]
pub struct Records {
    rows: Threads,
    activities: Activities,
    frames: Frames,
    signals: Signals,
    deadlines: TimeQueue,
    regs: Regs,
    placed: Tid,
}

impl Model for Records {
    ghost use Rattle.kernel_state.specs.Records.{RecordsState, AreCached};

    ghost Value = { RecordsState };

    ghost view = { λ r. record { rows = r.rows; activities = r.activities; frames = r.frames; signals = r.signals; deadlines = r.deadlines; regs = r.regs; placed = r.placed } };

    ghost invariant = { λ r. AreCached (record { rows = r.rows; activities = r.activities; frames = r.frames; signals = r.signals; deadlines = r.deadlines; regs = r.regs; placed = r.placed }) };
}

#[tactic(auto, unfolding(crate::specs::Records::pending_in, crate::specs::Records::actions_in))]
impl Records {
    /// Thread 1 alone, which is ready and stands at these registers. NoMemory comes only where memory ran out; no later
    /// call takes any.
    pub fn new(alloc: Global, regs: Regs) -> Result<Records, NoMemory>
        ensures threads { IfOk result (λ r. threads_in r ≡ first_threads (registers_of regs)) }
        ensures pending { IfOk result (λ r. pending_in r ≡ none_pending) }
        ensures actions { IfOk result (λ r. actions_in r ≡ default_actions) }
        ensures placed { IfOk result (λ r. r.placed ≡ 1) }
    {
        let main = Tid::at(0);
        let frames = Frames::new(alloc)?;
        let mut rows = Threads::new();
        let _number = rows.make(first_row());
        let mut signals = Signals::new();
        signals.set_open(main, true);
        Ok(Records {
            rows,
            activities: Activities::new(),
            frames,
            signals,
            deadlines: TimeQueue::new(),
            regs,
            placed: main,
        })
    }

    /// The thread whose registers are in place.
    #[inline(always)]
    pub fn placed(&self) -> Tid
        ensures { result ≡ self.now.placed }
    {
        self.placed
    }

    /// The row of a thread; None exactly where there is none.
    pub fn row(&self, t: Tid) -> Option<Row>
        ensures { result ≡ rows_of self.now.rows t }
    {
        self.rows.row(t)
    }

    /// Whether some thread has not ended.
    pub fn live(&self) -> u32
        ensures { result ≡ live_count (rows_of self.now.rows) }
    {
        self.rows.live()
    }

    /// What is kept of a thread, but for its frames; None exactly where there is none.
    pub fn find(&self, t: Tid) -> Option<ThreadRecord>
        ensures thread { IfSome result (λ k. thread_in k (threads_in self.now t).frames ≡ threads_in self.now t) }
        ensures there { is_some result ≡ has_thread self.now t }
        ensures row { IfSome result (λ k. rows_of self.now.rows t ≡ Some k.row) }
        ensures activity { IfSome result (λ k. activities_of self.now.activities t ≡ k.activity) }
        ensures regs { IfSome result (λ k. contexts_of self.now t ≡ registers_of k.regs) }
    {
        match self.rows.row(t) {
            None => None,
            Some(row) => Some(ThreadRecord {
                row,
                activity: self.activities.activity(t),
                mask: self.signals.mask(t),
                regs: context(&self.frames, &self.regs, self.placed, t),
            }),
        }
    }

    /// Changes what is kept of a thread that is there, but for its frames; the others stay.
    pub fn put(&mut self, t: Tid, known: ThreadRecord)
        requires { has_thread self.old t ≡ true }
        ensures threads { threads_in self.new ≡ put (threads_in self.old) t (thread_in known (threads_in self.old t).frames) }
        ensures signals { SameSignals self.old self.new }
        ensures placed { self.new.placed ≡ self.old.placed }
        ensures rows { rows_of self.new.rows ≡ put (rows_of self.old.rows) t (Some known.row) }
    {
        self.rows.put(t, known.row);
        self.activities.put(t, known.activity);
        put_context(&mut self.frames, &mut self.regs, self.placed, t, known.regs);
        note(
            &mut self.signals,
            &mut self.deadlines,
            t,
            &known,
            self.frames.depth(t),
        );
    }

    /// Keeps a new thread, of the least number that is free; it has no frame.
    pub fn add(&mut self, t: Tid, known: ThreadRecord)
        requires { free_row (rows_of self.old.rows) ≡ Some t }
        ensures threads { threads_in self.new ≡ put (threads_in self.old) t (thread_in known []) }
        ensures signals { SameSignals self.old self.new }
        ensures placed { self.new.placed ≡ self.old.placed }
        ensures rows { rows_of self.new.rows ≡ put (rows_of self.old.rows) t (Some known.row) }
    {
        let _number = self.rows.make(known.row);
        self.activities.put(t, known.activity);
        self.frames.drop_all(t);
        put_context(&mut self.frames, &mut self.regs, self.placed, t, known.regs);
        note(&mut self.signals, &mut self.deadlines, t, &known, 0);
    }

    /// Keeps nothing more of a thread that is there: its number is free.
    pub fn remove(&mut self, t: Tid)
        requires { has_thread self.old t ≡ true }
        ensures threads { threads_in self.new ≡ put (threads_in self.old) t no_thread }
        ensures signals { SameSignals self.old self.new }
        ensures placed { self.new.placed ≡ self.old.placed }
        ensures rows { rows_of self.new.rows ≡ put (rows_of self.old.rows) t None }
    {
        self.rows.free(t);
        self.signals.set_wait(t, None);
        self.signals.set_open(t, false);
        self.deadlines.cancel(t);
    }

    /// Pushes a frame with the registers and the mask of a thread that is there and has fewer than 32, and gives the
    /// thread others.
    pub fn enter(&mut self, t: Tid, kind: FrameKind, regs: Regs, mask: SigSet)
        requires there { has_thread self.old t ≡ true }
        requires room { length (threads_in self.old t).frames < 32 }
        ensures threads { threads_in self.new ≡ put (threads_in self.old) t (entered (threads_in self.old t) kind (registers_of regs) mask) }
        ensures signals { SameSignals self.old self.new }
        ensures placed { self.new.placed ≡ self.old.placed }
        ensures rows { rows_of self.new.rows ≡ rows_of self.old.rows }
    {
        let mut known = self.known(t);
        let frame = Frame {
            regs: known.regs,
            mask: known.mask,
            kind,
        };
        known.regs = regs;
        known.mask = mask;
        let _room = self.frames.push(t, frame);
        put_context(&mut self.frames, &mut self.regs, self.placed, t, known.regs);
        note(
            &mut self.signals,
            &mut self.deadlines,
            t,
            &known,
            self.frames.depth(t),
        );
    }

    /// Takes the last frame of a thread off that is there and has one: its registers are back, and those of a handler's
    /// frame with its mask.
    pub fn leave(&mut self, t: Tid)
        requires there { has_thread self.old t ≡ true }
        ensures threads { threads_in self.new ≡ put (threads_in self.old) t (left (threads_in self.old t)) }
        ensures signals { SameSignals self.old self.new }
        ensures placed { self.new.placed ≡ self.old.placed }
        ensures rows { rows_of self.new.rows ≡ rows_of self.old.rows }
    {
        let mut known = self.known(t);
        let Some(frame) = self.frames.pop(t) else {
            return;
        };
        known.mask = mask_after(&frame, known.mask);
        known.regs = frame.regs;
        put_context(&mut self.frames, &mut self.regs, self.placed, t, known.regs);
        note(
            &mut self.signals,
            &mut self.deadlines,
            t,
            &known,
            self.frames.depth(t),
        );
    }

    /// Changes what is kept of a thread that is there, and drops all its frames; the others stay.
    pub fn put_bare(&mut self, t: Tid, known: ThreadRecord)
        requires { has_thread self.old t ≡ true }
        ensures threads { threads_in self.new ≡ put (threads_in self.old) t (thread_in known []) }
        ensures signals { SameSignals self.old self.new }
        ensures placed { self.new.placed ≡ self.old.placed }
        ensures rows { rows_of self.new.rows ≡ put (rows_of self.old.rows) t (Some known.row) }
    {
        self.rows.put(t, known.row);
        self.activities.put(t, known.activity);
        self.frames.drop_all(t);
        put_context(&mut self.frames, &mut self.regs, self.placed, t, known.regs);
        note(&mut self.signals, &mut self.deadlines, t, &known, 0);
    }

    /// What is kept of a thread that is there, but for its frames.
    fn known(&self, t: Tid) -> ThreadRecord
        requires { has_thread self.now t ≡ true }
        ensures thread { thread_in result (threads_in self.now t).frames ≡ threads_in self.now t }
        ensures row { rows_of self.now.rows t ≡ Some result.row }
        ensures activity { activities_of self.now.activities t ≡ result.activity }
        ensures regs { contexts_of self.now t ≡ registers_of result.regs }
    {
        match self.find(t) {
            Some(known) => known,
            None => unreachable!(),
        }
    }

    /// What the last frame of a thread is for; None exactly where it has none or is not there.
    pub fn top(&self, t: Tid) -> Option<FrameKind>
        ensures { has_thread self.now t ≡ true → result ≡ top_kind (threads_in self.now t).frames }
    {
        self.frames.top(t)
    }

    /// How many frames a thread has; nothing is said where it is not there.
    pub fn depth(&self, t: Tid) -> u32
        ensures { has_thread self.now t ≡ true → result ≡ length (threads_in self.now t).frames }
    {
        self.frames.depth(t)
    }

    /// Whether a thread is free for a signal: it may take signals and does not block this one.
    pub fn is_free_for(&self, t: Tid, s: Sig) -> bool
        ensures { result ≡ free_in self.now t s }
    {
        match self.find(t) {
            None => false,
            Some(known) => known.may_take(self.depth(t)) && !known.mask.has(s),
        }
    }

    /// Puts the registers of a thread in place, and saves those that were there; the threads stay.
    pub fn place(&mut self, t: Tid)
        ensures threads { threads_in self.new ≡ threads_in self.old }
        ensures signals { SameSignals self.old self.new }
        ensures placed { self.new.placed ≡ t }
        ensures rows { rows_of self.new.rows ≡ rows_of self.old.rows }
    {
        let regs = context(&self.frames, &self.regs, self.placed, t);
        self.frames.save(self.placed, Saved::User(self.regs));
        self.regs = regs;
        self.placed = t;
    }

    /// Makes one instruction of the thread whose registers are in place, up to what its event asks for.
    #[inline(always)]
    pub fn execute(&mut self, memory: &mut Memory) -> Event
        ensures effect { HasEffect (effect self.old.regs.pc self.old.regs.x memory.old) result
            self.old.regs.pc self.old.regs.x memory.old self.new.regs.pc self.new.regs.x memory.new }
        ensures others { self.new ≡ record self.old { regs = self.new.regs } }
    {
        exec(&mut self.regs, memory)
    }

    /// The lowest thread from a number on whose wait ends by itself at a time or before it, if there is one.
    pub fn due_from(&self, number: u32, time: u64) -> Option<Tid>
        ensures { result ≡ find (λ t. has_come time (deadline_by (wait_of (threads_in self.now t).standing))) (range_with_len number (65 - number)) }
    {
        self.deadlines.due_from(number, time)
    }

    /// What a signal does to the process.
    #[tactic(auto, unfolding(crate::specs::Records::actions_in))]
    pub fn action(&self, s: Sig) -> Action
        ensures { result ≡ actions_in self.now s }
    {
        self.signals.action(s)
    }

    /// How often a signal pends on a thread, or on the process.
    #[tactic(auto, unfolding(crate::specs::Records::pending_in))]
    pub fn count(&self, t: Option<Tid>, s: Sig) -> u64
        ensures { result ≡ pending_in self.now (place_of t) s }
    {
        self.signals.count(t, s)
    }

    /// Adds to how often a signal pends on a thread, or on the process.
    #[tactic(auto, unfolding(crate::specs::Records::pending_in, crate::specs::Records::actions_in))]
    pub fn pend(&mut self, t: Option<Tid>, s: Sig, count: u64)
        requires { total (pending_in self.old) + count < 2 ^ 63 }
        ensures threads { threads_in self.new ≡ threads_in self.old }
        ensures pending { pending_in self.new ≡ put_count (pending_in self.old) (place_of t) s (pending_in self.old (place_of t) s + count) }
        ensures actions { actions_in self.new ≡ actions_in self.old }
        ensures others { self.new ≡ record self.old { signals = self.new.signals } }
    {
        self.signals.pend(t, s, count);
    }

    /// Takes a signal away from a thread, or from the process, and answers how often it pended there.
    #[tactic(auto, unfolding(crate::specs::Records::pending_in, crate::specs::Records::actions_in))]
    pub fn take(&mut self, t: Option<Tid>, s: Sig) -> u64
        ensures count { result ≡ pending_in self.old (place_of t) s }
        ensures threads { threads_in self.new ≡ threads_in self.old }
        ensures pending { pending_in self.new ≡ put_count (pending_in self.old) (place_of t) s 0 }
        ensures actions { actions_in self.new ≡ actions_in self.old }
        ensures others { self.new ≡ record self.old { signals = self.new.signals } }
    {
        self.signals.take(t, s)
    }

    /// Gives a signal another action, and answers how many of it are dropped with that.
    #[tactic(auto, unfolding(crate::specs::Records::pending_in, crate::specs::Records::actions_in))]
    pub fn set_action(&mut self, s: Sig, a: Action) -> u64
        ensures dropped { result ≡ (if ignores a s then all_of (pending_in self.old) s else 0) }
        ensures threads { threads_in self.new ≡ threads_in self.old }
        ensures pending { pending_in self.new ≡ (if ignores a s then without_signal (pending_in self.old) s else pending_in self.old) }
        ensures actions { actions_in self.new ≡ put (actions_in self.old) s a }
        ensures others { self.new ≡ record self.old { signals = self.new.signals } }
    {
        self.signals.set_action(s, a)
    }

    /// Whether nothing pends anywhere; then no signal is delivered.
    pub fn is_calm(&self) -> bool
        ensures { result ≡ true → (key : ℕ → ℕ) → next_signal self.now key ≡ None }
    {
        self.signals.is_calm()
    }

    /// The least signal from a number on, at most 32, that pends on a thread, or under None on the process; None exactly
    /// where none of them pends there.
    #[tactic(auto, unfolding(crate::specs::Records::pending_in))]
    pub fn next_pending(&self, t: Option<Tid>, from: u32) -> Option<Sig>
        requires { from ≤ 32 }
        ensures least { result ≡ find (λ sig. nat_lt 0 (pending_in self.now (place_of t) sig)) (range_with_len from (32 - from)) }
        ensures none { IsNone result → (sig : ℕ) → from ≤ sig → pending_in self.now (place_of t) sig ≡ 0 }
    {
        self.signals.next_pending(t, from)
    }

    /// The signals that pend on a thread or on the process, but for KILL, which no set has.
    #[tactic(auto, unfolding(crate::specs::Records::pending_in))]
    pub fn pending_set(&self, t: Tid) -> SigSet
        ensures { (sig : ℕ) → has_signal result sig ≡ (is_pending (pending_in self.now) t sig && can_block sig) }
    {
        self.signals.pending(t)
    }

    /// The lowest signal of a set that pends on a thread or on the process; None exactly where none of the set pends there.
    #[tactic(auto, unfolding(crate::specs::Records::pending_in))]
    pub fn lowest_pending(&self, t: Tid, set: SigSet) -> Option<Sig>
        ensures { result ≡ find (λ sig. is_pending (pending_in self.now) t sig && has_signal set sig) signals }
    {
        self.signals.lowest_pending(t, set)
    }

    /// How often each signal pends in all places, by its number.
    #[tactic(auto, unfolding(crate::specs::Records::pending_in))]
    pub fn left(&self) -> [u64; 32]
        ensures { result ≡ map (all_of (pending_in self.now)) (range_with_len 0 32) }
    {
        self.signals.left()
    }

    /// The next delivery of a signal by the priorities of the threads: who gets it, the signal, and whether it pends on the
    /// process; None exactly where no signal is delivered.
    pub fn next_signal(&self, eff: &[u8; 64]) -> Option<(Tid, Sig, bool)>
        ensures next { (key : ℕ → ℕ) → ((t : ℕ) → IsTid t → numbered 0 eff.now t ≡ key t) → result ≡ next_signal self.now key }
    {
        self.signals.next_delivery(eff)
    }
}

/// The context of a thread: the registers in place, or those that were saved.
fn context(frames: &Frames, regs: &Regs, placed: Tid, t: Tid) -> Regs
    ensures { registers_of result ≡ put (λ u. context_of (saved_of frames.now u)) placed (registers_of regs.now) t }
{
    if t.number() == placed.number() {
        return *regs;
    }
    saved_regs(frames.saved(t))
}

/// Gives a thread another context; those of the others stay, and all frames.
fn put_context(frames: &mut Frames, regs: &mut Regs, placed: Tid, t: Tid, new: Regs)
    ensures contexts { put (λ u. context_of (saved_of frames.new u)) placed (registers_of regs.new)
        ≡ put (put (λ u. context_of (saved_of frames.old u)) placed (registers_of regs.old)) t (registers_of new) }
    ensures frames { stack_of frames.new ≡ stack_of frames.old }
{
    if t.number() == placed.number() {
        *regs = new;
    } else {
        frames.save(t, Saved::User(new));
    }
}

/// The registers of a context.
fn saved_regs(saved: Saved) -> Regs
    ensures { registers_of result ≡ context_of saved }
{
    match saved {
        Saved::User(regs) => regs,
        Saved::Tail(regs, _) => regs,
        Saved::Fresh(regs) => regs,
    }
}

/// The row of thread 1: policy OTHER, priority 8, and it can be joined.
fn first_row() -> Row
    ensures { result ≡ main_row }
{
    Row {
        base: first_priority(),
        policy: Policy::Other,
        used: 0,
        detached: false,
        joiner: None,
        ended: None,
    }
}

/// The priority of thread 1.
fn first_priority() -> Prio
    ensures { result ≡ 8 }
{
    Prio::new(8).unwrap()
}

/// Sets what is kept apart of a thread: for signals its mask, what it waits for, and whether it may take signals, with so
/// many frames; and its deadline.
fn note(signals: &mut Signals, deadlines: &mut TimeQueue, t: Tid, known: &ThreadRecord, depth: u32)
    ensures masks { (state_of signals.new).masks ≡ put (state_of signals.old).masks t known.now.mask }
    ensures waits { (state_of signals.new).waits ≡ put (state_of signals.old).waits t (set_at (target (standing_in known.now))) }
    ensures is_open { (frames : List MachineFrame) → depth ≡ length frames → (state_of signals.new).is_open ≡ put (state_of signals.old).is_open t (may_take (thread_in known.now frames)) }
    ensures deadlines { deadlines_of deadlines.new ≡ put (deadlines_of deadlines.old) t (deadline_by (wait_of (standing_in known.now))) }
    ensures counts { (state_of signals.new).counts ≡ (state_of signals.old).counts }
    ensures actions { (state_of signals.new).actions ≡ (state_of signals.old).actions }
{
    signals.set_mask(t, known.mask);
    signals.set_wait(t, known.awaited());
    signals.set_open(t, known.may_take(depth));
    match known.deadline() {
        Some(until) => deadlines.set(t, until),
        None => deadlines.cancel(t),
    }
}

/// The mask after a frame was taken off: that of a handler's frame is back.
fn mask_after(frame: &Frame, mask: SigSet) -> SigSet
    ensures { result ≡ (if is_of_handler frame.now.kind then frame.now.mask else mask) }
{
    match frame.kind {
        FrameKind::Handler => frame.mask,
        FrameKind::Cleanup => mask,
    }
}
