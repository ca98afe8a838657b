ghost use Rattle.std.specs.Prelude.{◌≡◌, ◌+◌, ℕ, [], true, false, Some};
ghost use Rattle.thread_base.specs.Orders.{is_in};
ghost use Rattle.posix_model.specs.State.{Waits, none_pending, is_live};
ghost use Rattle.posix_model.specs.Scheduling.{own};
ghost use Rattle.posix_model.specs.Threads.{exists};
ghost use Rattle.posix_model.specs.Changes.{answered as answered_of, set_thread, append, with_reply, with_answer, in_exit, canceled, go_on as gone_on};
ghost use Rattle.posix_model.specs.Leaving.{over_with_last, without_thread, plus_each, with_end};
ghost use Rattle.kernel_state.specs.Records.{thread_in, registers_of};
ghost use Rattle.kernel_state.specs.View.{view, outcome, StayCurrent};
ghost use Rattle.kernel_state.specs.Changing.{begun_thread, remains_of, handler_registers, change_by, thread_change_by, Can, CanThread, IsListed, HasNoMutex};

use crate::activity::Activity;
use crate::change::{Beginning, Change, ThreadChange};
use crate::records::ThreadRecord;
use crate::tables::Tables;
use context_frames::FrameKind;
use posix_model::{Ending, Report, RetakeReply, Wait};
use ready_queues::Ready;
use rv_exec::{CLEANUP_RETURN, HANDLER_RETURN, Regs, START_RETURN};
use thread_base::{Policy, Prio, Sig, SigSet, Tid};
use thread_table::Row;

/// The value with which a cancelled thread exits (POSIX.1 PTHREAD_CANCELED).
const CANCELED: u32 = 0xffff_ffff;

impl<R: Ready + Drop> Tables<R> {
    /// The base priority of a thread that is there.
    fn base(&self, t: Tid) -> Prio
        requires { exists (view R.order self.now) t ≡ true }
        ensures { result ≡ own (view R.order self.now) t }
    {
        self.known(t).row.base
    }

    /// Answers the caller of a call, which goes on after it.
    #[tactic(auto, unfolding(crate::specs::View::outcome))]
    fn reply(&mut self, t: Tid, error: u32, value: u32)
        requires { CanThread (ThreadChange.Reply error value) t (view R.order self.old) }
        ensures outcome { outcome R.order self.new ≡ thread_change_by (ThreadChange.Reply error value) t (outcome R.order self.old) }
        ensures current { StayCurrent R.order R.prio self.old self.new }
    {
        let mut known = self.known(t);
        known.regs = answered(known.regs, error, value);
        self.put_record(t, known);
    }

    /// Puts a ready thread after the others, and its turn begins.
    #[tactic(auto, unfolding(crate::specs::View::outcome))]
    fn to_end(&mut self, t: Tid)
        requires { CanThread ThreadChange.ToEnd t (view R.order self.old) }
        ensures outcome { outcome R.order self.new ≡ thread_change_by ThreadChange.ToEnd t (outcome R.order self.old) }
        ensures current { StayCurrent R.order R.prio self.old self.new }
    {
        let mut known = self.known(t);
        known.row.used = 0;
        self.put_record(t, known);
        self.put_last(t);
    }

    /// Starts the exit of a thread, or gives it a new value; its frames are dropped.
    #[tactic(auto, unfolding(crate::specs::View::outcome))]
    fn start_exit(&mut self, t: Tid, value: u32)
        requires { CanThread (ThreadChange.StartExit value) t (view R.order self.old) }
        ensures outcome { outcome R.order self.new ≡ thread_change_by (ThreadChange.StartExit value) t (outcome R.order self.old) }
        ensures current { StayCurrent R.order R.prio self.old self.new }
    {
        let mut known = self.known(t);
        known.activity.leaving = Some(value);
        known.regs.pc = CLEANUP_RETURN;
        self.put_bare(t, known);
    }

    /// Lets a ready thread wait.
    #[tactic(auto, unfolding(crate::specs::View::outcome))]
    fn await_on(&mut self, t: Tid, wait: Wait)
        requires { CanThread (ThreadChange.Await wait) t (view R.order self.old) }
        ensures outcome { outcome R.order self.new ≡ thread_change_by (ThreadChange.Await wait) t (outcome R.order self.old) }
        ensures current { StayCurrent R.order R.prio self.old self.new }
    {
        let mut known = self.known(t);
        known.activity.wait = Some(wait);
        self.put_record(t, known);
        self.take_out(t);
    }

    /// Answers a waiting thread in its registers, and puts it after those that are ready.
    fn wake(&mut self, t: Tid, error: u32, value: u32)
        requires away { is_in t (view R.order self.old).ready ≡ false }
        requires live { is_live ((view R.order self.old).threads t).standing ≡ true }
        ensures view { view R.order self.new ≡ append (view R.order self.old) t (with_reply ((view R.order self.old).threads t) error value) }
        ensures report { self.new.report ≡ self.old.report }
        ensures current { StayCurrent R.order R.prio self.old self.new }
    {
        let base = self.base(t);
        let mut known = self.known(t);
        known.row.used = 0;
        known.activity.wait = None;
        known.regs = answered(known.regs, error, value);
        self.put_record(t, known);
        self.append(t, base);
    }

    /// Starts the exit of a waiting thread that was cancelled, which becomes ready.
    fn cancel(&mut self, t: Tid)
        requires away { is_in t (view R.order self.old).ready ≡ false }
        requires live { is_live ((view R.order self.old).threads t).standing ≡ true }
        ensures view { view R.order self.new ≡ append (view R.order self.old) t (in_exit ((view R.order self.old).threads t) canceled) }
        ensures report { self.new.report ≡ self.old.report }
        ensures current { StayCurrent R.order R.prio self.old self.new }
    {
        let base = self.base(t);
        let mut known = self.known(t);
        known.row.used = 0;
        known.activity = Activity {
            wait: None,
            leaving: Some(CANCELED),
        };
        known.regs.pc = CLEANUP_RETURN;
        self.put_bare(t, known);
        self.append(t, base);
    }

    /// Lets a waiting thread go on that has its mutex back: it is answered, or starts its exit.
    #[tactic(auto, unfolding(crate::specs::View::outcome))]
    pub(crate) fn go_on(&mut self, t: Tid, reply: RetakeReply)
        requires away { is_in t (view R.order self.old).ready ≡ false }
        requires live { is_live ((view R.order self.old).threads t).standing ≡ true }
        ensures outcome { outcome R.order self.new ≡ gone_on (outcome R.order self.old) t reply }
        ensures current { StayCurrent R.order R.prio self.old self.new }
    {
        match reply {
            RetakeReply::Answer(error) => self.answer(t, error, 0),
            RetakeReply::Cancel => self.cancel(t),
        }
    }

    /// Lets a waiting thread wait for something else.
    pub(crate) fn wait_for(&mut self, t: Tid, wait: Wait)
        requires { is_live ((view R.order self.old).threads t).standing ≡ true }
        ensures view { view R.order self.new ≡ set_thread (view R.order self.old) t (record ((view R.order self.old).threads t) { standing = Waits wait }) }
        ensures report { self.new.report ≡ self.old.report }
        ensures current { StayCurrent R.order R.prio self.old self.new }
    {
        let mut known = self.known(t);
        known.activity.wait = Some(wait);
        self.put_record(t, known);
    }

    /// Answers a waiting thread, which becomes ready.
    #[tactic(auto, unfolding(crate::specs::View::outcome, crate::specs::View::view))]
    fn answer(&mut self, t: Tid, error: u32, value: u32)
        requires { CanThread (ThreadChange.Answer error value) t (view R.order self.old) }
        ensures outcome { outcome R.order self.new ≡ thread_change_by (ThreadChange.Answer error value) t (outcome R.order self.old) }
        ensures current { StayCurrent R.order R.prio self.old self.new }
    {
        self.wake(t, error, value);
        tell_answer(&mut self.report, t, error, value);
    }

    /// Makes a new thread, which is ready after the others.
    #[tactic(auto, unfolding(crate::specs::View::outcome))]
    fn create(&mut self, t: Tid, beginning: Beginning)
        requires { CanThread (ThreadChange.Create beginning) t (view R.order self.old) }
        ensures outcome { outcome R.order self.new ≡ thread_change_by (ThreadChange.Create beginning) t (outcome R.order self.old) }
        ensures current { StayCurrent R.order R.prio self.old self.new }
    {
        let base = beginning.base;
        self.add_record(t, first_record(beginning));
        self.append(t, base);
    }

    /// Makes a waiting thread ready without an answer: it makes its call again.
    #[tactic(auto, unfolding(crate::specs::View::outcome))]
    fn resume(&mut self, t: Tid)
        requires { CanThread ThreadChange.Resume t (view R.order self.old) }
        ensures outcome { outcome R.order self.new ≡ thread_change_by ThreadChange.Resume t (outcome R.order self.old) }
        ensures current { StayCurrent R.order R.prio self.old self.new }
    {
        let base = self.base(t);
        let mut known = self.known(t);
        known.row.used = 0;
        known.activity.wait = None;
        self.put_record(t, known);
        self.append(t, base);
    }

    /// Lets a thread block the signals of another mask.
    #[tactic(auto, unfolding(crate::specs::View::outcome))]
    fn block(&mut self, t: Tid, mask: SigSet)
        requires { CanThread (ThreadChange.Block mask) t (view R.order self.old) }
        ensures outcome { outcome R.order self.new ≡ thread_change_by (ThreadChange.Block mask) t (outcome R.order self.old) }
        ensures current { StayCurrent R.order R.prio self.old self.new }
    {
        let mut known = self.known(t);
        known.mask = mask;
        self.put_record(t, known);
    }

    /// Lets a thread enter the handler of a signal.
    #[tactic(auto, unfolding(crate::specs::View::outcome))]
    fn handle(&mut self, t: Tid, signal: Sig, at: u32, mask: SigSet)
        requires { CanThread (ThreadChange.Handle signal at mask) t (view R.order self.old) }
        ensures outcome { outcome R.order self.new ≡ thread_change_by (ThreadChange.Handle signal at mask) t (outcome R.order self.old) }
        ensures current { StayCurrent R.order R.prio self.old self.new }
    {
        let known = self.known(t);
        let regs = at_handler(known.regs, signal, at);
        let blocked = known.mask.union(mask.with(signal));
        self.enter(t, FrameKind::Handler, regs, blocked);
    }

    /// Lets a thread go back to its last frame.
    #[tactic(auto, unfolding(crate::specs::View::outcome))]
    fn go_back(&mut self, t: Tid)
        requires { CanThread ThreadChange.GoBack t (view R.order self.old) }
        ensures outcome { outcome R.order self.new ≡ thread_change_by ThreadChange.GoBack t (outcome R.order self.old) }
        ensures current { StayCurrent R.order R.prio self.old self.new }
    {
        self.leave_frame(t);
    }

    /// Gives a thread another base priority and policy, and its turn begins; a ready one goes after the others.
    #[tactic(auto, unfolding(crate::specs::View::outcome))]
    fn schedule(&mut self, t: Tid, policy: Policy, base: Prio)
        requires { CanThread (ThreadChange.Schedule policy base) t (view R.order self.old) }
        ensures outcome { outcome R.order self.new ≡ thread_change_by (ThreadChange.Schedule policy base) t (outcome R.order self.old) }
        ensures current { StayCurrent R.order R.prio self.old self.new }
    {
        let mut known = self.known(t);
        known.row.base = base;
        known.row.policy = policy;
        known.row.used = 0;
        if self.is_listed(t) {
            self.put_anew(t, known, base);
        } else {
            self.put_away(t, known);
        }
    }

    /// Charges a tick to a thread: one more of its turn is used.
    #[tactic(auto, unfolding(crate::specs::View::outcome))]
    fn charge(&mut self, t: Tid)
        requires { CanThread ThreadChange.Charge t (view R.order self.old) }
        ensures outcome { outcome R.order self.new ≡ thread_change_by ThreadChange.Charge t (outcome R.order self.old) }
        ensures current { StayCurrent R.order R.prio self.old self.new }
    {
        let mut known = self.known(t);
        known.row.used += 1;
        self.put_record(t, known);
    }

    /// Detaches a thread.
    #[tactic(auto, unfolding(crate::specs::View::outcome))]
    fn detach(&mut self, t: Tid)
        requires { CanThread ThreadChange.Detach t (view R.order self.old) }
        ensures outcome { outcome R.order self.new ≡ thread_change_by ThreadChange.Detach t (outcome R.order self.old) }
        ensures current { StayCurrent R.order R.prio self.old self.new }
    {
        let mut known = self.known(t);
        known.row.detached = true;
        self.put_record(t, known);
    }

    /// Frees the number of a thread that has ended.
    #[tactic(auto, unfolding(crate::specs::View::outcome))]
    fn free(&mut self, t: Tid)
        requires { CanThread ThreadChange.Free t (view R.order self.old) }
        ensures outcome { outcome R.order self.new ≡ thread_change_by ThreadChange.Free t (outcome R.order self.old) }
        ensures current { StayCurrent R.order R.prio self.old self.new }
    {
        self.remove_record(t);
    }

    /// What is left of a thread that ends: its value, where nobody has got it and somebody may.
    fn leave(&mut self, t: Tid, value: u32, joined: bool)
        requires there { exists (view R.order self.old) t ≡ true }
        requires away { is_in t (view R.order self.old).ready ≡ false }
        ensures view { view R.order self.new ≡ set_thread (view R.order self.old) t (remains_of ((view R.order self.old).threads t) value joined) }
        ensures report { self.new.report ≡ self.old.report }
        ensures current { StayCurrent R.order R.prio self.old self.new }
    {
        let mut known = self.known(t);
        if joined || known.row.detached {
            self.remove_record(t);
        } else {
            known.row.ended = Some(value);
            self.put_record(t, known);
        }
    }

    /// Ends the process with 0 where no thread is left that has not ended.
    fn end_with_last(&mut self)
        ensures view { view R.order self.new ≡ over_with_last (view R.order self.old) }
        ensures report { self.new.report ≡ self.old.report }
        ensures current { StayCurrent R.order R.prio self.old self.new }
    {
        if !self.some_live() {
            self.over = Some(Ending::Exit(0));
        }
    }

    /// Takes a thread that ends out of the ready list, and ends the process with the last one.
    fn leave_list(&mut self, t: Tid, value: u32, joined: bool)
        requires listed { IsListed (view R.order self.old) t }
        requires calm { (sig : ℕ) → (view R.order self.old).pending t sig ≡ 0 }
        requires unheld { HasNoMutex (view R.order self.old) t }
        ensures view { view R.order self.new ≡ over_with_last (without_thread (view R.order self.old) t (remains_of ((view R.order self.old).threads t) value joined)) }
        ensures report { self.new.report ≡ self.old.report }
        ensures current { StayCurrent R.order R.prio self.old self.new }
    {
        self.take_out(t);
        self.leave(t, value, joined);
        self.end_with_last();
    }

    /// Ends a thread with a value, which its joiner has got, where it was joined; nothing pends on it any more.
    #[tactic(auto, unfolding(crate::specs::View::outcome, crate::specs::View::view))]
    fn end(&mut self, t: Tid, value: u32, joined: bool)
        requires { CanThread (ThreadChange.End value joined) t (view R.order self.old) }
        ensures outcome { outcome R.order self.new ≡ thread_change_by (ThreadChange.End value joined) t (outcome R.order self.old) }
        ensures current { StayCurrent R.order R.prio self.old self.new }
    {
        self.leave_list(t, value, joined);
        tell_end(&mut self.report, value);
    }

    /// Makes a change of one thread and of its place in the ready list.
    fn change_thread(&mut self, t: Tid, change: ThreadChange)
        requires { CanThread change t (view R.order self.old) }
        ensures outcome { outcome R.order self.new ≡ thread_change_by change t (outcome R.order self.old) }
        ensures current { StayCurrent R.order R.prio self.old self.new }
    {
        match change {
            ThreadChange::Reply { error, value } => self.reply(t, error, value),
            ThreadChange::ToEnd => self.to_end(t),
            ThreadChange::Create { beginning } => self.create(t, beginning),
            ThreadChange::StartExit { value } => self.start_exit(t, value),
            ThreadChange::Await { wait } => self.await_on(t, wait),
            ThreadChange::Answer { error, value } => self.answer(t, error, value),
            ThreadChange::Resume => self.resume(t),
            ThreadChange::Block { mask } => self.block(t, mask),
            ThreadChange::Handle { signal, at, mask } => self.handle(t, signal, at, mask),
            ThreadChange::GoBack => self.go_back(t),
            ThreadChange::Schedule { policy, base } => self.schedule(t, policy, base),
            ThreadChange::Charge => self.charge(t),
            ThreadChange::Detach => self.detach(t),
            ThreadChange::Free => self.free(t),
            ThreadChange::End { value, joined } => self.end(t, value, joined),
        }
    }

    /// Tells that so many bytes of a buffer were written to a descriptor.
    #[tactic(auto, unfolding(crate::specs::View::outcome, crate::specs::View::view))]
    fn output(&mut self, descriptor: u32, buffer: u32, length: u32)
        ensures outcome { outcome R.order self.new ≡ change_by (Change.Output descriptor buffer length) (outcome R.order self.old) }
        ensures current { StayCurrent R.order R.prio self.old self.new }
    {
        self.report.out_fd = descriptor;
        self.report.out_buf = buffer;
        self.report.out_len = length;
    }

    /// Ends the process.
    #[tactic(auto, unfolding(crate::specs::View::outcome, crate::specs::View::view), using(crate::proofs::CurrentLemmas::alike))]
    fn finish(&mut self, ending: Ending)
        ensures outcome { outcome R.order self.new ≡ change_by (Change.Over ending) (outcome R.order self.old) }
        ensures current { StayCurrent R.order R.prio self.old self.new }
    {
        self.over = Some(ending);
    }

    /// Ends the process by a signal at once, and tells how often it came.
    #[tactic(auto, unfolding(crate::specs::View::outcome, crate::specs::View::view), using(crate::proofs::CurrentLemmas::alike))]
    fn kill(&mut self, signal: Sig, count: u64)
        ensures outcome { outcome R.order self.new ≡ change_by (Change.Kill signal count) (outcome R.order self.old) }
        ensures current { StayCurrent R.order R.prio self.old self.new }
    {
        self.over = Some(Ending::Killed(signal));
        self.report.took = 2;
        self.report.took_sig = signal.number();
        self.report.took_count = count;
    }

    /// Makes a small change. The priorities of the ready list stay those of its threads.
    #[tactic(auto, unfolding(crate::specs::View::outcome))]
    pub(crate) fn make(&mut self, change: Change)
        requires { Can change (outcome R.order self.old) }
        ensures outcome { outcome R.order self.new ≡ change_by change (outcome R.order self.old) }
        ensures current { StayCurrent R.order R.prio self.old self.new }
    {
        match change {
            Change::Thread { thread, change } => self.change_thread(thread, change),
            Change::Mutex { mutex, change } => self.change_mutex(mutex, change),
            Change::Condition { cond, change } => self.change_condition(cond, change),
            Change::Signal { signal, change } => self.change_signal(signal, change),
            Change::Clock { change } => self.change_clock(change),
            Change::Retake {
                thread,
                mutex,
                count,
                reply,
            } => self.retake(thread, mutex, count, reply),
            Change::Output {
                descriptor,
                buffer,
                length,
            } => self.output(descriptor, buffer, length),
            Change::Over { ending } => self.finish(ending),
            Change::Kill { signal, count } => self.kill(signal, count),
        }
    }
}

/// Tells that a waiting thread was answered.
fn tell_answer(report: &mut Report, t: Tid, error: u32, value: u32)
    ensures { report.new ≡ with_answer report.old t error value }
{
    report.done |= 1 << t.index();
    report.values[t.index()] = (error, value);
}

/// How many of each signal a move has dropped, where no more are dropped.
fn with_none(drops: &[u64; 32]) -> [u64; 32]
    ensures { result ≡ plus_each drops.now (none_pending 0) }
{
    *drops
}

/// Tells that a thread ended with a value, and that nothing was dropped with it.
fn tell_end(report: &mut Report, value: u32)
    ensures { report.new ≡ with_end report.old (none_pending 0) value }
{
    report.drops = with_none(&report.drops);
    report.gone = true;
    report.gone_value = value;
}

/// What the tables keep of a new thread.
fn first_record(beginning: Beginning) -> ThreadRecord
    ensures { thread_in result [] ≡ begun_thread beginning }
{
    let mut x = [0u32; 32];
    x[1] = START_RETURN;
    x[2] = beginning.stack;
    x[10] = beginning.argument;
    ThreadRecord {
        row: Row {
            base: beginning.base,
            policy: beginning.policy,
            used: 0,
            detached: beginning.detached,
            joiner: None,
            ended: None,
        },
        activity: Activity {
            wait: None,
            leaving: None,
        },
        mask: beginning.mask,
        regs: Regs {
            pc: beginning.routine,
            x,
        },
    }
}

/// The registers of a thread whose call is answered.
fn answered(mut regs: Regs, error: u32, value: u32) -> Regs
    ensures { registers_of result ≡ answered_of (registers_of regs) error value }
{
    let number = regs.x[17];
    regs.pc = regs.pc.wrapping_add(4);
    if number < 256 {
        regs.x[10] = if error == 0 {
            value
        } else {
            0u32.wrapping_sub(error)
        };
    } else {
        regs.x[10] = error;
        regs.x[11] = value;
    }
    regs
}

/// The registers of a thread at the handler of a signal: its number in a0 and 0 in a1, and sp without its low four bits.
fn at_handler(mut regs: Regs, signal: Sig, at: u32) -> Regs
    ensures { registers_of result ≡ handler_registers (registers_of regs) signal at }
{
    regs.pc = at;
    regs.x[10] = signal.number();
    regs.x[11] = 0;
    regs.x[1] = HANDLER_RETURN;
    regs.x[2] &= !15;
    regs
}
