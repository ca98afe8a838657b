ghost use Rattle.std.specs.Prelude.{◌≡◌, ◌≢◌, true, List, Some};
ghost use Rattle.posix_model.specs.State.{Frame};
ghost use Rattle.posix_model.specs.Threads.{exists, free_number, new_thread};
ghost use Rattle.kernel_state.specs.Changing.{begun_thread};
ghost use Rattle.posix_model.specs.Calls as calls;
ghost use Rattle.posix_model.specs.Calls.{cannot_start, values, row_of, thread_calls};
ghost use Rattle.posix_model.specs.Changes.{begun};
ghost use Rattle.kernel_state.specs.Records.{thread_in};
ghost use Rattle.kernel_state.specs.View.{view};
ghost use Rattle.kernel_state.specs.Begun.{CanNote, HasNotedSome};

use crate::scheduling::{get_schedule, set_schedule};
use kernel_state::{Beginning, Change, Kernel, ThreadChange, ThreadRecord};
use posix_model::{Arguments, Attributes, Ending, Reply, Wait};
use ready_queues::Ready;
use thread_base::{Errno, Tid};

/// Tells the caller's number, by POSIX.1 pthread_self.
pub(crate) fn self_number<R: Ready + Drop>(k: &mut Kernel<R>, t: Tid, c: Arguments) -> Reply
    requires { CanNote R.order k.old t }
    ensures noted { HasNotedSome R.order k.old k.new (calls.self_number (view R.order k.old.tables) t c).outcome }
    ensures reply { result ≡ (calls.self_number (view R.order k.old.tables) t c).reply }
{
    k.note_one(t, Change::reply(t, 0, t.number()));
    Reply::Values(0, t.number())
}

/// Puts the caller after the others, by POSIX.1 sched_yield.
#[tactic(auto, using(crate::proofs::StayLemmas::there_to_end))]
pub(crate) fn yield_turn<R: Ready + Drop>(k: &mut Kernel<R>, t: Tid, c: Arguments) -> Reply
    requires { CanNote R.order k.old t }
    ensures noted { HasNotedSome R.order k.old k.new (calls.yield (view R.order k.old.tables) t c).outcome }
    ensures reply { result ≡ (calls.yield (view R.order k.old.tables) t c).reply }
{
    let change = ThreadChange::ToEnd;
    k.note_two(
        t,
        Change::Thread { thread: t, change },
        Change::reply(t, 0, 0),
    );
    Reply::Values(0, 0)
}

/// Whether no thread can be made with a routine, a stack or attributes.
fn cannot_start(c: Arguments) -> bool
    ensures { result ≡ cannot_start c }
{
    c.a0 % 4 != 0 || c.a2 % 16 != 0 || !Attributes { word: c.a3 }.are_valid()
}

/// What a new thread begins with that a thread makes.
fn first_of(creator: ThreadRecord, c: Arguments) -> Beginning
    ensures { (frames : List Frame) → begun_thread result ≡ new_thread (thread_in creator frames) c }
{
    let attributes = Attributes { word: c.a3 };
    Beginning {
        base: attributes.base(creator.row.base),
        policy: attributes.policy(creator.row.policy),
        mask: creator.mask,
        detached: attributes.detached(),
        routine: c.a0,
        argument: c.a1,
        stack: c.a2,
    }
}

/// Makes a new thread, by POSIX.1 pthread_create.
pub(crate) fn create<R: Ready + Drop>(k: &mut Kernel<R>, t: Tid, c: Arguments) -> Reply
    requires { CanNote R.order k.old t }
    ensures noted { HasNotedSome R.order k.old k.new (calls.create (view R.order k.old.tables) t c).outcome }
    ensures reply { result ≡ (calls.create (view R.order k.old.tables) t c).reply }
{
    if cannot_start(c) {
        return k.refuse(t, Errno::EINVAL);
    }
    match k.tables().free_number() {
        None => k.refuse(t, Errno::EAGAIN),
        Some(u) => start(k, t, u, c),
    }
}

/// Starts the exit of the caller, by POSIX.1 pthread_exit.
pub(crate) fn exit_thread<R: Ready + Drop>(k: &mut Kernel<R>, t: Tid, c: Arguments) -> Reply
    requires { CanNote R.order k.old t }
    ensures noted { HasNotedSome R.order k.old k.new (calls.exit_thread (view R.order k.old.tables) t c).outcome }
    ensures reply { result ≡ (calls.exit_thread (view R.order k.old.tables) t c).reply }
{
    let change = ThreadChange::StartExit { value: c.a0 };
    k.note_one(t, Change::Thread { thread: t, change });
    Reply::Exit
}

/// Ends the process.
pub(crate) fn exit<R: Ready + Drop>(k: &mut Kernel<R>, t: Tid, c: Arguments) -> Reply
    requires { CanNote R.order k.old t }
    ensures noted { HasNotedSome R.order k.old k.new (calls.exit (view R.order k.old.tables) t c).outcome }
    ensures reply { result ≡ (calls.exit (view R.order k.old.tables) t c).reply }
{
    k.note_one(
        t,
        Change::Over {
            ending: Ending::Exit(c.a0 % 256),
        },
    );
    Reply::End
}

/// Makes a new thread of a number that is free.
#[tactic(auto, using(crate::proofs::StayLemmas::there_append))]
fn start<R: Ready + Drop>(k: &mut Kernel<R>, t: Tid, u: Tid, c: Arguments) -> Reply
    requires ready { CanNote R.order k.old t }
    requires free { free_number (view R.order k.old.tables) ≡ Some u }
    ensures noted { HasNotedSome R.order k.old k.new (calls.created (view R.order k.old.tables) t c (Some u)).outcome }
    ensures reply { result ≡ (calls.created (view R.order k.old.tables) t c (Some u)).reply }
{
    let creator = k.tables().known(t);
    let change = ThreadChange::Create {
        beginning: first_of(creator, c),
    };
    k.note_two(
        t,
        Change::Thread { thread: u, change },
        Change::reply(t, 0, u.number()),
    );
    Reply::Values(0, u.number())
}

/// Waits for the end of a thread, or takes its value, by POSIX.1 pthread_join.
pub(crate) fn join<R: Ready + Drop>(k: &mut Kernel<R>, t: Tid, c: Arguments) -> Reply
    requires { CanNote R.order k.old t }
    ensures noted { HasNotedSome R.order k.old k.new (calls.join (view R.order k.old.tables) t c).outcome }
    ensures reply { result ≡ (calls.join (view R.order k.old.tables) t c).reply }
{
    if c.a0 == t.number() {
        return k.refuse(t, Errno::EDEADLK);
    }
    let Some(u) = k.tables().thread(c.a0) else {
        return k.refuse(t, Errno::ESRCH);
    };
    if k.tables().is_taken(u) {
        return k.refuse(t, Errno::EINVAL);
    }
    join_thread(k, t, u)
}

/// Joins a thread that may be joined.
fn join_thread<R: Ready + Drop>(k: &mut Kernel<R>, t: Tid, u: Tid) -> Reply
    requires ready { CanNote R.order k.old t }
    requires there { exists (view R.order k.old.tables) u ≡ true }
    requires apart { u ≢ t }
    ensures noted { HasNotedSome R.order k.old k.new (calls.join_by (view R.order k.old.tables) t u ((view R.order k.old.tables).threads u).standing).outcome }
    ensures reply { result ≡ (calls.join_by (view R.order k.old.tables) t u ((view R.order k.old.tables).threads u).standing).reply }
{
    match k.tables().known(u).row.ended {
        Some(value) => {
            let change = ThreadChange::Free;
            k.note_two(
                t,
                Change::Thread { thread: u, change },
                Change::reply(t, 0, value),
            );
            Reply::Values(0, value)
        }
        None => {
            let wait = Wait::Join(u);
            let change = ThreadChange::Await { wait };
            k.note_one(t, Change::Thread { thread: t, change });
            Reply::Block
        }
    }
}

/// Detaches a thread, by POSIX.1 pthread_detach.
pub(crate) fn detach<R: Ready + Drop>(k: &mut Kernel<R>, t: Tid, c: Arguments) -> Reply
    requires { CanNote R.order k.old t }
    ensures noted { HasNotedSome R.order k.old k.new (calls.detach (view R.order k.old.tables) t c).outcome }
    ensures reply { result ≡ (calls.detach (view R.order k.old.tables) t c).reply }
{
    let Some(u) = k.tables().thread(c.a0) else {
        return k.refuse(t, Errno::ESRCH);
    };
    if k.tables().is_taken(u) {
        return k.refuse(t, Errno::EINVAL);
    }
    detach_thread(k, t, u)
}

/// Detaches a thread that may be detached.
fn detach_thread<R: Ready + Drop>(k: &mut Kernel<R>, t: Tid, u: Tid) -> Reply
    requires ready { CanNote R.order k.old t }
    requires there { exists (view R.order k.old.tables) u ≡ true }
    ensures noted { HasNotedSome R.order k.old k.new (values (begun (calls.detached_by (view R.order k.old.tables) u ((view R.order k.old.tables).threads u).standing)) t 0 0).outcome }
    ensures reply { result ≡ Reply.Values 0 0 }
{
    let change = match k.tables().known(u).row.ended {
        Some(_) => ThreadChange::Free,
        None => ThreadChange::Detach,
    };
    k.note_two(
        t,
        Change::Thread { thread: u, change },
        Change::reply(t, 0, 0),
    );
    Reply::Values(0, 0)
}

/// Makes the row of one of the calls of this crate; a number that it does not have answers ENOSYS.
pub(crate) fn row<R: Ready + Drop>(k: &mut Kernel<R>, t: Tid, number: u32, c: Arguments) -> Reply
    requires { CanNote R.order k.old t }
    ensures noted { HasNotedSome R.order k.old k.new (row_of thread_calls number (view R.order k.old.tables) t c).outcome }
    ensures reply { result ≡ (row_of thread_calls number (view R.order k.old.tables) t c).reply }
{
    match number {
        93 => exit(k, t, c),
        256 => create(k, t, c),
        257 => exit_thread(k, t, c),
        258 => join(k, t, c),
        259 => detach(k, t, c),
        260 => self_number(k, t, c),
        261 => yield_turn(k, t, c),
        262 => set_schedule(k, t, c),
        263 => get_schedule(k, t, c),
        _ => k.refuse(t, Errno::ENOSYS),
    }
}
