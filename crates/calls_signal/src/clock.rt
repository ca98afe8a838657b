ghost use Rattle.std.specs.Prelude.{◌≡◌, ◌<◌, ◌+◌, ◌^◌};
ghost use Rattle.std.specs.Option.{ForSome};
ghost use Rattle.posix_model.specs.Changes.{begun};
ghost use Rattle.posix_model.specs.ClockCalls as rows;
ghost use Rattle.posix_model.specs.ClockCalls.{alarm_in, ticks_until};
ghost use Rattle.posix_model.specs.Replies.{values};
ghost use Rattle.kernel_state.specs.View.{view};
ghost use Rattle.kernel_state.specs.Begun.{CanNote, HasNotedSome};

use crate::signals::note_and_answer;
use kernel_state::{Change, ClockChange, Kernel, ThreadChange};
use posix_model::{Arguments, Reply, Wait};
use ready_queues::Ready;
use thread_base::Tid;

/// Sleeps for a number of ticks, by POSIX.1 sleep.
pub(crate) fn sleep<R: Ready + Drop>(k: &mut Kernel<R>, t: Tid, c: Arguments) -> Reply
    requires { CanNote R.order k.old t }
    ensures noted { HasNotedSome R.order k.old k.new (rows.sleep (view R.order k.old.tables) t c).outcome }
    ensures reply { result ≡ (rows.sleep (view R.order k.old.tables) t c).reply }
{
    sleep_for(k, t, c.a0)
}

/// Sleeps for so many ticks; a sleep of none is over at once.
fn sleep_for<R: Ready + Drop>(k: &mut Kernel<R>, t: Tid, ticks: u32) -> Reply
    requires { CanNote R.order k.old t }
    ensures noted { HasNotedSome R.order k.old k.new (rows.sleep_for (view R.order k.old.tables) t ticks).outcome }
    ensures reply { result ≡ (rows.sleep_for (view R.order k.old.tables) t ticks).reply }
{
    if ticks == 0 {
        k.note_one(t, Change::reply(t, 0, 0));
        return Reply::Values(0, 0);
    }
    let until = k.tables().ticks() + u64::from(ticks);
    let wait = Wait::Sleep { until };
    let change = ThreadChange::Await { wait };
    k.note_one(t, Change::Thread { thread: t, change });
    Reply::Block
}

/// Sets the alarm, or clears it, and answers the ticks that were left of the one before, by POSIX.1 alarm.
pub(crate) fn set_alarm<R: Ready + Drop>(k: &mut Kernel<R>, t: Tid, c: Arguments) -> Reply
    requires { CanNote R.order k.old t }
    ensures noted { HasNotedSome R.order k.old k.new (rows.set_alarm (view R.order k.old.tables) t c).outcome }
    ensures reply { result ≡ (rows.set_alarm (view R.order k.old.tables) t c).reply }
{
    let now = k.tables().ticks();
    let left = ticks_until(now, k.tables().alarm());
    let alarm = alarm_in(now, c.a0);
    let change = ClockChange::Set { alarm };
    note_and_answer(k, t, Change::Clock { change }, left)
}

/// The ticks until an alarm goes off, 0 where there is none.
fn ticks_until(now: u64, alarm: Option<u64>) -> u32
    requires later { ForSome alarm (λ until. now < until) }
    requires soon { ForSome alarm (λ until. until < now + 2 ^ 32) }
    ensures { result ≡ ticks_until now alarm }
{
    match alarm {
        None => 0,
        Some(until) => (until - now) as u32,
    }
}

/// When an alarm goes off that is set to so many ticks; with none it is cleared.
fn alarm_in(now: u64, ticks: u32) -> Option<u64>
    requires { now < 2 ^ 31 }
    ensures { result ≡ alarm_in now ticks }
{
    match ticks {
        0 => None,
        _ => Some(now + u64::from(ticks)),
    }
}

/// Answers the ticks that have come.
pub(crate) fn clock<R: Ready + Drop>(k: &mut Kernel<R>, t: Tid) -> Reply
    requires { CanNote R.order k.old t }
    ensures noted { HasNotedSome R.order k.old k.new (values (begun (view R.order k.old.tables)) t 0 (view R.order k.old.tables).now).outcome }
    ensures reply { result ≡ Reply.Values 0 (view R.order k.old.tables).now }
{
    let now = k.tables().ticks() as u32;
    k.note_one(t, Change::reply(t, 0, now));
    Reply::Values(0, now)
}
