ghost use Rattle.std.specs.Prelude.{◌≡◌, true, false};
ghost use Rattle.thread_base.specs.Numbers.{family_of};
ghost use Rattle.posix_model.specs.Calls.{call as call_of, told_call, row_of, signal_calls};
ghost use Rattle.kernel_state.specs.View.{view};
ghost use Rattle.kernel_state.specs.Moves.{InProgress, IsStep};
ghost use Rattle.kernel_state.specs.Small.{IsSmall};
ghost use Rattle.kernel_state.specs.Begun.{CanBegin, CanNote, HasNotedSome, IsBegun, arguments_of};

use crate::clock::{clock, set_alarm, sleep};
use crate::output::write;
use crate::signals::{kill_process, kill_thread, sigaction, sigmask};
use crate::waiting::{sigpending, sigwait};
use kernel_state::{Kernel, Stepped, arguments_from};
use posix_model::{Arguments, Head, Reply};
use ready_queues::Ready;
use thread_base::{CallNo, Errno, Family, Tid};

/// Begins a call of this crate, of the chosen thread: what it owes is its row of the call table.
pub fn begin<R: Ready + Drop>(k: &mut Kernel<R>, t: Tid, call: CallNo, args: [u32; 4])
    requires ready { CanBegin R.order k.old t }
    requires here { family_of call ≡ Family.Signals }
    ensures { IsBegun R.order k.old k.new (call_of (view R.order k.old.tables) t call (arguments_of args)) }
{
    begin_row(k, t, call.number(), args);
}

/// Begins the row of a number among the calls of this crate.
fn begin_row<R: Ready + Drop>(k: &mut Kernel<R>, t: Tid, number: u32, args: [u32; 4])
    requires ready { CanBegin R.order k.old t }
    requires here { family_of number ≡ Family.Signals }
    ensures { IsBegun R.order k.old k.new (told_call t number (arguments_of args) (row_of signal_calls number (view R.order k.old.tables) t (arguments_of args))) }
{
    let _sound = k.tables();
    let reply = row(k, t, number, arguments_from(args));
    k.begin_move(
        t,
        Head::Call {
            no: number,
            args,
            reply,
        },
    );
}

/// Makes one small change of the move in progress, the next one. Exit, with the move's report, comes exactly where
/// it was the last one.
pub fn step<R: Ready + Drop>(k: &mut Kernel<R>) -> Stepped
    requires { InProgress k.old }
    ensures step { IsStep R.order k.old result k.new }
    ensures small { IsSmall (view R.order k.old.tables) (view R.order k.new.tables) }
{
    k.step()
}

/// Notes the row of one of the calls of this crate; a number that it does not have answers ENOSYS.
fn row<R: Ready + Drop>(k: &mut Kernel<R>, t: Tid, number: u32, c: Arguments) -> Reply
    requires { CanNote R.order k.old t }
    ensures noted { HasNotedSome R.order k.old k.new (row_of signal_calls number (view R.order k.old.tables) t c).outcome }
    ensures reply { result ≡ (row_of signal_calls number (view R.order k.old.tables) t c).reply }
{
    match number {
        64 => write(k, t, c),
        286 => sigaction(k, t, c),
        287 => sigmask(k, t, c),
        288 => sigpending(k, t),
        289 => sigwait(k, t, c),
        290 => kill_thread(k, t, c),
        291 => kill_process(k, t, c),
        292 => sleep(k, t, c),
        293 => set_alarm(k, t, c),
        294 => clock(k, t),
        _ => k.refuse(t, Errno::ENOSYS),
    }
}
