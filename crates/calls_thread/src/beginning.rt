ghost use Rattle.std.specs.Prelude.{◌≡◌, true, false};
ghost use Rattle.thread_base.specs.Numbers.{IsCall, family_of};
ghost use Rattle.posix_model.specs.Calls.{call as call_of, told_call, row_of, thread_calls, refused};
ghost use Rattle.kernel_state.specs.View.{view};
ghost use Rattle.kernel_state.specs.Moves.{InProgress, IsStep};
ghost use Rattle.kernel_state.specs.Small.{IsSmall};
ghost use Rattle.kernel_state.specs.Begun.{CanBegin, IsBegun, arguments_of};

use crate::rows::row;
use kernel_state::{Kernel, Stepped, arguments_from};
use posix_model::Head;
use ready_queues::Ready;
use thread_base::{CallNo, Errno, Family, Tid};

/// Begins a call of this crate, of the chosen thread: what it owes is its row of the call table.
pub fn begin<R: Ready + Drop>(k: &mut Kernel<R>, t: Tid, call: CallNo, args: [u32; 4])
    requires ready { CanBegin R.order k.old t }
    requires here { family_of call ≡ Family.Threads }
    ensures { IsBegun R.order k.old k.new (call_of (view R.order k.old.tables) t call (arguments_of args)) }
{
    begin_row(k, t, call.number(), args);
}

/// Begins the row of a number among the calls of this crate.
fn begin_row<R: Ready + Drop>(k: &mut Kernel<R>, t: Tid, number: u32, args: [u32; 4])
    requires ready { CanBegin R.order k.old t }
    requires here { family_of number ≡ Family.Threads }
    ensures { IsBegun R.order k.old k.new (told_call t number (arguments_of args) (row_of thread_calls number (view R.order k.old.tables) t (arguments_of args))) }
{
    let _sound = k.tables();
    let reply = row(k, t, number, arguments_from(args));
    k.begin_move(
        t,
        Head::Call {
            no: number,
            args,
            reply,
        },
    );
}

/// Makes one small change of the move in progress, the next one. Exit, with the move's report, comes exactly where
/// it was the last one.
pub fn step<R: Ready + Drop>(k: &mut Kernel<R>) -> Stepped
    requires { InProgress k.old }
    ensures step { IsStep R.order k.old result k.new }
    ensures small { IsSmall (view R.order k.old.tables) (view R.order k.new.tables) }
{
    k.step()
}

/// Begins a call whose number is not in the table: the answer is ENOSYS.
pub fn begin_unknown<R: Ready + Drop>(k: &mut Kernel<R>, t: Tid, number: u32, args: [u32; 4])
    requires ready { CanBegin R.order k.old t }
    requires unknown { IsCall number → ⊥ }
    ensures { IsBegun R.order k.old k.new (call_of (view R.order k.old.tables) t number (arguments_of args)) }
{
    begin_refused(k, t, number, args);
}

/// Begins a call that answers ENOSYS.
fn begin_refused<R: Ready + Drop>(k: &mut Kernel<R>, t: Tid, number: u32, args: [u32; 4])
    requires ready { CanBegin R.order k.old t }
    requires unknown { IsCall number → ⊥ }
    ensures { IsBegun R.order k.old k.new (told_call t number (arguments_of args) (refused (view R.order k.old.tables) t Errno.ENOSYS)) }
{
    let _sound = k.tables();
    let reply = k.refuse(t, Errno::ENOSYS);
    k.begin_move(
        t,
        Head::Call {
            no: number,
            args,
            reply,
        },
    );
}
