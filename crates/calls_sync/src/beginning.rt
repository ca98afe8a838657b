ghost use Rattle.std.specs.Prelude.{◌≡◌, true, false};
ghost use Rattle.thread_base.specs.Numbers.{family_of};
ghost use Rattle.posix_model.specs.Calls.{call as call_of, told_call, row_of, sync_calls};
ghost use Rattle.kernel_state.specs.View.{view};
ghost use Rattle.kernel_state.specs.Moves.{InProgress, IsStep};
ghost use Rattle.kernel_state.specs.Small.{IsSmall};
ghost use Rattle.kernel_state.specs.Begun.{CanBegin, CanNote, HasNotedSome, IsBegun, arguments_of};

use crate::conditions::{
    cond_broadcast, cond_destroy, cond_init, cond_signal, cond_timedwait, cond_wait,
};
use crate::mutexes::{destroy, init, lock, trylock, unlock};
use kernel_state::{Kernel, Stepped, arguments_from};
use posix_model::{Arguments, Head, Reply};
use ready_queues::Ready;
use thread_base::{CallNo, Errno, Family, Tid};

/// Begins a call of this crate, of the chosen thread: what it owes is its row of the call table.
pub fn begin<R: Ready + Drop>(k: &mut Kernel<R>, t: Tid, call: CallNo, args: [u32; 4])
    requires ready { CanBegin R.order k.old t }
    requires here { family_of call ≡ Family.Sync }
    ensures { IsBegun R.order k.old k.new (call_of (view R.order k.old.tables) t call (arguments_of args)) }
{
    begin_row(k, t, call.number(), args);
}

/// Begins the row of a number among the calls of this crate.
fn begin_row<R: Ready + Drop>(k: &mut Kernel<R>, t: Tid, number: u32, args: [u32; 4])
    requires ready { CanBegin R.order k.old t }
    requires here { family_of number ≡ Family.Sync }
    ensures { IsBegun R.order k.old k.new (told_call t number (arguments_of args) (row_of sync_calls number (view R.order k.old.tables) t (arguments_of args))) }
{
    let _sound = k.tables();
    let reply = row(k, t, number, arguments_from(args));
    k.begin_move(
        t,
        Head::Call {
            no: number,
            args,
            reply,
        },
    );
}

/// Makes one small change of the move in progress, the next one. Exit, with the move's report, comes exactly where
/// it was the last one.
pub fn step<R: Ready + Drop>(k: &mut Kernel<R>) -> Stepped
    requires { InProgress k.old }
    ensures step { IsStep R.order k.old result k.new }
    ensures small { IsSmall (view R.order k.old.tables) (view R.order k.new.tables) }
{
    k.step()
}

/// Notes the row of one of the calls of this crate; a number that it does not have answers ENOSYS.
fn row<R: Ready + Drop>(k: &mut Kernel<R>, t: Tid, number: u32, c: Arguments) -> Reply
    requires { CanNote R.order k.old t }
    ensures noted { HasNotedSome R.order k.old k.new (row_of sync_calls number (view R.order k.old.tables) t c).outcome }
    ensures reply { result ≡ (row_of sync_calls number (view R.order k.old.tables) t c).reply }
{
    match number {
        274 => init(k, t, c),
        275 => destroy(k, t, c),
        276 => lock(k, t, c),
        277 => trylock(k, t, c),
        278 => unlock(k, t, c),
        280 => cond_init(k, t, c),
        281 => cond_destroy(k, t, c),
        282 => cond_wait(k, t, c),
        283 => cond_timedwait(k, t, c),
        284 => cond_signal(k, t, c),
        285 => cond_broadcast(k, t, c),
        _ => k.refuse(t, Errno::ENOSYS),
    }
}
