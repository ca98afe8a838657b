ghost use Rattle.std.specs.Prelude.{◌≡◌};
ghost use Rattle.rv_exec.specs.declared.Event.TheVariants.{Next};
ghost use Rattle.posix_model.specs.Calls.{call as call_of, call_number, arguments};
ghost use Rattle.posix_model.specs.Reports.{nothing_told};
ghost use Rattle.posix_model.specs.Instructions.{instruction};
ghost use Rattle.kernel_state.specs.View.{view};
ghost use Rattle.kernel_state.specs.Begun.{CanBegin, HasRoom, IsBegun, arguments_of};
ghost use Rattle.kernel_state.specs.Executing.{HasExecuted};
ghost use Rattle.kernel_state.specs.Kernels.{IsIdle};
ghost use Rattle.process_engine.specs.Engine.{HasTurn};
ghost use Rattle.process_engine.specs.Advancing.{BeginsInstruction, Instructs};

use kernel_state::Kernel;
use ready_queues::Ready;
use rv_exec::Event;
use thread_base::{CallNo, Family, Tid};

/// Begins the call of a number, of the chosen thread, in the part of the kernel that has it.
fn begin_number<R: Ready + Drop>(k: &mut Kernel<R>, t: Tid, number: u32, args: [u32; 4])
    requires { CanBegin R.order k.old t }
    ensures { IsBegun R.order k.old k.new (call_of (view R.order k.old.tables) t number (arguments_of args)) }
{
    match CallNo::new(number) {
        None => calls_thread::begin_unknown(k, t, number, args),
        Some(call) => match call.family() {
            Family::Threads => calls_thread::begin(k, t, call, args),
            Family::Sync => calls_sync::begin(k, t, call, args),
            Family::Signals => calls_signal::begin(k, t, call, args),
        },
    }
}

/// Begins the call at which the chosen thread stands: its number stands in a7, its arguments in a0 to a3.
fn begin_call<R: Ready + Drop>(k: &mut Kernel<R>, t: Tid)
    requires { CanBegin R.order k.old t }
    ensures { IsBegun R.order k.old k.new (call_of (view R.order k.old.tables) t (call_number ((view R.order k.old.tables).threads t).registers) (arguments ((view R.order k.old.tables).threads t).registers)) }
{
    let x = k.tables().known(t).regs.x;
    begin_number(k, t, x[17], [x[10], x[11], x[12], x[13]]);
}

/// Begins the move of an instruction that was no plain one, as its event tells, of the chosen thread.
fn begin_move<R: Ready + Drop>(k: &mut Kernel<R>, t: Tid, event: Event)
    requires ready { CanBegin R.order k.old t }
    requires event { HasExecuted (view R.order k.old.tables) t event (view R.order k.old.tables) }
    requires asks { event ≡ Next → ⊥ }
    requires untold { k.old.tables.report ≡ nothing_told }
    ensures { BeginsInstruction R.order k.old k.new (instruction (view R.order k.old.tables) t) }
{
    match event {
        Event::Next => unreachable!(),
        Event::Ecall => begin_call(k, t),
        Event::Fault(signal) => calls_thread::begin_fault(k, t, signal),
        Event::Return(which) => calls_thread::begin_return(k, t, which),
    }
}

/// Makes the instruction of the thread in place, which has its turn, where it is a plain one, and else begins its
/// move. Whether it was a plain one.
#[inline(always)]
pub(crate) fn make_instruction<R: Ready + Drop>(k: &mut Kernel<R>) -> bool
    requires idle { IsIdle k.old }
    requires turn { HasTurn R.order k.old }
    requires room { HasRoom (view R.order k.old.tables) }
    ensures { Instructs R.order k.old result k.new }
{
    match k.execute() {
        Event::Next => true,
        event => {
            let t = k.tables().placed();
            begin_move(k, t, event);
            false
        }
    }
}
