ghost use Rattle.std.specs.Prelude.{◌≡◌, ◌||◌, not, is_some, true, false};
ghost use Rattle.posix_model.specs.Deliveries.{next_delivery, deliver};
ghost use Rattle.kernel_state.specs.View.{view};
ghost use Rattle.kernel_state.specs.Begun.{HasRoom, IsBegun};
ghost use Rattle.kernel_state.specs.Kernels.{IsIdle};
ghost use Rattle.dispatcher.specs.Arriving.{is_empty, StandsForSome, AreSignalsOrTicks, BeginsArrival};

use crate::arrival::begin_arrival;
use crate::delivery::begin_delivery;
use kernel_state::Kernel;
use ready_queues::Ready;

/// Begins what comes before calls and instructions: an arrival while anything waits outside, and else the next delivery, if
/// there is one (POSIX.1 signal generation and delivery). It answers whether one was begun.
pub fn begin_next<R: Ready + Drop>(k: &mut Kernel<R>) -> bool
    requires idle { IsIdle k.old }
    requires room { HasRoom (view R.order k.old.tables) }
    requires stands { StandsForSome k.old.outside }
    requires built { AreSignalsOrTicks k.old.outside.journal.entries }
    ensures arrival { is_empty k.old.outside ≡ false → BeginsArrival R.order k.old k.new }
    ensures delivery { is_empty k.old.outside ≡ true → result ≡ true → IsBegun R.order k.old k.new (deliver (view R.order k.old.tables)) }
    ensures settled { result ≡ false → k.new ≡ k.old }
    ensures begun { result ≡ (not (is_empty k.old.outside) || is_some (next_delivery (view R.order k.old.tables))) }
{
    if !k.outside().is_empty() {
        begin_arrival(k);
        return true;
    }
    match k.tables().next_delivery() {
        None => false,
        Some((t, s, of_process)) => {
            begin_delivery(k, t, s, of_process);
            true
        }
    }
}
