ghost use Rattle.std.specs.Prelude.{◌≡◌, ◌<◌, false, length, None};
ghost use Rattle.posix_model.specs.Changes.{begun};
ghost use Rattle.posix_model.specs.Arrivals.{arrive_signal};
ghost use Rattle.posix_model.specs.Runs.{told_at};
ghost use Rattle.kernel_state.specs.View.{view};
ghost use Rattle.kernel_state.specs.Begun.{HasRoom, IsBegun};
ghost use Rattle.kernel_state.specs.Kernels.{IsIdle};
ghost use Rattle.dispatcher.specs.Arriving.{is_empty, StandsForSome, AreSignalsOrTicks, Comes, BeginsArrival};

use crate::ticking::begin_tick;
use kernel_state::{Change, Kernel, SignalChange};
use posix_model::Head;
use ready_queues::Ready;
use thread_base::{Place, Sig};

/// The signal that no handler catches and no mask holds back.
const KILL: u32 = 9;

/// Begins the arrival of what came from outside first: all entries of one signal, as many as wait (POSIX.1 kill), or one tick.
pub fn begin_arrival<R: Ready + Drop>(k: &mut Kernel<R>)
    requires idle { IsIdle k.old }
    requires room { HasRoom (view R.order k.old.tables) }
    requires some { is_empty k.old.outside ≡ false }
    requires stands { StandsForSome k.old.outside }
    requires built { AreSignalsOrTicks k.old.outside.journal.entries }
    ensures { BeginsArrival R.order k.old k.new }
{
    let Some(taken) = k.drain() else {
        unreachable!();
    };
    let at = k.outside().place(taken.first);
    match taken.event.signal() {
        Some(s) => begin_signal(k, s, taken.first, taken.count, at),
        None => begin_tick(k, taken.first, at),
    }
}

/// Begins the arrival of so many entries of a signal.
fn begin_signal<R: Ready + Drop>(k: &mut Kernel<R>, s: Sig, first: u32, count: u32, at: Place)
    requires idle { IsIdle k.old }
    requires room { HasRoom (view R.order k.old.tables) }
    ensures { IsBegun R.order k.old k.new (told_at at (Head.ArriveSig first count s) (arrive_signal (begun (view R.order k.old.tables)) s count)) }
{
    let _sound = k.tables();
    let _in_scope = s.number();
    note_signal(k, s, u64::from(count));
    let head = Head::ArriveSig {
        first,
        count,
        sig: s,
    };
    k.begin_arrival(head, at);
}

/// Notes, after what the move has noted, what so many of a signal do that come for the process: KILL ends it, one that is
/// ignored is dropped, and every other pends.
pub(crate) fn note_signal<R: Ready + Drop>(k: &mut Kernel<R>, s: Sig, count: u64)
    requires idle { k.old.main ≡ None }
    requires room { length k.old.rest.noted.items < 512 }
    ensures idle { k.new.main ≡ None }
    ensures comes { Comes R.order k.old k.new s count }
{
    if s.number() == KILL {
        k.note_more(Change::Kill { signal: s, count });
    } else if k.tables().action(s).ignores(s) {
        let change = SignalChange::Lose { count };
        k.note_more(Change::Signal { signal: s, change });
    } else {
        let change = SignalChange::Pend { place: None, count };
        k.note_more(Change::Signal { signal: s, change });
    }
}
