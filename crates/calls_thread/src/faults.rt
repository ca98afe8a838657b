ghost use Rattle.std.specs.Prelude.{◌≡◌, Some};
ghost use Rattle.posix_model.specs.Deliveries.{struck, faulted};
ghost use Rattle.kernel_state.specs.View.{view};
ghost use Rattle.kernel_state.specs.Begun.{CanBegin, CanNote, HasNotedSome, IsBegun};

use kernel_state::{Change, Kernel, SignalChange};
use posix_model::Head;
use ready_queues::Ready;
use thread_base::{Sig, Tid};

/// One signal pends on a thread.
fn pended(t: Tid, s: Sig) -> Change
    ensures { result ≡ Change.Signal s (SignalChange.Pend (Some t) 1) }
{
    let change = SignalChange::Pend {
        place: Some(t),
        count: 1,
    };
    Change::Signal { signal: s, change }
}

/// Notes what a fault's signal does to a thread: it pends, or it ends the process at once where the thread is not free
/// for it or the signal is ignored.
fn note_fault<R: Ready + Drop>(k: &mut Kernel<R>, t: Tid, s: Sig)
    requires { CanNote R.order k.old t }
    ensures { HasNotedSome R.order k.old k.new (struck (view R.order k.old.tables) t s) }
{
    let is_free = k.tables().is_free_for(t, s);
    let is_ignored = k.tables().action(s).ignores(s);
    if is_free && !is_ignored {
        k.note_one(t, pended(t, s));
    } else {
        k.note_one(
            t,
            Change::Kill {
                signal: s,
                count: 1,
            },
        );
    }
}

/// Begins a fault of the chosen thread: its signal pends from now on, or ends the process at once where the thread is
/// not free for it or it is ignored.
pub fn begin_fault<R: Ready + Drop>(k: &mut Kernel<R>, t: Tid, s: Sig)
    requires { CanBegin R.order k.old t }
    ensures { IsBegun R.order k.old k.new (faulted (view R.order k.old.tables) t s) }
{
    let _sound = k.tables();
    note_fault(k, t, s);
    k.begin_move(t, Head::Fault(s));
}
