ghost use Rattle.std.specs.Prelude.{◌≡◌, ◌≤◌, ◌+◌};
ghost use Rattle.posix_model.specs.Trace.{is_last};
ghost use Rattle.trace_text.specs.Counting.{is_call as is_call_line, is_arrival as is_arrival_line, is_delivery as is_delivery_line, is_switch as is_switch_line, plus, told_by};

use posix_model::Head;
use thread_base::Tid;
use trace_text::Counts;

/// Whether it was this thread.
pub(crate) fn is_thread(before: &Option<Tid>, t: Tid) -> bool
    ensures { result ≡ is_last t before.now }
{
    match before {
        Some(u) => u.number() == t.number(),
        None => false,
    }
}

/// Whether a line names the thread that goes on.
fn is_switch(before: &Option<Tid>, after: &Option<Tid>) -> bool
    ensures { result ≡ is_switch_line before.now after.now }
{
    match after {
        Some(t) => !is_thread(before, *t),
        None => false,
    }
}

/// Whether a main line is that of a call.
fn is_call(head: &Head) -> bool
    ensures { result ≡ is_call_line head.now }
{
    match head {
        Head::Call { .. } => true,
        _ => false,
    }
}

/// Whether a main line is that of an arrival.
fn is_arrival(head: &Head) -> bool
    ensures { result ≡ is_arrival_line head.now }
{
    match head {
        Head::ArriveSig { .. }
        | Head::ArriveTick { .. }
        | Head::ArriveData { .. }
        | Head::ArriveEof { .. } => true,
        _ => false,
    }
}

/// Whether a main line is that of a delivery.
fn is_delivery(head: &Head) -> bool
    ensures { result ≡ is_delivery_line head.now }
{
    match head {
        Head::Deliver { .. } | Head::Accept { .. } | Head::Interrupt { .. } | Head::Cancel { .. } =>
            true,
        _ => false,
    }
}

/// The counts with one move more, by the threads of the last instruction before and after it and its main line.
pub(crate) fn with_move(
    told: Counts,
    before: &Option<Tid>,
    after: &Option<Tid>,
    head: &Head,
) -> Counts
    requires { told.calls + told.arrivals + told.deliveries + told.switches ≤ 9000012006615 }
    ensures { result ≡ plus told (told_by before.now after.now head.now) }
{
    Counts {
        instructions: told.instructions,
        calls: told.calls + u64::from(is_call(head)),
        arrivals: told.arrivals + u64::from(is_arrival(head)),
        deliveries: told.deliveries + u64::from(is_delivery(head)),
        switches: told.switches + u64::from(is_switch(before, after)),
    }
}
