ghost use Rattle.std.specs.Prelude.{◌≡◌};
ghost use Rattle.thread_base.specs.Numbers.{can_block};
ghost use Rattle.posix_model.specs.SignalCalls.{is_action, can_send, number_of_action, action_of, mask_by};

use thread_base::{Action, Sig, SigSet};

/// Whether a number is that of a signal that can be blocked, and can have an action: every one in scope but KILL.
pub(crate) fn can_block(number: u32) -> bool
    ensures { result ≡ can_block number }
{
    number != 9 && Sig::new(number).is_some()
}

/// Whether a number is that of an action: 0 is the default, 1 to ignore, and else it is the address of a handler.
pub(crate) fn is_action(number: u32) -> bool
    ensures { result ≡ is_action number }
{
    number == 1 || number % 4 == 0
}

/// Whether a number is that of a signal that can be sent, or 0, which only asks.
pub(crate) fn can_send(number: u32) -> bool
    ensures { result ≡ can_send number }
{
    number == 0 || Sig::new(number).is_some()
}

/// The number of an action.
pub(crate) fn number_of_action(action: Action) -> u32
    ensures { result ≡ number_of_action action }
{
    match action {
        Action::Default => 0,
        Action::Ignore => 1,
        Action::Handler { at, .. } => at,
    }
}

/// The action of a number, with the mask of a handler.
pub(crate) fn action_of(number: u32, mask: SigSet) -> Action
    ensures { result ≡ action_of number mask }
{
    match number {
        0 => Action::Default,
        1 => Action::Ignore,
        at => Action::Handler { at, mask },
    }
}

/// A mask after signals were added, taken away, or set in its place.
pub(crate) fn mask_by(how: u32, mask: SigSet, set: SigSet) -> SigSet
    ensures { result ≡ mask_by how mask set }
{
    match how {
        0 => mask.union(set),
        1 => mask.without(set),
        _ => set,
    }
}
