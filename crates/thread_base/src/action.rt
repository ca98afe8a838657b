ghost use Rattle.std.specs.Prelude.{◌≡◌};
ghost use Rattle.thread_base.specs.Actions.{ignores};

use crate::{Sig, SigSet};

/// What a signal does to the process: its default, nothing, or it calls the handler at an address, during which
/// the signals of a mask are blocked too (POSIX.1 sigaction: SIG_DFL, SIG_IGN, a function).
#[derive(Clone, Copy, Debug, PartialEq, Eq)]
pub enum Action {
    Default,
    Ignore,
    Handler { at: u32, mask: SigSet },
}

impl Action {
    /// Whether a signal that has this action is ignored: by itself, or as the default of CHLD, URG and WINCH.
    pub fn ignores(&self, s: Sig) -> bool
        ensures { result ≡ ignores self.now s }
    {
        match self {
            Action::Default => matches!(s.number(), 17 | 23 | 28),
            Action::Ignore => true,
            Action::Handler { .. } => false,
        }
    }
}
