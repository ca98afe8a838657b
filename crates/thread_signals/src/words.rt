//! Sets of signals as words, in which bit s stands for signal s.

ghost use Rattle.std.specs.Prelude.{◌≡◌, ◌<◌, ℕ, true, find};
ghost use Rattle.thread_base.specs.Maps.{put};
ghost use Rattle.thread_base.specs.Numbers.{IsInScope, has_signal};
ghost use Rattle.thread_base.specs.Deliveries.{signals};

use thread_base::Sig;

/// A set with a signal or without it.
pub fn with_signal(set: u32, s: Sig, is_in: bool) -> u32
    ensures { has_signal result ≡ put (has_signal set) s is_in }
{
    let bit = 1 << s.number();
    if is_in { set | bit } else { set & !bit }
}

/// The lowest signal of a set.
pub fn lowest(set: u32) -> Option<Sig>
    requires { (sig : ℕ) → has_signal set sig ≡ true → IsInScope sig }
    ensures { result ≡ find (has_signal set) signals }
{
    Sig::new(set.trailing_zeros())
}
