ghost use Rattle.std.specs.Prelude.{◌≡◌, ◌∷◌, false};
ghost use Rattle.thread_base.specs.Orders.{is_nil};
ghost use Rattle.kernel_state.specs.Kernels.{remaining, IsEmpty};

use crate::change::Change;
use arrayvec::ArrayVec;

/// The small changes of the move in progress, and which of them is made next.
#[derive(Drop)]
pub struct Rest {
    pub(crate) noted: ArrayVec<Change, 512>,
    pub(crate) next: usize,
}

impl Rest {
    /// No move is in progress.
    pub fn new() -> Rest
        ensures { IsEmpty result }
    {
        Rest {
            noted: ArrayVec::new(),
            next: 0,
        }
    }

    /// Whether no change is left.
    pub fn is_empty(&self) -> bool
        ensures { result ≡ is_nil (remaining self.now) }
    {
        self.next >= self.noted.len()
    }

    /// Takes the first of the changes that are left.
    pub fn take(&mut self) -> Change
        requires { is_nil (remaining self.old) ≡ false }
        ensures { remaining self.old ≡ result ∷ remaining self.new }
    {
        let change = self.noted[self.next];
        self.next += 1;
        change
    }

    /// Forgets the changes of a move that is made.
    pub fn clear(&mut self)
        ensures { IsEmpty self.new }
    {
        self.noted.clear();
        self.next = 0;
    }
}
