ghost use Rattle.std.specs.Prelude.{◌≡◌, ◌≢◌, ◌<◌, ◌≤◌, ◌^◌, ◌+◌, List, ℕ, Option, Err, length, take, IfOk, IfSome};
ghost use Rattle.replay_io.specs.Writing.{Rose};

use std::alloc::Global;

/// Why a load gave nothing.
#[derive(Clone, Copy, Debug, PartialEq, Eq)]
pub enum LoadRefusal {
    /// The file could not be read.
    Failed,
    /// Memory ran out.
    NoMemory,
}

/// Where files come from. Names and contents are lists of bytes.
pub trait Files {
    /// What a name holds, where it is told.
    ghost content: { Self → List ℕ → Option (List ℕ) };

    /// How often a load of a name has failed: a count that never falls.
    ghost faults: { Self → List ℕ → ℕ };

    /// Gives the first `most + 1` bytes of what a name holds, or all where it is shorter. Failed comes
    /// only where the count of this name's faults rose; Ok and NoMemory leave it, and NoMemory is free.
    /// No load changes any content, or the count of another name.
    fn load(&mut self, alloc: Global, name: &str, most: usize) -> Result<Vec<u8>, LoadRefusal>
        requires { most < 2 ^ 31 }
        ensures bytes { IfOk result (λ v. IfSome (content self.old name.now) (λ c. v.items ≡ take (most + 1) c)) }
        ensures long { IfOk result (λ v. length v.items ≤ most + 1) }
        ensures same { (n : List ℕ) → content self.new n ≡ content self.old n }
        ensures others { (n : List ℕ) → n ≢ name.now → faults self.new n ≡ faults self.old n }
        ensures later { faults self.old name.now ≤ faults self.new name.now }
        ensures failed { result ≡ Err LoadRefusal.Failed → Rose (faults self.old name.now) (faults self.new name.now) }
        ensures kept { (result ≢ Err LoadRefusal.Failed) → faults self.new name.now ≡ faults self.old name.now };
}
