ghost use Rattle.std.specs.Prelude.{◌≡◌};
ghost use Rattle.thread_base.specs.Maps.{put};
ghost use Rattle.thread_keys.specs.KeyTable.{values_of};

use thread_base::Tid;

/// A key that exists: the address of its destructor, or 0 for none, and its value in each thread.
#[derive(Clone, Copy)]
pub struct Key {
    pub destructor: u32,
    values: [u32; 64],
}

#[tactic(auto, unfolding(crate::specs::KeyTable::values_of), using(thread_base::proofs::MapLemmas::numbered_set, thread_base::proofs::MapLemmas::numbered_get))]
impl Key {
    /// A key whose value is 0 in every thread.
    pub fn new(destructor: u32) -> Key
        ensures destructor { result.destructor ≡ destructor }
        ensures values { values_of result ≡ (λ _. 0) }
    {
        Key {
            destructor,
            values: [0; 64],
        }
    }

    /// A thread's value.
    pub fn value(&self, t: Tid) -> u32
        ensures { result ≡ values_of self.now t }
    {
        self.values[t.index()]
    }

    /// Sets a thread's value.
    pub fn set(&mut self, t: Tid, v: u32)
        ensures values { values_of self.new ≡ put (values_of self.old) t v }
        ensures destructor { self.new.destructor ≡ self.old.destructor }
    {
        self.values[t.index()] = v;
    }
}
