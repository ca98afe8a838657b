//! Thread-specific data: the keys that exist, their destructors, and each thread's value of each key.
#![tactic(auto)]

mod key;
#[cfg(test)]
mod tests;

ghost use Rattle.std.specs.Prelude.{◌≡◌, ◌<◌, ◌≤◌, ◌↔◌, ℕ, false, is_some, IfOk, IfSome, IsSome, IsNone, option_copied, slice_index_or, if◌then◌else◌};
ghost use Rattle.std.specs.Option.{option_map};
ghost use Rattle.thread_base.specs.Maps.{put};
ghost use Rattle.thread_keys.specs.KeyTable.{destructor_of, value_of, free_key, put_found, put_value, without_key, is_due, due_key, call_of, zero_found};

use crate::key::Key;
use std::alloc::Global;
use std::marker::Model;
use thread_base::{NoMemory, Tid};

/// The keys of thread-specific data, at most 128, and their values in 64 threads (POSIX.1 `pthread_key_create`).
/// Their memory is taken when the table is made.
#[derive(Drop)]
pub struct Keys {
    keys: Vec<Option<Key>>,
}

impl Model for Keys {
    ghost use Rattle.std.specs.Prelude.{◌≡◌, List, Option, length};
    ghost use Rattle.thread_keys.specs.declared.key.Key.{Key};

    ghost Value = { List (Option Key) };

    ghost view = { λ k. k.keys.items };

    ghost invariant = { λ k. length k.keys.items ≡ 128 };
}

#[tactic(auto, unfolding(crate::specs::KeyTable::destructor_of, crate::specs::KeyTable::value_of, crate::specs::KeyTable::key_numbers))]
impl Keys {
    /// No key. NoMemory comes only where memory ran out; no later call takes any.
    #[tactic(auto, using(crate::proofs::KeyLemmas::destructor_blank, crate::proofs::KeyLemmas::values_blank))]
    pub fn new(alloc: Global) -> Result<Keys, NoMemory>
        ensures destructors { IfOk result (λ k. destructor_of k ≡ (λ _. None)) }
        ensures values { IfOk result (λ k. value_of k ≡ (λ _. λ _. 0)) }
    {
        let Ok(keys) = Vec::from_slice(alloc, &[None; 128]) else {
            return Err(NoMemory);
        };
        Ok(Keys { keys })
    }

    /// Makes a key of the least free number, with a destructor's address or 0 for none; its value is 0 in every
    /// thread. None, and nothing changes, exactly where 128 keys exist.
    pub fn create(&mut self, destructor: u32) -> Option<u32>
        ensures number { result ≡ free_key (destructor_of self.old) }
        ensures fresh { IfSome result (λ k. IsNone (destructor_of self.old k)) }
        ensures full { IsNone result ↔ ((k : ℕ) → k < 128 → IsSome (destructor_of self.old k)) }
        ensures destructors { destructor_of self.new ≡ put_found (destructor_of self.old) result destructor }
        ensures zero { IfSome result (λ k. (t : ℕ) → value_of self.new t k ≡ 0) }
        ensures values { value_of self.new ≡ value_of self.old }
    {
        let k = self.least_free()?;
        self.keys[k as usize] = Some(Key::new(destructor));
        Some(k)
    }

    /// Takes a key away with all its values; false, and nothing changes, exactly where no such key exists.
    #[tactic(auto, using(crate::proofs::KeyLemmas::destructor_removed, crate::proofs::KeyLemmas::values_removed))]
    pub fn delete(&mut self, k: u32) -> bool
        ensures exists { result ≡ is_some (destructor_of self.old k) }
        ensures destructors { destructor_of self.new
            ≡ (if result then put (destructor_of self.old) k None else destructor_of self.old) }
        ensures values { value_of self.new ≡ (if result then without_key (value_of self.old) k else value_of self.old) }
    {
        if self.destructor(k).is_none() {
            return false;
        }
        self.keys[k as usize] = None;
        true
    }

    /// Sets a thread's value of a key; false, and nothing changes, exactly where no such key exists.
    pub fn set(&mut self, t: Tid, k: u32, v: u32) -> bool
        ensures exists { result ≡ is_some (destructor_of self.old k) }
        ensures values { value_of self.new ≡ (if result then put_value (value_of self.old) t k v else value_of self.old) }
        ensures destructors { destructor_of self.new ≡ destructor_of self.old }
    {
        let Some(slot) = self.keys.get_mut(k as usize) else {
            return false;
        };
        let Some(key) = slot else {
            return false;
        };
        key.set(t, v);
        true
    }

    /// Finds the least key from a number on that has a destructor and a value in a thread that is not 0, sets that
    /// value to 0, and gives the key, the destructor and the old value (POSIX.1 thread exit). None, and nothing
    /// changes, exactly where there is none.
    pub fn next_destructor(&mut self, t: Tid, from: u32) -> Option<(u32, u32, u32)>
        ensures call { result ≡ call_of (destructor_of self.old) (value_of self.old) t
            (due_key (destructor_of self.old) (value_of self.old) t from) }
        ensures none { IsNone result
            ↔ ((k : ℕ) → from ≤ k → k < 128 → is_due (destructor_of self.old) (value_of self.old) t k ≡ false) }
        ensures values { value_of self.new
            ≡ zero_found (value_of self.old) t (due_key (destructor_of self.old) (value_of self.old) t from) }
        ensures destructors { destructor_of self.new ≡ destructor_of self.old }
    {
        let k = self.least_due(t, from)?;
        let destructor = self.destructor(k)?;
        let value = self.get(t, k)?;
        self.set(t, k, 0);
        Some((k, destructor, value))
    }

    /// Sets a thread's value of every key to 0.
    pub fn clear(&mut self, t: Tid)
        ensures values { value_of self.new ≡ put (value_of self.old) t (λ _. 0) }
        ensures destructors { destructor_of self.new ≡ destructor_of self.old }
    {
        for slot in self.keys.iter_mut() {
            if let Some(key) = slot {
                key.set(t, 0);
            }
        }
    }

    /// A thread's value of a key; None exactly where no such key exists.
    pub fn get(&self, t: Tid, k: u32) -> Option<u32>
        ensures { result ≡ option_map (λ _. value_of self.now t k) (destructor_of self.now k) }
    {
        self.key(k).map(|key| key.value(t))
    }

    /// A key's destructor, or 0 for a key that has none; None exactly where no such key exists.
    pub fn destructor(&self, k: u32) -> Option<u32>
        ensures destructor { result ≡ destructor_of self.now k }
        ensures limit { IsSome result → k < 128 }
    {
        self.key(k).map(|key| key.destructor)
    }

    /// Whether a key has a destructor, and a value in a thread that is not 0.
    fn is_due(&self, t: Tid, k: u32) -> bool
        ensures { result ≡ is_due (destructor_of self.now) (value_of self.now) t k }
    {
        match self.key(k) {
            Some(key) => key.destructor != 0 && key.value(t) != 0,
            None => false,
        }
    }

    /// The least number that is no key's, if there is one.
    fn least_free(&self) -> Option<u32>
        ensures { result ≡ free_key (destructor_of self.now) }
    {
        (0..128).find(|k| self.destructor(*k).is_none())
    }

    /// The least key from a number on whose destructor is to be called at a thread's exit, if there is one.
    fn least_due(&self, t: Tid, from: u32) -> Option<u32>
        ensures { result ≡ due_key (destructor_of self.now) (value_of self.now) t from }
    {
        (from..128).find(|k| self.is_due(t, *k))
    }

    /// The key of a number, if it exists.
    fn key(&self, k: u32) -> Option<&Key>
        ensures key { option_copied result ≡ slice_index_or self.now k None }
        ensures limit { IsSome result → k < 128 }
    {
        self.keys.get(k as usize)?.as_ref()
    }
}
