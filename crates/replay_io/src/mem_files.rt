ghost use Rattle.std.specs.Prelude.{◌≡◌, ◌≢◌, ◌<◌, ◌≤◌, ◌^◌, ◌+◌, ◌++◌, List, [], ◌∷◌, ℕ, length, take, true, false};
ghost use Rattle.std.specs.Prelude.{IfOk, OnOk, OnErr, IfSome, IsTrue, is_some};
ghost use Rattle.std.specs.Option.{option_map};
ghost use Rattle.std.specs.Str.{bytes_eq};
ghost use Rattle.replay_io.specs.Writing.{Rose};
ghost use Rattle.replay_io.specs.Names.{times};
ghost use Rattle.replay_io.specs.Loading.{is_failed};
ghost use Rattle.replay_io.specs.Shelf.{last_under, is_loadable, shelf_after};

use crate::failures::Failures;
use crate::files::{Files, LoadRefusal};
use std::alloc::Global;
use std::marker::Model;
use thread_base::NoMemory;

/// A name with its bytes.
#[derive(Drop)]
struct Held {
    name: String,
    bytes: Vec<u8>,
}

impl Model for Held {
    ghost use Rattle.std.specs.Prelude.{List, ℕ};
    ghost use Rattle.std.specs.String.{string_bytes};

    ghost Value = { List ℕ × List ℕ };

    ghost view = { λ h. (string_bytes h.name, h.bytes.items) };
}

impl Held {
    fn is_named(&self, name: &str) -> bool
        ensures { result ≡ bytes_eq self.now.0 name.now }
    {
        self.name.as_str() == name
    }

    fn bytes(&self) -> &[u8]
        ensures { result.now ≡ self.now.1 }
    {
        &self.bytes
    }
}

/// What was added last under a name.
#[tactic(auto, unfolding(crate::specs::Shelf::last_under))]
fn find_held<'a>(held: &'a [Held], name: &str) -> Option<&'a Held>
    ensures { option_map (λ h. h.now.1) result ≡ last_under held.now name.now }
{
    held.iter().rev().find(|h| h.is_named(name))
}

/// The first `most + 1` bytes of what was added last under a name. Failed where nothing was.
fn read_held(alloc: Global, held: &[Held], name: &str, most: usize) -> Result<Vec<u8>, LoadRefusal>
    requires { most < 2 ^ 31 }
    ensures bytes { IfOk result (λ v. IfSome (last_under held.now name.now) (λ c. v.items ≡ take (most + 1) c)) }
    ensures long { IfOk result (λ v. length v.items ≤ most + 1) }
    ensures ok { OnOk result (is_some (last_under held.now name.now) ≡ true) }
    ensures failed { result ≡ Err LoadRefusal.Failed → last_under held.now name.now ≡ None }
{
    let Some(found) = find_held(held, name) else {
        return Err(LoadRefusal::Failed);
    };
    let bytes = found.bytes();
    let Ok(copy) = Vec::from_slice(alloc, &bytes[..bytes.len().min(most + 1)]) else {
        return Err(LoadRefusal::NoMemory);
    };
    Ok(copy)
}

/// Files in memory, whose loads fail where a list says so. A load of a name that was not added
/// fails too.
#[derive(Drop)]
pub struct MemFiles {
    alloc: Global,
    held: Vec<Held>,
    failures: Failures,
    loads: u32,
    fails: Vec<u32>,
}

impl Model for MemFiles {
    ghost use Rattle.replay_io.specs.Shelf.{Shelf};

    ghost Value = { Shelf };

    ghost view = { λ f. record { held = f.held.items; failed = f.failures; loads = f.loads; fails = f.fails.items } };
}

impl MemFiles {
    /// No names. `fails` holds the numbers, from 1, of the loads that fail. `alloc` serves the names
    /// that are added later.
    pub fn new(alloc: Global, fails: &[u32]) -> Result<MemFiles, NoMemory>
        ensures { IfOk result (λ f. f ≡ record { held = []; failed = []; loads = 0; fails = fails.now }) }
    {
        let Ok(fails) = Vec::from_slice(alloc, fails) else {
            return Err(NoMemory);
        };
        Ok(MemFiles {
            alloc,
            held: Vec::new(alloc),
            failures: Failures::new(alloc),
            loads: 0,
            fails,
        })
    }

    /// Gives a name its bytes: the latest add wins. After NoMemory nothing has changed.
    #[tactic(auto, using(crate::proofs::NamesLemmas::added))]
    pub fn add(&mut self, name: &str, bytes: &[u8]) -> Result<(), NoMemory>
        ensures ok { OnOk result (self.new ≡ record self.old { held = self.old.held ++ (name.now, bytes.now) ∷ [] }) }
        ensures err { OnErr result (self.new ≡ self.old) }
        ensures named { OnOk result (last_under self.new.held name.now ≡ Some bytes.now) }
        ensures others { (n : List ℕ) → n ≢ name.now → last_under self.new.held n ≡ last_under self.old.held n }
    {
        let Ok(name) = String::from_str(self.alloc, name) else {
            return Err(NoMemory);
        };
        let Ok(bytes) = Vec::from_slice(self.alloc, bytes) else {
            return Err(NoMemory);
        };
        if self.held.push(Held { name, bytes }).is_err() {
            return Err(NoMemory);
        }
        Ok(())
    }
}

impl Files for MemFiles {
    ghost content = { λ f n. last_under f.held n };

    ghost faults = { λ f n. times n f.failed };

    #[tactic(auto, using(crate::proofs::NamesLemmas::counts))]
    fn load(&mut self, alloc: Global, name: &str, most: usize) -> Result<Vec<u8>, LoadRefusal>
        requires { most < 2 ^ 31 }
        ensures bytes { IfOk result (λ v.
            IfSome (last_under self.old.held name.now) (λ c. v.items ≡ take (most + 1) c)) }
        ensures long { IfOk result (λ v. length v.items ≤ most + 1) }
        ensures same { (n : List ℕ) → last_under self.new.held n ≡ last_under self.old.held n }
        ensures others { (n : List ℕ) → n ≢ name.now → times n self.new.failed ≡ times n self.old.failed }
        ensures later { times name.now self.old.failed ≤ times name.now self.new.failed }
        ensures failed { result ≡ Err LoadRefusal.Failed
            → Rose (times name.now self.old.failed) (times name.now self.new.failed) }
        ensures kept { (result ≢ Err LoadRefusal.Failed)
            → times name.now self.new.failed ≡ times name.now self.old.failed }
        // Beside what each load ensures: when this one fails, and what it leaves.
        ensures loadable { OnOk result (IsTrue (is_loadable self.old name.now)) }
        ensures refused { result ≡ Err LoadRefusal.Failed → is_loadable self.old name.now ≡ false }
        ensures after { self.new ≡ shelf_after self.old name.now (is_failed result) }
    {
        self.loads = self.loads.saturating_add(1);
        if self.failures.push(alloc, name).is_err() {
            return Err(LoadRefusal::NoMemory);
        }
        let answer = if self.fails.contains(&self.loads) {
            Err(LoadRefusal::Failed)
        } else {
            read_held(alloc, &self.held, name, most)
        };
        self.failures.settle(&answer);
        answer
    }
}
