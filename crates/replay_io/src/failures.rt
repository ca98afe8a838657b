ghost use Rattle.std.specs.Prelude.{◌≡◌, ◌++◌, ◌-◌, [], ◌∷◌, OnOk, OnErr, length, take, if◌then◌else◌};
ghost use Rattle.replay_io.specs.Loading.{is_failed};

use crate::files::LoadRefusal;
use std::alloc::Global;
use std::marker::Model;
use thread_base::NoMemory;

/// The names whose load failed, in order. Clauses see them as a list of texts.
#[derive(Drop)]
pub struct Failures {
    names: Vec<String>,
}

impl Model for Failures {
    ghost use Rattle.std.specs.Prelude.{List, ℕ, map};
    ghost use Rattle.std.specs.String.{string_bytes};

    ghost Value = { List (List ℕ) };

    ghost view = { λ f. map string_bytes f.names.items };
}

impl Failures {
    /// No names.
    pub fn new(alloc: Global) -> Failures
        ensures { result ≡ [] }
    {
        Failures {
            names: Vec::new(alloc),
        }
    }

    /// Notes a name before its load, so that the load takes no memory for it.
    pub fn push(&mut self, alloc: Global, name: &str) -> Result<(), NoMemory>
        ensures ok { OnOk result (self.new ≡ self.old ++ name.now ∷ []) }
        ensures err { OnErr result (self.new ≡ self.old) }
    {
        let Ok(text) = String::from_str(alloc, name) else {
            return Err(NoMemory);
        };
        if self.names.push(text).is_err() {
            return Err(NoMemory);
        }
        Ok(())
    }

    /// Takes the name that was noted last off again, unless its load failed.
    pub fn settle(&mut self, answer: &Result<Vec<u8>, LoadRefusal>)
        ensures { self.new ≡ (if is_failed answer.now then self.old else take (length self.old - 1) self.old) }
    {
        if !matches!(answer, Err(LoadRefusal::Failed)) {
            let _ = self.names.pop();
        }
    }
}
