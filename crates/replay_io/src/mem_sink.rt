ghost use Rattle.std.specs.Prelude.{◌≡◌, ◌↔◌, List, ℕ, IfOk, IfSome, IsErr, IsSome};
ghost use Rattle.replay_io.specs.Numbering.{next_number};
ghost use Rattle.replay_io.specs.Script.{failing_put, script_after};
ghost use Rattle.replay_io.specs.Store.{empty_store, told};
ghost use Rattle.replay_io.specs.Writing.{Writes};

use crate::buffer::Buffer;
use crate::sinks::{Sink, SinkFailed};
use std::alloc::Global;
use std::marker::Model;
use thread_base::NoMemory;

/// A sink in memory that keeps the first `room` bytes, and whose puts fail where a list says so.
#[derive(Drop)]
pub struct MemSink {
    buffer: Buffer,
    puts: u32,
    fails: Vec<(u32, u32)>,
    faults: u64,
}

impl Model for MemSink {
    ghost use Rattle.replay_io.specs.Script.{Script};

    ghost Value = { Script };

    ghost view = { λ s. record { store = s.buffer; puts = s.puts; fails = s.fails.items; faults = s.faults } };
}

impl MemSink {
    /// An empty sink, which takes its memory here. Each pair of `fails` holds the number, from 1, of
    /// a put that fails and how many bytes of its piece it takes before, at most the piece.
    pub fn new(alloc: Global, room: u32, fails: &[(u32, u32)]) -> Result<MemSink, NoMemory>
        ensures { IfOk result (λ s.
            s ≡ record { store = empty_store room; puts = 0; fails = fails.now; faults = 0 }) }
    {
        let buffer = Buffer::new(alloc, room)?;
        let Ok(fails) = Vec::from_slice(alloc, fails) else {
            return Err(NoMemory);
        };
        Ok(MemSink {
            buffer,
            puts: 0,
            fails,
            faults: 0,
        })
    }

    /// The bytes that were kept.
    pub fn bytes(&self) -> &[u8]
        ensures kept { result.now ≡ self.now.store.bytes }
        ensures told { IfSome (told self.now.store) (λ bytes. result.now ≡ bytes) }
    {
        self.buffer.bytes()
    }
}

/// How many bytes of its piece the put of a number takes before it fails, where it fails.
#[tactic(auto, unfolding(crate::specs::Script::failing_put))]
fn failing_put(fails: &[(u32, u32)], number: u32) -> Option<u32>
    ensures { result ≡ failing_put fails.now number }
{
    fails.iter().find(|f| f.0 == number).map(|f| f.1)
}

impl Sink for MemSink {
    ghost written = { λ s. told s.store };

    ghost faults = { λ s. s.faults };

    fn put(&mut self, piece: &[u8]) -> Result<(), SinkFailed>
        ensures writes { Writes result (told self.old.store) (told self.new.store)
            self.old.faults self.new.faults piece.now }
        // Beside what each put ensures: when this one fails, and what it leaves.
        ensures fails { IsErr result ↔ IsSome (failing_put self.old.fails (next_number self.old.puts)) }
        ensures after { self.new ≡ script_after self.old piece.now }
    {
        self.puts = self.puts.saturating_add(1);
        match failing_put(&self.fails, self.puts) {
            None => {
                self.buffer.add(piece);
                Ok(())
            }
            Some(count) => {
                let count = (count as usize).min(piece.len());
                self.buffer.add(&piece[..count]);
                self.faults = self.faults.saturating_add(1);
                Err(SinkFailed)
            }
        }
    }
}
