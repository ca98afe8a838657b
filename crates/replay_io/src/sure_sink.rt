ghost use Rattle.std.specs.Prelude.{◌≡◌, List, ℕ, IfOk, IfSome, IsOk};
ghost use Rattle.replay_io.specs.Store.{empty_store, store_after, told};
ghost use Rattle.replay_io.specs.Writing.{Writes};

use crate::buffer::Buffer;
use crate::sinks::{Sink, SinkFailed};
use std::alloc::Global;
use std::marker::Model;
use thread_base::NoMemory;

/// A sink in memory that keeps the first `room` bytes, and whose puts never fail.
#[derive(Drop)]
pub struct SureSink {
    buffer: Buffer,
}

impl Model for SureSink {
    ghost use Rattle.replay_io.specs.Store.{Store};

    ghost Value = { Store };

    ghost view = { λ s. s.buffer };
}

impl SureSink {
    /// An empty sink, which takes its memory here.
    pub fn new(alloc: Global, room: u32) -> Result<SureSink, NoMemory>
        ensures { IfOk result (λ s. s ≡ empty_store room) }
    {
        let buffer = Buffer::new(alloc, room)?;
        Ok(SureSink { buffer })
    }

    /// The bytes that were kept.
    pub fn bytes(&self) -> &[u8]
        ensures kept { result.now ≡ self.now.bytes }
        ensures told { IfSome (told self.now) (λ bytes. result.now ≡ bytes) }
    {
        self.buffer.bytes()
    }
}

impl Sink for SureSink {
    ghost written = { told };

    ghost faults = { λ _. 0 };

    fn put(&mut self, piece: &[u8]) -> Result<(), SinkFailed>
        ensures writes { Writes result (told self.old) (told self.new) 0 0 piece.now }
        // Beside what each put ensures: that this one is taken, and what it leaves.
        ensures sure { IsOk result }
        ensures after { self.new ≡ store_after self.old piece.now }
    {
        self.buffer.add(piece);
        Ok(())
    }
}
