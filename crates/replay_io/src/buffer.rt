ghost use Rattle.std.specs.Prelude.{◌≡◌, IfOk};
ghost use Rattle.replay_io.specs.Store.{empty_store, store_after};

use std::alloc::Global;
use std::marker::Model;
use thread_base::NoMemory;

/// Bytes up to a limit, for the sinks in memory. Those beyond it are counted and not kept.
#[derive(Drop)]
pub struct Buffer {
    bytes: Vec<u8>,
    room: usize,
    lost: u64,
}

impl Model for Buffer {
    ghost use Rattle.std.specs.Prelude.{◌≤◌, vec_len, vec_capacity};
    ghost use Rattle.replay_io.specs.Store.{Store};

    ghost Value = { Store };

    ghost view = { λ k. record { bytes = k.bytes.items; room = k.room; lost = k.lost } };

    ghost invariant = { λ k. (vec_len k.bytes ≤ k.room) × (k.room ≤ vec_capacity k.bytes) };
}

impl Buffer {
    /// Nothing is kept yet. It takes its memory here.
    pub fn new(alloc: Global, room: u32) -> Result<Buffer, NoMemory>
        ensures { IfOk result (λ k. k ≡ empty_store room) }
    {
        let room = room as usize;
        let Ok(bytes) = Vec::with_capacity(alloc, room) else {
            return Err(NoMemory);
        };
        Ok(Buffer {
            bytes,
            room,
            lost: 0,
        })
    }

    /// The bytes that were kept.
    pub fn bytes(&self) -> &[u8]
        ensures { result.now ≡ self.now.bytes }
    {
        &self.bytes
    }

    /// Keeps what there is room for, and counts the rest. It takes no memory.
    #[tactic(auto, unfolding(crate::specs::Store::store_after))]
    pub fn add(&mut self, piece: &[u8])
        ensures { self.new ≡ store_after self.old piece.now }
    {
        let fits = piece.len().min(self.room - self.bytes.len());
        let kept = self.bytes.extend_from_slice(&piece[..fits]).is_ok();
        prove!(kept);
        self.lost = self.lost.saturating_add((piece.len() - fits) as u64);
    }
}
