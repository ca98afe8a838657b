ghost use Rattle.std.specs.Prelude.{◌≡◌, ◌==◌, ◌++◌, ◌<◌, ◌≤◌, ◌↔◌, [], ◌∷◌, not, length, IfOk, IsNone, if◌then◌else◌};
ghost use Rattle.std.specs.Option.{option_map};
ghost use Rattle.thread_base.specs.Maps.{put};
ghost use Rattle.context_frames.specs.Contexts.{stack_of, saved_of, top_of, below_top, zero_registers};

use crate::{Frame, FrameKind, Saved, ZERO};
use link_arena::Stacks;
use std::alloc::Global;
use std::marker::Model;
use thread_base::{NoMemory, Tid};

/// The stacks of frames and the saved contexts of all threads. Their memory is taken when they are made.
#[derive(Drop)]
pub struct Frames {
    stacks: Stacks,
    /// The frame of each node.
    frames: Vec<Frame>,
    saved: Vec<Saved>,
}

impl Model for Frames {
    ghost use Rattle.std.specs.Prelude.{◌≡◌, length};
    ghost use Rattle.link_arena.specs.Stacking.{stack_at, HavePlaces};
    ghost use Rattle.context_frames.specs.Contexts.{Contexts};

    ghost Value = { Contexts };

    ghost view = { λ f. record { lists = f.stacks; frames = f.frames.items; saved = f.saved.items } };

    ghost invariant = { λ f. HavePlaces f.frames.items (stack_at f.stacks) × (length f.saved.items ≡ 64) };
}

#[tactic(auto, unfolding(crate::specs::Contexts::stack_of, crate::specs::Contexts::saved_of), using(thread_base::proofs::MapLemmas::numbered_set, thread_base::proofs::MapLemmas::numbered_read))]
impl Frames {
    /// No frame, and no context was saved. NoMemory comes only where memory ran out; no later call takes any.
    pub fn new(alloc: Global) -> Result<Frames, NoMemory>
        ensures frames { IfOk result (λ f. stack_of f ≡ (λ _. [])) }
        ensures saved { IfOk result (λ f. saved_of f ≡ (λ _. Saved.Fresh zero_registers)) }
    {
        let stacks = Stacks::new(alloc)?;
        let frames = blanks(alloc)?;
        let Ok(saved) = Vec::from_slice(alloc, &[Saved::Fresh(ZERO); 64]) else {
            return Err(NoMemory);
        };
        Ok(Frames {
            stacks,
            frames,
            saved,
        })
    }

    /// Pushes a frame on a thread's stack; false, and nothing changes, exactly where the thread has 32 frames.
    pub fn push(&mut self, t: Tid, f: Frame) -> bool
        ensures room { result ≡ not (length (stack_of self.old t) == 32) }
        ensures frames { stack_of self.new
            ≡ (if result then put (stack_of self.old) t (stack_of self.old t ++ f ∷ []) else stack_of self.old) }
        ensures saved { saved_of self.new ≡ saved_of self.old }
    {
        let Some(node) = self.stacks.push(t) else {
            return false;
        };
        self.frames[node as usize] = f;
        true
    }

    /// Takes the frame on top of a thread's stack off; None exactly where the stack is empty.
    pub fn pop(&mut self, t: Tid) -> Option<Frame>
        ensures top { result ≡ top_of (stack_of self.old t) }
        ensures empty { IsNone result ↔ (stack_of self.old t ≡ []) }
        ensures frames { stack_of self.new ≡ put (stack_of self.old) t (below_top (stack_of self.old t)) }
        ensures saved { saved_of self.new ≡ saved_of self.old }
    {
        let node = self.stacks.pop(t)?;
        Some(self.frames[node as usize])
    }

    /// What the frame on top of a thread's stack is for; None exactly where the stack is empty.
    pub fn top(&self, t: Tid) -> Option<FrameKind>
        ensures top { result ≡ option_map (λ f. f.kind) (top_of (stack_of self.now t)) }
        ensures empty { IsNone result ↔ (stack_of self.now t ≡ []) }
    {
        let node = self.stacks.top(t)?;
        Some(self.frames[node as usize].kind)
    }

    /// How many frames a thread has, at most 32.
    pub fn depth(&self, t: Tid) -> u32
        ensures frames { result ≡ length (stack_of self.now t) }
        ensures limit { result ≤ 32 }
    {
        self.stacks.depth(t)
    }

    /// Takes all of a thread's frames off.
    pub fn drop_all(&mut self, t: Tid)
        ensures frames { stack_of self.new ≡ put (stack_of self.old) t [] }
        ensures saved { saved_of self.new ≡ saved_of self.old }
    {
        self.stacks.clear(t);
    }

    /// Saves how a thread goes on, in place of what was saved before.
    pub fn save(&mut self, t: Tid, s: Saved)
        ensures saved { saved_of self.new ≡ put (saved_of self.old) t s }
        ensures frames { stack_of self.new ≡ stack_of self.old }
    {
        self.saved[t.index()] = s;
    }

    /// How a thread goes on: what was saved last, and Fresh with registers that are 0 where nothing was.
    pub fn saved(&self, t: Tid) -> Saved
        ensures { result ≡ saved_of self.now t }
    {
        self.saved[t.index()]
    }
}

/// A blank frame for each node.
fn blanks(alloc: Global) -> Result<Vec<Frame>, NoMemory>
    ensures { IfOk result (λ v. length v.items ≡ 2048) }
{
    let Ok(mut frames) = Vec::with_capacity(alloc, 2048) else {
        return Err(NoMemory);
    };
    for index in 0..2048u32 {
        if frames.push(Frame::default()).is_err() {
            return Err(NoMemory);
        }
    }
    Ok(frames)
}
