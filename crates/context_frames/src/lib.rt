//! The contexts of the threads: the frames of their handlers and cleanup routines, and the registers that
//! a thread goes on with.
#![tactic(auto)]

mod frames;
#[cfg(test)]
mod tests;

pub use frames::Frames;
use rv_exec::Regs;
pub use thread_base::FrameKind;
use thread_base::SigSet;

/// What a thread goes back to where a handler or a cleanup routine returns: its registers and its mask of signals.
#[derive(Clone, Copy, Debug)]
pub struct Frame {
    pub regs: Regs,
    pub mask: SigSet,
    pub kind: FrameKind,
}

impl Default for Frame {
    /// A blank: registers that are 0, no signal in the mask.
    fn default() -> Frame {
        Frame {
            regs: ZERO,
            mask: SigSet::of(0),
            kind: FrameKind::Handler,
        }
    }
}

/// Where an exit from the kernel goes on that was interrupted: it looks again for what came in meanwhile, or it
/// returns to the thread (this project's own).
#[derive(Clone, Copy, Debug, PartialEq, Eq)]
pub enum TailStep {
    Recheck,
    Return,
}

/// How a thread goes on: in its program, between two instructions; at a step of an exit from the kernel that was
/// interrupted; or afresh, where it never ran (this project's own).
#[derive(Clone, Copy, Debug)]
pub enum Saved {
    User(Regs),
    Tail(Regs, TailStep),
    Fresh(Regs),
}

/// Registers that are 0.
const ZERO: Regs = Regs { pc: 0, x: [0; 32] };
