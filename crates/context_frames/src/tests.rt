use crate::{Frame, FrameKind, Frames, Saved, TailStep};
use rv_exec::Regs;
use std::test::Fail;
use thread_base::{SigSet, Tid};

/// Registers that are told apart by pc.
fn regs(pc: u32) -> Regs {
    Regs { pc, x: [0; 32] }
}

/// A frame that is told apart by pc and by its mask.
fn frame(pc: u32, kind: FrameKind) -> Frame {
    Frame {
        regs: regs(pc),
        mask: SigSet::of(pc),
        kind,
    }
}

/// The pc, the mask and the kind of a frame.
fn parts(frame: Option<Frame>) -> Option<(u32, SigSet, FrameKind)> {
    let frame = frame?;
    Some((frame.regs.pc, frame.mask, frame.kind))
}

/// The number of a context's variant, and its pc.
fn told(saved: Saved) -> (u32, u32) {
    match saved {
        Saved::User(regs) => (0, regs.pc),
        Saved::Tail(regs, TailStep::Recheck) => (1, regs.pc),
        Saved::Tail(regs, TailStep::Return) => (2, regs.pc),
        Saved::Fresh(regs) => (3, regs.pc),
    }
}

#[test]
fn at_most_32_frames(rt: HostRuntime) -> Result<(), Fail> {
    let mut frames = Frames::new(rt.alloc())?;
    let t = Tid::new(64).ok_or("number")?;
    let other = Tid::new(63).ok_or("number")?;
    assert_eq!(rt; frames.top(t), None);
    for pc in 0..32u32 {
        assert!(rt; frames.push(t, frame(pc, FrameKind::Handler)), "frame {pc}");
    }
    assert!(rt; !frames.push(t, frame(32, FrameKind::Cleanup)));
    assert_eq!(rt; frames.depth(t), 32);
    assert_eq!(rt; frames.depth(other), 0);
    for pc in 0..32u32 {
        let below = 31 - pc;
        let popped = parts(frames.pop(t));
        assert_eq!(rt;
            popped,
            Some((below, SigSet::of(below), FrameKind::Handler))
        );
    }
    assert_eq!(rt; parts(frames.pop(t)), None);
    Ok(())
}

#[test]
fn tops_and_drops(rt: HostRuntime) -> Result<(), Fail> {
    let mut frames = Frames::new(rt.alloc())?;
    let t = Tid::new(1).ok_or("number")?;
    let other = Tid::new(2).ok_or("number")?;
    assert!(rt; frames.push(t, frame(8, FrameKind::Handler)));
    assert!(rt; frames.push(t, frame(12, FrameKind::Cleanup)));
    assert!(rt; frames.push(other, frame(16, FrameKind::Handler)));
    assert_eq!(rt; frames.top(t), Some(FrameKind::Cleanup));
    assert_eq!(rt; frames.top(other), Some(FrameKind::Handler));
    frames.drop_all(t);
    assert_eq!(rt; frames.depth(t), 0);
    assert_eq!(rt; frames.top(t), None);
    assert_eq!(rt; frames.depth(other), 1);
    assert_eq!(rt; frames.top(other), Some(FrameKind::Handler));
    Ok(())
}

#[test]
fn last_context_is_saved(rt: HostRuntime) -> Result<(), Fail> {
    let mut frames = Frames::new(rt.alloc())?;
    let t = Tid::new(64).ok_or("number")?;
    let other = Tid::new(1).ok_or("number")?;
    assert_eq!(rt; told(frames.saved(t)), (3, 0));
    frames.save(t, Saved::User(regs(4)));
    assert_eq!(rt; told(frames.saved(t)), (0, 4));
    frames.save(t, Saved::Tail(regs(8), TailStep::Recheck));
    frames.save(other, Saved::Tail(regs(12), TailStep::Return));
    assert_eq!(rt; told(frames.saved(t)), (1, 8));
    assert_eq!(rt; told(frames.saved(other)), (2, 12));
    frames.save(t, Saved::Fresh(regs(16)));
    assert_eq!(rt; told(frames.saved(t)), (3, 16));
    Ok(())
}
