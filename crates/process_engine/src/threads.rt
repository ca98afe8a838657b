ghost use Rattle.std.specs.Prelude.{◌≡◌, true, None, IfSome, is_some};
ghost use Rattle.posix_model.specs.Threads.{exists};
ghost use Rattle.posix_model.specs.Trace.{left};
ghost use Rattle.kernel_state.specs.Records.{thread_in, top_kind};
ghost use Rattle.process_engine.specs.Engine.{moment_of, position_of};
ghost use Rattle.process_engine.specs.Whole.{RunsToEnd};

use crate::Turn;
use crate::process::Process;
use kernel_state::ThreadRecord;
use posix_model::Ending;
use rv_exec::Memory;
use thread_base::{FrameKind, Tid};

impl Process {
    /// Makes the rest of the run, and tells how it ended. Nothing is written, and no memory is taken.
    pub fn run_to_end(&mut self) -> Ending
        ensures ran { RunsToEnd self.old.rules (moment_of self.old) result (moment_of self.new) }
        ensures at_rest { (position_of self.new).telling ≡ None }
        ensures rules { self.new.rules ≡ self.old.rules }
    {
        self.sound();
        loop {
            self.present_due();
            match self.turn() {
                Turn::Quiet => {}
                Turn::Made(_) => {}
                Turn::Ended(ending) => return ending,
            }
        }
    }

    /// What is kept of a thread but for its frames, where no move is in progress; None exactly where there is none.
    pub fn find(&self, t: Tid) -> Option<ThreadRecord>
        requires { (position_of self.now).telling ≡ None }
        ensures thread { IfSome result (λ k. thread_in k ((moment_of self.now).state.threads t).frames ≡ (moment_of self.now).state.threads t) }
        ensures there { is_some result ≡ exists (moment_of self.now).state t }
    {
        self.tables().find(t)
    }

    /// What the last frame of a thread is for that is there, where no move is in progress; None exactly where it has none.
    pub fn top(&self, t: Tid) -> Option<FrameKind>
        requires at_rest { (position_of self.now).telling ≡ None }
        requires there { exists (moment_of self.now).state t ≡ true }
        ensures { result ≡ top_kind ((moment_of self.now).state.threads t).frames }
    {
        self.tables().top(t)
    }

    /// The memory, where no move is in progress.
    pub fn memory(&self) -> &Memory
        requires { (position_of self.now).telling ≡ None }
        ensures { result.now ≡ (moment_of self.now).state.memory }
    {
        self.tables().memory()
    }

    /// How many of each signal still pend, over the process and all threads, where no move is in progress.
    pub fn left(&self) -> [u64; 32]
        requires { (position_of self.now).telling ≡ None }
        ensures { result ≡ left (moment_of self.now).state }
    {
        self.tables().left()
    }
}
