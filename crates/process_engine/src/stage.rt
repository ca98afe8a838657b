use posix_model::Ending;
use thread_base::Tid;

/// The stage of a process: the thread in place has its turn and made the last instruction, or it has to be seen
/// how the run goes on, or a move is in progress.
#[derive(Clone, Copy, Debug, PartialEq, Eq)]
pub(crate) enum Stage {
    Going,
    Paused,
    InCall,
}

/// How the run went on: a plain instruction of the thread that made the last one, or the first of a turn; a move
/// was begun whose report is still to be told; or the run has ended. Where the thread may have changed, who made
/// the last instruction before.
#[derive(Clone, Copy, Debug, PartialEq, Eq)]
pub(crate) enum Advance {
    Plain,
    Switched(Option<Tid>),
    Begun(Option<Tid>),
    End(Ending),
}
