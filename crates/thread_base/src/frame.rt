/// What a frame was pushed for: a signal's handler, or a cleanup routine that is taken off the list and run
/// (POSIX.1 pthread_cleanup_pop). What a thread's exit runs has no frame.
#[derive(Clone, Copy, Debug, PartialEq, Eq)]
pub enum FrameKind {
    Handler,
    Cleanup,
}

/// A cleanup record: the address of a routine, and the argument that it is to be called with
/// (POSIX.1 `pthread_cleanup_push`).
#[derive(Clone, Copy, Debug, Default, PartialEq, Eq)]
pub struct Cleanup {
    pub routine: u32,
    pub arg: u32,
}
