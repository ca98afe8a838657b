//! Runs an image of thread programs as `fsu_replay` does, and tells where its threads stand at the end:
//! `fsu_where IMAGE JOURNAL [--budget N] [--quantum Q] [--mem BYTES] [--plain]`.
#![tactic(auto)]

use replay_cli::{Failure, Status, tell_places};
use replay_io::{HostFiles, HostOut, Sink, Words};
use std::alloc::Global;
use std::io::ErrorKind;
use std::process::ExitCode;
use std::{env, io};
use thread_base::NoMemory;

/// The exit code where the system does not give the words of the command line.
const NO_WORDS: u8 = 9;

/// Why there are no words: the system does not give them, or memory ran out.
enum WordsError {
    NotGiven,
    NoMemory,
}

impl From<NoMemory> for WordsError {
    fn from(_: NoMemory) -> WordsError {
        WordsError::NoMemory
    }
}

impl From<io::Error> for WordsError {
    fn from(error: io::Error) -> WordsError {
        match error.kind() {
            ErrorKind::OutOfMemory => WordsError::NoMemory,
            _ => WordsError::NotGiven,
        }
    }
}

/// The words of the command line, without the program's own name.
fn read_words(rt: &HostRuntime, alloc: Global) -> Result<Words, WordsError> {
    let mut words = Words::new(alloc);
    for word in env::args(rt)?.skip(1) {
        words.push(word.as_str())?;
    }
    Ok(words)
}

/// Tells that memory ran out, and gives the exit code.
fn no_memory<E: Sink>(err: &mut E) -> ExitCode {
    let _ = Failure::Memory.put_line("fsu_where", err);
    ExitCode::from(Status::NoMemory.code())
}

fn main(rt: HostRuntime) -> ExitCode {
    let alloc = rt.alloc();
    let mut out = HostOut::new(rt.stdout());
    let mut err = HostOut::new(rt.stderr());
    let words = match read_words(&rt, alloc) {
        Ok(words) => words,
        Err(WordsError::NoMemory) => return no_memory(&mut err),
        Err(WordsError::NotGiven) => {
            let _ = err.put(b"fsu_where: cannot get words\n");
            return ExitCode::from(NO_WORDS);
        }
    };
    let Ok(files_rt) = rt.clone() else {
        return no_memory(&mut err);
    };
    let mut files = HostFiles::new(alloc, files_rt);
    let status = tell_places(alloc, &words, &mut files, &mut out, &mut err);
    ExitCode::from(status.code())
}
