//! What the tests replay: cases with whatever fails in them.

use crate::{Status, replay, tell_places};
use replay_io::{MemFiles, MemSink, Words};
use std::alloc::Global;
use std::process::Abort;
use std::str;
use std::test::Fail;

/// The journal without entries.
pub const EMPTY: &[u8] = b"fsu-journal 1\n";

/// What a replay is given, and what it must answer.
#[derive(Clone, Copy)]
pub struct Case<'a> {
    pub words: &'a [&'a str],
    pub image: &'a [u8],
    pub journal: &'a [u8],
    pub failing_loads: &'a [u32],
    pub failing_puts: &'a [(u32, u32)],
    pub status: Status,
    pub out: &'a [u8],
    pub err: &'a [u8],
}

/// A case in which nothing fails.
pub fn given<'a>(
    image: &'a [u8],
    journal: &'a [u8],
    status: Status,
    out: &'a [u8],
    err: &'a [u8],
) -> Case<'a> {
    Case {
        words: &["image", "journal"],
        image,
        journal,
        failing_loads: &[],
        failing_puts: &[],
        status,
        out,
        err,
    }
}

/// What a call is given and what it writes, in memory.
#[derive(Drop)]
struct World {
    words: Words,
    files: MemFiles,
    out: MemSink,
    err: MemSink,
}

/// The words, the files and the empty sinks of a case.
fn make_world(alloc: Global, case: &Case<'_>) -> Result<World, Fail> {
    let mut words = Words::new(alloc);
    for word in case.words {
        words.push(word)?;
    }
    let mut files = MemFiles::new(alloc, case.failing_loads)?;
    files.add("image", case.image)?;
    files.add("journal", case.journal)?;
    Ok(World {
        words,
        files,
        out: MemSink::new(alloc, 8192, case.failing_puts)?,
        err: MemSink::new(alloc, 4096, &[])?,
    })
}

/// Compares status, output and the line that tells why with what they must be.
fn compare(rt: &impl Abort, case: &Case<'_>, world: &World, status: Status) {
    assert_eq!(rt; status, case.status);
    assert_eq!(rt; str::from_utf8(world.out.bytes()), str::from_utf8(case.out));
    assert_eq!(rt; world.err.bytes(), case.err);
}

/// Replays a case over memory, and compares what comes of it.
pub fn check(rt: &impl Abort, alloc: Global, case: &Case<'_>) -> Result<(), Fail> {
    let mut world = make_world(alloc, case)?;
    let World {
        words,
        files,
        out,
        err,
    } = &mut world;
    let status = replay(alloc, words, files, out, err);
    compare(rt, case, &world, status);
    Ok(())
}

/// Tells the places of a case over memory, and compares what comes of it.
pub fn check_places(rt: &impl Abort, alloc: Global, case: &Case<'_>) -> Result<(), Fail> {
    let mut world = make_world(alloc, case)?;
    let World {
        words,
        files,
        out,
        err,
    } = &mut world;
    let status = tell_places(alloc, words, files, out, err);
    compare(rt, case, &world, status);
    Ok(())
}
