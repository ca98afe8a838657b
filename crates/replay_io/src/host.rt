ghost use Rattle.std.specs.Prelude.{◌≡◌, ◌≢◌, ◌<◌, ◌≤◌, ◌^◌, ◌+◌, ◌-◌, List, [], ℕ, length, take, min};
ghost use Rattle.std.specs.Prelude.{IfOk, OnOk, OnErr, IfSome, is_ok, if◌then◌else◌, None};
ghost use Rattle.replay_io.specs.Loading.{is_failed};
ghost use Rattle.replay_io.specs.Names.{times, failures_after};
ghost use Rattle.replay_io.specs.Streams.{AppendsFront};
ghost use Rattle.replay_io.specs.Writing.{Rose, Writes};
ghost use Rattle.std.specs.Io.KnownBytes.{Appends, Consumes, IsAtEnd, Keeps};

use crate::failures::Failures;
use crate::files::{Files, LoadRefusal};
use crate::sinks::{Sink, SinkFailed};
use std::alloc::Global;
use std::io::{ErrorKind, Read, Write};
use std::marker::Model;
use std::{fs, rt};

/// Real files, which tell nothing of their content (POSIX.1 open and read). Clauses see the names
/// whose load failed, in order.
#[derive(Drop)]
pub struct HostFiles<R: rt::Files + Drop> {
    rt: R,
    failures: Failures,
}

impl<R: rt::Files + Drop> Model for HostFiles<R> {
    ghost use Rattle.std.specs.Prelude.{List, ℕ};

    ghost Value = { List (List ℕ) };

    ghost view = { λ f. f.failures };
}

impl<R: rt::Files + Drop> HostFiles<R> {
    /// The files of a runtime. No load has failed yet.
    pub fn new(alloc: Global, rt: R) -> Self
        ensures { result ≡ [] }
    {
        HostFiles {
            rt,
            failures: Failures::new(alloc),
        }
    }
}

/// One read, made again where a signal interrupts it.
fn read_some<F: Read>(file: &mut F, piece: &mut [u8]) -> Result<usize, LoadRefusal>
    ensures fits { IfOk result (λ count. count ≤ length piece.old) }
    ensures ok { IfOk result (λ count.
        Consumes (F.remaining file.old) (F.remaining file.new) (take count piece.new)) }
    ensures end { IfOk result (λ count. count ≡ 0 → 0 < length piece.old → IsAtEnd (F.remaining file.new)) }
{
    for _ in 0..u64::MAX {
        match file.read(piece) {
            Ok(count) => return Ok(count),
            Err(error) if error.kind() == ErrorKind::Interrupted => {}
            Err(_) => return Err(LoadRefusal::Failed),
        }
    }
    Err(LoadRefusal::Failed)
}

/// The first `most + 1` bytes that a reader gives, or all where it gives fewer.
fn read_front<F: Read>(alloc: Global, file: &mut F, most: usize) -> Result<Vec<u8>, LoadRefusal>
    requires { most < 2 ^ 31 }
    ensures long { IfOk result (λ v. length v.items ≤ most + 1) }
    ensures bytes { IfOk result (λ v. IfSome (F.remaining file.old) (λ all. v.items ≡ take (most + 1) all)) }
{
    let mut bytes = Vec::new(alloc);
    let mut piece = [0u8; 4096];
    while bytes.len() <= most {
        let count = read_some(file, &mut piece)?;
        if count == 0 {
            return Ok(bytes);
        }
        if bytes.extend_from_slice(&piece[..count]).is_err() {
            return Err(LoadRefusal::NoMemory);
        }
    }
    bytes.truncate(most + 1);
    Ok(bytes)
}

/// The first `most + 1` bytes of a real file, or all where it is shorter.
fn read_file<R: rt::Files>(
    rt: &R,
    alloc: Global,
    name: &str,
    most: usize,
) -> Result<Vec<u8>, LoadRefusal>
    requires { most < 2 ^ 31 }
    ensures { IfOk result (λ v. length v.items ≤ most + 1) }
{
    let Ok(mut file) = fs::open(rt, name) else {
        return Err(LoadRefusal::Failed);
    };
    read_front(alloc, &mut file, most)
}

impl<R: rt::Files + Drop> Files for HostFiles<R> {
    ghost content = { λ _ _. None };

    ghost faults = { λ f n. times n f };

    #[tactic(auto, using(crate::proofs::NamesLemmas::counts))]
    fn load(&mut self, alloc: Global, name: &str, most: usize) -> Result<Vec<u8>, LoadRefusal>
        requires { most < 2 ^ 31 }
        ensures long { IfOk result (λ v. length v.items ≤ most + 1) }
        ensures others { (n : List ℕ) → n ≢ name.now → times n self.new ≡ times n self.old }
        ensures later { times name.now self.old ≤ times name.now self.new }
        ensures failed { result ≡ Err LoadRefusal.Failed → Rose (times name.now self.old) (times name.now self.new) }
        ensures kept { (result ≢ Err LoadRefusal.Failed) → times name.now self.new ≡ times name.now self.old }
        // Beside what each load ensures: the names that this one leaves.
        ensures after { self.new ≡ failures_after self.old name.now (is_failed result) }
    {
        if self.failures.push(alloc, name).is_err() {
            return Err(LoadRefusal::NoMemory);
        }
        let answer = read_file(&self.rt, alloc, name, most);
        self.failures.settle(&answer);
        answer
    }
}

/// A real stream (POSIX.1 write), flushed at each put. As a sink it tells nothing of what it wrote.
/// Clauses see how often a put has failed, and what the writer holds, where the writer tells that.
#[derive(Drop)]
pub struct HostOut<W: Write + Drop> {
    writer: W,
    faults: u64,
}

impl<W: Write + Drop> Model for HostOut<W> {
    ghost use Rattle.replay_io.specs.Streams.{Stream};

    ghost Value = { Stream };

    ghost view = { λ s. record { held = W.contents s.writer; faults = s.faults } };
}

impl<W: Write + Drop> HostOut<W> {
    /// The stream of a writer. No put has failed yet.
    pub fn new(writer: W) -> Self
        ensures { result ≡ record { held = W.contents writer; faults = 0 } }
    {
        HostOut { writer, faults: 0 }
    }
}

/// One write, made again where a signal interrupts it. It fails where it takes nothing.
fn write_some<W: Write>(writer: &mut W, piece: &[u8]) -> Result<usize, SinkFailed>
    ensures some { IfOk result (λ count. 0 < count) }
    ensures fits { IfOk result (λ count. count ≤ length piece.now) }
    ensures ok { IfOk result (λ count.
        Appends (W.contents writer.old) (W.contents writer.new) (take count piece.now)) }
    ensures err { OnErr result (Keeps (W.contents writer.old) (W.contents writer.new)) }
{
    for _ in 0..u64::MAX {
        match writer.write(piece) {
            Ok(0) => return Err(SinkFailed),
            Ok(count) => return Ok(count),
            Err(error) if error.kind() == ErrorKind::Interrupted => {}
            Err(_) => return Err(SinkFailed),
        }
    }
    Err(SinkFailed)
}

/// Writes a whole piece, and has it leave the writer where that keeps bytes back.
/// The first failure ends it.
fn write_whole<W: Write>(writer: &mut W, piece: &[u8]) -> Result<(), SinkFailed>
    ensures ok { OnOk result (Appends (W.contents writer.old) (W.contents writer.new) piece.now) }
    ensures err { OnErr result (AppendsFront (W.contents writer.old) (W.contents writer.new) piece.now) }
{
    let mut rest = piece;
    while !rest.is_empty() {
        let count = write_some(writer, rest)?;
        rest = &rest[count..];
    }
    if writer.flush().is_err() {
        return Err(SinkFailed);
    }
    Ok(())
}

impl<W: Write + Drop> Sink for HostOut<W> {
    ghost written = { λ _. None };

    ghost faults = { λ s. s.faults };

    fn put(&mut self, piece: &[u8]) -> Result<(), SinkFailed>
        ensures writes { Writes result None None self.old.faults self.new.faults piece.now }
        // Beside what each put ensures: how the count rises, and what the writer took, if it tells.
        ensures count { self.new.faults
            ≡ (if is_ok result then self.old.faults else min (self.old.faults + 1) (2 ^ 64 - 1)) }
        ensures ok { OnOk result (Appends self.old.held self.new.held piece.now) }
        ensures err { OnErr result (AppendsFront self.old.held self.new.held piece.now) }
    {
        if write_whole(&mut self.writer, piece).is_err() {
            self.faults = self.faults.saturating_add(1);
            return Err(SinkFailed);
        }
        Ok(())
    }
}

#[cfg(test)]
mod tests {
    use super::*;
    use std::io;
    use std::test::Fail;

    /// Takes or gives at most `step` bytes at a call. Its first call is interrupted, the call of the
    /// number `fails_at` fails, and each flush may fail.
    #[derive(Drop)]
    struct Pipe {
        bytes: Vec<u8>,
        step: usize,
        calls: u32,
        fails_at: u32,
        flush_fails: bool,
    }

    impl Pipe {
        fn next_call(&mut self) -> io::Result<()> {
            self.calls = self.calls.saturating_add(1);
            if self.calls == 1 {
                return Err(io::Error::from(ErrorKind::Interrupted));
            }
            if self.calls == self.fails_at {
                return Err(io::Error::from(ErrorKind::BrokenPipe));
            }
            Ok(())
        }
    }

    impl Write for Pipe {
        fn write(&mut self, piece: &[u8]) -> io::Result<usize> {
            self.next_call()?;
            let count = piece.len().min(self.step);
            self.bytes.extend_from_slice(&piece[..count])?;
            Ok(count)
        }

        fn flush(&mut self) -> io::Result<()> {
            if self.flush_fails {
                return Err(io::Error::from(ErrorKind::BrokenPipe));
            }
            Ok(())
        }
    }

    impl Read for Pipe {
        fn read(&mut self, piece: &mut [u8]) -> io::Result<usize> {
            self.next_call()?;
            let count = self.bytes.len().min(self.step).min(piece.len());
            for (to, from) in piece.iter_mut().zip(self.bytes.drain(..count)) {
                *to = from;
            }
            Ok(count)
        }
    }

    #[test]
    fn writes_whole_pieces(rt: HostRuntime) -> Result<(), Fail> {
        let rows: [(usize, u32, bool, bool, &[u8]); 5] = [
            (3, 0, false, true, b"abcd"),
            (9, 0, false, true, b"abcd"),
            (3, 3, false, false, b"abc"),
            (0, 0, false, false, b""),
            (3, 0, true, false, b"abcd"),
        ];
        for (row, (step, fails_at, flush_fails, answer, bytes)) in rows.iter().enumerate() {
            let mut out = HostOut::new(Pipe {
                bytes: Vec::new(rt.alloc()),
                step: *step,
                calls: 0,
                fails_at: *fails_at,
                flush_fails: *flush_fails,
            });
            assert_eq!(rt; out.put(b"abcd").is_ok(), *answer, "row {row}");
            assert_eq!(rt; out.writer.bytes.as_slice(), *bytes, "row {row}");
        }
        assert_eq!(rt; HostOut::new(rt.stdout()).put(b""), Ok(()));
        assert_eq!(rt; HostOut::new(rt.stderr()).put(b""), Ok(()));
        Ok(())
    }

    #[test]
    fn reads_fronts_of_files(rt: HostRuntime) -> Result<(), Fail> {
        let alloc = rt.alloc();
        let mut pipe = Pipe {
            bytes: Vec::from_slice(alloc, b"abcdefg")?,
            step: 2,
            calls: 0,
            fails_at: 5,
            flush_fails: false,
        };
        assert_eq!(rt;
            read_front(alloc, &mut pipe, 2)?.as_slice(),
            b"abc".as_slice()
        );
        assert!(rt; matches!(read_front(alloc, &mut pipe, 9), Err(LoadRefusal::Failed)));
        let mut files = HostFiles::new(alloc, rt.clone()?);
        let rows: [(&str, Option<&[u8]>); 4] = [
            ("/dev/null", Some(b"")),
            ("/dev/zero", Some(&[0; 6])),
            ("/", None),
            ("/no/such/file", None),
        ];
        for (name, bytes) in rows {
            let answer = files.load(alloc, name, 5);
            match bytes {
                Some(bytes) => assert_eq!(rt; answer?.as_slice(), bytes, "{name}"),
                None => assert!(rt; matches!(answer, Err(LoadRefusal::Failed)), "{name}"),
            }
        }
        Ok(())
    }
}
