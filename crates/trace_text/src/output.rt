ghost use Rattle.std.specs.Prelude.{◌≡◌, ◌<◌, ◌≤◌, ◌+◌, ◌*◌, ◌++◌, ◌==◌, ◌∷◌, [], IsTrue, length};
ghost use Rattle.replay_io.specs.Writing.{Writes};
ghost use Rattle.rv_exec.specs.Window.{is_inside};
ghost use Rattle.posix_model.specs.Lines.{hex, out_head, out_text, out_line};
ghost use Rattle.trace_text.specs.Output.{IsReadable};
ghost use Rattle.trace_text.specs.Texts.{written};

use crate::line::Line;
use posix_model::Report;
use replay_io::{Sink, SinkFailed};
use rv_exec::Memory;

/// How many bytes go out in one put.
const PIECE: usize = 64;

/// Writes some bytes in hexadecimal, in one put.
fn put_piece<O: Sink>(bytes: &[u8], out: &mut O) -> Result<(), SinkFailed>
    requires { length bytes.now ≤ 64 }
    ensures { Writes result (O.written out.old) (O.written out.new) (O.faults out.old) (O.faults out.new) (hex bytes.now) }
{
    let mut line = Line::new();
    for b in bytes {
        line.hex(*b);
    }
    out.put(line.bytes())
}

/// Writes bytes in hexadecimal, piece by piece.
fn put_hex<O: Sink>(bytes: &[u8], out: &mut O) -> Result<(), SinkFailed>
    ensures { Writes result (O.written out.old) (O.written out.new) (O.faults out.old) (O.faults out.new) (hex bytes.now) }
{
    let mut from = 0usize;
    while from < bytes.len() {
        let count = (bytes.len() - from).min(PIECE);
        put_piece(&bytes[from..from + count], out)?;
        from += count;
    }
    Ok(())
}

/// Writes the head of an out line.
#[tactic(auto, unfolding(posix_model::specs::Lines::out_head))]
fn put_out_head<O: Sink>(tid: u32, fd: u32, out: &mut O) -> Result<(), SinkFailed>
    ensures { Writes result (O.written out.old) (O.written out.new) (O.faults out.old) (O.faults out.new) (out_head tid fd) }
{
    let mut line = Line::new();
    line.text(b"out");
    line.number(u64::from(tid));
    line.number(u64::from(fd));
    line.text(b" ");
    out.put(line.bytes())
}

/// Writes the bytes of an out line and its end.
fn put_out_bytes<O: Sink>(bytes: &[u8], out: &mut O) -> Result<(), SinkFailed>
    ensures { Writes result (O.written out.old) (O.written out.new) (O.faults out.old) (O.faults out.new) (hex bytes.now ++ 10 ∷ []) }
{
    put_hex(bytes, out)?;
    out.put(b"\n")
}

/// Writes the line of what a thread wrote to a descriptor.
fn put_out_text<O: Sink>(tid: u32, fd: u32, bytes: &[u8], out: &mut O) -> Result<(), SinkFailed>
    ensures { Writes result (O.written out.old) (O.written out.new) (O.faults out.old) (O.faults out.new) (out_text tid fd bytes.now) }
{
    put_out_head(tid, fd, out)?;
    put_out_bytes(bytes, out)
}

/// Writes the out line of a move, where it wrote a byte at least.
#[tactic(auto, unfolding(posix_model::specs::Lines::out_line), using(replay_io::proofs::WritingLemmas::writes_nothing))]
pub fn put_out<O: Sink>(r: &Report, mem: &Memory, out: &mut O) -> Result<(), SinkFailed>
    requires { IsReadable r.now mem.now }
    ensures { Writes result (O.written out.old) (O.written out.new) (O.faults out.old) (O.faults out.new) (out_line r.now mem.now) }
{
    if r.out_len == 0 {
        return Ok(());
    }
    put_out_text(
        r.tid,
        r.out_fd,
        mem.part(r.out_buf, r.out_len as usize),
        out,
    )
}

/// Writes the bytes themselves that a move wrote.
#[tactic(auto, using(replay_io::proofs::WritingLemmas::writes_nothing))]
pub fn put_written<O: Sink>(r: &Report, mem: &Memory, out: &mut O) -> Result<(), SinkFailed>
    requires { IsReadable r.now mem.now }
    ensures { Writes result (O.written out.old) (O.written out.new) (O.faults out.old) (O.faults out.new) (written r.now mem.now) }
{
    if r.out_len == 0 {
        return Ok(());
    }
    out.put(mem.part(r.out_buf, r.out_len as usize))
}
