ghost use Rattle.std.specs.Prelude.{◌≡◌, ◌<◌, ◌≤◌, ◌+◌, ◌++◌, ◌∷◌, [], codes, length};
ghost use Rattle.replay_io.specs.Writing.{Writes};
ghost use Rattle.posix_model.specs.Lines.{line, number, arrival, reply_text, special_text, head_line, alarm_line, took_line, gone_line, done_line, done_lines, count_lines, out_line, first_lines, signal_lines, thread_lines, lines, run_line, end_line, end_lines};
ghost use Rattle.trace_text.specs.Output.{IsReadable};
ghost use Rattle.trace_text.specs.Texts.{lines_in};

use crate::Mode;
use crate::counts::put_counts_under;
use crate::line::{Line, put_line};
use crate::output::{put_out, put_written};
use posix_model::{Ending, Head, Reply, Report};
use replay_io::{Sink, SinkFailed};
use rv_exec::{Memory, Special};
use thread_base::{Sig, Tid};

impl Line {
    /// Appends a reply.
    fn reply(&mut self, reply: Reply)
        requires { length self.old + 42 ≤ 200 }
        ensures text { self.new ≡ self.old ++ reply_text reply }
        ensures room { length self.new ≤ length self.old + 42 }
    {
        match reply {
            Reply::Values(error, value) => {
                self.number(u64::from(error));
                self.number(u64::from(value));
            }
            Reply::Block => self.text(b" block"),
            Reply::Exit => self.text(b" exit"),
            Reply::Cancel => self.text(b" cancel"),
            Reply::Enter => self.text(b" enter"),
            Reply::End => self.text(b" end"),
        }
    }

    /// Appends the name of a special return.
    fn special(&mut self, which: Special)
        requires { length self.old + 8 ≤ 200 }
        ensures text { self.new ≡ self.old ++ special_text which }
        ensures room { length self.new ≤ length self.old + 8 }
    {
        match which {
            Special::Handler => self.text(b" handler"),
            Special::Cleanup => self.text(b" cleanup"),
            Special::Start => self.text(b" start"),
        }
    }
}

/// Writes the line of a call.
#[tactic(auto, unfolding(posix_model::specs::Lines::head_line))]
fn put_call<O: Sink>(
    tid: u32,
    no: u32,
    args: &[u32; 4],
    reply: Reply,
    out: &mut O,
) -> Result<(), SinkFailed>
    ensures { Writes result (O.written out.old) (O.written out.new) (O.faults out.old) (O.faults out.new) (head_line tid (Head.Call no args.now reply)) }
{
    let mut line = Line::new();
    line.text(b"call");
    line.number(u64::from(tid));
    line.number(u64::from(no));
    line.arguments(args);
    line.text(b" =");
    line.reply(reply);
    line.text(b"\n");
    out.put(line.bytes())
}

/// Writes the line of a special return.
#[tactic(auto, unfolding(posix_model::specs::Lines::head_line))]
fn put_return<O: Sink>(tid: u32, which: Special, out: &mut O) -> Result<(), SinkFailed>
    ensures { Writes result (O.written out.old) (O.written out.new) (O.faults out.old) (O.faults out.new) (head_line tid (Head.Ret which)) }
{
    let mut line = Line::new();
    line.text(b"ret");
    line.number(u64::from(tid));
    line.special(which);
    line.text(b"\n");
    out.put(line.bytes())
}

/// Writes the line of an arrival: its entries, its word and its numbers.
fn put_arrival<O: Sink>(
    entries: &[u64],
    word: &[u8],
    numbers: &[u64],
    out: &mut O,
) -> Result<(), SinkFailed>
    requires entries { length entries.now ≤ 2 }
    requires word { length word.now ≤ 5 }
    requires numbers { length numbers.now ≤ 1 }
    ensures { Writes result (O.written out.old) (O.written out.new) (O.faults out.old) (O.faults out.new) (arrival entries.now word.now numbers.now) }
{
    let mut line = Line::new();
    line.text(b"arrive");
    line.numbers(entries);
    line.text(word);
    line.numbers(numbers);
    line.text(b"\n");
    out.put(line.bytes())
}

/// Writes the main line of a move; a plain instruction has none.
#[tactic(auto, unfolding(posix_model::specs::Lines::head_line), using(replay_io::proofs::WritingLemmas::writes_nothing))]
fn put_head<O: Sink>(tid: u32, head: &Head, out: &mut O) -> Result<(), SinkFailed>
    ensures { Writes result (O.written out.old) (O.written out.new) (O.faults out.old) (O.faults out.new) (head_line tid head.now) }
{
    match *head {
        Head::Quiet => Ok(()),
        Head::Call { no, args, reply } => put_call(tid, no, &args, reply, out),
        Head::Ret(which) => put_return(tid, which, out),
        Head::Fault(sig) => put_line(b"fault", &[u64::from(tid), u64::from(sig.number())], out),
        Head::ArriveSig { first, count, sig } => {
            let entries = [u64::from(first), u64::from(count)];
            put_arrival(&entries, b" sig", &[u64::from(sig.number())], out)
        }
        Head::ArriveTick { first } => put_arrival(&[u64::from(first)], b" tick", &[], out),
        Head::ArriveData { first, len } => put_arrival(
            &[u64::from(first)],
            b" data",
            &[u64::from(len)],
            out,
        ),
        Head::ArriveEof { first } => put_arrival(&[u64::from(first)], b" eof", &[], out),
        Head::Deliver { to, sig, count } => put_signal(b"deliver", to, sig, count, out),
        Head::Accept { to, sig, count } => put_signal(b"accept", to, sig, count, out),
        Head::Interrupt { to, sig, count } => put_signal(b"interrupt", to, sig, count, out),
        Head::Cancel { to } => put_line(b"cancel", &[u64::from(to)], out),
    }
}

/// Writes the line of a signal and its count that go to a thread.
fn put_signal<O: Sink>(
    word: &[u8],
    to: u32,
    sig: Sig,
    count: u64,
    out: &mut O,
) -> Result<(), SinkFailed>
    requires { length word.now ≤ 12 }
    ensures { Writes result (O.written out.old) (O.written out.new) (O.faults out.old) (O.faults out.new) (line word.now (to ∷ sig ∷ count ∷ [])) }
{
    put_line(word, &[u64::from(to), u64::from(sig.number()), count], out)
}

/// Writes the alarm line, where the alarm went off.
#[tactic(auto, unfolding(posix_model::specs::Lines::alarm_line), using(replay_io::proofs::WritingLemmas::writes_nothing))]
fn put_alarm<O: Sink>(r: &Report, out: &mut O) -> Result<(), SinkFailed>
    ensures { Writes result (O.written out.old) (O.written out.new) (O.faults out.old) (O.faults out.new) (alarm_line r.now) }
{
    if r.alarm {
        return out.put(b"alarm\n");
    }
    Ok(())
}

/// Writes the line of a signal that was accepted or delivered beside the main line.
#[tactic(auto, unfolding(posix_model::specs::Lines::took_line), using(replay_io::proofs::WritingLemmas::writes_nothing))]
fn put_took<O: Sink>(r: &Report, out: &mut O) -> Result<(), SinkFailed>
    ensures { Writes result (O.written out.old) (O.written out.new) (O.faults out.old) (O.faults out.new) (took_line r.now) }
{
    let sig = u64::from(r.took_sig);
    match r.took {
        0 => Ok(()),
        1 => put_line(b"accept", &[u64::from(r.tid), sig, r.took_count], out),
        _ => {
            let to = if r.took_sig == 9 { 0 } else { u64::from(r.tid) };
            put_line(b"deliver", &[to, sig, r.took_count], out)
        }
    }
}

/// Writes the line of a thread's end, where it ended.
#[tactic(auto, unfolding(posix_model::specs::Lines::gone_line), using(replay_io::proofs::WritingLemmas::writes_nothing))]
fn put_gone<O: Sink>(r: &Report, out: &mut O) -> Result<(), SinkFailed>
    ensures { Writes result (O.written out.old) (O.written out.new) (O.faults out.old) (O.faults out.new) (gone_line r.now) }
{
    if !r.gone {
        return Ok(());
    }
    put_line(b"gone", &[u64::from(r.tid), u64::from(r.gone_value)], out)
}

/// Writes the line of a waiting thread, where it was answered.
#[tactic(auto, unfolding(posix_model::specs::Lines::done_line), using(replay_io::proofs::WritingLemmas::writes_nothing))]
fn put_done<O: Sink>(r: &Report, t: Tid, out: &mut O) -> Result<(), SinkFailed>
    ensures { Writes result (O.written out.old) (O.written out.new) (O.faults out.old) (O.faults out.new) (done_line r.now t) }
{
    let index = t.index();
    if r.done & (1 << index) == 0 {
        return Ok(());
    }
    let (error, value) = r.values[index];
    let number = u64::from(t.number());
    put_line(b"done", &[number, u64::from(error), u64::from(value)], out)
}

/// Writes a line for each waiting thread that was answered, by number.
fn put_all_done<O: Sink>(r: &Report, out: &mut O) -> Result<(), SinkFailed>
    ensures { Writes result (O.written out.old) (O.written out.new) (O.faults out.old) (O.faults out.new) (done_lines r.now) }
{
    for index in 0..64usize {
        put_done(r, Tid::at(index), out)?;
    }
    Ok(())
}

/// Writes the first lines of a move, up to what it wrote.
fn put_first<O: Sink>(r: &Report, mem: &Memory, out: &mut O) -> Result<(), SinkFailed>
    requires { IsReadable r.now mem.now }
    ensures { Writes result (O.written out.old) (O.written out.new) (O.faults out.old) (O.faults out.new) (first_lines r.now mem.now) }
{
    put_head(r.tid, &r.head, out)?;
    put_alarm(r, out)?;
    put_out(r, mem, out)
}

/// Writes the lines of what a move took and dropped.
fn put_signals<O: Sink>(r: &Report, out: &mut O) -> Result<(), SinkFailed>
    ensures { Writes result (O.written out.old) (O.written out.new) (O.faults out.old) (O.faults out.new) (signal_lines r.now) }
{
    put_took(r, out)?;
    put_counts_under(b"drop", &r.drops, out)
}

/// Writes the lines of who ended and who was answered.
fn put_threads<O: Sink>(r: &Report, out: &mut O) -> Result<(), SinkFailed>
    ensures { Writes result (O.written out.old) (O.written out.new) (O.faults out.old) (O.faults out.new) (thread_lines r.now) }
{
    put_gone(r, out)?;
    put_all_done(r, out)
}

/// Writes the lines of a move after what it wrote.
fn put_rest<O: Sink>(r: &Report, out: &mut O) -> Result<(), SinkFailed>
    ensures { Writes result (O.written out.old) (O.written out.new) (O.faults out.old) (O.faults out.new) (signal_lines r.now ++ thread_lines r.now) }
{
    put_signals(r, out)?;
    put_threads(r, out)
}

/// Writes the lines of one move, in their order.
#[tactic(auto, unfolding(posix_model::specs::Lines::lines))]
fn put_lines<O: Sink>(r: &Report, mem: &Memory, out: &mut O) -> Result<(), SinkFailed>
    requires { IsReadable r.now mem.now }
    ensures { Writes result (O.written out.old) (O.written out.new) (O.faults out.old) (O.faults out.new) (lines r.now mem.now) }
{
    put_first(r, mem, out)?;
    put_rest(r, out)
}

/// Writes the text of one move: its lines in a trace, and in plain text the bytes that it wrote, which are those of
/// `mem`. Ok appended exactly the text and leaves the sink's count of faults; SinkFailed comes only where the count
/// rose, and then a front of the text was appended.
pub fn put_report<O: Sink>(
    r: &Report,
    mem: &Memory,
    mode: Mode,
    out: &mut O,
) -> Result<(), SinkFailed>
    requires { IsReadable r.now mem.now }
    ensures { Writes result (O.written out.old) (O.written out.new) (O.faults out.old) (O.faults out.new) (lines_in mode r.now mem.now) }
{
    match mode {
        Mode::Trace => put_lines(r, mem, out),
        Mode::Plain => put_written(r, mem, out),
    }
}

/// Writes the line before an instruction of another thread than the last; Ok and SinkFailed as at `put_report`.
#[tactic(auto, unfolding(posix_model::specs::Lines::run_line))]
pub fn put_run<O: Sink>(t: Tid, out: &mut O) -> Result<(), SinkFailed>
    ensures { Writes result (O.written out.old) (O.written out.new) (O.faults out.old) (O.faults out.new) (run_line t) }
{
    put_line(b"run", &[u64::from(t.number())], out)
}

/// Writes the line of the ending, the last of a trace; Ok and SinkFailed as at `put_report`.
#[tactic(auto, unfolding(posix_model::specs::Lines::end_line))]
pub fn put_ending<O: Sink>(ending: &Ending, out: &mut O) -> Result<(), SinkFailed>
    ensures { Writes result (O.written out.old) (O.written out.new) (O.faults out.old) (O.faults out.new) (end_line ending.now) }
{
    match *ending {
        Ending::Exit(value) => put_line(b"end exit", &[u64::from(value)], out),
        Ending::Killed(sig) => put_line(b"end killed", &[u64::from(sig.number())], out),
        Ending::Idle => out.put(b"end idle\n"),
        Ending::Budget => out.put(b"end budget\n"),
    }
}

/// Writes the end of a trace: a line for each signal that still pends, with its count in `left` under
/// its number, and the line of the ending; Ok and SinkFailed as at `put_report`.
#[tactic(auto, unfolding(posix_model::specs::Lines::end_lines))]
pub fn put_end<O: Sink>(ending: &Ending, left: &[u64; 32], out: &mut O) -> Result<(), SinkFailed>
    ensures { Writes result (O.written out.old) (O.written out.new) (O.faults out.old) (O.faults out.new) (end_lines left.now ending.now) }
{
    put_counts_under(b"left", left, out)?;
    put_ending(ending, out)
}
