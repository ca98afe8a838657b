ghost use Rattle.std.specs.Prelude.{◌≡◌, ◌≤◌, ◌+◌, ◌++◌, List, length};
ghost use Rattle.replay_io.specs.Writing.{Writes};
ghost use Rattle.posix_model.specs.State.{Frame};
ghost use Rattle.kernel_state.specs.Records.{thread_in, standing_in, registers_of, phase_of};
ghost use Rattle.replay_cli.specs.Places.{hex_word, wait_text, phase_text, standing_text, registers_text, place_line, fault_line};

use crate::address::address_at;
use kernel_state::ThreadRecord;
use posix_model::Wait;
use replay_io::{Sink, SinkFailed};
use rv_exec::{Memory, Regs};
use thread_base::{Sig, Tid};
use trace_text::Line;

/// Appends a blank and a word in hexadecimal.
#[tactic(auto, unfolding(crate::specs::Places::hex_word))]
fn add_word(line: &mut Line, n: u32)
    requires { length line.old + 11 ≤ 200 }
    ensures text { line.new ≡ line.old ++ hex_word n }
    ensures room { length line.new ≤ length line.old + 11 }
{
    line.text(b" 0x");
    line.hex((n / 16_777_216) as u8);
    line.hex((n / 65_536 % 256) as u8);
    line.hex((n / 256 % 256) as u8);
    line.hex((n % 256) as u8);
}

/// Appends what a thread waits for.
fn add_wait(line: &mut Line, wait: &Wait)
    requires { length line.old + 64 ≤ 200 }
    ensures text { line.new ≡ line.old ++ wait_text wait.now }
    ensures room { length line.new ≤ length line.old + 64 }
{
    match *wait {
        Wait::Join(u) => {
            line.text(b" waits thread");
            line.number(u64::from(u.number()));
        }
        Wait::Mutex(m) => {
            line.text(b" waits mutex");
            line.number(u64::from(m));
        }
        Wait::Cond { cond, mutex, .. } => {
            line.text(b" waits condition");
            line.number(u64::from(cond));
            line.text(b" mutex");
            line.number(u64::from(mutex));
        }
        Wait::Reacquire { mutex, .. } => {
            line.text(b" waits mutex");
            line.number(u64::from(mutex));
            line.text(b" again");
        }
        Wait::Signal(_) => line.text(b" waits signal"),
        Wait::Sleep { until } => {
            line.text(b" waits time");
            line.number(until);
        }
        Wait::Read { .. } => line.text(b" waits input"),
    }
}

/// Appends that a thread is in its exit, where it is.
fn add_phase(line: &mut Line, leaving: Option<u32>)
    requires { length line.old + 29 ≤ 200 }
    ensures text { line.new ≡ line.old ++ phase_text (phase_of leaving) }
    ensures room { length line.new ≤ length line.old + 29 }
{
    match leaving {
        None => {}
        Some(value) => {
            line.text(b" leaving");
            line.number(u64::from(value));
        }
    }
}

/// Appends what a thread is doing.
fn add_standing(line: &mut Line, known: &ThreadRecord)
    requires { length line.old + 93 ≤ 200 }
    ensures text { line.new ≡ line.old ++ standing_text (standing_in known.now) (phase_of known.now.activity.leaving) }
    ensures room { length line.new ≤ length line.old + 93 }
{
    if let Some(value) = known.row.ended {
        line.text(b" ended");
        line.number(u64::from(value));
        return;
    }
    match &known.activity.wait {
        None => line.text(b" ready"),
        Some(wait) => add_wait(line, wait),
    }
    add_phase(line, known.activity.leaving);
}

/// Appends the next instruction of a thread, where it returns to, and its stack.
fn add_registers(line: &mut Line, regs: &Regs)
    requires { length line.old + 42 ≤ 200 }
    ensures text { line.new ≡ line.old ++ registers_text (registers_of regs.now) }
    ensures room { length line.new ≤ length line.old + 42 }
{
    line.text(b" pc");
    add_word(line, regs.pc);
    line.text(b" ra");
    add_word(line, regs.x[1]);
    line.text(b" sp");
    add_word(line, regs.x[2]);
}

/// Writes the line of a thread.
#[tactic(auto, unfolding(crate::specs::Places::place_line))]
pub(crate) fn put_place<O: Sink>(
    t: Tid,
    known: &ThreadRecord,
    out: &mut O,
) -> Result<(), SinkFailed>
    ensures { (frames : List Frame) → Writes result (O.written out.old) (O.written out.new) (O.faults out.old) (O.faults out.new) (place_line t (thread_in known.now frames)) }
{
    let mut line = Line::new();
    line.text(b"thread");
    line.number(u64::from(t.number()));
    add_standing(&mut line, known);
    add_registers(&mut line, &known.regs);
    line.text(b"\n");
    out.put(line.bytes())
}

/// Writes the line of a fault.
#[tactic(auto, unfolding(crate::specs::Places::fault_line))]
pub(crate) fn put_fault<O: Sink>(
    t: Tid,
    signal: Sig,
    regs: &Regs,
    mem: &Memory,
    out: &mut O,
) -> Result<(), SinkFailed>
    ensures { Writes result (O.written out.old) (O.written out.new) (O.faults out.old) (O.faults out.new) (fault_line t signal (registers_of regs.now) mem.now) }
{
    let mut line = Line::new();
    line.text(b"fault");
    line.number(u64::from(t.number()));
    line.number(u64::from(signal.number()));
    line.text(b" address");
    add_word(&mut line, address_at(regs, mem));
    line.text(b"\n");
    out.put(line.bytes())
}
