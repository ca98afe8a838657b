ghost use Rattle.std.specs.Prelude.{◌≡◌, ℕ, List, length};
ghost use Rattle.rv_table.specs.Table.{NamesRegisters};
ghost use Rattle.rv_exec.specs.Meaning.{Effect, accesses, branch_effect, effect, effect_of, is_taken, jumps, load_effect, store_effect, width_of_load, width_of_store};
ghost use Rattle.rv_exec.specs.Window.{IsWidth};
ghost use Rattle.kernel_state.specs.Records.{phase_of};
ghost use Rattle.replay_cli.specs.Events.{event_of, is_due, faults_by};

use rv_exec::{CLEANUP_RETURN, Event, HANDLER_RETURN, Memory, Regs, START_RETURN, Special};
use rv_table::{Instr, decode, row};
use thread_base::{FrameKind, Sig};

const SIGILL: u32 = 4;

const SIGTRAP: u32 = 5;

const SIGBUS: u32 = 7;

const SIGSEGV: u32 = 11;

/// Whether the relation of a branch's row holds.
#[tactic(auto, unfolding(rv_exec::specs::Meaning::is_taken))]
fn is_taken(row: u8, a: u32, b: u32) -> bool
    ensures { result ≡ is_taken row a b }
{
    match row {
        row::BEQ => a == b,
        row::BNE => a != b,
        row::BLT => a.cast_signed() < b.cast_signed(),
        row::BGE => a.cast_signed() >= b.cast_signed(),
        row::BLTU => a < b,
        _ => a >= b,
    }
}

/// How many bytes a row of loads reads.
#[tactic(auto, unfolding(rv_exec::specs::Meaning::width_of_load))]
fn load_width(row: u8) -> u32
    ensures value { result ≡ width_of_load row }
    ensures width { IsWidth result }
{
    match row {
        row::LB | row::LBU => 1,
        row::LH | row::LHU => 2,
        _ => 4,
    }
}

/// How many bytes a row of stores writes.
#[tactic(auto, unfolding(rv_exec::specs::Meaning::width_of_store))]
fn store_width(row: u8) -> u32
    ensures value { result ≡ width_of_store row }
    ensures width { IsWidth result }
{
    match row {
        row::SB => 1,
        row::SH => 2,
        _ => 4,
    }
}

/// What a jump to a target comes to.
fn jump_event(target: u32) -> Event
    ensures { (x mem : List ℕ) → result ≡ event_of (jumps target x mem) }
{
    if target % 4 == 0 {
        Event::Next
    } else {
        Event::Fault(Sig::of(SIGBUS))
    }
}

/// What a branch comes to.
#[tactic(auto, unfolding(rv_exec::specs::Meaning::branch_effect))]
fn branch_event(instr: Instr, regs: &Regs) -> Event
    requires { NamesRegisters instr }
    ensures { (mem : List ℕ) → result ≡ event_of (branch_effect instr regs.now.pc regs.now.x mem) }
{
    if is_taken(
        instr.row,
        regs.x[instr.rs1 as usize],
        regs.x[instr.rs2 as usize],
    ) {
        jump_event(regs.pc.wrapping_add(instr.imm))
    } else {
        Event::Next
    }
}

/// What a load or a store of so many bytes at an address comes to.
fn access_event(address: u32, width: u32, mem: &Memory) -> Event
    requires { IsWidth width }
    ensures { (effect : Effect) → event_of effect ≡ Event.Next → result ≡ event_of (accesses (length mem.now) address width effect) }
{
    if address % width != 0 {
        return Event::Fault(Sig::of(SIGBUS));
    }
    if mem.has(address, width as usize) {
        Event::Next
    } else {
        Event::Fault(Sig::of(SIGSEGV))
    }
}

/// What a load comes to.
#[tactic(auto, unfolding(rv_exec::specs::Meaning::load_effect))]
fn load_event(instr: Instr, regs: &Regs, mem: &Memory) -> Event
    requires { NamesRegisters instr }
    ensures { result ≡ event_of (load_effect instr regs.now.pc regs.now.x mem.now) }
{
    let address = regs.x[instr.rs1 as usize].wrapping_add(instr.imm);
    access_event(address, load_width(instr.row), mem)
}

/// What a store comes to.
#[tactic(auto, unfolding(rv_exec::specs::Meaning::store_effect))]
fn store_event(instr: Instr, regs: &Regs, mem: &Memory) -> Event
    requires { NamesRegisters instr }
    ensures { result ≡ event_of (store_effect instr regs.now.pc regs.now.x mem.now) }
{
    let address = regs.x[instr.rs1 as usize].wrapping_add(instr.imm);
    access_event(address, store_width(instr.row), mem)
}

/// What an instruction at pc comes to.
#[tactic(auto, unfolding(rv_exec::specs::Meaning::effect_of))]
fn event_by(instr: Instr, regs: &Regs, mem: &Memory) -> Event
    requires { NamesRegisters instr }
    ensures { result ≡ event_of (effect_of instr regs.now.pc regs.now.x mem.now) }
{
    match instr.row {
        row::LUI => Event::Next,
        row::AUIPC => Event::Next,
        row::JAL => jump_event(regs.pc.wrapping_add(instr.imm)),
        row::JALR => {
            jump_event(regs.x[instr.rs1 as usize].wrapping_add(instr.imm) & 0xffff_fffe)
        }
        row::BEQ..=row::BGEU => branch_event(instr, regs),
        row::LB..=row::LHU => load_event(instr, regs, mem),
        row::SB..=row::SW => store_event(instr, regs, mem),
        row::ADDI..=row::SRAI => Event::Next,
        row::ADD..=row::REMU => Event::Next,
        row::FENCE => Event::Next,
        row::ECALL => Event::Ecall,
        _ => Event::Fault(Sig::of(SIGTRAP)),
    }
}

/// What the instruction at pc comes to.
#[tactic(auto, unfolding(rv_exec::specs::Meaning::effect))]
pub(crate) fn event_at(regs: &Regs, mem: &Memory) -> Event
    ensures { result ≡ event_of (effect regs.now.pc regs.now.x mem.now) }
{
    // a special address is never inside the window
    let Some(word) = mem.read(regs.pc, 4) else {
        return match regs.pc {
            HANDLER_RETURN => Event::Return(Special::Handler),
            CLEANUP_RETURN => Event::Return(Special::Cleanup),
            START_RETURN => Event::Return(Special::Start),
            _ => Event::Fault(Sig::of(SIGSEGV)),
        };
    };
    match decode(word) {
        None => Event::Fault(Sig::of(SIGILL)),
        Some(instr) => event_by(instr, regs, mem),
    }
}

/// Whether a special return is due, of a thread with this last frame, which exits with this value.
fn is_due(which: Special, top: &Option<FrameKind>, leaving: &Option<u32>) -> bool
    ensures { result ≡ is_due which top.now (phase_of leaving.now) }
{
    match which {
        Special::Handler => match top {
            Some(FrameKind::Handler) => true,
            Some(FrameKind::Cleanup) => false,
            None => false,
        },
        Special::Cleanup => match top {
            Some(FrameKind::Handler) => false,
            Some(FrameKind::Cleanup) => true,
            None => leaving.is_some(),
        },
        Special::Start => top.is_none() && leaving.is_none(),
    }
}

/// Whether an event is a fault with this signal, of a thread with this last frame, which exits with this value.
pub(crate) fn faults_by(
    event: Event,
    top: &Option<FrameKind>,
    leaving: &Option<u32>,
    signal: Sig,
) -> bool
    ensures { result ≡ faults_by signal event top.now (phase_of leaving.now) }
{
    match event {
        Event::Next => false,
        Event::Ecall => false,
        Event::Fault(sig) => sig.number() == signal.number(),
        Event::Return(which) => !is_due(which, top, leaving) && signal.number() == SIGSEGV,
    }
}
