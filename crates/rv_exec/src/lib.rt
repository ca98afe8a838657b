//! Registers, memory, and the meaning of one instruction of RV32IM.
#![tactic(auto)]

mod memory;
#[cfg(test)]
mod tests;
mod words;

ghost use Rattle.std.specs.Prelude.{ℕ, List, ◌≡◌, ◌<◌, length, slice_index};
ghost use Rattle.rv_table.specs.Table.{NamesRegisters};
ghost use Rattle.rv_exec.specs.Meaning.{effect, effect_of, branch_effect, load_effect, store_effect, jumps, with_register};
ghost use Rattle.rv_exec.specs.Words.{sum};
ghost use Rattle.rv_exec.specs.Outcome.{HasEffect};

pub use memory::{BASE, Memory};
use rv_table::{Instr, decode, row};
use thread_base::Sig;

/// The registers of a thread: the address of its next instruction, and x0 to x31, of which x0 is 0.
#[derive(Clone, Copy, Debug)]
pub struct Regs {
    pub pc: u32,
    pub x: [u32; 32],
    ghost zero: { slice_index x 0 ≡ 0 },
}

/// A special address: that of a handler's return, of a cleanup routine's or a destructor's return, or
/// of a start routine's return. The three addresses are this project's own.
#[derive(Clone, Copy, Debug, PartialEq, Eq)]
pub enum Special {
    Handler,
    Cleanup,
    Start,
}

/// What one instruction came to: it was made and the next one follows; or it is an ECALL, a fault that
/// raises a signal (ILL, TRAP, BUS or SEGV), or the return to a special address, and nothing changed.
#[derive(Clone, Copy, Debug, PartialEq, Eq)]
pub enum Event {
    Next,
    Ecall,
    Fault(Sig),
    Return(Special),
}

/// The special address to which a signal's handler returns.
pub const HANDLER_RETURN: u32 = 0xffff_fff0;

/// The special address to which a cleanup routine or a destructor returns, and where a thread that
/// exits stands.
pub const CLEANUP_RETURN: u32 = 0xffff_ffe0;

/// The special address to which a thread's start routine returns.
pub const START_RETURN: u32 = 0xffff_ffd0;

const SIGILL: u32 = 4;

const SIGTRAP: u32 = 5;

const SIGBUS: u32 = 7;

const SIGSEGV: u32 = 11;

/// Makes the instruction at pc: one of RV32IM, by the RISC-V manual, or the return to a special address.
/// With an event other than Next, registers and memory are unchanged.
#[tactic(auto, unfolding(crate::specs::Meaning::effect))]
#[inline(always)]
pub fn exec(regs: &mut Regs, mem: &mut Memory) -> Event
    ensures size { length mem.new ≡ length mem.old }
    ensures effect { HasEffect (effect regs.old.pc regs.old.x mem.old) result
        regs.old.pc regs.old.x mem.old regs.new.pc regs.new.x mem.new }
{
    // a special address is never inside the window
    let Some(word) = mem.read(regs.pc, 4) else {
        return match regs.pc {
            HANDLER_RETURN => Event::Return(Special::Handler),
            CLEANUP_RETURN => Event::Return(Special::Cleanup),
            START_RETURN => Event::Return(Special::Start),
            _ => Event::Fault(Sig::of(SIGSEGV)),
        };
    };
    let Some(instr) = decode(word) else {
        return Event::Fault(Sig::of(SIGILL));
    };
    regs.make(instr, mem)
}

impl Regs {
    /// Makes an instruction that was fetched and decoded. One flat match over the rows, so that a plain
    /// instruction costs one jump.
    #[tactic(auto, unfolding(crate::specs::Meaning::effect_of))]
    #[inline(always)]
    fn make(&mut self, instr: Instr, mem: &mut Memory) -> Event
        requires { NamesRegisters instr }
        ensures size { length mem.new ≡ length mem.old }
        ensures effect { HasEffect (effect_of instr self.old.pc self.old.x mem.old) result
            self.old.pc self.old.x mem.old self.new.pc self.new.x mem.new }
    {
        let Instr {
            row,
            rd,
            rs1,
            rs2,
            imm,
        } = instr;
        match row {
            row::LUI => self.write(rd, imm),
            row::AUIPC => self.write(rd, self.pc.wrapping_add(imm)),
            row::JAL => self.jump(rd, self.pc.wrapping_add(imm)),
            row::JALR => self.jump(rd, self.at(rs1).wrapping_add(imm) & 0xffff_fffe),
            row::BEQ..=row::BGEU => self.branch(instr),
            row::LB..=row::LHU => self.load(instr, mem),
            row::SB..=row::SW => self.store(instr, mem),
            row::ADDI => self.write(rd, self.at(rs1).wrapping_add(imm)),
            row::SLTI => self.write(rd, words::set_less_signed(self.at(rs1), imm)),
            row::SLTIU => self.write(rd, words::set_less(self.at(rs1), imm)),
            row::XORI => self.write(rd, self.at(rs1) ^ imm),
            row::ORI => self.write(rd, self.at(rs1) | imm),
            row::ANDI => self.write(rd, self.at(rs1) & imm),
            row::SLLI => self.write(rd, self.at(rs1).wrapping_shl(imm)),
            row::SRLI => self.write(rd, self.at(rs1).wrapping_shr(imm)),
            row::SRAI => self.write(rd, words::shift_right_signed(self.at(rs1), imm)),
            row::ADD => self.write(rd, self.at(rs1).wrapping_add(self.at(rs2))),
            row::SLL => self.write(rd, self.at(rs1).wrapping_shl(self.at(rs2))),
            row::SLT => self.write(rd, words::set_less_signed(self.at(rs1), self.at(rs2))),
            row::SLTU => self.write(rd, words::set_less(self.at(rs1), self.at(rs2))),
            row::XOR => self.write(rd, self.at(rs1) ^ self.at(rs2)),
            row::SRL => self.write(rd, self.at(rs1).wrapping_shr(self.at(rs2))),
            row::OR => self.write(rd, self.at(rs1) | self.at(rs2)),
            row::AND => self.write(rd, self.at(rs1) & self.at(rs2)),
            row::SUB => self.write(rd, self.at(rs1).wrapping_sub(self.at(rs2))),
            row::SRA => self.write(rd, words::shift_right_signed(self.at(rs1), self.at(rs2))),
            row::MUL => self.write(rd, self.at(rs1).wrapping_mul(self.at(rs2))),
            row::MULH => self.write(rd, words::multiply_high_signed(self.at(rs1), self.at(rs2))),
            row::MULHSU => self.write(rd, words::multiply_high_mixed(self.at(rs1), self.at(rs2))),
            row::MULHU => self.write(rd, words::multiply_high(self.at(rs1), self.at(rs2))),
            row::DIV => self.write(rd, words::quotient_signed(self.at(rs1), self.at(rs2))),
            row::DIVU => self.write(rd, words::quotient(self.at(rs1), self.at(rs2))),
            row::REM => self.write(rd, words::remainder_signed(self.at(rs1), self.at(rs2))),
            row::REMU => self.write(rd, words::remainder(self.at(rs1), self.at(rs2))),
            row::FENCE => self.go_on(),
            row::ECALL => Event::Ecall,
            _ => Event::Fault(Sig::of(SIGTRAP)),
        }
    }

    /// A branch: to its target where its relation holds, else on with the next word.
    #[tactic(auto, unfolding(crate::specs::Meaning::branch_effect))]
    #[inline(always)]
    fn branch(&mut self, instr: Instr) -> Event
        requires { NamesRegisters instr }
        ensures { (mem : List ℕ) → HasEffect (branch_effect instr self.old.pc self.old.x mem) result
            self.old.pc self.old.x mem self.new.pc self.new.x mem }
    {
        if words::relation_holds(instr.row, self.at(instr.rs1), self.at(instr.rs2)) {
            self.jump(0, self.pc.wrapping_add(instr.imm))
        } else {
            self.go_on()
        }
    }

    /// A load: SIGBUS where the address is not a multiple of the width, then SIGSEGV outside the window.
    #[tactic(auto, unfolding(crate::specs::Meaning::load_effect))]
    #[inline(always)]
    fn load(&mut self, instr: Instr, mem: &Memory) -> Event
        requires { NamesRegisters instr }
        ensures { HasEffect (load_effect instr self.old.pc self.old.x mem.now) result
            self.old.pc self.old.x mem.now self.new.pc self.new.x mem.now }
    {
        let address = self.at(instr.rs1).wrapping_add(instr.imm);
        let width = words::load_width(instr.row);
        if address % width != 0 {
            return Event::Fault(Sig::of(SIGBUS));
        }
        match mem.read(address, width) {
            Some(number) => self.write(instr.rd, words::extend(instr.row, number)),
            None => Event::Fault(Sig::of(SIGSEGV)),
        }
    }

    /// A store of the low bytes of rs2, with the faults of a load.
    #[tactic(auto, unfolding(crate::specs::Meaning::store_effect))]
    #[inline(always)]
    fn store(&mut self, instr: Instr, mem: &mut Memory) -> Event
        requires { NamesRegisters instr }
        ensures size { length mem.new ≡ length mem.old }
        ensures effect { HasEffect (store_effect instr self.old.pc self.old.x mem.old) result
            self.old.pc self.old.x mem.old self.new.pc self.new.x mem.new }
    {
        let address = self.at(instr.rs1).wrapping_add(instr.imm);
        let width = words::store_width(instr.row);
        if address % width != 0 {
            return Event::Fault(Sig::of(SIGBUS));
        }
        if !mem.write(address, width, self.at(instr.rs2)) {
            return Event::Fault(Sig::of(SIGSEGV));
        }
        self.go_on()
    }

    /// Goes to a target, with the address of the next word in a register; a fault where the target
    /// is not a multiple of 4.
    #[inline(always)]
    fn jump(&mut self, rd: u8, target: u32) -> Event
        requires { rd < 32 }
        ensures { (mem : List ℕ) → HasEffect (jumps target (with_register self.old.x rd (sum self.old.pc 4)) mem) result
            self.old.pc self.old.x mem self.new.pc self.new.x mem }
    {
        if target % 4 != 0 {
            return Event::Fault(Sig::of(SIGBUS));
        }
        self.set(rd, self.pc.wrapping_add(4));
        self.pc = target;
        Event::Next
    }

    /// Writes a register and goes on with the next word.
    #[inline(always)]
    fn write(&mut self, rd: u8, value: u32) -> Event
        requires { rd < 32 }
        ensures event { result ≡ Event.Next }
        ensures pc { self.new.pc ≡ sum self.old.pc 4 }
        ensures x { self.new.x ≡ with_register self.old.x rd value }
    {
        self.set(rd, value);
        self.go_on()
    }

    /// Goes on with the next word.
    #[inline(always)]
    fn go_on(&mut self) -> Event
        ensures event { result ≡ Event.Next }
        ensures pc { self.new.pc ≡ sum self.old.pc 4 }
        ensures x { self.new.x ≡ self.old.x }
    {
        self.pc = self.pc.wrapping_add(4);
        Event::Next
    }

    /// The value of a register.
    #[inline(always)]
    fn at(&self, r: u8) -> u32
        requires { r < 32 }
        ensures { result ≡ slice_index self.now.x r }
    {
        self.x[r as usize]
    }

    /// Writes a register; a write to x0 is lost.
    #[inline(always)]
    fn set(&mut self, rd: u8, value: u32)
        requires { rd < 32 }
        ensures pc { self.new.pc ≡ self.old.pc }
        ensures x { self.new.x ≡ with_register self.old.x rd value }
    {
        if rd != 0 {
            self.x[rd as usize] = value;
        }
    }
}
