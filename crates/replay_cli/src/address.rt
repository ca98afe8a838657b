ghost use Rattle.std.specs.Prelude.{◌≡◌};
ghost use Rattle.rv_table.specs.Table.{NamesRegisters};
ghost use Rattle.replay_cli.specs.Addresses.{computed_by, address_at};

use rv_exec::{Memory, Regs};
use rv_table::{Instr, decode, row};

/// The address that an instruction at pc computes with these registers.
#[tactic(auto, unfolding(crate::specs::Addresses::computed_by))]
fn computed_by(instr: Instr, regs: &Regs) -> u32
    requires { NamesRegisters instr }
    ensures { result ≡ computed_by instr regs.now.pc regs.now.x }
{
    let base = regs.x[instr.rs1 as usize];
    match instr.row {
        row::LUI | row::AUIPC => regs.pc,
        row::JAL => regs.pc.wrapping_add(instr.imm),
        row::JALR => base.wrapping_add(instr.imm) & 0xffff_fffe,
        row::BEQ..=row::BGEU => regs.pc.wrapping_add(instr.imm),
        row::LB..=row::SW => base.wrapping_add(instr.imm),
        _ => regs.pc,
    }
}

/// The address that the instruction at pc computes; where pc is outside the window, pc.
#[tactic(auto, unfolding(crate::specs::Addresses::address_at))]
pub(crate) fn address_at(regs: &Regs, mem: &Memory) -> u32
    ensures { result ≡ address_at regs.now.pc regs.now.x mem.now }
{
    let Some(word) = mem.read(regs.pc, 4) else {
        return regs.pc;
    };
    match decode(word) {
        None => regs.pc,
        Some(instr) => computed_by(instr, regs),
    }
}
