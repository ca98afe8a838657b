use super::*;
use std::alloc::Global;

/// What became of one word at 0x10000 with these registers: the event, pc, x7, and the word of memory
/// at 0x10100. Before, x7 was 0x10040 and that word was 0x81828384. None for want of memory.
fn made(alloc: Global, word: u32, x5: u32, x6: u32) -> Option<(Event, u32, u32, u32)> {
    let mut mem = Memory::new(alloc, 65_536).ok()?;
    mem.write(0x1_0000, 4, word);
    mem.write(0x1_0100, 4, 0x8182_8384);
    let mut regs = Regs {
        pc: 0x1_0000,
        x: [0; 32],
    };
    regs.x[5] = x5;
    regs.x[6] = x6;
    regs.x[7] = 0x1_0040;
    let event = exec(&mut regs, &mut mem);
    Some((event, regs.pc, regs.x[7], mem.read(0x1_0100, 4)?))
}

#[test]
fn arithmetic(rt: HostRuntime) {
    // word, x5, x6, and x7 after it
    for (word, x5, x6, x7) in [
        // lui x7, 0x12345; auipc x7, 0xfffff
        (0x1234_53b7, 0, 0, 0x1234_5000),
        (0xffff_f397, 0, 0, 0xf000),
        // addi x7, x5, -1; addi x0, x5, 1; slti, sltiu, xori x7, x5, -1
        (0xfff2_8393, 0, 0, 0xffff_ffff),
        (0x0012_8013, 5, 0, 0x1_0040),
        (0xfff2_a393, 0xffff_fffe, 0, 1),
        (0xfff2_a393, 0, 0, 0),
        (0xfff2_b393, 0xffff_fffe, 0, 1),
        (0xfff2_b393, 0xffff_ffff, 0, 0),
        (0xfff2_c393, 0x0f0f_0f0f, 0, 0xf0f0_f0f0),
        // ori x7, x5, 2047; andi x7, x5, -2048
        (0x7ff2_e393, 0x8000_0000, 0, 0x8000_07ff),
        (0x8002_f393, 0xffff_ffff, 0, 0xffff_f800),
        // slli, srli, srai x7, x5, 31
        (0x01f2_9393, 3, 0, 0x8000_0000),
        (0x01f2_d393, 0x8000_0000, 0, 1),
        (0x41f2_d393, 0x8000_0000, 0, 0xffff_ffff),
        // add, sub, sll, slt, sltu, xor, srl, sra, or, and x7, x5, x6
        (0x0062_83b3, 0xffff_ffff, 2, 1),
        (0x4062_83b3, 0, 1, 0xffff_ffff),
        (0x0062_93b3, 1, 33, 2),
        (0x0062_a3b3, 0x8000_0000, 1, 1),
        (0x0062_b3b3, 0x8000_0000, 1, 0),
        (0x0062_c3b3, 0xff00_ff00, 0x0ff0_0ff0, 0xf0f0_f0f0),
        (0x0062_d3b3, 0x8000_0000, 36, 0x0800_0000),
        (0x4062_d3b3, 0x8000_0000, 36, 0xf800_0000),
        (0x0062_e3b3, 0xff00_ff00, 0x0ff0_0ff0, 0xfff0_fff0),
        (0x0062_f3b3, 0xff00_ff00, 0x0ff0_0ff0, 0x0f00_0f00),
        // mul, mulh, mulhsu, mulhu x7, x5, x6
        (0x0262_83b3, 0x8000_0001, 3, 0x8000_0003),
        (0x0262_93b3, 0x8000_0000, 0x8000_0000, 0x4000_0000),
        (0x0262_93b3, 0xffff_ffff, 1, 0xffff_ffff),
        (0x0262_a3b3, 0xffff_ffff, 0xffff_ffff, 0xffff_ffff),
        (0x0262_b3b3, 0xffff_ffff, 0xffff_ffff, 0xffff_fffe),
        // div, divu, rem, remu x7, x5, x6, of -7 and 2, and of 7 and -2
        (0x0262_c3b3, 0xffff_fff9, 2, 0xffff_fffd),
        (0x0262_d3b3, 0xffff_fff9, 2, 0x7fff_fffc),
        (0x0262_e3b3, 0xffff_fff9, 2, 0xffff_ffff),
        (0x0262_e3b3, 7, 0xffff_fffe, 1),
        (0x0262_f3b3, 0xffff_fff9, 2, 1),
        // the ends of the type: div, rem x7, x5, x6; rem, divu, div, remu x7, x5, x0
        (0x0262_c3b3, 0x8000_0000, 0xffff_ffff, 0x8000_0000),
        (0x0262_e3b3, 0x8000_0000, 0xffff_ffff, 0),
        (0x0202_e3b3, 0x8000_0000, 0xffff_ffff, 0x8000_0000),
        (0x0202_d3b3, 0x8000_0000, 0xffff_ffff, 0xffff_ffff),
        (0x0202_c3b3, 7, 0, 0xffff_ffff),
        (0x0202_f3b3, 7, 0, 7),
        // fence
        (0x0ff0_000f, 0, 0, 0x1_0040),
    ] {
        let want = (Event::Next, 0x1_0004, x7, 0x8182_8384);
        assert_eq!(rt; made(rt.alloc(), word, x5, x6), Some(want), "word {word}");
    }
}

#[test]
fn jumps_and_branches(rt: HostRuntime) {
    // word, x5, x6, and pc and x7 after it
    for (word, x5, x6, pc, x7) in [
        // jal x7, 8; jal x0, -4
        (0x0080_03ef, 0, 0, 0x1_0008, 0x1_0004),
        (0xffdf_f06f, 0, 0, 0xfffc, 0x1_0040),
        // jalr x7, 1(x5), which loses bit 0; jalr x7, 4(x7), of the old x7
        (0x0012_83e7, 0x1_0020, 0, 0x1_0020, 0x1_0004),
        (0x0043_83e7, 0, 0, 0x1_0044, 0x1_0004),
        // beq, bne, blt, bge, bltu, bgeu x5, x6, 8
        (0x0062_8463, 9, 9, 0x1_0008, 0x1_0040),
        (0x0062_8463, 9, 8, 0x1_0004, 0x1_0040),
        (0x0062_9463, 9, 8, 0x1_0008, 0x1_0040),
        (0x0062_9463, 9, 9, 0x1_0004, 0x1_0040),
        (0x0062_c463, 0xffff_ffff, 0, 0x1_0008, 0x1_0040),
        (0x0062_c463, 9, 9, 0x1_0004, 0x1_0040),
        (0x0062_d463, 0, 0xffff_ffff, 0x1_0008, 0x1_0040),
        (0x0062_d463, 0xffff_ffff, 0, 0x1_0004, 0x1_0040),
        (0x0062_e463, 0, 0xffff_ffff, 0x1_0008, 0x1_0040),
        (0x0062_e463, 0xffff_ffff, 0, 0x1_0004, 0x1_0040),
        (0x0062_f463, 9, 9, 0x1_0008, 0x1_0040),
        (0x0062_f463, 0, 0xffff_ffff, 0x1_0004, 0x1_0040),
        // beq x5, x6, 2, which is not taken
        (0x0062_8163, 9, 8, 0x1_0004, 0x1_0040),
    ] {
        let want = (Event::Next, pc, x7, 0x8182_8384);
        assert_eq!(rt; made(rt.alloc(), word, x5, x6), Some(want), "word {word}");
    }
}

#[test]
fn loads_and_stores(rt: HostRuntime) {
    // word, x5, and x7 and the word at 0x10100 after it; x6 is 0x12345678
    for (word, x5, x7, data) in [
        // lb x7, 0(x5); lbu x7, 3(x5); lh, lhu x7, 2(x5); lw x7, 0(x5); lw x0, 0(x5)
        (0x0002_8383, 0x1_0100, 0xffff_ff84, 0x8182_8384),
        (0x0032_c383, 0x1_0100, 0x81, 0x8182_8384),
        (0x0022_9383, 0x1_0100, 0xffff_8182, 0x8182_8384),
        (0x0022_d383, 0x1_0100, 0x8182, 0x8182_8384),
        (0x0002_a383, 0x1_0100, 0x8182_8384, 0x8182_8384),
        (0x0002_a003, 0x1_0100, 0x1_0040, 0x8182_8384),
        // sb x6, 1(x5); sh x6, 2(x5); sw x6, 0(x5); sw x6, -4(x5)
        (0x0062_80a3, 0x1_0100, 0x1_0040, 0x8182_7884),
        (0x0062_9123, 0x1_0100, 0x1_0040, 0x5678_8384),
        (0x0062_a023, 0x1_0100, 0x1_0040, 0x1234_5678),
        (0xfe62_ae23, 0x1_0104, 0x1_0040, 0x1234_5678),
        // the last word of the window: lw x7, 0(x5)
        (0x0002_a383, 0x1_fffc, 0, 0x8182_8384),
    ] {
        let want = (Event::Next, 0x1_0004, x7, data);
        assert_eq!(rt;
            made(rt.alloc(), word, x5, 0x1234_5678),
            Some(want),
            "word {word}"
        );
    }
}

#[test]
fn other_events(rt: HostRuntime) {
    // word, x5, and its event, with which nothing changes; x6 is 9
    for (word, x5, event) in [
        // ecall; ebreak; two words that are illegal
        (0x0000_0073, 0, Event::Ecall),
        (0x0010_0073, 0, Event::Fault(Sig::of(5))),
        (0x0000_0000, 0, Event::Fault(Sig::of(4))),
        (0x0020_0073, 0, Event::Fault(Sig::of(4))),
        // jal x7, 2; jalr x7, 3(x5); beq x5, x6, 2
        (0x0020_03ef, 0, Event::Fault(Sig::of(7))),
        (0x0032_83e7, 0x1_0020, Event::Fault(Sig::of(7))),
        (0x0062_8163, 9, Event::Fault(Sig::of(7))),
        // lh x7, 1(x5); lw x7, 2(x5); sh x6, 1(x5); sw x6, 2(x5): misaligned, inside and outside
        (0x0012_9383, 0x1_0100, Event::Fault(Sig::of(7))),
        (0x0022_a383, 0x1_0100, Event::Fault(Sig::of(7))),
        (0x0062_90a3, 0x1_0100, Event::Fault(Sig::of(7))),
        (0x0062_a123, 0x1_0100, Event::Fault(Sig::of(7))),
        (0x0022_a383, 0, Event::Fault(Sig::of(7))),
        // lb x7, 0(x5); lw x7, 0(x5); sw x6, 0(x5): below the window and after it
        (0x0002_8383, 0xffff, Event::Fault(Sig::of(11))),
        (0x0002_a383, 0x2_0000, Event::Fault(Sig::of(11))),
        (0x0062_a023, 0xfffc, Event::Fault(Sig::of(11))),
    ] {
        let want = (event, 0x1_0000, 0x1_0040, 0x8182_8384);
        assert_eq!(rt; made(rt.alloc(), word, x5, 9), Some(want), "word {word}");
    }
}

#[test]
fn events_without_a_word(rt: HostRuntime) {
    let Ok(mut mem) = Memory::new(rt.alloc(), 65_536) else {
        panic!(rt; "no memory")
    };
    // pc, and the event: three special addresses, and no word inside the window
    for (pc, event) in [
        (0xffff_fff0, Event::Return(Special::Handler)),
        (0xffff_ffe0, Event::Return(Special::Cleanup)),
        (0xffff_ffd0, Event::Return(Special::Start)),
        (0xffff_ffc0, Event::Fault(Sig::of(11))),
        (0, Event::Fault(Sig::of(11))),
        (0xfffe, Event::Fault(Sig::of(11))),
        (0x1_fffe, Event::Fault(Sig::of(11))),
    ] {
        let mut regs = Regs { pc, x: [0; 32] };
        assert_eq!(rt; exec(&mut regs, &mut mem), event, "pc {pc}");
        let after = regs.pc;
        assert_eq!(rt; after, pc);
    }
}
