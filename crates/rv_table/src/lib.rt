//! The table of RV32IM instructions: which word is which instruction, and what its fields say.
#![tactic(auto)]

/// The rows' numbers by name.
pub mod row;

ghost use Rattle.std.specs.Prelude.{◌≡◌, ◌<◌, ◌^◌, IfSome};
ghost use Rattle.rv_table.specs.Fields.{row_by_fields, with_format};
ghost use Rattle.rv_table.specs.Table.{NamesRegisters, OneRow, decoded, immediate_of, sign_extended, R, I, S, B, U, J, Shift};

/// A decoded instruction of RV32IM.
///
/// `row` is the number of its row in the table, from 0 (LUI) to 47 (EBREAK).
/// `rd`, `rs1` and `rs2` are bits 11..7, 19..15 and 24..20 of the word, whatever the row is.
/// `imm` is the immediate, sign-extended, or the shift amount, or 0 where the row has neither.
#[derive(Clone, Copy, Debug, PartialEq, Eq)]
pub struct Instr {
    pub row: u8,
    pub rd: u8,
    pub rs1: u8,
    pub rs2: u8,
    pub imm: u32,
}

/// The instruction that a word stands for, by RV32I and M of the RISC-V manual.
/// None exactly where the word is illegal: no row of the table matches it.
#[inline(always)]
pub fn decode(word: u32) -> Option<Instr>
    ensures row { result ≡ decoded word }
    ensures registers { IfSome result NamesRegisters }
{
    let funct3 = (word >> 12) & 7;
    let (row, imm) = match word & 0x7f {
        0x37 => (row::LUI, immediate_u(word)),
        0x17 => (row::AUIPC, immediate_u(word)),
        0x6f => (row::JAL, immediate_j(word)),
        0x67 if funct3 == 0 => (row::JALR, immediate_i(word)),
        0x63 => (branch_row(funct3)?, immediate_b(word)),
        0x03 => (load_row(funct3)?, immediate_i(word)),
        0x23 => (store_row(funct3)?, immediate_s(word)),
        0x13 => match (funct3, word >> 25) {
            (0, _) => (row::ADDI, immediate_i(word)),
            (2, _) => (row::SLTI, immediate_i(word)),
            (3, _) => (row::SLTIU, immediate_i(word)),
            (4, _) => (row::XORI, immediate_i(word)),
            (6, _) => (row::ORI, immediate_i(word)),
            (7, _) => (row::ANDI, immediate_i(word)),
            (1, 0) => (row::SLLI, shift_amount(word)),
            (5, 0) => (row::SRLI, shift_amount(word)),
            (5, 0x20) => (row::SRAI, shift_amount(word)),
            _ => return None,
        },
        0x33 => (register_row(funct3, word >> 25)?, 0),
        0x0f if funct3 == 0 => (row::FENCE, 0),
        0x73 => (system_row(word)?, 0),
        _ => return None,
    };
    Some(Instr {
        row,
        rd: ((word >> 7) & 0x1f) as u8,
        rs1: ((word >> 15) & 0x1f) as u8,
        rs2: ((word >> 20) & 0x1f) as u8,
        imm,
    })
}

/// The law of one row: a word matches one row of the table at most, so that their order does not matter.
#[tactic(auto, using(crate::proofs::OneRow::one_row))]
pub fn one_row()
    ensures { OneRow }
{}

/// The rows of opcode 0x63, the conditional branches.
#[tactic(auto, unfolding(crate::specs::Fields::row_by_fields))]
fn branch_row(funct3: u32) -> Option<u8>
    ensures { row_by_fields 0x63 funct3 0 0 ≡ with_format B result }
{
    match funct3 {
        0 => Some(row::BEQ),
        1 => Some(row::BNE),
        4 => Some(row::BLT),
        5 => Some(row::BGE),
        6 => Some(row::BLTU),
        7 => Some(row::BGEU),
        _ => None,
    }
}

/// The rows of opcode 0x03, the loads.
#[tactic(auto, unfolding(crate::specs::Fields::row_by_fields))]
fn load_row(funct3: u32) -> Option<u8>
    ensures { row_by_fields 0x03 funct3 0 0 ≡ with_format I result }
{
    match funct3 {
        0 => Some(row::LB),
        1 => Some(row::LH),
        2 => Some(row::LW),
        4 => Some(row::LBU),
        5 => Some(row::LHU),
        _ => None,
    }
}

/// The rows of opcode 0x23, the stores.
#[tactic(auto, unfolding(crate::specs::Fields::row_by_fields))]
fn store_row(funct3: u32) -> Option<u8>
    ensures { row_by_fields 0x23 funct3 0 0 ≡ with_format S result }
{
    match funct3 {
        0 => Some(row::SB),
        1 => Some(row::SH),
        2 => Some(row::SW),
        _ => None,
    }
}

/// The rows of opcode 0x33, arithmetic with two registers.
#[tactic(auto, unfolding(crate::specs::Fields::row_by_fields))]
fn register_row(funct3: u32, funct7: u32) -> Option<u8>
    ensures { row_by_fields 0x33 funct3 funct7 0 ≡ with_format R result }
{
    match (funct7, funct3) {
        (0, 0) => Some(row::ADD),
        (0, 1) => Some(row::SLL),
        (0, 2) => Some(row::SLT),
        (0, 3) => Some(row::SLTU),
        (0, 4) => Some(row::XOR),
        (0, 5) => Some(row::SRL),
        (0, 6) => Some(row::OR),
        (0, 7) => Some(row::AND),
        (0x20, 0) => Some(row::SUB),
        (0x20, 5) => Some(row::SRA),
        (1, 0) => Some(row::MUL),
        (1, 1) => Some(row::MULH),
        (1, 2) => Some(row::MULHSU),
        (1, 3) => Some(row::MULHU),
        (1, 4) => Some(row::DIV),
        (1, 5) => Some(row::DIVU),
        (1, 6) => Some(row::REM),
        (1, 7) => Some(row::REMU),
        _ => None,
    }
}

/// The rows of opcode 0x73, of which two whole words are legal.
#[tactic(auto, unfolding(crate::specs::Fields::row_by_fields))]
fn system_row(word: u32) -> Option<u8>
    ensures { row_by_fields 0x73 0 0 word ≡ with_format R result }
{
    match word {
        0x0000_0073 => Some(row::ECALL),
        0x0010_0073 => Some(row::EBREAK),
        _ => None,
    }
}

/// The immediate of format I: bits 31..20.
#[tactic(auto, unfolding(crate::specs::Table::immediate_of))]
fn immediate_i(word: u32) -> u32
    ensures { result ≡ immediate_of I word }
{
    sign_extend_12(word >> 20)
}

/// The immediate of format S: bits 31..25, 11..7.
#[tactic(auto, unfolding(crate::specs::Table::immediate_of))]
fn immediate_s(word: u32) -> u32
    ensures { result ≡ immediate_of S word }
{
    sign_extend_12(((word >> 25) << 5) | ((word >> 7) & 0x1f))
}

/// The immediate of format B: bits 31, 7, 30..25, 11..8, then a 0.
#[tactic(auto, unfolding(crate::specs::Table::immediate_of))]
fn immediate_b(word: u32) -> u32
    ensures { result ≡ immediate_of B word }
{
    let sign = word >> 31;
    let high = (word >> 7) & 1;
    let middle = (word >> 25) & 0x3f;
    let low = (word >> 8) & 0xf;
    sign_extend_13((sign << 12) | ((high << 11) | ((middle << 5) | (low << 1))))
}

/// The immediate of format U: bits 31..12, then twelve 0.
#[tactic(auto, unfolding(crate::specs::Table::immediate_of))]
fn immediate_u(word: u32) -> u32
    ensures { result ≡ immediate_of U word }
{
    word & 0xffff_f000
}

/// The immediate of format J: bits 31, 19..12, 20, 30..21, then a 0.
#[tactic(auto, unfolding(crate::specs::Table::immediate_of))]
fn immediate_j(word: u32) -> u32
    ensures { result ≡ immediate_of J word }
{
    let sign = word >> 31;
    let high = (word >> 12) & 0xff;
    let middle = (word >> 20) & 1;
    let low = (word >> 21) & 0x3ff;
    sign_extend_21((sign << 20) | ((high << 12) | ((middle << 11) | (low << 1))))
}

/// The shift amount of SLLI, SRLI and SRAI: bits 24..20.
#[tactic(auto, unfolding(crate::specs::Table::immediate_of))]
fn shift_amount(word: u32) -> u32
    ensures { result ≡ immediate_of Shift word }
{
    (word >> 20) & 0x1f
}

/// Twelve bits, sign-extended to 32.
fn sign_extend_12(bits: u32) -> u32
    requires { bits < 2 ^ 12 }
    ensures { result ≡ sign_extended 12 bits }
{
    ((bits << 20).cast_signed() >> 20).cast_unsigned()
}

/// Thirteen bits, sign-extended to 32.
fn sign_extend_13(bits: u32) -> u32
    requires { bits < 2 ^ 13 }
    ensures { result ≡ sign_extended 13 bits }
{
    ((bits << 19).cast_signed() >> 19).cast_unsigned()
}

/// Twenty-one bits, sign-extended to 32.
fn sign_extend_21(bits: u32) -> u32
    requires { bits < 2 ^ 21 }
    ensures { result ≡ sign_extended 21 bits }
{
    ((bits << 11).cast_signed() >> 11).cast_unsigned()
}

#[cfg(test)]
mod tests {
    use super::*;

    #[test]
    fn words_and_rows(rt: HostRuntime) {
        // row, rd, rs1, rs2 and immediate of words as an assembler writes them
        for (word, row, rd, rs1, rs2, imm) in [
            // lui x5, 0x12345
            (0x1234_52b7, 0, 5, 8, 3, 0x1234_5000),
            // auipc x11, 0
            (0x0000_0597, 1, 11, 0, 0, 0),
            // jal x0, 2
            (0x0020_006f, 2, 0, 0, 2, 2),
            // jal x0, -60
            (0xfc5f_f06f, 2, 0, 31, 5, 0xffff_ffc4),
            // jal x1, 1048574
            (0x7fff_f0ef, 2, 1, 31, 31, 0x000f_fffe),
            // jalr x1, -4(x31)
            (0xffcf_80e7, 3, 1, 31, 28, 0xffff_fffc),
            // beq x0, x0, -4
            (0xfe00_0ee3, 4, 29, 0, 0, 0xffff_fffc),
            // bne x5, x6, 4094
            (0x7e62_9fe3, 5, 31, 5, 6, 4094),
            // bgeu x5, x6, -4096
            (0x8062_f063, 9, 0, 5, 6, 0xffff_f000),
            // lb x7, 1(x5)
            (0x0012_8383, 10, 7, 5, 1, 1),
            // lw x10, -4(x2)
            (0xffc1_2503, 12, 10, 2, 28, 0xffff_fffc),
            // lhu x7, 2(x5)
            (0x0022_d383, 14, 7, 5, 2, 2),
            // sb x6, 1(x5)
            (0x0062_80a3, 15, 1, 5, 6, 1),
            // sw x10, -4(x2)
            (0xfea1_2e23, 17, 28, 2, 10, 0xffff_fffc),
            // addi x10, x0, 1
            (0x0010_0513, 18, 10, 0, 1, 1),
            // ori x7, x5, 2047
            (0x7ff2_e393, 22, 7, 5, 31, 2047),
            // andi x7, x5, -2048
            (0x8002_f393, 23, 7, 5, 0, 0xffff_f800),
            // slli x5, x5, 3
            (0x0032_9293, 24, 5, 5, 3, 3),
            // srli x5, x5, 31
            (0x01f2_d293, 25, 5, 5, 31, 31),
            // srai x5, x5, 31
            (0x41f2_d293, 26, 5, 5, 31, 31),
            // add x7, x5, x6
            (0x0062_83b3, 27, 7, 5, 6, 0),
            // sub x7, x5, x6
            (0x4062_83b3, 35, 7, 5, 6, 0),
            // sra x7, x5, x6
            (0x4062_d3b3, 36, 7, 5, 6, 0),
            // mulhsu x7, x5, x6
            (0x0262_a3b3, 39, 7, 5, 6, 0),
            // remu x7, x5, x6
            (0x0262_f3b3, 44, 7, 5, 6, 0),
            // fence iorw, iorw
            (0x0ff0_000f, 45, 0, 0, 31, 0),
            // fence.tso
            (0x8330_000f, 45, 0, 0, 19, 0),
            // ecall
            (0x0000_0073, 46, 0, 0, 0, 0),
            // ebreak
            (0x0010_0073, 47, 0, 0, 1, 0),
        ] {
            let want = Instr {
                row,
                rd,
                rs1,
                rs2,
                imm,
            };
            assert_eq!(rt; decode(word), Some(want), "word {word}");
        }
        // illegal: nothing at all, all ones, uret, fence.i, csrrw, ecall with rd 1, jalr with funct3 1,
        // a branch with funct3 2, ld, sd, slli by 32, slli and srai with funct7 0x20 and 0x21, addw
        for word in [
            0x0000_0000,
            0xffff_ffff,
            0x0020_0073,
            0x0000_100f,
            0x3401_10f3,
            0x0000_00f3,
            0x0000_9067,
            0x0000_2063,
            0x0002_b283,
            0x0052_b023,
            0x0202_9293,
            0x4032_9293,
            0x4232_d293,
            0x0052_82bb,
        ] {
            assert_eq!(rt; decode(word), None, "word {word}");
        }
    }
}
