//! The numbers of the table's rows, by the names that the RISC-V manual gives their instructions.

/// Load upper immediate.
pub const LUI: u8 = 0;

/// Add upper immediate to pc.
pub const AUIPC: u8 = 1;

/// Jump and link.
pub const JAL: u8 = 2;

/// Jump and link register.
pub const JALR: u8 = 3;

/// Branch if equal.
pub const BEQ: u8 = 4;

/// Branch if not equal.
pub const BNE: u8 = 5;

/// Branch if less than, signed.
pub const BLT: u8 = 6;

/// Branch if greater than or equal, signed.
pub const BGE: u8 = 7;

/// Branch if less than, unsigned.
pub const BLTU: u8 = 8;

/// Branch if greater than or equal, unsigned.
pub const BGEU: u8 = 9;

/// Load a byte, sign-extended.
pub const LB: u8 = 10;

/// Load a half word, sign-extended.
pub const LH: u8 = 11;

/// Load a word.
pub const LW: u8 = 12;

/// Load a byte, zero-extended.
pub const LBU: u8 = 13;

/// Load a half word, zero-extended.
pub const LHU: u8 = 14;

/// Store a byte.
pub const SB: u8 = 15;

/// Store a half word.
pub const SH: u8 = 16;

/// Store a word.
pub const SW: u8 = 17;

/// Add an immediate.
pub const ADDI: u8 = 18;

/// Set if less than an immediate, signed.
pub const SLTI: u8 = 19;

/// Set if less than an immediate, unsigned.
pub const SLTIU: u8 = 20;

/// Exclusive or with an immediate.
pub const XORI: u8 = 21;

/// Or with an immediate.
pub const ORI: u8 = 22;

/// And with an immediate.
pub const ANDI: u8 = 23;

/// Shift left logical by an immediate.
pub const SLLI: u8 = 24;

/// Shift right logical by an immediate.
pub const SRLI: u8 = 25;

/// Shift right arithmetic by an immediate.
pub const SRAI: u8 = 26;

/// Add.
pub const ADD: u8 = 27;

/// Shift left logical.
pub const SLL: u8 = 28;

/// Set if less than, signed.
pub const SLT: u8 = 29;

/// Set if less than, unsigned.
pub const SLTU: u8 = 30;

/// Exclusive or.
pub const XOR: u8 = 31;

/// Shift right logical.
pub const SRL: u8 = 32;

/// Or.
pub const OR: u8 = 33;

/// And.
pub const AND: u8 = 34;

/// Subtract.
pub const SUB: u8 = 35;

/// Shift right arithmetic.
pub const SRA: u8 = 36;

/// Multiply: the low word of the product.
pub const MUL: u8 = 37;

/// The high word of the product, signed by signed.
pub const MULH: u8 = 38;

/// The high word of the product, signed by unsigned.
pub const MULHSU: u8 = 39;

/// The high word of the product, unsigned by unsigned.
pub const MULHU: u8 = 40;

/// Divide, signed.
pub const DIV: u8 = 41;

/// Divide, unsigned.
pub const DIVU: u8 = 42;

/// Remainder, signed.
pub const REM: u8 = 43;

/// Remainder, unsigned.
pub const REMU: u8 = 44;

/// Order memory accesses.
pub const FENCE: u8 = 45;

/// Call the environment.
pub const ECALL: u8 = 46;

/// Stop at a breakpoint.
pub const EBREAK: u8 = 47;
