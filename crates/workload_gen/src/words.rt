ghost use Rattle.std.specs.Prelude.{◌≡◌, ◌<◌, ◌^◌, slice_index};
ghost use Rattle.workload_gen.specs.Words.{lui, addi, upper_part, lower_part, call_words, SetsRegister, IsEcall};

/// The register of a call's first argument.
const A0: u32 = 10;

/// The register of its second argument.
const A1: u32 = 11;

/// The register of its third argument.
const A2: u32 = 12;

/// The register of its fourth argument.
const A3: u32 = 13;

/// The register of its number.
const A7: u32 = 17;

/// The word of `ecall`.
const ECALL: u32 = 0x0000_0073;

/// The word of `lui rd, upper`.
fn lui(rd: u32, upper: u32) -> u32
    requires register { rd < 32 }
    requires bits { upper < 2 ^ 20 }
    ensures { result ≡ lui rd upper }
{
    (upper << 12) | ((rd << 7) | 0x37)
}

/// The word of `addi rd, rs1, lower`, where `lower` has the 12 bits of a two's complement.
fn addi(rd: u32, rs1: u32, lower: u32) -> u32
    requires target { rd < 32 }
    requires source { rs1 < 32 }
    requires bits { lower < 2 ^ 12 }
    ensures { result ≡ addi rd rs1 lower }
{
    (lower << 20) | ((rs1 << 15) | ((rd << 7) | 0x13))
}

/// The operand of `lui` for a value, of 20 bits.
fn upper_part(value: u32) -> u32
    ensures part { result ≡ upper_part value }
    ensures bits { result < 2 ^ 20 }
{
    // one more where bit 11 of the value is set, since `addi` subtracts there
    value.wrapping_add(0x800) >> 12
}

/// The operand of `addi` for a value, of 12 bits.
fn lower_part(value: u32) -> u32
    ensures part { result ≡ lower_part value }
    ensures bits { result < 2 ^ 12 }
{
    value & 0xfff
}

/// The word that puts the upper part of a value into a register.
fn set_upper(register: u32, value: u32) -> u32
    requires { register < 32 }
    ensures { result ≡ lui register (upper_part value) }
{
    lui(register, upper_part(value))
}

/// The word that adds the lower part of a value to a register.
fn add_lower(register: u32, value: u32) -> u32
    requires { register < 32 }
    ensures { result ≡ addi register register (lower_part value) }
{
    addi(register, register, lower_part(value))
}

/// The words of a system call: `lui` and `addi` for each of a0 to a3, with the arguments in their order,
/// and for a7, with the call's number, then `ecall`.
#[tactic(auto, using(crate::proofs::Encodings::setting_sets, crate::proofs::Encodings::ecall_decodes))]
pub fn sys_words(call: u32, args: [u32; 4]) -> [u32; 11]
    ensures words { result ≡ call_words call args }

    // Each pair decodes to instructions that put the value into its register.
    ensures a0 { SetsRegister 10 (slice_index args 0) (slice_index result 0) (slice_index result 1) }
    ensures a1 { SetsRegister 11 (slice_index args 1) (slice_index result 2) (slice_index result 3) }
    ensures a2 { SetsRegister 12 (slice_index args 2) (slice_index result 4) (slice_index result 5) }
    ensures a3 { SetsRegister 13 (slice_index args 3) (slice_index result 6) (slice_index result 7) }
    ensures a7 { SetsRegister 17 call (slice_index result 8) (slice_index result 9) }
    ensures ecall { IsEcall (slice_index result 10) }
{
    let [a0, a1, a2, a3] = args;
    [
        set_upper(A0, a0),
        add_lower(A0, a0),
        set_upper(A1, a1),
        add_lower(A1, a1),
        set_upper(A2, a2),
        add_lower(A2, a2),
        set_upper(A3, a3),
        add_lower(A3, a3),
        set_upper(A7, call),
        add_lower(A7, call),
        ECALL,
    ]
}
