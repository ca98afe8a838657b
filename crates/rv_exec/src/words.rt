ghost use Rattle.std.specs.Prelude.{◌≡◌, ◌<◌, ◌^◌, nat_lt};
ghost use Rattle.rv_exec.specs.Meaning.{extended, is_taken, width_of_load, width_of_store};
ghost use Rattle.rv_exec.specs.Window.{IsWidth};
ghost use Rattle.rv_exec.specs.Words.{flag, is_below_signed, shifted_right_signed, high_product, high_product_signed, high_product_mixed, quotient, quotient_signed, remainder, remainder_signed};

use rv_table::row;

/// Whether the relation of a branch's row holds.
#[tactic(auto, unfolding(crate::specs::Meaning::is_taken))]
pub fn relation_holds(row: u8, a: u32, b: u32) -> bool
    ensures { result ≡ is_taken row a b }
{
    match row {
        row::BEQ => a == b,
        row::BNE => a != b,
        row::BLT => a.cast_signed() < b.cast_signed(),
        row::BGE => a.cast_signed() >= b.cast_signed(),
        row::BLTU => a < b,
        _ => a >= b,
    }
}

/// How many bytes a row of loads reads.
#[tactic(auto, unfolding(crate::specs::Meaning::width_of_load))]
pub fn load_width(row: u8) -> u32
    ensures value { result ≡ width_of_load row }
    ensures width { IsWidth result }
{
    match row {
        row::LB | row::LBU => 1,
        row::LH | row::LHU => 2,
        _ => 4,
    }
}

/// How many bytes a row of stores writes.
#[tactic(auto, unfolding(crate::specs::Meaning::width_of_store))]
pub fn store_width(row: u8) -> u32
    ensures value { result ≡ width_of_store row }
    ensures width { IsWidth result }
{
    match row {
        row::SB => 1,
        row::SH => 2,
        _ => 4,
    }
}

/// The word that a row of loads makes of the number that it read.
#[tactic(auto, unfolding(crate::specs::Meaning::extended, crate::specs::Meaning::width_of_load))]
pub fn extend(row: u8, number: u32) -> u32
    requires { number < 256 ^ width_of_load row }
    ensures { result ≡ extended row number }
{
    match row {
        row::LB => ((number << 24).cast_signed() >> 24).cast_unsigned(),
        row::LH => ((number << 16).cast_signed() >> 16).cast_unsigned(),
        _ => number,
    }
}

/// SLT: 1 where a is below b in the signed reading, else 0.
pub fn set_less_signed(a: u32, b: u32) -> u32
    ensures { result ≡ flag (is_below_signed a b) }
{
    u32::from(a.cast_signed() < b.cast_signed())
}

/// SLTU: 1 where a is below b, else 0.
pub fn set_less(a: u32, b: u32) -> u32
    ensures { result ≡ flag (nat_lt a b) }
{
    u32::from(a < b)
}

/// SRA: the shift amount is the low five bits of b.
pub fn shift_right_signed(a: u32, b: u32) -> u32
    ensures { result ≡ shifted_right_signed a b }
{
    a.cast_signed().wrapping_shr(b).cast_unsigned()
}

/// MULH: the high word of signed times signed.
pub fn multiply_high_signed(a: u32, b: u32) -> u32
    ensures { result ≡ high_product_signed a b }
{
    let product = i64::from(a.cast_signed()) * i64::from(b.cast_signed());
    ((product >> 32) as i32).cast_unsigned()
}

/// MULHSU: the high word of signed times unsigned.
pub fn multiply_high_mixed(a: u32, b: u32) -> u32
    ensures { result ≡ high_product_mixed a b }
{
    let product = i64::from(a.cast_signed()) * i64::from(b);
    ((product >> 32) as i32).cast_unsigned()
}

/// MULHU: the high word of unsigned times unsigned.
pub fn multiply_high(a: u32, b: u32) -> u32
    ensures { result ≡ high_product a b }
{
    ((u64::from(a) * u64::from(b)) >> 32) as u32
}

/// DIV: rounds toward zero; all ones for the divisor 0, and -2^31 for -2^31 by -1.
pub fn quotient_signed(a: u32, b: u32) -> u32
    ensures { result ≡ quotient_signed a b }
{
    if b == 0 {
        u32::MAX
    } else {
        a.cast_signed()
            .wrapping_div(b.cast_signed())
            .cast_unsigned()
    }
}

/// DIVU: all ones for the divisor 0.
pub fn quotient(a: u32, b: u32) -> u32
    ensures { result ≡ quotient a b }
{
    if b == 0 { u32::MAX } else { a / b }
}

/// REM: the dividend itself for the divisor 0, and 0 for -2^31 by -1.
pub fn remainder_signed(a: u32, b: u32) -> u32
    ensures { result ≡ remainder_signed a b }
{
    if b == 0 {
        a
    } else {
        a.cast_signed()
            .wrapping_rem(b.cast_signed())
            .cast_unsigned()
    }
}

/// REMU: the dividend itself for the divisor 0.
pub fn remainder(a: u32, b: u32) -> u32
    ensures { result ≡ remainder a b }
{
    if b == 0 { a } else { a % b }
}
