ghost use Rattle.std.specs.Prelude.{◌≡◌, option_map};
ghost use Rattle.std.specs.Char.{is_ascii_digit};
ghost use Rattle.std.specs.List.{list_all};
ghost use Rattle.command_words.specs.Values.{has_leading_zero, is_budget, is_decimal, is_digits, is_memory, is_quantum, number, value_or};

/// The budget where none is given, and the greatest.
const BUDGET: u64 = 1_000_000;

const MOST_BUDGET: u64 = 1_000_000_000;

/// The quantum where none is given, and the greatest.
const QUANTUM: u32 = 4;

const MOST_QUANTUM: u64 = 1000;

/// The size of memory where none is given, the least, the greatest, and what it is a multiple of.
const MEMORY: u32 = 4_194_304;

const LEAST_MEMORY: u64 = 65_536;

const MOST_MEMORY: u64 = 67_108_864;

const PAGE: u64 = 4096;

/// Whether each byte is a decimal digit.
fn all_digits(text: &[u8]) -> bool
    ensures { result ≡ list_all is_ascii_digit text.now }
{
    text.iter().all(|b| b.is_ascii_digit())
}

/// Whether it is one or more decimal digits.
fn is_digits(text: &[u8]) -> bool
    ensures { result ≡ is_digits text.now }
{
    !text.is_empty() && all_digits(text)
}

/// Whether a 0 stands first and more behind it.
fn has_leading_zero(text: &[u8]) -> bool
    ensures { result ≡ has_leading_zero text.now }
{
    text.len() > 1 && text[0] == b'0'
}

/// Whether it is decimal digits without a leading zero.
fn is_decimal(text: &[u8]) -> bool
    ensures { result ≡ is_decimal text.now }
{
    is_digits(text) && !has_leading_zero(text)
}

/// The number that a text writes: decimal digits without a leading zero, up to 2^64 - 1.
pub fn number(text: &str) -> Option<u64>
    ensures { result ≡ number text.now }
{
    if !is_decimal(text.as_bytes()) {
        return None;
    }
    text.parse().ok()
}

/// The budget, by the text of its option.
pub fn budget(text: Option<&str>) -> Option<u64>
    ensures { result ≡ value_or 1000000 is_budget (option_map (λ s. s.now) text.entry) }
{
    let Some(text) = text else {
        return Some(BUDGET);
    };
    let n = number(text)?;
    if n <= MOST_BUDGET { Some(n) } else { None }
}

/// The quantum, by the text of its option.
pub fn quantum(text: Option<&str>) -> Option<u32>
    ensures { result ≡ value_or 4 is_quantum (option_map (λ s. s.now) text.entry) }
{
    let Some(text) = text else {
        return Some(QUANTUM);
    };
    let n = number(text)?;
    if 1 <= n && n <= MOST_QUANTUM {
        Some(n as u32)
    } else {
        None
    }
}

/// The size of memory, by the text of its option.
pub fn memory(text: Option<&str>) -> Option<u32>
    ensures { result ≡ value_or 4194304 is_memory (option_map (λ s. s.now) text.entry) }
{
    let Some(text) = text else {
        return Some(MEMORY);
    };
    let n = number(text)?;
    if LEAST_MEMORY <= n && n <= MOST_MEMORY && n % PAGE == 0 {
        Some(n as u32)
    } else {
        None
    }
}
