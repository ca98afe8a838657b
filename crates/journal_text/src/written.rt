ghost use Rattle.std.specs.Prelude.{◌≡◌, ◌<◌, ◌≤◌, ◌+◌, ◌^◌, ◌==◌, ◌∷◌, [], ◌++◌, IsTrue, OnOk, IfNone, IfSome, length, min, true, false, position, nat_lt};
ghost use Rattle.std.specs.List.{before_first, after_first, list_all};
ghost use Rattle.std.specs.Char.{is_ascii_digit};
ghost use Rattle.journal_text.specs.Lines.{lines, parts_of, is_digits, has_leading_zero, number, is_hex, is_hex_digit, hex_bytes, is_sig, is_tick, is_data, is_end, is_form, place_of, what_of, hex_value, data_of};
ghost use Rattle.journal_text.specs.Contents.{is_input};
ghost use Rattle.journal_text.specs.Refusals.{is_bad_number, is_bad_signal};

use crate::entry::What;
use std::alloc::AllocError;
use std::marker::Model;
use thread_base::{Place, Sig};

/// The greatest number of instructions of a place.
const MAX_N: u32 = 1_000_000_000;

/// The greatest number of steps of a place.
const MAX_K: u32 = 1_000_000;

/// An entry as a line has it, `N.K EVENT`: each part as it is written.
#[derive(Drop)]
pub struct Written<'a> {
    n: &'a [u8],
    k: &'a [u8],
    event: &'a [u8],
}

impl<'a> Model for Written<'a> {
    ghost use Rattle.journal_text.specs.Lines.{Parts};

    ghost Value = { Parts };

    ghost view = { λ w. record { n = w.n.now; k = w.k.now; event = w.event.now } };
}

/// The index of the first of these bytes.
fn position_of(text: &[u8], mark: u8) -> Option<usize>
    ensures { result ≡ position (λ b. b == mark) text.now }
{
    text.iter().position(|b| *b == mark)
}

/// What stands before the first of these bytes, and what stands after it.
fn cut_at(text: &[u8], mark: u8) -> (&[u8], &[u8])
    ensures before { result.0.now ≡ before_first (λ b. b == mark) text.now }
    ensures behind { result.1.now ≡ after_first (λ b. b == mark) text.now }
{
    match position_of(text, mark) {
        Some(i) => (&text[..i], &text[i + 1..]),
        None => (text, &[]),
    }
}

/// The first line of a text without its line feed, and the text after it; None exactly without a line feed.
#[tactic(auto, using(crate::proofs::Cuts::cut_some, crate::proofs::Cuts::cut_none))]
pub fn cut_line(text: &[u8]) -> Option<(&[u8], &[u8])>
    ensures found { IfSome result (λ cut. lines text.now ≡ record { text = cut.0.now; ended = true } ∷ lines cut.1.now) }
    ensures len { IfSome result (λ cut. length cut.0.now + length cut.1.now + 1 ≡ length text.now) }
    ensures last { IfNone result (0 < length text.now → lines text.now ≡ record { text = text.now; ended = false } ∷ []) }
{
    let end = position_of(text, b'\n')?;
    Some((&text[..end], &text[end + 1..]))
}

/// Whether each byte is a decimal digit.
fn all_digits(text: &[u8]) -> bool
    ensures { result ≡ list_all is_ascii_digit text.now }
{
    text.iter().all(|b| b.is_ascii_digit())
}

/// Whether it is one or more decimal digits.
fn is_digits(text: &[u8]) -> bool
    ensures { result ≡ is_digits text.now }
{
    !text.is_empty() && all_digits(text)
}

/// Whether it has more than one digit, and the first is a zero.
fn has_leading_zero(digits: &[u8]) -> bool
    ensures { result ≡ has_leading_zero digits.now }
{
    digits.len() > 1 && digits[0] == b'0'
}

/// The number that digits write, or the greatest `u32` where it is greater.
#[tactic(auto, unfolding(crate::specs::Lines::number), using(crate::proofs::Digits::number_more))]
fn number(digits: &[u8]) -> u32
    ensures { result ≡ min (number digits.now) 4294967295 }
{
    let mut n = 0u32;
    for digit in digits {
        let value = digit.saturating_sub(b'0');
        n = n.saturating_mul(10).saturating_add(u32::from(value));
    }
    n
}

/// Whether the number that digits write is above `most`.
fn is_above(digits: &[u8], most: u32) -> bool
    requires { most < 4294967295 }
    ensures { result ≡ nat_lt most (number digits.now) }
{
    number(digits) > most
}

/// Whether it is a digit of lower-case hexadecimal.
fn is_hex_digit(b: u8) -> bool
    ensures { result ≡ is_hex_digit b }
{
    matches!(b, b'0'..=b'9' | b'a'..=b'f')
}

/// Whether each byte is a digit of lower-case hexadecimal.
fn all_hex_digits(text: &[u8]) -> bool
    ensures { result ≡ list_all is_hex_digit text.now }
{
    text.iter().all(|b| is_hex_digit(*b))
}

/// Whether it is one byte or more, at most 4,096, in lower-case hexadecimal.
fn is_hex(text: &[u8]) -> bool
    ensures { result ≡ is_hex text.now }
{
    2 <= text.len() && text.len() <= 8192 && text.len() % 2 == 0 && all_hex_digits(text)
}

/// Whether it is `sig` and a number.
fn is_sig(event: &[u8]) -> bool
    ensures { result ≡ is_sig event.now }
{
    event.starts_with(b"sig ") && is_digits(&event[4..])
}

/// Whether it is `tick`.
fn is_tick(event: &[u8]) -> bool
    ensures { result ≡ is_tick event.now }
{
    event.starts_with(b"tick") && event.len() == 4
}

/// Whether it is `data` and bytes in hexadecimal.
fn is_data(event: &[u8]) -> bool
    ensures { result ≡ is_data event.now }
{
    event.starts_with(b"data ") && is_hex(&event[5..])
}

/// Whether it is `eof`.
fn is_end(event: &[u8]) -> bool
    ensures { result ≡ is_end event.now }
{
    event.starts_with(b"eof") && event.len() == 3
}

/// The value of a digit of lower-case hexadecimal.
fn hex_value(digit: u8) -> u8
    requires { IsTrue (is_hex_digit digit) }
    ensures value { result ≡ hex_value digit }
    ensures range { result < 16 }
{
    if digit < 58 { digit - b'0' } else { digit - 87 }
}

/// Appends the bytes that digits write, two for each byte.
fn put_bytes(digits: &[u8], bytes: &mut Vec<u8>) -> Result<(), AllocError>
    requires { IsTrue (is_hex digits.now) }
    ensures grown { OnOk result (bytes.new.items ≡ bytes.old.items ++ hex_bytes digits.now) }
    ensures short { OnOk result (length bytes.new.items ≤ length bytes.old.items + length digits.now) }
{
    let mut at = 0usize;
    while at + 1 < digits.len() {
        bytes.push(hex_value(digits[at]) * 16 + hex_value(digits[at + 1]))?;
        at += 2;
    }
    Ok(())
}

impl<'a> Written<'a> {
    /// The parts of a line, which has no line feed.
    pub fn cut(line: &'a [u8]) -> Written<'a>
        ensures parts { result ≡ parts_of line.now }
        ensures short { length result.event ≤ length line.now }
    {
        let (n, rest) = cut_at(line, b'.');
        let (k, event) = cut_at(rest, b' ');
        Written { n, k, event }
    }

    /// Whether it has one of the four forms.
    pub fn is_form(&self) -> bool
        ensures { result ≡ is_form self.now }
    {
        is_digits(self.n)
            && is_digits(self.k)
            && (is_tick(self.event)
                || is_end(self.event)
                || is_sig(self.event)
                || is_data(self.event))
    }

    /// Whether a number has a leading zero, or one of the place is too great.
    pub fn has_bad_number(&self) -> bool
        ensures { result ≡ is_bad_number self.now }
    {
        has_leading_zero(self.n)
            || has_leading_zero(self.k)
            || (is_sig(self.event) && has_leading_zero(&self.event[4..]))
            || is_above(self.n, MAX_N)
            || is_above(self.k, MAX_K)
    }

    /// Whether its signal is none in scope.
    pub fn has_bad_signal(&self) -> bool
        ensures { result ≡ is_bad_signal self.now }
    {
        is_sig(self.event) && Sig::new(number(&self.event[4..])).is_none()
    }

    /// Whether it brings or ends input.
    #[tactic(auto, unfolding(crate::specs::Lines::what_of))]
    pub fn is_input(&self) -> bool
        ensures { result ≡ is_input (what_of 0 self.now.event) }
    {
        !is_tick(self.event) && (is_end(self.event) || !is_sig(self.event))
    }

    /// The place that it names.
    #[tactic(auto, using(crate::proofs::Parts::are_numbers))]
    pub fn place(&self) -> Place
        requires { is_bad_number self.now ≡ false }
        ensures { result ≡ place_of self.now }
    {
        Place {
            n: u64::from(number(self.n)),
            k: number(self.k),
        }
    }

    /// The event that it names; data begin at `start`.
    #[tactic(auto, unfolding(crate::specs::Lines::what_of))]
    pub fn what(&self, start: u32) -> What
        requires short { length self.now.event < 2 ^ 32 }
        requires signal { is_bad_signal self.now ≡ false }
        ensures { result ≡ what_of start self.now.event }
    {
        if is_tick(self.event) {
            What::Tick
        } else if is_end(self.event) {
            What::Eof
        } else if is_sig(self.event) {
            What::Sig(Sig::of(number(&self.event[4..])))
        } else {
            What::Data {
                start,
                len: (self.event.len().saturating_sub(5) / 2) as u32,
            }
        }
    }

    /// Appends the bytes that it brings.
    #[tactic(auto, unfolding(crate::specs::Lines::data_of))]
    pub fn put_data(&self, bytes: &mut Vec<u8>) -> Result<(), AllocError>
        ensures grown { OnOk result (bytes.new.items ≡ bytes.old.items ++ data_of self.now.event) }
        ensures short { OnOk result (length bytes.new.items ≤ length bytes.old.items + length self.now.event) }
    {
        if is_data(self.event) {
            put_bytes(&self.event[5..], bytes)?;
        }
        Ok(())
    }
}
