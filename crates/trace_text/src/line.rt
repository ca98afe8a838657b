ghost use Rattle.std.specs.Prelude.{◌≡◌, ◌≤◌, ◌+◌, ◌*◌, ◌++◌, [], length};
ghost use Rattle.std.specs.List.{flat_map};
ghost use Rattle.posix_model.specs.Lines.{number, line, hex_byte, hex_digit};
ghost use Rattle.replay_io.specs.Writing.{Writes};

use arrayvec::ArrayVec;
use itoa::Buffer;
use replay_io::{Sink, SinkFailed};
use std::marker::Model;

/// A line while it is built, seen as its bytes; it has room for the longest line.
#[derive(Drop)]
pub struct Line {
    bytes: ArrayVec<u8, 200>,
}

impl Model for Line {
    ghost use Rattle.std.specs.Prelude.{List, ℕ};

    ghost Value = { List ℕ };

    ghost view = { λ l. l.bytes.items };
}

/// A digit in lower-case hexadecimal.
fn digit(n: u8) -> u8
    requires { n ≤ 15 }
    ensures { result ≡ hex_digit n }
{
    if n < 10 { b'0' + n } else { 87 + n }
}

impl Line {
    /// An empty line.
    pub fn new() -> Line
        ensures { result ≡ [] }
    {
        Line {
            bytes: ArrayVec::new(),
        }
    }

    /// Its bytes.
    pub fn bytes(&self) -> &[u8]
        ensures { result.now ≡ self.now }
    {
        self.bytes.as_slice()
    }

    /// Appends a text.
    pub fn text(&mut self, text: &[u8])
        requires { length self.old + length text.now ≤ 200 }
        ensures { self.new ≡ self.old ++ text.now }
    {
        let _ = self.bytes.try_extend_from_slice(text);
    }

    /// Appends a blank and a number.
    pub fn number(&mut self, n: u64)
        requires { length self.old + 21 ≤ 200 }
        ensures text { self.new ≡ self.old ++ number n }
        ensures room { length self.new ≤ length self.old + 21 }
    {
        let mut buffer = Buffer::new();
        self.text(b" ");
        self.text(buffer.format(n).as_bytes());
    }

    /// Appends a blank and a number, for each of some numbers.
    pub fn numbers(&mut self, numbers: &[u64])
        requires { length self.old + 21 * length numbers.now ≤ 200 }
        ensures text { self.new ≡ self.old ++ flat_map number numbers.now }
        ensures room { length self.new ≤ length self.old + 21 * length numbers.now }
    {
        for n in numbers {
            self.number(*n);
        }
    }

    /// Appends a blank and a number, for each argument of a call.
    pub fn arguments(&mut self, arguments: &[u32; 4])
        requires { length self.old + 84 ≤ 200 }
        ensures text { self.new ≡ self.old ++ flat_map number arguments.now }
        ensures room { length self.new ≤ length self.old + 84 }
    {
        for n in arguments {
            self.number(u64::from(*n));
        }
    }

    /// Appends a byte as two digits in hexadecimal.
    pub fn hex(&mut self, b: u8)
        requires { length self.old + 2 ≤ 200 }
        ensures text { self.new ≡ self.old ++ hex_byte b }
        ensures room { length self.new ≤ length self.old + 2 }
    {
        self.text(&[digit(b / 16), digit(b % 16)]);
    }
}

/// Writes a line in one put: a word of at most 100 bytes, at most 4 numbers with a blank before each, and
/// the line's end. Ok and SinkFailed come as at `put_report`.
pub fn put_line<O: Sink>(word: &[u8], numbers: &[u64], out: &mut O) -> Result<(), SinkFailed>
    requires short { length word.now ≤ 100 }
    requires few { length numbers.now ≤ 4 }
    ensures { Writes result (O.written out.old) (O.written out.new) (O.faults out.old) (O.faults out.new) (line word.now numbers.now) }
{
    let mut line = Line::new();
    line.text(word);
    line.numbers(numbers);
    line.text(b"\n");
    out.put(line.bytes())
}
