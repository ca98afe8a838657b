ghost use Rattle.std.specs.Prelude.{◌≡◌, ◌<◌, ◌≤◌, ◌+◌, ◌-◌, ◌^◌, ◌↔◌, ℕ, length, replicate, slice_index, take, IfOk, IfSome, IsSome, IsTrue};
ghost use Rattle.std.specs.Bool.{OnTrue, OnFalse};
ghost use Rattle.std.specs.Int.{to_le_bytes, w32};
ghost use Rattle.rv_exec.specs.Window.{zeros, is_inside, fits, number_at, bytes_at, with_bytes, IsWidth, IsMemorySize};

use byteorder::{ByteOrder, LittleEndian};
use std::alloc::Global;
use std::marker::Model;
use thread_base::NoMemory;

/// The address of the window's first byte.
pub const BASE: u32 = 0x1_0000;

/// The memory of a process: a window of bytes from address `BASE` on, seen as the list of its bytes.
#[derive(Debug, Drop)]
pub struct Memory {
    bytes: Vec<u8>,
}

impl Model for Memory {
    ghost use Rattle.std.specs.Prelude.{List, ℕ, ◌≤◌, length};

    ghost Value = { List ℕ };

    ghost view = { λ m. m.bytes.items };

    ghost invariant = { λ m. length m.bytes.items ≤ 67108864 };
}

impl Memory {
    /// A window of `size` zeros; NoMemory is free.
    #[tactic(auto, unfolding(crate::specs::Window::zeros))]
    pub fn new(alloc: Global, size: u32) -> Result<Memory, NoMemory>
        requires { IsMemorySize size }
        ensures zeros { IfOk result (λ m. m ≡ zeros size) }
        ensures size { IfOk result (λ m. length m ≡ size) }
        ensures each { IfOk result (λ m. (k : ℕ) → k < length m → slice_index m k ≡ 0) }
    {
        match Vec::from_elem(alloc, 0u8, size as usize) {
            Ok(bytes) => Ok(Memory { bytes }),
            Err(_) => Err(NoMemory),
        }
    }

    /// The number of its bytes, at most 67,108,864.
    pub fn size(&self) -> u32
        ensures size { result ≡ length self.now }
        ensures limit { length self.now ≤ 67108864 }
    {
        self.bytes.len() as u32
    }

    /// Whether all of `count` bytes from `addr` on are in the window.
    pub fn has(&self, addr: u32, count: usize) -> bool
        ensures inside { result ≡ is_inside (length self.now) addr count }
        ensures limit { length self.now ≤ 67108864 }
    {
        // below BASE the difference wraps to more than any size
        let at = addr.wrapping_sub(BASE) as usize;
        at.saturating_add(count) <= self.bytes.len()
    }

    /// The little-endian number of 1, 2 or 4 bytes at an address; None exactly where one is outside.
    pub fn read(&self, addr: u32, width: u32) -> Option<u32>
        requires { IsWidth width }
        ensures some { IsSome result ↔ IsTrue (is_inside (length self.now) addr width) }
        ensures value { IfSome result (λ n. n ≡ number_at self.now addr width) }
        ensures range { IfSome result (λ n. n < 256 ^ width) }
        ensures limit { length self.now ≤ 67108864 }
    {
        if !self.has(addr, width as usize) {
            return None;
        }
        let at = (addr - BASE) as usize;
        let bytes = &self.bytes[at..];
        Some(match width {
            1 => u32::from(bytes[0]),
            2 => u32::from(LittleEndian::read_u16(bytes)),
            _ => LittleEndian::read_u32(bytes),
        })
    }

    /// Writes the low 1, 2 or 4 bytes of a number, the lowest first.
    /// False exactly where one is outside; then nothing changes.
    pub fn write(&mut self, addr: u32, width: u32, value: u32) -> bool
        requires { IsWidth width }
        ensures inside { result ≡ is_inside (length self.old) addr width }
        ensures written { OnTrue result (self.new ≡ with_bytes self.old addr (take width (to_le_bytes w32 value))) }
        ensures refused { OnFalse result (self.new ≡ self.old) }
        ensures size { length self.new ≡ length self.old }
    {
        let count = width as usize;
        if !self.has(addr, count) {
            return false;
        }
        let at = (addr - BASE) as usize;
        let bytes = value.to_le_bytes();
        self.bytes[at..at + count].copy_from_slice(&bytes[..count]);
        true
    }

    /// Copies bytes into the window from an address on.
    /// False exactly where the slice is not empty and a byte is outside; then nothing changes.
    pub fn copy_in(&mut self, addr: u32, bytes: &[u8]) -> bool
        ensures fits { result ≡ fits (length self.old) addr (length bytes.now) }
        ensures written { 0 < length bytes.now → IsTrue (is_inside (length self.old) addr (length bytes.now))
            → self.new ≡ with_bytes self.old addr bytes.now }
        ensures empty { length bytes.now ≡ 0 → self.new ≡ self.old }
        ensures refused { OnFalse result (self.new ≡ self.old) }
        ensures size { length self.new ≡ length self.old }
    {
        if bytes.is_empty() {
            return true;
        }
        if !self.has(addr, bytes.len()) {
            return false;
        }
        let at = (addr - BASE) as usize;
        self.bytes[at..at + bytes.len()].copy_from_slice(bytes);
        true
    }

    /// Copies bytes of the window from an address on into a slice.
    /// False exactly where the slice is not empty and a byte is outside; then it is as before.
    pub fn copy_out(&self, addr: u32, into: &mut [u8]) -> bool
        ensures fits { result ≡ fits (length self.now) addr (length into.old) }
        ensures copied { 0 < length into.old → IsTrue (is_inside (length self.now) addr (length into.old))
            → into.new ≡ bytes_at self.now addr (length into.old) }
        ensures empty { length into.old ≡ 0 → into.new ≡ into.old }
        ensures refused { OnFalse result (into.new ≡ into.old) }
    {
        if into.is_empty() {
            return true;
        }
        let count = into.len();
        if !self.has(addr, count) {
            return false;
        }
        let at = (addr - BASE) as usize;
        into.copy_from_slice(&self.bytes[at..at + count]);
        true
    }

    /// Lends the bytes of a range that is inside the window.
    pub fn part(&self, addr: u32, count: usize) -> &[u8]
        requires { IsTrue (is_inside (length self.now) addr count) }
        ensures { result.now ≡ bytes_at self.now addr count }
    {
        let at = (addr - BASE) as usize;
        &self.bytes[at..at + count]
    }

    /// Writes zeros over a range that is inside the window.
    pub fn clear(&mut self, addr: u32, count: usize)
        requires { IsTrue (is_inside (length self.old) addr count) }
        ensures cleared { self.new ≡ with_bytes self.old addr (replicate count 0) }
        ensures size { length self.new ≡ length self.old }
    {
        let at = (addr - BASE) as usize;
        self.bytes[at..at + count].fill(0);
    }
}

#[cfg(test)]
mod tests {
    use super::*;

    #[test]
    fn each_call_once(rt: HostRuntime) {
        let Ok(mut mem) = Memory::new(rt.alloc(), 65_536) else {
            panic!(rt; "no memory")
        };
        assert_eq!(rt; mem.size(), 65_536);
        assert!(rt; mem.has(0x1_fffc, 4));
        assert!(rt; !mem.has(0x1_fffd, 4));
        assert!(rt; mem.write(0x1_0000, 4, 0x1234_5678));
        assert_eq!(rt; mem.read(0x1_0001, 2), Some(0x3456));
        assert!(rt; mem.copy_in(0x1_0002, b"hi"));
        let mut copy = [0; 4];
        assert!(rt; mem.copy_out(0x1_0000, &mut copy));
        assert_eq!(rt; copy, [0x78, 0x56, b'h', b'i']);
        mem.clear(0x1_0001, 2);
        assert_eq!(rt; mem.part(0x1_0000, 4), [0x78, 0, 0, b'i'].as_slice());
    }
}
