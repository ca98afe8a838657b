ghost use Rattle.std.specs.Prelude.{◌≡◌, ◌<◌, ◌≤◌, ◌+◌, ◌*◌, ℕ, length};
ghost use Rattle.elf_image.specs.Layout.{half_at, word_at, e_phnum, table_end, segment_at, segments_of, is_loaded};
ghost use Rattle.elf_image.specs.Refusal.{is_dynamic, is_out_of_file, is_above_memory, is_outside_window};

use arrayvec::ArrayVec;
use byteorder::{ByteOrder, LittleEndian};
use rv_exec::Memory;

/// The size of the file's header (ELF: Elf32_Ehdr).
pub const FILE_HEADER_SIZE: usize = 52;

/// The size of one program header (ELF: Elf32_Phdr).
pub const PROGRAM_HEADER_SIZE: usize = 32;

/// The most program headers that an image has.
pub const MAX_SEGMENTS: usize = 64;

/// Where the file's header tells whether it is of 32 or 64 bits.
pub const EI_CLASS: usize = 4;

/// Where the file's header tells the order of a number's bytes.
pub const EI_DATA: usize = 5;

/// Where the file's header tells its own version.
pub const EI_VERSION: usize = 6;

/// Where the file's header tells whether it is executable.
pub const E_TYPE: usize = 16;

/// Where the file's header tells the machine.
pub const E_MACHINE: usize = 18;

/// Where the file's header tells the file's version.
pub const E_VERSION: usize = 20;

/// Where the file's header tells the address of the first instruction.
pub const E_ENTRY: usize = 24;

/// Where the file's header tells the offset of the program headers.
pub const E_PHOFF: usize = 28;

/// Where the file's header tells the machine's flags.
pub const E_FLAGS: usize = 36;

/// Where the file's header tells the size of a program header.
pub const E_PHENTSIZE: usize = 42;

/// Where the file's header tells the number of program headers.
pub const E_PHNUM: usize = 44;

/// Where a program header tells the segment's type.
const P_TYPE: usize = 0;

/// Where a program header tells the offset of the segment's bytes.
const P_OFFSET: usize = 4;

/// Where a program header tells the segment's first address.
const P_VADDR: usize = 8;

/// Where a program header tells how many bytes the file has.
const P_FILESZ: usize = 16;

/// Where a program header tells how many bytes memory has.
const P_MEMSZ: usize = 20;

/// The type of a segment that is copied into memory.
const PT_LOAD: u32 = 1;

/// The type of a segment for a dynamic linker.
const PT_DYNAMIC: u32 = 2;

/// The type of a segment that names a dynamic linker.
const PT_INTERP: u32 = 3;

/// The little-endian number of two bytes at an offset of the file.
pub fn half_at(bytes: &[u8], at: usize) -> u16
    requires { at + 2 ≤ length bytes.now }
    ensures { result ≡ half_at bytes.now at }
{
    LittleEndian::read_u16(&bytes[at..])
}

/// The little-endian number of four bytes at an offset of the file.
pub fn word_at(bytes: &[u8], at: usize) -> u32
    requires { at + 4 ≤ length bytes.now }
    ensures { result ≡ word_at bytes.now at }
{
    LittleEndian::read_u32(&bytes[at..])
}

/// A segment, by the fields of its program header that are looked at (ELF: Elf32_Phdr).
#[derive(Clone, Copy, Debug, Default, PartialEq, Eq)]
pub struct Segment {
    /// What it is for; only type 1 is copied.
    pub kind: u32,
    /// Where its bytes stand in the file.
    pub offset: u32,
    /// Its first address in memory.
    pub vaddr: u32,
    /// How many bytes the file has of it.
    pub filesz: u32,
    /// How many bytes it has in memory.
    pub memsz: u32,
}

impl Segment {
    /// Whether it is copied into memory.
    pub fn is_loaded(&self) -> bool
        ensures { result ≡ is_loaded self.now }
    {
        self.kind == PT_LOAD
    }

    /// Whether it needs a dynamic linker.
    pub fn is_dynamic(&self) -> bool
        ensures { result ≡ is_dynamic self.now }
    {
        self.kind == PT_DYNAMIC || self.kind == PT_INTERP
    }

    /// Whether it takes a byte beyond a file of `len` bytes.
    pub fn is_out_of_file(&self, len: usize) -> bool
        ensures { result ≡ is_out_of_file len self.now }
    {
        let end = u64::from(self.offset) + u64::from(self.filesz);
        self.is_loaded() && self.filesz != 0 && (len as u64) < end
    }

    /// Whether it takes more bytes from the file than it has in memory.
    pub fn is_above_memory(&self) -> bool
        ensures { result ≡ is_above_memory self.now }
    {
        self.is_loaded() && self.memsz < self.filesz
    }

    /// Whether a byte of it is outside the window.
    pub fn is_outside_window(&self, mem: &Memory) -> bool
        ensures { result ≡ is_outside_window (length mem.now) self.now }
    {
        self.is_loaded() && self.memsz != 0 && !mem.has(self.vaddr, self.memsz as usize)
    }
}

/// The segment whose program header stands at an offset of the file.
#[tactic(auto, unfolding(crate::specs::Layout::segment_at))]
fn read_segment(bytes: &[u8], at: usize) -> Segment
    requires { at + 32 ≤ length bytes.now }
    ensures { result ≡ segment_at bytes.now at }
{
    Segment {
        kind: word_at(bytes, at + P_TYPE),
        offset: word_at(bytes, at + P_OFFSET),
        vaddr: word_at(bytes, at + P_VADDR),
        filesz: word_at(bytes, at + P_FILESZ),
        memsz: word_at(bytes, at + P_MEMSZ),
    }
}

/// The segments of the file, in the order of their program headers.
#[tactic(auto, unfolding(crate::specs::Layout::segments_of))]
pub fn read_segments(bytes: &[u8]) -> ArrayVec<Segment, MAX_SEGMENTS>
    requires long { 52 ≤ length bytes.now }
    requires short { length bytes.now ≤ 16777216 }
    requires few { e_phnum bytes.now ≤ 64 }
    requires inside { 0 < e_phnum bytes.now → table_end bytes.now ≤ length bytes.now }
    ensures { result.items ≡ segments_of bytes.now }
{
    let count = half_at(bytes, E_PHNUM) as usize;
    let table = word_at(bytes, E_PHOFF) as usize;
    let mut segments = ArrayVec::new();
    for i in 0..count {
        segments.push(read_segment(bytes, table + PROGRAM_HEADER_SIZE * i));
    }
    segments
}
