use thiserror::Error;

/// Why a file is not an image. The first reason in this order is given, at the least index from 0 of a
/// program header where it has one. The field names are those of ELF32 (System V ABI).
#[derive(Clone, Copy, Debug, PartialEq, Eq, Error)]
pub enum ImageRefusal {
    /// It has more than 16,777,216 bytes.
    #[error("TooLong")]
    TooLong,
    /// It has fewer than 52 bytes.
    #[error("Short")]
    Short,
    /// Its first bytes are not 0x7f and "ELF".
    #[error("Magic")]
    Magic,
    /// It is not of 32 bits.
    #[error("Class")]
    Class,
    /// It is not little-endian.
    #[error("Order")]
    Order,
    /// Its version, or that of its first bytes, is not 1.
    #[error("Version")]
    Version,
    /// It is not an executable file.
    #[error("FileType")]
    FileType,
    /// It is not for RISC-V.
    #[error("Machine")]
    Machine,
    /// One of bits 0 to 3 of `e_flags` is 1: compressed code, floats or RV32E.
    #[error("Flags")]
    Flags,
    /// It has program headers, and their size is not 32.
    #[error("HeaderSize")]
    HeaderSize,
    /// It has more than 64 program headers.
    #[error("SegmentCount")]
    SegmentCount,
    /// A program header is beyond its end.
    #[error("TableOutOfFile")]
    TableOutOfFile,
    /// The segment needs a dynamic linker.
    #[error("Dynamic {0}")]
    Dynamic(u32),
    /// The segment takes a byte beyond the file's end.
    #[error("SegmentOutOfFile {0}")]
    SegmentOutOfFile(u32),
    /// The segment's `p_filesz` is above its `p_memsz`.
    #[error("SizeAboveMemory {0}")]
    SizeAboveMemory(u32),
    /// A byte of the segment is outside the window of memory.
    #[error("OutsideWindow {0}")]
    OutsideWindow(u32),
    /// The first instruction is not aligned to 4, or a byte of it is outside the window.
    #[error("Entry")]
    Entry,
}
