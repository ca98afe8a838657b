ghost use Rattle.std.specs.Prelude.{◌≡◌, ◌<◌, ◌≤◌, ◌+◌, ◌*◌, ◌%◌, ℕ, length, OnOk, IfOk, IfNone, IfSome, IsTrue, Some, position, slice_get, false};
ghost use Rattle.std.specs.Result.{result_err};
ghost use Rattle.rv_exec.specs.Window.{is_inside};
ghost use Rattle.elf_image.specs.Layout.{e_entry, e_phnum, table_end, segments_of};
ghost use Rattle.elf_image.specs.Refusal.{identity_refusal, machine_refusal, table_refusal, segment_refusal, entry_refusal, first_refusal, is_dynamic, is_out_of_file, is_above_memory, is_outside_window, NonePass};
ghost use Rattle.elf_image.specs.Copying.{ArePlaceable};
ghost use Rattle.elf_image.specs.declared.layout.Segment.{Segment};

use crate::layout::{
    E_ENTRY, E_FLAGS, E_MACHINE, E_PHENTSIZE, E_PHNUM, E_PHOFF, E_TYPE, E_VERSION, EI_CLASS,
    EI_DATA, EI_VERSION, FILE_HEADER_SIZE, MAX_SEGMENTS, PROGRAM_HEADER_SIZE, Segment, half_at,
    read_segments, word_at,
};
use crate::refusal::ImageRefusal;
use arrayvec::ArrayVec;
use rv_exec::Memory;

/// The most bytes that an image has.
const MAX_FILE_SIZE: usize = 16_777_216;

/// The class of a file of 32 bits.
const ELFCLASS32: u8 = 1;

/// The order in which the lowest byte of a number is first.
const ELFDATA2LSB: u8 = 1;

/// The version of ELF.
const EV_CURRENT: u8 = 1;

/// The type of an executable file.
const ET_EXEC: u16 = 2;

/// The machine RISC-V.
const EM_RISCV: u16 = 243;

/// The flags of RISC-V for compressed code (bit 0), floats in registers (1, 2) and half the registers (3).
const REFUSED_FLAGS: u32 = 15;

/// Whether it is a 32-bit little-endian ELF file of version 1, and not too long.
#[tactic(auto, unfolding(crate::specs::Refusal::identity_refusal))]
fn check_identity(bytes: &[u8]) -> Result<(), ImageRefusal>
    ensures refusal { result_err result ≡ identity_refusal bytes.now }
    ensures long { OnOk result (52 ≤ length bytes.now) }
    ensures short { OnOk result (length bytes.now ≤ 16777216) }
{
    if bytes.len() > MAX_FILE_SIZE {
        return Err(ImageRefusal::TooLong);
    }
    if bytes.len() < FILE_HEADER_SIZE {
        return Err(ImageRefusal::Short);
    }
    if !bytes.starts_with(b"\x7fELF") {
        return Err(ImageRefusal::Magic);
    }
    if bytes[EI_CLASS] != ELFCLASS32 {
        return Err(ImageRefusal::Class);
    }
    if bytes[EI_DATA] != ELFDATA2LSB {
        return Err(ImageRefusal::Order);
    }
    if bytes[EI_VERSION] != EV_CURRENT {
        return Err(ImageRefusal::Version);
    }
    if word_at(bytes, E_VERSION) != u32::from(EV_CURRENT) {
        return Err(ImageRefusal::Version);
    }
    Ok(())
}

/// Whether it is an executable file for this machine.
#[tactic(auto, unfolding(crate::specs::Refusal::machine_refusal))]
fn check_machine(bytes: &[u8]) -> Result<(), ImageRefusal>
    requires { 52 ≤ length bytes.now }
    ensures { result_err result ≡ machine_refusal bytes.now }
{
    if half_at(bytes, E_TYPE) != ET_EXEC {
        return Err(ImageRefusal::FileType);
    }
    if half_at(bytes, E_MACHINE) != EM_RISCV {
        return Err(ImageRefusal::Machine);
    }
    if word_at(bytes, E_FLAGS) & REFUSED_FLAGS != 0 {
        return Err(ImageRefusal::Flags);
    }
    Ok(())
}

/// Whether it has the program headers that it names.
#[tactic(auto, unfolding(crate::specs::Refusal::table_refusal))]
fn check_table(bytes: &[u8]) -> Result<(), ImageRefusal>
    requires { 52 ≤ length bytes.now }
    ensures refusal { result_err result ≡ table_refusal bytes.now }
    ensures few { OnOk result (e_phnum bytes.now ≤ 64) }
    ensures inside { OnOk result (0 < e_phnum bytes.now → table_end bytes.now ≤ length bytes.now) }
{
    let count = half_at(bytes, E_PHNUM) as usize;
    if count == 0 {
        return Ok(());
    }
    if half_at(bytes, E_PHENTSIZE) as usize != PROGRAM_HEADER_SIZE {
        return Err(ImageRefusal::HeaderSize);
    }
    if count > MAX_SEGMENTS {
        return Err(ImageRefusal::SegmentCount);
    }
    let table = word_at(bytes, E_PHOFF) as usize;
    if table + PROGRAM_HEADER_SIZE * count > bytes.len() {
        return Err(ImageRefusal::TableOutOfFile);
    }
    Ok(())
}

/// The least index of a segment that needs a dynamic linker.
fn find_dynamic(segments: &[Segment]) -> Option<usize>
    requires { length segments.now ≤ 64 }
    ensures place { result ≡ position is_dynamic segments.now }
    ensures few { IfSome result (λ i. i < 64) }
{
    segments.iter().position(|s| s.is_dynamic())
}

/// The least index of a segment that takes a byte beyond a file of `len` bytes.
fn find_out_of_file(len: usize, segments: &[Segment]) -> Option<usize>
    requires { length segments.now ≤ 64 }
    ensures place { result ≡ position (is_out_of_file len) segments.now }
    ensures others { IfNone result (NonePass (is_out_of_file len) segments.now) }
    ensures few { IfSome result (λ i. i < 64) }
{
    segments.iter().position(|s| s.is_out_of_file(len))
}

/// The least index of a segment that takes more bytes from the file than it has in memory.
fn find_above_memory(segments: &[Segment]) -> Option<usize>
    requires { length segments.now ≤ 64 }
    ensures place { result ≡ position is_above_memory segments.now }
    ensures others { IfNone result (NonePass is_above_memory segments.now) }
    ensures few { IfSome result (λ i. i < 64) }
{
    segments.iter().position(|s| s.is_above_memory())
}

/// The least index of a segment that has a byte outside the window.
fn find_outside_window(mem: &Memory, segments: &[Segment]) -> Option<usize>
    requires { length segments.now ≤ 64 }
    ensures place { result ≡ position (is_outside_window (length mem.now)) segments.now }
    ensures others { IfNone result (NonePass (is_outside_window (length mem.now)) segments.now) }
    ensures few { IfSome result (λ i. i < 64) }
{
    segments.iter().position(|s| s.is_outside_window(mem))
}

/// Whether each segment of a file of `len` bytes can be copied into the window.
#[tactic(auto, unfolding(crate::specs::Refusal::segment_refusal))]
fn check_segments(len: usize, mem: &Memory, segments: &[Segment]) -> Result<(), ImageRefusal>
    requires { length segments.now ≤ 64 }
    ensures refusal { result_err result ≡ segment_refusal len (length mem.now) segments.now }
    ensures placeable { OnOk result (ArePlaceable len (length mem.now) segments.now) }
{
    if let Some(i) = find_dynamic(segments) {
        return Err(ImageRefusal::Dynamic(i as u32));
    }
    if let Some(i) = find_out_of_file(len, segments) {
        return Err(ImageRefusal::SegmentOutOfFile(i as u32));
    }
    if let Some(i) = find_above_memory(segments) {
        return Err(ImageRefusal::SizeAboveMemory(i as u32));
    }
    if let Some(i) = find_outside_window(mem, segments) {
        return Err(ImageRefusal::OutsideWindow(i as u32));
    }
    Ok(())
}

/// Whether the first instruction is aligned and inside the window.
#[tactic(auto, unfolding(crate::specs::Refusal::entry_refusal))]
fn check_entry(entry: u32, mem: &Memory) -> Result<(), ImageRefusal>
    ensures refusal { result_err result ≡ entry_refusal (length mem.now) entry }
    ensures aligned { OnOk result (entry % 4 ≡ 0) }
    ensures inside { OnOk result (IsTrue (is_inside (length mem.now) entry 4)) }
    ensures limit { OnOk result (length mem.now ≤ 67108864) }
{
    if entry % 4 != 0 {
        return Err(ImageRefusal::Entry);
    }
    if !mem.has(entry, 4) {
        return Err(ImageRefusal::Entry);
    }
    Ok(())
}

/// The segments of an image for the window, each of which can be copied, or the file's first refusal.
#[tactic(auto, unfolding(crate::specs::Refusal::first_refusal))]
pub fn check(bytes: &[u8], mem: &Memory) -> Result<ArrayVec<Segment, MAX_SEGMENTS>, ImageRefusal>
    ensures refusal { result_err result ≡ first_refusal bytes.now (length mem.now) }
    ensures long { OnOk result (52 ≤ length bytes.now) }
    ensures short { OnOk result (length bytes.now ≤ 16777216) }
    ensures segments { IfOk result (λ segments. segments.items ≡ segments_of bytes.now) }
    ensures placeable { IfOk result (λ segments. ArePlaceable (length bytes.now) (length mem.now) segments.items) }
    ensures aligned { OnOk result (e_entry bytes.now % 4 ≡ 0) }
    ensures inside { OnOk result (IsTrue (is_inside (length mem.now) (e_entry bytes.now) 4)) }
    ensures limit { OnOk result (length mem.now ≤ 67108864) }
{
    check_identity(bytes)?;
    check_machine(bytes)?;
    check_table(bytes)?;
    let segments = read_segments(bytes);
    check_segments(bytes.len(), mem, &segments)?;
    check_entry(word_at(bytes, E_ENTRY), mem)?;
    Ok(segments)
}
