ghost use Rattle.std.specs.Prelude.{◌≡◌, ◌≤◌, ◌+◌, ◌*◌, ◌++◌, length, vec_len, IfOk, OnOk};
ghost use Rattle.std.specs.List.{flat_map};
ghost use Rattle.workload_gen.specs.Sheet.{word, headers_size, sheet_bytes, IsImageEverywhere};

use rv_exec::BASE;
use std::alloc::{AllocError, Global};
use thread_base::NoMemory;

/// The file's header (ELF: Elf32_Ehdr): an executable file for RISC-V that enters after its headers, at
/// 0x10054, with one program header and no section.
const FILE_HEADER: [u8; 52] = *b"\x7fELF\x01\x01\x01\0\0\0\0\0\0\0\0\0\
    \x02\0\xf3\0\x01\0\0\0\x54\0\x01\0\x34\0\0\0\0\0\0\0\0\0\0\0\x34\0\x20\0\x01\0\0\0\0\0\0\0";

/// The size of a program header (ELF: Elf32_Phdr).
const PROGRAM_HEADER_SIZE: usize = 32;

/// The type of a segment that is copied into memory.
const PT_LOAD: u32 = 1;

/// The rights to read and to execute.
const PF_R_X: u32 = 5;

/// The alignment that a sheet's segment names.
const ALIGNMENT: u32 = 4_096;

/// Puts words after the bytes of a file, the lowest byte of each first.
fn push_words(file: &mut Vec<u8>, words: &[u32]) -> Result<(), AllocError>
    ensures { OnOk result (file.new.items ≡ file.old.items ++ flat_map word words.now) }
{
    for word in words {
        file.extend_from_slice(&word.to_le_bytes())?;
    }
    Ok(())
}

/// The bytes of the sheet with this code.
#[tactic(auto, unfolding(crate::specs::Sheet::sheet_bytes, crate::specs::Sheet::file_header, crate::specs::Sheet::program_header))]
fn sheet_bytes(alloc: Global, code: &[u32]) -> Result<Vec<u8>, AllocError>
    requires { length code.now ≤ 10000 }
    ensures { IfOk result (λ file. file.items ≡ sheet_bytes code.now) }
{
    let size = (FILE_HEADER.len() + PROGRAM_HEADER_SIZE + 4 * code.len()) as u32;
    let program_header = [PT_LOAD, 0, BASE, BASE, size, size, PF_R_X, ALIGNMENT];
    let mut file = Vec::new(alloc);
    file.extend_from_slice(&FILE_HEADER)?;
    push_words(&mut file, &program_header)?;
    push_words(&mut file, code)?;
    Ok(file)
}

/// A sheet: the smallest ELF file for RV32IM with this code, of at most 10,000 words, from offset 84 on.
/// For each size of memory it is an image that enters at the first word, at 65620. NoMemory is free.
pub fn sheet(alloc: Global, code: &[u32]) -> Result<Vec<u8>, NoMemory>
    requires { length code.now ≤ 10000 }
    ensures bytes { IfOk result (λ file. file.items ≡ sheet_bytes code.now) }
    ensures len { IfOk result (λ file. vec_len file ≡ headers_size + 4 * length code.now) }
    ensures image { IfOk result (λ file. IsImageEverywhere code.now file.items) }
{
    match sheet_bytes(alloc, code) {
        Ok(file) => Ok(file),
        Err(_) => Err(NoMemory),
    }
}
