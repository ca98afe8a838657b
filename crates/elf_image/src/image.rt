ghost use Rattle.std.specs.Prelude.{◌≡◌, ◌<◌, ◌≤◌, ◌+◌, ◌%◌, ℕ, length, IfOk, IfErr, OnErr, OnOk, IsTrue, Some, None, slice_index};
ghost use Rattle.rv_exec.specs.Window.{base, is_inside};
ghost use Rattle.elf_image.specs.Layout.{IsStart, e_entry, segments_of};
ghost use Rattle.elf_image.specs.Copying.{IsPlaceable, ArePlaceable, with_part, with_rest, with_segment};
ghost use Rattle.elf_image.specs.Refusal.{first_refusal};

use crate::checks::check;
use crate::layout::{E_ENTRY, Segment, word_at};
use crate::refusal::ImageRefusal;
use rv_exec::Memory;

/// The address of an image's first instruction.
#[derive(Clone, Copy, Debug, PartialEq, Eq)]
pub struct EntryPoint(pub u32);

/// Copies the bytes that the file has of a segment.
fn copy_part(bytes: &[u8], s: &Segment, mem: &mut Memory)
    requires { IsPlaceable (length bytes.now) (length mem.old) s.now }
    ensures len { length mem.new ≡ length mem.old }
    ensures each { (k : ℕ) → k < length mem.old → slice_index mem.new k ≡ with_part bytes.now s.now mem.old k }
{
    // A segment without bytes in the file may name an offset beyond its end.
    if s.filesz == 0 {
        return;
    }
    let from = s.offset as usize;
    mem.copy_in(s.vaddr, &bytes[from..from + s.filesz as usize]);
}

/// Clears the bytes of a segment that the file does not have.
fn clear_rest(s: &Segment, mem: &mut Memory)
    requires larger { s.now.filesz ≤ s.now.memsz }
    requires low { 0 < s.now.memsz → base ≤ s.now.vaddr }
    requires high { 0 < s.now.memsz → s.now.vaddr + s.now.memsz ≤ base + length mem.old }
    requires limit { length mem.old ≤ 67108864 }
    ensures len { length mem.new ≡ length mem.old }
    ensures each { (k : ℕ) → k < length mem.old → slice_index mem.new k ≡ with_rest s.now mem.old k }
{
    if s.filesz < s.memsz {
        mem.clear(s.vaddr + s.filesz, (s.memsz - s.filesz) as usize);
    }
}

/// Copies a segment into the window, if it is one that is copied.
fn copy_segment(bytes: &[u8], s: &Segment, mem: &mut Memory)
    requires placeable { s.now.kind ≡ 1 → IsPlaceable (length bytes.now) (length mem.old) s.now }
    requires limit { length mem.old ≤ 67108864 }
    ensures len { length mem.new ≡ length mem.old }
    ensures each { (k : ℕ) → k < length mem.old → slice_index mem.new k ≡ with_segment bytes.now s.now mem.old k }
{
    if !s.is_loaded() {
        return;
    }
    copy_part(bytes, s, mem);
    clear_rest(s, mem);
}

/// Copies the segments into a window of zeros in their order, so that a later one overwrites an earlier one.
fn copy_segments(bytes: &[u8], segments: &[Segment], mem: &mut Memory)
    requires placeable { ArePlaceable (length bytes.now) (length mem.old) segments.now }
    requires limit { length mem.old ≤ 67108864 }
    requires zeros { (k : ℕ) → k < length mem.old → slice_index mem.old k ≡ 0 }
    ensures { IsStart bytes.now segments.now (length mem.old) mem.new }
{
    for s in segments {
        copy_segment(bytes, s, mem);
    }
}

/// Loads an image, an ELF file for RV32IM, into a window of zeros, and gives its entry. The answer is the
/// first refusal of the file where it has one, and then the window is unchanged. Of an image the window
/// holds the segments of type 1, a later one over an earlier one, and zeros elsewhere.
pub fn load(bytes: &[u8], mem: &mut Memory) -> Result<EntryPoint, ImageRefusal>
    requires zeros { (k : ℕ) → k < length mem.old → slice_index mem.old k ≡ 0 }

    // It refuses exactly what has a first refusal, with that refusal.
    ensures refused { IfErr result (λ r. first_refusal bytes.now (length mem.old) ≡ Some r) }
    ensures accepted { OnOk result (first_refusal bytes.now (length mem.old) ≡ None) }
    ensures unchanged { OnErr result (mem.new ≡ mem.old) }

    // The entry is the file's e_entry, an aligned address with a whole instruction in the window.
    ensures entry { IfOk result (λ e. e.0 ≡ e_entry bytes.now) }
    ensures aligned { IfOk result (λ e. e.0 % 4 ≡ 0) }
    ensures inside { IfOk result (λ e. IsTrue (is_inside (length mem.old) e.0 4)) }

    ensures memory { OnOk result (IsStart bytes.now (segments_of bytes.now) (length mem.old) mem.new) }
    ensures len { length mem.new ≡ length mem.old }
    ensures short { OnOk result (length bytes.now ≤ 16777216) }
{
    let segments = check(bytes, mem)?;
    copy_segments(bytes, &segments, mem);
    Ok(EntryPoint(word_at(bytes, E_ENTRY)))
}
