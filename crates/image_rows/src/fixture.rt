// Images in memory, and memories over them.
ghost use Rattle.std.specs.Prelude.{◌≡◌, ◌<◌, IsTrue, IfOk};
ghost use Rattle.line_image.specs.Memory.{size_of};
ghost use Rattle.line_memory.specs.Memory.{IsResident};

use line_image::{Fails, Image, MemoryImage};
use line_memory::LineMemory;
use std::alloc::{AllocError, Global};
use std::test::Fail;

pub(crate) const LINES: u64 = 32_768;

/// Fails at these calls alone, with room for 100 writes and fences.
pub(crate) fn fails(alloc: Global, calls: &[u64]) -> Result<Fails, AllocError> {
    Ok(Fails {
        calls: calls.to_vec(alloc)?,
        since: u64::MAX,
        room: 100,
    })
}

/// A memory over an image of zeros that fails at these calls.
pub(crate) fn attached(alloc: Global, calls: &[u64]) -> Result<LineMemory<MemoryImage>, Fail>
    ensures { IfOk result (λ memory. LINES ≡ memory.size) }
{
    attach(alloc, MemoryImage::new(alloc, LINES, fails(alloc, calls)?)?)
}

/// A memory over an image.
pub(crate) fn attach(alloc: Global, image: MemoryImage) -> Result<LineMemory<MemoryImage>, Fail>
    ensures { IfOk result (λ memory. size_of image ≡ memory.size) }
{
    match LineMemory::attach(alloc, image) {
        Ok(memory) => Ok(memory),
        Err(_) => Err(Fail::from("attached")),
    }
}

/// Whether the image has the line and it is resident.
pub(crate) fn is_ready<I: Image>(memory: &LineMemory<I>, line: u32) -> bool
    ensures within { IsTrue result → line < memory.now.size }
    ensures resident { IsTrue result → IsResident memory.now line }
{
    u64::from(line) < memory.lines() && memory.resident(line)
}

/// What a read gives in a word.
pub(crate) fn read(image: &MemoryImage, line: u64, word: u8) -> u64 {
    if line < image.lines() && word < 8 {
        image.word(line, word)
    } else {
        u64::MAX
    }
}

/// What a stop leaves in a word, by this pick.
pub(crate) fn left(
    alloc: Global,
    image: &MemoryImage,
    pick: u64,
    line: u64,
    word: u8,
) -> Result<u64, AllocError> {
    let outcome = image.crash(alloc, pick, fails(alloc, &[])?)?;
    Ok(read(&outcome, line, word))
}
