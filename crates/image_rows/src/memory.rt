// The memory over an image: what calls answer, and what a stop leaves.
ghost use Rattle.std.specs.Prelude.{◌≡◌, ◌⊎◌, ◌<◌, OnOk, OnErr};
ghost use Rattle.line_memory.specs.Memory.{IsResident};
ghost use Rattle.line_memory.specs.Steps.{WroteBack, Fenced, Stored, Neither, Follows};

use crate::fixture::{LINES, attach, attached, fails, is_ready, left, read};
use ap_base::Spot;
use line_image::{ClosedImage, Image, ImageFailed, MemoryImage};
use line_memory::{
    AttachFault, LineMemory, Touch, a_fenced_word_stands_alone, a_stop_set_is_exact,
    laws_of_stop_sets, stop_sets_gain_what_is_stored,
};
use std::alloc::Global;
use std::test::Fail;

/// A touch is a step that follows the memory before it, and so are the calls below.
fn touch<I: Image>(memory: &mut LineMemory<I>, line: u32) -> Result<Touch, ImageFailed>
    requires { line < memory.old.size }
    ensures { Follows memory.old (record { deed = Neither; after = memory.new }) }
{
    memory.touch(line)
}

fn store<I: Image>(memory: &mut LineMemory<I>, spot: Spot, word: u64)
    requires { IsResident memory.old spot.line }
    ensures { Follows memory.old
        (record { deed = Stored spot.line spot.word word; after = memory.new }) }
{
    memory.store(spot, word);
}

fn write_back<I: Image>(memory: &mut LineMemory<I>, line: u32) -> Result<(), ImageFailed>
    requires in_range { line < memory.old.size }
    requires resident { IsResident memory.old line }
    ensures wrote { OnOk result
        (Follows memory.old (record { deed = WroteBack line; after = memory.new })) }
    ensures failed { OnErr result
        (Follows memory.old (record { deed = WroteBack line; after = memory.new })
        ⊎ Follows memory.old (record { deed = Neither; after = memory.new })) }
{
    memory.write_back(line)
}

fn fence<I: Image>(memory: &mut LineMemory<I>) -> Result<(), ImageFailed>
    ensures fenced { OnOk result
        (Follows memory.old (record { deed = Fenced; after = memory.new })) }
    ensures failed { OnErr result
        (Follows memory.old (record { deed = Neither; after = memory.new })) }
{
    memory.fence()
}

#[derive(Clone, Copy)]
enum Call {
    /// Touches a line: 0 where it is ready.
    Touch(u32),
    /// What the third word of a line shows.
    Load(u32),
    /// Stores to the third word of a line, and writes the line back.
    Set(u32, u64),
    Fence,
    Evict(u32),
}

fn is_again<I: Image>(memory: &mut LineMemory<I>, line: u32) -> Result<u64, ImageFailed> {
    if !is_ready(memory, line) {
        return Err(ImageFailed);
    }
    match touch(memory, line)? {
        Touch::Ready => Ok(0),
        Touch::Again => Ok(1),
    }
}

fn set<I: Image>(memory: &mut LineMemory<I>, line: u32, word: u64) -> Result<(), ImageFailed> {
    if is_ready(memory, line) {
        store(memory, Spot { line, word: 2 }, word);
    }
    if is_ready(memory, line) {
        write_back(memory, line)
    } else {
        Err(ImageFailed)
    }
}

fn made<I: Image>(memory: &mut LineMemory<I>, call: Call) -> Result<u64, ImageFailed> {
    match call {
        Call::Touch(line) => return is_again(memory, line),
        Call::Load(line) if is_ready(memory, line) => {
            return Ok(memory.load(Spot { line, word: 2 }));
        }
        Call::Load(_) => return Err(ImageFailed),
        Call::Set(line, word) => set(memory, line, word)?,
        Call::Fence => fence(memory)?,
        Call::Evict(line) if is_ready(memory, line) => memory.evict(line)?,
        Call::Evict(_) => return Err(ImageFailed),
    }
    Ok(0)
}

/// The calls after the attach that fail, those that are made with their answers, how many image calls they are, and
/// words with what is fenced and what was written last.
type Row<'a> = (
    &'a [u64],
    &'a [(Call, Result<u64, ImageFailed>)],
    u64,
    &'a [(u64, u8, u64, u64)],
);

/// Whether all is as the row says.
fn is_shown(alloc: Global, row: &Row) -> Result<bool, Fail> {
    let (failing, calls, count, words) = *row;
    let mut memory = attached(alloc, failing)?;
    let mut same = memory.calls() == LINES;
    for (call, answer) in calls {
        same &= made(&mut memory, *call) == *answer;
    }
    same &= memory.calls().saturating_sub(LINES) == count;
    let image = memory.into_image();
    for (line, word, fenced, written) in words {
        same &= left(alloc, &image, 0, *line, *word)? == *fenced;
        same &= left(alloc, &image, 1, *line, *word)? == *written;
        same &= read(&image, *line, *word) == *written;
    }
    Ok(same)
}

#[test]
fn what_calls_leave(rt: HostRuntime) -> Result<(), Fail> {
    let failed = Err(ImageFailed);
    let rows: [Row; 2] = [
        (
            &[],
            &[
                (Call::Touch(7), Ok(0)),
                (Call::Set(7, 5), Ok(0)),
                (Call::Fence, Ok(0)),
                (Call::Set(8, 6), Ok(0)),
                (Call::Set(7, 9), Ok(0)),
                (Call::Load(7), Ok(9)),
                (Call::Load(9), Ok(0)),
            ],
            4,
            &[(7, 2, 5, 9), (8, 2, 0, 6), (9, 2, 0, 0)],
        ),
        // The second call is the fence, and the fourth the first eviction.
        (
            &[LINES + 2, LINES + 4],
            &[
                (Call::Set(7, 5), Ok(0)),
                (Call::Fence, failed),
                (Call::Load(7), Ok(5)),
                (Call::Set(8, 6), Ok(0)),
                (Call::Evict(8), failed),
                (Call::Evict(8), Ok(0)),
                (Call::Load(8), Ok(6)),
            ],
            5,
            &[(7, 2, 0, 5), (8, 2, 0, 6)],
        ),
    ];
    for (number, row) in rows.iter().enumerate() {
        assert!(rt; is_shown(rt.alloc(), row)?, "row {number}");
    }
    laws_of_stop_sets();
    stop_sets_gain_what_is_stored();
    a_fenced_word_stands_alone();
    a_stop_set_is_exact();
    Ok(())
}

fn fault<I: Image>(alloc: Global, image: I) -> Option<AttachFault> {
    match LineMemory::attach(alloc, image) {
        Ok(_) => None,
        Err((fault, _)) => Some(fault),
    }
}

#[test]
fn attach_refuses(rt: HostRuntime) -> Result<(), Fail> {
    let alloc = rt.alloc();
    let found = [
        fault(
            alloc,
            MemoryImage::new(alloc, LINES - 1, fails(alloc, &[])?)?,
        ),
        fault(
            alloc,
            MemoryImage::new(alloc, LINES, fails(alloc, &[LINES])?)?,
        ),
        fault(
            alloc,
            MemoryImage::new(alloc, LINES, fails(alloc, &[LINES + 1])?)?,
        ),
        fault(alloc, ClosedImage::new()),
    ];
    let failed = Some(AttachFault::ImageFailed);
    assert_eq!(rt; found, [Some(AttachFault::Size), failed, None, failed]);
    Ok(())
}

#[test]
fn a_large_image_is_attached(rt: HostRuntime) -> Result<(), Fail> {
    let alloc = rt.alloc();
    let mut memory = attach(alloc, MemoryImage::new(alloc, 262_144, fails(alloc, &[])?)?)?;
    let set = made(&mut memory, Call::Set(20_000, 5));
    let image = memory.into_image();
    let found = (
        set,
        left(alloc, &image, 0, 20_000, 2)?,
        left(alloc, &image, 1, 20_000, 2)?,
    );
    assert_eq!(rt; found, (Ok(0), 0, 5));
    Ok(())
}
