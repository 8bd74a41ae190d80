// A class set is opened on an image and launched.
ghost use Rattle.std.specs.Prelude.{IfOk};
ghost use Rattle.thread_rows.specs.Playing.{IsOpen, IsPlaying};

use crate::playing::Playing;
use ap_base::MemorySink;
use class_set::{ClassSet, link};
use durable_launch::{Launched, OpenedHeap, Run, complete, find_for, find_main, launch, open_heap};
use line_image::{Fails, MemoryImage};
use listing::assemble;
use program_host::ProgramHost;
use run_history::NoWatch;
use run_types::Limits;
use std::alloc::Global;
use std::io::{self, ErrorKind};

/// The lines of an image.
const LINES: u64 = 32_768;

/// Words of volatile memory.
const WORDS: u32 = 100_000;

/// Acts of a history.
const ACTS: u32 = 20_000;

/// How many bytes of a program's output are kept.
const ROOM: u64 = 10_000;

/// What can't be used of a row's data, or of an image.
pub(crate) fn unusable() -> io::Error {
    io::Error::from(ErrorKind::InvalidData)
}

/// An image's calls fail from this one on.
pub(crate) fn fails_from(alloc: Global, since: u64) -> Fails {
    Fails {
        calls: Vec::new(alloc),
        since,
        room: 20_000,
    }
}

/// What is run: a class set, and an image of zeros that was opened for it.
#[derive(Drop)]
pub(crate) struct Program {
    pub(crate) set: ClassSet,
    pub(crate) image: MemoryImage,
}

fn linked(alloc: Global, listing: &[u8]) -> io::Result<ClassSet> {
    let Ok(files) = assemble(alloc, listing) else {
        return Err(unusable());
    };
    if files.len() > 4096 {
        return Err(unusable());
    }
    match link(alloc, files) {
        Ok(set) => Ok(set),
        Err(_) => Err(unusable()),
    }
}

/// The first heap of a set over an image. The array types of the image's directory get numbers in the set.
fn opened(
    alloc: Global,
    set: &mut ClassSet,
    image: MemoryImage,
) -> io::Result<OpenedHeap<MemoryImage>>
    ensures can { IfOk result (IsOpen set.new 100000) }
{
    let Ok(found) = find_for(alloc, set, image) else {
        return Err(unusable());
    };
    let Ok(opened) = complete(found) else {
        return Err(unusable());
    };
    match open_heap(alloc, set, opened, WORDS) {
        Ok(heap) => Ok(heap),
        Err(_) => Err(unusable()),
    }
}

/// The program of a listing.
pub(crate) fn program_of(alloc: Global, listing: &[u8]) -> io::Result<Program> {
    let mut set = linked(alloc, listing)?;
    let blank = MemoryImage::new(alloc, LINES, fails_from(alloc, u64::MAX))?;
    let heap = opened(alloc, &mut set, blank)?;
    let image = heap.spaces.heap.memory.into_image();
    Ok(Program { set, image })
}

/// A run that has begun, and what its frames are given.
#[derive(Drop)]
pub(crate) struct Begun {
    pub(crate) run: Playing,
    pub(crate) host: ProgramHost,
}

// Launches a program's class Main on its image, of which calls fail so.
fn launched(alloc: Global, program: &mut Program, fails: Fails) -> io::Result<Launched<MemoryImage>>
    ensures playing { IfOk result (λ launched. IsPlaying program.new.set launched.host launched.heap launched.frames.items) }
{
    let image = program.image.crash(alloc, 1, fails)?;
    let heap = opened(alloc, &mut program.set, image)?;
    let Ok(main) = find_main(&program.set, b"Main") else {
        return Err(unusable());
    };
    let limits = Limits {
        heap_words: WORDS,
        acts: ACTS,
    };
    match launch(alloc, &program.set, &main, heap, &limits) {
        Ok(launched) => Ok(launched),
        Err(_) => Err(unusable()),
    }
}

/// A program's run on its image, of which calls fail so, as it begins.
pub(crate) fn launch_on(alloc: Global, program: &mut Program, fails: Fails) -> io::Result<Begun>
    ensures playing { IfOk result (λ begun. IsPlaying program.new.set begun.host begun.run.heap begun.run.frames.items) }
{
    let sink = MemorySink::new(alloc, ROOM, 24, Vec::new(alloc))?;
    let Launched {
        host,
        heap,
        frames,
        ..
    } = launched(alloc, program, fails)?;
    let run = Run {
        frames,
        heap,
        sink,
        watcher: NoWatch,
        turns: [0; 64],
    };
    Ok(Begun { run, host })
}
