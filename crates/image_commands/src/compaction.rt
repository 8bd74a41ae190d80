// The call of `compact`.
ghost use Rattle.std.specs.Prelude.{◌≡◌, Some};
ghost use Rattle.command_words.specs.Commands.{command_of, texts};
ghost use Rattle.image_commands.specs.Asked.{of_compact};
ghost use Rattle.image_commands.specs.Complete.{CompactDoesItsWork};
ghost use Rattle.image_commands.specs.Compacts.{MeetsCompact, images, status_of_compaction};

use crate::words::of_words;
use ap_base::Sink;
use command_words::{Command, Compact, read_words};
use compact_call::{CompactFault, compact_images};
use line_image::Image;
use statuses::Status;
use std::alloc::Global;

/// What a compaction hands back: how it ended, and what it was given.
#[derive(Drop)]
pub struct Compacted<I, J, S> {
    pub status: Status,
    pub old: I,
    pub fresh: J,
    pub sink: S,
}

fn of_compaction(outcome: Result<(), CompactFault>) -> Status
    ensures { result ≡ status_of_compaction outcome }
{
    match outcome {
        Ok(()) => Status::Ok,
        Err(CompactFault::BadImage { line, reason }) => Status::BadImage { line, reason },
        Err(CompactFault::NewImage(reason)) => Status::NewImage { reason },
        Err(CompactFault::Full(full)) => Status::Full(full),
        Err(CompactFault::ImageFailed) => Status::ImageFault,
        Err(CompactFault::SinkFailed) => Status::SinkFault,
        Err(CompactFault::OutOfMemory) => Status::OutOfMemory,
    }
}

// What the words of a command ask of `compact`.
fn of_compact(command: Command) -> Option<Compact>
    ensures { result ≡ of_compact (Some command) }
{
    match command {
        Command::Compact(words) => Some(words),
        _ => None,
    }
}

// What a call gives back that touched nothing.
fn untouched<I, J, S>(status: Status, old: I, fresh: J, sink: S) -> Compacted<I, J, S>
    ensures status { result.status ≡ status }
    ensures old { result.old ≡ old }
    ensures fresh { result.fresh ≡ fresh }
    ensures sink { result.sink ≡ sink }
{
    Compacted {
        status,
        old,
        fresh,
        sink,
    }
}

/// Writes the graph of the old image to the new one, densely, where the words, which begin with the program's name, ask for it, and
/// puts the line `nodes N lines M`. At any stop the old image stands for the graph for which it stood, and the new one, if it was
/// blank, is blank or stands for that graph; if it wasn't, it stays as it was.
pub fn compact<I: Image, J: Image, S: Sink>(
    alloc: Global,
    words: &Vec<String>,
    old: I,
    fresh: J,
    sink: S,
) -> Compacted<I, J, S>
    // The promises, a field each.
    ensures meets { MeetsCompact (texts words.now.items)
        (images (I.told old) (I.faults old) (J.told fresh) (J.faults fresh) (S.taken sink) (S.faults sink))
        (images (I.told result.old) (I.faults result.old) (J.told result.fresh) (J.faults result.fresh)
        (S.taken result.sink) (S.faults result.sink))
        ((result.old ≡ old) × (result.fresh ≡ fresh)) result.status }
    // Where the images are as it asks and nothing outside fails, it does its work, or memory runs out before a byte is put.
    ensures complete { CompactDoesItsWork (of_compact (command_of (texts words.now.items)))
        (images (I.told old) (I.faults old) (J.told fresh) (J.faults fresh) (S.taken sink) (S.faults sink))
        (images (I.told result.old) (I.faults result.old) (J.told result.fresh) (J.faults result.fresh)
        (S.taken result.sink) (S.faults result.sink)) result.status }
{
    do_compact(alloc, words, old, fresh, sink)
}

// What the words ask for is done. It stands apart because `complete` follows from `meets` of the same call.
fn do_compact<I: Image, J: Image, S: Sink>(
    alloc: Global,
    words: &Vec<String>,
    old: I,
    fresh: J,
    sink: S,
) -> Compacted<I, J, S>
    ensures meets { MeetsCompact (texts words.now.items)
        (images (I.told old) (I.faults old) (J.told fresh) (J.faults fresh) (S.taken sink) (S.faults sink))
        (images (I.told result.old) (I.faults result.old) (J.told result.fresh) (J.faults result.fresh)
        (S.taken result.sink) (S.faults result.sink))
        ((result.old ≡ old) × (result.fresh ≡ fresh)) result.status }
{
    let asked = match read_words(alloc, words) {
        Ok(command) => of_compact(command),
        Err(fault) => return untouched(of_words(fault), old, fresh, sink),
    };
    if asked.is_none() {
        return untouched(Status::Usage, old, fresh, sink);
    }
    let done = compact_images(alloc, old, fresh, sink);
    Compacted {
        status: of_compaction(done.outcome),
        old: done.old,
        fresh: done.fresh,
        sink: done.sink,
    }
}
