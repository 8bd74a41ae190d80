// Commands on the images of a world.
use crate::given::{push, source_of};
use crate::running::{Done, Outside, done_on, outside_of};
use crate::script::{Command, Given};
use crate::texts::{put_bytes, put_lost};
use crate::world::{Held, World, copied, put_image};
use ap_base::MemorySink;
use image_commands::{audit, compact};
use line_image::MemoryImage;
use mirror_image::Mirror;
use run_fixture::{Status, sink, status_text};
use std::alloc::{AllocError, Global};
use std::sync::Wait;
use std::thread::Threads;

const RUN: &str = "run --image F --main Main DIR";

/// Puts what was printed, and the number and line of a status but 0.
fn tell(
    alloc: Global,
    out: &mut String,
    printed: &MemorySink,
    status: &Status,
) -> Result<(), AllocError> {
    put_bytes(out, printed.as_slice())?;
    let line = status_text(alloc, status)?;
    if line.is_empty() {
        return Ok(());
    }
    let number = status.number();
    out.push_str(format!(in alloc; "{number} ")?.as_str())?;
    put_bytes(out, line.as_slice())
}

/// The program's name, and the words of a command behind it.
fn words_of(alloc: Global, words: &str) -> Result<Vec<String>, AllocError> {
    let mut all = Vec::new(alloc);
    all.push(String::from_str(alloc, "autopersist")?)?;
    for word in words.split_ascii_whitespace() {
        all.push(String::from_str(alloc, word)?)?;
    }
    Ok(all)
}

/// A sink as the world says.
fn sink_of(alloc: Global, world: &World) -> Result<MemorySink, AllocError> {
    let (most, fails) = world.sink;
    sink(alloc, most, fails)
}

/// What a command is given beside its words and its image.
fn outside_of_world(alloc: Global, world: &mut World) -> Result<Outside, AllocError> {
    let sink = sink_of(alloc, world)?;
    let source = source_of(alloc, &mut world.source)?;
    outside_of(alloc, source, sink)
}

/// A command over one image, which stays where it was. `None` where there is no such image.
fn on_one<R>(
    rt: &R,
    alloc: Global,
    images: &mut Vec<Held>,
    name: &str,
    words: &Vec<String>,
    outside: Outside,
) -> Result<Option<Done>, AllocError>
where
    R: Threads + Wait + Clone + Send + Sync + Drop,
{
    let Some(image) = copied(alloc, images, name)? else {
        return Ok(None);
    };
    let (done, image) = done_on(rt, alloc, words, outside, image);
    put_image(alloc, images, name, image)?;
    Ok(Some(done))
}

/// A mirror of two images. `None` where they can't be paired.
pub(crate) fn paired(
    one: Option<MemoryImage>,
    two: Option<MemoryImage>,
) -> Option<Mirror<MemoryImage, MemoryImage>> {
    Mirror::pair(one?, two?).ok()
}

/// The same over two images, of which a mirror is made first.
fn on_two<R>(
    rt: &R,
    alloc: Global,
    images: &mut Vec<Held>,
    (one, two): (&str, &str),
    words: &Vec<String>,
    outside: Outside,
) -> Result<Option<Done>, AllocError>
where
    R: Threads + Wait + Clone + Send + Sync + Drop,
{
    let first = copied(alloc, images, one)?;
    let second = copied(alloc, images, two)?;
    let Some(mirror) = paired(first, second) else {
        return Ok(None);
    };
    let (done, mirror) = done_on(rt, alloc, words, outside, mirror);
    let (first, second) = mirror.halves();
    put_image(alloc, images, one, first)?;
    put_image(alloc, images, two, second)?;
    Ok(Some(done))
}

fn call<R>(
    rt: &R,
    alloc: Global,
    world: &mut World,
    device: &str,
    words: &str,
    out: &mut String,
) -> Result<(), AllocError>
where
    R: Threads + Wait + Clone + Send + Sync + Drop,
{
    let words = words_of(alloc, words)?;
    let outside = outside_of_world(alloc, world)?;
    let done = match device.split_once('+') {
        None => on_one(rt, alloc, &mut world.images, device, &words, outside)?,
        Some(pair) => on_two(rt, alloc, &mut world.images, pair, &words, outside)?,
    };
    let Some(done) = done else {
        return put_lost(out, device);
    };
    tell(alloc, out, &done.sink, &done.status)?;
    world.history = done.history.as_slice().to_vec(alloc)?;
    world.last = Some(done);
    Ok(())
}

/// Two images as they are.
fn both(
    alloc: Global,
    images: &[Held],
    one: &str,
    two: &str,
) -> Result<Option<(MemoryImage, MemoryImage)>, AllocError> {
    let Some(first) = copied(alloc, images, one)? else {
        return Ok(None);
    };
    let Some(second) = copied(alloc, images, two)? else {
        return Ok(None);
    };
    Ok(Some((first, second)))
}

fn compact_to(
    alloc: Global,
    world: &mut World,
    old: &str,
    fresh: &str,
    out: &mut String,
) -> Result<(), AllocError> {
    let words = words_of(alloc, "compact OLD NEW")?;
    let sink = sink_of(alloc, world)?;
    let Some((first, second)) = both(alloc, &world.images, old, fresh)? else {
        return put_lost(out, old);
    };
    let done = compact(alloc, &words, first, second, sink);
    tell(alloc, out, &done.sink, &done.status)?;
    put_image(alloc, &mut world.images, old, done.old)?;
    put_image(alloc, &mut world.images, fresh, done.fresh)
}

/// The words of an audit of a run of this class.
pub(crate) fn audit_words(alloc: Global, main: &str) -> Result<Vec<String>, AllocError> {
    let mut words = words_of(
        alloc,
        "audit --before B --after F --history H --output O DIR --main",
    )?;
    words.push(String::from_str(alloc, main)?)?;
    Ok(words)
}

fn audit_of(
    alloc: Global,
    world: &mut World,
    (before, after, main): (&str, &str, &str),
    out: &mut String,
) -> Result<(), AllocError> {
    let words = audit_words(alloc, main)?;
    let source = source_of(alloc, &mut world.source)?;
    let records = source_of(alloc, &mut world.records)?;
    let sink = sink_of(alloc, world)?;
    let Some((first, second)) = both(alloc, &world.images, before, after)? else {
        return put_lost(out, before);
    };
    let done = audit(alloc, &words, source, records, first, second, sink);
    tell(alloc, out, &done.sink, &done.status)
}

/// Does a command, and puts what it prints and how it ends.
pub(crate) fn play_command<R>(
    rt: &R,
    alloc: Global,
    world: &mut World,
    command: Command<'_>,
    out: &mut String,
) -> Result<(), AllocError>
where
    R: Threads + Wait + Clone + Send + Sync + Drop,
{
    match command {
        Command::Run { device, listing } => {
            push(
                alloc,
                &mut world.source,
                &world.texts,
                &[],
                Given::Listed(listing),
            )?;
            call(rt, alloc, world, device, RUN, out)
        }
        Command::Call { device, words } => call(rt, alloc, world, device, words, out),
        Command::Compact { old, fresh } => compact_to(alloc, world, old, fresh, out),
        Command::Audit {
            before,
            after,
            main,
        } => audit_of(alloc, world, (before, after, main), out),
    }
}
