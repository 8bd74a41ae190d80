// Rows: a program, and the lines of its choices.
ghost use Rattle.thread_rows.specs.Playing.{IsPlaying};

use crate::choices::{Telling, line_of};
use crate::endings::Ended;
use crate::opening::{Begun, Program, fails_from, launch_on, program_of, unusable};
use crate::playing::{Counts, Playing, Went, counts_of, play_lines};
use crate::texts::{graph_text, put_acts, went_text};
use image_recovery::recover;
use line_image::MemoryImage;
use line_memory::LineMemory;
use put_bytes::{put_decimal, put_text};
use run_history::Acts;
use set_types::SetTypes;
use std::alloc::{AllocError, Global};
use std::io;

/// How many picks of a stop are looked at.
const PICKS: u64 = 8;

/// What a run came to by lines of choices: how the last event went, and how many acts and calls there were before the
/// last line.
#[derive(Drop)]
struct Played {
    went: Vec<u8>,
    acts: Acts,
    image: MemoryImage,
    calls: u64,
    before: Counts,
}

// How the last event went, or the status by which the run is over.
fn how_text(alloc: Global, how: Result<Went, Ended>) -> Result<Vec<u8>, AllocError> {
    match how {
        Ok(went) => went_text(alloc, went),
        Err(Ended::Over(line)) => Ok(line),
        Err(Ended::OutOfMemory) => Err(AllocError),
    }
}

// The events of the lines, and how the last one went.
fn went_by(
    alloc: Global,
    program: &Program,
    begun: &mut Begun,
    lines: &[&str],
    before: &mut Counts,
) -> Result<Vec<u8>, AllocError>
    requires playing { IsPlaying program.now.set begun.old.host begun.old.run.heap begun.old.run.frames.items }
{
    let set = SetTypes::of(&program.set);
    let how = play_lines(
        &mut begun.run,
        &program.set,
        &set,
        &begun.host,
        lines,
        before,
    );
    how_text(alloc, how)
}

// What is kept of a run.
fn finished(run: Playing, went: Vec<u8>, before: Counts) -> Played {
    let calls = run.heap.calls();
    let (acts, memory) = run.heap.finish();
    Played {
        went,
        acts,
        image: memory.into_image(),
        calls,
        before,
    }
}

// What the lines come to, where calls of the image fail from this one on.
fn follow_lines(
    alloc: Global,
    program: &mut Program,
    lines: &[&str],
    since: u64,
) -> io::Result<Played> {
    let mut begun = launch_on(alloc, program, fails_from(alloc, since))?;
    let mut before = counts_of(&begun.run);
    let went = went_by(alloc, program, &mut begun, lines, &mut before)?;
    Ok(finished(begun.run, went, before))
}

// The graph for which an image stands, as a text.
fn recovered(alloc: Global, image: MemoryImage) -> io::Result<Vec<u8>> {
    let Ok(memory) = LineMemory::attach(alloc, image) else {
        return Err(unusable());
    };
    match recover(alloc, memory) {
        Ok(found) => Ok(graph_text(alloc, &found.graph)?),
        Err(_) => Err(unusable()),
    }
}

// The graph that a stop leaves by a pick.
fn left_by(alloc: Global, image: &MemoryImage, pick: u64) -> io::Result<Vec<u8>> {
    let stopped = image.crash(alloc, pick, fails_from(alloc, u64::MAX))?;
    recovered(alloc, stopped)
}

// Adds a text that isn't among them.
fn add(texts: &mut Vec<Vec<u8>>, text: Vec<u8>) -> Result<(), AllocError> {
    if texts.contains(&text) {
        return Ok(());
    }
    texts.push(text)?;
    Ok(())
}

// The graphs that stops leave, each once, in the order of their texts.
fn left(alloc: Global, image: &MemoryImage) -> io::Result<Vec<Vec<u8>>> {
    let mut texts = Vec::new(alloc);
    for pick in 0..PICKS {
        add(&mut texts, left_by(alloc, image, pick)?)?;
    }
    texts.sort()?;
    Ok(texts)
}

fn put_line(out: &mut Vec<u8>, line: &[u8]) -> Result<(), AllocError> {
    put_text(out, line)?;
    put_text(out, b"\n")
}

fn put_left(out: &mut Vec<u8>, image: &MemoryImage) -> io::Result<()> {
    for text in &left(*out.allocator(), image)? {
        put_line(out, text.as_slice())?;
    }
    Ok(())
}

fn put_within(out: &mut Vec<u8>, call: u64) -> Result<(), AllocError> {
    put_text(out, b"within ")?;
    put_decimal(out, call)?;
    put_text(out, b"\n")
}

// What stops leave within a call of the image: all that follow fail too.
fn put_stop(out: &mut Vec<u8>, program: &mut Program, lines: &[&str], call: u64) -> io::Result<()> {
    let stopped = follow_lines(*out.allocator(), program, lines, call)?;
    put_left(out, &stopped.image)
}

// What stops leave within each call of the last line of the choices, and after it.
fn put_stops(
    out: &mut Vec<u8>,
    program: &mut Program,
    lines: &[&str],
    whole: &Played,
) -> io::Result<()> {
    for before in whole.before.calls..whole.calls {
        let call = before.saturating_add(1);
        put_within(out, call.saturating_sub(whole.before.calls))?;
        put_stop(out, program, lines, call)?;
    }
    put_text(out, b"after\n")?;
    put_left(out, &whole.image)
}

// What the last line of the choices comes to: its acts, how its last event went, and what stops leave, as far as that
// is asked.
fn put_played(
    out: &mut Vec<u8>,
    program: &mut Program,
    lines: &[&str],
    telling: Telling,
) -> io::Result<()> {
    let whole = follow_lines(*out.allocator(), program, lines, u64::MAX)?;
    if !matches!(telling, Telling::Nothing) {
        put_acts(out, &whole.acts, whole.before.acts)?;
    }
    put_line(out, whole.went.as_slice())?;
    if let Telling::Stops = telling {
        put_stops(out, program, lines, &whole)?;
    }
    Ok(())
}

// The next line, which may be a comment, behind those before it.
fn put_next<'a>(
    out: &mut Vec<u8>,
    program: &mut Program,
    lines: &mut Vec<&'a str>,
    line: &'a str,
) -> io::Result<()> {
    let Some((telling, choices)) = line_of(line) else {
        return Ok(());
    };
    lines.push(choices)?;
    put_line(out, line.as_bytes())?;
    put_played(out, program, lines.as_slice(), telling)
}

/// What the program of a listing comes to by these choices. A line is a comment, or has choices behind `go`, `skip`,
/// where the acts aren't told, or `stops`, where it is told too what stops leave within its calls.
pub(crate) fn row_text(alloc: Global, listing: &[u8], choices: &str) -> io::Result<Vec<u8>> {
    let mut program = program_of(alloc, listing)?;
    let mut out = Vec::new(alloc);
    let mut lines = Vec::new(alloc);
    for line in choices.lines() {
        put_next(&mut out, &mut program, &mut lines, line)?;
    }
    Ok(out)
}
