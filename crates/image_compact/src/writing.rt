// A graph is written to a blank image.
ghost use Rattle.std.specs.Prelude.{◌≡◌, ◌<◌, ◌≤◌, ◌↔◌, length, IsTrue, OnOk, IfOk, IfErr};
ghost use Rattle.ap_base.specs.Causes.{HasCause};
ghost use Rattle.line_memory.specs.Memory.{shown};
ghost use Rattle.image_layout.specs.Places.{min_lines, max_lines, directory_words, logs, log_head_line};
ghost use Rattle.word_changes.specs.Changes.{Tells, AllKnown, Nothing, ChangesTo, GoesOn, WritesAll, AllFixed};
ghost use Rattle.dense_image.specs.Graphs.{CanBeStoodFor};
ghost use Rattle.image_compact.specs.Planning.{IsPlan};
ghost use Rattle.image_compact.specs.Writing.{OfSlots, OfDirectory, OfHeads, OfFront, OfSuperblock, OfBody, OfImage};
ghost use Rattle.image_compact.specs.Writing.{lines_for};
ghost use Rattle.image_compact.specs.Outcomes.{Writes, FailsToWrite, StopsKeepBlankOrWhole};

use crate::fault::WriteFault;
use crate::mark::write_mark;
use crate::objects::write_objects;
use crate::planning::{Plan, plan_image};
use crate::words::write_words;
use ap_base::{Spot, ThreadNo};
use image_layout::{FIRST_DIRECTORY_LINE, FIRST_SLOT_LINE, LOGS, ROOT_SLOTS, VERSION, log_head};
use line_image::{Image, ImageFailed};
use line_memory::LineMemory;
use shared_graph::SharedGraph;
use std::alloc::Global;
use word_changes::{fetch_line, make_fence, put_word, write_line};

/// Writes a graph to a blank image: the root slots, the shapes of its nodes in the order of the first node of each and then the
/// roots, empty logs, the nodes' objects one behind another from the first object line on, and words 1 to 3 of the superblock. All
/// of this is durable before the magic word is stored and fenced, so that a stop leaves a blank image or the whole graph. What is
/// said of stops holds where the image tells what was done to it, and where each would have left a blank image before.
///
/// # Errors
///
/// `NotBlank` where word 0 of the image isn't 0. `Full` where the directory has too few words, or else the image too few lines for
/// all objects: as many are needed as are told. These, and want of memory, leave the image as it was. `ImageFailed` exactly where
/// the image failed, once.
pub fn write_image<J: Image>(
    alloc: Global,
    graph: &SharedGraph,
    mut into: LineMemory<J>,
) -> Result<LineMemory<J>, (WriteFault, LineMemory<J>)>
    requires graph { CanBeStoodFor graph.now }
    requires enough { min_lines ≤ into.size }
    requires most { into.size ≤ max_lines }
    ensures writes { IfOk result (Writes graph.now into) }
    ensures fails { IfErr result (λ e. FailsToWrite graph.now e.0 into e.1) }
{
    match write_into(alloc, graph, &mut into) {
        Ok(()) => Ok(into),
        Err(fault) => Err((fault, into)),
    }
}

/// Writes a graph to a blank image that stays in its memory.
fn write_into<J: Image>(
    alloc: Global,
    graph: &SharedGraph,
    memory: &mut LineMemory<J>,
) -> Result<(), WriteFault>
    requires graph { CanBeStoodFor graph.now }
    requires enough { min_lines ≤ memory.old.size }
    requires most { memory.old.size ≤ max_lines }
    ensures writes { OnOk result (Writes graph.now memory.old memory.new) }
    ensures fails { IfErr result (λ fault. FailsToWrite graph.now fault memory.old memory.new) }
{
    if !is_blank(memory)? {
        return Err(WriteFault::NotBlank);
    }
    let plan = plan_image(alloc, graph, memory.lines())?;
    write_planned(memory, graph, &plan)?;
    Ok(())
}

/// Whether the image is blank.
fn is_blank<I: Image>(memory: &mut LineMemory<I>) -> Result<bool, ImageFailed>
    requires { min_lines ≤ memory.old.size }
    ensures blank { AllKnown memory.old → IfOk result (λ blank. IsTrue blank ↔ shown memory.old 0 0 ≡ 0) }
    ensures changes { ChangesTo Nothing memory.old memory.new }
    ensures goes_on { GoesOn memory.old memory.new }
    ensures cause { HasCause memory.old.faults memory.new.faults result }
{
    fetch_line(memory, 0)?;
    Ok(memory.load(Spot { line: 0, word: 0 }) == 0)
}

/// Writes what is planned, and the magic word last.
fn write_planned<I: Image>(
    memory: &mut LineMemory<I>,
    graph: &SharedGraph,
    plan: &Plan,
) -> Result<(), ImageFailed>
    requires graph { CanBeStoodFor graph.now }
    requires plan { IsPlan memory.old.size graph.now plan.now }
    requires enough { min_lines ≤ memory.old.size }
    requires most { memory.old.size ≤ max_lines }
    ensures wrote { OnOk result (WritesAll (OfImage memory.old.size graph.now) memory.old memory.new) }
    ensures fixed { Tells memory.old → OnOk result (AllFixed (OfImage memory.old.size graph.now) memory.new) }
    ensures stops { StopsKeepBlankOrWhole graph.now memory.old memory.new }
    ensures changes { ChangesTo (OfImage memory.old.size graph.now) memory.old memory.new }
    ensures goes_on { GoesOn memory.old memory.new }
    ensures cause { HasCause memory.old.faults memory.new.faults result }
{
    write_body(memory, graph, plan)?;
    write_mark(memory)
}

/// Writes all that is planned but the magic word, and makes it durable.
fn write_body<I: Image>(
    memory: &mut LineMemory<I>,
    graph: &SharedGraph,
    plan: &Plan,
) -> Result<(), ImageFailed>
    requires graph { CanBeStoodFor graph.now }
    requires plan { IsPlan memory.old.size graph.now plan.now }
    requires enough { min_lines ≤ memory.old.size }
    requires most { memory.old.size ≤ max_lines }
    ensures wrote { OnOk result (WritesAll (OfBody memory.old.size graph.now) memory.old memory.new) }
    ensures fixed { Tells memory.old → OnOk result (AllFixed (OfBody memory.old.size graph.now) memory.new) }
    ensures changes { ChangesTo (OfBody memory.old.size graph.now) memory.old memory.new }
    ensures goes_on { GoesOn memory.old memory.new }
    ensures cause { HasCause memory.old.faults memory.new.faults result }
{
    write_front(memory, graph, plan)?;
    write_objects(memory, graph, plan)?;
    let words = plan.words.as_slice();
    write_superblock(memory, words.len() as u64)?;
    make_fence(memory)
}

/// Writes the root slots, the directory, and empty logs.
fn write_front<I: Image>(
    memory: &mut LineMemory<I>,
    graph: &SharedGraph,
    plan: &Plan,
) -> Result<(), ImageFailed>
    requires plan { IsPlan memory.old.size graph.now plan.now }
    requires enough { min_lines ≤ memory.old.size }
    requires most { memory.old.size ≤ max_lines }
    ensures wrote { OnOk result (WritesAll (OfFront graph.now) memory.old memory.new) }
    ensures changes { ChangesTo (OfFront graph.now) memory.old memory.new }
    ensures goes_on { GoesOn memory.old memory.new }
    ensures cause { HasCause memory.old.faults memory.new.faults result }
{
    write_slots(memory, graph, plan)?;
    write_directory(memory, graph, plan)?;
    clear_heads(memory)
}

/// Writes the root slots.
fn write_slots<I: Image>(
    memory: &mut LineMemory<I>,
    graph: &SharedGraph,
    plan: &Plan,
) -> Result<(), ImageFailed>
    requires plan { IsPlan memory.old.size graph.now plan.now }
    requires enough { min_lines ≤ memory.old.size }
    requires most { memory.old.size ≤ max_lines }
    ensures wrote { OnOk result (WritesAll (OfSlots graph.now) memory.old memory.new) }
    ensures changes { ChangesTo (OfSlots graph.now) memory.old memory.new }
    ensures goes_on { GoesOn memory.old memory.new }
    ensures cause { HasCause memory.old.faults memory.new.faults result }
{
    let words = plan.slots.as_slice();
    write_words(memory, FIRST_SLOT_LINE, ROOT_SLOTS / 8, words)
}

/// Writes the directory.
fn write_directory<I: Image>(
    memory: &mut LineMemory<I>,
    graph: &SharedGraph,
    plan: &Plan,
) -> Result<(), ImageFailed>
    requires plan { IsPlan memory.old.size graph.now plan.now }
    requires enough { min_lines ≤ memory.old.size }
    requires most { memory.old.size ≤ max_lines }
    ensures wrote { OnOk result (WritesAll (OfDirectory graph.now) memory.old memory.new) }
    ensures changes { ChangesTo (OfDirectory graph.now) memory.old memory.new }
    ensures goes_on { GoesOn memory.old memory.new }
    ensures cause { HasCause memory.old.faults memory.new.faults result }
{
    let words = plan.words.as_slice();
    let lines = lines_for(words);
    write_words(memory, FIRST_DIRECTORY_LINE, lines, words)
}

/// How many lines the words of a directory take.
fn lines_for(words: &[u64]) -> u32
    requires { length words.now ≤ directory_words }
    ensures { result ≡ lines_for (length words.now) }
{
    (words.len() as u32 + 7) / 8
}

/// Clears the head line of each log.
fn clear_heads<I: Image>(memory: &mut LineMemory<I>) -> Result<(), ImageFailed>
    requires enough { min_lines ≤ memory.old.size }
    requires most { memory.old.size ≤ max_lines }
    ensures wrote { OnOk result (WritesAll (OfHeads logs) memory.old memory.new) }
    ensures changes { ChangesTo (OfHeads logs) memory.old memory.new }
    ensures goes_on { GoesOn memory.old memory.new }
    ensures cause { HasCause memory.old.faults memory.new.faults result }
{
    for thread in 0..LOGS as u8 {
        let line = head_line(thread);
        write_words(memory, line, 1, &[])?;
    }
    Ok(())
}

/// The line that counts the entries of a log.
fn head_line(thread: u8) -> u32
    requires { thread < logs }
    ensures { result ≡ log_head_line thread }
{
    log_head(ThreadNo::new(thread).unwrap()).line
}

/// Stores words 1 to 3 of the superblock of a directory with so many words in use, and writes their line.
fn write_superblock<I: Image>(memory: &mut LineMemory<I>, used: u64) -> Result<(), ImageFailed>
    requires { min_lines ≤ memory.old.size }
    ensures wrote { OnOk result (WritesAll (OfSuperblock memory.old.size used) memory.old memory.new) }
    ensures changes { ChangesTo (OfSuperblock memory.old.size used) memory.old memory.new }
    ensures goes_on { GoesOn memory.old memory.new }
    ensures cause { HasCause memory.old.faults memory.new.faults result }
{
    let lines = memory.lines();
    fetch_line(memory, 0)?;
    put_word(memory, Spot { line: 0, word: 1 }, VERSION);
    put_word(memory, Spot { line: 0, word: 2 }, lines);
    put_word(memory, Spot { line: 0, word: 3 }, used);
    write_line(memory, 0)
}
