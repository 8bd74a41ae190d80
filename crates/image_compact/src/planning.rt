// What is written of a graph, and where.
ghost use Rattle.std.specs.Prelude.{◌≡◌, ◌≤◌, ◌+◌, ◌-◌, ◌^◌, ℕ, min, None, OnOk, IfOk, IfErr};
ghost use Rattle.image_layout.specs.Places.{min_lines, max_lines, first_object_line};
ghost use Rattle.dense_image.specs.Graphs.{CanBeStoodFor};
ghost use Rattle.dense_image.specs.Written.{lines_taken, wanting, no_room};
ghost use Rattle.image_compact.specs.Planning.{IsPlan, ArePlaces, IsWant};

use crate::fault::WriteFault;
use crate::shapes::{Numbered, add_roots, number_shapes};
use crate::values::slot_words;
use image_layout::{DIRECTORY_WORDS, FIRST_OBJECT_LINE, lines_of};
use run_types::{Full, Which};
use shared_graph::{SharedGraph, SharedNode};
use std::alloc::{AllocError, Global};

/// What is written of a graph: the words of the roots' slots and of the directory, and of each node the number of its shape and
/// its first line.
#[derive(Drop)]
pub(crate) struct Plan {
    pub(crate) slots: Vec<u64>,
    pub(crate) words: Vec<u64>,
    pub(crate) numbers: Vec<u32>,
    pub(crate) lines: Vec<u32>,
}

/// Plans the image of a graph, which has so many lines.
pub(crate) fn plan_image(alloc: Global, graph: &SharedGraph, size: u64) -> Result<Plan, WriteFault>
    requires graph { CanBeStoodFor graph.now }
    requires enough { min_lines ≤ size }
    requires most { size ≤ max_lines }
    ensures plan { IfOk result (IsPlan size graph.now) }
    ensures room { IfOk result (λ plan. no_room size graph.now ≡ None) }
    ensures want { IfErr result (IsWant (no_room size graph.now)) }
{
    let nodes = graph.nodes();
    let roots = graph.roots();
    let mut numbered = number_shapes(alloc, nodes)?;
    add_roots(&mut numbered.words, roots)?;
    check_room(size, numbered.words.need, count_lines(nodes))?;
    let lines = place_nodes(alloc, nodes)?;
    let slots = slot_words(alloc, roots, lines.as_slice())?;
    let Numbered { numbers, words } = numbered;
    Ok(Plan {
        slots,
        words: words.into_words(),
        numbers,
        lines,
    })
}

/// Whether an image of so many lines has room for so many words of the directory and lines of objects; or the first want. Each
/// number is told up to the greatest of 64 bits.
fn check_room(size: u64, words: u64, lines: u64) -> Result<(), WriteFault>
    requires { min_lines ≤ size }
    ensures fits { (all taken : ℕ) → words ≡ min all (2 ^ 64 - 1) → lines ≡ min taken (2 ^ 64 - 1)
        → OnOk result (wanting size all taken ≡ None) }
    ensures want { (all taken : ℕ) → words ≡ min all (2 ^ 64 - 1) → lines ≡ min taken (2 ^ 64 - 1)
        → IfErr result (IsWant (wanting size all taken)) }
{
    let room = u64::from(DIRECTORY_WORDS);
    if room < words {
        return Err(WriteFault::Full(Full {
            which: Which::DirectoryWords,
            need: words,
            left: room,
        }));
    }
    let left = size - u64::from(FIRST_OBJECT_LINE);
    if left < lines {
        return Err(WriteFault::Full(Full {
            which: Which::ImageLines,
            need: lines,
            left,
        }));
    }
    Ok(())
}

/// How many lines the objects of a graph take, up to the greatest number of 64 bits.
pub fn lines_taken(graph: &SharedGraph) -> u64
    ensures { result ≡ min (lines_taken graph.now.nodes) (2 ^ 64 - 1) }
{
    count_lines(graph.nodes())
}

/// How many lines nodes take, up to the greatest number of 64 bits.
fn count_lines(nodes: &[SharedNode]) -> u64
    ensures { result ≡ min (lines_taken nodes.now) (2 ^ 64 - 1) }
{
    let mut count: u64 = 0;
    for node in nodes {
        count = count.saturating_add(node.values().len() as u64 / 8 + 1);
    }
    count
}

/// The first lines of nodes, one behind another.
fn place_nodes(alloc: Global, nodes: &[SharedNode]) -> Result<Vec<u32>, AllocError>
    requires { first_object_line + lines_taken nodes.now ≤ max_lines }
    ensures { IfOk result (λ lines. ArePlaces nodes.now lines.items) }
{
    let mut lines = Vec::with_capacity(alloc, nodes.len())?;
    let mut line = FIRST_OBJECT_LINE;
    for node in nodes {
        lines.push(line)?;
        line += lines_of(node.values().len() as u32);
    }
    Ok(lines)
}
