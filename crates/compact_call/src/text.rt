// What is printed.
ghost use Rattle.std.specs.Prelude.{◌≡◌, ◌<◌, ◌-◌, ◌^◌, IfOk};
ghost use Rattle.dense_image.specs.Written.{lines_taken};
ghost use Rattle.compact_call.specs.Outcomes.{written_line};

use image_compact::lines_taken;
use put_bytes::{put_decimal, put_text};
use shared_graph::SharedGraph;
use std::alloc::{AllocError, Global};

/// The line that tells how many nodes were written, and how many lines they take, which are below the greatest number of 64 bits.
pub(crate) fn line_of(alloc: Global, graph: &SharedGraph) -> Result<Vec<u8>, AllocError>
    ensures line { lines_taken graph.now.nodes < 2 ^ 64 - 1 → IfOk result (λ text. text.items ≡ written_line graph.now) }
{
    let mut text = Vec::new(alloc);
    put_text(&mut text, b"nodes ")?;
    put_decimal(&mut text, graph.nodes().len() as u64)?;
    put_text(&mut text, b" lines ")?;
    put_decimal(&mut text, lines_taken(graph))?;
    text.push(b'\n')?;
    Ok(text)
}
