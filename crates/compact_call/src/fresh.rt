// A graph is written to a new image.
ghost use Rattle.std.specs.Prelude.{◌≡◌, Err, IfOk, IfErr, OnOk};
ghost use Rattle.ap_base.specs.Causes.{HasCauseOf};
ghost use Rattle.image_opening.specs.Unopened.{IsOfWrongSize};
ghost use Rattle.dense_image.specs.Graphs.{CanBeStoodFor};
ghost use Rattle.compact_call.specs.Fresh.{KeepsFresh, IsWrittenTo, IsNewFault, StaysIfRefused};
ghost use Rattle.compact_call.specs.Outcomes.{written_line};

use crate::fault::{CompactFault, of_attach, of_write};
use crate::text::line_of;
use image_compact::write_image;
use line_image::Image;
use line_memory::LineMemory;
use shared_graph::SharedGraph;
use statuses::NewReason;
use std::alloc::Global;

/// What came of a new image, which is given back: the line to be put, once the graph is written.
#[derive(Drop)]
pub(crate) struct Fresh<J: Image> {
    pub(crate) outcome: Result<Vec<u8>, CompactFault>,
    pub(crate) image: J,
}

/// Writes a graph to a new image, which is attached first. The line that tells of it is made before anything is written.
pub(crate) fn write_fresh<J: Image>(alloc: Global, graph: &SharedGraph, image: J) -> Fresh<J>
    requires { CanBeStoodFor graph.now }
    ensures keeps { KeepsFresh graph.now (J.told image) (J.told result.image) }
    ensures sized { IsOfWrongSize (J.told image) → result.outcome ≡ Err (CompactFault.NewImage NewReason.Size) }
    ensures written { OnOk result.outcome (IsWrittenTo graph.now (J.told image) (J.told result.image)) }
    ensures line { IfOk result.outcome (λ line. line.items ≡ written_line graph.now) }
    ensures fault { IfErr result.outcome (IsNewFault graph.now (J.told image)) }
    ensures refused { IfErr result.outcome (StaysIfRefused (J.told image) (J.told result.image)) }
    ensures cause { HasCauseOf CompactFault.ImageFailed (J.faults image) (J.faults result.image) result.outcome }
{
    let memory = match LineMemory::attach(alloc, image) {
        Ok(memory) => memory,
        Err((fault, image)) => {
            return Fresh {
                outcome: Err(of_attach(fault)),
                image,
            };
        }
    };
    let line = match line_of(alloc, graph) {
        Ok(line) => line,
        Err(_) => {
            return Fresh {
                outcome: Err(CompactFault::OutOfMemory),
                image: memory.into_image(),
            };
        }
    };
    match write_image(alloc, graph, memory) {
        Ok(memory) => Fresh {
            outcome: Ok(line),
            image: memory.into_image(),
        },
        Err((fault, memory)) => Fresh {
            outcome: Err(of_write(fault)),
            image: memory.into_image(),
        },
    }
}
