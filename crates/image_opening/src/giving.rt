// The image of a memory that was opened is given back.
ghost use Rattle.std.specs.Prelude.{◌≡◌};
ghost use Rattle.line_image.specs.Told.{Told};
ghost use Rattle.line_memory.specs.Memory.{Memory};
ghost use Rattle.image_opening.specs.Opened.{IsOpenImage};
ghost use Rattle.image_opening.specs.Stops.{IsGivenBack};

use image_recovery::Recovered;
use line_image::Image;
use shared_graph::SharedGraph;

/// Gives the image back, and the graph for which it stands at any stop from now on. Directory, lines and memory are let go.
pub fn give_back<I: Image>(found: Recovered<I>) -> (SharedGraph, I)
    ensures graph { result.0 ≡ found.graph }
    ensures told { I.told result.1 ≡ found.memory.image }
    ensures faults { I.faults result.1 ≡ found.memory.faults }
    ensures given { (start : Told) (before : Memory) → IsOpenImage start before
        found.memory found.version found.directory found.graph found.lines found.free found.undone
        → IsGivenBack start (I.told result.1) found.graph }
{
    let Recovered {
        memory,
        version: _,
        directory: _,
        graph,
        lines: _,
        free: _,
        undone: _,
    } = found;
    (graph, memory.into_image())
}
