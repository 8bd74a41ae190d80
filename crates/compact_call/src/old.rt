// The graph of the old image.
ghost use Rattle.std.specs.Prelude.{◌≡◌, IfOk, IfErr};
ghost use Rattle.ap_base.specs.Causes.{IsCauseOf};
ghost use Rattle.dense_image.specs.Graphs.{CanBeStoodFor};
ghost use Rattle.image_opening.specs.Attached.{IsSettled};
ghost use Rattle.image_opening.specs.Stops.{KeepsItsGraph};
ghost use Rattle.compact_call.specs.Outcomes.{StoodFor, IsOldFault};

use crate::fault::{CompactFault, of_opening};
use dense_image::standing_graphs_can_be_written;
use image_opening::{give_back, open_image};
use line_image::Image;
use shared_graph::SharedGraph;
use std::alloc::Global;

/// Opens the old image, which is put back and emptied, and gives it back with the graph for which it stands. Its lines are let go.
pub(crate) fn read_graph<I: Image>(
    alloc: Global,
    image: I,
) -> Result<(SharedGraph, I), (CompactFault, I)>
    ensures can { IfOk result (λ r. CanBeStoodFor r.0) }
    ensures stood { IfOk result (λ r. StoodFor (I.told image) r.0) }
    ensures kept { IfOk result (λ r. IsSettled (I.told image) → KeepsItsGraph (I.told image) (I.told r.1)) }
    ensures size { IfOk result (λ r. (I.told r.1).size ≡ (I.told image).size) }
    ensures spared { IfOk result (λ r. I.faults r.1 ≡ I.faults image) }
    ensures fault { IfErr result (λ e. IsOldFault (I.told image) e.0) }
    ensures kept_unopened { IfErr result (λ e. IsSettled (I.told image) → KeepsItsGraph (I.told image) (I.told e.1)) }
    ensures size_unopened { IfErr result (λ e. (I.told e.1).size ≡ (I.told image).size) }
    ensures cause { IfErr result (λ e. IsCauseOf CompactFault.ImageFailed e.0 (I.faults image) (I.faults e.1)) }
{
    standing_graphs_can_be_written();
    match open_image(alloc, image) {
        Ok(found) => {
            let (graph, image) = give_back(found);
            Ok((graph, image))
        }
        Err((fault, image)) => Err((of_opening(fault), image)),
    }
}
