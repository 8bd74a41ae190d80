// An image is written anew, densely, to another one.
ghost use Rattle.std.specs.Prelude.{◌≡◌, ◌≢◌, Err, IfErr};
ghost use Rattle.ap_base.specs.Causes.{next_count};
ghost use Rattle.image_opening.specs.Unopened.{NoneFailed, OneFailed};
ghost use Rattle.image_opening.specs.Attached.{IsSettled};
ghost use Rattle.image_opening.specs.Stops.{KeepsItsGraph};
ghost use Rattle.graph_model.specs.declared.types.Graph.{Graph as WrittenGraph};
ghost use Rattle.compact_call.specs.Outcomes.{CameOf, Puts, written_line};

use crate::fault::CompactFault;
use crate::fresh::{Fresh, write_fresh};
use crate::old::read_graph;
use ap_base::Sink;
use line_image::Image;
use put_bytes::put_all;
use std::alloc::Global;

/// What came of it, and what was given.
#[derive(Drop)]
pub struct Compacted<I: Image, J: Image, S: Sink> {
    pub outcome: Result<(), CompactFault>,
    pub old: I,
    pub fresh: J,
    pub sink: S,
}

/// Writes the graph of the old image to the new one, densely, and puts the line `nodes N lines M` into the sink: so many nodes were
/// written, and their objects take so many lines. The old image is opened, and its lines are let go before those of the new one are
/// read. At any stop the old image stands for the graph for which it stood, and the new one, if it was blank, is blank or stands
/// for that graph; if it wasn't, it stays as it was.
///
/// # Errors
///
/// In this order: `BadImage` exactly where a check of the old image fails; `NewImage` exactly where the new one's size isn't in range,
/// or it isn't blank; `Full` exactly where it has too few lines. `ImageFailed` exactly where one of the images failed, once, and `SinkFailed`
/// exactly where the sink did, once, and the new image was written. `NewImage`, `Full` and want of memory leave the new
/// image as it was: the line is made before anything is written to it.
pub fn compact_images<I: Image, J: Image, S: Sink>(
    alloc: Global,
    old: I,
    fresh: J,
    mut sink: S,
) -> Compacted<I, J, S>
    ensures old { IsSettled (I.told old) → KeepsItsGraph (I.told old) (I.told result.old) }
    ensures came { CameOf (I.told old) (J.told fresh) (J.told result.fresh) (S.taken sink) (S.taken result.sink) result.outcome }
    ensures old_size { (I.told result.old).size ≡ (I.told old).size }
    ensures new_size { (J.told result.fresh).size ≡ (J.told fresh).size }
    ensures image_fault { result.outcome ≡ Err CompactFault.ImageFailed
        → OneFailed (I.faults old) (I.faults result.old) (J.faults fresh) (J.faults result.fresh) }
    ensures image_spared { result.outcome ≢ Err CompactFault.ImageFailed
        → NoneFailed (I.faults old) (I.faults result.old) (J.faults fresh) (J.faults result.fresh) }
    ensures sink_fault { result.outcome ≡ Err CompactFault.SinkFailed → S.faults result.sink ≡ next_count (S.faults sink) }
    ensures sink_spared { result.outcome ≢ Err CompactFault.SinkFailed → S.faults result.sink ≡ S.faults sink }
{
    let (graph, old) = match read_graph(alloc, old) {
        Ok(read) => read,
        Err((fault, old)) => {
            return Compacted {
                outcome: Err(fault),
                old,
                fresh,
                sink,
            };
        }
    };
    let Fresh { outcome, image } = write_fresh(alloc, &graph, fresh);
    let line = match outcome {
        Ok(line) => line,
        Err(fault) => {
            return Compacted {
                outcome: Err(fault),
                old,
                fresh: image,
                sink,
            };
        }
    };
    let outcome = put_line(&mut sink, line.as_slice());
    Compacted {
        outcome,
        old,
        fresh: image,
        sink,
    }
}

/// Puts the line about the graph that was written.
fn put_line<S: Sink>(sink: &mut S, line: &[u8]) -> Result<(), CompactFault>
    ensures puts { (graph : WrittenGraph) → line.now ≡ written_line graph
        → Puts graph (S.taken sink.old) (S.taken sink.new) result }
    ensures fault { IfErr result (λ fault. fault ≡ CompactFault.SinkFailed) }
    ensures sink_fault { result ≡ Err CompactFault.SinkFailed → S.faults sink.new ≡ next_count (S.faults sink.old) }
    ensures sink_spared { result ≢ Err CompactFault.SinkFailed → S.faults sink.new ≡ S.faults sink.old }
{
    match put_all(sink, line) {
        Ok(()) => Ok(()),
        Err(_) => Err(CompactFault::SinkFailed),
    }
}
