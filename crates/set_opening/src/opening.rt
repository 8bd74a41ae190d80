// An image is opened for a class set: what is in it is found, and then what it lacks is appended.
ghost use Rattle.std.specs.Prelude.{◌≡◌, IfOk, IfErr};
ghost use Rattle.ap_base.specs.Causes.{IsCauseOf, next_count};
ghost use Rattle.line_image.specs.Told.{Told};
ghost use Rattle.class_set.specs.Linked.{Linked};
ghost use Rattle.set_opening.specs.Opened.{IsFoundFor, IsOpenedFor};
ghost use Rattle.set_opening.specs.Unopened.{IsUnappended, IsUnopened};

use crate::appending::append_all;
use crate::preparing::prepare;
use crate::recovering::find;
use crate::unopened::Unopened;
use ap_base::ListOf;
use class_set::ClassSet;
use directories::Directory;
use first_spaces::a_run_can_begin_over_recovered_images;
use image_recovery::Recovered;
use line_image::Image;
use line_memory::{LineMemory, every_line_is_resident};
use shared_graph::SharedGraph;
use std::alloc::Global;

/// An image that was found, and made ready for a class set. What its directory lacks of the set's
/// entries is planned, and nothing of it is appended yet.
#[derive(Drop)]
pub struct FoundImage<I: Image> {
    /// The memory of its lines.
    pub memory: LineMemory<I>,
    /// Its directory, with what is planned.
    pub directory: Directory,
    /// The graph for which it stands, and a null root for each root that is planned.
    pub graph: SharedGraph,
    /// The first line of each node of the graph.
    pub lines: ListOf<u32>,
    /// The first line behind all nodes.
    pub free: u32,
}

/// An image that was opened.
#[derive(Drop)]
pub struct OpenedImage<I: Image> {
    /// The memory of its lines.
    pub memory: LineMemory<I>,
    /// Its directory.
    pub directory: Directory,
    /// The graph for which it stands.
    pub graph: SharedGraph,
    /// The first line of each node of the graph.
    pub lines: ListOf<u32>,
    /// The first line behind all nodes.
    pub free: u32,
}

/// Attaches an image, fences what was written to it before, recovers it, and plans what the class set has
/// and its directory lacks: a blank image is formatted, and nothing is appended. The array types of its
/// directory get numbers in the set. Or tells why not, and gives the image back.
pub fn find_for<I: Image>(
    alloc: Global,
    set: &mut ClassSet,
    image: I,
) -> Result<FoundImage<I>, (Unopened, I)>
    ensures found { IfOk result (λ o. IsFoundFor (I.told image) set.old set.new
        o.memory o.directory o.lines o.graph o.free) }
    ensures spared { IfOk result (λ o. o.memory.faults ≡ I.faults image) }
    ensures unopened { IfErr result (λ e.
        IsUnopened (I.told image) (I.told e.1) set.old set.new e.0) }
    ensures cause { IfErr result (λ e. IsCauseOf Unopened.ImageFailed e.0 (I.faults image) (I.faults e.1)) }
{
    let Recovered {
        memory,
        version: _,
        mut directory,
        mut graph,
        lines,
        free,
        undone: _,
    } = match find(alloc, image) {
        Ok(recovered) => recovered,
        Err(given_back) => return Err(given_back),
    };
    match prepare(alloc, set, &mut directory, &mut graph) {
        Ok(()) => Ok(FoundImage {
            memory,
            directory,
            graph,
            lines,
            free,
        }),
        Err(why) => Err((why, memory.into_image())),
    }
}

/// Appends to an image's directory what is planned. Where the image fails, it is given back.
pub fn complete<I: Image>(found: FoundImage<I>) -> Result<OpenedImage<I>, I>
    requires found { (start : Told) × (old : Linked) × (set : Linked) × IsFoundFor start old set
        found.memory found.directory found.lines found.graph found.free }
    ensures opened { (start : Told) (old set : Linked) → IsFoundFor start old set
        found.memory found.directory found.lines found.graph found.free
        → IfOk result (λ o. IsOpenedFor start old set o.memory o.directory o.lines o.graph o.free) }
    ensures spared { IfOk result (λ o. o.memory.faults ≡ found.memory.faults) }
    ensures unappended { (start : Told) (old set : Linked) → IsFoundFor start old set
        found.memory found.directory found.lines found.graph found.free
        → IfErr result (λ image. IsUnappended start (I.told image) old set) }
    ensures failed { IfErr result (λ image. I.faults image ≡ next_count found.memory.faults) }
{
    a_run_can_begin_over_recovered_images();
    every_line_is_resident();
    let FoundImage {
        mut memory,
        mut directory,
        graph,
        lines,
        free,
    } = found;
    match append_all(&mut memory, &mut directory) {
        Ok(()) => Ok(OpenedImage {
            memory,
            directory,
            graph,
            lines,
            free,
        }),
        Err(_) => Err(memory.into_image()),
    }
}
