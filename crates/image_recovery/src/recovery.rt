// An image is recovered.
ghost use Rattle.std.specs.Prelude.{◌≡◌, IfOk, IfErr};
ghost use Rattle.line_memory.specs.Memory.{shown};
ghost use Rattle.word_changes.specs.Changes.{AllKnown, CallsAtMost};
ghost use Rattle.image_recovery.specs.Recoveries.{FailsToRecover, Recovers, most_recovery_calls};

use crate::formatting::recover_blank;
use crate::recovering::{FoundImage, recover_used};
use crate::superblock::read_super;
use ap_base::ListOf;
use directories::Directory;
use image_layout::Super;
use image_walk::RecoverFault;
use line_image::Image;
use line_memory::LineMemory;
use shared_graph::SharedGraph;
use std::alloc::Global;

/// An image that was recovered.
#[derive(Drop)]
pub struct Recovered<I: Image> {
    /// The memory of its lines.
    pub memory: LineMemory<I>,
    /// The version of its layout.
    pub version: u32,
    /// Its directory.
    pub directory: Directory,
    /// The graph for which it stands. Its nodes share their shapes.
    pub graph: SharedGraph,
    /// The first line of each node of the graph.
    pub lines: ListOf<u32>,
    /// The first line behind all nodes.
    pub free: u32,
    /// How many logs had entries, that were put back.
    pub undone: u32,
}

/// Recovers an image. A blank one of a size that images have is formatted. In any other the checks of the superblock, the
/// directory and the logs are made, the entries of each log are put back, the last entry first, logs 0 to 63 in order, and made
/// durable; then what is found from the root slots is checked, breadth first; then the logs are emptied. What is said of stops,
/// and of what is durable, holds where nothing was stored to it since it was attached. Whatever it answers, the image is called
/// 65,602 times at the most.
///
/// # Errors
///
/// `Bad` exactly where a check fails, of the size among them: the first one; then words were put back alone, and none where it
/// is of the size, the superblock, the directory or the logs. `ImageFailed` exactly where the image failed, once.
pub fn recover<I: Image>(
    alloc: Global,
    mut memory: LineMemory<I>,
) -> Result<Recovered<I>, (RecoverFault, LineMemory<I>)>
    ensures recovers { IfOk result (λ r. Recovers memory r.memory r.directory r.graph r.lines r.free r.undone) }
    ensures version { AllKnown memory → IfOk result (λ r. r.version ≡ shown r.memory 0 1) }
    ensures fails { IfErr result (λ e. FailsToRecover memory e.1 e.0) }
    ensures calls { IfOk result (λ r. CallsAtMost memory r.memory most_recovery_calls)
        × IfErr result (λ e. CallsAtMost memory e.1 most_recovery_calls) }
{
    match recover_image(alloc, &mut memory) {
        Ok(found) => Ok(Recovered {
            memory,
            version: found.version,
            directory: found.directory,
            graph: found.graph,
            lines: found.lines,
            free: found.free,
            undone: found.undone,
        }),
        Err(fault) => Err((fault, memory)),
    }
}

/// Recovers an image that stays in its memory.
fn recover_image<I: Image>(
    alloc: Global,
    memory: &mut LineMemory<I>,
) -> Result<FoundImage, RecoverFault>
    ensures recovers { IfOk result (λ found. Recovers memory.old memory.new
        found.directory found.graph found.lines found.free found.undone) }
    ensures version { AllKnown memory.old → IfOk result (λ found. found.version ≡ shown memory.new 0 1) }
    ensures fails { IfErr result (λ fault. FailsToRecover memory.old memory.new fault) }
    ensures calls { CallsAtMost memory.old memory.new most_recovery_calls }
{
    match read_super(memory)? {
        Super::Blank => recover_blank(alloc, memory),
        Super::Used { version, directory } => recover_used(alloc, memory, version, directory),
    }
}
