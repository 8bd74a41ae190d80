// A blank image is formatted.
ghost use Rattle.std.specs.Prelude.{◌≡◌, ◌≤◌, [], OnOk, IfOk, IfErr};
ghost use Rattle.ap_base.specs.Causes.{HasCauseOf};
ghost use Rattle.line_memory.specs.Memory.{shown};
ghost use Rattle.image_layout.specs.Places.{min_lines, max_lines, first_object_line, version};
ghost use Rattle.image_meaning.specs.Meaning.{empty_graph};
ghost use Rattle.word_changes.specs.Changes.{Tells, AllKnown, ChangesTo, IsFixed, StopsLeave, CallsAtMost, GoesOn};
ghost use Rattle.directories.specs.Formatting.{IsFormatted, IsBlankOrFormatted, OfLayout, most_formatting_calls};
ghost use Rattle.image_recovery.specs.Putting.{AllDurable};
ghost use Rattle.image_recovery.specs.Recovered.{FindsNothing, IsBadFault};

use crate::front::read_entries;
use crate::recovering::FoundImage;
use ap_base::ListOf;
use directories::{Directory, format_image};
use image_layout::{FIRST_OBJECT_LINE, VERSION};
use image_walk::RecoverFault;
use line_image::Image;
use line_memory::LineMemory;
use shared_graph::SharedGraph;
use std::alloc::Global;

/// Formats a blank image: nothing is found in it.
pub(crate) fn recover_blank<I: Image>(
    alloc: Global,
    memory: &mut LineMemory<I>,
) -> Result<FoundImage, RecoverFault>
    requires enough { min_lines ≤ memory.old.size }
    requires most { memory.old.size ≤ max_lines }
    ensures finds { AllKnown memory.old
        → IfOk result (λ found. FindsNothing found.directory found.graph found.lines found.free found.undone) }
    ensures version { IfOk result (λ found. found.version ≡ version) }
    ensures formatted { AllKnown memory.old → OnOk result (IsFormatted memory.old.size (shown memory.new)) }
    ensures durable { Tells memory.old → AllDurable memory.old → OnOk result (AllDurable memory.new) }
    ensures never_bad { AllKnown memory.old → IfErr result (λ fault. IsBadFault fault → ⊥) }
    ensures changes { ChangesTo (OfLayout memory.old.size) memory.old memory.new }
    ensures stops { Tells memory.old → IsFixed memory.old 0 0 0
        → StopsLeave memory.old memory.new (IsBlankOrFormatted memory.old.size) }
    ensures goes_on { GoesOn memory.old memory.new }
    ensures calls { CallsAtMost memory.old memory.new most_formatting_calls }
    ensures cause { HasCauseOf RecoverFault.ImageFailed memory.old.faults memory.new.faults result }
{
    format_image(memory)?;
    let directory = read_entries(alloc, memory, 0)?;
    Ok(nothing_found(alloc, directory))
}

/// A directory of an image that has just been formatted, and nothing else.
fn nothing_found(alloc: Global, directory: Directory) -> FoundImage
    ensures version { result.version ≡ version }
    ensures directory { result.directory ≡ directory }
    ensures graph { result.graph ≡ empty_graph }
    ensures lines { result.lines ≡ [] }
    ensures free { result.free ≡ first_object_line }
    ensures undone { result.undone ≡ 0 }
{
    FoundImage {
        version: VERSION as u32,
        directory,
        graph: SharedGraph::new(ListOf::new(alloc), ListOf::new(alloc)),
        lines: ListOf::from_vec(Vec::new(alloc)),
        free: FIRST_OBJECT_LINE,
        undone: 0,
    }
}
