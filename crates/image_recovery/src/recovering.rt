// An image that isn't blank is recovered.
ghost use Rattle.std.specs.Prelude.{◌≡◌, ◌≤◌, None, OnOk, IfOk, IfErr};
ghost use Rattle.ap_base.specs.Causes.{HasCauseOf};
ghost use Rattle.line_memory.specs.Memory.{Memory, shown};
ghost use Rattle.image_layout.specs.Places.{min_lines, max_lines, directory_words};
ghost use Rattle.image_meaning.specs.Logs.{logs_fault};
ghost use Rattle.image_meaning.specs.Meaning.{meaning};
ghost use Rattle.word_changes.specs.Changes.{Nothing, Tells, AllKnown, ChangesTo, StopsLeave, CallsAtMost, GoesOn};
ghost use Rattle.image_walk.specs.Walking.{Looks, IsFaultOf};
ghost use Rattle.image_recovery.specs.Putting.{IsPutBack, IsRestored, AllWritten, AllDurable, IsRecovered, IsRecoveringIn};
ghost use Rattle.image_recovery.specs.Recovered.{IsUsed, FailsFirst, FindsImage, IsBadFault};
ghost use Rattle.image_recovery.specs.Recoveries.{most_recovery_calls};

use crate::clearing::empty_logs;
use crate::front::read_front;
use crate::putting::put_back_logs;
use ap_base::ListOf;
use directories::Directory;
use image_walk::{RecoverFault, find_graph};
use line_image::Image;
use line_memory::LineMemory;
use shared_graph::SharedGraph;
use std::alloc::Global;

/// What is found in an image that is recovered.
#[derive(Drop)]
pub(crate) struct FoundImage {
    /// The version of the layout.
    pub(crate) version: u32,
    pub(crate) directory: Directory,
    pub(crate) graph: SharedGraph,
    /// The first line of each node of the graph.
    pub(crate) lines: ListOf<u32>,
    /// The first line behind all nodes.
    pub(crate) free: u32,
    /// How many logs had entries, that were put back.
    pub(crate) undone: u32,
}

/// Recovers an image that isn't blank, whose layout has this version, and so many words of whose directory are in use. It was only
/// looked at so far.
pub(crate) fn recover_used<I: Image>(
    alloc: Global,
    memory: &mut LineMemory<I>,
    version: u32,
    used: u32,
) -> Result<FoundImage, RecoverFault>
    requires enough { min_lines ≤ memory.old.size }
    requires most { memory.old.size ≤ max_lines }
    requires range { used ≤ directory_words }
    ensures finds { (first : Memory) → AllKnown first → Looks first memory.old
        → IsUsed first.size (shown first) used → IfOk result (λ found. FindsImage first.size (shown first)
        found.directory found.graph found.lines found.free found.undone) }
    ensures version { IfOk result (λ found. found.version ≡ version) }
    ensures recovered { (first : Memory) → AllKnown first → Looks first memory.old
        → OnOk result (IsRecovered first memory.new) }
    ensures durable { (first : Memory) → Tells first → AllWritten first → Looks first memory.old
        → OnOk result (AllDurable memory.new) }
    ensures bad { (first : Memory) → AllKnown first → Looks first memory.old
        → IsUsed first.size (shown first) used
        → IfErr result (IsFaultOf (meaning first.size (shown first))) }
    ensures put_back { (first : Memory) → AllKnown first → Looks first memory.old
        → IfErr result (λ fault. IsBadFault fault → ChangesTo (IsPutBack (shown first)) first memory.new) }
    ensures changes { (first : Memory) → AllKnown first → Looks first memory.old
        → ChangesTo (IsRestored (shown first)) first memory.new }
    ensures refused { (first : Memory) → AllKnown first → Looks first memory.old
        → IsUsed first.size (shown first) used → FailsFirst first.size (shown first) → ChangesTo Nothing first memory.new }
    ensures stops { (first : Memory) → Tells first → AllDurable first → AllWritten first → Looks first memory.old
        → logs_fault first.size (shown first) ≡ None
        → StopsLeave first memory.new (IsRecoveringIn first.size (shown first)) }
    ensures goes_on { GoesOn memory.old memory.new }
    ensures calls { CallsAtMost memory.old memory.new most_recovery_calls }
    ensures cause { HasCauseOf RecoverFault.ImageFailed memory.old.faults memory.new.faults result }
{
    let front = read_front(alloc, memory, used)?;
    put_back_logs(memory)?;
    let found = find_graph(
        alloc,
        memory,
        front.directory.shapes(),
        front.directory.roots(),
    )?;
    empty_logs(memory)?;
    Ok(FoundImage {
        version,
        directory: front.directory,
        graph: found.graph,
        lines: found.lines,
        free: found.free,
        undone: front.undone,
    })
}
