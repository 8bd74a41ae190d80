// The beginning of a live view.
ghost use Rattle.std.specs.Prelude.{◌≡◌, ◌<◌, [], All, IfOk, length};
ghost use Rattle.class_set.specs.Facts.{facts_of};
ghost use Rattle.plain_model.specs.First.{IsOpening};
ghost use Rattle.live_laws.specs.Firsts.{first_seen};
ghost use Rattle.live_view.specs.Watching.{started};

use crate::first::first_seen;
use class_set::ClassSet;
use graph_model::Graph;
use live_view::{LiveReader, LiveWriter};
use run_types::Limits;
use std::alloc::{AllocError, Global};
use std::sync::Wait;

/// A writer and so many readers of what is seen of a run of this set from this graph on. In both copies the table of objects and
/// their flags have room for a run by these limits; slots take theirs as objects appear.
///
/// # Errors
///
/// Want of memory, and of numbers, as of 2^32 roots.
pub fn begin_live<R: Wait + Drop>(
    rt: R,
    alloc: Global,
    set: &ClassSet,
    opening: &Graph,
    limits: &Limits,
    readers: u32,
) -> Result<(LiveWriter<R>, Vec<LiveReader>), AllocError>
    requires opening { IsOpening (facts_of set.now) opening.now }
    requires readers { 0 < readers }
    ensures writer { IfOk result (λ r. r.0 ≡ started (first_seen (facts_of set.now) opening.now) r.0.of) }
    ensures count { IfOk result (λ r. length r.1.items ≡ readers) }
    ensures readers { IfOk result (λ r. All (λ x.
        x ≡ record { first = first_seen (facts_of set.now) opening.now; of = r.0.of; acts = [] }) r.1.items) }
{
    let first = first_seen(alloc, set, opening, limits)?;
    let second = first_seen(alloc, set, opening, limits)?;
    LiveWriter::over(rt, alloc, first, second, readers)
}
