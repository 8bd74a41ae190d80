// What is judged once all acts were followed.
ghost use Rattle.std.specs.Prelude.{◌≡◌, IfOk};
ghost use Rattle.class_set.specs.Facts.{facts_of};
ghost use Rattle.plain_model.specs.First.{IsOpening, first_known};
ghost use Rattle.audit_runs.specs.Audits.{HasDoubts, IsLeft};

use audit_verdicts::Verdict;
use class_set::ClassSet;
use first_heap::first_heap;
use graph_model::Graph;
use kept_lists::{Doubts, kept_graph};
use printed_output::prints;
use run_history::Acts;
use same_graphs::same_graph;
use std::alloc::{AllocError, Global};

/// Judges the bytes and the graph that a plain run left: Output, Image or Yes.
pub(crate) fn judge_end(
    alloc: Global,
    set: &ClassSet,
    opening: &Graph,
    acts: &Acts,
    doubts: &Doubts,
    keep: u64,
    output: &[u8],
    after: &Graph,
) -> Result<Verdict, AllocError>
    requires opening { IsOpening (facts_of set.now) opening.now }
    requires doubts { HasDoubts (first_known (facts_of set.now) opening.now) acts.now.acts doubts.now }
    ensures { IfOk result (IsLeft (first_known (facts_of set.now) opening.now) acts.now.acts keep output.now after.now) }
{
    if !prints(acts, output) {
        return Ok(Verdict::Output);
    }
    let first = first_heap(alloc, set, opening)?;
    let graph = kept_graph(alloc, first, acts, doubts, keep)?;
    if !same_graph(after, &graph) {
        return Ok(Verdict::Image);
    }
    Ok(Verdict::Yes)
}
