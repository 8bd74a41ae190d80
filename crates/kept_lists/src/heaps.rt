// The heap after a kept list.
ghost use Rattle.std.specs.Prelude.{◌≡◌, ◌<◌, IfOk, OnOk, length, true};
ghost use Rattle.graph_model.specs.Canon.{canon_of};
ghost use Rattle.graph_model.specs.Heaps.{IsSound};
ghost use Rattle.run_history.specs.Worlds.{fits, heap_after, heap_after_op};
ghost use Rattle.kept_lists.specs.Doubts.{marks_from};
ghost use Rattle.audit_verdicts.specs.Picked.{kept_by};
ghost use Rattle.kept_lists.specs.Fitting.{FitEach};

use crate::doubts::Doubts;
use graph_model::{Graph, Heap, canon};
use run_history::{Acts, Op};
use std::alloc::{AllocError, Global};

/// Does an operation that fits the heap.
pub fn do_op(alloc: Global, heap: &mut Heap, op: Op) -> Result<(), AllocError>
    requires fits { fits heap.old op ≡ true }
    ensures { OnOk result (heap.new ≡ heap_after_op heap.old op) }
{
    match op {
        Op::Alloc { shape, length, .. } => {
            let _number = heap.add(alloc, shape, length)?;
            Ok(())
        }
        Op::Throw { class, .. } => {
            let _number = heap.add(alloc, class, 0)?;
            Ok(())
        }
        Op::Stored { place, value } => {
            heap.store(place, value);
            Ok(())
        }
        _ => Ok(()),
    }
}

/// Does those of the acts that are kept where the word has the bits of the threads whose unfenced store or closing region is.
fn do_kept(
    alloc: Global,
    heap: &mut Heap,
    acts: &Acts,
    doubts: &Doubts,
    keep: u64,
) -> Result<(), AllocError>
    requires count { length doubts.now.doubts.items ≡ length acts.now.acts }
    requires threads { length doubts.now.lasts.items ≡ 64 }
    requires fit { FitEach heap.old (kept_by keep (marks_from doubts.now.lasts.items 0 acts.now.acts doubts.now.doubts.items)) }
    ensures { OnOk result (heap.new
        ≡ heap_after heap.old (kept_by keep (marks_from doubts.now.lasts.items 0 acts.now.acts doubts.now.doubts.items))) }
{
    let mut i = 0;
    'acts: while i < acts.len() {
        if let Some(act) = acts.get(i) {
            if doubts.keeps(keep, i as usize, act.thread) {
                do_op(alloc, heap, act.op)?;
            }
        }
        i += 1;
    }
    Ok(())
}

/// The canonical graph of the heap after the kept list that the word picks, from this heap on.
pub fn kept_graph(
    alloc: Global,
    first: Heap,
    acts: &Acts,
    doubts: &Doubts,
    keep: u64,
) -> Result<Graph, AllocError>
    requires sound { IsSound first }
    requires count { length doubts.now.doubts.items ≡ length acts.now.acts }
    requires threads { length doubts.now.lasts.items ≡ 64 }
    requires fit { FitEach first (kept_by keep (marks_from doubts.now.lasts.items 0 acts.now.acts doubts.now.doubts.items)) }
    ensures graph { IfOk result (λ graph. graph
        ≡ canon_of (heap_after first (kept_by keep (marks_from doubts.now.lasts.items 0 acts.now.acts doubts.now.doubts.items)))) }
{
    let mut heap = first;
    do_kept(alloc, &mut heap, acts, doubts, keep)?;
    canon(alloc, &heap)
}
