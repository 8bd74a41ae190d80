//! What is known as a plain run begins.

ghost use Rattle.graph_model.specs.declared.types.Graph.{Graph};
ghost use Rattle.run_history.specs.OpenGuards.{IsOutsideRegions};
ghost use Rattle.plain_model.specs.Facts.{SetFacts};
ghost use Rattle.plain_model.specs.First.{first_known};

/// One thread, outside regions, and no guarded place: what `Acts::guarded_by` asks of what was known
/// before its acts, so that its answer is that of each plain run.
pub fn plain_runs_begin_outside_regions()
    ensures outside { (set : SetFacts) (opening : Graph) → IsOutsideRegions (first_known set opening) }
{}
