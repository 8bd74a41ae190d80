//! Laws of durable stores. Each function states some in its contract, and does nothing.
ghost use Rattle.stop_theorem.specs.StoreLaws.{SingleStoresKeep, WrittenStoresWait, FencesKeep, FencesSettle, JoinsKeep};

/// A durable store outside regions: stored, written back, fenced.
pub fn single_stores_keep_stops()
    ensures stored { SingleStoresKeep }
    ensures written { WrittenStoresWait }
    ensures fenced { FencesKeep }
    ensures settled { FencesSettle }
{}

/// A group of objects becomes durable.
pub fn sealed_groups_keep_stops()
    ensures { JoinsKeep }
{}
