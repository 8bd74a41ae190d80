//! Laws of the invariant. Each function states some in its contract, and does nothing.
ghost use Rattle.stop_theorem.specs.InvariantLaws.{StandingMemoryIsAllowed, CallsKeep, FreeStoresKeep, SureActsKeep};
ghost use Rattle.stop_theorem.specs.InvariantLaws.{GuardsKeep};
ghost use Rattle.stop_theorem.specs.InvariantLaws.{NewObjectsKeepPlaces};

/// What a stop may leave now is allowed.
pub fn a_stop_leaves_what_is_allowed()
    ensures { StandingMemoryIsAllowed }
{}

/// Image calls, stores to words that nothing durable depends on, and acts that store at no durable
/// place.
pub fn quiet_events_keep_stops()
    ensures calls { CallsKeep }
    ensures free { FreeStoresKeep }
    ensures acts { SureActsKeep }
    ensures guards { GuardsKeep }
    ensures objects { NewObjectsKeepPlaces }
{}
