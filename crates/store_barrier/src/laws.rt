// Laws of barriers.
ghost use Rattle.store_barrier.specs.Laws.{ConversionsAreAsked, DurableLinesAgree, DurablePlacesAgree, DurableWordsAgree};
ghost use Rattle.store_barrier.specs.Laws.{GuardsAgree, PlacesMayBeGuarded, StoredPlacesAreKept, StoresAreLogged};
ghost use Rattle.store_barrier.specs.Laws.{StoresAreOutside, StoresKeepDurable};

/// Of a machine that keeps its run: durable places, their lines and words, and who has guarded them;
/// and what its events ask of a store.
pub fn answers_serve_machines()
    ensures places { DurablePlacesAgree }
    ensures lines { DurableLinesAgree }
    ensures words { DurableWordsAgree }
    ensures kept { StoredPlacesAreKept }
    ensures guards { GuardsAgree }
    ensures asked { ConversionsAreAsked }
    ensures durable { StoresKeepDurable }
    ensures outside { StoresAreOutside }
    ensures logged { StoresAreLogged }
    ensures may { PlacesMayBeGuarded }
{}
