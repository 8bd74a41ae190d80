//! The stop theorem. Each function states a part of it in its contract, and does nothing.
ghost use Rattle.stop_theorem.specs.Laws.{CallsKeepMoments, StoresKeepMoments, ActsKeepMoments, StartsStand};
ghost use Rattle.stop_theorem.specs.Laws.{RecoveryKeepsAllowed, FoundImagesStart};
ghost use Rattle.stop_theorem.specs.Given.{FencedStoresAreEvents, LinesMayBeFenced, RunBegins, OneStoreIsFenced};
ghost use Rattle.stop_theorem.specs.Given.{BeginIsAnEvent, EntryWordsAreEvents, CountedEntriesAreEvents, RegionStoresAreEvents};
ghost use Rattle.stop_theorem.specs.Given.{ClosingIsAnEvent, EmptiedLogsAreEvents, EndedRegionsAreEvents};
ghost use Rattle.stop_theorem.specs.GivenCopies.{FreeStoresAreEvents, QuietActsAreEvents, WrittenLinesAreEvents};
ghost use Rattle.stop_theorem.specs.GivenCopies.{FencedGroupsAreEvents, OneGroupIsSealed};
ghost use Rattle.stop_theorem.specs.WrongOrders.{WrongOrdersAreRefused};
ghost use Rattle.stop_theorem.specs.Running.{RunsStart, EventsKeep, EveryStopIsAllowed, EventsKeepWhereTold};
ghost use Rattle.stop_theorem.specs.Running.{RunningStopsAreAllowed};

/// The moments so far.
pub fn events_keep_moments()
    ensures calls { CallsKeepMoments }
    ensures stores { StoresKeepMoments }
    ensures acts { ActsKeepMoments }
{}

/// A run starts in the invariant, over an image that was opened.
pub fn a_run_starts_settled()
    ensures starts { StartsStand }
    ensures found { FoundImagesStart }
{}

/// Recoveries, stopped any number of times.
pub fn recovery_keeps_what_is_allowed()
    ensures { RecoveryKeepsAllowed }
{}

/// Whatever the events, each stop leaves what is allowed.
pub fn every_stop_is_allowed()
    ensures start { RunsStart }
    ensures event { EventsKeep }
    ensures events { EveryStopIsAllowed }
    ensures running { RunningStopsAreAllowed }
    ensures told { EventsKeepWhereTold }
{}

/// Stores, write-backs and fences that succeed are events: of a durable store outside regions with its
/// fence, of a region, from the words of an entry to its end, and of copies, from their words to the
/// group that is sealed. So is each act that changes no durable place.
pub fn what_layers_do_are_events()
    ensures stored { FencedStoresAreEvents }
    ensures lines { LinesMayBeFenced }
    ensures start { RunBegins }
    ensures one { OneStoreIsFenced }
    ensures free { FreeStoresAreEvents }
    ensures acts { QuietActsAreEvents }
    ensures written { WrittenLinesAreEvents }
    ensures group { FencedGroupsAreEvents }
    ensures sealed { OneGroupIsSealed }
    ensures begun { BeginIsAnEvent }
    ensures entry { EntryWordsAreEvents }
    ensures counted { CountedEntriesAreEvents }
    ensures region { RegionStoresAreEvents }
    ensures closing { ClosingIsAnEvent }
    ensures emptied { EmptiedLogsAreEvents }
    ensures ended { EndedRegionsAreEvents }
{}

/// Wrong orders: a root before its copy is fenced, part of a group, a count before its entry, a log that
/// is cleared too early, an inner End that commits, and a store without the fence before it.
pub fn wrong_orders_are_refused()
    ensures { WrongOrdersAreRefused }
{}
