// The laws of regions. Each function states some, and does nothing but cite others.
ghost use Rattle.region_events.specs.Laws.{BeginsAreEvents, CallsLeaveLogs, EndingIsEvents, EndsAtOnceAreEvents};
ghost use Rattle.region_events.specs.Laws.{FencesAreClosings, GuardsAreEvents, LastCallsAreEnds, LoggingIsEvents};
ghost use Rattle.region_events.specs.Laws.{StoresAreEvents};
ghost use Rattle.region_events.specs.Starting.{EmptyLogsStand, OneEntryIsUnderWay};
ghost use Rattle.region_events.specs.Rules.{ClosingsMayCome, EndsMayCome, GuardsMayCome, StoresMayCome};

/// What a thread's region does is events of the stop theorem: its begin, a place that it guards,
/// each call of its log, made or failed, a store, its closing and its end. Its log is what the acts
/// say of it before and after each.
pub fn regions_are_events()
    ensures begins { BeginsAreEvents }
    ensures guards { GuardsAreEvents }
    ensures logs { LoggingIsEvents }
    ensures stores { StoresAreEvents }
    ensures ending { EndingIsEvents }
    ensures closes { FencesAreClosings }
    ensures ends { LastCallsAreEnds }
    ensures at_once { EndsAtOnceAreEvents }
{}

/// With a call of the image that isn't the log's own it stands as before.
pub fn calls_leave_logs()
    ensures { CallsLeaveLogs }
{}

/// Where a run starts the empty log of each thread stands, and in some run a place is guarded.
pub fn logs_stand_at_the_start()
    ensures start { EmptyLogsStand }
    ensures guarded { OneEntryIsUnderWay }
{}

/// Guarded, a store in a region, Closing and End keep the rules of a plain run, where the request
/// of the log's thread is for that.
pub fn regions_keep_the_rules()
    ensures guards { GuardsMayCome }
    ensures stores { StoresMayCome }
    ensures closes { ClosingsMayCome }
    ensures ends { EndsMayCome }
{}
