// What holds of every log. Each function states a law in its contract, and does nothing.
ghost use Rattle.region_log.specs.Fencing.{LoggingSeesFences, EndingSeesFences};
ghost use Rattle.region_log.specs.Laws.{EmptyLogsAreKept, CallsKeepLogs, StoresKeepLogs, OthersStepsKeepLogs, KeptLogsAreLeft};
ghost use Rattle.region_log.specs.Laws.{RegionsStay};
ghost use Rattle.region_log.specs.Said.{LeftEntriesSay, CountsFit, FencedEntriesAreThere, UncountedWordsSayNothing};

/// A log whose count is durable and 0 is kept, empty.
pub fn a_log_begins_empty()
    ensures { EmptyLogsAreKept }
{}

/// Whatever other threads do keeps a log, as long as they store to none of its lines.
pub fn others_keep_a_log()
    ensures calls { CallsKeepLogs }
    ensures stores { StoresKeepLogs }
    ensures steps { OthersStepsKeepLogs }
{}

/// A stop leaves of a log that is kept exactly its entries, but for one that is being counted, or for all as the region
/// ends.
pub fn a_kept_log_is_left()
    ensures { KeptLogsAreLeft }
{}

/// The words that a region logged stay written back, or durable, as long as no other thread stores to them.
pub fn others_keep_a_region()
    ensures { RegionsStay }
{}

/// The entries that a stop leaves name the logged words alone, each with its entry's value; one that is fenced is whole before it counts, and what
/// doesn't count says nothing.
pub fn left_entries_name_words()
    ensures say { LeftEntriesSay }
    ensures fit { CountsFit }
    ensures fenced { FencedEntriesAreThere }
    ensures uncounted { UncountedWordsSayNothing }
{}

/// A call of a log made a fence exactly where the logs before and after it say so: where a fence was next, and the call
/// was made.
pub fn logs_see_their_fences()
    ensures logging { LoggingSeesFences }
    ensures ending { EndingSeesFences }
{}
