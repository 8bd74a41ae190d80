//! Laws of failure-atomic regions. Each function states some in its contract, and does nothing.
ghost use Rattle.stop_theorem.specs.RegionLaws.{LogWordsKeep, RaisedCountsKeep, RegionStoresKeep, ClosingKeeps};
ghost use Rattle.stop_theorem.specs.RegionLaws.{LoweredCountsKeep};
ghost use Rattle.stop_theorem.specs.RegionLaws.{EndsKeep};

/// A place is logged: the words of an entry, and the count that is raised over it.
pub fn logs_keep_stops()
    ensures words { LogWordsKeep }
    ensures raised { RaisedCountsKeep }
{}

/// A region stores, closes, has its log's count lowered, and ends.
pub fn regions_keep_stops()
    ensures stored { RegionStoresKeep }
    ensures closing { ClosingKeeps }
    ensures lowered { LoweredCountsKeep }
    ensures ended { EndsKeep }
{}
