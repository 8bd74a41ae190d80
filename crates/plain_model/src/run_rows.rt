// Programs of two threads by computation: what they may do, and what they may not.
ghost use Rattle.plain_model.specs.RunRows.{RegionsGuard, RegionsNest, StoresAreFenced, OnlyDurablePlacesAreAsked};
ghost use Rattle.plain_model.specs.Consistent.{IsConsistent};
ghost use Rattle.plain_model.specs.First.{IsOpening};
ghost use Rattle.plain_model.specs.StepWorld.{boxes};
ghost use Rattle.plain_model.specs.RunRows.{two_boxes};
ghost use Rattle.plain_model.specs.RunRows.{ActsAreInOrder, ThreadsWait, MonitorsExclude};
ghost use Rattle.plain_model.specs.EndRows.{Prints7, RegionsCommitAtTheirEnd, RegionsRace, ThreadsAreStuck, RunsFill};
ghost use Rattle.plain_model.specs.EndRows.{LinesAreWanted};
ghost use Rattle.plain_model.specs.EndRows.{CausesAreInOrder, FencesComeFirst, FaultsCome, ThreadsEnd};
ghost use Rattle.plain_model.specs.EndRows.{LinesHoldEightWords, LogsFill};

/// Regions guard their places, nest, and close at their outermost end.
pub fn regions_keep_their_rules()
    ensures guard { RegionsGuard }
    ensures nest { RegionsNest }
{}

/// A durable store is fenced, and what is stored durably was asked and joined.
pub fn stores_keep_their_rules()
    ensures fenced { StoresAreFenced }
    ensures asked { OnlyDurablePlacesAreAsked }
{}

/// Threads wait for ends, initialisers and monitors, and their acts are in order.
pub fn threads_keep_their_rules()
    ensures order { ActsAreInOrder }
    ensures waits { ThreadsWait }
    ensures monitors { MonitorsExclude }
{}

/// `println(7)`, act by act.
pub fn a_program_prints_7()
    ensures { Prints7 }
{}

/// An inner End of a region commits nothing, and the outermost commits all.
pub fn regions_commit_at_their_end()
    ensures { RegionsCommitAtTheirEnd }
{}

/// Which faults end the runs of two threads, and which don't.
pub fn runs_end_by_their_rules()
    ensures races { RegionsRace }
    ensures stuck { ThreadsAreStuck }
    ensures fill { RunsFill }
    ensures lines { LinesAreWanted }
    ensures eight { LinesHoldEightWords }
    ensures logs { LogsFill }
    ensures order { CausesAreInOrder }
    ensures fences { FencesComeFirst }
    ensures faults { FaultsCome }
    ensures ends { ThreadsEnd }
{}

/// The class set of these programs is one, and their graph is an opening graph of it.
pub fn the_boxes_are_sound()
    ensures set { IsConsistent boxes }
    ensures graph { IsOpening boxes two_boxes }
{}
