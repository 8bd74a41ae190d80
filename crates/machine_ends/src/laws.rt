// How events end a run, which acts met no fault, and how a run finishes.
ghost use Rattle.machine_ends.specs.Laws.{EndsMeetNoFault, FencesMeetNoFault, FullHistoriesEnd, FullLogsEnd, ImageFaultsEnd};
ghost use Rattle.machine_ends.specs.Laws.{RacesEnd, RunsFinish, StepsEnd, StepsMeetNoFault};
ghost use Rattle.machine_ends.specs.Laws.{StoresMeetNoFault};

/// What a step finds wrong or lacks is the fault by which the event ends the plain run; a full
/// history ends it before all else, and the image may fail while it isn't full. A full log ends it, and a
/// store to a place that another thread's region has guarded.
pub fn machines_end_by_their_faults()
    ensures full { FullHistoriesEnd }
    ensures steps { StepsEnd }
    ensures image { ImageFaultsEnd }
    ensures logs { FullLogsEnd }
    ensures races { RacesEnd }
{
    machine_laws::machines_ask_as_plain_runs();
}

/// While there is room for an act, an event meets no fault whose act is of a step, of a store, a fence
/// or a region's end; where it stores, no guard is in its way, and none is lacking.
pub fn acts_meet_no_fault()
    ensures steps { StepsMeetNoFault }
    ensures fences { FencesMeetNoFault }
    ensures stores { StoresMeetNoFault }
    ensures ends { EndsMeetNoFault }
{
    machine_laws::machines_ask_as_plain_runs();
}

/// Where all threads have ended, so has the run: by a throwable that ended one, or normally.
pub fn machines_finish_with_their_threads()
    ensures all { RunsFinish }
{}
