//! Laws of what a stop may leave of a place. Each function states some in its contract, and does
//! nothing.
ghost use Rattle.stop_theorem.specs.KeptLaws.{ActsKeepOrder, PlainRunsAreOrderly, SingleStoresArePlaced, EndsCloseRegions};

/// What each act keeps of the marks, and what that says of a thread's stores.
pub fn histories_keep_order()
    ensures acts { ActsKeepOrder }
    ensures singles { SingleStoresArePlaced }
    ensures ends { EndsCloseRegions }
{}

/// Plain runs keep it. `Frames` is what code keeps of a thread.
pub fn plain_runs_are_orderly<Frames>()
    ensures { PlainRunsAreOrderly Frames }
{}
