//! Laws of machines that stand for plain runs. Each function states some in its contract, and does nothing
//! but cite others.

ghost use Rattle.run_forms.specs.Laws.{HeapsAreOfTheSet, ThreadsAskAlike, ActsGoOn, MovesStandForTheRun};
ghost use Rattle.run_forms.specs.Ends.{ActsMeetNoFault, FullHistoriesEnd, StepsEnd};
ghost use Rattle.run_forms.specs.Volatile.{VolatileMachinesAgree, VolatileActsAreRuns, VolatileActsGoOn};

use ap_base::{Item, Ref};
use graph_model::Value;

/// A machine that stands for a plain run has a heap of its class set; its threads ask what the plain machine
/// asks; and a step's act with the answer to its reply leads to a machine that stands for the plain run with
/// one act more.
pub fn machines_go_on_as_plain_runs()
    ensures heaps { HeapsAreOfTheSet }
    ensures asks { ThreadsAskAlike }
    ensures acts { ActsGoOn }
{
    plain_frames::built_in_methods_keep_in();
    plain_frames::programs_with_built_in_methods_ask_what_is_fit();
    plain_frames::machines_with_built_in_methods_go_alike::<Ref, Value, Item, Value>();
    plain_frames::items_are_alike();
}

/// A machine whose objects have moved, so that it shows the same world, stands for the same plain run: its
/// frames keep their references.
pub fn moved_heaps_stand_for_the_same_run()
    ensures stands { MovesStandForTheRun }
{
    plain_frames::built_in_methods_keep_in();
    plain_frames::programs_with_built_in_methods_ask_what_is_fit();
    plain_frames::machines_with_built_in_methods_go_alike::<Ref, Value, Item, Value>();
    plain_frames::items_are_alike();
}

/// Where nothing is durable, the parts of the machine agree as steps want it, and each step is an act that
/// may come next: the machine goes on by it, and nothing is durable after it.
pub fn volatile_machines_go_on()
    ensures agree { VolatileMachinesAgree }
    ensures runs { VolatileActsAreRuns }
    ensures acts { VolatileActsGoOn }
{
    plain_frames::built_in_methods_keep_in();
    plain_frames::programs_with_built_in_methods_ask_what_is_fit();
    plain_frames::machines_with_built_in_methods_go_alike::<Ref, Value, Item, Value>();
    plain_frames::items_are_alike();
}

/// Where nothing is durable, what a step finds wrong or lacks is the fault by which the event ends the plain run, and
/// a full history ends it before all else. The event of a step that does an operation met no fault.
pub fn volatile_runs_end_by_their_faults()
    ensures full { FullHistoriesEnd }
    ensures steps { StepsEnd }
    ensures acts { ActsMeetNoFault }
{
    plain_frames::built_in_methods_keep_in();
    plain_frames::programs_with_built_in_methods_ask_what_is_fit();
    plain_frames::machines_with_built_in_methods_go_alike::<Ref, Value, Item, Value>();
    plain_frames::items_are_alike();
}
