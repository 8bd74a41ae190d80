// What the laws of heaps, of what was asked and of stops give together, and laws of frames.
ghost use Rattle.machine_laws.specs.Frames.{ActsArePlainRuns, EventsGoOnAsPlain, IdleMachinesStand, ReadyThreadsAskAlike};
ghost use Rattle.machine_laws.specs.Keeping.{EachStopIsAllowed, EventsKeepRuns, MachinesShowTheirWorld};

/// Each event leads from a machine that keeps its run to one that does.
pub fn events_keep_runs()
    ensures { EventsKeepRuns }
{
    crate::events_keep_heaps();
    crate::events_keep_what_was_asked();
    crate::events_keep_stops();
}

/// A machine that keeps its run leaves what is allowed at each stop, and shows its acts' world.
pub fn each_stop_is_allowed()
    ensures stops { EachStopIsAllowed }
    ensures shown { MachinesShowTheirWorld }
{
    stop_theorem::every_stop_is_allowed();
}

/// Each event leaves the frames that the plain run has: those of its thread are answered, its own once its
/// durable store is fenced, and all others stay.
pub fn events_go_on_as_plain_runs()
    ensures { EventsGoOnAsPlain }
{
    crate::each_act_may_come();
    run_forms::moved_heaps_stand_for_the_same_run();
    run_forms::machines_go_on_as_plain_runs();
}

/// The acts are a plain run. Threads whose own frames don't lag ask what the plain machine asks.
pub fn machines_ask_as_plain_runs()
    ensures acts { ActsArePlainRuns }
    ensures ready { ReadyThreadsAskAlike }
    ensures idle { IdleMachinesStand }
{
    run_forms::machines_go_on_as_plain_runs();
}
