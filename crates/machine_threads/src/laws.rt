//! Laws of the threads of a machine. Each function states some in its contract, and does nothing but
//! cite others.

ghost use Rattle.machine_threads.specs.Claiming.{ClaimersConvert, ClaimersHaveAsked, OthersHaveNothing};
ghost use Rattle.machine_threads.specs.Keeping.{BeginnersKeepTheirs, EventsKeepAll, OthersAskOn, OthersKeepTheirs};
ghost use Rattle.machine_threads.specs.Keeping.{OthersStayForwarded, OthersStayUnbegun, OwnersKeepTheirs};
ghost use Rattle.machine_threads.specs.Keeping.{ReferencesStandStill};
ghost use Rattle.machine_threads.specs.Plain.{FullRowsEndRuns, FullRowsTellWaits};
ghost use Rattle.machine_threads.specs.Plain.{PlainWaitsAreNoConversions, StuckRunsEnd};
ghost use Rattle.machine_threads.specs.Plain.{StuckRunsTellWaits};
ghost use Rattle.machine_threads.specs.Stuck.{ClaimersLive, FencesDontWait, FullRowsEndMachines};
ghost use Rattle.machine_threads.specs.Stuck.{MachinesBeginRows, ReadyThreadsWaitAlike, RecordsAreRight};
ghost use Rattle.machine_threads.specs.Stuck.{StuckMachinesEnd, StuckRecordsEndMachines};
ghost use Rattle.machine_threads.specs.Testing.{LiveThreadsAsk, TestedWaitsAreStuck, TestedWaitsEnd};

/// An event of one thread leaves each other what the machine keeps of it: it asks its store still,
/// what it is about and its log are as they were, what it has claimed is as far, it lives, and its own
/// frames ask what they asked, by references that stand for what they stood for. What the thread of the
/// event has asked it asks still, too. A thread that begins has all of that. So all threads keep theirs where
/// the event's own does.
pub fn others_keep_theirs()
    ensures keep { OthersKeepTheirs }
    ensures own { OwnersKeepTheirs }
    ensures unbegun { OthersStayUnbegun }
    ensures forwarded { OthersStayForwarded }
    ensures ask { OthersAskOn }
    ensures references { ReferencesStandStill }
    ensures begin { BeginnersKeepTheirs }
    ensures all { EventsKeepAll }
{}

/// Whoever has claimed an object has asked a value, and converts: one that is about nothing else has
/// claimed nothing.
pub fn claimers_convert()
    ensures asked { ClaimersHaveAsked }
    ensures convert { ClaimersConvert }
    ensures others { OthersHaveNothing }
{}

/// A full row of waits ends the plain run stuck, and what was recorded is what the plain run tells.
pub fn full_rows_end_runs()
    ensures no_conversion { PlainWaitsAreNoConversions }
    ensures ends { FullRowsEndRuns }
    ensures told { FullRowsTellWaits }
{}

/// So does any record of waits that all hold.
pub fn stuck_runs_end()
    ensures ends { StuckRunsEnd }
    ensures told { StuckRunsTellWaits }
{}

/// A thread whose own frames don't lag waits in the plain world exactly as the step of what they ask
/// says, and one that owes a fence doesn't wait.
pub fn threads_wait_as_they_ask()
    ensures ready { ReadyThreadsWaitAlike }
    ensures fences { FencesDontWait }
{
    machine_ends::machines_ask_as_plain_runs();
}

/// Where a thread waits in the plain world and each that lives does, its event ends the run stuck, with
/// the waits of all. Whoever has claimed an object lives, and waits for nothing there. So the run is
/// stuck once each live thread has waited in a row of waits, and where each recorded wait holds.
pub fn machines_end_stuck()
    ensures ends { StuckMachinesEnd }
    ensures live { ClaimersLive }
    ensures right { RecordsAreRight }
    ensures records { StuckRecordsEndMachines }
    ensures begin { MachinesBeginRows }
    ensures rows { FullRowsEndMachines }
{}

/// Where the last event of each live thread waited in the plain world, and its step would wait for the same now, the run is stuck,
/// and nowhere else; the waits as they are noted are the fault's. No wait for a conversion is tested.
pub fn tested_waits_are_stuck()
    ensures live { LiveThreadsAsk }
    ensures stuck { TestedWaitsAreStuck }
    ensures end { TestedWaitsEnd }
{
    machine_ends::machines_ask_as_plain_runs();
}
