//! Laws of waits for conversions. Each function states some in its contract, and does nothing.

ghost use Rattle.convert_waits.specs.Deadlock.{DeadlocksAreStuck, OneWaitIsNotStuck};
ghost use Rattle.convert_waits.specs.Passes.{PassesBegin, PassesFill, PassesGoOn, PassesSkip};
ghost use Rattle.convert_waits.specs.Rows.{BeginningsNeed, ConvertingWaitsKeep, LackingWaitsKeep};
ghost use Rattle.convert_waits.specs.Rows.{MemberWaitsKeep, NeedingWaitsKeep, NeedsWaitSettled};
ghost use Rattle.convert_waits.specs.Rows.{PlainWaitsKeep, RowsBegin, SettledWaitsKeep};
ghost use Rattle.convert_waits.specs.Stuck.{FullRowsAreStuck, FullRowsWaitPlainly, RowsHold};
ghost use Rattle.convert_waits.specs.Stuck.{StuckRunsWaitPlainly};
ghost use Rattle.convert_waits.specs.Waiting.{ConversionsNeverStick, WaitsComeSettled};

/// Where each thread that has claimed an object waits for a conversion, no such wait holds. A thread
/// that has claimed one and waits was settled before its event, or its repair lacks another thread's
/// object.
pub fn conversions_are_never_stuck()
    ensures never { ConversionsNeverStick }
    ensures settled { WaitsComeSettled }
{}

/// Each kind of event that waits keeps a row of waits, with its own.
pub fn waits_keep_rows()
    ensures plain { PlainWaitsKeep }
    ensures lacking { LackingWaitsKeep }
    ensures member { MemberWaitsKeep }
    ensures needing { NeedingWaitsKeep }
    ensures converting { ConvertingWaitsKeep }
    ensures begun { BeginningsNeed }
    ensures settled { SettledWaitsKeep }
    ensures needs { NeedsWaitSettled }
{}

/// A row begins where none has waited. Each of its waits holds. Once all live threads have waited in
/// it, none waits for a conversion, and the run is stuck.
pub fn rows_begin_and_end()
    ensures begin { RowsBegin }
    ensures hold { RowsHold }
    ensures plain { FullRowsWaitPlainly }
    ensures stuck { FullRowsAreStuck }
{}

/// A run that is stuck, by whatever waits were recorded, is so by waits of the plain world alone.
pub fn stuck_runs_wait_plainly()
    ensures { StuckRunsWaitPlainly }
{}

/// A pass over the threads in their order, in which each live one waits, is a full row.
pub fn passes_fill_rows()
    ensures begin { PassesBegin }
    ensures on { PassesGoOn }
    ensures skip { PassesSkip }
    ensures fill { PassesFill }
{}

/// An instance: two threads that wait for each other's monitors fill a row, and are stuck; after the
/// wait of the first alone they aren't.
pub fn deadlocks_are_stuck()
    ensures both { DeadlocksAreStuck }
    ensures one { OneWaitIsNotStuck }
{}
