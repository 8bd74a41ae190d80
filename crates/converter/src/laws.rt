// What an event of a conversion comes to, exactly, and by how much it lowers the work that is left.
ghost use Rattle.converter.specs.Laws.{SettledGroupsAreSealed, StoppedThreadsWait, LackingThreadsWait, SettledThreadsWait};
ghost use Rattle.converter.specs.Laws.{WaitingThreadsLack, SealsNameQueues, QueuesNameOnce, CopiesTakeWork, ForwardsTakeWork};
ghost use Rattle.converter.specs.Laws.{RepairsTakeWork, WritesTakeWork, FencesTakeWork, FirstLinesAreUnwritten};
ghost use Rattle.converter.specs.Laws.{BeginningsStayUnwritten, EventsStayUnwritten, StoresStayUnwritten, EventsTakeWork};
ghost use Rattle.converter.specs.Laws.{BeginningsAddWork, StoresAddWork};

/// A thread whose group is settled seals it: its next event has no other answer, and the set that it
/// tells is that group.
pub fn events_are_exact()
    ensures sealed { SettledGroupsAreSealed }
{}

/// A thread waits exactly where it lacks another: where its repair has come to a reference to an
/// object that the other has claimed and not forwarded, or where it is settled and its group isn't.
pub fn threads_wait_for_what_they_lack()
    ensures stopped { StoppedThreadsWait }
    ensures lacking { LackingThreadsWait }
    ensures settled { SettledThreadsWait }
    ensures waiting { WaitingThreadsLack }
{}

/// What a seal makes durable is what the queues of its threads held before, each object once.
pub fn seals_name_what_was_queued()
    ensures named { SealsNameQueues }
    ensures once { QueuesNameOnce }
{}

/// Until its flush a thread writes none of its lines back.
pub fn lines_stay_unwritten_until_the_flush()
    ensures first { FirstLinesAreUnwritten }
    ensures begun { BeginningsStayUnwritten }
    ensures events { EventsStayUnwritten }
    ensures stored { StoresStayUnwritten }
{}

/// A line that is copied, repaired or written back and an object that is forwarded take one of the
/// work that is left, and a fence at least one.
pub fn steps_take_work()
    ensures copied { CopiesTakeWork }
    ensures forwarded { ForwardsTakeWork }
    ensures repaired { RepairsTakeWork }
    ensures written { WritesTakeWork }
    ensures fenced { FencesTakeWork }
{}

/// Each event leaves at most the work that there was, less one where it is a quiet step, and sixteen
/// more for each line that a claim takes; and so does the beginning of a conversion. A store adds two at
/// most.
pub fn events_take_work()
    ensures taken { EventsTakeWork }
    ensures begun { BeginningsAddWork }
    ensures stored { StoresAddWork }
{}
