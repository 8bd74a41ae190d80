// Laws of the work that is left.
ghost use Rattle.convert_queue.specs.Laws.{StoresLeaveTwo, WritesTakeOne, FencesTakeOne, PutsAddTheWhole, CopiesTakeThree};
ghost use Rattle.convert_queue.specs.Laws.{ForwardsTakeOne, RepairsTakeOne, RepairBeginsAlike, RepairGoesOnAlike};
ghost use Rattle.convert_queue.specs.Laws.{FlushLeavesLines, NoneIsLeftAtFirst};

/// By how much each step of a conversion changes the work that is left: a line that is copied, an object that
/// is forwarded, a line that is repaired, and a write of a stored line take one each, and a fence at least
/// one where a written line waits.
pub fn each_step_takes_work()
    ensures stored { StoresLeaveTwo }
    ensures written { WritesTakeOne }
    ensures fenced { FencesTakeOne }
    ensures put { PutsAddTheWhole }
    ensures copied { CopiesTakeThree }
    ensures forwarded { ForwardsTakeOne }
    ensures repaired { RepairsTakeOne }
    ensures to_repair { RepairBeginsAlike }
    ensures next { RepairGoesOnAlike }
    ensures to_flush { FlushLeavesLines }
    ensures begun { NoneIsLeftAtFirst }
{}
