//! Laws of histories. Each function states one in its contract, and does nothing: the law holds of all acts, from any
//! world with any durable objects.
ghost use Rattle.run_history.specs.Laws.{SingleStoreIsOpen, FencedStoreIsThere, FenceKeepsTheStore, FenceLeavesNoSingle};
ghost use Rattle.run_history.specs.Laws.{OpenRegionIsNeverThere, ClosingRegionIsWhole, EndedRegionIsThere, EndLeavesNoRegion};
ghost use Rattle.run_history.specs.Laws.{ClosingRegionIsNotOpen, FurtherActBefore, ActsBeforeAreAFront, AllActsBefore};
ghost use Rattle.run_history.specs.Laws.{CheckedHeapIsSound};
ghost use Rattle.run_history.specs.Ring.{RingHasTwoGraphs, RingHasOneGraph};

/// A durable store outside regions may be lost or left until its thread's fence, and is there after it.
pub fn a_store_stays_open_until_its_fence()
    ensures open { SingleStoreIsOpen }
    ensures fenced { FencedStoreIsThere }
{}

/// A fence keeps its thread's store, whatever other threads did between the store and the fence.
pub fn a_fence_keeps_the_store()
    ensures keeps { FenceKeepsTheStore }
    ensures leaves_none { FenceLeavesNoSingle }
{}

/// A stop leaves nothing of a failure-atomic region that is open.
pub fn an_open_region_is_never_there()
    ensures never { OpenRegionIsNeverThere }
{}

/// A stop leaves a closing region whole or not at all.
pub fn a_closing_region_is_there_whole_or_not_at_all()
    ensures whole_or_not { ClosingRegionIsWhole }
    ensures not_open { ClosingRegionIsNotOpen }
{}

/// A stop leaves a region whole once it has ended.
pub fn an_ended_region_is_there()
    ensures there { EndedRegionIsThere }
    ensures leaves_none { EndLeavesNoRegion }
{}

/// What a stop within an image call may leave is decided by the acts before that call: a front of the history.
pub fn a_moment_s_acts()
    ensures further { FurtherActBefore }
    ensures front { ActsBeforeAreAFront }
    ensures all { AllActsBefore }
{}

/// A store into a ring of two nodes, worked out: two graphs before its fence, and one after it.
pub fn a_history_computes()
    ensures two { RingHasTwoGraphs }
    ensures one { RingHasOneGraph }
{}

/// An operation that is done where it fits the heap, and not at all elsewhere, keeps the heap sound.
pub fn a_checked_operation_keeps_the_heap_sound()
    ensures sound { CheckedHeapIsSound }
{}
