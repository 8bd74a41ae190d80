// Laws of plain runs and histories: each is the contract of a function that does nothing. `Frames` is what code keeps
// of a thread.
ghost use Rattle.plain_model.specs.Laws.{OneMoreAct, FrontsArePlainRuns, VisibleActsAreSteps, OutputOfParts};
ghost use Rattle.plain_model.specs.Laws.{OutputByOperations};
ghost use Rattle.plain_model.specs.Laws.{DurableReferToDurable, OnlyWantedBecomesDurable, WantsForTheAsked};
ghost use Rattle.plain_model.specs.Laws.{WantsNothingAtFirst};
ghost use Rattle.plain_model.specs.Laws.{PendingWasAsked, DurableObjectsStay, WorldByVisibleActs, PersistenceLeavesTheWorld};
ghost use Rattle.plain_model.specs.Laws.{ObjectsHaveTheirSlots};
ghost use Rattle.plain_model.specs.Typed.{FirstHeapIsTyped};
ghost use Rattle.plain_model.specs.Laws.{FirstHeapHasItsGraph, FirstHeapIsSound, FitStepsKeepHeapsSound, HeapsOfRunsAreSound};

/// A plain run goes on by exactly the acts that may come next.
pub fn one_more_act<Frames>()
    ensures goes_on { OneMoreAct Frames }
    ensures fronts { FrontsArePlainRuns Frames }
    ensures steps { VisibleActsAreSteps Frames }
{}

/// The output of a history is that of its parts, and its operations alone tell it.
pub fn output_is_that_of_the_acts()
    ensures parts { OutputOfParts }
    ensures operations { OutputByOperations }
{}

/// What is reached from a durable place is durable, at every point of a plain run.
pub fn durable_places_refer_to_durable_objects<Frames>()
    ensures { DurableReferToDurable Frames }
{}

/// Nothing becomes durable but for a store that a thread is about to make.
pub fn only_what_was_wanted_becomes_durable<Frames>()
    ensures durable { OnlyWantedBecomesDurable Frames }
    ensures wanted { WantsForTheAsked Frames }
    ensures at_first { WantsNothingAtFirst Frames }
    ensures pending { PendingWasAsked Frames }
{}

/// A durable object stays durable.
pub fn durable_objects_stay()
    ensures { DurableObjectsStay }
{}

/// The visible acts alone tell the plain world.
pub fn visible_acts_tell_the_world()
    ensures world { WorldByVisibleActs }
    ensures persistence { PersistenceLeavesTheWorld }
{}

/// The first heap is sound: each of its references names an object, and each object's shape is there.
pub fn the_first_heap_is_sound()
    ensures { FirstHeapIsSound }
{}

/// The first heap is typed: each slot and each static field has a value of its kind, in its range.
pub fn the_first_heap_is_typed()
    ensures { FirstHeapIsTyped }
{}

/// The first heap of a canonical opening graph has that graph.
pub fn the_first_heap_has_its_graph()
    ensures { FirstHeapHasItsGraph }
{}

/// A step of a fit request keeps the heap sound.
pub fn a_fit_step_keeps_the_heap_sound()
    ensures { FitStepsKeepHeapsSound }
{}

/// The heap is sound after every plain run of code that keeps its duties.
pub fn the_heap_of_a_plain_run_is_sound<Frames>()
    ensures { HeapsOfRunsAreSound Frames }
{}

/// An object has the slots of its class at every point of a plain run.
pub fn objects_have_their_slots<Frames>()
    ensures { ObjectsHaveTheirSlots Frames }
{}
